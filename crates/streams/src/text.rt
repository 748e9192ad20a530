//! Text appended to a buffer.
ghost use Rattle.std.specs.Prelude.{◌≡◌, ◌++◌, OnOk, codes};
ghost use Rattle.std.specs.List.{flat_map};
ghost use Rattle.streams.specs.Texts.{count_text};

use itoa::Buffer;
use std::alloc::AllocError;

/// Adds a name and a number. The one error is that the allocation failed.
pub fn push_count(text: &mut Vec<u8>, name: &[u8], count: u64) -> Result<(), AllocError>
    ensures { OnOk result (text.new.items ≡ text.old.items ++ count_text name.now count) }
{
    let mut digits = Buffer::new();
    text.extend_from_slice(name)?;
    text.extend_from_slice(digits.format(count).as_bytes())
}

/// Adds pieces, one after another. The one error is that the allocation failed.
pub fn push_pieces(text: &mut Vec<u8>, pieces: &[&[u8]]) -> Result<(), AllocError>
    ensures { OnOk result (text.new.items ≡ text.old.items ++ flat_map (λ piece. piece.now) pieces.now) }
{
    for piece in pieces {
        text.extend_from_slice(piece)?;
    }
    Ok(())
}

/// Adds numbers, each after a separator, and a line feed. The one error is that the allocation failed.
pub fn push_numbers_line(
    text: &mut Vec<u8>,
    separator: &[u8],
    numbers: &[u64],
) -> Result<(), AllocError>
    ensures { OnOk result (text.new.items
        ≡ text.old.items ++ (flat_map (count_text separator.now) numbers.now ++ codes "\n")) }
{
    for number in numbers {
        push_count(text, separator, *number)?;
    }
    text.extend_from_slice(b"\n")
}

/// Adds counts, each after its name, and a line feed. The one error is that the allocation failed.
pub fn push_counts_line(text: &mut Vec<u8>, counts: &[(&[u8], u64)]) -> Result<(), AllocError>
    ensures { OnOk result (text.new.items
        ≡ text.old.items ++ (flat_map (λ c. count_text c.0.now c.1) counts.now ++ codes "\n")) }
{
    for (name, count) in counts {
        push_count(text, name, *count)?;
    }
    text.extend_from_slice(b"\n")
}
