//! The sizes that a policy's word carries.
ghost use Rattle.std.specs.Prelude.{◌≡◌, ◌++◌, OnOk};
ghost use Rattle.step_record.specs.Sizes.{no_sizes, size_text, sizes_text};

use itoa::Buffer;
use std::alloc::AllocError;

/// The sizes that a policy's word carries, as `2q:in=50:out=100`, each where it is given. What they are is said at
/// `Config::main_percent` and in `Tuning`.
#[derive(Clone, Copy, Debug, PartialEq, Eq)]
pub struct Sizes {
    pub main: Option<u8>,
    pub period: Option<u32>,
    pub kin: Option<u8>,
    pub kout: Option<u8>,
    pub small: Option<u8>,
}

impl Sizes {
    /// A word that carries none.
    pub const NONE: Sizes = Sizes {
        main: None,
        period: None,
        kin: None,
        kout: None,
        small: None,
    };
}

/// Adds the sizes that are given, in the order of the fields.
pub(crate) fn push_sizes(text: &mut Vec<u8>, sizes: &Sizes) -> Result<(), AllocError>
    ensures { OnOk result (text.new.items ≡ text.old.items ++ sizes_text sizes.now) }
{
    push_size(text, b":main=", widened(sizes.main))?;
    push_size(text, b":period=", sizes.period)?;
    push_size(text, b":in=", widened(sizes.kin))?;
    push_size(text, b":out=", widened(sizes.kout))?;
    push_size(text, b":small=", widened(sizes.small))
}

// Adds a size, where it is given.
fn push_size(text: &mut Vec<u8>, name: &[u8], size: Option<u32>) -> Result<(), AllocError>
    ensures { OnOk result (text.new.items ≡ text.old.items ++ size_text name.now size) }
{
    if let Some(size) = size {
        text.extend_from_slice(name)?;
        text.extend_from_slice(Buffer::new().format(size).as_bytes())?;
    }
    Ok(())
}

// The same size as a longer number.
fn widened(size: Option<u8>) -> Option<u32>
    ensures { result ≡ size }
{
    match size {
        Some(size) => Some(u32::from(size)),
        None => None,
    }
}
