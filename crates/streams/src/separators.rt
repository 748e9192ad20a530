//! A text cut at a byte.
ghost use Rattle.std.specs.Prelude.{◌≡◌, ◌≤◌, ◌++◌, ◌∷◌, [], length};
ghost use Rattle.std.specs.List.{slice_split};
ghost use Rattle.std.specs.Option.{option_map_or};
ghost use Rattle.streams.specs.Cuts.{is_byte, byte_place, Lacks};

/// Where the byte first stands in the text, or the length of the text.
pub fn place_of(text: &[u8], byte: u8) -> usize
    ensures place { result ≡ byte_place byte text.now }
    ensures within { result ≤ length text.now }
{
    let mut place = 0;
    'bytes: while place < text.len() {
        if text[place] == byte {
            break;
        }
        place += 1;
    }
    place
}

/// The text before the first such byte, and the text after it; all of the text, and `None`, where the byte is
/// not in it.
pub fn cut(text: &[u8], byte: u8) -> (&[u8], Option<&[u8]>)
    ensures front { Lacks byte result.0.now }
    ensures whole { text.now ≡ result.0.now ++ option_map_or (λ r. byte ∷ r.now) result.1 [] }
    // So it is the first of the parts that the byte separates, and the others follow.
    ensures parts { slice_split (is_byte byte) text.now
        ≡ result.0.now ∷ option_map_or (λ r. slice_split (is_byte byte) r.now) result.1 [] }
{
    let place = place_of(text, byte);
    if place == text.len() {
        return (text, None);
    }
    (&text[..place], Some(&text[place + 1..]))
}
