//! The blanks at the ends of a line.
ghost use Rattle.std.specs.Prelude.{◌≡◌};
ghost use Rattle.streams.specs.Blanks.{is_blank, trimmed_text, without_back};

/// The line without the blanks at its ends.
pub fn trimmed(line: &[u8]) -> &[u8]
    ensures { result.now ≡ trimmed_text line.now }
{
    let mut rest = line;
    'front: while let [first, tail @ ..] = rest {
        if !is_blank_byte(*first) {
            break;
        }
        rest = tail;
    }
    trimmed_back(rest)
}

fn is_blank_byte(byte: u8) -> bool
    ensures { result ≡ is_blank byte }
{
    byte == b' ' || byte == b'\t' || byte == b'\r'
}

fn trimmed_back(text: &[u8]) -> &[u8]
    ensures { result.now ≡ without_back text.now }
{
    let mut end = text.len();
    'back: while end > 0 {
        if !is_blank_byte(text[end - 1]) {
            break;
        }
        end -= 1;
    }
    &text[..end]
}
