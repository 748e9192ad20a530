//! Numbers in decimal.
ghost use Rattle.std.specs.Prelude.{◌≡◌, ◌≤◌, ◌<◌, ◌+◌, ◌*◌, ◌^◌, MatchOption};
ghost use Rattle.streams.specs.Numbers.{number_of};

/// The number that the text is, if it is one of a value below 2^64: digits alone, of which leading
/// ones may be 0. A sign, which `str::parse` reads, makes no number.
// Kept out of its callers' loops over lines, which leave it no register for the value.
#[inline(never)]
pub fn number(text: &[u8]) -> Option<u64>
    ensures { result ≡ number_of text.now }
{
    if text.is_empty() {
        return None;
    }
    let mut value: u64 = 0;
    for byte in text {
        if !byte.is_ascii_digit() {
            return None;
        }
        value = with_digit(value, *byte - b'0')?;
    }
    Some(value)
}

// The value with one more digit after it. Most values are far below the limit, and for those no
// test of the product stands between one digit and the next.
fn with_digit(value: u64, digit: u8) -> Option<u64>
    ensures { MatchOption result (2 ^ 64 ≤ value * 10 + digit)
        (λ v. (v ≡ value * 10 + digit) × (v < 2 ^ 64)) }
{
    if value < 1 << 60 {
        return Some(value * 10 + u64::from(digit));
    }
    value.checked_mul(10)?.checked_add(u64::from(digit))
}
