//! Numbers of a few digits, eight digits at a time: eight bytes are read as one word, and three multiplications make
//! the number that they write.
ghost use Rattle.std.specs.Prelude.{◌≡◌, ◌≤◌, ◌<◌, ◌^◌, ℕ, List, true, IfSome, length, take};
ghost use Rattle.std.specs.Int.Digits.{number_from_digits, AllBelowBase};
ghost use Rattle.std.specs.Simd.Lanes.{number_l};
ghost use Rattle.std.specs.Str.{all_ascii_digits};
ghost use Rattle.std.specs.Str.Parse.{digits_value};
ghost use Rattle.trace_read.specs.DigitRuns.{AreDigits};

/// How many digits two words of eight have.
pub const SHORT_DIGITS: usize = 16;

/// How many digits 2^64 - 1 has.
pub const MAX_DIGITS: usize = 20;

/// The number that the first bytes write, one to eight digits.
#[inline(always)]
pub fn short_number(text: &[u8], count: usize) -> u64
    requires text { 8 ≤ length text.now }
    requires count { (1 ≤ count) × (count ≤ 8) }
    requires digits { AreDigits text.now count }
    ensures value { result ≡ digits_value 10 (take count text.now) }
    ensures below { result < 10 ^ 8 }
{
    value_of_eight((first_word(text) ^ 0x3030_3030_3030_3030) << (64 - 8 * count))
}

/// The number that the first bytes write, nine to sixteen digits.
#[inline(always)]
pub fn long_number(text: &[u8], count: usize) -> u64
    requires text { 16 ≤ length text.now }
    requires count { (9 ≤ count) × (count ≤ 16) }
    requires digits { AreDigits text.now count }
    ensures value { result ≡ digits_value 10 (take count text.now) }
    ensures below { result < 10 ^ 16 }
    ensures few { result < 10 ^ count }
{
    short_number(text, count - 8) * 100_000_000 + short_number(&text[count - 8..], 8)
}

/// The number that the first bytes write, 17 to 20 digits. `None` says nothing of it, and comes only with twenty digits
/// that write 18,446,744,073,700,000,000 or more: a few million of these are below 2^64.
#[inline(always)]
pub fn longest_number(text: &[u8], count: usize) -> Option<u64>
    requires text { count ≤ length text.now }
    requires count { (17 ≤ count) × (count ≤ 20) }
    requires digits { AreDigits text.now count }
    ensures { IfSome result (λ v. (v ≡ digits_value 10 (take count text.now)) × (v < 2 ^ 64)) }
{
    let upper = long_number(text, count - 8);
    let last = short_number(&text[count - 8..], 8);
    if upper >= u64::MAX / 100_000_000 {
        return None;
    }
    Some(upper * 100_000_000 + last)
}

/// The number that the first bytes write, one to sixteen digits.
#[inline(always)]
pub fn decimal(text: &[u8], count: usize) -> u64
    requires text { 16 ≤ length text.now }
    requires count { (1 ≤ count) × (count ≤ 16) }
    requires digits { AreDigits text.now count }
    ensures digits { all_ascii_digits (take count text.now) ≡ true }
    ensures value { result ≡ digits_value 10 (take count text.now) }
    ensures below { result < 10 ^ 16 }
{
    if count <= 8 {
        short_number(text, count)
    } else {
        long_number(text, count)
    }
}

/// The first eight bytes, the first of them the lowest.
#[inline(always)]
pub fn first_word(text: &[u8]) -> u64
    requires { 8 ≤ length text.now }
    ensures { result ≡ number_l 256 (take 8 text.now) }
{
    u64::from_le_bytes([
        text[0], text[1], text[2], text[3], text[4], text[5], text[6], text[7],
    ])
}

// The number that eight digits write, the first of them in the lowest byte.
#[inline(always)]
fn value_of_eight(word: u64) -> u64
    ensures { (ds : List ℕ) → length ds ≡ 8 → AllBelowBase 10 ds → word ≡ number_l 256 ds
        → result ≡ number_from_digits 10 ds }
{
    let pairs = (word.wrapping_mul((10 << 8) + 1) >> 8) & 0x00ff_00ff_00ff_00ff;
    // The first four digits are in the second sixteen bits, the last four in the last.
    let fours = pairs.wrapping_mul((100 << 16) + 1);
    (fours >> 16) % (1 << 16) * 10_000 + (fours >> 48)
}
