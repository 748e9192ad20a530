//! Eight words of counters at a time, by vectors.
ghost use Rattle.std.specs.Prelude.{[], ◌∷◌, ◌≡◌, ◌<◌, ◌≤◌, ◌+◌, ◌*◌, ◌/◌, ◌%◌, ◌^◌, cond, nat_lt, length, map, ℕ};
ghost use Rattle.std.specs.Prelude.{slice_index};
ghost use Rattle.sketch.specs.Counters.{nibble};
ghost use Rattle.sketch.specs.Laws.{halved_word, odd_bits, lost_word};
ghost use lib.Lanes.{chunk, put_chunk};

use std::simd::u64x8;

/// The three lower bits of each of a word's counters.
pub const SEVENS: u64 = 0x7777777777777777;

/// The lowest bit of each of a word's counters.
pub const ONES: u64 = 0x1111111111111111;

// By how much the lost bits of each of eight words are shifted: those of four words fill one.
const SHIFTS: [u64; 8] = [0, 1, 2, 3, 0, 1, 2, 3];

/// Halves the counters of the eight words from `at` on, and returns the two words of bits that they lose.
pub fn halve_block(words: &mut [u64], at: usize) -> [u64; 2]
    requires { at + 8 ≤ length words.old }
    ensures words { words.new ≡ put_chunk at words.old (map halved_word (chunk at 8 words.old)) }
    ensures lost { (j : ℕ) → at ≡ 4 * j → result ≡ lost_word words.old j ∷ lost_word words.old (j + 1) ∷ [] }
{
    let lanes = u64x8::from_slice(&words[at..]);
    let halves = (lanes >> u64x8::splat(1)) & u64x8::splat(SEVENS);
    halves.copy_to_slice(&mut words[at..]);
    let bits = ((lanes & u64x8::splat(ONES)) << u64x8::from_array(SHIFTS)).to_array();
    [
        bits[0] | bits[1] | bits[2] | bits[3],
        bits[4] | bits[5] | bits[6] | bits[7],
    ]
}

/// Doubles the counters of the eight words from `at` on, none of which is over 7, and adds the bits that they lost:
/// those of the first four words are in `low`, those of the others in `high`.
pub fn unhalve_block(words: &mut [u64], at: usize, low: u64, high: u64)
    requires within { at + 8 ≤ length words.old }
    requires low { (t : ℕ) → t < 8 → (n : ℕ) → n < 16 → nibble (slice_index words.old (at + t)) n ≤ 7 }
    ensures block { (t : ℕ) → t < 8
        → slice_index words.new (at + t) ≡ 2 * slice_index words.old (at + t) + odd_bits
        (cond (nat_lt t 4) low high / 2 ^ (t % 4)) }
    ensures below { (k : ℕ) → k < at → slice_index words.new k ≡ slice_index words.old k }
    ensures above { (k : ℕ) → at + 8 ≤ k → slice_index words.new k ≡ slice_index words.old k }
{
    let lanes = u64x8::from_slice(&words[at..]);
    let lost = u64x8::from_array([low, low, low, low, high, high, high, high]);
    let bits = (lost >> u64x8::from_array(SHIFTS)) & u64x8::splat(ONES);
    ((lanes << u64x8::splat(1)) + bits).copy_to_slice(&mut words[at..]);
}
