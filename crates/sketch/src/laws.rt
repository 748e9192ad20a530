//! The halving of packed counters, and its undoing: eight words at a time by vectors, and the rest by plain loops.
ghost use Rattle.std.specs.Prelude.{◌≡◌, ◌<◌, ◌≤◌, ◌+◌, ◌*◌, ◌/◌, ◌^◌, length, map, ℕ, slice_index};
ghost use Rattle.sketch.specs.Counters.{nibble, counter_at};
ghost use Rattle.sketch.specs.Laws.{halved_word, odd_bits, lost_word, lost_of_word, unhalved_words};
ghost use Rattle.engine_base.specs.Places.{by_place};
ghost use Rattle.sketch.specs.Sketch.{is_odd};
ghost use Rattle.std.specs.Prelude.{count_by};

use crate::blocks::{ONES, SEVENS, halve_block, unhalve_block};

/// Halves each of the sixteen counters of each word, and fills `lost` with the bits that are lost: those of the words
/// 4j to 4j+3 fill its word j, each a place further than the one before, and a word that is missing counts as 0.
pub fn halve_words(words: &mut [u64], lost: &mut [u64])
    requires { length lost.old ≡ (length words.old + 3) / 4 }
    ensures words { words.new ≡ map halved_word words.old }
    ensures lost { lost.new ≡ by_place (length lost.old) (lost_word words.old) }

    // So the words can be unhalved by what they lost, which gives the old ones.
    ensures low { (i : ℕ) → counter_at words.new i ≤ 7 }
    ensures undone { unhalved_words words.new lost.new ≡ words.old }
{
    let whole = words.len() / 8;
    for block in 0..whole {
        let bits = halve_block(words, 8 * block);
        lost[2 * block] = bits[0];
        lost[2 * block + 1] = bits[1];
    }
    gather_rest(words, lost, 2 * whole);
    halve_rest(words, 8 * whole);
}

/// Doubles each of the sixteen counters of each word, none of which is over 7, and adds its lost bit.
pub fn unhalve_words(words: &mut [u64], lost: &[u64])
    requires whole { length lost.now ≡ (length words.old + 3) / 4 }
    requires low { (i : ℕ) → counter_at words.old i ≤ 7 }
    ensures { words.new ≡ unhalved_words words.old lost.now }
{
    let whole = words.len() / 8;
    for block in 0..whole {
        unhalve_block(words, 8 * block, lost[2 * block], lost[2 * block + 1]);
    }
    unhalve_rest(words, lost, 8 * whole);
}

/// How many of the words' counters are odd.
pub fn odd_counters(words: &[u64]) -> u32
    requires { length words.now ≤ 2 ^ 20 }
    ensures { result ≡ count_by is_odd (by_place (16 * length words.now) (counter_at words.now)) }
{
    let mut odd = 0;
    for i in 0..words.len() {
        odd += (words[i] & ONES).count_ones();
    }
    odd
}

// The lowest bits of a word's counters, 0 past the end.
fn ones(words: &[u64], i: usize) -> u64
    ensures value { result ≡ odd_bits (slice_index words.now i) }
    ensures few { result ≤ 0x1111111111111111 }
{
    if i < words.len() { words[i] & ONES } else { 0 }
}

// The lowest bits of four words' counters.
fn gather(words: &[u64], j: usize) -> u64
    requires { 4 * j < length words.now }
    ensures { result ≡ lost_word words.now j }
{
    let at = 4 * j;
    ones(words, at) | ones(words, at + 1) << 1 | ones(words, at + 2) << 2 | ones(words, at + 3) << 3
}

// Fills the lost words from one on.
fn gather_rest(words: &[u64], lost: &mut [u64], from: usize)
    requires { length lost.old ≡ (length words.now + 3) / 4 }
    ensures before { (j : ℕ) → j < from → slice_index lost.new j ≡ slice_index lost.old j }
    ensures rest { (j : ℕ) → from ≤ j → j < length lost.old → slice_index lost.new j ≡ lost_word words.now j }
{
    for j in from..lost.len() {
        lost[j] = gather(words, j);
    }
}

// Halves the words from one on.
fn halve_rest(words: &mut [u64], from: usize)
    ensures before { (k : ℕ) → k < from → slice_index words.new k ≡ slice_index words.old k }
    ensures rest { (k : ℕ) → from ≤ k → k < length words.old
        → slice_index words.new k ≡ halved_word (slice_index words.old k) }
{
    for i in from..words.len() {
        words[i] = (words[i] >> 1) & SEVENS;
    }
}

// A word's counters doubled, with their lost bits.
fn doubled(word: u64, lost: u64, t: usize) -> u64
    requires low { (n : ℕ) → n < 16 → nibble word n ≤ 7 }
    requires t { t < 4 }
    ensures { result ≡ 2 * word + odd_bits (lost / 2 ^ t) }
{
    (word << 1) + ((lost >> t) & ONES)
}

// Doubles the words from one on, and adds their lost bits.
fn unhalve_rest(words: &mut [u64], lost: &[u64], from: usize)
    requires whole { length lost.now ≡ (length words.old + 3) / 4 }
    requires low { (k : ℕ) → from ≤ k → (n : ℕ) → n < 16 → nibble (slice_index words.old k) n ≤ 7 }
    ensures before { (k : ℕ) → k < from → slice_index words.new k ≡ slice_index words.old k }
    ensures rest { (k : ℕ) → from ≤ k → k < length words.old
        → slice_index words.new k ≡ 2 * slice_index words.old k + lost_of_word lost.now k }
{
    for i in from..words.len() {
        words[i] = doubled(words[i], lost[i / 4], i % 4);
    }
}
