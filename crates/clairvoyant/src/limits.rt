//! The limits of a set, each by name.

/// The largest size of a set: it is of the numbers below 2^30 at most.
pub const MAX_SIZE: usize = 1 << 30;

/// The bits of a word.
pub(crate) const WORD_BITS: usize = 64;

/// The most words of a layer: a bit of one for each number of the largest set.
pub(crate) const MAX_SET_WORDS: usize = MAX_SIZE / WORD_BITS;
