//! A packed list of bits.
ghost use Rattle.std.specs.Prelude.{◌≡◌, ◌≤◌, ◌/◌, length};
ghost use Rattle.engine_base.specs.declared.bit_list.TheConstants.{MAX_LIST_WORDS};
ghost use Rattle.engine_base.specs.Bits.{bits_of};

use std::marker::Model;

/// The most words that a [`BitList`] holds: 2^24 bits.
pub const MAX_LIST_WORDS: usize = 1 << 18;

/// A list of bits, 64 to a word, that does not change. Contracts see the list of the bits, and its invariant says that
/// it holds nothing beside the words: an undo record that holds one holds no more than its bits.
#[derive(Drop)]
pub struct BitList {
    words: Vec<u64>,
}

impl Model for BitList {
    ghost use Rattle.std.specs.Prelude.{List, Bool};
    ghost use Rattle.engine_base.specs.BitList.{bits_in, IsWordsAlone};

    ghost Value = { List Bool };

    ghost view = { bits_in };

    ghost invariant = { IsWordsAlone };
}

impl BitList {
    /// The bits of the words. Takes the words over and allocates nothing.
    pub fn of_words(words: Vec<u64>) -> BitList
        requires { length words.items ≤ MAX_LIST_WORDS }
        ensures { result ≡ bits_of words.items }
    {
        BitList { words }
    }

    /// The words that hold the bits.
    pub fn as_words(&self) -> &[u64]
        ensures { bits_of result.now ≡ self.now }
    {
        &self.words
    }

    /// The words that hold the bits, handed over; the list is gone.
    pub fn into_words(self) -> Vec<u64>
        ensures { bits_of result.items ≡ self }
    {
        self.words
    }

    /// How many words it holds.
    pub fn words(&self) -> u64
        ensures words { result ≡ length self.now / 64 }
        ensures few { result ≤ MAX_LIST_WORDS }
    {
        self.words.len() as u64
    }
}
