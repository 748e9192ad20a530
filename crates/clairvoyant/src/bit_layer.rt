//! A set as bits in words, over a smaller set.
ghost use Rattle.std.specs.Prelude.{◌≡◌, ◌*◌, ◌≤◌, length};
ghost use Rattle.engine_base.specs.Bits.{bit_of};
ghost use Rattle.clairvoyant.specs.declared.limits.TheConstants.{WORD_BITS, MAX_SET_WORDS};
ghost use Rattle.clairvoyant.specs.Bits.{IsBitLayer};

use crate::limits::WORD_BITS;
use crate::number_set::NumberSet;
use engine_base::bits;
use std::alloc::{AllocError, Global};

/// Words of bits, under a set of the places of those that are not 0.
#[derive(Drop)]
pub(crate) struct BitLayer<U: NumberSet> {
    words: Vec<u64>,
    upper: U,
    ghost above: { IsBitLayer words.items (U.size upper) (U.held upper) },
    ghost few: { length words.items ≤ MAX_SET_WORDS },
}

impl<U: NumberSet> NumberSet for BitLayer<U> {
    ghost most = { WORD_BITS * U.most };

    ghost size = { λ l. WORD_BITS * length l.words.items };

    ghost held = { λ l. bit_of l.words.items };

    fn new(alloc: Global, len: usize) -> Result<BitLayer<U>, AllocError> {
        let count = len.div_ceil(WORD_BITS);
        let words = vec![in alloc; 0; count]?;
        let upper = U::new(alloc, count)?;
        Ok(BitLayer { words, upper })
    }

    fn put(&mut self, place: usize) {
        let word = place / WORD_BITS;
        let old = self.words[word];
        self.words[word] = old | 1 << (place % WORD_BITS);
        if old == 0 {
            self.upper.put(word);
        }
    }

    fn take(&mut self, place: usize) {
        let word = place / WORD_BITS;
        let left = self.words[word] & !(1 << (place % WORD_BITS));
        self.words[word] = left;
        if left == 0 {
            self.upper.take(word);
        }
    }

    fn least(&self) -> Option<usize> {
        match self.upper.least() {
            None => None,
            Some(word) => Some(WORD_BITS * word + self.words[word].trailing_zeros() as usize),
        }
    }
}

impl<U: NumberSet> BitLayer<U> {
    ghost use Rattle.std.specs.Prelude.{◌<◌};

    /// Whether a number is in the set.
    pub(crate) fn has(&self, place: usize) -> bool
        requires { place < WORD_BITS * length self.now.words.items }
        ensures { result ≡ bit_of self.now.words.items place }
    {
        bits::get(&self.words, place)
    }
}
