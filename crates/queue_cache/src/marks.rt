//! Marked places, and how many of them are below one.
ghost use Rattle.std.specs.Prelude.{◌≡◌, ℕ, ◌+◌, ◌<◌, ◌≤◌, ◌*◌, ◌/◌, true, false, cond, eqb, get_or, IfOk, OnOk, length};
ghost use Rattle.engine_base.specs.declared.limits.TheConstants.{MAX_ACCESSES};
ghost use Rattle.engine_base.specs.Bits.{bit_of};
ghost use Rattle.queue_cache.specs.declared.limits.TheConstants.{WORD_BITS};
ghost use Rattle.queue_cache.specs.FenwickTree.{IsFenwickTree};
ghost use Rattle.queue_cache.specs.Sums.{mark_of, marks_before, sum_below};

use crate::fenwick_tree::FenwickTree;
use crate::limits::WORD_BITS;
use std::alloc::{AllocError, Global};

/// A bit for each place, 64 to a word. A Fenwick tree has the number of marks of each word whose places all came, so
/// most places are marked without it.
#[derive(Drop)]
pub(crate) struct Marks {
    words: Vec<u64>,
    tree: FenwickTree,
    ghost counted: { IsFenwickTree (marks_before words.items) tree.sums.items },
}

impl Marks {
    /// No mark, for the places below `len`. The only error is out of memory.
    pub(crate) fn new(alloc: Global, len: usize) -> Result<Marks, AllocError>
        requires { len ≤ MAX_ACCESSES }
        ensures size { IfOk result (λ m. len ≤ WORD_BITS * length m.words.items) }
        ensures tree { IfOk result (λ m. length m.tree.sums.items ≡ 0) }
        ensures none { IfOk result (λ m. (q : ℕ) → bit_of m.words.items q ≡ false) }
    {
        let count = len.div_ceil(WORD_BITS);
        let words: Vec<u64> = vec![in alloc; 0; count]?;
        let tree = FenwickTree::new(alloc, count)?;
        Ok(Marks { words, tree })
    }

    /// Marks the place after all that were marked. The only error is out of memory.
    pub(crate) fn put(&mut self, place: usize) -> Result<(), AllocError>
        requires within { place < WORD_BITS * length self.old.words.items }
        requires tree { length self.old.tree.sums.items ≡ place / WORD_BITS }
        requires free { bit_of self.old.words.items place ≡ false }
        requires few { sum_below (mark_of self.old.words.items) (place + 1) < MAX_ACCESSES }
        ensures size { OnOk result (length self.new.words.items ≡ length self.old.words.items) }
        ensures tree { OnOk result (length self.new.tree.sums.items ≡ (place + 1) / WORD_BITS) }
        ensures puts { OnOk result ((q : ℕ) → bit_of self.new.words.items q ≡
            cond (eqb q place) true (bit_of self.old.words.items q)) }
    {
        let word = place / WORD_BITS;
        let old = self.words[word];
        let marked = old | 1 << (place % WORD_BITS);
        self.words[word] = marked;
        if place % WORD_BITS < WORD_BITS - 1 {
            return Ok(());
        }
        self.tree.push(marked.count_ones())?;
        Ok(())
    }

    /// Takes a place's mark away.
    pub(crate) fn take(&mut self, place: usize)
        requires within { place < WORD_BITS * length self.old.words.items }
        requires marked { bit_of self.old.words.items place ≡ true }
        ensures size { length self.new.words.items ≡ length self.old.words.items }
        ensures tree { length self.new.tree.sums.items ≡ length self.old.tree.sums.items }
        ensures takes { (q : ℕ) → bit_of self.new.words.items q ≡
            cond (eqb q place) false (bit_of self.old.words.items q) }
    {
        let word = place / WORD_BITS;
        let old = self.words[word];
        self.words[word] = old & !(1 << (place % WORD_BITS));
        self.tree.take(word);
    }

    /// How many places below one are marked.
    pub(crate) fn below(&self, place: usize) -> u32
        requires within { place < WORD_BITS * length self.now.words.items }
        requires tree { place / WORD_BITS ≤ length self.now.tree.sums.items }
        requires few { sum_below (mark_of self.now.words.items) place ≤ MAX_ACCESSES }
        ensures { result ≡ sum_below (mark_of self.now.words.items) place }
    {
        let word = place / WORD_BITS;
        let low = self.words[word] & ((1 << (place % WORD_BITS)) - 1);
        self.tree.below(word) + low.count_ones()
    }

    /// The word of a place's mark, 0 past the last one: to read it ahead.
    #[inline(always)]
    pub(crate) fn word_of(&self, place: usize) -> u64
        ensures { result ≡ get_or self.now.words.items (place / WORD_BITS) 0 }
    {
        let word = place / WORD_BITS;
        if word < self.words.len() {
            return self.words[word];
        }
        0
    }
}
