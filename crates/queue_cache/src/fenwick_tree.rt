//! Counts by place, with their sums.
ghost use Rattle.std.specs.Prelude.{◌≡◌, ℕ, ◌+◌, ◌<◌, ◌≤◌, cond, nat_lt, length, IfOk, OnOk};
ghost use Rattle.engine_base.specs.declared.limits.TheConstants.{MAX_ACCESSES};
ghost use Rattle.queue_cache.specs.FenwickTree.{IsFenwickTree};

use std::alloc::{AllocError, Global};

/// A list of counts, as sums over stretches of them (Fenwick, "A new data structure for cumulative frequency tables",
/// 1994). What is counted below a place is a sum of as many numbers as the place has bits, at most, and so many change
/// with a count.
#[derive(Drop)]
pub(crate) struct FenwickTree {
    // At j, the sum of the counts from the place j & (j + 1) to j.
    sums: Vec<u32>,
}

impl FenwickTree {
    /// No counts, with room for so many. The only error is out of memory.
    pub(crate) fn new(alloc: Global, room: usize) -> Result<FenwickTree, AllocError>
        ensures { IfOk result (λ t. length t.sums.items ≡ 0) }
    {
        Ok(FenwickTree {
            sums: Vec::with_capacity(alloc, room)?,
        })
    }

    /// How many counts there are.
    #[inline(always)]
    pub(crate) fn len(&self) -> usize
        ensures { result ≡ length self.now.sums.items }
    {
        self.sums.len()
    }

    /// Adds a count after the others. The only error is out of memory.
    pub(crate) fn push(&mut self, count: u32) -> Result<(), AllocError>
        requires { (total : ℕ → ℕ) × IsFenwickTree total self.old.sums.items
            × (total (length self.old.sums.items) + count ≤ MAX_ACCESSES) }
        ensures len { OnOk result (length self.new.sums.items ≡ length self.old.sums.items + 1) }
        ensures tree { (total : ℕ → ℕ) → IsFenwickTree total self.old.sums.items
            → total (length self.old.sums.items + 1) ≡ total (length self.old.sums.items) + count
            → IsFenwickTree total self.new.sums.items }
    {
        let place = self.sums.len();
        let sum = self.below(place) - self.below(place & (place + 1)) + count;
        self.sums.push(sum)?;
        Ok(())
    }

    /// Counts one less at a place.
    #[inline(always)]
    pub(crate) fn take(&mut self, place: usize)
        requires { (total : ℕ → ℕ) × IsFenwickTree total self.old.sums.items × (total place < total (place + 1)) }
        ensures len { length self.new.sums.items ≡ length self.old.sums.items }
        ensures tree { (total less : ℕ → ℕ) → IsFenwickTree total self.old.sums.items
            → ((n : ℕ) → total n ≡ less n + cond (nat_lt place n) 1 0) → total place < total (place + 1)
            → IsFenwickTree less self.new.sums.items }
    {
        let mut at = place;
        while at < self.sums.len() {
            self.sums[at] -= 1;
            at |= at + 1;
        }
    }

    /// What is counted below a place.
    #[inline(always)]
    pub(crate) fn below(&self, place: usize) -> u32
        requires within { place ≤ length self.now.sums.items }
        requires few { (total : ℕ → ℕ) × IsFenwickTree total self.now.sums.items × (total place ≤ MAX_ACCESSES) }
        ensures { (total : ℕ → ℕ) → IsFenwickTree total self.now.sums.items → result ≡ total place }
    {
        let mut sum = 0;
        let mut end = place;
        while end > 0 {
            sum += self.sums[end - 1];
            end &= end - 1;
        }
        sum
    }
}
