//! What is counted of two policies access by access, with a row for each interval.
ghost use Rattle.std.specs.Int.{div_ceil};
ghost use Rattle.std.specs.Prelude.{◌≡◌, ◌≤◌, ◌+◌, Bool, List, ℕ, length, IfOk, OnOk};
ghost use Rattle.policy_comparison.specs.CacheAccess.{StandsAt};
ghost use Rattle.policy_comparison.specs.ComparedIntervals.{compared_at, first_compared};
ghost use Rattle.policy_comparison.specs.ComparedRows.{CanCount, EndsRow, HasBegun, HasCounted, HasCountedAll, rows_in};
ghost use Rattle.policy_comparison.specs.Comparison.{counts_of};

use crate::comparison::Comparison;
use std::alloc::{AllocError, Global};

/// Accesses `from` to `to` of a trace, counted from 1, and at how many of them both of two policies hit, only the
/// first, only the second, and neither.
#[derive(Clone, Copy)]
pub struct ComparedInterval {
    pub from: u64,
    pub to: u64,
    pub counts: Comparison,
}

/// What was counted of the first accesses of two policies, with a row for each interval that is over.
#[derive(Drop)]
pub(crate) struct ComparedRows {
    // How many accesses an interval has.
    every: usize,
    counts: Comparison,
    // What was counted of the interval that is not over.
    interval: Comparison,
    rows: Vec<ComparedInterval>,
}

impl ComparedRows {
    /// Before any access, with intervals of `every` accesses.
    pub(crate) fn none(alloc: Global, every: usize) -> ComparedRows
        requires { 1 ≤ every }
        ensures { (hits : List (Bool × Bool)) → HasCounted every hits 0 result }
    {
        let rows = Vec::new(alloc);
        let counts = Comparison::none();
        ComparedRows {
            every,
            counts,
            interval: counts,
            rows,
        }
    }

    /// Counts one access more, at which the policies hit or not. The one error is out of memory.
    #[inline(always)]
    pub(crate) fn count(&mut self, first: bool, second: bool) -> Result<(), AllocError>
        requires { CanCount (first, second) self.old }
        ensures { (every : ℕ) (hits : List (Bool × Bool)) (n : ℕ) → StandsAt hits n (first, second)
            → HasCounted every hits n self.old → OnOk result (HasCounted every hits (n + 1) self.new) }
    {
        self.counts.count(first, second);
        self.interval.count(first, second);
        if self.interval.accesses < self.every as u64 {
            return Ok(());
        }
        self.end_row()
    }

    /// What was counted once all accesses were.
    pub(crate) fn counts(&self) -> Comparison
        ensures { (every : ℕ) (hits : List (Bool × Bool)) → HasCounted every hits (length hits) self.now
            → result ≡ counts_of hits }
    {
        self.counts
    }

    /// The rows once all accesses were counted; the last interval may be shorter than the others. The one error is out
    /// of memory.
    pub(crate) fn into_rows(self) -> Result<Vec<ComparedInterval>, AllocError>
        requires { HasCountedAll self }
        ensures { (every : ℕ) (hits : List (Bool × Bool)) → HasCounted every hits (length hits) self
            → IfOk result (λ rows. rows.items ≡ first_compared every hits (div_ceil (length hits) every)) }
    {
        if self.interval.accesses == 0 {
            return Ok(self.rows);
        }
        let row = self.row();
        let mut rows = self.rows;
        rows.push(row)?;
        Ok(rows)
    }

    // Ends the interval whose accesses were counted. The one error is out of memory.
    fn end_row(&mut self) -> Result<(), AllocError>
        requires begun { HasBegun self.old }
        requires whole { self.old.interval.accesses ≡ self.old.every }
        ensures { (every : ℕ) (hits : List (Bool × Bool)) (n : ℕ) → EndsRow every hits n self.old
            → OnOk result (HasCounted every hits n self.new) }
    {
        let row = self.row();
        self.rows.push(row)?;
        self.interval = Comparison::none();
        Ok(())
    }

    // The row of the interval whose accesses were counted.
    fn row(&self) -> ComparedInterval
        requires { HasBegun self.now }
        ensures { (every : ℕ) (hits : List (Bool × Bool)) (n : ℕ) → EndsRow every hits n self.now
            → result ≡ compared_at every hits (rows_in self.now) }
    {
        ComparedInterval {
            from: self.counts.accesses - self.interval.accesses + 1,
            to: self.counts.accesses,
            counts: self.interval,
        }
    }
}
