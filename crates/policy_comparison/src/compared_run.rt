//! How often two policies hit at the same accesses of a trace that comes in pieces.
ghost use Rattle.std.specs.Prelude.{◌≡◌, ◌≤◌, ◌+◌, ℕ, List, Ok, IfOk, OnOk, length};
ghost use Rattle.engine_base.specs.Config.{config_fault};
ghost use Rattle.policy_comparison.specs.Comparison.{Job, compared_on};
ghost use Rattle.policy_comparison.specs.ComparedIntervals.{compared_intervals_on};
ghost use Rattle.policy_comparison.specs.ComparedRun.{HasCompared};
ghost use Rattle.sweeps.specs.Taking.{AreNext, CanTake, HasTakenAll, RunsOver};

use crate::compared_rows::{ComparedInterval, ComparedRows};
use crate::comparison::Comparison;
use crate::pair::Pair;
use std::alloc::{AllocError, Global};
use std::thread::Threads;
use step_record::{Job, Key, Trace};
use sweeps::Taker;

/// Two caches, with what is counted of their accesses.
pub struct ComparedRun {
    pair: Pair,
    counted: ComparedRows,
}

impl Drop for ComparedRun {
    fn drop(self) {
        let ComparedRun {
            pair: _,
            counted: _,
        } = self;
    }
}

impl ComparedRun {
    /// A run of both jobs over the trace, before the first access, with intervals of `every` accesses. It requires
    /// configurations that `Config::check` accepts. The one error is out of memory.
    pub fn open(
        alloc: Global,
        trace: &Trace,
        first: &Job,
        second: &Job,
        every: usize,
    ) -> Result<ComparedRun, AllocError>
        requires first { config_fault first.now.config ≡ Ok tt }
        requires second { config_fault second.now.config ≡ Ok tt }
        requires some { 1 ≤ every }
        ensures { IfOk result (λ run. (other : List ℕ) → RunsOver trace.now other first.now
            → RunsOver trace.now other second.now → HasCompared every first.now second.now other 0 run) }
    {
        let pair = Pair::open(alloc, trace, first, second)?;
        let counted = ComparedRows::none(alloc, every);
        Ok(ComparedRun { pair, counted })
    }

    /// What was counted once all accesses were taken.
    pub fn counts(&self) -> Comparison
        ensures { (every : ℕ) (first second : Job) (trace : List ℕ)
            → HasCompared every first second trace (length trace) self.now → result ≡ compared_on first second trace }
    {
        self.counted.counts()
    }

    /// The rows once all accesses were taken. The one error is out of memory.
    pub fn into_rows(self) -> Result<Vec<ComparedInterval>, AllocError>
        requires { (every : ℕ) × (first second : Job) × HasTakenAll (HasCompared every first second) self }
        ensures { (every : ℕ) (first second : Job) (trace : List ℕ)
            → HasCompared every first second trace (length trace) self
            → IfOk result (λ rows. rows.items ≡ compared_intervals_on every first second trace) }
    {
        let ComparedRun { pair: _, counted } = self;
        counted.into_rows()
    }

    // Takes the accesses. The one error is out of memory.
    fn take_all<T: Threads>(&mut self, rt: &T, keys: &[Key]) -> Result<(), AllocError>
        requires { (every : ℕ) × (first second : Job) × CanTake (HasCompared every first second) keys.now self.old }
        ensures { (every : ℕ) (first second : Job) (trace : List ℕ) (n : ℕ) → AreNext trace n keys.now
            → HasCompared every first second trace n self.old
            → OnOk result (HasCompared every first second trace (n + length keys.now) self.new) }
    {
        self.pair.advance(rt, keys)?;
        for i in 0..keys.len() {
            let (first, second) = self.pair.hits_at(i);
            self.counted.count(first, second)?;
        }
        Ok(())
    }
}

impl Taker for ComparedRun {
    ghost use Rattle.policy_comparison.specs.ComparedRun.{HasComparedTask};

    ghost has_taken = { HasComparedTask };

    fn take<T: Threads + Sync>(&mut self, rt: &T, keys: &[Key]) -> Result<(), AllocError> {
        self.take_all(rt, keys)
    }
}
