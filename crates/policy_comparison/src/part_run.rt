//! The first access of a trace that comes in pieces at which one policy hits and the other does not.
ghost use Rattle.std.specs.Prelude.{◌≡◌, ◌+◌, ℕ, List, Ok, IfOk, OnOk, length};
ghost use Rattle.engine_base.specs.Config.{config_fault};
ghost use Rattle.policies.specs.AnyPolicy.{Job, outcomes_on};
ghost use Rattle.policy_comparison.specs.Part.{IsPart};
ghost use Rattle.policy_comparison.specs.PartRun.{HasParted};
ghost use Rattle.sweeps.specs.Taking.{AreNext, CanTake, RunsOver};

use crate::pair::Pair;
use policies::theorems;
use std::alloc::{AllocError, Global};
use std::thread::Threads;
use step_record::{Job, Key, Trace};
use sweeps::Taker;

/// Two caches, with the first access at which just one of them hit.
pub struct PartRun {
    pair: Pair,
    // How many accesses they made.
    place: u64,
    // Once it is found they make no more.
    found: Option<u64>,
}

impl Drop for PartRun {
    fn drop(self) {
        let PartRun {
            pair: _,
            place: _,
            found: _,
        } = self;
    }
}

impl PartRun {
    /// A run of both jobs over the trace, before the first access. It requires configurations that `Config::check`
    /// accepts. The one error is out of memory.
    pub fn open(
        alloc: Global,
        trace: &Trace,
        first: &Job,
        second: &Job,
    ) -> Result<PartRun, AllocError>
        requires first { config_fault first.now.config ≡ Ok tt }
        requires second { config_fault second.now.config ≡ Ok tt }
        ensures { IfOk result (λ run. (other : List ℕ) → RunsOver trace.now other first.now
            → RunsOver trace.now other second.now → HasParted first.now second.now other 0 run) }
    {
        let pair = Pair::open(alloc, trace, first, second)?;
        Ok(PartRun {
            pair,
            place: 0,
            found: None,
        })
    }

    /// What was found once all accesses were taken: the access, counted from 1, or `None`.
    pub fn found(&self) -> Option<u64>
        ensures { (first second : Job) (trace : List ℕ) → HasParted first second trace (length trace) self.now
            → IsPart (outcomes_on first trace) (outcomes_on second trace) result }
    {
        theorems::any_covers_trace();
        self.found
    }

    // Takes the accesses, unless the one looked for was found. The one error is out of memory.
    fn take_all<T: Threads>(&mut self, rt: &T, keys: &[Key]) -> Result<(), AllocError>
        requires { (first second : Job) × CanTake (HasParted first second) keys.now self.old }
        ensures { (first second : Job) (trace : List ℕ) (n : ℕ) → AreNext trace n keys.now
            → HasParted first second trace n self.old
            → OnOk result (HasParted first second trace (n + length keys.now) self.new) }
    {
        if self.found.is_some() {
            return Ok(());
        }
        self.pair.advance(rt, keys)?;
        for i in 0..keys.len() {
            let (first, second) = self.pair.hits_at(i);
            if first != second {
                self.found = Some(self.place + i as u64 + 1);
                return Ok(());
            }
        }
        self.place += keys.len() as u64;
        Ok(())
    }
}

impl Taker for PartRun {
    ghost use Rattle.policy_comparison.specs.PartRun.{HasPartedTask};

    ghost has_taken = { HasPartedTask };

    fn take<T: Threads + Sync>(&mut self, rt: &T, keys: &[Key]) -> Result<(), AllocError> {
        self.take_all(rt, keys)
    }
}
