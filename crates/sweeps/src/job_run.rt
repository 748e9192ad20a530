//! A job over a trace whose accesses come in pieces, with a row for each interval.
ghost use Rattle.std.specs.Prelude.{◌≡◌, ◌≤◌, ◌+◌, ◌++◌, ◌∷◌, [], ℕ, List, Ok, IfOk, OnOk, length};
ghost use Rattle.engine_base.specs.Config.{config_fault};
ghost use Rattle.policies.specs.Reports.{report_on};
ghost use Rattle.sweeps.specs.Intervals.{intervals_on};
ghost use Rattle.sweeps.specs.JobRuns.{HasRun};
ghost use Rattle.sweeps.specs.Taking.{AreNext, CanTake, HasTakenAll, RunsOver};

use crate::current_interval::CurrentInterval;
use crate::runs::Run;
use policies::{AnyPolicy, Interval, Report, access_all};
use std::alloc::{AllocError, Global};
use step_record::{Job, Key, Trace};

/// A cache of a job, with a row for each interval that is over.
pub(crate) struct JobRun {
    pub(crate) job: Job,
    cache: AnyPolicy,
    current: CurrentInterval,
    rows: Vec<Interval>,
}

impl Drop for JobRun {
    fn drop(self) {
        let JobRun {
            job: _,
            cache: _,
            current: _,
            rows: _,
        } = self;
    }
}

impl Run for JobRun {
    ghost use Rattle.sweeps.specs.JobRuns.{HasRun};

    ghost job_of = { λ run. run.job };

    ghost has_run = { HasRun };

    fn open(alloc: Global, job: &Job, trace: &Trace, every: usize) -> Result<JobRun, AllocError> {
        let cache = AnyPolicy::open(alloc, job, trace)?;
        Ok(JobRun {
            job: *job,
            cache,
            current: CurrentInterval::first(every),
            rows: Vec::new(alloc),
        })
    }

    fn make(&mut self, keys: &[Key]) -> Result<(), AllocError> {
        let mut at = 0;
        'pieces: while at < keys.len() {
            let end = at + self.current.room().min(keys.len() - at);
            self.make_piece(&keys[at..end])?;
            at = end;
        }
        Ok(())
    }
}

impl JobRun {
    /// Adds the report of the job once all accesses were made. The one error is out of memory.
    pub(crate) fn add_report(&self, reports: &mut Vec<Report>) -> Result<(), AllocError>
        ensures { (every : ℕ) (trace : List ℕ) → HasRun every trace (length trace) self.now
            → OnOk result (reports.new.items ≡ reports.old.items ++ report_on self.now.job trace ∷ []) }
    {
        reports.push(Report::of(&self.job, self.cache.stats()))?;
        Ok(())
    }

    /// Adds the rows of the job once all accesses were made. The one error is out of memory.
    pub(crate) fn add_rows(&self, rows: &mut Vec<Interval>) -> Result<(), AllocError>
        requires { (every : ℕ) × HasTakenAll (HasRun every) self.now }
        ensures { (every : ℕ) (trace : List ℕ) → HasRun every trace (length trace) self.now
            → OnOk result (rows.new.items ≡ rows.old.items ++ intervals_on self.now.job every trace) }
    {
        rows.extend_from_slice(self.rows.as_slice())?;
        let last = self.current.last(&self.job, &self.cache);
        rows.extend_from_slice(last.as_slice())?;
        Ok(())
    }

    // Makes accesses of one interval, with its row where they are its last. The one error is out of memory.
    fn make_piece(&mut self, piece: &[Key]) -> Result<(), AllocError>
        requires next { (every : ℕ) × CanTake (HasRun every) piece.now self.old }
        requires within { self.old.current.used + length piece.now ≤ self.old.current.every }
        ensures job { self.new.job ≡ self.old.job }
        ensures made { (every : ℕ) (trace : List ℕ) (n : ℕ) → AreNext trace n piece.now → HasRun every trace n self.old
            → OnOk result (HasRun every trace (n + length piece.now) self.new) }
    {
        access_all(&mut self.cache, piece)?;
        let over = self.current.advance(&self.job, piece.len(), &self.cache);
        self.rows.extend_from_slice(over.as_slice())?;
        Ok(())
    }
}
