//! Several jobs over a trace whose accesses come in pieces.
ghost use Rattle.std.specs.Prelude.{◌≡◌, ◌≤◌, ◌+◌, Ok, ℕ, List, IfOk, length, map};
ghost use Rattle.std.specs.List.{All, flat_map};
ghost use Rattle.engine_base.specs.Config.{config_fault};
ghost use Rattle.policies.specs.Reports.{report_on};
ghost use Rattle.sweeps.specs.Intervals.{intervals_on};
ghost use Rattle.sweeps.specs.JobRuns.{HaveRunJobs};
ghost use Rattle.sweeps.specs.Taking.{HasTakenAll, RunsOver, Task};

use crate::job_run::JobRun;
use crate::runs::{make_next, open_runs};
use crate::taker::Taker;
use policies::{Interval, Report};
use std::alloc::{AllocError, Global};
use std::thread::Threads;
use step_record::{Job, Key, Trace};

/// A run of each of several jobs, with a row for each interval.
#[derive(Drop)]
pub struct JobRuns {
    runs: Vec<JobRun>,
}

impl JobRuns {
    /// A run of each job over the trace before the first access, with intervals of `every` accesses. The trace is that of
    /// the accesses only where a policy has to know it. It requires configurations that `Config::check` accepts. The one
    /// error is out of memory.
    pub fn open(
        alloc: Global,
        trace: &Trace,
        jobs: &[Job],
        every: usize,
    ) -> Result<JobRuns, AllocError>
        requires checked { All (λ job. config_fault job.config ≡ Ok tt) jobs.now }
        requires some { 1 ≤ every }
        ensures { IfOk result (λ all. (other : List ℕ) → All (RunsOver trace.now other) jobs.now
            → HaveRunJobs (record { jobs = jobs.now; every = every }) other 0 all) }
    {
        let runs = open_runs(alloc, trace, jobs, every)?;
        Ok(JobRuns { runs })
    }

    /// The reports of the jobs once all accesses were taken. The one error is out of memory.
    pub fn reports(&self, alloc: Global) -> Result<Vec<Report>, AllocError>
        ensures { (task : Task) (trace : List ℕ) → HaveRunJobs task trace (length trace) self.now
            → IfOk result (λ v. v.items ≡ map (λ j. report_on j trace) task.jobs) }
    {
        let mut reports = Vec::new(alloc);
        for i in 0..self.runs.len() {
            self.runs[i].add_report(&mut reports)?;
        }
        Ok(reports)
    }

    /// All rows of the first job once all accesses were taken, then those of the second, and so on. The one error is
    /// out of memory.
    pub fn rows(&self, alloc: Global) -> Result<Vec<Interval>, AllocError>
        requires { (task : Task) × HasTakenAll (HaveRunJobs task) self.now }
        ensures { (task : Task) (trace : List ℕ) → HaveRunJobs task trace (length trace) self.now
            → IfOk result (λ v. v.items ≡ flat_map (λ j. intervals_on j task.every trace) task.jobs) }
    {
        let mut rows = Vec::new(alloc);
        for i in 0..self.runs.len() {
            self.runs[i].add_rows(&mut rows)?;
        }
        Ok(rows)
    }
}

impl Taker for JobRuns {
    ghost use Rattle.sweeps.specs.JobRuns.{HaveRunJobs};

    ghost has_taken = { HaveRunJobs };

    fn take<T: Threads + Sync>(&mut self, rt: &T, keys: &[Key]) -> Result<(), AllocError> {
        make_next(rt, self.runs.as_mut_slice(), keys)
    }
}
