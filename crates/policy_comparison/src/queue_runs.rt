//! The rows of several jobs over a trace, with their queues.
ghost use Rattle.std.specs.Prelude.{◌≡◌, ◌≤◌, ◌+◌, Ok, ℕ, List, IfOk, length};
ghost use Rattle.std.specs.List.{All};
ghost use Rattle.engine_base.specs.Config.{config_fault};
ghost use Rattle.policy_comparison.specs.QueueRows.{queues_text as text_of};
ghost use Rattle.policy_comparison.specs.QueueRun.{HaveQueueRows};
ghost use Rattle.sweeps.specs.Taking.{HasTakenAll, RunsOver, Task};

use crate::queue_rows::queues_header;
use crate::queue_run::QueueRun;
use std::alloc::{AllocError, Global};
use std::thread::Threads;
use step_record::{Gate, Job, Key, Trace};
use sweeps::{Taker, make_next, open_runs, take_trace};

/// The header and the rows of each job over the trace, cut into intervals of `every` accesses, of which the last may be
/// shorter: all rows of the first job, in order, then those of the second, and so on. It requires configurations that
/// `Config::check` accepts. The jobs run side by side where there are threads. The gate is called around each
/// `sweeps::AT_A_TIME` accesses, as by `take_trace`. The one error is out of memory.
pub fn queues_text<T: Threads + Sync, G: Gate>(
    rt: &T,
    alloc: Global,
    trace: &Trace,
    jobs: &[Job],
    every: usize,
    gate: &G,
) -> Result<Vec<u8>, AllocError>
    requires checked { All (λ job. config_fault job.config ≡ Ok tt) jobs.now }
    requires some { 1 ≤ every }
    ensures { IfOk result (λ text. text.items ≡ text_of every jobs.now trace.now) }
{
    let mut runs = QueueRuns::open(alloc, trace, jobs, every)?;
    take_trace(rt, trace, &mut runs, gate)?;
    runs.text(alloc)
}

/// A run of each of several jobs, with the rows of each interval and each queue.
#[derive(Drop)]
pub struct QueueRuns {
    runs: Vec<QueueRun>,
}

impl QueueRuns {
    /// A run of each job over the trace before the first access, with intervals of `every` accesses. The trace is that of
    /// the accesses only where a policy has to know it. It requires configurations that `Config::check` accepts. The one
    /// error is out of memory.
    pub fn open(
        alloc: Global,
        trace: &Trace,
        jobs: &[Job],
        every: usize,
    ) -> Result<QueueRuns, AllocError>
        requires checked { All (λ job. config_fault job.config ≡ Ok tt) jobs.now }
        requires some { 1 ≤ every }
        ensures { IfOk result (λ all. (other : List ℕ) → All (RunsOver trace.now other) jobs.now
            → HaveQueueRows (record { jobs = jobs.now; every = every }) other 0 all) }
    {
        let runs = open_runs(alloc, trace, jobs, every)?;
        Ok(QueueRuns { runs })
    }

    /// The header, all rows of the first job once all accesses were taken, then those of the second, and so on. The one
    /// error is out of memory.
    pub fn text(&self, alloc: Global) -> Result<Vec<u8>, AllocError>
        requires { (task : Task) × HasTakenAll (HaveQueueRows task) self.now }
        ensures { (task : Task) (trace : List ℕ) → HaveQueueRows task trace (length trace) self.now
            → IfOk result (λ v. v.items ≡ text_of task.every task.jobs trace) }
    {
        let mut text = queues_header(alloc)?;
        for i in 0..self.runs.len() {
            self.runs[i].push_rows(&mut text)?;
        }
        Ok(text)
    }
}

impl Taker for QueueRuns {
    ghost use Rattle.policy_comparison.specs.QueueRun.{HaveQueueRows};

    ghost has_taken = { HaveQueueRows };

    fn take<T: Threads + Sync>(&mut self, rt: &T, keys: &[Key]) -> Result<(), AllocError> {
        make_next(rt, self.runs.as_mut_slice(), keys)
    }
}
