//! Runs of several jobs over a trace, which make its accesses side by side.
ghost use Rattle.std.specs.Prelude.{◌≡◌, ◌≤◌, ◌<◌, ◌+◌, Ok, ℕ, List, IfOk, OnOk, length};
ghost use Rattle.std.specs.List.{All};
ghost use Rattle.std.specs.Thread.{IsSend, IsSync};
ghost use Rattle.engine_base.specs.Config.{config_fault};
ghost use Rattle.sweeps.specs.Runs.{HaveRun, IsTaken};
ghost use Rattle.sweeps.specs.Taking.{AreNext, CanTake, CanTakeFor, Job as JobOf, RunsOver};

use engine_base::{Key, Trace};
use std::alloc::{AllocError, Global};
use std::thread::{Threads, join_mut};
use step_record::Job;

// Fewer accesses are made on one thread, since a thread would take longer to start.
const THREADS_FROM: usize = 4096;

// The runs are halved so often at most, so up to 64 threads make a piece of the accesses.
const HALVINGS: u32 = 6;

/// A run of one job over a trace.
pub trait Run: Drop + Send {
    // what it runs
    ghost job_of: { Self → JobOf };

    // it made so many of the first accesses of a trace, in intervals of this length
    ghost has_run: { ℕ → List ℕ → ℕ → Self → Type 0 };

    /// A run of the job over the trace before the first access, with intervals of `every` accesses. The trace is that of
    /// the accesses only where the policy has to know it. It requires a configuration that `Config::check` accepts. The
    /// one error is out of memory.
    fn open(alloc: Global, job: &Job, trace: &Trace, every: usize) -> Result<Self, AllocError>
        requires checked { config_fault job.now.config ≡ Ok tt }
        requires some { 1 ≤ every }
        ensures job { IfOk result (λ run. job_of run ≡ job.now) }
        ensures begun { IfOk result (λ run. (other : List ℕ) → RunsOver trace.now other job.now
            → has_run every other 0 run) };

    /// Makes the next accesses. The one error is out of memory; the run is of no more use then.
    fn make(&mut self, keys: &[Key]) -> Result<(), AllocError>
        requires { (every : ℕ) × CanTake (has_run every) keys.now self.old }
        ensures job { job_of self.new ≡ job_of self.old }
        ensures made { (every : ℕ) (trace : List ℕ) (n : ℕ) → AreNext trace n keys.now → has_run every trace n self.old
            → OnOk result (has_run every trace (n + length keys.now) self.new) };
}

/// A run of each job over the trace, as by `Run::open`, in the order of the jobs. The one error is out of memory.
pub fn open_runs<R: Run>(
    alloc: Global,
    trace: &Trace,
    jobs: &[Job],
    every: usize,
) -> Result<Vec<R>, AllocError>
    requires checked { All (λ job. config_fault job.config ≡ Ok tt) jobs.now }
    requires some { 1 ≤ every }
    ensures { IfOk result (λ runs. (other : List ℕ) → All (RunsOver trace.now other) jobs.now
        → HaveRun R.job_of R.has_run (record { jobs = jobs.now; every = every }) other 0 runs.items) }
{
    let mut runs = Vec::new(alloc);
    for job in jobs {
        runs.push(R::open(alloc, job, trace, every)?)?;
    }
    Ok(runs)
}

/// All runs make the next accesses, side by side on threads of `rt` where that pays. The one error is out of memory; they
/// are of no more use then.
pub fn make_next<T: Threads + Sync, R: Run>(
    rt: &T,
    runs: &mut [R],
    keys: &[Key],
) -> Result<(), AllocError>
    requires { CanTakeFor (HaveRun R.job_of R.has_run) keys.now runs.old }
    ensures { IsTaken (HaveRun R.job_of R.has_run) keys.now runs.old result runs.new }
{
    let halvings = if keys.len() < THREADS_FROM {
        0
    } else {
        HALVINGS
    };
    make_each(rt, keys, halvings, runs)
}

// All runs make the next accesses. The one error is out of memory.
#[cycle(halves)]
fn make_each<T: Threads + Sync, R: Run>(
    rt: &T,
    keys: &[Key],
    halvings: u32,
    runs: &mut [R],
) -> Result<(), AllocError>
    requires { CanTakeFor (HaveRun R.job_of R.has_run) keys.now runs.old }
    ensures { IsTaken (HaveRun R.job_of R.has_run) keys.now runs.old result runs.new }
{
    if runs.is_empty() {
        return Ok(());
    }
    if runs.len() == 1 {
        return runs[0].make(keys);
    }
    let (front, back) = runs.split_at_mut(runs.len() / 2);
    make_halves(rt, keys, halvings, front, back)
}

// Both halves of the runs, side by side while there are halvings left, and else in turn.
#[cycle(halves)]
fn make_halves<T: Threads + Sync, R: Run>(
    rt: &T,
    keys: &[Key],
    halvings: u32,
    front: &mut [R],
    back: &mut [R],
) -> Result<(), AllocError>
    requires front { CanTakeFor (HaveRun R.job_of R.has_run) keys.now front.old }
    requires back { CanTakeFor (HaveRun R.job_of R.has_run) keys.now back.old }
    requires some { (0 < length front.old) × (0 < length back.old) }
    ensures front { IsTaken (HaveRun R.job_of R.has_run) keys.now front.old result front.new }
    ensures back { IsTaken (HaveRun R.job_of R.has_run) keys.now back.old result back.new }
{
    if halvings == 0 {
        make_each(rt, keys, 0, front)?;
        return make_each(rt, keys, 0, back);
    }
    let below = halvings - 1;
    let mut one = || -> Result<(), AllocError>
        requires { IsSync T.row × IsSend R.row × CanTakeFor (HaveRun R.job_of R.has_run) keys.now front.now }
        ensures { IsTaken (HaveRun R.job_of R.has_run) keys.entry.now front.entry.now result front.exit.now }
    { make_each(rt, keys, below, front) };
    let mut other = || -> Result<(), AllocError>
        requires { IsSync T.row × IsSend R.row × CanTakeFor (HaveRun R.job_of R.has_run) keys.now back.now }
        ensures { IsTaken (HaveRun R.job_of R.has_run) keys.entry.now back.entry.now result back.exit.now }
    { make_each(rt, keys, below, back) };
    let (first, second) = join_mut(rt, &mut one, &mut other);
    first?;
    second
}
