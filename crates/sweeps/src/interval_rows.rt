//! What jobs make of each interval of a trace, side by side.
ghost use Rattle.std.specs.Prelude.{◌≡◌, ◌≤◌, None, IfOk, flat_map};
ghost use Rattle.policies.specs.FaultyJobs.{faulty_in, ReturnsFault};
ghost use Rattle.sweeps.specs.Intervals.{intervals_fault, intervals_on};

use crate::job_runs::JobRuns;
use crate::taker::take_trace;
use policies::{ActorFault, Interval, MAX_ACTORS, check_jobs};
use std::alloc::{AllocError, Global};
use std::thread::Threads;
use step_record::{Gate, Job, Trace};

/// The rows of each job over the trace, cut into intervals of `every` accesses, of which the last may be shorter: all
/// rows of the first job, in order, then those of the second, and so on. The jobs run side by side where there are
/// threads. The gate is called before and after each `sweeps::AT_A_TIME` accesses, of which the last may be fewer, as
/// worker 0, with their number.
///
/// Errors: `Actors` for more than `MAX_ACTORS` jobs, `Config` with the index of the first job whose configuration
/// `Config::check` refuses, and `OutOfMemory`.
pub fn intervals<R: Threads + Sync, G: Gate>(
    rt: &R,
    alloc: Global,
    trace: &Trace,
    jobs: &[Job],
    every: usize,
    gate: &G,
) -> Result<Vec<Interval>, ActorFault>
    requires { 1 ≤ every }
    ensures rows { IfOk result (λ rows. rows.items ≡ flat_map (λ j. intervals_on j every trace.now) jobs.now) }
    ensures fault { ReturnsFault (intervals_fault jobs.now) result }
{
    if jobs.len() > MAX_ACTORS {
        return Err(ActorFault::Actors);
    }
    check_jobs(jobs)?;
    let rows = rows(rt, alloc, trace, jobs, every, gate)?;
    Ok(rows)
}

// The rows of jobs none of which is faulty. The one error is out of memory.
fn rows<R: Threads + Sync, G: Gate>(
    rt: &R,
    alloc: Global,
    trace: &Trace,
    jobs: &[Job],
    every: usize,
    gate: &G,
) -> Result<Vec<Interval>, AllocError>
    requires checked { faulty_in jobs.now ≡ None }
    requires some { 1 ≤ every }
    ensures { IfOk result (λ rows. rows.items ≡ flat_map (λ j. intervals_on j every trace.now) jobs.now) }
{
    let mut runs = JobRuns::open(alloc, trace, jobs, every)?;
    take_trace(rt, trace, &mut runs, gate)?;
    runs.rows(alloc)
}
