//! The reports and the rows of jobs over a trace that is read.
ghost use Rattle.std.specs.Prelude.{◌≡◌, ◌≤◌, Err, IfOk, IfSome, List, ℕ, Ok, flat_map, length, map};
ghost use Rattle.std.specs.List.{All, list_any};
ghost use Rattle.engine_base.specs.Config.{config_fault};
ghost use Rattle.policies.specs.Reports.{report_on};
ghost use Rattle.policy_comparison.specs.QueueRows.{queues_text as text_of};
ghost use Rattle.policy_comparison.specs.QueueRun.{HaveQueueRows};
ghost use Rattle.streams.specs.Tally.{FailsWhere};
ghost use Rattle.sweeps.specs.Intervals.{intervals_on};
ghost use Rattle.sweeps.specs.JobRuns.{HaveRunJobs};
ghost use Rattle.sweeps.specs.Taking.{HasTakenAll, RunsOver};
ghost use Rattle.trace_read.specs.ReadTrace.{IsReadWithin};
ghost use Rattle.trace_read.specs.TraceText.{keys_in};
ghost use Rattle.trace_read.specs.declared.limits.TheConstants.{MAX_LONG_ACCESSES, MAX_LONG_TRACE_BYTES};
ghost use Rattle.long_traces.specs.Feed.{CanRun, has_to_know};

use crate::feed::taken_by;
use policies::{Interval, MAX_ACTORS, Report};
use policy_actors::run_reading_within;
use policy_comparison::QueueRuns;
use std::alloc::{AllocError, Global};
use std::sync::Wait;
use std::thread::Threads;
use step_record::{Gate, Job, Policy, Trace};
use streams::CountedRead;
use sweeps::JobRuns;
use trace_read::{Format, Limits, TraceFault};

// How many accesses an actor is given at once.
const BATCH: u32 = 1024;

/// The reports of the jobs over the trace that the reader gives, in the order of the jobs, which may be any number: up to
/// `MAX_ACTORS` each on a thread of its own, which the gate is called around each batch of, as by `run_actors`. The
/// configurations are such as `Config::check` accepts, and a policy that has to know the whole trace is there only where
/// the limits are those of a trace that is kept.
///
/// Errors: those of `read_trace`, and `OutOfMemory` also where a cache is out of memory.
pub fn reports<T: Threads + Wait + Sync, R: CountedRead, G: Gate>(
    rt: &T,
    alloc: Global,
    reader: &mut R,
    format: Format,
    limits: Limits,
    jobs: &[Job],
    gate: &G,
) -> Result<Vec<Report>, TraceFault>
    requires jobs { All (CanRun limits.accesses) jobs.now }
    requires accesses { limits.accesses ≤ MAX_LONG_ACCESSES }
    requires bytes { limits.bytes ≤ MAX_LONG_TRACE_BYTES }
    ensures reports { IfOk result (λ v. IfSome (R.remaining reader.old)
        (λ bytes. v.items ≡ map (λ j. report_on j (keys_in format bytes)) jobs.now)) }
    ensures read { IsReadWithin limits format (R.remaining reader.old) (R.remaining reader.new) result }
    ensures tally { FailsWhere (result ≡ Err TraceFault.Read) (R.tally reader.old) (R.tally reader.new) }
{
    if jobs.len() > MAX_ACTORS {
        let runs = runs_over(rt, alloc, reader, format, limits, jobs, usize::MAX)?;
        return Ok(runs.reports(alloc)?);
    }
    run_reading_within(rt, alloc, reader, format, limits, jobs, BATCH, gate)
}

/// The rows of each job over the trace that the reader gives, cut into intervals of `every` accesses, of which the last
/// may be shorter: all rows of the first job, in order, then those of the second, and so on. The jobs are as for
/// `reports`, and run side by side.
///
/// Errors: those of `reports`.
pub fn intervals<T: Threads + Sync, R: CountedRead>(
    rt: &T,
    alloc: Global,
    reader: &mut R,
    format: Format,
    limits: Limits,
    jobs: &[Job],
    every: usize,
) -> Result<Vec<Interval>, TraceFault>
    requires jobs { All (CanRun limits.accesses) jobs.now }
    requires some { 1 ≤ every }
    requires accesses { limits.accesses ≤ MAX_LONG_ACCESSES }
    requires bytes { limits.bytes ≤ MAX_LONG_TRACE_BYTES }
    ensures rows { IfOk result (λ v. IfSome (R.remaining reader.old)
        (λ bytes. v.items ≡ flat_map (λ j. intervals_on j every (keys_in format bytes)) jobs.now)) }
    ensures read { IsReadWithin limits format (R.remaining reader.old) (R.remaining reader.new) result }
    ensures tally { FailsWhere (result ≡ Err TraceFault.Read) (R.tally reader.old) (R.tally reader.new) }
{
    let runs = runs_over(rt, alloc, reader, format, limits, jobs, every)?;
    Ok(runs.rows(alloc)?)
}

/// The text of the rows of each job and of its queues over the trace that the reader gives, cut into intervals of `every`
/// accesses, of which the last may be shorter: the header, all rows of the first job, in order, then those of the second,
/// and so on. The jobs are as for `intervals`.
///
/// Errors: those of `reports`.
pub fn queues_text<T: Threads + Sync, R: CountedRead>(
    rt: &T,
    alloc: Global,
    reader: &mut R,
    format: Format,
    limits: Limits,
    jobs: &[Job],
    every: usize,
) -> Result<Vec<u8>, TraceFault>
    requires jobs { All (CanRun limits.accesses) jobs.now }
    requires some { 1 ≤ every }
    requires accesses { limits.accesses ≤ MAX_LONG_ACCESSES }
    requires bytes { limits.bytes ≤ MAX_LONG_TRACE_BYTES }
    ensures text { IfOk result (λ v. IfSome (R.remaining reader.old)
        (λ bytes. v.items ≡ text_of every jobs.now (keys_in format bytes))) }
    ensures read { IsReadWithin limits format (R.remaining reader.old) (R.remaining reader.new) result }
    ensures tally { FailsWhere (result ≡ Err TraceFault.Read) (R.tally reader.old) (R.tally reader.new) }
{
    let is_kept = some_know_trace(jobs);
    let runs = taken_by(
        rt,
        alloc,
        reader,
        format,
        limits,
        is_kept,
        |trace: &Trace| -> Result<QueueRuns, AllocError>
            requires { All (λ job. config_fault job.config ≡ Ok tt) jobs.now × (1 ≤ every) }
            ensures { IfOk result (λ runs. (other : List ℕ) → All (RunsOver trace.entry.now other) jobs.entry.now
                → HaveQueueRows (record { jobs = jobs.entry.now; every = every }) other 0 runs) }
        { QueueRuns::open(alloc, trace, jobs, every) },
    )?;
    Ok(runs.text(alloc)?)
}

// Runs of the jobs that have made all accesses of the trace that the reader gives, in intervals of `every` accesses.
//
// Errors: those of `reports`.
fn runs_over<T: Threads + Sync, R: CountedRead>(
    rt: &T,
    alloc: Global,
    reader: &mut R,
    format: Format,
    limits: Limits,
    jobs: &[Job],
    every: usize,
) -> Result<JobRuns, TraceFault>
    requires jobs { All (CanRun limits.accesses) jobs.now }
    requires some { 1 ≤ every }
    requires accesses { limits.accesses ≤ MAX_LONG_ACCESSES }
    requires bytes { limits.bytes ≤ MAX_LONG_TRACE_BYTES }
    ensures some { IfOk result (HasTakenAll (HaveRunJobs (record { jobs = jobs.now; every = every }))) }
    ensures taken { IfOk result (λ runs. IfSome (R.remaining reader.old) (λ bytes.
        HaveRunJobs (record { jobs = jobs.now; every = every }) (keys_in format bytes) (length (keys_in format bytes)) runs)) }
    ensures read { IsReadWithin limits format (R.remaining reader.old) (R.remaining reader.new) result }
    ensures tally { FailsWhere (result ≡ Err TraceFault.Read) (R.tally reader.old) (R.tally reader.new) }
{
    let is_kept = some_know_trace(jobs);
    taken_by(
        rt,
        alloc,
        reader,
        format,
        limits,
        is_kept,
        |trace: &Trace| -> Result<JobRuns, AllocError>
            requires { All (λ job. config_fault job.config ≡ Ok tt) jobs.now × (1 ≤ every) }
            ensures { IfOk result (λ runs. (other : List ℕ) → All (RunsOver trace.entry.now other) jobs.entry.now
                → HaveRunJobs (record { jobs = jobs.entry.now; every = every }) other 0 runs) }
        { JobRuns::open(alloc, trace, jobs, every) },
    )
}

/// Whether the policy of some job has to know the whole trace.
pub(crate) fn some_know_trace(jobs: &[Job]) -> bool
    ensures { result ≡ list_any has_to_know jobs.now }
{
    jobs.iter().any(|job| job.policy == Policy::Clairvoyant)
}
