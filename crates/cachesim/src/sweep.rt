//! The subcommand `sweep`: reports at several capacities.
ghost use Rattle.std.specs.Prelude.{◌≡◌, ◌≤◌, ◌⊎◌, IfErr, IfOk, OnOk, false, length};
ghost use Rattle.command_line.specs.Accepted.{IsAcceptedSweep, needs_whole_trace};
ghost use Rattle.command_line.specs.declared.arguments.Arguments.TheVariants.{Sweep};
ghost use Rattle.policies.specs.declared.job_checks.TheConstants.{MAX_ACTORS};
ghost use Rattle.cachesim.specs.FaultCauses.{IsTooMany};
ghost use Rattle.cachesim.specs.Subcommand.{IsMade};
ghost use Rattle.cachesim.specs.TraceOutput.{AreFew, IsText};

use crate::fault::{Fault, only_memory};
use command_line::{JobArguments, SweepArguments};
use policies::MAX_ACTORS;
use report::reports_text;
use std::alloc::Global;
use std::sync::Wait;
use std::thread::Threads;
use step_record::{Job, Policy, Trace};
use streams::{CountedRead, Watch};
use sweeps::{jobs_over, sweep_batches, sweep_each};
use trace_read::read_trace_within;

// As many entries as all caches of a sweep may have at once: they take less memory than a trace that is kept.
const ENTRIES_AT_ONCE: u64 = 1 << 21;

// From so many reports of policies with a ghost on, the trace is kept, for 12 bytes an access: they go by numbers of its
// keys then, which takes a quarter less time. Those of `fifo`, `clock` and `sieve` take as long as while it is read.
const BY_NUMBERS_FROM: usize = 8;

/// The reports of the policies that the arguments name at each of the capacities, as text: those of the first policy in
/// the order of the capacities, then those of the second, and so on. A trace that is not long is kept where a policy goes
/// by it whole, where many reports go by numbers of its keys, and where it takes less memory than all caches at once.
/// Too many policies are reported only if the trace has no fault.
pub fn sweep<T: Threads + Wait + Sync, R: CountedRead, P: Watch>(
    rt: &T,
    alloc: Global,
    arguments: &SweepArguments,
    input: &mut R,
    watch: &P,
) -> Result<Vec<u8>, Fault>
    requires accepted { IsAcceptedSweep arguments.now }
    requires kept { needs_whole_trace (Sweep arguments.now) ≡ false }
    ensures { IsMade (Sweep arguments.now) (R.remaining input.old) (R.tally input.old) (R.tally input.new) result }
{
    let asked = &arguments.jobs;
    watch.begin("sweep");
    let capacities = arguments.capacities.as_slice();
    if asked.limits.are_long() || !wants_whole_trace(asked.list.as_slice(), capacities) {
        return sweep_read(rt, alloc, arguments, input, watch);
    }
    let trace = read_trace_within(alloc, input, asked.format, asked.limits)?;
    sweep_kept(rt, alloc, arguments, &trace, watch)
}

// The reports over the trace that is read meanwhile.
fn sweep_read<T: Threads + Wait + Sync, R: CountedRead, P: Watch>(
    rt: &T,
    alloc: Global,
    arguments: &SweepArguments,
    input: &mut R,
    watch: &P,
) -> Result<Vec<u8>, Fault>
    requires accepted { IsAcceptedSweep arguments.now }
    requires kept { needs_whole_trace (Sweep arguments.now) ≡ false }
    ensures { IsMade (Sweep arguments.now) (R.remaining input.old) (R.tally input.old) (R.tally input.new) result }
{
    let asked = &arguments.jobs;
    let (format, limits) = (asked.format, asked.limits);
    if asked.list.as_slice().len() > MAX_ACTORS {
        long_traces::reports(rt, alloc, input, format, limits, &[], watch)?;
        return Err(Fault::Actors);
    }
    let each = jobs_over(
        alloc,
        asked.list.as_slice(),
        arguments.capacities.as_slice(),
    )?;
    let reports = long_traces::reports(rt, alloc, input, format, limits, each.as_slice(), watch);
    Ok(reports_text(alloc, reports?.as_slice())?)
}

// The reports over the trace.
fn sweep_kept<T: Threads + Sync, P: Watch>(
    rt: &T,
    alloc: Global,
    arguments: &SweepArguments,
    trace: &Trace,
    watch: &P,
) -> Result<Vec<u8>, Fault>
    requires { IsAcceptedSweep arguments.now }
    ensures text { IfOk result (λ text. IsText (Sweep arguments.now) trace.now text.items) }
    ensures few { OnOk result (AreFew arguments.now.jobs.list) }
    ensures fault { IfErr result (λ fault. (fault ≡ Fault.OutOfMemory) ⊎ IsTooMany arguments.now.jobs.list fault) }
{
    let jobs = few_jobs(&arguments.jobs)?;
    let capacities = arguments.capacities.as_slice();
    watch.count(sweep_batches(trace, jobs, capacities));
    let reports = sweep_each(rt, alloc, trace, jobs, capacities, watch);
    Ok(reports_text(alloc, only_memory(reports)?.as_slice())?)
}

// The jobs, where they are not too many.
fn few_jobs(asked: &JobArguments) -> Result<&[Job], Fault>
    ensures jobs { IfOk result (λ jobs. jobs.now ≡ asked.now.list) }
    ensures few { IfOk result (λ jobs. length jobs.now ≤ MAX_ACTORS) }
    ensures asked { OnOk result (AreFew asked.now.list) }
    ensures fault { IfErr result (IsTooMany asked.now.list) }
{
    let jobs = asked.list.as_slice();
    if jobs.len() > MAX_ACTORS {
        return Err(Fault::Actors);
    }
    Ok(jobs)
}

// Whether a report goes by the whole trace, as Lru's by its curve and Belady's by its next uses, or many reports go by
// numbers of its keys, or there are too many or too large caches for all to be there at once.
fn wants_whole_trace(jobs: &[Job], capacities: &[u32]) -> bool {
    let mut entries = 0u64;
    for capacity in capacities {
        entries = entries.saturating_add(u64::from(*capacity));
    }
    let reports = jobs.len().saturating_mul(capacities.len());
    reports > MAX_ACTORS
        || entries.saturating_mul(jobs.len() as u64) > ENTRIES_AT_ONCE
        || jobs.iter().any(|job| job.policy == Policy::Lru || job.policy == Policy::Clairvoyant)
        || ghost_jobs(jobs).saturating_mul(capacities.len()) >= BY_NUMBERS_FROM
}

// How many of the jobs are of policies with a ghost.
fn ghost_jobs(jobs: &[Job]) -> usize {
    let mut count = 0usize;
    for job in jobs {
        if matches!(
            job.policy,
            Policy::S3Fifo | Policy::TwoQ | Policy::Arc | Policy::Car
        ) {
            count = count.saturating_add(1);
        }
    }
    count
}
