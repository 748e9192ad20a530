//! How often two policies hit at the same accesses of a trace, or of each interval of it.
ghost use Rattle.std.specs.Prelude.{◌≡◌, ◌≤◌, ◌++◌, [], ◌∷◌, IfOk, OnOk, length};
ghost use Rattle.policies.specs.FaultyJobs.{faulty_in, ReturnsFault};
ghost use Rattle.policy_comparison.specs.ComparedIntervals.{compared_intervals_on, compared_intervals_text, compared_row};
ghost use Rattle.policy_comparison.specs.ComparedRun.{HasCompared};
ghost use Rattle.policy_comparison.specs.Comparison.{compared_on};

use crate::compared_rows::ComparedInterval;
use crate::compared_run::ComparedRun;
use crate::comparison::{Comparison, push_row};
use policies::{ActorFault, check_jobs};
use std::alloc::{AllocError, Global};
use std::thread::Threads;
use step_record::{Gate, Job, Trace};
use sweeps::take_trace;

/// At how many accesses of the trace the policies of both jobs hit, only that of the first, only that of the second,
/// and neither. The two caches make the accesses side by side where a thread can be made. The gate is called as by
/// `part_watched`.
///
/// Errors: `Config` with index 0 exactly where `Config::check` refuses the first job's configuration, with index 1
/// exactly where it refuses the second's and accepts the first's; then `OutOfMemory`.
pub fn compare<R: Threads + Sync, G: Gate>(
    rt: &R,
    alloc: Global,
    trace: &Trace,
    first: &Job,
    second: &Job,
    gate: &G,
) -> Result<Comparison, ActorFault>
    ensures counts { IfOk result (λ counts. counts ≡ compared_on first.now second.now trace.now) }
    ensures fault { ReturnsFault (faulty_in (first.now ∷ second.now ∷ [])) result }
{
    let run = run_over(rt, alloc, trace, first, second, usize::MAX, gate)?;
    Ok(run.counts())
}

/// What is counted of the policies of both jobs over the trace, cut into intervals of `every` accesses, of which the
/// last may be shorter: a row for each, in order.
/// [`compared_intervals_add_up`](crate::theorems::compared_intervals_add_up) says that the rows sum up to what
/// `compare` returns. The gate is called as by `part_watched`.
///
/// Errors: those of `compare`.
pub fn compare_intervals<R: Threads + Sync, G: Gate>(
    rt: &R,
    alloc: Global,
    trace: &Trace,
    first: &Job,
    second: &Job,
    every: usize,
    gate: &G,
) -> Result<Vec<ComparedInterval>, ActorFault>
    requires { 1 ≤ every }
    ensures rows { IfOk result (λ rows. rows.items ≡ compared_intervals_on every first.now second.now trace.now) }
    ensures fault { ReturnsFault (faulty_in (first.now ∷ second.now ∷ [])) result }
{
    let run = run_over(rt, alloc, trace, first, second, every, gate)?;
    let rows = run.into_rows()?;
    Ok(rows)
}

/// Adds the header and a row for each interval of two jobs, whose capacity is that of the first. The one error is
/// that an allocation failed.
pub fn push_compared_intervals(
    text: &mut Vec<u8>,
    first: &Job,
    second: &Job,
    rows: &[ComparedInterval],
) -> Result<(), AllocError>
    ensures { OnOk result (text.new.items
        ≡ text.old.items ++ compared_intervals_text first.now second.now rows.now) }
{
    text.extend_from_slice(b"first,second,capacity,from,to,both,first_only,second_only,neither\n")?;
    for row in rows {
        push_interval(text, first, second, row)?;
    }
    Ok(())
}

// Adds a row. The one error is that an allocation failed.
fn push_interval(
    text: &mut Vec<u8>,
    first: &Job,
    second: &Job,
    row: &ComparedInterval,
) -> Result<(), AllocError>
    ensures { OnOk result (text.new.items ≡ text.old.items ++ compared_row first.now second.now row.now) }
{
    let counts = &row.counts;
    push_row(
        text,
        first,
        second,
        &[
            row.from,
            row.to,
            counts.both,
            counts.first_only,
            counts.second_only,
            counts.neither,
        ],
    )
}

// The run of both jobs once it took the accesses of the trace, in intervals of `every` accesses.
fn run_over<R: Threads + Sync, G: Gate>(
    rt: &R,
    alloc: Global,
    trace: &Trace,
    first: &Job,
    second: &Job,
    every: usize,
    gate: &G,
) -> Result<ComparedRun, ActorFault>
    requires { 1 ≤ every }
    ensures run { IfOk result (HasCompared every first.now second.now trace.now (length trace.now)) }
    ensures fault { ReturnsFault (faulty_in (first.now ∷ second.now ∷ [])) result }
{
    check_jobs(&[*first, *second])?;
    let mut run = ComparedRun::open(alloc, trace, first, second, every)?;
    take_trace(rt, trace, &mut run, gate)?;
    Ok(run)
}
