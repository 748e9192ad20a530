//! Where two policies differ over a trace that is read, and how often they hit together.
ghost use Rattle.std.specs.Prelude.{◌≡◌, ◌≤◌, Err, List, ℕ, Ok, IfOk, IfSome, length};
ghost use Rattle.engine_base.specs.Config.{config_fault};
ghost use Rattle.policies.specs.AnyPolicy.{outcomes_on};
ghost use Rattle.policy_comparison.specs.Comparison.{compared_on};
ghost use Rattle.policy_comparison.specs.ComparedIntervals.{compared_intervals_on};
ghost use Rattle.policy_comparison.specs.ComparedRun.{HasCompared};
ghost use Rattle.policy_comparison.specs.Part.{IsPart};
ghost use Rattle.policy_comparison.specs.PartRun.{HasParted};
ghost use Rattle.streams.specs.Tally.{FailsWhere};
ghost use Rattle.sweeps.specs.Taking.{HasTakenAll, RunsOver};
ghost use Rattle.trace_read.specs.ReadTrace.{IsReadWithin};
ghost use Rattle.trace_read.specs.TraceText.{keys_in};
ghost use Rattle.trace_read.specs.declared.limits.TheConstants.{MAX_LONG_ACCESSES, MAX_LONG_TRACE_BYTES};
ghost use Rattle.long_traces.specs.Feed.{CanRun};

use crate::feed::taken_by;
use crate::jobs::some_know_trace;
use policy_comparison::{ComparedInterval, ComparedRun, Comparison, PartRun};
use std::alloc::{AllocError, Global};
use std::thread::Threads;
use step_record::{Job, Trace};
use streams::CountedRead;
use trace_read::{Format, Limits, TraceFault};

/// At how many accesses of the trace that the reader gives the policies of both jobs hit, only that of the first, only
/// that of the second, and neither. The jobs are as for `reports`, and run side by side.
///
/// Errors: those of `reports`.
pub fn compare<T: Threads + Sync, R: CountedRead>(
    rt: &T,
    alloc: Global,
    reader: &mut R,
    format: Format,
    limits: Limits,
    first: &Job,
    second: &Job,
) -> Result<Comparison, TraceFault>
    requires first { CanRun limits.accesses first.now }
    requires second { CanRun limits.accesses second.now }
    requires accesses { limits.accesses ≤ MAX_LONG_ACCESSES }
    requires bytes { limits.bytes ≤ MAX_LONG_TRACE_BYTES }
    ensures counts { IfOk result (λ counts. IfSome (R.remaining reader.old)
        (λ bytes. counts ≡ compared_on first.now second.now (keys_in format bytes))) }
    ensures read { IsReadWithin limits format (R.remaining reader.old) (R.remaining reader.new) result }
    ensures tally { FailsWhere (result ≡ Err TraceFault.Read) (R.tally reader.old) (R.tally reader.new) }
{
    let run = compared_over(rt, alloc, reader, format, limits, first, second, usize::MAX)?;
    Ok(run.counts())
}

/// What is counted of the policies of both jobs over the trace that the reader gives, cut into intervals of `every`
/// accesses, of which the last may be shorter: a row for each, in order. The jobs are as for `compare`.
///
/// Errors: those of `reports`.
pub fn compare_intervals<T: Threads + Sync, R: CountedRead>(
    rt: &T,
    alloc: Global,
    reader: &mut R,
    format: Format,
    limits: Limits,
    first: &Job,
    second: &Job,
    every: usize,
) -> Result<Vec<ComparedInterval>, TraceFault>
    requires first { CanRun limits.accesses first.now }
    requires second { CanRun limits.accesses second.now }
    requires some { 1 ≤ every }
    requires accesses { limits.accesses ≤ MAX_LONG_ACCESSES }
    requires bytes { limits.bytes ≤ MAX_LONG_TRACE_BYTES }
    ensures rows { IfOk result (λ rows. IfSome (R.remaining reader.old)
        (λ bytes. rows.items ≡ compared_intervals_on every first.now second.now (keys_in format bytes))) }
    ensures read { IsReadWithin limits format (R.remaining reader.old) (R.remaining reader.new) result }
    ensures tally { FailsWhere (result ≡ Err TraceFault.Read) (R.tally reader.old) (R.tally reader.new) }
{
    let run = compared_over(rt, alloc, reader, format, limits, first, second, every)?;
    Ok(run.into_rows()?)
}

/// The first access of the trace that the reader gives, counted from 1, at which the policy of one job hits and that of
/// the other does not; `None` where there is no such access. The jobs are as for `compare`.
///
/// Errors: those of `reports`.
pub fn part<T: Threads + Sync, R: CountedRead>(
    rt: &T,
    alloc: Global,
    reader: &mut R,
    format: Format,
    limits: Limits,
    first: &Job,
    second: &Job,
) -> Result<Option<u64>, TraceFault>
    requires first { CanRun limits.accesses first.now }
    requires second { CanRun limits.accesses second.now }
    requires accesses { limits.accesses ≤ MAX_LONG_ACCESSES }
    requires bytes { limits.bytes ≤ MAX_LONG_TRACE_BYTES }
    ensures part { IfOk result (λ found. IfSome (R.remaining reader.old) (λ bytes.
        IsPart (outcomes_on first.now (keys_in format bytes)) (outcomes_on second.now (keys_in format bytes)) found)) }
    ensures read { IsReadWithin limits format (R.remaining reader.old) (R.remaining reader.new) result }
    ensures tally { FailsWhere (result ≡ Err TraceFault.Read) (R.tally reader.old) (R.tally reader.new) }
{
    let is_kept = some_know_trace(&[*first, *second]);
    let run = taken_by(
        rt,
        alloc,
        reader,
        format,
        limits,
        is_kept,
        |trace: &Trace| -> Result<PartRun, AllocError>
            requires { (config_fault first.now.config ≡ Ok tt) × (config_fault second.now.config ≡ Ok tt) }
            ensures { IfOk result (λ run. (other : List ℕ) → RunsOver trace.entry.now other first.entry.now
                → RunsOver trace.entry.now other second.entry.now
                → HasParted first.entry.now second.entry.now other 0 run) }
        { PartRun::open(alloc, trace, first, second) },
    )?;
    Ok(run.found())
}

// A run of both jobs that has made all accesses of the trace that the reader gives, in intervals of `every` accesses.
//
// Errors: those of `reports`.
fn compared_over<T: Threads + Sync, R: CountedRead>(
    rt: &T,
    alloc: Global,
    reader: &mut R,
    format: Format,
    limits: Limits,
    first: &Job,
    second: &Job,
    every: usize,
) -> Result<ComparedRun, TraceFault>
    requires first { CanRun limits.accesses first.now }
    requires second { CanRun limits.accesses second.now }
    requires some { 1 ≤ every }
    requires accesses { limits.accesses ≤ MAX_LONG_ACCESSES }
    requires bytes { limits.bytes ≤ MAX_LONG_TRACE_BYTES }
    ensures some { IfOk result (HasTakenAll (HasCompared every first.now second.now)) }
    ensures taken { IfOk result (λ run. IfSome (R.remaining reader.old) (λ bytes.
        HasCompared every first.now second.now (keys_in format bytes) (length (keys_in format bytes)) run)) }
    ensures read { IsReadWithin limits format (R.remaining reader.old) (R.remaining reader.new) result }
    ensures tally { FailsWhere (result ≡ Err TraceFault.Read) (R.tally reader.old) (R.tally reader.new) }
{
    let is_kept = some_know_trace(&[*first, *second]);
    taken_by(
        rt,
        alloc,
        reader,
        format,
        limits,
        is_kept,
        |trace: &Trace| -> Result<ComparedRun, AllocError>
            requires { (config_fault first.now.config ≡ Ok tt) × (config_fault second.now.config ≡ Ok tt) × (1 ≤ every) }
            ensures { IfOk result (λ run. (other : List ℕ) → RunsOver trace.entry.now other first.entry.now
                → RunsOver trace.entry.now other second.entry.now
                → HasCompared every first.entry.now second.entry.now other 0 run) }
        { ComparedRun::open(alloc, trace, first, second, every) },
    )
}
