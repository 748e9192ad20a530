//! The first access at which one policy hits and the other does not.
ghost use Rattle.std.specs.Prelude.{◌≡◌, ◌++◌, [], ◌∷◌, IfOk, OnOk};
ghost use Rattle.policies.specs.AnyPolicy.{outcomes_on};
ghost use Rattle.policies.specs.FaultyJobs.{faulty_in, ReturnsFault};
ghost use Rattle.policy_comparison.specs.Part.{part_line, IsPart};

use crate::part_run::PartRun;
use policies::{ActorFault, check_jobs};
use std::alloc::{AllocError, Global};
use std::thread::Threads;
use step_record::{Gate, Job, OpenGate, Trace};
use streams::push_counts_line;
use sweeps::take_trace;

/// The first access of the trace, counted from 1, at which the policy of one job hits and that of the other does not;
/// `None` where there is no such access. The two caches make the accesses side by side where a thread can be made.
///
/// Errors: `Config` with index 0 exactly where `Config::check` refuses the first job's configuration, with index 1
/// exactly where it refuses the second's and accepts the first's; then `OutOfMemory`.
pub fn part<R: Threads + Sync>(
    rt: &R,
    alloc: Global,
    trace: &Trace,
    first: &Job,
    second: &Job,
) -> Result<Option<u64>, ActorFault>
    ensures part { IfOk result (IsPart (outcomes_on first.now trace.now) (outcomes_on second.now trace.now)) }
    ensures fault { ReturnsFault (faulty_in (first.now ∷ second.now ∷ [])) result }
{
    part_watched(rt, alloc, trace, first, second, &OpenGate)
}

/// The same, where the gate is called around each `sweeps::AT_A_TIME` accesses of the trace, as number 0, 1 and so on
/// of worker 0, also behind the access that was found.
///
/// Errors: those of `part`.
pub fn part_watched<R: Threads + Sync, G: Gate>(
    rt: &R,
    alloc: Global,
    trace: &Trace,
    first: &Job,
    second: &Job,
    gate: &G,
) -> Result<Option<u64>, ActorFault>
    ensures part { IfOk result (IsPart (outcomes_on first.now trace.now) (outcomes_on second.now trace.now)) }
    ensures fault { ReturnsFault (faulty_in (first.now ∷ second.now ∷ [])) result }
{
    check_jobs(&[*first, *second])?;
    let mut run = PartRun::open(alloc, trace, first, second)?;
    take_trace(rt, trace, &mut run, gate)?;
    Ok(run.found())
}

/// Adds the line of the access that `part` found, or of none. The one error is that an allocation failed.
pub fn push_part(text: &mut Vec<u8>, found: Option<u64>) -> Result<(), AllocError>
    ensures { OnOk result (text.new.items ≡ text.old.items ++ part_line found) }
{
    match found {
        Some(access) => push_counts_line(text, &[(b"part ", access)]),
        None => text.extend_from_slice(b"part none\n"),
    }
}
