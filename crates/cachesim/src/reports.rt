//! The subcommands that make a text of a trace while it is read: `run`, `intervals`, `part` and `compare`. The trace is
//! kept only where a policy has to know it whole.
ghost use Rattle.std.specs.Prelude.{◌≡◌, false};
ghost use Rattle.command_line.specs.Accepted.{AreAcceptedIntervals, IsAcceptedComparison, IsAcceptedPart};
ghost use Rattle.command_line.specs.Accepted.{IsAcceptedRun, needs_whole_trace};
ghost use Rattle.command_line.specs.declared.arguments.Arguments.TheVariants.{Compare, Intervals, Part, Run};
ghost use Rattle.cachesim.specs.Subcommand.{IsMade};

use crate::fault::Fault;
use command_line::{CompareArguments, IntervalsArguments, PartArguments, RunArguments};
use policies::MAX_ACTORS;
use policy_actors::run_reading_within;
use policy_comparison::{push_compared_intervals, push_comparison, push_part};
use report::{intervals_text, reports_text};
use std::alloc::Global;
use std::sync::Wait;
use std::thread::Threads;
use streams::{CountedRead, Watch};

/// The report of each policy that the arguments name, as text; each policy runs on a thread of its own while the trace
/// is read. Here and below too many policies are reported only if the trace has no fault.
pub fn run<T: Threads + Wait + Sync, R: CountedRead, P: Watch>(
    rt: &T,
    alloc: Global,
    arguments: &RunArguments,
    input: &mut R,
    watch: &P,
) -> Result<Vec<u8>, Fault>
    requires accepted { IsAcceptedRun arguments.now }
    requires kept { needs_whole_trace (Run arguments.now) ≡ false }
    ensures { IsMade (Run arguments.now) (R.remaining input.old) (R.tally input.old) (R.tally input.new) result }
{
    let (asked, batch) = (&arguments.jobs, arguments.batch);
    let jobs = asked.list.as_slice();
    let (format, limits) = (asked.format, asked.limits);
    watch.begin("run");
    if jobs.len() > MAX_ACTORS {
        run_reading_within(rt, alloc, input, format, limits, &[], batch, watch)?;
        return Err(Fault::Actors);
    }
    let reports = run_reading_within(rt, alloc, input, format, limits, jobs, batch, watch)?;
    Ok(reports_text(alloc, reports.as_slice())?)
}

/// The rows of the policies that the arguments name, one for each interval, as text: all of the first policy, then
/// those of the second, and so on.
pub fn intervals<T: Threads + Wait + Sync, R: CountedRead, P: Watch>(
    rt: &T,
    alloc: Global,
    arguments: &IntervalsArguments,
    input: &mut R,
    watch: &P,
) -> Result<Vec<u8>, Fault>
    requires accepted { AreAcceptedIntervals arguments.now }
    requires kept { needs_whole_trace (Intervals arguments.now) ≡ false }
    ensures { IsMade (Intervals arguments.now) (R.remaining input.old) (R.tally input.old) (R.tally input.new) result }
{
    let asked = &arguments.jobs;
    let (format, limits) = (asked.format, asked.limits);
    let jobs = asked.list.as_slice();
    watch.begin("intervals");
    if jobs.len() > MAX_ACTORS {
        long_traces::reports(rt, alloc, input, format, limits, &[], watch)?;
        return Err(Fault::Actors);
    }
    let every = arguments.every as usize;
    if arguments.inside {
        let text = long_traces::queues_text(rt, alloc, input, format, limits, jobs, every)?;
        return Ok(text);
    }
    let rows = long_traces::intervals(rt, alloc, input, format, limits, jobs, every)?;
    Ok(intervals_text(alloc, rows.as_slice())?)
}

/// One line: the first access at which just one of the two policies hits, counted from 1, or `none`.
pub fn part<T: Threads + Sync, R: CountedRead, P: Watch>(
    rt: &T,
    alloc: Global,
    arguments: &PartArguments,
    input: &mut R,
    watch: &P,
) -> Result<Vec<u8>, Fault>
    requires accepted { IsAcceptedPart arguments.now }
    requires kept { needs_whole_trace (Part arguments.now) ≡ false }
    ensures { IsMade (Part arguments.now) (R.remaining input.old) (R.tally input.old) (R.tally input.new) result }
{
    let (format, limits) = (arguments.format, arguments.limits);
    let (first, second) = (&arguments.first, &arguments.second);
    watch.begin("part");
    let found = long_traces::part(rt, alloc, input, format, limits, first, second)?;
    let mut line = Vec::new(alloc);
    push_part(&mut line, found)?;
    Ok(line)
}

/// A header and a row: at how many accesses both of the two policies hit, only one of them, and neither; or such a
/// row for each interval, where the arguments say how long one is.
pub fn compare<T: Threads + Sync, R: CountedRead, P: Watch>(
    rt: &T,
    alloc: Global,
    arguments: &CompareArguments,
    input: &mut R,
    watch: &P,
) -> Result<Vec<u8>, Fault>
    requires accepted { IsAcceptedComparison arguments.now }
    requires kept { needs_whole_trace (Compare arguments.now) ≡ false }
    ensures { IsMade (Compare arguments.now) (R.remaining input.old) (R.tally input.old) (R.tally input.new) result }
{
    let pair = &arguments.policies;
    let (first, second) = (&pair.first, &pair.second);
    let (format, limits) = (pair.format, pair.limits);
    let mut text = Vec::new(alloc);
    watch.begin("compare");
    match arguments.every {
        Some(every) => {
            let every = every as usize;
            let rows = long_traces::compare_intervals(
                rt, alloc, input, format, limits, first, second, every,
            )?;
            push_compared_intervals(&mut text, first, second, rows.as_slice())?;
        }
        None => {
            let counts = long_traces::compare(rt, alloc, input, format, limits, first, second)?;
            push_comparison(&mut text, first, second, &counts)?;
        }
    }
    Ok(text)
}
