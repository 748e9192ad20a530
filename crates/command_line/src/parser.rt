//! The words of a call, to its arguments.
ghost use Rattle.std.specs.Prelude.{◌≡◌, false, IfOk, map};
ghost use Rattle.clap.specs.Words.{subcommand_rows_of};
ghost use Rattle.std.specs.List.{list_any};
ghost use Rattle.command_line.specs.Accepted.{AreAccepted, has_long_intervals, is_clairvoyant_job, jobs_need_whole_trace};
ghost use Rattle.command_line.specs.Accepted.{needs_whole_trace, pair_needs_whole_trace};
ghost use Rattle.command_line.specs.ParseResult.{IsAskedFor, ParsedBy};
ghost use Rattle.command_line.specs.Values.{Answers, asked_in, asked_of, has_wrong_stripes};

use crate::arguments::{
    Arguments, JobArguments, PartArguments, compare, debug, drive, footprint, intervals, part,
    replay, run, sample, sweep,
};
use crate::choices::{WordLists, format_words, rate_words, spread_words};
use crate::commands::program;
use crate::fault::{ParseFault, ValueFault, ValueResult};
use crate::options::OptionName;
use crate::values::{Matches, stripes_from};
use clap::ArgMatches;
use std::alloc::Global;
use step_record::{Job, Policy};

/// What the words after the program's name ask for. `Refused` comes exactly where `clap` refuses
/// them by the commands' rules, also where they ask for help or the version, or where it ran out
/// of memory; `Stripes` where the number of read buffers is not a power of two from 1 to 64; `Incomplete`
/// where they lack another number in its range or a known policy; `WholeTrace` where they name a policy that has to
/// know the whole trace, for one that may be too long to be kept, and `LongIntervals` where an interval has more
/// accesses than the trace may have.
pub fn parse(alloc: Global, words: &[&str]) -> Result<Arguments, ParseFault>
    ensures parsed { ParsedBy (map (λ s. s.now) words.now) result }
    ensures accepted { IfOk result AreAccepted }
    ensures kept { IfOk result (λ arguments. needs_whole_trace arguments ≡ false) }
{
    let formats = format_words();
    let spreads = spread_words();
    let rates = rate_words();
    let lists = WordLists {
        formats: formats.as_slice(),
        spreads: spreads.as_slice(),
        rates: rates.as_slice(),
    };
    let program = program(alloc, &lists)?;
    let matches = program.try_get_matches_from(words)?;
    arguments(alloc, &matches)
}

// What the matches ask for, or why they ask for nothing.
fn arguments(alloc: Global, matches: &ArgMatches<'_>) -> Result<Arguments, ParseFault>
    ensures asked { IsAskedFor (asked_in (subcommand_rows_of matches.now)) result }
    ensures accepted { IfOk result AreAccepted }
    ensures kept { IfOk result (λ arguments. needs_whole_trace arguments ≡ false) }
{
    let Some((name, asked)) = matches.subcommand() else {
        return Err(ParseFault::Incomplete);
    };
    let asked = Matches { matches: asked };
    if has_wrong_stripes(&asked) {
        return Err(ParseFault::Stripes);
    }
    let arguments = match arguments_of(alloc, name, &asked) {
        Ok(arguments) => arguments,
        Err(ValueFault::OutOfMemory) => return Err(ParseFault::OutOfMemory),
        Err(ValueFault::Incomplete) => return Err(ParseFault::Incomplete),
    };
    if needs_whole_trace(&arguments) {
        drop(arguments);
        return Err(ParseFault::WholeTrace);
    }
    if has_long_intervals(&arguments) {
        drop(arguments);
        return Err(ParseFault::LongIntervals);
    }
    Ok(arguments)
}

// What the matches of the subcommand of this name ask for.
fn arguments_of(alloc: Global, name: &str, asked: &Matches<'_, '_>) -> ValueResult<Arguments>
    ensures { Answers (asked_of name.now asked.now) AreAccepted result }
{
    match name {
        "run" => run(alloc, asked),
        "sweep" => sweep(alloc, asked),
        "intervals" => intervals(alloc, asked),
        "part" => part(asked).map(Arguments::Part),
        "compare" => compare(asked),
        "footprint" => Ok(footprint(asked)),
        "sample" => sample(asked),
        "drive" => drive(asked),
        "debug" => debug(alloc, asked),
        "replay" => replay(alloc, asked),
        _ => Err(ValueFault::Incomplete),
    }
}

// Whether a number of read buffers was given that no cache has.
fn has_wrong_stripes(asked: &Matches<'_, '_>) -> bool
    ensures { result ≡ has_wrong_stripes asked.now }
{
    match asked.wide_number(OptionName::Stripes) {
        Some(number) => stripes_from(number).is_none(),
        None => false,
    }
}

// Whether a policy is named that has to know the whole trace, for one that may be too long to be kept.
fn needs_whole_trace(arguments: &Arguments) -> bool
    ensures { result ≡ needs_whole_trace arguments.now }
{
    match arguments {
        Arguments::Run(run) => jobs_need_whole_trace(&run.jobs),
        Arguments::Sweep(sweep) => jobs_need_whole_trace(&sweep.jobs),
        Arguments::Intervals(intervals) => jobs_need_whole_trace(&intervals.jobs),
        Arguments::Part(part) => pair_needs_whole_trace(part),
        Arguments::Compare(compare) => pair_needs_whole_trace(&compare.policies),
        _ => false,
    }
}

// Whether one of the policies has to know the whole trace, which may be too long to be kept.
fn jobs_need_whole_trace(jobs: &JobArguments) -> bool
    ensures { result ≡ jobs_need_whole_trace jobs.now }
{
    jobs.limits.are_long() && has_clairvoyant(jobs.list.as_slice())
}

// Whether one of the jobs is of Belady's policy.
fn has_clairvoyant(jobs: &[Job]) -> bool
    ensures { result ≡ list_any is_clairvoyant_job jobs.now }
{
    jobs.iter().any(|job| job.policy == Policy::Clairvoyant)
}

// Whether one of the two has to.
fn pair_needs_whole_trace(part: &PartArguments) -> bool
    ensures { result ≡ pair_needs_whole_trace part.now }
{
    let (first, second) = (part.first.policy, part.second.policy);
    part.limits.are_long() && (first == Policy::Clairvoyant || second == Policy::Clairvoyant)
}

// Whether an interval has more accesses than the trace may have.
fn has_long_intervals(arguments: &Arguments) -> bool
    ensures { result ≡ has_long_intervals arguments.now }
{
    match arguments {
        Arguments::Intervals(intervals) => intervals.every as usize
            > intervals.jobs.limits.accesses,
        Arguments::Compare(compare) => match compare.every {
            Some(every) => every as usize > compare.policies.limits.accesses,
            None => false,
        },
        _ => false,
    }
}
