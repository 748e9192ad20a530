//! What a call asks for, as typed values, and how they are made of the matches of a subcommand.
ghost use Rattle.std.specs.Prelude.{◌≡◌};
ghost use Rattle.command_line.specs.Accepted.{AreAccepted, AreAcceptedJobs, IsTuning, IsAcceptedPart, IsConfig};
ghost use Rattle.command_line.specs.Values.{Answers, compare_in, concurrent_in, config_at, config_in, debug_in, drive_in, footprint_in};
ghost use Rattle.command_line.specs.Values.{intervals_in, jobs_in, part_in, tuning_in, replay_in, run_in, sample_in, sweep_in};

use crate::fault::{ValueFault, ValueResult};
use crate::lists::{CapacityList, FilePath, JobList};
use crate::options::OptionName;
use crate::values::{Matches, stripes_from};
use std::alloc::Global;
use step_record::{Config, Job, Tuning};
use trace_read::{Format, Limits};

/// What a call asks for: its subcommand, with its arguments.
#[derive(Drop)]
pub enum Arguments {
    /// `run`
    Run(RunArguments),
    /// `sweep`
    Sweep(SweepArguments),
    /// `intervals`
    Intervals(IntervalsArguments),
    /// `part`
    Part(PartArguments),
    /// `compare`
    Compare(CompareArguments),
    /// `footprint`
    Footprint(FootprintArguments),
    /// `sample`
    Sample(SampleArguments),
    /// `drive`
    Drive(DriveArguments),
    /// `debug`
    Debug(DebugArguments),
    /// `replay`
    Replay(ReplayArguments),
}

/// The arguments of each call about any number of policies: a job for each of them, over one trace.
#[derive(Drop)]
pub struct JobArguments {
    /// A job for each policy, in the order of their reports or rows. Its numbers are in their ranges.
    pub list: JobList,
    /// The format of the trace.
    pub format: Format,
    /// The most accesses and bytes of the trace.
    pub limits: Limits,
}

/// The arguments of `run`.
#[derive(Drop)]
pub struct RunArguments {
    /// The policies, and their trace.
    pub jobs: JobArguments,
    /// How many accesses a policy is given at once: 1 to `MAX_BATCH`.
    pub batch: u32,
}

/// The arguments of `sweep`.
#[derive(Drop)]
pub struct SweepArguments {
    /// The policies at capacity 1, which each of `capacities` replaces, and their trace.
    pub jobs: JobArguments,
    /// The capacities, in the order of a policy's reports: each is 1 to `MAX_CAPACITY`.
    pub capacities: CapacityList,
}

/// The arguments of `intervals`.
#[derive(Drop)]
pub struct IntervalsArguments {
    /// The policies, and their trace.
    pub jobs: JobArguments,
    /// How many accesses an interval has: from 1 to as many as the trace may have.
    pub every: u32,
    /// Whether each queue of a policy has a row.
    pub inside: bool,
}

/// The arguments of `part`, and of each call about two policies.
#[derive(Clone, Copy)]
pub struct PartArguments {
    /// The one policy.
    pub first: Job,
    /// The other policy.
    pub second: Job,
    /// The format of the trace.
    pub format: Format,
    /// The most accesses and bytes of the trace.
    pub limits: Limits,
}

/// The arguments of `compare`.
#[derive(Clone, Copy)]
pub struct CompareArguments {
    /// The two policies, and the format of the trace.
    pub policies: PartArguments,
    /// How many accesses an interval has: from 1 to as many as the trace may have. `None` for one row of the whole trace.
    pub every: Option<u32>,
}

/// The arguments of `footprint`.
#[derive(Clone, Copy)]
pub struct FootprintArguments {
    /// The format of the trace.
    pub format: Format,
    /// The most accesses and bytes of the trace.
    pub limits: Limits,
}

/// The arguments of `sample`.
#[derive(Clone, Copy)]
pub struct SampleArguments {
    /// The sample has one block in so many: a power of two from 2 to 2^20.
    pub inverse: u32,
    /// Another number gives other blocks.
    pub seed: u64,
    /// The format of the trace.
    pub format: Format,
}

/// The arguments of `drive`.
#[derive(Clone, Copy)]
pub struct DriveArguments {
    /// The configuration of the cache and its journal. Its numbers are in their ranges.
    pub config: Config,
    /// How many threads read the keys: 1 to `MAX_WORKERS`.
    pub workers: u8,
    /// The format of the trace.
    pub format: Format,
}

/// The arguments of `debug`.
#[derive(Drop)]
pub struct DebugArguments {
    /// The two policies, and the format of the trace.
    pub policies: PartArguments,
    /// The file of the trace.
    pub trace: FilePath,
}

/// The arguments of `replay`.
#[derive(Drop)]
pub struct ReplayArguments {
    /// The configuration of the cache and its journal. Its numbers are in their ranges.
    pub config: Config,
    /// The file of the journal.
    pub journal: FilePath,
}

/// What `run` is asked for by its matches.
#[tactic(auto, unfolding(crate::specs::Values::run_in))]
pub(crate) fn run(alloc: Global, asked: &Matches<'_, '_>) -> ValueResult<Arguments>
    ensures { Answers (run_in asked.now) AreAccepted result }
{
    let config = policy_config(asked)?;
    let batch = asked.number(OptionName::Batch)?;
    let jobs = jobs(alloc, asked, config, OptionName::Policies)?;
    Ok(Arguments::Run(RunArguments { jobs, batch }))
}

/// What `sweep` is asked for by its matches.
#[tactic(auto, unfolding(crate::specs::Values::sweep_in))]
pub(crate) fn sweep(alloc: Global, asked: &Matches<'_, '_>) -> ValueResult<Arguments>
    ensures { Answers (sweep_in asked.now) AreAccepted result }
{
    let config = config(asked, 1, 1, 1)?;
    let jobs = jobs(alloc, asked, config, OptionName::SweptPolicies)?;
    let capacities = asked.capacities(alloc)?;
    Ok(Arguments::Sweep(SweepArguments { jobs, capacities }))
}

/// What `intervals` is asked for by its matches.
#[tactic(auto, unfolding(crate::specs::Values::intervals_in))]
pub(crate) fn intervals(alloc: Global, asked: &Matches<'_, '_>) -> ValueResult<Arguments>
    ensures { Answers (intervals_in asked.now) AreAccepted result }
{
    let config = policy_config(asked)?;
    let every = asked.number(OptionName::Every)?;
    let jobs = jobs(alloc, asked, config, OptionName::Policies)?;
    let inside = asked.is_given(OptionName::Inside);
    Ok(Arguments::Intervals(IntervalsArguments {
        jobs,
        every,
        inside,
    }))
}

/// What `part` is asked for by its matches.
#[tactic(auto, unfolding(crate::specs::Values::part_in))]
pub(crate) fn part(asked: &Matches<'_, '_>) -> ValueResult<PartArguments>
    ensures { Answers (part_in asked.now) IsAcceptedPart result }
{
    let config = policy_config(asked)?;
    let tuning = tuning(asked)?;
    let first = asked.job(OptionName::First, &config, &tuning)?;
    let second = asked.job(OptionName::Second, &config, &tuning)?;
    Ok(PartArguments {
        first,
        second,
        format: asked.format(),
        limits: asked.limits(),
    })
}

/// What `compare` is asked for by its matches.
#[tactic(auto, unfolding(crate::specs::Values::compare_in))]
pub(crate) fn compare(asked: &Matches<'_, '_>) -> ValueResult<Arguments>
    ensures { Answers (compare_in asked.now) AreAccepted result }
{
    let policies = part(asked)?;
    let every = asked.optional_number(OptionName::ComparedEvery);
    Ok(Arguments::Compare(CompareArguments { policies, every }))
}

/// What `footprint` is asked for by its matches.
#[tactic(auto, unfolding(crate::specs::Values::footprint_in))]
pub(crate) fn footprint(asked: &Matches<'_, '_>) -> Arguments
    ensures value { result ≡ footprint_in asked.now }
    ensures accepted { AreAccepted result }
{
    Arguments::Footprint(FootprintArguments {
        format: asked.format(),
        limits: asked.limits(),
    })
}

/// What `sample` is asked for by its matches.
#[tactic(auto, unfolding(crate::specs::Values::sample_in))]
pub(crate) fn sample(asked: &Matches<'_, '_>) -> ValueResult<Arguments>
    ensures { Answers (sample_in asked.now) AreAccepted result }
{
    let inverse = asked.rate()?;
    let seed = asked
        .wide_number(OptionName::Seed)
        .ok_or(ValueFault::Incomplete)?;
    Ok(Arguments::Sample(SampleArguments {
        inverse,
        seed,
        format: asked.format(),
    }))
}

/// What `drive` is asked for by its matches.
#[tactic(auto, unfolding(crate::specs::Values::drive_in))]
pub(crate) fn drive(asked: &Matches<'_, '_>) -> ValueResult<Arguments>
    ensures { Answers (drive_in asked.now) AreAccepted result }
{
    let config = concurrent_config(asked)?;
    let workers = asked.number(OptionName::Workers)?;
    Ok(Arguments::Drive(DriveArguments {
        config,
        workers: workers as u8,
        format: asked.format(),
    }))
}

/// What `debug` is asked for by its matches.
#[tactic(auto, unfolding(crate::specs::Values::debug_in))]
pub(crate) fn debug(alloc: Global, asked: &Matches<'_, '_>) -> ValueResult<Arguments>
    ensures { Answers (debug_in asked.now) AreAccepted result }
{
    let policies = part(asked)?;
    let trace = asked.path(alloc, OptionName::Trace)?;
    Ok(Arguments::Debug(DebugArguments { policies, trace }))
}

/// What `replay` is asked for by its matches.
#[tactic(auto, unfolding(crate::specs::Values::replay_in))]
pub(crate) fn replay(alloc: Global, asked: &Matches<'_, '_>) -> ValueResult<Arguments>
    ensures { Answers (replay_in asked.now) AreAccepted result }
{
    let config = concurrent_config(asked)?;
    let journal = asked.path(alloc, OptionName::Journal)?;
    Ok(Arguments::Replay(ReplayArguments { config, journal }))
}

// The jobs of the policies that the matches name, on this configuration where a policy has no size of its own, and
// their trace.
#[tactic(auto, unfolding(crate::specs::Values::jobs_in))]
fn jobs(
    alloc: Global,
    asked: &Matches<'_, '_>,
    config: Config,
    name: OptionName,
) -> ValueResult<JobArguments>
    requires { IsConfig config }
    ensures { Answers (jobs_in name config asked.now) AreAcceptedJobs result }
{
    let tuning = tuning(asked)?;
    let list = asked.jobs(alloc, name, &config, &tuning)?;
    Ok(JobArguments {
        list,
        format: asked.format(),
        limits: asked.limits(),
    })
}

// The configuration of a policy that the matches name.
fn policy_config(asked: &Matches<'_, '_>) -> ValueResult<Config>
    ensures { Answers (config_in asked.now) IsConfig result }
{
    let capacity = asked.number(OptionName::Capacity)?;
    config(asked, capacity, 1, 1)
}

// The tuning of policies that the matches name.
#[tactic(auto, unfolding(crate::specs::Values::tuning_in))]
fn tuning(asked: &Matches<'_, '_>) -> ValueResult<Tuning>
    ensures { Answers (tuning_in asked.now) IsTuning result }
{
    let small = asked.number(OptionName::Small)?;
    let kin = asked.number(OptionName::In)?;
    let kout = asked.number(OptionName::Out)?;
    Ok(Tuning {
        small: small as u8,
        kin: kin as u8,
        kout: kout as u8,
        period: asked.optional_number(OptionName::Period),
    })
}

// The configuration of a concurrent cache that the matches name.
fn concurrent_config(asked: &Matches<'_, '_>) -> ValueResult<Config>
    ensures { Answers (concurrent_in asked.now) IsConfig result }
{
    let stripes = asked
        .wide_number(OptionName::Stripes)
        .and_then(stripes_from)
        .ok_or(ValueFault::Incomplete)?;
    let capacity = asked.number(OptionName::Capacity)?;
    let limit = asked.number(OptionName::Limit)?;
    config(asked, capacity, stripes, limit)
}

// The configuration of these numbers and what the matches name beside them, where it is accepted.
#[tactic(auto, unfolding(crate::specs::Values::config_at))]
fn config(asked: &Matches<'_, '_>, capacity: u32, stripes: u8, limit: u32) -> ValueResult<Config>
    ensures { Answers (config_at capacity stripes limit asked.now) IsConfig result }
{
    let main_percent = asked.number(OptionName::Main)?;
    let config = Config {
        capacity,
        main_percent: main_percent as u8,
        spread: asked.spread(),
        stripes,
        journal_limit: limit,
    };
    config.check().map_err(|_| ValueFault::Incomplete)?;
    Ok(config)
}
