//! The values that the matches of a subcommand have for an option.
ghost use Rattle.std.specs.Prelude.{◌≡◌, ◌≤◌, IfOk, IfSome, Some, map, option_and_then, option_map, true};
ghost use Rattle.std.specs.List.{All, AllPass};
ghost use Rattle.clap.specs.Words.{all_of, first_of};
ghost use Rattle.engine_base.specs.Config.{is_from_one};
ghost use Rattle.engine_base.specs.declared.limits.TheConstants.{MAX_CAPACITY};
ghost use Rattle.command_line.specs.Accepted.{IsAcceptedJob, IsConfig, IsTuning};
ghost use Rattle.command_line.specs.Choices.{all_named};
ghost use Rattle.command_line.specs.Options.{row_of};
ghost use Rattle.command_line.specs.PolicyWords.{job_named as job_by};
ghost use Rattle.command_line.specs.Values.{Answers, AnswersWith, IsIn, capacities_in, format_in, in_range as within};
ghost use Rattle.command_line.specs.Values.{is_given_in, limits_in, number_in};
ghost use Rattle.command_line.specs.Values.{number_named as number_by, job_in, job_list_in, rate_in, spread_in};
ghost use Rattle.command_line.specs.Values.{stripes_from as stripes_by, value_named as value_by, wide_number_in};
ghost use Rattle.command_line.specs.declared.options.OptionName.TheVariants.{Capacities};
ghost use Rattle.trace_read.specs.declared.limits.TheConstants.{MAX_LONG_ACCESSES, MAX_LONG_TRACE_BYTES};

use crate::choices::{format_named, is_given, limits_named, rate_named, spread_named};
use crate::fault::{ValueFault, ValueResult};
use crate::lists::{CapacityList, FilePath, JobList, NamedList};
use crate::options::{OptionName, ValueKind};
use crate::policy_words::job_named;
use clap::ArgMatches;
use std::alloc::Global;
use std::marker::Model;
use step_record::{Config, Job, MAX_STRIPES, Spread, Tuning};
use trace_read::{Format, Limits};

/// The matches of a subcommand, which contracts see as the rows of what was found.
#[derive(Drop)]
pub(crate) struct Matches<'m, 'a> {
    pub(crate) matches: &'m ArgMatches<'a>,
}

impl<'m, 'a> Model for Matches<'m, 'a> {
    ghost use Rattle.std.specs.Prelude.{List};
    ghost use Rattle.clap.specs.Words.{Row, found_of, rows_of};

    ghost Value = { List Row };

    ghost view = { λ m. rows_of (found_of m.matches.now) };
}

impl<'m, 'a> Matches<'m, 'a> {
    /// The number that is given to an option, where it is in the option's range.
    pub(crate) fn number(&self, option: OptionName) -> ValueResult<u32>
        ensures { Answers (number_in option self.now) (IsIn (row_of option).value) result }
    {
        self.optional_number(option).ok_or(ValueFault::Incomplete)
    }

    /// The same, where one is given that is in the option's range.
    pub(crate) fn optional_number(&self, option: OptionName) -> Option<u32>
        ensures value { result ≡ number_in option self.now }
        ensures range { IfSome result (IsIn (row_of option).value) }
    {
        self.wide_number(option)
            .and_then(|number| in_range(option.row().value, number))
    }

    /// The number of 64 bits that is given to an option.
    pub(crate) fn wide_number(&self, option: OptionName) -> Option<u64>
        ensures { result ≡ wide_number_in option self.now }
    {
        self.matches.get_one::<u64>(option.row().id)
    }

    /// How keys are spread.
    pub(crate) fn spread(&self) -> Spread
        ensures { result ≡ spread_in self.now }
    {
        spread_named(self.word(OptionName::Spread))
    }

    /// The format of the trace.
    pub(crate) fn format(&self) -> Format
        ensures { result ≡ format_in self.now }
    {
        format_named(self.word(OptionName::Format))
    }

    /// The number of blocks of which a sample has one.
    pub(crate) fn rate(&self) -> ValueResult<u32>
        ensures { Answers (rate_in self.now) (λ inverse. 2 ≤ inverse) result }
    {
        self.word(OptionName::Rate)
            .and_then(rate_named)
            .ok_or(ValueFault::Incomplete)
    }

    /// The most accesses and bytes of the trace.
    pub(crate) fn limits(&self) -> Limits
        ensures value { result ≡ limits_in self.now }
        ensures accesses { result.accesses ≤ MAX_LONG_ACCESSES }
        ensures bytes { result.bytes ≤ MAX_LONG_TRACE_BYTES }
    {
        limits_named(self.word(OptionName::Long))
    }

    /// Whether an option that has no value is given.
    pub(crate) fn is_given(&self, option: OptionName) -> bool
        ensures { result ≡ is_given_in option self.now }
    {
        is_given(self.word(option))
    }

    /// The job of the policy that is given to an option, on this configuration and with this tuning where the policy's
    /// word has no size of its own.
    pub(crate) fn job(
        &self,
        option: OptionName,
        config: &Config,
        tuning: &Tuning,
    ) -> ValueResult<Job>
        requires config { IsConfig config.now }
        requires tuning { IsTuning tuning.now }
        ensures { Answers (job_in option config.now tuning.now self.now) IsAcceptedJob result }
    {
        let word = self.word(option).ok_or(ValueFault::Incomplete)?;
        job_named(word, config, tuning).ok_or(ValueFault::Incomplete)
    }

    /// The path of the file that is given to an option.
    pub(crate) fn path(&self, alloc: Global, option: OptionName) -> ValueResult<FilePath>
        ensures { AnswersWith (first_of (row_of option).id self.now) result }
    {
        let word = self.word(option).ok_or(ValueFault::Incomplete)?;
        Ok(FilePath {
            path: word.to_string(alloc)?,
        })
    }

    /// The jobs of the policies that are given to an option, likewise.
    pub(crate) fn jobs(
        &self,
        alloc: Global,
        option: OptionName,
        config: &Config,
        tuning: &Tuning,
    ) -> ValueResult<JobList>
        requires config { IsConfig config.now }
        requires tuning { IsTuning tuning.now }
        ensures { Answers (job_list_in option config.now tuning.now self.now) (All IsAcceptedJob) result }
    {
        let named = |word: &str| -> Option<Job>
            ensures value { result ≡ job_by config.entry.now tuning.entry.now word.now }
            ensures accepted { IsConfig config.entry.now → IsTuning tuning.entry.now → IfSome result IsAcceptedJob }
        { job_named(word, config, tuning) };
        self.named(alloc, option, named)
    }

    /// The capacities of a sweep.
    pub(crate) fn capacities(&self, alloc: Global) -> ValueResult<CapacityList>
        ensures { Answers (capacities_in self.now) (AllPass (is_from_one MAX_CAPACITY)) result }
    {
        self.named(alloc, OptionName::Capacities, capacity_named)
    }

    // What the words that are given to an option name, in order.
    fn named<T: Drop, F: Fn(&str) -> Option<T>>(
        &self,
        alloc: Global,
        option: OptionName,
        name: F,
    ) -> ValueResult<NamedList<T>>
        requires { F.IsAlwaysCallable name }
        ensures named { (by : _) → ((word : _) (thing : _) → F.post name word thing → thing ≡ by word.now)
            → AnswersWith (option_and_then (all_named by) (all_of (row_of option).id self.now)) result }
        ensures each { IfOk result (All (λ thing. (word : _) × F.post name word (Some thing))) }
    {
        let Some(words) = self.words(option) else {
            return Err(ValueFault::Incomplete);
        };
        let mut named = Vec::new(alloc);
        for word in words {
            let Some(thing) = name(word) else {
                return Err(ValueFault::Incomplete);
            };
            named.push(thing)?;
        }
        Ok(NamedList { named })
    }

    // The first word that is given to an option.
    fn word(&self, option: OptionName) -> Option<&'a str>
        ensures { option_map (λ s. s.now) result ≡ first_of (row_of option).id self.now }
    {
        self.matches.get_str(option.row().id)
    }

    // All words that are given to an option.
    fn words(&self, option: OptionName) -> Option<&'m [&'a str]>
        ensures { option_map (λ s. map (λ v. v.now) s.now) result ≡ all_of (row_of option).id self.now }
    {
        self.matches.get_strs(option.row().id)
    }
}

/// The number, where it is one of read buffers: a power of two from 1 to `MAX_STRIPES`.
pub(crate) fn stripes_from(number: u64) -> Option<u8>
    ensures { result ≡ stripes_by number }
{
    if number.is_power_of_two() && number <= u64::from(MAX_STRIPES) {
        return Some(number as u8);
    }
    None
}

// The number, where it is in the range of the values.
fn in_range(value: ValueKind, number: u64) -> Option<u32>
    ensures value { result ≡ within value number }
    ensures range { IfSome result (IsIn value) }
{
    match value {
        ValueKind::Number(least, most) if u64::from(least) <= number && number <= u64::from(most) =>
            { Some(number as u32) }
        _ => None,
    }
}

// The capacity that a word names.
fn capacity_named(word: &str) -> Option<u32>
    ensures value { result ≡ value_by Capacities word.now }
    ensures range { IfSome result (λ n. is_from_one MAX_CAPACITY n ≡ true) }
{
    value_named(OptionName::Capacities, word)
}

/// The number that a word names as a value of an option.
pub(crate) fn value_named(option: OptionName, word: &str) -> Option<u32>
    ensures value { result ≡ value_by option word.now }
    ensures range { IfSome result (IsIn (row_of option).value) }
{
    in_range(option.row().value, number_named(word)?)
}

// The number that a word writes in decimal digits.
fn number_named(word: &str) -> Option<u64>
    ensures { result ≡ number_by word.now }
{
    word.parse::<u64>().ok()
}
