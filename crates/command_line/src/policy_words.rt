//! The words that name policies, with sizes of their own or none: `lru`, `2q:in=50:out=100`.
ghost use Rattle.std.specs.Prelude.{◌≡◌, ◌==◌, ◌<◌, [], ◌∷◌, length, IfSome};
ghost use Rattle.std.specs.List.{after_first, before_first};
ghost use Rattle.std.specs.Option.{option_map_or};
ghost use Rattle.command_line.specs.Accepted.{IsAcceptedJob, IsConfig, IsTuning};
ghost use Rattle.command_line.specs.Options.{row_of};
ghost use Rattle.command_line.specs.PolicyWords.{AreInRange, all_sized, job_named as job_by, part_list, size_list};
ghost use Rattle.command_line.specs.PolicyWords.{sized as sized_by, size_named as size_by, with_size as with_size_by};
ghost use Rattle.command_line.specs.Values.{IsIn};

use crate::choices::policy_named;
use crate::options::OptionName;
use crate::values::value_named;
use step_record::{Config, Job, Policy, Sizes, Tuning};

/// The job that a word asks for, on this configuration and with this tuning where the word has no size of its own.
pub(crate) fn job_named(word: &str, config: &Config, tuning: &Tuning) -> Option<Job>
    ensures value { result ≡ job_by config.now tuning.now word.now }
    ensures accepted { IsConfig config.now → IsTuning tuning.now → IfSome result IsAcceptedJob }
{
    let (word, sizes) = first_part(word);
    let policy = policy_named(word)?;
    let sizes = match sizes {
        Some(sizes) => all_sized(policy, sizes, Sizes::NONE)?,
        None => Sizes::NONE,
    };
    Some(Job::with_sizes(policy, sizes, config, tuning))
}

// The sizes, with those that the text names, one behind another.
fn all_sized(policy: Policy, text: &str, sizes: Sizes) -> Option<Sizes>
    requires { AreInRange sizes }
    ensures value { result ≡ all_sized policy (part_list text.now) sizes }
    ensures range { IfSome result AreInRange }
{
    let (size, more) = first_part(text);
    let sizes = sized(policy, size, sizes)?;
    match more {
        Some(more) => all_sized(policy, more, sizes),
        None => Some(sizes),
    }
}

// The sizes with one more, as `in=50`, where the policy has it and it was not given before.
#[tactic(auto, unfolding(crate::specs::PolicyWords::sized))]
fn sized(policy: Policy, text: &str, sizes: Sizes) -> Option<Sizes>
    requires { AreInRange sizes }
    ensures value { result ≡ sized_by policy text.now sizes }
    ensures range { IfSome result AreInRange }
{
    let (name, number) = name_and_number(text);
    let size = size_named(sizes_of(policy), name)?;
    let number = value_named(size, number)?;
    with_size(size, number, sizes)
}

// The sizes that a policy has, each by the option whose value it is otherwise.
fn sizes_of(policy: Policy) -> &'static [OptionName]
    ensures { result.now ≡ size_list policy }
{
    match policy {
        Policy::WindowTinyLfu => &[OptionName::Main],
        Policy::Caffeine => &[OptionName::Main, OptionName::Period],
        Policy::TwoQ => &[OptionName::In, OptionName::Out],
        Policy::S3Fifo => &[OptionName::Small],
        _ => &[],
    }
}

// The first of these sizes that the word names.
fn size_named(sizes: &[OptionName], word: &str) -> Option<OptionName>
    ensures { result ≡ size_by sizes.now word.now }
{
    let (first, rest) = sizes.split_first()?;
    if first.row().id == word {
        return Some(*first);
    }
    size_named(rest, word)
}

// The sizes with this one, if it was not given before.
fn with_size(size: OptionName, number: u32, sizes: Sizes) -> Option<Sizes>
    requires number { IsIn (row_of size).value number }
    requires sizes { AreInRange sizes }
    ensures value { result ≡ with_size_by size number sizes }
    ensures range { IfSome result AreInRange }
{
    match size {
        OptionName::Main if sizes.main.is_none() => Some(Sizes {
            main: Some(number as u8),
            ..sizes
        }),
        OptionName::Period if sizes.period.is_none() => Some(Sizes {
            period: Some(number),
            ..sizes
        }),
        OptionName::In if sizes.kin.is_none() => Some(Sizes {
            kin: Some(number as u8),
            ..sizes
        }),
        OptionName::Out if sizes.kout.is_none() => Some(Sizes {
            kout: Some(number as u8),
            ..sizes
        }),
        OptionName::Small if sizes.small.is_none() => Some(Sizes {
            small: Some(number as u8),
            ..sizes
        }),
        _ => None,
    }
}

// What stands before the first `=`, and what stands behind it: nothing where there is none.
fn name_and_number(text: &str) -> (&str, &str)
    ensures name { result.0.now ≡ before_first (λ b. b == 61) text.now }
    ensures number { result.1.now ≡ after_first (λ b. b == 61) text.now }
{
    match text.split_once('=') {
        Some((name, number)) => (name, number),
        None => (text, ""),
    }
}

// What stands before the first colon, and what stands behind it if there is one.
fn first_part(text: &str) -> (&str, Option<&str>)
    ensures parts { part_list text.now ≡ result.0.now ∷ option_map_or (λ rest. part_list rest.now) result.1 [] }
    ensures shorter { IfSome result.1 (λ rest. length rest.now < length text.now) }
{
    match text.split_once(':') {
        Some((first, rest)) => (first, Some(rest)),
        None => (text, None),
    }
}
