//! The words by which policies, formats, spreads and rates are named.
ghost use Rattle.std.specs.Prelude.{◌≡◌, ◌≤◌, ℕ, IfSome, find, map, option_map};
ghost use Rattle.std.specs.Str.{bytes_eq};
ghost use Rattle.clap.specs.Words.{Text};
ghost use Rattle.step_record.specs.Job.{word_of};
ghost use Rattle.command_line.specs.Choices.{AreWords, format_named as format_by, format_words};
ghost use Rattle.command_line.specs.Choices.{is_given as is_given_by, limits_named as limits_by};
ghost use Rattle.command_line.specs.Choices.{policy_named as policy_by, spread_named as spread_by};
ghost use Rattle.command_line.specs.Choices.{rate_named as rate_by, rate_words, rates};
ghost use Rattle.command_line.specs.Choices.{spread_words};
ghost use Rattle.trace_read.specs.declared.limits.TheConstants.{MAX_LONG_ACCESSES, MAX_LONG_TRACE_BYTES};

use step_record::{POLICIES, Policy, Spread};
use trace_read::{Format, Limits};

// The word of `Spread::Mixed`.
const MIXED: &str = "mixed";

// The word of `Spread::Plain`.
const PLAIN: &str = "plain";

// What `clap` has as the value of an option that has none, where it is given.
const GIVEN: &str = "true";

// The rates of a sample: the word of each, and the number of blocks of which the sample has one.
static RATES: [(&str, u32); 20] = [
    ("1/2", 2),
    ("1/4", 4),
    ("1/8", 8),
    ("1/16", 16),
    ("1/32", 32),
    ("1/64", 64),
    ("1/128", 128),
    ("1/256", 256),
    ("1/512", 512),
    ("1/1024", 1024),
    ("1/2048", 2048),
    ("1/4096", 4096),
    ("1/8192", 8192),
    ("1/16384", 16384),
    ("1/32768", 32768),
    ("1/65536", 65536),
    ("1/131072", 131072),
    ("1/262144", 262144),
    ("1/524288", 524288),
    ("1/1048576", 1048576),
];

/// The words that values are chosen from.
#[derive(Clone, Copy)]
pub struct WordLists<'a> {
    pub formats: &'a [&'a str],
    pub spreads: &'a [&'a str],
    pub rates: &'a [&'a str],
}

/// The words that name the formats.
pub(crate) fn format_words() -> [&'static str; 2]
    ensures { AreWords format_words result }
{
    [Format::Lirs.word(), Format::Arc.word()]
}

/// The words that name the spreads of keys.
pub(crate) fn spread_words() -> [&'static str; 2]
    ensures { AreWords spread_words result }
{
    [MIXED, PLAIN]
}

/// The words that name the rates of a sample.
pub(crate) fn rate_words() -> [&'static str; 20]
    ensures { AreWords rate_words result }
{
    [
        "1/2",
        "1/4",
        "1/8",
        "1/16",
        "1/32",
        "1/64",
        "1/128",
        "1/256",
        "1/512",
        "1/1024",
        "1/2048",
        "1/4096",
        "1/8192",
        "1/16384",
        "1/32768",
        "1/65536",
        "1/131072",
        "1/262144",
        "1/524288",
        "1/1048576",
    ]
}

// The first of the policies that the word names.
fn first_named(policies: &[Policy], word: &str) -> Option<Policy>
    ensures { result ≡ find (λ policy. bytes_eq (word_of policy) word.now) policies.now }
{
    let (first, rest) = policies.split_first()?;
    if first.word() == word {
        return Some(*first);
    }
    first_named(rest, word)
}

/// The policy that the word names, if it names one.
#[tactic(auto, unfolding(crate::specs::Choices::policy_named))]
pub(crate) fn policy_named(word: &str) -> Option<Policy>
    ensures { result ≡ policy_by word.now }
{
    first_named(POLICIES.as_slice(), word)
}

/// The format that the word names; `lirs` where there is none.
pub(crate) fn format_named(word: Option<&str>) -> Format
    ensures { result ≡ format_by (option_map (λ s. s.now) word.entry) }
{
    match word {
        Some(word) if word == Format::Arc.word() => Format::Arc,
        _ => Format::Lirs,
    }
}

/// The spread that the word names; `mixed` where there is none.
pub(crate) fn spread_named(word: Option<&str>) -> Spread
    ensures { result ≡ spread_by (option_map (λ s. s.now) word.entry) }
{
    match word {
        Some(word) if word == PLAIN => Spread::Plain,
        _ => Spread::Mixed,
    }
}

/// The number of blocks of which a sample has one, at the rate that the word names.
pub(crate) fn rate_named(word: &str) -> Option<u32>
    ensures value { result ≡ rate_by word.now }
    ensures some { IfSome result (λ inverse. 2 ≤ inverse) }
{
    first_rate(rates(), word)
}

// The rates.
fn rates() -> &'static [(&'static str, u32)]
    ensures { map (λ rate. (rate.0.now, rate.1)) result.now ≡ rates }
{
    &RATES
}

// The number of the first of the rates that has this word.
fn first_rate(rates: &[(&str, u32)], word: &str) -> Option<u32>
    ensures { result ≡ option_map (λ (rate : Text × ℕ). rate.1)
        (find (λ rate. bytes_eq word.now rate.0) (map (λ rate. (rate.0.now, rate.1)) rates.now)) }
{
    let (first, rest) = rates.split_first()?;
    if word == first.0 {
        return Some(first.1);
    }
    first_rate(rest, word)
}

/// Whether an option that has no value is given, by what `clap` has as its value: `true` where it is.
pub(crate) fn is_given(word: Option<&str>) -> bool
    ensures { result ≡ is_given_by (option_map (λ s. s.now) word.entry) }
{
    match word {
        Some(word) => word == GIVEN,
        None => false,
    }
}

/// The limits of a trace, by whether they are to be those of a long one.
pub(crate) fn limits_named(word: Option<&str>) -> Limits
    ensures value { result ≡ limits_by (option_map (λ s. s.now) word.entry) }
    ensures accesses { result.accesses ≤ MAX_LONG_ACCESSES }
    ensures bytes { result.bytes ≤ MAX_LONG_TRACE_BYTES }
{
    if is_given(word) {
        Limits::LONG
    } else {
        Limits::DEFAULT
    }
}
