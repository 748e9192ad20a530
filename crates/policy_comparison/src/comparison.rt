//! How often two policies hit at the same accesses.
ghost use Rattle.std.specs.Prelude.{◌≡◌, ◌++◌, OnOk};
ghost use Rattle.engine_base.specs.declared.limits.TheConstants.{MAX_STEPS};
ghost use Rattle.policy_comparison.specs.Comparison.{comparison_text, counts_with, IsUpTo, no_counts, pair_row};

use std::alloc::AllocError;
use step_record::{Job, push_name};
use streams::{push_count, push_numbers_line};

/// At how many accesses of a trace both of two policies hit, only the first, only the second, and neither.
#[derive(Clone, Copy)]
pub struct Comparison {
    pub accesses: u64,
    pub both: u64,
    pub first_only: u64,
    pub second_only: u64,
    pub neither: u64,
}

impl Comparison {
    /// Before any access.
    pub fn none() -> Comparison
        ensures { result ≡ no_counts }
    {
        Comparison {
            accesses: 0,
            both: 0,
            first_only: 0,
            second_only: 0,
            neither: 0,
        }
    }

    /// Counts one access more, at which the policies hit or not.
    #[inline(always)]
    pub fn count(&mut self, first: bool, second: bool)
        requires { IsUpTo MAX_STEPS self.old }
        ensures { self.new ≡ counts_with (first, second) self.old }
    {
        self.accesses += 1;
        match (first, second) {
            (true, true) => self.both += 1,
            (true, false) => self.first_only += 1,
            (false, true) => self.second_only += 1,
            (false, false) => self.neither += 1,
        }
    }
}

/// Adds the header and the row of a comparison of two jobs, whose capacity is that of the first. The one error is
/// that an allocation failed.
pub fn push_comparison(
    text: &mut Vec<u8>,
    first: &Job,
    second: &Job,
    counts: &Comparison,
) -> Result<(), AllocError>
    ensures { OnOk result (text.new.items ≡ text.old.items ++ comparison_text first.now second.now counts.now) }
{
    text.extend_from_slice(
        b"first,second,capacity,accesses,both,first_only,second_only,neither\n",
    )?;
    push_row(
        text,
        first,
        second,
        &[
            counts.accesses,
            counts.both,
            counts.first_only,
            counts.second_only,
            counts.neither,
        ],
    )
}

/// Adds a row of two jobs: what their policies are called, the capacity of the first, and numbers. The one error is that
/// an allocation failed.
pub(crate) fn push_row(
    text: &mut Vec<u8>,
    first: &Job,
    second: &Job,
    numbers: &[u64],
) -> Result<(), AllocError>
    ensures { OnOk result (text.new.items ≡ text.old.items ++ pair_row first.now second.now numbers.now) }
{
    push_name(text, first.policy, &first.sizes)?;
    text.extend_from_slice(b",")?;
    push_name(text, second.policy, &second.sizes)?;
    push_count(text, b",", u64::from(first.config.capacity))?;
    push_numbers_line(text, b",", numbers)
}
