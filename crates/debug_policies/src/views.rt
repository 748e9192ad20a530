//! What the commands of the views print of two policies. The one error of each is that an allocation failed.
ghost use Rattle.std.specs.Prelude.{◌≡◌, ◌≤◌, ◌++◌, OnOk};
ghost use Rattle.debug_policies.specs.TwoPolicies.{access_line, outcome_lines, viewed_at, IsPartWalk};
ghost use Rattle.debug_commands.specs.declared.command.View.TheVariants as view;

use crate::one_policy::OnePolicy;
use std::alloc::{AllocError, Global};
use step_record::Key;
use streams::push_counts_line;

/// Adds the windows.
pub(crate) fn push_windows(
    text: &mut Vec<u8>,
    first: &OnePolicy,
    second: &OnePolicy,
) -> Result<(), AllocError>
    requires { IsPartWalk first.now second.now }
    ensures { OnOk result (text.new.items
        ≡ text.old.items ++ viewed_at first.now.trace first.now.job second.now.job view.Window first.now.at) }
{
    first.show_window("a", text)?;
    second.show_window("b", text)
}

/// Adds the queues.
pub(crate) fn push_queues(
    alloc: Global,
    text: &mut Vec<u8>,
    first: &OnePolicy,
    second: &OnePolicy,
) -> Result<(), AllocError>
    requires { IsPartWalk first.now second.now }
    ensures { OnOk result (text.new.items
        ≡ text.old.items ++ viewed_at first.now.trace first.now.job second.now.job view.Queues first.now.at) }
{
    first.show_queues(alloc, "a", text)?;
    second.show_queues(alloc, "b", text)
}

/// Adds the access that led to the position, and its outcomes.
pub(crate) fn push_last(
    text: &mut Vec<u8>,
    first: &OnePolicy,
    second: &OnePolicy,
) -> Result<(), AllocError>
    requires { IsPartWalk first.now second.now }
    ensures { OnOk result (text.new.items
        ≡ text.old.items ++ viewed_at first.now.trace first.now.job second.now.job view.Last first.now.at) }
{
    if first.position() == 0 {
        return text.extend_from_slice(b"access none\n");
    }
    push_access(text, first)?;
    push_outcomes(text, first, second)
}

// Adds that access.
fn push_access(text: &mut Vec<u8>, first: &OnePolicy) -> Result<(), AllocError>
    requires { 1 ≤ first.now.at }
    ensures { OnOk result (text.new.items ≡ text.old.items ++ access_line first.now.trace first.now.at) }
{
    let made = first.position();
    let block = first.trace().keys()[made - 1];
    push_counts_line(text, &[(b"access ", made as u64), (b" block ", block)])
}

// Adds the outcomes of that access.
fn push_outcomes(
    text: &mut Vec<u8>,
    first: &OnePolicy,
    second: &OnePolicy,
) -> Result<(), AllocError>
    requires walk { IsPartWalk first.now second.now }
    requires made { 1 ≤ first.now.at }
    ensures { OnOk result (text.new.items
        ≡ text.old.items ++ outcome_lines first.now.trace first.now.job second.now.job first.now.at) }
{
    first.show_outcome("a", text)?;
    second.show_outcome("b", text)
}

/// Adds the estimates of a key.
pub(crate) fn push_estimates(
    text: &mut Vec<u8>,
    first: &OnePolicy,
    second: &OnePolicy,
    key: Key,
) -> Result<(), AllocError>
    requires { IsPartWalk first.now second.now }
    ensures { OnOk result (text.new.items
        ≡ text.old.items ++ viewed_at first.now.trace first.now.job second.now.job (view.Estimate key) first.now.at) }
{
    first.show_estimate("a", key, text)?;
    second.show_estimate("b", key, text)
}
