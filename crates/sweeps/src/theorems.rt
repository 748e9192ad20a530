//! Theorems on the rows of intervals. Each of these functions does nothing: its contract is the theorem.
ghost use Rattle.sweeps.specs.Theorems.{IntervalsAddUp};

use policies::theorems;

/// The rows of a policy over a trace sum up to its report.
pub fn intervals_add_up()
    ensures { IntervalsAddUp }
{
    theorems::any_covers_trace();
}
