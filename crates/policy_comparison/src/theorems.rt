//! Theorems on what is counted of two policies. Each of these functions does nothing: its contract is the theorem.
ghost use Rattle.policy_comparison.specs.ComparedIntervals.{ComparedIntervalsAddUp};

/// The rows of the intervals of two policies sum up to what is counted of them over the whole trace.
pub fn compared_intervals_add_up()
    ensures { ComparedIntervalsAddUp }
{}
