//! What `==` and `clone` mean for counts and reports. The laws of `PartialEq` and `Clone` alone would let any
//! equivalence and any other value pass, and no test that compares reports would notice.
ghost use Rattle.std.specs.Prelude.{◌≡◌, ◌↔◌, IsTrue, Ok};

use super::Report;
use std::alloc::AllocError;
use step_record::Stats;

/// Whether both are the same statistics: `==` compares each count.
pub fn is_same_stats(a: &Stats, b: &Stats) -> bool
    ensures { IsTrue result ↔ a.now ≡ b.now }
{
    a == b
}

/// Whether both are the same report: `==` compares the policy, its sizes, the capacity and each count.
pub fn is_same_report(a: &Report, b: &Report) -> bool
    ensures { IsTrue result ↔ a.now ≡ b.now }
{
    a == b
}

/// A clone of statistics, which is the same statistics and never fails.
pub fn clone_of_stats(stats: &Stats) -> Result<Stats, AllocError>
    ensures { result ≡ Ok stats.now }
{
    stats.clone()
}

/// A clone of a report, which is the same report and never fails.
pub fn clone_of_report(report: &Report) -> Result<Report, AllocError>
    ensures { result ≡ Ok report.now }
{
    report.clone()
}
