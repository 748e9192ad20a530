//! What a policy made of a trace.
ghost use Rattle.std.specs.Prelude.{◌≡◌};
ghost use Rattle.policies.specs.Reports.{rate_of, report_of};

use step_record::{Job, Policy, Sizes, Stats};

/// What a policy of some capacity made of a trace: how many accesses there were, and how many of
/// each kind.
#[derive(Clone, Copy, Debug, PartialEq, Eq)]
pub struct Report {
    pub policy: Policy,
    /// The sizes that were given with the policy's word, which rows name.
    pub sizes: Sizes,
    pub capacity: u32,
    pub accesses: u64,
    pub hits: u64,
    pub misses: u64,
    pub evictions: u64,
    pub rejections: u64,
}

impl Report {
    /// The report of a job, from what was counted of its accesses.
    pub fn of(job: &Job, stats: Stats) -> Report
        ensures { result ≡ report_of job.now stats }
    {
        Report {
            policy: job.policy,
            sizes: job.sizes,
            capacity: job.config.capacity,
            accesses: stats.accesses,
            hits: stats.hits,
            misses: stats.misses,
            evictions: stats.evictions,
            rejections: stats.rejections,
        }
    }

    /// Hits per access in hundredths of a percent, rounded down; 0 where there was no access.
    pub fn rate(&self) -> u128
        ensures { result ≡ rate_of self.now }
    {
        if self.accesses == 0 {
            return 0;
        }
        u128::from(self.hits) * 10_000 / u128::from(self.accesses)
    }
}

/// What a policy made of the accesses from one of a trace up to another, which are counted from 1. The cache was open
/// through the accesses before them.
#[derive(Clone, Copy)]
pub struct Interval {
    pub first: u64,
    pub last: u64,
    /// How many accesses these are, and how many of each kind.
    pub report: Report,
}
