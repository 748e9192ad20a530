//! The intervals into which the accesses of a trace are cut.
ghost use Rattle.std.specs.Option.{option_to_list};
ghost use Rattle.std.specs.Prelude.{◌≡◌, ◌≤◌, ◌<◌, ◌+◌, ◌-◌, ◌++◌, [], ℕ, List, IfSome, length};
ghost use Rattle.policies.specs.AnyPolicy.{Job as JobOf, HasAccessed, outcomes_on};
ghost use Rattle.sweeps.specs.CurrentInterval.{AnyPolicy as AnyPolicyOf, AreMade, IsAdvanced, IsCurrent, IsIntervalTo};
ghost use Rattle.sweeps.specs.Intervals.{between, first_intervals, intervals_on, IsLater};

use policies::{AnyPolicy, Interval, Report};
use step_record::{Job, Stats};

/// The interval that is not over, of a trace whose first accesses were made.
#[derive(Clone, Copy)]
pub struct CurrentInterval {
    // How many accesses an interval has, and how many were made of this one.
    every: usize,
    used: usize,
    // What was counted before it.
    before: Stats,
}

impl CurrentInterval {
    /// The first one, before any access, where intervals have `every` accesses.
    pub fn first(every: usize) -> CurrentInterval
        requires { 1 ≤ every }
        ensures { (job : JobOf) (trace : List ℕ) (cache : AnyPolicyOf) → HasAccessed job trace [] cache
            → IsCurrent job every trace 0 0 cache result }
    {
        CurrentInterval {
            every,
            used: 0,
            before: Stats::NONE,
        }
    }

    /// How many accesses more end it.
    pub(crate) fn room(&self) -> usize
        requires { self.now.used ≤ self.now.every }
        ensures { result ≡ self.now.every - self.now.used }
    {
        self.every - self.used
    }

    /// The cache of the job made so many accesses more, all of them of this interval. If it is over by them, it is
    /// returned, and this is the next one.
    #[inline(always)]
    pub fn advance(&mut self, job: &Job, accesses: usize, cache: &AnyPolicy) -> Option<Interval>
        requires { (every : ℕ) × (trace : List ℕ) × (done n : ℕ)
            × AreMade job.now every trace done n (n + accesses) cache.now self.old }
        ensures { (every : ℕ) (trace : List ℕ) (done n : ℕ)
            → AreMade job.now every trace done n (n + accesses) cache.now self.old
            → IsAdvanced job.now every trace done (n + accesses) cache.now result self.new }
    {
        self.used += accesses;
        if self.used < self.every {
            return None;
        }
        let after = cache.stats();
        let over = between(job, &self.before, &after);
        self.before = after;
        self.used = 0;
        Some(over)
    }

    /// The last interval, once the cache of the job made all accesses, if it is shorter than the others.
    pub fn last(&self, job: &Job, cache: &AnyPolicy) -> Option<Interval>
        requires { (every : ℕ) × (trace : List ℕ) × (done : ℕ)
            × IsCurrent job.now every trace done (length trace) cache.now self.now }
        ensures { (every : ℕ) (trace : List ℕ) (done : ℕ)
            → IsCurrent job.now every trace done (length trace) cache.now self.now
            → IfSome result (IsIntervalTo job.now every trace done (length trace))
            × (intervals_on job.now every trace
            ≡ first_intervals job.now every (outcomes_on job.now trace) done ++ option_to_list result) }
    {
        if self.used == 0 {
            return None;
        }
        Some(between(job, &self.before, &cache.stats()))
    }
}

// The interval of the accesses, at least one, that a job made between two counts of all its accesses.
fn between(job: &Job, before: &Stats, after: &Stats) -> Interval
    requires { IsLater before.now after.now }
    ensures { result ≡ between job.now before.now after.now }
{
    let stats = Stats {
        accesses: after.accesses - before.accesses,
        hits: after.hits - before.hits,
        misses: after.misses - before.misses,
        evictions: after.evictions - before.evictions,
        rejections: after.rejections - before.rejections,
    };
    Interval {
        first: before.accesses + 1,
        last: after.accesses,
        report: Report::of(job, stats),
    }
}
