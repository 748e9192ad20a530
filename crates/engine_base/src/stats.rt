//! What is counted of the accesses.
ghost use Rattle.std.specs.Prelude.{◌≡◌};
ghost use Rattle.engine_base.specs.Stats.{stats_with, stats_without, IsCounted, IsSmall};

use super::Outcome;

/// How many accesses there were, and how many of each kind. Each miss that is not an eviction
/// added a key to the cache, so misses minus evictions is the number of residents.
#[derive(Clone, Copy, PartialEq, Eq)]
pub struct Stats {
    pub accesses: u64,
    pub hits: u64,
    pub misses: u64,
    /// The misses after which a key left, the rejections among them.
    pub evictions: u64,
    /// The misses after which the new key or the candidate left.
    pub rejections: u64,
}

impl Stats {
    /// Before any access.
    pub const NONE: Stats = Stats {
        accesses: 0,
        hits: 0,
        misses: 0,
        evictions: 0,
        rejections: 0,
    };

    /// Counts one access more.
    pub fn count(&mut self, outcome: Outcome)
        requires { IsSmall self.old }
        ensures { self.new ≡ stats_with outcome self.old }
    {
        self.accesses += 1;
        match outcome {
            Outcome::Hit => self.hits += 1,
            Outcome::Kept => self.misses += 1,
            Outcome::Evicted(_) => {
                self.misses += 1;
                self.evictions += 1;
            }
            Outcome::Rejected(_) => {
                self.misses += 1;
                self.evictions += 1;
                self.rejections += 1;
            }
        }
    }

    /// Takes the last access back, whose outcome was counted.
    pub fn uncount(&mut self, outcome: Outcome)
        requires { IsCounted outcome self.old }
        ensures { self.new ≡ stats_without outcome self.old }
    {
        self.accesses -= 1;
        match outcome {
            Outcome::Hit => self.hits -= 1,
            Outcome::Kept => self.misses -= 1,
            Outcome::Evicted(_) => {
                self.misses -= 1;
                self.evictions -= 1;
            }
            Outcome::Rejected(_) => {
                self.misses -= 1;
                self.evictions -= 1;
                self.rejections -= 1;
            }
        }
    }
}
