//! How large the window is to be, found by trying.
ghost use Rattle.std.specs.Prelude.{◌≡◌, ◌≤◌, Ok};
ghost use Rattle.engine_base.specs.Config.{config_fault};
ghost use Rattle.replacement.specs.Rules.{main_size};
ghost use Rattle.queue_cache.specs.Climber.{AreClimbRules, AreSmallRules, caffeine_rules, first_window, period_of};
ghost use Rattle.queue_cache.specs.Climber.{distance as distance_of, moved_target as target_of, after_period, with_access};
ghost use Rattle.queue_cache.specs.Climber.{climber_after, first_climber, period_record, climber_before, FitsClimber};
ghost use Rattle.queue_cache.specs.Climber.{IsClimber};
ghost use Rattle.queue_cache.specs.AdaptiveWindow.{rules_at};

use engine_base::Config;
use replacement::{Placement, Rules};

// An item, as a step counts it.
const ITEM: u64 = 65_536;

/// What a climber goes by.
#[derive(Clone, Copy)]
pub struct ClimbRules {
    /// How many items the cache holds.
    pub capacity: u32,
    /// The largest window: that of the start and the protected of the start together.
    pub largest: u32,
    /// How many accesses a period has.
    pub sample: u64,
    /// By how much the target moves at first, in 65,536ths of an item.
    pub step: u64,
}

/// A climber: which size the window is to have, and what was counted in this period.
#[derive(Clone, Copy)]
pub struct Climber {
    /// The size that the window is to have.
    pub target: u32,
    /// Whether it was raised last.
    pub grows: bool,
    /// By how much it moves, in 65,536ths of an item.
    pub step: u64,
    /// The accesses of this period.
    pub accesses: u64,
    /// Its hits.
    pub hits: u64,
    /// The hits of the period before.
    pub last_hits: u64,
}

impl ClimbRules {
    /// Caffeine's rules for a configuration. A period has as many accesses as are chosen, one for each item at least, and
    /// where none are chosen ten for each item. It requires a configuration that `Config::check` accepts.
    pub fn caffeine(config: &Config, period: Option<u32>) -> ClimbRules
        requires { config_fault config.now ≡ Ok tt }
        ensures rules { result ≡ caffeine_rules config.now.capacity config.now.main_percent period }
        ensures are { AreClimbRules result }
        ensures small { AreSmallRules result }
    {
        let capacity = config.capacity;
        let window = first_window_of(config);
        ClimbRules {
            capacity,
            largest: window + (capacity - window) * 80 / 100,
            sample: period_for(capacity, period),
            step: capacity as u64 * 4096,
        }
    }

    /// The rules of a window of a size: what it has more, protected has less.
    #[inline(always)]
    pub fn at(&self, size: u32) -> Rules
        requires { size ≤ self.now.largest }
        ensures { result ≡ rules_at self.now size }
    {
        Rules {
            capacity: self.capacity as usize,
            window: size as usize,
            protected: (self.largest - size) as usize,
            placement: Placement::Windowed,
        }
    }
}

/// The size of the window at first: what the main part leaves.
pub(crate) fn first_window_of(config: &Config) -> u32
    requires { config_fault config.now ≡ Ok tt }
    ensures value { result ≡ first_window config.now.capacity config.now.main_percent }
    ensures least { 1 ≤ result }
    ensures most { result ≤ config.now.capacity }
{
    let capacity = config.capacity;
    capacity - capacity * config.main_percent as u32 / 100
}

// How many accesses a period has.
fn period_for(capacity: u32, period: Option<u32>) -> u64
    ensures { result ≡ period_of capacity period }
{
    match period {
        None => 10 * capacity as u64,
        Some(chosen) => chosen.max(capacity) as u64,
    }
}

impl Climber {
    /// The climber before the first access, where the window has a size.
    pub(crate) fn first(rules: &ClimbRules, size: u32) -> Climber
        ensures { result ≡ first_climber rules.now size }
    {
        Climber {
            target: size,
            grows: false,
            step: rules.step,
            accesses: 0,
            hits: 0,
            last_hits: 0,
        }
    }

    /// Counts an access, which was a hit or not, and climbs where it ends the period. The climber before it, where it
    /// did.
    #[inline(always)]
    pub(crate) fn count(&mut self, rules: &ClimbRules, hit: bool) -> Option<Climber>
        requires are { AreClimbRules rules.now }
        requires small { AreSmallRules rules.now }
        requires is { IsClimber rules.now self.old }
        ensures after { self.new ≡ climber_after rules.now hit self.old }
        ensures record { result ≡ period_record rules.now self.old }
    {
        if self.accesses + 1 == rules.sample {
            let before = *self;
            self.climb(rules, hit);
            return Some(before);
        }
        self.accesses += 1;
        self.hits += hit as u64;
        None
    }

    // Counts the access that ends the period, and climbs.
    #[cold]
    #[inline(never)]
    fn climb(&mut self, rules: &ClimbRules, hit: bool)
        requires are { AreClimbRules rules.now }
        requires small { AreSmallRules rules.now }
        requires is { IsClimber rules.now self.old }
        ensures { self.new ≡ after_period rules.now (with_access hit self.old) }
    {
        let hits = self.hits + hit as u64;
        let grows = if hits < self.last_hits {
            !self.grows
        } else {
            self.grows
        };
        let step = if 20 * distance(hits, self.last_hits) >= rules.sample {
            rules.step
        } else {
            self.step * 98 / 100
        };
        *self = Climber {
            target: moved_target(rules.largest, grows, (self.step / ITEM) as u32, self.target),
            grows,
            step,
            accesses: 0,
            hits: 0,
            last_hits: hits,
        };
    }

    /// Takes an access back, which was a hit or not, and where it ended a period left the climber before it.
    pub(crate) fn uncount(&mut self, before: Option<Climber>, hit: bool)
        requires { FitsClimber before hit self.old }
        ensures { self.new ≡ climber_before before hit self.old }
    {
        match before {
            Some(before) => *self = before,
            None => {
                self.accesses -= 1;
                self.hits -= hit as u64;
            }
        }
    }
}

// By how much two counts differ.
fn distance(a: u64, b: u64) -> u64
    ensures { result ≡ distance_of a b }
{
    if a < b { b - a } else { a - b }
}

// The target, moved by some items, from 1 to the largest window.
fn moved_target(largest: u32, grows: bool, items: u32, target: u32) -> u32
    requires items { items ≤ 65536 }
    requires target { target ≤ largest }
    requires largest { largest ≤ 1048576 }
    ensures { result ≡ target_of largest grows items target }
{
    if grows {
        largest.min(target + items)
    } else {
        target.saturating_sub(items).max(1)
    }
}
