//! The configuration and the job of the tests.
use step_record::{Config, Job, Policy, Sizes, Spread, Tuning};

// A small cache with one read buffer.
pub(crate) const SMALL: Config = Config {
    capacity: 2,
    main_percent: 99,
    spread: Spread::Plain,
    stripes: 1,
    journal_limit: 1,
};

// Lru with room for two keys.
pub(crate) const LRU: Job = Job {
    policy: Policy::Lru,
    sizes: Sizes::NONE,
    config: SMALL,
    tuning: Tuning::PUBLISHED,
};
