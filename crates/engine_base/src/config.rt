//! What a cache is set up with.
ghost use Rattle.engine_base.specs.Config.{config_fault};
ghost use Rattle.std.specs.Prelude.{◌≡◌};

use super::{MAX_CAPACITY, MAX_JOURNAL_LIMIT, MAX_MAIN_PERCENT, MAX_STRIPES};
use thiserror::Error;

/// How keys are spread over the columns of a sketch and the bits of a doorkeeper.
#[derive(Clone, Copy, PartialEq, Eq)]
pub enum Spread {
    /// By a mixing function, for real traces.
    Mixed,
    /// By remainders, for examples that a reader can follow by hand.
    Plain,
}

/// The numbers that a cache and its journal are set up with. The ranges are defined by this
/// project; `check` says whether each number is in its range.
#[derive(Clone, Copy, PartialEq, Eq)]
pub struct Config {
    /// How many entries the cache holds: 1 to `MAX_CAPACITY`.
    pub capacity: u32,
    /// How much of the capacity is the main part, in percent: 0 to `MAX_MAIN_PERCENT`. The rest
    /// is the window.
    pub main_percent: u8,
    pub spread: Spread,
    /// How many read buffers a concurrent cache has: a power of two, up to `MAX_STRIPES`.
    pub stripes: u8,
    /// How many steps a journal keeps: 1 to `MAX_JOURNAL_LIMIT`.
    pub journal_limit: u32,
}

/// The first number of a configuration that is out of its range, in the order of the fields.
#[derive(Clone, Copy, Debug, PartialEq, Eq, Error)]
pub enum ConfigFault {
    #[error("Capacity")]
    Capacity,
    #[error("MainPercent")]
    MainPercent,
    #[error("Stripes")]
    Stripes,
    #[error("JournalLimit")]
    JournalLimit,
}

impl Config {
    /// Whether each number is in its range; if not, the first that is out of its range, in the
    /// order of the fields.
    pub fn check(&self) -> Result<(), ConfigFault>
        ensures { result ≡ config_fault self.now }
    {
        if self.capacity < 1 || self.capacity > MAX_CAPACITY {
            return Err(ConfigFault::Capacity);
        }
        if self.main_percent > MAX_MAIN_PERCENT {
            return Err(ConfigFault::MainPercent);
        }
        if !self.stripes.is_power_of_two() || self.stripes > MAX_STRIPES {
            return Err(ConfigFault::Stripes);
        }
        if self.journal_limit < 1 || self.journal_limit > MAX_JOURNAL_LIMIT {
            return Err(ConfigFault::JournalLimit);
        }
        Ok(())
    }
}
