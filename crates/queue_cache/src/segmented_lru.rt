//! Segmented Lru: a key has to be hit once to be protected.
ghost use Rattle.std.specs.Prelude.{◌≡◌, IfOk, Ok, []};
ghost use Rattle.engine_base.specs.Config.{config_fault};

use crate::design::QueueDesign;
use crate::queue_cache::QueueCache;
use engine_base::Config;
use std::alloc::{AllocError, Global};

/// A cache of two queues. A new key joins probation, and goes to protected when it is hit; where protected is over four
/// fifths of the capacity, its oldest key goes back to probation's recent end. A miss in a full cache evicts
/// probation's oldest key. It counts no keys.
pub type SegmentedLru = QueueCache<SegmentedLruMark>;

/// Marks `SegmentedLru`.
#[derive(Drop)]
pub struct SegmentedLruMark;

impl QueueCache<SegmentedLruMark> {
    ghost use Rattle.queue_cache.specs.SegmentedLru.{segmented_lru};
    ghost use Rattle.queue_cache.specs.QueueCache.{StandsFor};

    /// An empty cache. It requires a configuration that `Config::check` accepts. The one error is that an allocation
    /// failed.
    pub fn open(alloc: Global, config: &Config) -> Result<SegmentedLru, AllocError>
        requires { config_fault config.now ≡ Ok tt }
        ensures stands { IfOk result (λ l. StandsFor record { design = segmented_lru; config = config.now } [] l) }
        ensures fresh { IfOk result (λ l. l.stats.accesses ≡ 0) }
    {
        QueueCache::with_design(alloc, QueueDesign::SEGMENTED_LRU, config)
    }
}
