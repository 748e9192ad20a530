//! Lru or segmented Lru behind an admission filter (TinyLFU, 2017).
ghost use Rattle.std.specs.Prelude.{◌≡◌, IfOk, Ok, [], cond};
ghost use Rattle.engine_base.specs.Config.{config_fault};

use crate::design::QueueDesign;
use crate::queue_cache::QueueCache;
use engine_base::Config;
use std::alloc::{AllocError, Global};

/// A cache of Lru or segmented Lru with an admission filter: in a full cache a new key takes the victim's place only
/// where its approximate access frequency is higher.
pub type TinyLfu = QueueCache<TinyLfuMark>;

/// Marks `TinyLfu`.
#[derive(Drop)]
pub struct TinyLfuMark;

impl QueueCache<TinyLfuMark> {
    ghost use Rattle.queue_cache.specs.Lru.{lru};
    ghost use Rattle.queue_cache.specs.SegmentedLru.{segmented_lru};
    ghost use Rattle.queue_cache.specs.TinyLfu.{tiny_lfu};
    ghost use Rattle.queue_cache.specs.QueueCache.{StandsFor};

    /// An empty cache, of segmented Lru or of Lru behind the filter. It requires a configuration that `Config::check`
    /// accepts. The one error is that an allocation failed.
    pub fn open(alloc: Global, config: &Config, segmented: bool) -> Result<TinyLfu, AllocError>
        requires { config_fault config.now ≡ Ok tt }
        ensures stands { IfOk result (λ l. StandsFor
            record { design = tiny_lfu (cond segmented segmented_lru lru); config = config.now } [] l) }
        ensures fresh { IfOk result (λ l. l.stats.accesses ≡ 0) }
    {
        let design = if segmented {
            QueueDesign::TINY_LFU_SEGMENTED
        } else {
            QueueDesign::TINY_LFU_LRU
        };
        QueueCache::with_design(alloc, design, config)
    }
}
