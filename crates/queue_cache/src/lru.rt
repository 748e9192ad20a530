//! The policy that evicts the key whose last access is oldest.
ghost use Rattle.std.specs.Prelude.{◌≡◌, IfOk, Ok, []};
ghost use Rattle.engine_base.specs.Config.{config_fault};

use crate::design::QueueDesign;
use crate::queue_cache::QueueCache;
use engine_base::Config;
use std::alloc::{AllocError, Global};

/// A cache that holds the keys that were accessed last, as many distinct ones as its capacity. A miss in a full cache
/// evicts the key whose last access is oldest. It counts no keys.
pub type Lru = QueueCache<LruMark>;

/// Marks `Lru`.
#[derive(Drop)]
pub struct LruMark;

impl QueueCache<LruMark> {
    ghost use Rattle.queue_cache.specs.Lru.{lru};
    ghost use Rattle.queue_cache.specs.QueueCache.{StandsFor};

    /// An empty cache. It requires a configuration that `Config::check` accepts. The one error is that an allocation
    /// failed.
    pub fn open(alloc: Global, config: &Config) -> Result<Lru, AllocError>
        requires { config_fault config.now ≡ Ok tt }
        ensures stands { IfOk result (λ l. StandsFor record { design = lru; config = config.now } [] l) }
        ensures fresh { IfOk result (λ l. l.stats.accesses ≡ 0) }
    {
        QueueCache::with_design(alloc, QueueDesign::LRU, config)
    }
}
