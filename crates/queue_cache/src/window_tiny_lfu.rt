//! W-TinyLFU: a window before a filtered segmented Lru (TinyLFU, 2017; Caffeine's Design page).
ghost use Rattle.std.specs.Prelude.{◌≡◌, IfOk, Ok, []};
ghost use Rattle.engine_base.specs.Config.{config_fault};

use crate::design::QueueDesign;
use crate::queue_cache::QueueCache;
use engine_base::Config;
use std::alloc::{AllocError, Global};

/// A cache of three queues. A new key joins a window; where that is over its size, its oldest key seeks a place in the
/// main part, a segmented Lru, and in a full cache the one of it and probation's oldest key whose approximate access
/// frequency is higher stays.
pub type WindowTinyLfu = QueueCache<WindowTinyLfuMark>;

/// Marks `WindowTinyLfu`.
#[derive(Drop)]
pub struct WindowTinyLfuMark;

impl QueueCache<WindowTinyLfuMark> {
    ghost use Rattle.queue_cache.specs.WindowTinyLfu.{window_tiny_lfu};
    ghost use Rattle.queue_cache.specs.QueueCache.{StandsFor};

    /// An empty cache. It requires a configuration that `Config::check` accepts. The one error is that an allocation
    /// failed.
    pub fn open(alloc: Global, config: &Config) -> Result<WindowTinyLfu, AllocError>
        requires { config_fault config.now ≡ Ok tt }
        ensures stands { IfOk result (λ l. StandsFor record { design = window_tiny_lfu; config = config.now } [] l) }
        ensures fresh { IfOk result (λ l. l.stats.accesses ≡ 0) }
    {
        QueueCache::with_design(alloc, QueueDesign::WINDOW_TINY_LFU, config)
    }
}
