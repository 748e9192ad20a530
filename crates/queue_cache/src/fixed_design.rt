//! The designs of the policies of queues as types.
ghost use Rattle.queue_cache.specs.Lru.{QueueDesign, lru};
ghost use Rattle.queue_cache.specs.SegmentedLru.{segmented_lru};
ghost use Rattle.queue_cache.specs.TinyLfu.{tiny_lfu};
ghost use Rattle.queue_cache.specs.WindowTinyLfu.{window_tiny_lfu};

use crate::design::QueueDesign;

/// A design that is known where a loop over accesses is compiled, so that the loop asks nothing of it.
pub trait FixedDesign {
    ghost use Rattle.queue_cache.specs.declared.design.QueueDesign.{QueueDesign};

    ghost DESIGN: { QueueDesign };

    const DESIGN: QueueDesign;
}

/// That of LRU.
pub struct LruDesign;

impl FixedDesign for LruDesign {
    ghost DESIGN = { lru };

    const DESIGN: QueueDesign = QueueDesign::LRU;
}

/// That of segmented LRU.
pub struct SegmentedLruDesign;

impl FixedDesign for SegmentedLruDesign {
    ghost DESIGN = { segmented_lru };

    const DESIGN: QueueDesign = QueueDesign::SEGMENTED_LRU;
}

/// That of LRU behind the TinyLFU admission filter.
pub struct TinyLfuLruDesign;

impl FixedDesign for TinyLfuLruDesign {
    ghost DESIGN = { tiny_lfu lru };

    const DESIGN: QueueDesign = QueueDesign::TINY_LFU_LRU;
}

/// That of segmented LRU behind the TinyLFU admission filter.
pub struct TinyLfuSegmentedDesign;

impl FixedDesign for TinyLfuSegmentedDesign {
    ghost DESIGN = { tiny_lfu segmented_lru };

    const DESIGN: QueueDesign = QueueDesign::TINY_LFU_SEGMENTED;
}

/// That of W-TinyLFU.
pub struct WindowTinyLfuDesign;

impl FixedDesign for WindowTinyLfuDesign {
    ghost DESIGN = { window_tiny_lfu };

    const DESIGN: QueueDesign = QueueDesign::WINDOW_TINY_LFU;
}
