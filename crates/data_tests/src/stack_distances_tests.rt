//! Curves and passes over the reuses.
use super::assertions::assert_equal;
use engine_base::{Stats, Trace};
use queue_cache::{Curve, Reuses};
use std::alloc::{AllocError, Global};
use std::process::Abort;
use std::test::Fail;

// A trace of seven accesses, whose distances are none, none, none, 3, 2, 3, 1.
fn short_trace(rt: &impl Abort, alloc: Global) -> Result<Trace, AllocError> {
    let keys = vec![in alloc; 7, 8, 9, 7, 9, 8, 8]?;
    assert!(rt; keys.len() <= 7);
    Ok(Trace::new(keys))
}

// What Lru counts of them at some capacities: hits, misses and evictions.
const SHORT_COUNTS: [(u32, u64, u64, u64); 4] = [
    (1, 1, 6, 5),
    (2, 2, 5, 3),
    (3, 4, 3, 0),
    (9, 4, 3, 0),
];

// The statistics are those of the seven accesses of the short trace, with these hits, misses and evictions.
fn assert_short(rt: &impl Abort, stats: Stats, counts: (u64, u64, u64)) {
    assert_equal(rt, (stats.accesses, stats.rejections), (7, 0));
    assert_equal(rt, (stats.hits, stats.misses, stats.evictions), counts);
}

#[test]
fn the_hits_of_a_short_trace(rt: HostRuntime) -> Result<(), Fail> {
    let trace = short_trace(&rt, rt.alloc())?;
    let reuses = Reuses::of_trace(rt.alloc(), &trace)?;
    let curve = Curve::of_trace(rt.alloc(), &trace)?;
    for (capacity, hits, misses, evictions) in SHORT_COUNTS {
        assert!(rt; capacity >= 1);
        let stats = reuses.stats(rt.alloc(), capacity)?;
        assert_short(&rt, stats, (hits, misses, evictions));
        assert_short(&rt, curve.stats(capacity), (hits, misses, evictions));
    }
    Ok(())
}
