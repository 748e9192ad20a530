//! A set of ranks, filled and emptied.
use super::assertions::assert_equal;
use clairvoyant::BitSet;
use std::test::Fail;

#[test]
fn the_least_number_below_a_bound(rt: HostRuntime) -> Result<(), Fail> {
    let mut ranks = BitSet::new(rt.alloc(), 300_000)?;
    assert_equal(&rt, ranks.least_below(300_000), None);
    ranks.put(299_999);
    ranks.put(4_096);
    ranks.put(63);
    assert!(rt; ranks.has(63) && ranks.has(4_096) && ranks.has(299_999));
    assert!(rt; !ranks.has(64));
    assert_equal(&rt, ranks.least_below(300_000), Some(63));
    assert_equal(&rt, ranks.least_below(63), None);
    ranks.take(63);
    assert!(rt; !ranks.has(63));
    assert_equal(&rt, ranks.least_below(300_000), Some(4_096));
    ranks.take(4_096);
    assert_equal(&rt, ranks.least_below(300_000), Some(299_999));
    assert_equal(&rt, ranks.least_below(299_999), None);
    Ok(())
}
