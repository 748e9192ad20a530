//! The programs of `library_examples` over a policy.
use super::assertions::assert_equal;
use super::jobs::LRU;
use journal::Session;
use library_examples::{hits_after, hits_by_interval, open_session, residents_at};
use policies::AnyPolicy;
use std::alloc::Global;
use std::process::Abort;
use std::test::Fail;
use step_record::Trace;

#[test]
fn hits_after_a_warm_up(rt: HostRuntime) -> Result<(), Fail> {
    let lru = &LRU;
    assert!(rt; lru.config.check().is_ok());
    let trace = Trace::new(vec![in rt.alloc(); 1, 1, 1, 2, 3, 1, 1]?);
    for (warm, wanted) in [(0, 3), (2, 2), (6, 1), (7, 0), (8, 0)] {
        let hits = hits_after(rt.alloc(), lru, &trace, warm)?;
        assert_equal(&rt, hits, wanted);
    }
    Ok(())
}

#[test]
fn the_hits_of_each_interval(rt: HostRuntime) -> Result<(), Fail> {
    let lru = &LRU;
    assert!(rt; lru.config.check().is_ok());
    let trace = Trace::new(vec![in rt.alloc(); 1, 1, 1, 2, 3, 1, 1]?);
    let hits = hits_by_interval(rt.alloc(), lru, &trace, 3)?;
    assert_equal(&rt, hits.as_slice(), &[2, 0, 1][..]);
    Ok(())
}

// Looks back at a session that read three keys, the first of which was evicted.
fn assert_seen(
    rt: &impl Abort,
    alloc: Global,
    session: &mut Session<AnyPolicy>,
) -> Result<(), Fail> {
    for key in [1, 2, 3] {
        session.step(key)?;
    }
    let earlier = residents_at(alloc, session, 2)?;
    assert_equal(rt, earlier.as_slice(), &[1, 2][..]);
    assert_equal(rt, session.len(), 3);
    Ok(())
}

#[test]
fn what_was_held_before(rt: HostRuntime) -> Result<(), Fail> {
    let lru = &LRU;
    assert!(rt; lru.config.check().is_ok());
    let trace = Trace::new(Vec::new(rt.alloc()));
    let mut session = open_session(rt.alloc(), lru, &trace)?;
    assert_seen(&rt, rt.alloc(), &mut session)
}
