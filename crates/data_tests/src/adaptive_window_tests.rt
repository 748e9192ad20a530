//! A cache with an adaptive window: worked rows, and a session that goes over the ends of periods, halvings and a change of
//! direction, and back.
use super::assertions::assert_equal;
use engine_base::{Config, Key, Outcome, Spread};
use journal::Session;
use queue_cache::AdaptiveCache;
use std::process::Abort;
use std::test::Fail;

const fn config(capacity: u32) -> Config {
    Config {
        capacity,
        main_percent: 99,
        spread: Spread::Mixed,
        stripes: 1,
        journal_limit: 480,
    }
}

// Capacity 3, worked by hand: the window holds one key.
const ACCESSES: [(Key, Outcome); 6] = [
    (1, Outcome::Kept),
    (2, Outcome::Kept),
    (3, Outcome::Kept),
    (1, Outcome::Hit),
    (4, Outcome::Rejected(3)),
    (2, Outcome::Hit),
];

#[test]
fn accesses_of_a_small_adaptive_cache(rt: HostRuntime) -> Result<(), Fail> {
    let config = config(3);
    assert!(rt; config.check() == Ok(()));
    let cache = AdaptiveCache::new(rt.alloc(), &config, None)?;
    let mut session = Session::open(rt.alloc(), cache, 480);
    for (key, outcome) in ACCESSES {
        assert_equal(&rt, session.step(key)?, outcome);
    }
    assert_equal(&rt, session.engine().stats().rejections, 1);
    Ok(())
}

// Steps to the keys of one period, and sees which size the window is to have then, and has at once.
fn step_over(
    rt: &impl Abort,
    session: &mut Session<AdaptiveCache>,
    first: Key,
    apart: Key,
    target: u32,
) -> Result<(), Fail> {
    for i in 0..160_u64 {
        session.step(first.wrapping_add(i.wrapping_mul(apart)))?;
    }
    assert_equal(rt, session.engine().target(), target);
    assert_equal(rt, session.engine().window_size(), target);
    Ok(())
}

// Goes back over one period.
fn back_over(
    rt: &impl Abort,
    session: &mut Session<AdaptiveCache>,
    target: u32,
) -> Result<(), Fail> {
    session.back(160)?;
    assert_equal(rt, session.engine().target(), target);
    Ok(())
}

// Hits of one key, then misses of 160 keys, which turn the direction, then hits again.
#[test]
fn a_session_goes_back_over_periods(rt: HostRuntime) -> Result<(), Fail> {
    let config = config(16);
    assert!(rt; config.check() == Ok(()));
    let cache = AdaptiveCache::new(rt.alloc(), &config, None)?;
    let mut session = Session::open(rt.alloc(), cache, 480);
    step_over(&rt, &mut session, 1, 0, 1)?;
    step_over(&rt, &mut session, 100, 1, 2)?;
    step_over(&rt, &mut session, 1, 0, 3)?;
    back_over(&rt, &mut session, 2)?;
    back_over(&rt, &mut session, 1)?;
    back_over(&rt, &mut session, 1)?;
    assert_equal(&rt, session.engine().stats().accesses, 0);
    assert_equal(&rt, session.engine().frequency().halvings(), 0);
    session.forward(320)?;
    assert_equal(&rt, session.engine().window_size(), 2);
    Ok(())
}
