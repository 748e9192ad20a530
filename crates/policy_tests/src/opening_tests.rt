//! Each policy of queues, opened by its own constructor.
use super::assertions::assert_equal;
use journal::Session;
use policies::{Lru, SegmentedLru, TinyLfu, WindowTinyLfu};
use std::process::Abort;
use std::test::Fail;
use step_record::{Config, Engine, Key, Outcome, Spread};

const CONFIG: Config = Config {
    capacity: 2,
    main_percent: 99,
    spread: Spread::Mixed,
    stripes: 1,
    journal_limit: 4,
};

// The first access of a key is a miss that keeps it, and the next one a hit, whatever the policy.
fn assert_keeps_a_key<E: Engine<Step = Key, Reply = Outcome> + Drop>(
    rt: &impl Abort,
    session: &mut Session<E>,
) -> Result<(), Fail> {
    assert_equal(rt, session.step(1)?, Outcome::Kept);
    assert_equal(rt, session.step(1)?, Outcome::Hit);
    Ok(())
}

#[test]
fn lru_opens(rt: HostRuntime) -> Result<(), Fail> {
    assert!(rt; CONFIG.check() == Ok(()));
    let cache = Lru::open(rt.alloc(), &CONFIG)?;
    let mut session = Session::open(rt.alloc(), cache, 4);
    assert_keeps_a_key(&rt, &mut session)
}

#[test]
fn segmented_lru_opens(rt: HostRuntime) -> Result<(), Fail> {
    assert!(rt; CONFIG.check() == Ok(()));
    let cache = SegmentedLru::open(rt.alloc(), &CONFIG)?;
    let mut session = Session::open(rt.alloc(), cache, 4);
    assert_keeps_a_key(&rt, &mut session)
}

#[test]
fn tiny_lfu_opens(rt: HostRuntime) -> Result<(), Fail> {
    assert!(rt; CONFIG.check() == Ok(()));
    let cache = TinyLfu::open(rt.alloc(), &CONFIG, false)?;
    let mut session = Session::open(rt.alloc(), cache, 4);
    assert_keeps_a_key(&rt, &mut session)
}

#[test]
fn segmented_tiny_lfu_opens(rt: HostRuntime) -> Result<(), Fail> {
    assert!(rt; CONFIG.check() == Ok(()));
    let cache = TinyLfu::open(rt.alloc(), &CONFIG, true)?;
    let mut session = Session::open(rt.alloc(), cache, 4);
    assert_keeps_a_key(&rt, &mut session)
}

#[test]
fn window_tiny_lfu_opens(rt: HostRuntime) -> Result<(), Fail> {
    assert!(rt; CONFIG.check() == Ok(()));
    let cache = WindowTinyLfu::open(rt.alloc(), &CONFIG)?;
    let mut session = Session::open(rt.alloc(), cache, 4);
    assert_keeps_a_key(&rt, &mut session)
}
