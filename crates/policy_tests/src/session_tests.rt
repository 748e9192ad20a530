//! A session over a policy that counts keys, back across a halving and forward again.
use super::assertions::assert_equal;
use journal::Session;
use policies::WindowTinyLfu;
use std::process::Abort;
use std::test::Fail;
use step_record::{Config, Spread};

const CONFIG: Config = Config {
    capacity: 2,
    main_percent: 99,
    spread: Spread::Plain,
    stripes: 1,
    journal_limit: 600,
};

/// What the frequency of a session over WindowTinyLfu shows of key 5: its least counter, the age,
/// its estimate, and whether the doorkeeper has it.
fn shown(session: &Session<WindowTinyLfu>) -> Option<(u8, u32, u8, bool)> {
    let frequency = session.engine().frequency()?;
    Some((
        frequency.sketch().least(5),
        frequency.age(),
        frequency.estimate(5),
        frequency.doorkeeper().has(5),
    ))
}

// What a session shows of key 5, and how many words its records hold.
fn assert_holds(
    rt: &impl Abort,
    session: &Session<WindowTinyLfu>,
    of_key_5: (u8, u32, u8, bool),
    words: u64,
) {
    assert_equal(
        rt,
        (shown(session), session.held()),
        (Some(of_key_5), words),
    );
}

fn step_often(session: &mut Session<WindowTinyLfu>, times: u32) -> Result<(), Fail> {
    for _ in 0..times {
        session.step(5)?;
    }
    Ok(())
}

// Goes over a halving, back across it, and forward again.
fn walk_across(rt: &impl Abort, session: &mut Session<WindowTinyLfu>) -> Result<(), Fail> {
    step_often(session, 20)?;
    assert_holds(rt, session, (7, 10, 7, false), 2);
    session.back(1)?;
    assert_holds(rt, session, (15, 19, 16, true), 0);
    session.back(5)?;
    assert_holds(rt, session, (13, 14, 14, true), 0);
    session.forward(6)?;
    step_often(session, 10)?;
    assert_equal(rt, session.held(), 4);
    Ok(())
}

#[test]
fn a_session_goes_back_across_a_halving(rt: HostRuntime) -> Result<(), Fail> {
    assert!(rt; CONFIG.check() == Ok(()));
    let cache = WindowTinyLfu::open(rt.alloc(), &CONFIG)?;
    let mut session = Session::open(rt.alloc(), cache, 40);
    walk_across(&rt, &mut session)
}
