//! A maintenance that is settled, and a quiet run.
use super::assertions::assert_equal;
use super::sessions::{SMALL, fresh};
use drive::{QuietFault, SettleFault, run_quiet, settle};
use journal::{Session, SessionFault};
use maintenance::Shell;
use std::alloc::Global;
use std::process::Abort;
use std::test::Fail;
use step_record::{Act, Config, Outcome, Step, Worker};

// Worker 3 puts key 1 and begins the maintenance.
const BEGINNING: [Act; 4] = [
    Act::Look { key: 1 },
    Act::Put { key: 1 },
    Act::AfterWrite,
    Act::Begin,
];

// Makes a step by hand, which memory alone may refuse.
fn make(rt: &impl Abort, session: &mut Session<Shell>, act: Act) -> Result<(), Fail> {
    let worker = Worker::new(3).expect(rt, "a worker below the limit");
    match session.step(Step { worker, act }) {
        Ok(_) => Ok(()),
        Err(SessionFault::OutOfMemory) => Err(Fail::from("out of memory")),
        Err(_) => Err(Fail::from("a step by hand is refused")),
    }
}

// Settles a round of five steps: a look at the one read buffer, the put that is applied, an empty write queue, a window
// that fits, and the end.
fn assert_settles(rt: &impl Abort, session: &mut Session<Shell>) -> Result<(), Fail> {
    for act in BEGINNING {
        make(rt, session, act)?;
    }
    match settle(session) {
        Ok(steps) => assert_equal(rt, steps, 5),
        Err(SettleFault::OutOfMemory { .. }) => return Err(Fail::from("out of memory")),
        Err(_) => return Err(Fail::from("not settled")),
    }
    assert_equal(rt, session.len(), 9);
    Ok(())
}

#[test]
fn settling_ends_the_round(rt: HostRuntime) -> Result<(), Fail> {
    let mut session = fresh(&rt, rt.alloc(), &SMALL)?;
    assert_settles(&rt, &mut session)
}

// A quiet run over these keys at two entries. Misses take nine steps, and one more where the window is over its size;
// hits take nine.
fn assert_outcomes(
    rt: &impl Abort,
    alloc: Global,
    session: &mut Session<Shell>,
    wanted: &[Outcome],
) -> Result<(), Fail> {
    match run_quiet(alloc, session, &[1, 2, 1, 3, 1]) {
        Ok(outcomes) => assert_equal(rt, outcomes.as_slice(), wanted),
        Err(QuietFault::OutOfMemory { .. }) => return Err(Fail::from("out of memory")),
        Err(_) => return Err(Fail::from("a run with enough room")),
    }
    assert_equal(rt, session.len(), 47);
    Ok(())
}

#[test]
fn a_quiet_run_answers_the_outcomes(rt: HostRuntime) -> Result<(), Fail> {
    let wanted = [
        Outcome::Kept,
        Outcome::Kept,
        Outcome::Hit,
        Outcome::Rejected(2),
        Outcome::Hit,
    ];
    let of_two = Config {
        capacity: 2,
        ..SMALL
    };
    let mut session = fresh(&rt, rt.alloc(), &of_two)?;
    assert_outcomes(&rt, rt.alloc(), &mut session, &wanted)
}
