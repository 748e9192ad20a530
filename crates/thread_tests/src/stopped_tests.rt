//! A run that a full journal stops while its worker holds the maintenance, and what may be called then.
use super::assertions::assert_equal;
use super::sessions::{SMALL, opened, pieces_of};
use drive::{Cause, DriveFault, SettleFault, drive, settle};
use journal::Session;
use maintenance::Shell;
use std::alloc::Global;
use std::process::Abort;
use std::sync::Wait;
use std::test::Fail;
use std::thread::Threads;
use step_record::{Call, OpenGate};

// Runs a worker that reads key 1, which takes nine steps: from the fourth on it holds the maintenance. Says how the run
// ended, and gives the session back.
fn read_once<R: Threads + Wait + Sync>(
    rt: &R,
    alloc: Global,
    session: Session<Shell>,
) -> Result<(&'static str, Session<Shell>), Fail> {
    let pieces = pieces_of(alloc, &[&[Call::Read(1)]])?;
    match drive(rt, alloc, session, pieces, &OpenGate) {
        Ok(driven) => Ok(("done", driven.session)),
        Err(
            DriveFault::Stopped {
                driven,
                cause: Cause::JournalFull,
            },
        ) => Ok(("full", driven.session)),
        Err(DriveFault::Held { session, .. }) => Ok(("held", session)),
        Err(DriveFault::Workers { session }) => Ok(("workers", session)),
        Err(fault) => {
            drop(fault);
            Err(Fail::from("out of memory"))
        }
    }
}

// A session in which the key was read once more, which ends so.
fn read_again<R: Threads + Wait + Sync + Abort>(
    rt: &R,
    alloc: Global,
    session: Session<Shell>,
    wanted: &'static str,
) -> Result<Session<Shell>, Fail> {
    let (found, session) = read_once(rt, alloc, session)?;
    assert_equal(rt, found, wanted);
    Ok(session)
}

// How many steps finished the maintenance, or after how many the journal was full.
type Settled = Result<u64, u64>;

fn settled(session: &mut Session<Shell>) -> Result<Settled, Fail> {
    match settle(session) {
        Ok(steps) => Ok(Ok(steps)),
        Err(SettleFault::JournalFull { done }) => Ok(Err(done)),
        Err(SettleFault::OutOfMemory { .. }) => Err(Fail::from("out of memory")),
    }
}

// How many steps the journal holds; how three runs end; and how the maintenance is settled after the second of them,
// and once the last step is undone: from its phase on, so that of the ninth step not the end alone is left, but a
// look at the window too.
const RUNS: [(usize, [&str; 3], [Settled; 2]); 6] = [
    (1, ["full", "full", "full"], [Ok(0), Ok(0)]),
    (3, ["full", "full", "full"], [Ok(0), Ok(0)]),
    (4, ["full", "held", "full"], [Err(0), Ok(0)]),
    (5, ["full", "held", "held"], [Err(0), Err(1)]),
    (8, ["full", "held", "held"], [Err(0), Err(1)]),
    (9, ["done", "full", "held"], [Ok(0), Err(1)]),
];

fn assert_settled(
    rt: &impl Abort,
    session: &mut Session<Shell>,
    wanted: [Settled; 2],
) -> Result<(), Fail> {
    let steps = session.len();
    assert_equal(rt, settled(session)?, wanted[0]);
    assert_equal(rt, session.len(), steps);
    session.back(1)?;
    assert_equal(rt, settled(session)?, wanted[1]);
    Ok(())
}

#[test]
fn a_full_journal_stops_runs_and_maintenance(rt: HostRuntime) -> Result<(), Fail> {
    for (limit, ends, settled) in RUNS {
        assert!(rt; 1 <= limit && limit <= 9);
        let session = opened(&rt, rt.alloc(), &SMALL, limit)?;
        let session = read_again(&rt, rt.alloc(), session, ends[0])?;
        let mut session = read_again(&rt, rt.alloc(), session, ends[1])?;
        assert_settled(&rt, &mut session, settled)?;
        let session = read_again(&rt, rt.alloc(), session, ends[2])?;
        assert_equal(&rt, session.len(), limit);
    }
    Ok(())
}
