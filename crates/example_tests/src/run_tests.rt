//! Runs of a worker on a thread: one that is undone, and one that is read back. A miss with its round is nine steps.
ghost use Rattle.std.specs.Prelude.{◌≡◌, Ok};
ghost use Rattle.maintenance.specs.EmptyShell.{IsOpened};
ghost use Rattle.engine_base.specs.Config.{config_fault};

use super::assertions::assert_equal;
use super::jobs::SMALL;
use drive::{Cause, DriveFault};
use end_to_end::{Rewound, drive_and_undo};
use journal::{BackFault, Session};
use library_examples::{RunFault, copy_of, run_settled};
use maintenance::Shell;
use std::alloc::{AllocError, Global};
use std::process::Abort;
use std::test::Fail;
use step_record::{Call, Config, OpenGate};

// One worker's read of key 1.
fn one_read(alloc: Global) -> Result<Vec<Vec<Call>>, AllocError> {
    let piece = vec![in alloc; Call::Read(1)]?;
    let mut pieces = Vec::new(alloc);
    pieces.push(piece)?;
    Ok(pieces)
}

fn fresh(rt: &impl Abort, alloc: Global) -> Result<Session<Shell>, Fail> {
    assert!(rt; SMALL.check().is_ok());
    let shell = Shell::new(alloc, &SMALL)?;
    Ok(Session::open(alloc, shell, 100))
}

fn not_driven(fault: DriveFault) -> Fail {
    let text = match &fault {
        DriveFault::OutOfMemory { .. } => "out of memory",
        _ => "not driven",
    };
    drop(fault);
    Fail::from(text)
}

// Six of nine steps were undone, where memory sufficed.
fn assert_rewound(rt: &impl Abort, run: &Rewound) -> Result<(), Fail> {
    let is_undone = match run.undone {
        Err(BackFault::OutOfMemory { .. }) => false,
        _ => run.cause != Some(Cause::Memory),
    };
    if !is_undone {
        return Err(Fail::from("out of memory"));
    }
    assert_equal(rt, run.undone, Ok(()));
    assert_equal(rt, (run.session.len(), run.session.ahead()), (3, 6));
    Ok(())
}

#[test]
fn a_run_is_undone(rt: HostRuntime) -> Result<(), Fail> {
    let pieces = one_read(rt.alloc())?;
    let session = fresh(&rt, rt.alloc())?;
    let made = drive_and_undo(&rt, rt.alloc(), session, pieces, &OpenGate, 6);
    let run = made.map_err(not_driven)?;
    assert_rewound(&rt, &run)
}

fn not_run(fault: RunFault) -> Fail {
    match fault {
        RunFault::OutOfMemory => Fail::from("out of memory"),
        _ => Fail::from("no run"),
    }
}

// Reads a run back, and sees that its last entry is there.
fn assert_read_back(
    rt: &impl Abort,
    alloc: Global,
    config: &Config,
    session: &Session<Shell>,
) -> Result<(), Fail>
    requires checked { config_fault config.now ≡ Ok tt }
    requires opened { IsOpened config.now session.now.opening }
{
    let copy = copy_of(alloc, config, session)?;
    assert_equal(rt, copy.len(), 9);
    assert!(rt; copy.entry(9) == session.entry(9));
    Ok(())
}

#[test]
fn a_run_is_read_back(rt: HostRuntime) -> Result<(), Fail> {
    assert!(rt; SMALL.check().is_ok());
    let pieces = one_read(rt.alloc())?;
    let session = match run_settled(&rt, rt.alloc(), &SMALL, pieces) {
        Ok(session) => session,
        Err(fault) => return Err(not_run(fault)),
    };
    if session.len() != 9 {
        // The worker was refused memory, and its round was settled.
        drop(session);
        return Err(Fail::from("out of memory"));
    }
    assert_read_back(&rt, rt.alloc(), &SMALL, &session)
}
