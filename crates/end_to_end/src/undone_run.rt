//! The history of a run on threads, in one statement that cites what `drive`, `Session` and `Shell` promise.
ghost use Rattle.std.specs.Prelude.{◌≡◌, ◌↔◌, ◌-◌, ◌<◌, Err, IfErr, IfOk, OnErr, drop, length, map, take, ◌++◌};
ghost use Rattle.engine_base.specs.History.{data_after};
ghost use Rattle.shell_model.specs.Shell.{act};
ghost use Rattle.workers.specs.DriveFaults.{LeavesFault};
ghost use Rattle.end_to_end.specs.UndoneRun.{IsRewound, HasNoSteps, undone_of};

use drive::{Cause, DriveFault, drive};
use engine_base::{Call, Gate};
use journal::{BackFault, Session};
use maintenance::Shell;
use std::alloc::Global;
use std::sync::Wait;
use std::thread::Threads;

/// A run of workers on threads, of which the last steps were undone.
#[derive(Drop)]
pub struct Rewound {
    /// The session, with the steps that are left.
    pub session: Session<Shell>,
    /// Why a worker was refused a step, where one was.
    pub cause: Option<Cause>,
    /// Why the steps were not undone, or not all of them.
    pub undone: Result<(), BackFault>,
}

/// Has workers make their calls on threads, and then undoes the last `k` steps of the session. The run is one list of
/// steps, in which each worker's are the walks of its calls, in order, and each reply is the one that the definition of
/// the cache gives on the steps before it; the state is the one that the definition gives on the steps that are left.
/// Nothing can be redone but the steps that were undone, and what could be before where the run made no step.
///
/// The faults are those of [`drive`] but `Stopped`, whose run counts as far as it came.
pub fn drive_and_undo<G: Gate, R: Threads + Wait + Sync>(
    rt: &R,
    alloc: Global,
    session: Session<Shell>,
    pieces: Vec<Vec<Call>>,
    gate: &G,
    k: usize,
) -> Result<Rewound, DriveFault>
    ensures rewound { IfOk result (λ r. IsRewound session.engine.config.stripes k (map (λ p. p.items) pieces.items)
        r.cause r.undone session r.session) }
    ensures fault { IfErr result (λ f. LeavesFault f (map (λ p. p.items) pieces.items) session) }
    // A stopped run is no fault.
    ensures before { IfErr result HasNoSteps }
{
    match drive(rt, alloc, session, pieces, gate) {
        Ok(driven) => Ok(undo(driven.session, None, k)),
        Err(DriveFault::Stopped { driven, cause }) => Ok(undo(driven.session, Some(cause), k)),
        Err(fault) => Err(fault),
    }
}

// Undoes the last steps of a session in which a run was made.
fn undo(mut session: Session<Shell>, cause: Option<Cause>, k: usize) -> Rewound
    ensures cause { result.cause ≡ cause }
    ensures opening { result.session.opening ≡ session.opening }
    ensures left { result.session.kept ≡ take (length session.kept - undone_of k result.undone) session.kept }
    ensures redo { result.session.tail ≡ drop (length session.kept - undone_of k result.undone)
        (session.kept ++ session.tail) }
    ensures state { result.session.engine ≡ data_after act result.session.opening result.session.kept }
    ensures fewer { OnErr result.undone (undone_of k result.undone < k) }
    ensures past { result.undone ≡ Err BackFault.PastStart ↔ length session.kept < k }
{
    let undone = session.back(k);
    Rewound {
        session,
        cause,
        undone,
    }
}
