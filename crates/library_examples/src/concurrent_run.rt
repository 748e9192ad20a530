//! The concurrent cache on threads: driven by workers, settled, written as text and read back.
ghost use Rattle.std.specs.Prelude.{◌≡◌, Ok, None, IfOk};
ghost use Rattle.engine_base.specs.Config.{config_fault};
ghost use Rattle.engine_base.specs.History.{IsLegal};
ghost use Rattle.shell_model.specs.Shell.{act};
ghost use Rattle.maintenance.specs.EmptyShell.{IsOpened};
ghost use Rattle.library_examples.specs.ConcurrentRun.{IsNew};

use journal::Session;
use journal_text::JournalFault;
use maintenance::Shell;
use quiet_run::{SettleFault, settle};
use shell_journal::copy_journal;
use std::alloc::{AllocError, Global};
use std::sync::Wait;
use std::thread::Threads;
use step_record::{Call, Config, MAX_JOURNAL_LIMIT, OpenGate};
use workers::{DriveFault, drive};

/// Why a run left no session.
#[derive(Clone, Copy, Debug, PartialEq, Eq)]
pub enum RunFault {
    /// An allocation failed before the first step, or while the maintenance was settled.
    OutOfMemory,
    /// There are no workers, or more than 64.
    Workers,
    /// The journal was full before the maintenance was settled.
    JournalFull,
}

/// Has workers make their calls on a new cache, each on a thread of its own where one can be made, and finishes the
/// maintenance that a worker held who was refused a step.
pub fn run_settled<R: Threads + Wait + Sync>(
    rt: &R,
    alloc: Global,
    config: &Config,
    pieces: Vec<Vec<Call>>,
) -> Result<Session<Shell>, RunFault>
    requires checked { config_fault config.now ≡ Ok tt }
    ensures opening { IfOk result (λ session. IsOpened config.now session.opening) }
    ensures legal { IfOk result (λ session. IsLegal act session.opening session.kept) }
    ensures free { IfOk result (λ session. session.engine.holder ≡ None) }
{
    let Ok(session) = new_session(alloc, config) else {
        return Err(RunFault::OutOfMemory);
    };
    let mut session = driven(rt, alloc, session, pieces)?;
    let settled = settle(&mut session);
    session.sound();
    match settled {
        Ok(_) => Ok(session),
        Err(SettleFault::OutOfMemory { .. }) => Err(RunFault::OutOfMemory),
        Err(SettleFault::JournalFull { .. }) => Err(RunFault::JournalFull),
    }
}

/// The same steps in a session of its own, read from the text of the first one's journal.
///
/// The only fault is that an allocation or the reader failed.
pub fn copy_of(
    alloc: Global,
    config: &Config,
    session: &Session<Shell>,
) -> Result<Session<Shell>, JournalFault>
    requires checked { config_fault config.now ≡ Ok tt }
    requires opened { IsOpened config.now session.now.opening }
    ensures opening { IfOk result (λ copy. copy.opening ≡ session.now.opening) }
    ensures kept { IfOk result (λ copy. copy.kept ≡ session.now.kept) }
    ensures engine { IfOk result (λ copy. copy.engine ≡ session.now.engine) }
{
    let Ok(mut copy) = new_session(alloc, config) else {
        return Err(JournalFault::OutOfMemory);
    };
    shell_journal::theorems::opened_alike();
    session.sound();
    copy_journal(alloc, session, &mut copy)?;
    copy.sound();
    Ok(copy)
}

// A session of no step over a new cache, with room for as many steps as a session may have.
fn new_session(alloc: Global, config: &Config) -> Result<Session<Shell>, AllocError>
    requires { config_fault config.now ≡ Ok tt }
    ensures { IfOk result (IsNew config.now) }
{
    let shell = Shell::new(alloc, config)?;
    Ok(Session::open(alloc, shell, MAX_JOURNAL_LIMIT as usize))
}

// What the workers leave of a session that nobody held. A run in which a worker was refused a step counts as far as it
// came.
fn driven<R: Threads + Wait + Sync>(
    rt: &R,
    alloc: Global,
    session: Session<Shell>,
    pieces: Vec<Vec<Call>>,
) -> Result<Session<Shell>, RunFault>
    requires { session.engine.holder ≡ None }
    ensures opening { IfOk result (λ run. run.opening ≡ session.opening) }
    ensures limit { IfOk result (λ run. run.limit ≡ session.limit) }
{
    match drive(rt, alloc, session, pieces, &OpenGate) {
        Ok(driven) => Ok(driven.session),
        Err(DriveFault::Stopped { driven, cause: _ }) => Ok(driven.session),
        Err(DriveFault::Workers { session: _ }) => Err(RunFault::Workers),
        Err(DriveFault::OutOfMemory { session: _ }) => Err(RunFault::OutOfMemory),
        Err(
            DriveFault::Held {
                worker: _,
                session: _,
            },
        ) => unreachable!(),
    }
}
