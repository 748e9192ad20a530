//! A session that goes back and forth.
ghost use Rattle.std.specs.Prelude.{◌≡◌, ◌++◌, Ok, [], IfOk, IfErr, OnOk, length, take};
ghost use Rattle.engine_base.specs.Config.{config_fault};
ghost use Rattle.engine_base.specs.History.{data_after};
ghost use Rattle.journal.specs.Session.{IsMovedTo};
ghost use Rattle.policies.specs.AnyPolicy.{any_residents, HasAccessed};
ghost use Rattle.policies.specs.AnyStep.{any_act};
ghost use Rattle.library_examples.specs.Residents.{IsLeftAt};

use journal::{GotoFault, Session};
use policies::AnyPolicy;
use std::alloc::{AllocError, Global};
use step_record::{Job, Key, MAX_JOURNAL_LIMIT, Trace};

/// A session of no step over an empty cache of the job. Only Belady's policy looks at the trace.
///
/// The only error is that an allocation failed.
pub fn open_session(
    alloc: Global,
    job: &Job,
    trace: &Trace,
) -> Result<Session<AnyPolicy>, AllocError>
    requires checked { config_fault job.now.config ≡ Ok tt }
    ensures opening { IfOk result (λ session. HasAccessed job.now trace.now [] session.opening) }
    ensures kept { IfOk result (λ session. session.kept ≡ []) }
    ensures tail { IfOk result (λ session. session.tail ≡ []) }
{
    let cache = AnyPolicy::open(alloc, job, trace)?;
    Ok(Session::open(alloc, cache, MAX_JOURNAL_LIMIT as usize))
}

/// The keys that the cache holds where `n` steps of the session are applied, undone ones included. The session goes
/// there and back: it is then where it was.
///
/// Errors: `PastEnd` where there are fewer steps, and `OutOfMemory`, which says how many are applied then.
pub fn residents_at(
    alloc: Global,
    session: &mut Session<AnyPolicy>,
    n: usize,
) -> Result<Vec<Key>, GotoFault>
    ensures held { IfOk result (λ keys. keys.items
        ≡ any_residents (data_after any_act session.old.opening (take n (session.old.kept ++ session.old.tail)))) }
    ensures back { OnOk result (IsMovedTo (length session.old.kept) session.old session.new) }
    ensures err { IfErr result (IsLeftAt n session.old session.new) }
{
    let at = session.len();
    session.goto(n)?;
    let Ok(keys) = session.engine().residents(alloc) else {
        return Err(GotoFault::OutOfMemory { at: n });
    };
    session.goto(at)?;
    Ok(keys)
}
