//! Accesses by one worker, with the maintenance finished after each.
ghost use Rattle.std.specs.Prelude.{◌≡◌, ◌≤◌, ◌↔◌, ℕ, None, Err, IsSome, IfOk, IfErr, OnOk, OnErr, length, [], List};
ghost use Rattle.engine_base.specs.declared.limits.TheConstants.{MAX_STRIPES};
ghost use Rattle.engine_base.specs.declared.outcome.Outcome.TheVariants.{Kept};
ghost use Rattle.queue_cache.specs.QueueCache.{state_after};
ghost use Rattle.shell_model.specs.ReachableShell.{IsReachable};
ghost use Rattle.quiet_run.specs.Quiet.{Config, IsQuiet, quiet_setup};
ghost use Rattle.maintenance.specs.EmptyShell.{IsOpened};
ghost use Rattle.quiet_run.specs.Outcomes.{outcome_from};
ghost use Rattle.shell_model.specs.WorkerEntries.{IsUnfinished};
ghost use Rattle.quiet_run.specs.Settle.{AddsSteps, IsRefusalCause};
ghost use Rattle.quiet_run.specs.QuietWalks.{AreQuietWalks, BeginQuietWalks, IsQuietWalk, LeavesQuietFault};
ghost use Rattle.quiet_run.specs.QuietRuns.{QuietGoesOn, IsPolicysRun};

use super::round::finish_walk;
use engine_base::{Call, Key, Outcome, Worker};
use journal::{Session, SessionFault};
use maintenance::Shell;
use shell_model::Local;
use std::alloc::Global;
use thiserror::Error;

/// Why keys were not all accessed. The steps that were made stay applied.
#[derive(Clone, Copy, Debug, Error)]
pub enum QuietFault {
    /// Out of memory after this many steps.
    #[error("OutOfMemory")]
    OutOfMemory { done: u64 },
    /// The journal is full after this many steps.
    #[error("JournalFull")]
    JournalFull { done: u64 },
    /// A maintenance is under way, which is to be settled first; no step was made.
    #[error("Held")]
    Held,
}

/// Accesses the keys one after another as worker 0, each with a whole round of maintenance after
/// it, and returns their outcomes: a hit, or for a miss the last key that left in its round, if
/// one did. So the cache is W-TinyLFU: from a new one on, the outcomes and the keys that are held
/// are the policy's. A maintenance that is under way is to be settled first. After out of memory or
/// a full journal the steps that were made stay, and worker 0 may hold the maintenance; both come
/// only where steps are left to make, and a full journal is looked for before memory.
pub fn run_quiet(
    alloc: Global,
    session: &mut Session<Shell>,
    keys: &[Key],
) -> Result<Vec<Outcome>, QuietFault>
    ensures opening { session.new.opening ≡ session.old.opening }
    ensures limit { session.new.limit ≡ session.old.limit }
    // One walk for each key, in order, whose replies come to the outcomes; and no holder is left.
    ensures ok { IfOk result (λ os. AddsSteps (AreQuietWalks session.old.engine.config.stripes keys.now os.items)
        session.old session.new) }
    ensures none { OnOk result (session.new.engine.holder ≡ None) }
    // From a new cache the outcomes are those of W-TinyLFU, and the cache holds then what that
    // holds: the same keys in the same order in the three queues, and the same frequency.
    ensures new { (c : Config) → IsOpened c session.old.opening → session.old.kept ≡ [] →
        IfOk result (λ os. IsPolicysRun c keys.now os.items session.new.engine) }
    // So it goes on from a cache that holds what W-TinyLFU holds after the accesses of the past.
    ensures later { (c : Config) (past : List ℕ) → IsQuiet session.old.engine (state_after (quiet_setup c) past) →
        IfOk result (λ os. QuietGoesOn c past keys.now os.items session.new.engine) }
    // The first steps of these walks, but not all.
    ensures err { IfErr result (LeavesQuietFault session.old.engine.config.stripes keys.now session.old session.new) }
    ensures held { result ≡ Err QuietFault.Held ↔ IsSome session.old.engine.holder }
{
    if session.engine().holder().is_some() {
        return Err(QuietFault::Held);
    }
    let stripes = session.engine().stripes();
    let before = session.len();
    let mut outcomes = Vec::new(alloc);
    let ended = access_all(session, stripes, keys, &mut outcomes);
    let done = (session.len() - before) as u64;
    match ended {
        Ok(()) => Ok(outcomes),
        Err(SessionFault::OutOfMemory) => Err(QuietFault::OutOfMemory { done }),
        Err(SessionFault::JournalFull) => Err(QuietFault::JournalFull { done }),
        Err(SessionFault::NotNow) => unreachable!(),
    }
}

// Accesses the keys in order, each with a round after it, and lists their outcomes.
fn access_all(
    session: &mut Session<Shell>,
    stripes: u8,
    keys: &[Key],
    outcomes: &mut Vec<Outcome>,
) -> Result<(), SessionFault>
    requires reached { IsReachable session.old.engine }
    requires stripes { length session.old.engine.stripes ≡ stripes }
    requires range { (1 ≤ stripes) × (stripes ≤ MAX_STRIPES) }
    requires none { session.old.engine.holder ≡ None }
    requires empty { outcomes.old.items ≡ [] }
    ensures opening { session.new.opening ≡ session.old.opening }
    ensures limit { session.new.limit ≡ session.old.limit }
    ensures ok { OnOk result (AddsSteps (AreQuietWalks stripes keys.now outcomes.new.items) session.old session.new) }
    ensures none { OnOk result (session.new.engine.holder ≡ None) }
    ensures err { OnErr result (AddsSteps (BeginQuietWalks stripes keys.now) session.old session.new) }
    ensures cause { IfErr result (λ f. IsRefusalCause f session.new) }
{
    for key in keys {
        if outcomes.reserve(1).is_err() {
            return Err(fault_without_room(session));
        }
        let outcome = quiet_key(session, stripes, *key)?;
        outcomes.push_reserved(outcome);
    }
    Ok(())
}

// Why no key is accessed where there is no memory for its outcome: a full journal is found before that.
fn fault_without_room(session: &Session<Shell>) -> SessionFault
    ensures { IsRefusalCause result session.now }
{
    if session.is_full() {
        return SessionFault::JournalFull;
    }
    SessionFault::OutOfMemory
}

// Accesses a key, with a round of maintenance after it.
fn quiet_key(session: &mut Session<Shell>, stripes: u8, key: Key) -> Result<Outcome, SessionFault>
    requires reached { IsReachable session.old.engine }
    requires stripes { length session.old.engine.stripes ≡ stripes }
    requires range { (1 ≤ stripes) × (stripes ≤ MAX_STRIPES) }
    requires none { session.old.engine.holder ≡ None }
    ensures opening { session.new.opening ≡ session.old.opening }
    ensures limit { session.new.limit ≡ session.old.limit }
    ensures ok { IfOk result (λ o. AddsSteps (λ es. IsQuietWalk stripes key es
        × (o ≡ outcome_from Kept es)) session.old session.new) }
    ensures none { OnOk result (session.new.engine.holder ≡ None) }
    ensures reached { OnOk result (IsReachable session.new.engine) }
    ensures stripes { length session.new.engine.stripes ≡ stripes }
    ensures err { OnErr result (AddsSteps (IsUnfinished (IsQuietWalk stripes key)) session.old session.new) }
    ensures cause { IfErr result (λ f. IsRefusalCause f session.new) }
{
    let local = Local::start(first_worker(), stripes, Call::Read(key));
    finish_walk(session, local, Outcome::Kept)
}

// The worker that makes the accesses.
fn first_worker() -> Worker
    ensures { result ≡ 0 }
{
    Worker::new(0).unwrap()
}
