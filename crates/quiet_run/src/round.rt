//! Finishing the maintenance that a worker holds.
ghost use Rattle.std.specs.Prelude.{◌≡◌, ◌≢◌, ℕ, None, Some, IfOk, IfErr, OnOk, OnErr, length};
ghost use Rattle.shell_model.specs.ReachableShell.{IsReachable, worker_of};
ghost use Rattle.shell_model.specs.NextActs.{IsAheadOf};
ghost use Rattle.quiet_run.specs.Outcomes.{outcome_with_reply, outcome_from};
ghost use Rattle.shell_model.specs.WorkerEntries.{IsUnfinished};
ghost use Rattle.quiet_run.specs.Settle.{AddsSteps, IsAtStart, IsRefusalCause, IsRest, BeginsRest, cause_of, steps_before};
ghost use Rattle.quiet_run.specs.QuietWalks.{reply_with_round, with_rounds};

use engine_base::{Outcome, Reply, Step};
use journal::{Session, SessionFault};
use maintenance::Shell;
use shell_model::{Local, Next, next_step};
use thiserror::Error;

/// Why a maintenance was not finished. The steps that were made stay applied.
#[derive(Clone, Copy, Debug, Error)]
pub enum SettleFault {
    /// Out of memory after this many steps.
    #[error("OutOfMemory")]
    OutOfMemory { done: u64 },
    /// The journal is full after this many steps.
    #[error("JournalFull")]
    JournalFull { done: u64 },
}

/// Finishes the maintenance under way, as its holder and by ordinary steps, from the phase that it
/// is at, and returns how many steps that took: 0 where no one holds it. After a fault the steps
/// that were made stay, and the holder still holds.
pub fn settle(session: &mut Session<Shell>) -> Result<u64, SettleFault>
    ensures opening { session.new.opening ≡ session.old.opening }
    ensures limit { session.new.limit ≡ session.old.limit }
    // The holder's steps of a round from its phase on, or none, and no holder is left.
    ensures ok { IfOk result (λ n. AddsSteps
        (λ es. IsRest session.old.engine.config.stripes session.old.engine.holder es × (n ≡ length es))
        session.old session.new) }
    ensures none { OnOk result (session.new.engine.holder ≡ None) }
    // The first of these steps, but not all: the holder still holds.
    ensures err { IfErr result (λ f. AddsSteps (λ es.
        BeginsRest session.old.engine.config.stripes session.old.engine.holder es × (steps_before f ≡ length es))
        session.old session.new) }
    ensures held { OnErr result (worker_of session.new.engine.holder ≡ worker_of session.old.engine.holder) }
    ensures cause { IfErr result (λ f. IsRefusalCause (cause_of f) session.new) }
{
    let Some(holder) = session.engine().holder() else {
        return Ok(0);
    };
    let before = session.len();
    let stripes = session.engine().stripes();
    let local = Local::resume(holder.0, stripes, holder.1);
    match finish_walk(session, local, Outcome::Kept) {
        Ok(_) => Ok((session.len() - before) as u64),
        Err(fault) => Err(settle_fault(fault, (session.len() - before) as u64)),
    }
}

// The fault after so many steps.
fn settle_fault(fault: SessionFault, done: u64) -> SettleFault
    requires { fault ≢ SessionFault.NotNow }
    ensures cause { cause_of result ≡ fault }
    ensures steps { steps_before result ≡ done }
{
    match fault {
        SessionFault::OutOfMemory => SettleFault::OutOfMemory { done },
        SessionFault::JournalFull => SettleFault::JournalFull { done },
        SessionFault::NotNow => unreachable!(),
    }
}

// Makes a walk from where its worker stands to its end, with a round after every report, whatever its reply, and
// returns the outcome with the key that was hit or evicted. The shell takes each of its steps, so none is refused as
// `NotNow`.
pub(crate) fn finish_walk(
    session: &mut Session<Shell>,
    local: Local,
    start: Outcome,
) -> Result<Outcome, SessionFault>
    requires reached { IsReachable session.old.engine }
    requires stripes { length session.old.engine.stripes ≡ local.stripes }
    requires place { IsAtStart session.old.engine.holder local.worker local.act }
    ensures opening { session.new.opening ≡ session.old.opening }
    ensures limit { session.new.limit ≡ session.old.limit }
    ensures ok { IfOk result (λ o. AddsSteps (λ es. IsAheadOf local (with_rounds es) × (o ≡ outcome_from start es))
        session.old session.new) }
    ensures none { OnOk result (session.new.engine.holder ≡ None) }
    ensures reached { OnOk result (IsReachable session.new.engine) }
    ensures stripes { length session.new.engine.stripes ≡ local.stripes }
    ensures err { OnErr result (AddsSteps (IsUnfinished (λ es. IsAheadOf local (with_rounds es)))
        session.old session.new) }
    ensures held { OnErr result ((w : ℕ) → worker_of session.old.engine.holder ≡ Some w
        → worker_of session.new.engine.holder ≡ Some w) }
    ensures cause { IfErr result (λ f. IsRefusalCause f session.new) }
{
    let worker = local.worker;
    let mut outcome = start;
    let mut next = next_step(local, None);
    while let Next::Do(act, at) = next {
        let reply = session.step(Step { worker, act })?;
        outcome = outcome_with(outcome, reply);
        next = next_step(at, Some(with_round(reply)));
    }
    Ok(outcome)
}

// A reply, where a round follows every report.
fn with_round(reply: Reply) -> Reply
    ensures { result ≡ reply_with_round reply }
{
    match reply {
        Reply::Go => Reply::Drain,
        _ => reply,
    }
}

// The outcome of a key after one more reply: a hit stays, else the key that left last counts.
fn outcome_with(outcome: Outcome, reply: Reply) -> Outcome
    ensures { result ≡ outcome_with_reply outcome reply }
{
    match (outcome, reply) {
        (_, Reply::Hit { .. }) => Outcome::Hit,
        (Outcome::Hit, _) => Outcome::Hit,
        (_, Reply::Evicted { item }) => Outcome::Evicted(item.key),
        (_, Reply::Rejected { item }) => Outcome::Rejected(item.key),
        (outcome, _) => outcome,
    }
}
