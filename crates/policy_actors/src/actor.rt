//! One actor: a job's policy, fed with batches.
ghost use Rattle.std.specs.Prelude.{◌≡◌, ◌≤◌, ℕ, List, Ok, Some, IfSome};
ghost use Rattle.engine_base.specs.Config.{config_fault};
ghost use Rattle.engine_base.specs.declared.limits.TheConstants.{MAX_STEPS};
ghost use Rattle.policies.specs.Reports.{report_on};
ghost use Rattle.policy_actors.specs.Following.{CanFollow};

use crate::lump::FedTrace;
use crate::mail::Inbox;
use policies::{CacheRun, Report};
use std::alloc::Global;
use std::sync::Wait;
use std::sync::atomic::AtomicU64;
use std::sync::atomic::Ordering::Relaxed;
use step_record::{Gate, Job};

/// Takes batches up to the last one, and counts each batch before that in `finished`. With `Some`, the report is that
/// of all that was fed, where that was known. An actor that ran out of memory goes on taking batches, so that its
/// feeder is not held up, and has no report; nor has one whose feeder ended early.
pub fn run_actor<S: FedTrace, R: Wait, G: Gate>(
    rt: &R,
    alloc: Global,
    mut inbox: Inbox<S>,
    job: Job,
    who: u8,
    gate: &G,
    finished: &AtomicU64,
) -> Option<Report>
    requires start { inbox.taken ≡ 0 }
    requires checked { config_fault job.config ≡ Ok tt }
    requires few { S.most ≤ MAX_STEPS }
    requires follows { CanFollow S.most job }
    ensures { (all : List ℕ) → S.known ≡ Some all → IfSome result (λ r. r ≡ report_on job all) }
{
    let mut run = CacheRun::open(alloc, &job);
    for _ in rt.forever() {
        let batch = inbox.take(rt)?;
        gate.before(who, batch.number);
        run.take(batch.keys.as_slice());
        if batch.last {
            let report = run.finish(alloc, &job);
            gate.after(who, batch.number);
            return report;
        }
        gate.after(who, batch.number);
        finished.fetch_add(1, Relaxed);
    }
    unreachable!()
}
