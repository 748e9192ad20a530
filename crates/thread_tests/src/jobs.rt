//! The jobs of the tests, and the reports that they are to give.
ghost use Rattle.std.specs.Prelude.{◌≡◌, ℕ, IfOk, false};
ghost use Rattle.policies.specs.Design.{knows_trace};
ghost use Rattle.long_traces.specs.Feed.{CanRun};

use super::sessions::SMALL;
use policies::{ActorFault, Report};
use std::test::Fail;
use step_record::{Config, Job, Policy, Sizes, Spread, Tuning};

pub(crate) fn job(policy: Policy, capacity: u32) -> Job
    ensures { result.policy ≡ policy }
{
    let config = Config {
        capacity,
        spread: Spread::Plain,
        ..SMALL
    };
    Job {
        policy,
        sizes: Sizes::NONE,
        config,
        tuning: Tuning::PUBLISHED,
    }
}

// A job that can be run over any trace.
pub(crate) fn online_job(policy: Policy, capacity: u32) -> Result<Job, Fail>
    requires { knows_trace policy ≡ false }
    ensures { (most : ℕ) → IfOk result (CanRun most) }
{
    let job = job(policy, capacity);
    match job.config.check() {
        Ok(()) => Ok(job),
        Err(_) => Err(Fail::from("refused")),
    }
}

// A job of each kind of policy, at two entries.
pub(crate) fn four_jobs() -> [Job; 4] {
    [
        job(Policy::Lru, 2),
        job(Policy::SegmentedLru, 2),
        job(Policy::WindowTinyLfu, 2),
        job(Policy::Clairvoyant, 2),
    ]
}

// The reports of these jobs over the accesses 1, 1, 2, 3, 1.
pub(crate) fn four_reports() -> [Report; 4] {
    [
        counted(Policy::Lru, 2, [5, 1, 4, 2, 0]),
        counted(Policy::SegmentedLru, 2, [5, 2, 3, 1, 0]),
        counted(Policy::WindowTinyLfu, 2, [5, 2, 3, 1, 1]),
        counted(Policy::Clairvoyant, 2, [5, 2, 3, 1, 0]),
    ]
}

// A report with these accesses, hits, misses, evictions and rejections.
pub(crate) fn counted(policy: Policy, capacity: u32, counts: [u64; 5]) -> Report {
    let [accesses, hits, misses, evictions, rejections] = counts;
    Report {
        policy,
        sizes: Sizes::NONE,
        capacity,
        accesses,
        hits,
        misses,
        evictions,
        rejections,
    }
}

// The report of Lru, at two entries, over so many accesses of one key.
pub(crate) fn one_key(accesses: u64) -> Report {
    let misses = accesses.min(1);
    counted(
        Policy::Lru,
        2,
        [accesses, accesses.wrapping_sub(misses), misses, 0, 0],
    )
}

// A test that gets no reports fails by the fault's name.
pub(crate) fn failed(fault: ActorFault) -> Fail {
    match fault {
        ActorFault::OutOfMemory => Fail::from("OutOfMemory"),
        _ => Fail::from("refused"),
    }
}
