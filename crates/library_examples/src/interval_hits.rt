//! A policy over the keys of a trace, and its hits by interval.
ghost use Rattle.std.specs.Prelude.{◌≡◌, ◌≤◌, Ok, IfOk, take, drop, count_by};
ghost use Rattle.engine_base.specs.Config.{config_fault};
ghost use Rattle.engine_base.specs.Stats.{is_hit};
ghost use Rattle.policies.specs.AnyPolicy.{outcomes_on};
ghost use Rattle.library_examples.specs.IntervalHits.{AreHitsByInterval};

use policies::{AnyPolicy, theorems};
use std::alloc::{AllocError, Global};
use step_record::{Job, Outcome, StepFault, Trace};

/// How many of each `every` accesses of the trace are hits of the job, in order; the last interval may be shorter.
///
/// The only error is that an allocation failed.
pub fn hits_by_interval(
    alloc: Global,
    job: &Job,
    trace: &Trace,
    every: usize,
) -> Result<Vec<u64>, AllocError>
    requires checked { config_fault job.now.config ≡ Ok tt }
    requires every { 1 ≤ every }
    ensures { IfOk result (λ hits. AreHitsByInterval every (outcomes_on job.now trace.now) hits.items) }
{
    let outcomes = outcomes(alloc, job, trace)?;
    let mut rest = outcomes.as_slice();
    let mut hits = Vec::new(alloc);
    while !rest.is_empty() {
        let (interval, later) = cut(rest, every);
        hits.push(count_hits(interval))?;
        rest = later;
    }
    Ok(hits)
}

/// The outcome of each access of the trace, in order: those that the definition of the job's policy gives.
///
/// The only error is that an allocation failed.
pub fn outcomes(alloc: Global, job: &Job, trace: &Trace) -> Result<Vec<Outcome>, AllocError>
    requires checked { config_fault job.now.config ≡ Ok tt }
    ensures { IfOk result (λ outcomes. outcomes.items ≡ outcomes_on job.now trace.now) }
{
    theorems::any_step_law();
    theorems::any_accepts();
    theorems::any_answers();
    theorems::any_covers_trace();
    trace.bounded();
    let keys = trace.keys();
    let mut cache = AnyPolicy::open(alloc, job, trace)?;
    let mut outcomes = Vec::new(alloc);
    for i in 0..keys.len() {
        match cache.access::<ByInterval>(keys[i]) {
            Ok(outcome) => outcomes.push(outcome)?,
            Err(StepFault::OutOfMemory) => return Err(AllocError),
            Err(StepFault::NotNow) => unreachable!(),
        }
    }
    Ok(outcomes)
}

// The caller of the accesses: each type has code of its own for them, which becomes part of its loop.
struct ByInterval;

// The first `every` of the outcomes, or all where there are fewer, and the others.
fn cut(outcomes: &[Outcome], every: usize) -> (&[Outcome], &[Outcome])
    ensures first { result.0.now ≡ take every outcomes.now }
    ensures later { result.1.now ≡ drop every outcomes.now }
{
    if outcomes.len() <= every {
        (outcomes, &[])
    } else {
        outcomes.split_at(every)
    }
}

fn count_hits(outcomes: &[Outcome]) -> u64
    ensures { result ≡ count_by is_hit outcomes.now }
{
    let mut hits = 0;
    for outcome in outcomes {
        if matches!(outcome, Outcome::Hit) {
            hits += 1;
        }
    }
    hits
}
