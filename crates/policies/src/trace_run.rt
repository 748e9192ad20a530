//! The accesses of a trace by a cache, and its report at their end.
ghost use Rattle.std.specs.Prelude.{◌≡◌, [], ℕ, List, take, drop, Ok, IfOk, IfSome, OnOk, OnErr};
ghost use Rattle.engine_base.specs.Config.{config_fault};
ghost use Rattle.policies.specs.AnyPolicy.{Job, HasAccessed};
ghost use Rattle.policies.specs.Accesses.{IsContinued, IsNext, IsStopped};
ghost use Rattle.policies.specs.Reports.{report_on};

use crate::access_loops::{access_all_adaptive, access_all_optimal, access_all_queues};
use crate::any_policy::AnyPolicy;
use crate::report::Report;
use crate::theorems;
use clairvoyant::NextUse;
use std::alloc::{AllocError, Global};
use step_record::{Gate, Job, Key, MAX_BATCH, Trace};

/// The report of a job over a trace, by a cache that makes its accesses in turn. It requires a configuration that
/// `Config::check` accepts. Belady's policy goes by the next uses, where there are some. The gate is called before and
/// after each batch of `MAX_BATCH` accesses, as worker 0, with the batch's number. The one error is out of memory.
pub fn report_over<G: Gate>(
    alloc: Global,
    trace: &Trace,
    uses: Option<&NextUse>,
    job: &Job,
    gate: &G,
) -> Result<Report, AllocError>
    requires checked { config_fault job.now.config ≡ Ok tt }
    requires uses { IfSome uses (λ u. u.now ≡ trace.now) }
    ensures { IfOk result (λ r. r ≡ report_on job.now trace.now) }
{
    let mut cache = open(alloc, trace, uses, job)?;
    let made = access_in_batches(&mut cache, trace.keys(), gate);
    let report = report_by(cache, job);
    made?;
    Ok(report)
}

/// Makes the accesses in turn, which are the next ones of a trace. The one error is out of memory: the cache has made those
/// before an access that may ask for memory, which none of Belady's policy does.
pub fn access_all(cache: &mut AnyPolicy, keys: &[Key]) -> Result<(), AllocError>
    requires { IsNext keys.now cache.old }
    ensures all { OnOk result (IsContinued keys.now cache.old cache.new) }
    ensures memory { OnErr result (IsStopped keys.now cache.old cache.new) }
{
    match cache {
        AnyPolicy::Queues(cache) => access_all_queues(cache, keys),
        AnyPolicy::Demand(cache) => cache.access_all(keys),
        AnyPolicy::Adaptive(cache) => access_all_adaptive(cache, keys),
        AnyPolicy::Optimal(cache) => access_all_optimal(cache, keys),
    }
}

/// The same, with the same error, in batches of `MAX_BATCH`. The gate is called before and after each, as worker 0, with
/// the batch's number.
pub fn access_in_batches<G: Gate>(
    cache: &mut AnyPolicy,
    keys: &[Key],
    gate: &G,
) -> Result<(), AllocError>
    requires { IsNext keys.now cache.old }
    ensures all { OnOk result (IsContinued keys.now cache.old cache.new) }
    ensures memory { OnErr result (IsStopped keys.now cache.old cache.new) }
{
    let size = MAX_BATCH as usize;
    let mut rest = keys;
    for number in 0..keys.len().div_ceil(size) {
        let (batch, later) = cut(rest, size);
        gate.before(0, number as u64);
        access_all(cache, batch)?;
        gate.after(0, number as u64);
        rest = later;
    }
    Ok(())
}

/// The report of a cache that ran its job over the whole trace, and is of no more use.
pub(crate) fn report_by(cache: AnyPolicy, job: &Job) -> Report
    ensures { (trace : List ℕ) → HasAccessed job.now trace trace cache → result ≡ report_on job.now trace }
{
    theorems::any_reports();
    Report::of(job, cache.stats())
}

// An empty cache for the job over the trace.
fn open(
    alloc: Global,
    trace: &Trace,
    uses: Option<&NextUse>,
    job: &Job,
) -> Result<AnyPolicy, AllocError>
    requires checked { config_fault job.now.config ≡ Ok tt }
    requires uses { IfSome uses (λ u. u.now ≡ trace.now) }
    ensures { IfOk result (λ cache. HasAccessed job.now trace.now [] cache) }
{
    match uses {
        Some(uses) => AnyPolicy::open_with(alloc, job, uses),
        None => AnyPolicy::open(alloc, job, trace),
    }
}

// The first keys of the rest, `size` where there are so many, and what is left.
fn cut(rest: &[Key], size: usize) -> (&[Key], &[Key])
    ensures front { result.0.now ≡ take size rest.now }
    ensures back { result.1.now ≡ drop size rest.now }
{
    if rest.len() <= size {
        (rest, &[])
    } else {
        rest.split_at(size)
    }
}
