//! A trace with what its reports at several capacities go by.
ghost use Rattle.std.specs.Prelude.{◌≡◌, ◌<◌, ◌≤◌, ◌↔◌, Ok, IfOk, IfSome, IsSome, IsTrue};
ghost use Rattle.std.proofs.Props.{props};
ghost use Rattle.engine_base.specs.Config.{config_fault};
ghost use Rattle.policies.specs.Reports.{report_on};
ghost use Rattle.queue_cache.specs.Curve.{curve_of};
ghost use Rattle.sweeps.specs.Sweep.{AreAccepted, AsksFor, demand_jobs};
ghost use Rattle.trace_index.specs.TraceNumbers.{numbers_of};

use crate::numbered_report::report_by_numbers;
use clairvoyant::NextUse;
use policies::{Design, Report, design_of, report_over};
use queue_cache::{Curve, Reuses};
use std::alloc::{AllocError, Global};
use step_record::{Gate, Job, Policy, Trace};
use trace_index::TraceNumbers;

// From this number of capacities on, the reports of Lru are read off the curve of the trace. Finding the curve takes
// the processor as long as finding the reuses and passing over them at some seven capacities; but passes go side by
// side, so on four threads they are done first up to some 26.
const CURVE_FROM: usize = 16;

// From this number of reports on, those of policies that keep each missed key are made over the numbers of the trace's
// keys. Finding the numbers takes 20 to 40 nanoseconds an access, and each report then takes 10 to 20 less.
const NUMBERS_FROM: usize = 4;

/// A trace, with what several reports need, computed once: the next uses of its keys, for Lru the reuses or the curve,
/// and for the policies that keep each missed key the keys' numbers.
pub struct PreparedTrace<'a> {
    pub trace: &'a Trace,
    uses: Option<NextUse>,
    reuses: Option<Reuses<'a>>,
    curve: Option<Curve>,
    numbers: Option<TraceNumbers>,
    ghost known: { IfSome uses (λ u. u ≡ trace.now) } by { Prim.hlevel props },
    ghost noted: { IfSome reuses (λ r. r ≡ trace.now) } by { Prim.hlevel props },
    ghost found: { IfSome curve (λ c. c ≡ curve_of trace.now) } by { Prim.hlevel props },
    ghost numbered: { IfSome numbers (λ n. n ≡ numbers_of trace.now) } by { Prim.hlevel props },
}

impl Drop for PreparedTrace<'_> {
    fn drop(self) {
        let PreparedTrace {
            trace: _,
            uses: _,
            reuses: _,
            curve: _,
            numbers: _,
        } = self;
    }
}

impl<'a> PreparedTrace<'a> {
    /// The trace, with what the jobs need, which are some at each of so many capacities. It requires configurations
    /// that `Config::check` accepts.
    pub fn of(
        alloc: Global,
        trace: &'a Trace,
        jobs: &[Job],
        capacities: usize,
    ) -> Result<PreparedTrace<'a>, AllocError>
        requires { AreAccepted jobs.now }
        ensures trace { IfOk result (λ p. p.trace.now ≡ trace.now) }
        ensures uses { IfOk result (λ p. IsSome p.uses ↔ AsksFor Policy.Clairvoyant jobs.now) }
        ensures reuses { IfOk result (λ p. IsSome p.reuses
            ↔ (capacities < CURVE_FROM × AsksFor Policy.Lru jobs.now)) }
        ensures curve { IfOk result (λ p. IsSome p.curve
            ↔ (CURVE_FROM ≤ capacities × AsksFor Policy.Lru jobs.now)) }
        ensures numbers { IfOk result (λ p. IsSome p.numbers ↔ NUMBERS_FROM ≤ demand_jobs jobs.now) }
    {
        let uses = next_uses(alloc, trace, jobs)?;
        let reuses = reuses(alloc, trace, jobs, capacities)?;
        let curve = curve(alloc, trace, jobs, capacities)?;
        let numbers = numbers(alloc, trace, jobs)?;
        Ok(PreparedTrace {
            trace,
            uses,
            reuses,
            curve,
            numbers,
        })
    }

    /// The report of a job, whose configuration `Config::check` accepts. The gate is called before and after each
    /// batch of `MAX_BATCH` accesses, unless the report is made from the reuses or the curve. The one error is out of
    /// memory.
    pub fn report<G: Gate>(&self, alloc: Global, job: &Job, gate: &G) -> Result<Report, AllocError>
        requires { config_fault job.now.config ≡ Ok tt }
        ensures { IfOk result (λ r. r ≡ report_on job.now self.now.trace.now) }
    {
        if job.policy == Policy::Lru {
            if let Some(curve) = &self.curve {
                return Ok(Report::of(job, curve.stats(job.config.capacity)));
            }
            if let Some(reuses) = &self.reuses {
                return Ok(Report::of(job, reuses.stats(alloc, job.config.capacity)?));
            }
        }
        if let Some(numbers) = &self.numbers {
            if let Design::Demand(policy) = design_of(job) {
                return report_by_numbers(alloc, numbers, policy, job, gate);
            }
        }
        report_over(alloc, self.trace, self.uses.as_ref(), job, gate)
    }
}

// The next uses of the trace, where a job's policy goes by them.
fn next_uses(alloc: Global, trace: &Trace, jobs: &[Job]) -> Result<Option<NextUse>, AllocError>
    ensures uses { IfOk result (λ uses. IfSome uses (λ u. u ≡ trace.now)) }
    ensures asked { IfOk result (λ uses. IsSome uses ↔ AsksFor Policy.Clairvoyant jobs.now) }
{
    if !any_is_of(jobs, Policy::Clairvoyant) {
        return Ok(None);
    }
    let uses = NextUse::build(alloc, trace)?;
    Ok(Some(uses))
}

// The reuses of the trace, where the reports of a job are to be made from them.
fn reuses<'a>(
    alloc: Global,
    trace: &'a Trace,
    jobs: &[Job],
    capacities: usize,
) -> Result<Option<Reuses<'a>>, AllocError>
    ensures reuses { IfOk result (λ reuses. IfSome reuses (λ r. r ≡ trace.now)) }
    ensures asked { IfOk result (λ reuses. IsSome reuses
        ↔ (capacities < CURVE_FROM × AsksFor Policy.Lru jobs.now)) }
{
    if capacities < CURVE_FROM && any_is_of(jobs, Policy::Lru) {
        let reuses = Reuses::of_trace(alloc, trace)?;
        return Ok(Some(reuses));
    }
    Ok(None)
}

// The curve of the trace, where the reports of a job are to be read off it.
fn curve(
    alloc: Global,
    trace: &Trace,
    jobs: &[Job],
    capacities: usize,
) -> Result<Option<Curve>, AllocError>
    ensures curve { IfOk result (λ curve. IfSome curve (λ c. c ≡ curve_of trace.now)) }
    ensures asked { IfOk result (λ curve. IsSome curve
        ↔ (CURVE_FROM ≤ capacities × AsksFor Policy.Lru jobs.now)) }
{
    if capacities >= CURVE_FROM && any_is_of(jobs, Policy::Lru) {
        let curve = Curve::of_trace(alloc, trace)?;
        return Ok(Some(curve));
    }
    Ok(None)
}

// The numbers of the trace's keys, where there are enough jobs whose reports are to be made over them.
fn numbers(alloc: Global, trace: &Trace, jobs: &[Job]) -> Result<Option<TraceNumbers>, AllocError>
    requires { AreAccepted jobs.now }
    ensures numbers { IfOk result (λ numbers. IfSome numbers (λ n. n ≡ numbers_of trace.now)) }
    ensures enough { IfOk result (λ numbers. IsSome numbers ↔ NUMBERS_FROM ≤ demand_jobs jobs.now) }
{
    if demand_jobs(jobs) < NUMBERS_FROM {
        return Ok(None);
    }
    let numbers = TraceNumbers::of(alloc, trace)?;
    Ok(Some(numbers))
}

// How many of the jobs are of policies that keep each missed key.
fn demand_jobs(jobs: &[Job]) -> usize
    requires { AreAccepted jobs.now }
    ensures { result ≡ demand_jobs jobs.now }
{
    let mut count = 0;
    for job in jobs {
        if let Design::Demand(_) = design_of(job) {
            count += 1;
        }
    }
    count
}

// Whether one of the jobs is of the policy.
fn any_is_of(jobs: &[Job], policy: Policy) -> bool
    ensures { IsTrue result ↔ AsksFor policy jobs.now }
{
    jobs.iter().any(|job| job.policy == policy)
}
