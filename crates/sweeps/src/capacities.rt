//! Jobs at several capacities.
ghost use Rattle.std.specs.Prelude.{◌≡◌, ◌++◌, ◌-◌, ◌^◌, None, Ok, IfOk, OnOk, length, map, min};
ghost use Rattle.engine_base.specs.Config.{config_fault};
ghost use Rattle.policies.specs.FaultyJobs.{at_capacity, faulty_in, ReturnsFault};
ghost use Rattle.policies.specs.Reports.{report_on};
ghost use Rattle.sweeps.specs.Sweep.{first_config_fault, gated_batches, is_gated_policy, jobs_over, sweep_fault};

use crate::prepared_trace::PreparedTrace;
use crate::side_by_side::made_by_each;
use policies::{ActorFault, MAX_ACTORS, Report, check_capacities, with_capacity};
use std::alloc::{AllocError, Global};
use std::thread::Threads;
use step_record::{Gate, Job, MAX_BATCH, OpenGate, Policy, Trace};

/// The reports of the job at each capacity, in the order of the capacities; `rayon` runs them side by side where there
/// are threads. The next uses that Belady's policy goes by are found once.
///
/// Errors: `Config` with the index of the first capacity with which `Config::check` refuses the configuration, and
/// `OutOfMemory`.
pub fn sweep<R: Threads + Sync>(
    rt: &R,
    alloc: Global,
    trace: &Trace,
    job: &Job,
    capacities: &[u32],
) -> Result<Vec<Report>, ActorFault>
    ensures reports { IfOk result (λ v.
        v.items ≡ map (λ c. report_on (at_capacity job.now c) trace.now) capacities.now) }
    ensures fault { ReturnsFault (faulty_in (map (at_capacity job.now) capacities.now)) result }
{
    sweep_each(rt, alloc, trace, &[*job], capacities, &OpenGate)
}

/// The reports of each job at each capacity: those of the first job in the order of the capacities, then those of the
/// second, and so on. `rayon` runs them side by side where there are threads. What several reports need is computed
/// once: the next uses for Belady's policy, for Lru the reuses of the trace, or for many capacities its curve, and for the
/// policies that keep each missed key, where there are several reports of them, numbers in place of the keys.
///
/// The gate is called before and after each batch of `MAX_BATCH` accesses of a report of another policy than Lru, on
/// the thread that makes them, as worker 0, with the batch's number.
///
/// Errors: `Actors` for more than `MAX_ACTORS` jobs, `Config` with the index of the first capacity with which
/// `Config::check` refuses the configuration of a job and of none before it, and `OutOfMemory`.
pub fn sweep_each<R: Threads + Sync, G: Gate>(
    rt: &R,
    alloc: Global,
    trace: &Trace,
    jobs: &[Job],
    capacities: &[u32],
    gate: &G,
) -> Result<Vec<Report>, ActorFault>
    ensures reports { IfOk result (λ v.
        v.items ≡ map (λ j. report_on j trace.now) (jobs_over jobs.now capacities.now)) }
    ensures fault { ReturnsFault (sweep_fault jobs.now capacities.now) result }
{
    if jobs.len() > MAX_ACTORS {
        return Err(ActorFault::Actors);
    }
    for job in jobs {
        check_capacities(job, capacities)?;
    }
    let reports = reports(rt, alloc, trace, jobs, capacities, gate)?;
    Ok(reports)
}

/// Each of the jobs at each of the capacities, in the order of their reports in `sweep_each`. The one error is out of
/// memory.
pub fn jobs_over(alloc: Global, jobs: &[Job], capacities: &[u32]) -> Result<Vec<Job>, AllocError>
    ensures { IfOk result (λ rows. rows.items ≡ jobs_over jobs.now capacities.now) }
{
    let mut rows = Vec::new(alloc);
    for job in jobs {
        add_rows(&mut rows, job, capacities)?;
    }
    Ok(rows)
}

/// For how many batches in all `sweep_each` calls its gate, over the same trace, jobs and capacities; 2^64 - 1 for
/// more.
pub fn sweep_batches(trace: &Trace, jobs: &[Job], capacities: &[u32]) -> u64
    ensures { result ≡ min (gated_batches jobs.now (length capacities.now) (length trace.now)) (2 ^ 64 - 1) }
{
    let each = trace.len().div_ceil(MAX_BATCH as usize);
    let mut gated = 0usize;
    for job in jobs {
        if is_gated(job.policy) {
            gated += 1;
        }
    }
    gated.saturating_mul(capacities.len()).saturating_mul(each) as u64
}

// Whether the gate is called for the batches of a report of the policy.
fn is_gated(policy: Policy) -> bool
    ensures { result ≡ is_gated_policy policy }
{
    match policy {
        Policy::Lru => false,
        _ => true,
    }
}

// The reports of jobs none of which is faulty at the capacities. The one error is out of memory.
fn reports<R: Threads + Sync, G: Gate>(
    rt: &R,
    alloc: Global,
    trace: &Trace,
    jobs: &[Job],
    capacities: &[u32],
    gate: &G,
) -> Result<Vec<Report>, AllocError>
    requires { first_config_fault jobs.now capacities.now ≡ None }
    ensures { IfOk result (λ v.
        v.items ≡ map (λ j. report_on j trace.now) (jobs_over jobs.now capacities.now)) }
{
    let rows = jobs_over(alloc, jobs, capacities)?;
    let rows = rows.as_slice();
    let prepared = PreparedTrace::of(alloc, trace, rows, capacities.len())?;
    let prepared = &prepared;
    made_by_each(
        rt,
        alloc,
        rows,
        |job: &Job| -> Result<Report, AllocError>
            requires { config_fault job.now.config ≡ Ok tt }
            ensures { IfOk result (λ r. r ≡ report_on job.now prepared.entry.now.trace.now) }
        { prepared.report(alloc, job, gate) },
    )
}

// Adds the job at each of the capacities.
fn add_rows(rows: &mut Vec<Job>, job: &Job, capacities: &[u32]) -> Result<(), AllocError>
    ensures { OnOk result (rows.new.items ≡ rows.old.items ++ map (at_capacity job.now) capacities.now) }
{
    for capacity in capacities {
        rows.push(with_capacity(job, *capacity))?;
    }
    Ok(())
}
