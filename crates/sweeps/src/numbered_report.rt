//! The report of a job by a cache over the numbers of a trace's keys.
ghost use Rattle.std.specs.Prelude.{◌≡◌, ◌+◌, ◌≤◌, ℕ, List, Ok, IfOk, OnOk, length};
ghost use Rattle.engine_base.specs.Config.{config_fault};
ghost use Rattle.engine_base.specs.Machine.{state_after_all};
ghost use Rattle.engine_base.specs.declared.limits.TheConstants.{MAX_STEPS};
ghost use Rattle.demand_cache.specs.DemandCache.{demand_access};
ghost use Rattle.policies.specs.Design.{design_of};
ghost use Rattle.policies.specs.Reports.{report_on};
ghost use Rattle.trace_index.specs.TraceNumbers.{numbers_of};

use demand_cache::{DemandCache, DemandPolicy, theorems};
use policies::{Design, Report};
use std::alloc::{AllocError, Global};
use step_record::{Gate, Job, MAX_BATCH};
use trace_index::{Number, TraceNumbers};

/// The report of a job whose policy keeps each missed key, over the trace that the numbers are of: the policy ignores
/// what keys are called, and a cache over numbers is smaller. It requires a configuration that `Config::check` accepts.
/// The gate is called as by `policies::report_over`. The one error is out of memory.
pub(crate) fn report_by_numbers<G: Gate>(
    alloc: Global,
    numbers: &TraceNumbers,
    policy: DemandPolicy,
    job: &Job,
    gate: &G,
) -> Result<Report, AllocError>
    requires checked { config_fault job.now.config ≡ Ok tt }
    requires policy { design_of job.now ≡ Design.Demand policy }
    ensures { (trace : List ℕ) → numbers.now ≡ numbers_of trace → IfOk result (λ r. r ≡ report_on job.now trace) }
{
    theorems::demand_ignores_names();
    let mut cache = DemandCache::<Number>::new(alloc, policy, job.config.capacity);
    access_in_batches(&mut cache, numbers.as_slice(), gate)?;
    Ok(Report::of(job, cache.stats()))
}

// Makes the accesses in turn, in batches of `MAX_BATCH`. The gate is called before and after each, as worker 0, with the
// batch's number. The one error is out of memory.
fn access_in_batches<G: Gate>(
    cache: &mut DemandCache<Number>,
    numbers: &[Number],
    gate: &G,
) -> Result<(), AllocError>
    requires { cache.old.stats.accesses + length numbers.now ≤ MAX_STEPS }
    ensures { OnOk result (cache.new ≡ state_after_all demand_access cache.old numbers.now) }
{
    let size = MAX_BATCH as usize;
    let mut rest = numbers;
    for number in 0..numbers.len().div_ceil(size) {
        let (batch, later) = rest.split_at(size.min(rest.len()));
        gate.before(0, number as u64);
        cache.access_all(batch)?;
        gate.after(0, number as u64);
        rest = later;
    }
    Ok(())
}
