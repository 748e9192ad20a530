//! A job's run over a trace whose accesses come in batches.
ghost use Rattle.std.specs.Prelude.{◌≡◌, ◌++◌, [], ℕ, List, Ok, All, IfOk, IfSome, IsSome, OnOk, OnErr};
ghost use Rattle.engine_base.specs.Config.{config_fault};
ghost use Rattle.demand_cache.specs.DemandCache.{DemandState};
ghost use Rattle.demand_cache.specs.declared.demand_policy.DemandPolicy.{DemandPolicy};
ghost use Rattle.demand_cache.specs.NarrowKeys.{IsNarrow};
ghost use Rattle.policies.specs.AnyPolicy.{Job, HasAccessed};
ghost use Rattle.policies.specs.Accesses.{AnyPolicy, IsContinued, IsNext, IsStopped};
ghost use Rattle.policies.specs.CacheRun.{CanTake, HasTaken};
ghost use Rattle.policies.specs.Design.{design_of};
ghost use Rattle.policies.specs.Reports.{report_on};

use crate::any_policy::AnyPolicy;
use crate::design::{Design, design_of};
use crate::report::Report;
use crate::theorems;
use crate::trace_run::{access_all, report_by};
use clairvoyant::{NextUse, NextUseFinder};
use demand_cache::NarrowCache;
use std::alloc::{AllocError, Global};
use std::mem;
use step_record::{Job, Key, StepFault};

/// What takes the accesses of a trace, batch by batch, for the report of a job.
///
/// Belady's policy goes by the whole trace: a run of it notes the accesses as they come, and makes them all at the end,
/// once their next uses are found. A policy that keeps each missed key begins with a cache of half the bytes, which serves
/// until a key comes that is 2^32 or more.
pub enum CacheRun {
    /// A cache, which makes the accesses as they come.
    Cache(AnyPolicy),
    /// A cache of a policy that keeps each missed key, all of whose keys were below 2^32.
    Narrow(NarrowCache),
    /// The next uses of the accesses, which are made once all are there.
    NextUses(NextUseFinder),
    /// Nothing: there was no memory for the accesses.
    OutOfMemory,
}

impl Drop for CacheRun {
    fn drop(self) {
        match self {
            CacheRun::Cache(_) => {}
            CacheRun::Narrow(_) => {}
            CacheRun::NextUses(_) => {}
            CacheRun::OutOfMemory => {}
        }
    }
}

impl CacheRun {
    /// A run of a job, before the first access. It requires a configuration that `Config::check` accepts.
    pub fn open(alloc: Global, job: &Job) -> CacheRun
        requires checked { config_fault job.now.config ≡ Ok tt }
        ensures taken { (trace : List ℕ) → HasTaken job.now trace [] result }
        // That of a policy that keeps each missed key asks for no memory.
        ensures narrow { (p : DemandPolicy) → design_of job.now ≡ Design.Demand p → (d : DemandState) × (result ≡ CacheRun.Narrow d) }
    {
        match design_of(job) {
            Design::KnowsTrace => CacheRun::NextUses(NextUseFinder::new(alloc)),
            Design::Demand(policy) => {
                CacheRun::Narrow(NarrowCache::new(alloc, policy, job.config.capacity))
            }
            _ => match AnyPolicy::open_online(alloc, job) {
                Ok(Some(cache)) => CacheRun::Cache(cache),
                _ => CacheRun::OutOfMemory,
            },
        }
    }

    /// Takes the next accesses, or none from now on where there is no memory for them.
    pub fn take(&mut self, keys: &[Key])
        requires { CanTake keys.now self.old }
        ensures taken { (j : Job) (trace done : List ℕ) → HasTaken j trace done self.old
            → HasTaken j trace (done ++ keys.now) self.new }
        // A run that has a cache is out of memory only at an access that may ask for some, or at a key that is the first of
        // 2^32 or more.
        ensures memory { (d : AnyPolicy) → self.old ≡ CacheRun.Cache d → self.new ≡ CacheRun.OutOfMemory
            → (e : AnyPolicy) × IsStopped keys.now d e }
        ensures narrow { (d : DemandState) → self.old ≡ CacheRun.Narrow d → self.new ≡ CacheRun.OutOfMemory
            → All IsNarrow keys.now → (e : AnyPolicy) × IsStopped keys.now (AnyPolicy.Demand d) e }
    {
        let taken = match self {
            CacheRun::Narrow(cache) => match cache.access_narrow(keys) {
                Ok(made) => return self.take_left(&keys[made..]),
                Err(fault) => Err(fault),
            },
            CacheRun::Cache(cache) => access_all(cache, keys),
            CacheRun::NextUses(finder) => finder.take(keys),
            CacheRun::OutOfMemory => return,
        };
        if taken.is_err() {
            *self = CacheRun::OutOfMemory;
        }
    }

    // Takes the keys that a cache of keys below 2^32 left, by one of keys of any width.
    fn take_left(&mut self, keys: &[Key])
        requires narrow { (d : DemandState) × (self.old ≡ CacheRun.Narrow d) }
        requires next { CanTake keys.now self.old }
        ensures taken { (j : Job) (trace done : List ℕ) → HasTaken j trace done self.old
            → HasTaken j trace (done ++ keys.now) self.new }
        ensures none { keys.now ≡ [] → self.new ≡ self.old }
    {
        if keys.is_empty() {
            return;
        }
        *self = mem::replace(self, CacheRun::OutOfMemory).widened(keys);
    }

    // The run that has taken these keys, of any width, by the cache of one over keys below 2^32.
    fn widened(self, keys: &[Key]) -> CacheRun
        requires narrow { (d : DemandState) × (self ≡ CacheRun.Narrow d) }
        requires next { CanTake keys.now self }
        ensures { (j : Job) (trace done : List ℕ) → HasTaken j trace done self
            → HasTaken j trace (done ++ keys.now) result }
    {
        let CacheRun::Narrow(cache) = self else {
            unreachable!()
        };
        let Ok(cache) = cache.widened() else {
            return CacheRun::OutOfMemory;
        };
        let mut cache = AnyPolicy::Demand(cache);
        match access_all(&mut cache, keys) {
            Ok(()) => CacheRun::Cache(cache),
            Err(_) => CacheRun::OutOfMemory,
        }
    }

    /// The report of the job once all accesses were taken; `None` where there was no memory.
    pub fn finish(self, alloc: Global, job: &Job) -> Option<Report>
        requires { config_fault job.now.config ≡ Ok tt }
        ensures report { (trace : List ℕ) → HasTaken job.now trace trace self
            → IfSome result (λ r. r ≡ report_on job.now trace) }
        // A run that has a cache has a report.
        ensures some { (d : AnyPolicy) → self ≡ CacheRun.Cache d → IsSome result }
        ensures narrow { (d : DemandState) → self ≡ CacheRun.Narrow d → IsSome result }
    {
        match self {
            CacheRun::Cache(cache) => Some(report_by(cache, job)),
            CacheRun::Narrow(cache) => Some(report_by_narrow(cache, job)),
            CacheRun::NextUses(finder) => report_over_uses(alloc, finder, job).ok(),
            CacheRun::OutOfMemory => None,
        }
    }
}

// The report of a cache that ran its job over the whole trace, whose keys are below 2^32.
fn report_by_narrow(cache: NarrowCache, job: &Job) -> Report
    ensures { (trace : List ℕ) → HasAccessed job.now trace trace (AnyPolicy.Demand cache) → result ≡ report_on job.now trace }
{
    theorems::any_reports();
    Report::of(job, cache.stats())
}

// The report of a job over a trace whose next uses were found: all accesses are made now.
fn report_over_uses(alloc: Global, finder: NextUseFinder, job: &Job) -> Result<Report, AllocError>
    requires { config_fault job.now.config ≡ Ok tt }
    ensures { IfOk result (λ r. r ≡ report_on job.now finder) }
{
    let uses = finder.finish(alloc)?;
    uses.bounded();
    let mut cache = AnyPolicy::open_with(alloc, job, &uses)?;
    access_all_uses(&mut cache, &uses)?;
    Ok(report_by(cache, job))
}

// Makes all accesses of the trace that the next uses are of, in turn. The one error is out of memory.
fn access_all_uses(cache: &mut AnyPolicy, uses: &NextUse) -> Result<(), AllocError>
    requires { IsNext uses.now cache.old }
    ensures all { OnOk result (IsContinued uses.now cache.old cache.new) }
    ensures memory { OnErr result (IsStopped uses.now cache.old cache.new) }
{
    theorems::any_step_law();
    theorems::any_accepts();
    for i in 0..uses.len() {
        match cache.access::<UsesLoop>(uses.key(i)) {
            Ok(_) => {}
            Err(StepFault::OutOfMemory) => return Err(AllocError),
            Err(StepFault::NotNow) => unreachable!(),
        }
    }
    Ok(())
}

// Selects the instance of an access that `access_all_uses` has in its loop.
struct UsesLoop;
