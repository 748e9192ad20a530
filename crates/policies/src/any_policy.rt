//! All policies as one engine.
ghost use Rattle.std.specs.Prelude.{◌≡◌, ◌≤◌, ◌↔◌, ℕ, List, MatchOption, IfOk, OnErr};
ghost use Rattle.std.specs.Prelude.{Ok, Err, Some, None, [], option_map, length, true};
ghost use Rattle.demand_cache.specs.DemandCache.{demand_act, demand_may_ask};
ghost use Rattle.segments.specs.KeyRow.{left_key, row_left};

use crate::design::{Design, design_of};
use admission::Frequency;
use clairvoyant::{Clairvoyant, NextUse, OptimalRecord};
use demand_cache::{DemandCache, DemandRecord};
use queue_cache::{AccessRecord, AdaptiveCache, AdaptiveRecord, AnyDesign, QueueCache};
use segments::NamedQueue;
use std::alloc::{AllocError, Global};
use step_record::{Engine, Job, Key, Outcome, Stats, StepFault, Trace};

/// A cache of any policy.
pub enum AnyPolicy {
    /// A policy of queues.
    Queues(QueueCache),
    /// Belady's optimal policy.
    Optimal(Clairvoyant),
    /// A policy that keeps each missed key, in a cache of its own.
    Demand(DemandCache),
    /// W-TinyLFU with a window whose size follows the hits.
    Adaptive(AdaptiveCache),
}

impl Drop for AnyPolicy {
    fn drop(self) {
        match self {
            AnyPolicy::Queues(_) => {}
            AnyPolicy::Optimal(_) => {}
            AnyPolicy::Demand(_) => {}
            AnyPolicy::Adaptive(_) => {}
        }
    }
}

/// The undo record of an access to a cache of any policy.
#[derive(Drop)]
pub enum AnyRecord {
    /// Of a policy of queues.
    Queues(AccessRecord),
    /// Of Belady's optimal policy.
    Optimal(OptimalRecord),
    /// Of a policy that keeps each missed key.
    Demand(DemandRecord),
    /// Of W-TinyLFU with a window whose size follows the hits.
    Adaptive(AdaptiveRecord),
}

impl AnyPolicy {
    ghost use Rattle.engine_base.specs.Config.{config_fault};
    ghost use Rattle.policies.specs.AnyPolicy.{HasAccessed, stats_in, any_residents, any_queues, estimate_in, frequency_in};
    ghost use Rattle.policies.specs.Design.{design_of};
    ghost use Rattle.policies.specs.AnyStep.{any_act, MayAllocate};
    ghost use Rattle.policies.specs.Accesses.{CanAnswer};

    /// An empty cache for a job over a trace. It requires a configuration that `Config::check` accepts. The one error
    /// is that an allocation failed.
    pub fn open(alloc: Global, job: &Job, trace: &Trace) -> Result<AnyPolicy, AllocError>
        requires { config_fault job.now.config ≡ Ok tt }
        ensures stands { IfOk result (λ p. HasAccessed job.now trace.now [] p) }
        ensures fresh { IfOk result (λ p. (stats_in p).accesses ≡ 0) }
    {
        if let Some(cache) = AnyPolicy::open_online(alloc, job)? {
            return Ok(cache);
        }
        let uses = NextUse::build(alloc, trace)?;
        let cache = Clairvoyant::open(alloc, uses, job.config.capacity)?;
        Ok(AnyPolicy::Optimal(cache))
    }

    /// An empty cache for a job over the trace that these next uses are of: several caches can share them. The
    /// policies other than Belady's have no need of them. It requires a configuration that `Config::check` accepts.
    /// The one error is that an allocation failed.
    pub fn open_with(alloc: Global, job: &Job, uses: &NextUse) -> Result<AnyPolicy, AllocError>
        requires { config_fault job.now.config ≡ Ok tt }
        ensures stands { IfOk result (λ p. HasAccessed job.now uses.now [] p) }
        ensures fresh { IfOk result (λ p. (stats_in p).accesses ≡ 0) }
    {
        if let Some(cache) = AnyPolicy::open_online(alloc, job)? {
            return Ok(cache);
        }
        let cache = Clairvoyant::open(alloc, uses.share()?, job.config.capacity)?;
        Ok(AnyPolicy::Optimal(cache))
    }

    // An empty cache for a job, but where its policy is the optimal one.
    #[tactic(auto, using(crate::proofs::Machines::queues_opened))]
    pub(crate) fn open_online(alloc: Global, job: &Job) -> Result<Option<AnyPolicy>, AllocError>
        requires { config_fault job.now.config ≡ Ok tt }
        ensures stands { IfOk result (λ r. MatchOption r (design_of job.now ≡ Design.KnowsTrace)
            (λ p. ((trace : List ℕ) → HasAccessed job.now trace [] p) × ((stats_in p).accesses ≡ 0))) }
    {
        match design_of(job) {
            Design::KnowsTrace => Ok(None),
            Design::Queues(design) => {
                let cache = QueueCache::with_design(alloc, design, &job.config)?;
                Ok(Some(AnyPolicy::Queues(cache)))
            }
            Design::Demand(policy) => {
                let cache = DemandCache::new(alloc, policy, job.config.capacity);
                Ok(Some(AnyPolicy::Demand(cache)))
            }
            Design::Adaptive => {
                let cache = AdaptiveCache::new(alloc, &job.config, job.tuning.period)?;
                Ok(Some(AnyPolicy::Adaptive(cache)))
            }
        }
    }

    /// Reads ahead, for each few keys, what accesses to them read first, from the key at `i` on: to be called before
    /// each access of a loop over them. It changes nothing.
    #[inline(always)]
    pub fn prefetch_at(&mut self, keys: &[Key], i: usize)
        requires { i ≤ length keys.now }
        ensures { self.new ≡ self.old }
    {
        match self {
            AnyPolicy::Queues(cache) => cache.prefetch_at(keys, i),
            AnyPolicy::Demand(cache) => cache.prefetch_at(keys, i),
            AnyPolicy::Adaptive(cache) => cache.prefetch_at(keys, i),
            AnyPolicy::Optimal(_) => {}
        }
    }

    /// Makes an access that is not to be undone: that of `apply`, without its undo record.
    ///
    /// Errors: `NotNow` exactly where `apply` gives it, and `OutOfMemory`, which the optimal policy never gives; each
    /// leaves the cache as it was.
    ///
    /// `C` selects an instance (docs/ARCHITECTURE.md).
    #[inline(always)]
    pub fn access<C>(&mut self, key: Key) -> Result<Outcome, StepFault>
        ensures accepted { IfOk result (λ o. any_act self.old key ≡ Some (o, self.new)) }
        ensures not_now { result ≡ Err StepFault.NotNow ↔ any_act self.old key ≡ None }
        ensures err { OnErr result (self.new ≡ self.old) }
        // Of a resident key only an access that brings a halving is out of memory, and the optimal policy never.
        ensures memory { result ≡ Err StepFault.OutOfMemory → MayAllocate self.old key }
    {
        match self {
            AnyPolicy::Queues(cache) => cache.access::<C>(key),
            AnyPolicy::Optimal(cache) => match cache.apply(&key) {
                Ok((outcome, _)) => Ok(outcome),
                Err(fault) => Err(fault),
            },
            AnyPolicy::Demand(cache) => access_apart::<C>(cache, key),
            AnyPolicy::Adaptive(cache) => cache.access::<C>(key),
        }
    }

    /// What was counted of the applied accesses.
    pub fn stats(&self) -> Stats
        ensures { result ≡ stats_in self.now }
    {
        match self {
            AnyPolicy::Queues(cache) => cache.stats(),
            AnyPolicy::Optimal(cache) => cache.stats(),
            AnyPolicy::Demand(cache) => cache.stats(),
            AnyPolicy::Adaptive(cache) => cache.stats(),
        }
    }

    /// How often keys came, where the policy counts them.
    pub fn frequency(&self) -> Option<&Frequency>
        ensures { option_map (λ f. f.now) result ≡ frequency_in self.now }
    {
        match self {
            AnyPolicy::Queues(cache) => cache.frequency(),
            AnyPolicy::Adaptive(cache) => Some(cache.frequency()),
            AnyPolicy::Optimal(_) | AnyPolicy::Demand(_) => None,
        }
    }

    /// What its admission filter takes as a key's frequency, where it has one.
    pub fn estimate(&self, key: Key) -> Option<u8>
        ensures { result ≡ estimate_in key self.now }
    {
        match self {
            AnyPolicy::Queues(cache) => match cache.frequency() {
                Some(frequency) => Some(frequency.estimate(key)),
                None => None,
            },
            AnyPolicy::Adaptive(cache) => Some(cache.frequency().least(key)),
            AnyPolicy::Optimal(_) | AnyPolicy::Demand(_) => None,
        }
    }

    /// The keys that it holds: of a policy of queues, and of the adaptive window, those of the window, of probation and
    /// of protected in that order, oldest first; of the optimal policy in ascending order; of the others queue by queue,
    /// oldest first. The one error is that an allocation failed.
    pub fn residents(&self, alloc: Global) -> Result<Vec<Key>, AllocError>
        ensures { IfOk result (λ keys. keys.items ≡ any_residents self.now) }
    {
        match self {
            AnyPolicy::Queues(cache) => cache.residents(alloc),
            AnyPolicy::Optimal(cache) => cache.residents(alloc),
            AnyPolicy::Demand(cache) => cache.residents(alloc),
            AnyPolicy::Adaptive(cache) => cache.residents(alloc),
        }
    }

    /// Its queues under their names, with the keys, oldest first, each with the number that the policy keeps beside it; of
    /// the optimal policy its keys, ascending, each with its next access. The one error is that an allocation failed.
    pub fn named_queues(&self, alloc: Global) -> Result<Vec<NamedQueue>, AllocError>
        ensures { IfOk result (λ named. named.items ≡ any_queues self.now) }
    {
        match self {
            AnyPolicy::Queues(cache) => cache.named_queues(alloc),
            AnyPolicy::Optimal(cache) => cache.named_queues(alloc),
            AnyPolicy::Demand(cache) => cache.named_queues(alloc),
            AnyPolicy::Adaptive(cache) => cache.named_queues(alloc),
        }
    }

    /// The number of the queue, in the order of `named_queues`, from which a key leaves by an access of this outcome, where
    /// the next access may have it. A rejected key leaves none where it did not stand in a queue before.
    pub fn row_left(&self, outcome: Outcome) -> Option<usize>
        ensures { CanAnswer outcome self.now → result ≡ row_left outcome (any_queues self.now) }
    {
        let key = left_key(outcome)?;
        match self {
            AnyPolicy::Queues(cache) => cache.row_of(key),
            AnyPolicy::Optimal(_) => optimal_row(outcome),
            AnyPolicy::Demand(cache) => cache.row_of(key),
            AnyPolicy::Adaptive(cache) => cache.row_of(key),
        }
    }
}

// The key that leaves.
fn left_key(outcome: Outcome) -> Option<Key>
    ensures { result ≡ left_key outcome }
{
    match outcome {
        Outcome::Evicted(key) | Outcome::Rejected(key) => Some(key),
        Outcome::Hit | Outcome::Kept => None,
    }
}

// Of the optimal policy, whose one queue has each resident key: it rejects the accessed key alone.
fn optimal_row(outcome: Outcome) -> Option<usize>
    ensures evicted { (key : ℕ) → outcome ≡ Outcome.Evicted key → result ≡ Some 0 }
    ensures rejected { (key : ℕ) → outcome ≡ Outcome.Rejected key → result ≡ None }
{
    match outcome {
        Outcome::Evicted(_) => Some(0),
        Outcome::Rejected(_) | Outcome::Hit | Outcome::Kept => None,
    }
}

// An access of a policy that keeps each missed key, out of line: it is long, and a loop of the optimal policy would lose
// its registers to it.
#[inline(never)]
fn access_apart<C>(cache: &mut DemandCache, key: Key) -> Result<Outcome, StepFault>
    ensures accepted { IfOk result (λ o. demand_act cache.old key ≡ Some (o, cache.new)) }
    ensures not_now { result ≡ Err StepFault.NotNow ↔ demand_act cache.old key ≡ None }
    ensures memory { result ≡ Err StepFault.OutOfMemory → demand_may_ask cache.old key }
    ensures err { OnErr result (cache.new ≡ cache.old) }
{
    cache.access::<C>(key)
}

impl Engine for AnyPolicy {
    ghost use Rattle.policies.specs.AnyStep.{any_act, any_record_of, MayAllocate, any_undone, any_asks, AnyFits};
    ghost use Rattle.policies.specs.AnyStep.{any_words, any_pace};
    ghost use Rattle.policies.specs.AnyCounts.{any_count, any_counts, any_ends, any_paced};

    type Step = Key;

    type Reply = Outcome;

    type Record = AnyRecord;

    type Data = AnyPolicy;

    ghost seen = { λ p. p };

    ghost act = { any_act };

    ghost record_of = { any_record_of };

    // The optimal policy is never out of memory.
    ghost may_ask = { MayAllocate };

    ghost fits = { AnyFits };

    ghost undone = { any_undone };

    ghost asks = { any_asks };

    ghost count = { any_count };

    ghost words_of = { any_words };

    ghost pace = { any_pace };

    #[inline(always)]
    fn apply(&mut self, step: &Key) -> Result<(Outcome, AnyRecord), StepFault> {
        match self {
            AnyPolicy::Queues(cache) => match cache.apply(step) {
                Ok((outcome, done)) => Ok((outcome, AnyRecord::Queues(done))),
                Err(fault) => Err(fault),
            },
            AnyPolicy::Optimal(cache) => match cache.apply(step) {
                Ok((outcome, done)) => Ok((outcome, AnyRecord::Optimal(done))),
                Err(fault) => Err(fault),
            },
            AnyPolicy::Demand(cache) => match cache.apply(step) {
                Ok((outcome, done)) => Ok((outcome, AnyRecord::Demand(done))),
                Err(fault) => Err(fault),
            },
            AnyPolicy::Adaptive(cache) => match cache.apply(step) {
                Ok((outcome, done)) => Ok((outcome, AnyRecord::Adaptive(done))),
                Err(fault) => Err(fault),
            },
        }
    }

    fn undo(&mut self, done: AnyRecord) -> Result<(), AnyRecord> {
        match self {
            AnyPolicy::Queues(cache) => match done {
                AnyRecord::Queues(done) => cache.undo(done).map_err(AnyRecord::Queues),
                AnyRecord::Optimal(_) | AnyRecord::Demand(_) | AnyRecord::Adaptive(_) =>
                    unreachable!(),
            },
            AnyPolicy::Optimal(cache) => match done {
                AnyRecord::Optimal(done) => cache.undo(done).map_err(AnyRecord::Optimal),
                AnyRecord::Queues(_) | AnyRecord::Demand(_) | AnyRecord::Adaptive(_) =>
                    unreachable!(),
            },
            AnyPolicy::Demand(cache) => match done {
                AnyRecord::Demand(done) => cache.undo(done).map_err(AnyRecord::Demand),
                AnyRecord::Queues(_) | AnyRecord::Optimal(_) | AnyRecord::Adaptive(_) =>
                    unreachable!(),
            },
            AnyPolicy::Adaptive(cache) => match done {
                AnyRecord::Adaptive(done) => cache.undo(done).map_err(AnyRecord::Adaptive),
                AnyRecord::Queues(_) | AnyRecord::Optimal(_) | AnyRecord::Demand(_) =>
                    unreachable!(),
            },
        }
    }

    fn standing(&self) -> u64 {
        match self {
            AnyPolicy::Queues(cache) => cache.standing(),
            AnyPolicy::Optimal(cache) => cache.standing(),
            AnyPolicy::Demand(cache) => cache.standing(),
            AnyPolicy::Adaptive(cache) => cache.standing(),
        }
    }

    fn words(done: &AnyRecord) -> u64 {
        match done {
            AnyRecord::Queues(done) => QueueCache::<AnyDesign>::words(done),
            AnyRecord::Adaptive(done) => AdaptiveCache::words(done),
            AnyRecord::Optimal(_) | AnyRecord::Demand(_) => 0,
        }
    }

    ghost counted = { any_counts };

    ghost counted_out = { any_ends };

    ghost paced = { any_paced };
}
