//! Two caches that make the same accesses, side by side.
ghost use Rattle.std.specs.Prelude.{◌≡◌, ◌<◌, Ok, false, List, ℕ, length, slice_index_or, IfOk, OnOk};
ghost use Rattle.engine_base.specs.Config.{config_fault};
ghost use Rattle.policies.specs.AnyPolicy.{Job};
ghost use Rattle.policy_comparison.specs.Pair.{HasMade, HasRun, HaveNoted, HavePaired};
ghost use Rattle.sweeps.specs.Taking.{AreNext, CanTake, RunsOver};

use crate::cache_access::hit_at;
use policies::AnyPolicy;
use std::alloc::{AllocError, Global};
use std::thread::{Threads, join_mut};
use step_record::{Job, Key, Trace};

/// A cache, and which accesses of the last piece hit.
pub(crate) struct NotedCache {
    cache: AnyPolicy,
    hits: Vec<bool>,
}

impl Drop for NotedCache {
    fn drop(self) {
        let NotedCache { cache: _, hits: _ } = self;
    }
}

/// The caches of two jobs, which made the same accesses.
pub(crate) struct Pair {
    first: NotedCache,
    second: NotedCache,
}

impl Drop for Pair {
    fn drop(self) {
        let Pair {
            first: _,
            second: _,
        } = self;
    }
}

impl Pair {
    /// Empty caches of both jobs over the trace. The one error is out of memory.
    pub(crate) fn open(
        alloc: Global,
        trace: &Trace,
        first: &Job,
        second: &Job,
    ) -> Result<Pair, AllocError>
        requires first { config_fault first.now.config ≡ Ok tt }
        requires second { config_fault second.now.config ≡ Ok tt }
        ensures { IfOk result (λ pair. (other : List ℕ) → RunsOver trace.now other first.now
            → RunsOver trace.now other second.now → HavePaired first.now second.now other 0 pair) }
    {
        Ok(Pair {
            first: NotedCache::open(alloc, trace, first)?,
            second: NotedCache::open(alloc, trace, second)?,
        })
    }

    /// Makes the accesses to the keys in both caches, side by side where a thread can be made, and notes which of them
    /// hit. The one error is out of memory.
    pub(crate) fn advance<T: Threads>(&mut self, rt: &T, keys: &[Key]) -> Result<(), AllocError>
        requires { (first second : Job) × CanTake (HavePaired first second) keys.now self.old }
        ensures { (first second : Job) (trace : List ℕ) (n : ℕ) → AreNext trace n keys.now
            → HavePaired first second trace n self.old
            → OnOk result (HaveNoted first second trace n (length keys.now) self.new) }
    {
        let Pair { first, second } = self;
        let (one, other) = join_mut(
            rt,
            &mut || -> Result<(), AllocError>
                requires { (job : Job) × CanTake (HasRun job) keys.now first.now.cache }
                ensures { OnOk result (HasMade keys.entry.now first.entry.now first.exit.now) }
            { first.make::<First>(keys) },
            &mut || -> Result<(), AllocError>
                requires { (job : Job) × CanTake (HasRun job) keys.now second.now.cache }
                ensures { OnOk result (HasMade keys.entry.now second.entry.now second.exit.now) }
            { second.make::<Second>(keys) },
        );
        one?;
        other
    }

    /// Whether an access of the last piece, counted from 0, hit in the first cache, and in the second.
    #[inline(always)]
    pub(crate) fn hits_at(&self, i: usize) -> (bool, bool)
        requires { (i < length self.now.first.hits.items) × (i < length self.now.second.hits.items) }
        ensures { (result.0 ≡ slice_index_or self.now.first.hits.items i false)
            × (result.1 ≡ slice_index_or self.now.second.hits.items i false) }
    {
        (self.first.hits[i], self.second.hits[i])
    }
}

impl NotedCache {
    // An empty cache of the job over the trace. The one error is out of memory.
    fn open(alloc: Global, trace: &Trace, job: &Job) -> Result<NotedCache, AllocError>
        requires { config_fault job.now.config ≡ Ok tt }
        ensures { IfOk result (λ noted. (other : List ℕ) → RunsOver trace.now other job.now
            → HasRun job.now other 0 noted.cache) }
    {
        let cache = AnyPolicy::open(alloc, job, trace)?;
        Ok(NotedCache {
            cache,
            hits: Vec::new(alloc),
        })
    }

    // Makes the accesses to the keys, and notes which of them hit. The one error is out of memory.
    fn make<C>(&mut self, keys: &[Key]) -> Result<(), AllocError>
        requires { (job : Job) × CanTake (HasRun job) keys.now self.old.cache }
        ensures { OnOk result (HasMade keys.now self.old self.new) }
    {
        self.hits.resize(keys.len(), false)?;
        let cache = &mut self.cache;
        let noted = self.hits.as_mut_slice();
        for i in 0..keys.len() {
            let hit = hit_at::<C>(cache, keys, i)?;
            noted[i] = hit;
        }
        Ok(())
    }
}

// The caller in the first cache's loop, and that in the second's: each loop has code of its own.
struct First;

struct Second;
