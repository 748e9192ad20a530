//! The accesses of a trace by a cache: a loop for each policy of queues, compiled for its design, one for the adaptive
//! window, and one for the optimal policy. The policies that keep each missed key have theirs in `demand_cache`.
ghost use Rattle.std.specs.Prelude.{◌≡◌, ◌≤◌, OnOk, OnErr, length};
ghost use Rattle.queue_cache.specs.Design.{CoversDesign};
ghost use Rattle.policies.specs.Accesses.{IsContinued, IsNext, IsStopped};

use crate::any_policy::AnyPolicy;
use crate::theorems;
use clairvoyant::Clairvoyant;
use queue_cache::fixed_design::{
    FixedDesign, LruDesign, SegmentedLruDesign, TinyLfuLruDesign, TinyLfuSegmentedDesign,
    WindowTinyLfuDesign,
};
use queue_cache::{AdaptiveCache, Layout, QueueCache};
use std::alloc::AllocError;
use step_record::{Engine, Key, StepFault};

/// Makes the accesses in turn, which are the next ones of a trace. The one error is out of memory.
pub(crate) fn access_all_queues(cache: &mut QueueCache, keys: &[Key]) -> Result<(), AllocError>
    requires { IsNext keys.now (AnyPolicy.Queues cache.old) }
    ensures all { OnOk result (IsContinued keys.now (AnyPolicy.Queues cache.old) (AnyPolicy.Queues cache.new)) }
    ensures memory { OnErr result (IsStopped keys.now (AnyPolicy.Queues cache.old) (AnyPolicy.Queues cache.new)) }
{
    let design = cache.design();
    match design.layout {
        Layout::OneQueue if design.counts_keys => access_all_by::<TinyLfuLruDesign>(cache, keys),
        Layout::OneQueue => access_all_by::<LruDesign>(cache, keys),
        Layout::TwoQueues if design.counts_keys => {
            access_all_by::<TinyLfuSegmentedDesign>(cache, keys)
        }
        Layout::TwoQueues => access_all_by::<SegmentedLruDesign>(cache, keys),
        // It serves a cache that counts no keys as well.
        Layout::ThreeQueues => access_all_by::<WindowTinyLfuDesign>(cache, keys),
    }
}

// The same, compiled for a design that serves the cache's. Each design has a loop of its own, which an access is part of.
fn access_all_by<D: FixedDesign>(cache: &mut QueueCache, keys: &[Key]) -> Result<(), AllocError>
    requires design { CoversDesign D.DESIGN cache.old.setup.design }
    requires next { IsNext keys.now (AnyPolicy.Queues cache.old) }
    ensures all { OnOk result (IsContinued keys.now (AnyPolicy.Queues cache.old) (AnyPolicy.Queues cache.new)) }
    ensures memory { OnErr result (IsStopped keys.now (AnyPolicy.Queues cache.old) (AnyPolicy.Queues cache.new)) }
{
    theorems::any_step_law();
    theorems::any_accepts();
    for i in 0..keys.len() {
        cache.prefetch_at(keys, i);
        match cache.access_by::<D>(keys[i]) {
            Ok(_) => {}
            Err(StepFault::OutOfMemory) => return Err(AllocError),
            Err(StepFault::NotNow) => unreachable!(),
        }
    }
    Ok(())
}

/// The same by a cache with an adaptive window.
#[inline(never)]
pub(crate) fn access_all_adaptive(cache: &mut AdaptiveCache, keys: &[Key]) -> Result<(), AllocError>
    requires { IsNext keys.now (AnyPolicy.Adaptive cache.old) }
    ensures all { OnOk result (IsContinued keys.now (AnyPolicy.Adaptive cache.old) (AnyPolicy.Adaptive cache.new)) }
    ensures memory { OnErr result (IsStopped keys.now (AnyPolicy.Adaptive cache.old) (AnyPolicy.Adaptive cache.new)) }
{
    theorems::any_step_law();
    theorems::any_accepts();
    for i in 0..keys.len() {
        cache.prefetch_at(keys, i);
        match cache.access::<AdaptiveLoop>(keys[i]) {
            Ok(_) => {}
            Err(StepFault::OutOfMemory) => return Err(AllocError),
            Err(StepFault::NotNow) => unreachable!(),
        }
    }
    Ok(())
}

// Selects the instance of an access that is part of this loop.
struct AdaptiveLoop;

/// The same by the optimal policy.
pub(crate) fn access_all_optimal(cache: &mut Clairvoyant, keys: &[Key]) -> Result<(), AllocError>
    requires { IsNext keys.now (AnyPolicy.Optimal cache.old) }
    ensures all { OnOk result (IsContinued keys.now (AnyPolicy.Optimal cache.old) (AnyPolicy.Optimal cache.new)) }
    ensures memory { OnErr result (IsStopped keys.now (AnyPolicy.Optimal cache.old) (AnyPolicy.Optimal cache.new)) }
{
    theorems::any_step_law();
    theorems::any_accepts();
    for i in 0..keys.len() {
        match cache.apply(&keys[i]) {
            Ok(_) => {}
            Err(StepFault::OutOfMemory) => return Err(AllocError),
            Err(StepFault::NotNow) => unreachable!(),
        }
    }
    Ok(())
}
