//! One access of a cache.
ghost use Rattle.std.specs.Prelude.{◌≡◌, ◌≢◌, ◌<◌, ◌+◌, Ok, None, Some, List, ℕ, length, take, slice_index, IfOk, OnOk, OnErr};
ghost use Rattle.engine_base.specs.Stats.{is_hit};
ghost use Rattle.policies.specs.AnyPolicy.{Job, HasAccessed, outcomes_on};
ghost use Rattle.policies.specs.AnyStep.{any_act, MayAllocate};
ghost use Rattle.policy_comparison.specs.CacheAccess.{IsReadyFor, StandsAt};
ghost use Rattle.policy_comparison.specs.Part.{is_hit_at};

use policies::{AnyPolicy, theorems};
use std::alloc::AllocError;
use step_record::{Key, Outcome, StepFault};

/// Makes the access to one of the keys, which come next in a trace, in a cache that made those before it, and says
/// whether it hit. The one error is out of memory, which comes only where the access may ask for some.
///
/// Each `C` has code of its own, as two caches in turn want it.
#[inline(always)]
pub fn hit_at<C>(cache: &mut AnyPolicy, keys: &[Key], i: usize) -> Result<bool, AllocError>
    requires below { i < length keys.now }
    requires ready { IsReadyFor (slice_index keys.now i) cache.old }
    ensures stands { (j : Job) (trace : List ℕ) (n : ℕ) → StandsAt trace n (slice_index keys.now i)
        → HasAccessed j trace (take n trace) cache.old → OnOk result (HasAccessed j trace (take (n + 1) trace) cache.new) }
    ensures hit { (j : Job) (trace : List ℕ) (n : ℕ) → StandsAt trace n (slice_index keys.now i)
        → HasAccessed j trace (take n trace) cache.old
        → IfOk result (λ hit. hit ≡ is_hit_at (outcomes_on j trace) (n + 1)) }
    ensures memory { OnErr result (MayAllocate cache.old (slice_index keys.now i)) }
{
    theorems::any_accepts();
    theorems::any_step_law();
    theorems::any_answers();
    cache.prefetch_at(keys, i);
    let outcome = access::<C>(cache, keys[i])?;
    Ok(hits(outcome))
}

// Makes an access that the cache accepts. The one error is out of memory.
#[inline(always)]
fn access<C>(cache: &mut AnyPolicy, key: Key) -> Result<Outcome, AllocError>
    requires { any_act cache.old key ≢ None }
    ensures accepted { IfOk result (λ o. any_act cache.old key ≡ Some (o, cache.new)) }
    ensures memory { OnErr result (MayAllocate cache.old key) }
{
    match cache.access::<C>(key) {
        Ok(outcome) => Ok(outcome),
        Err(StepFault::OutOfMemory) => Err(AllocError),
        Err(StepFault::NotNow) => unreachable!(),
    }
}

/// Whether the outcome is a hit.
#[inline(always)]
pub fn hits(outcome: Outcome) -> bool
    ensures { result ≡ is_hit outcome }
{
    matches!(outcome, Outcome::Hit)
}
