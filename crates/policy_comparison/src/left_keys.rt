//! From which queue a key leaves by an access, and how many keys left each queue.
ghost use Rattle.std.specs.Prelude.{◌≡◌, ◌≢◌, ◌+◌, ◌<◌, ◌≤◌, None, Some, ℕ, List, length, get_or, take, slice_index};
ghost use Rattle.std.specs.Prelude.{IfOk, OnOk, ◌==◌, ◌^◌};
ghost use Rattle.engine_base.specs.Stats.{is_eviction, one_if};
ghost use Rattle.engine_base.specs.declared.outcome.Outcome.TheVariants.{Kept as KeptOf};
ghost use Rattle.segments.specs.KeyRow.{row_left};
ghost use Rattle.policies.specs.AnyPolicy.{Job, HasAccessed, outcomes_on};
ghost use Rattle.policies.specs.AnyStep.{any_act, any_undone, AnyFits};
ghost use Rattle.policy_comparison.specs.CacheAccess.{IsReadyFor, StandsAt};
ghost use Rattle.policy_comparison.specs.LeftKeys.{AreLeft, IsAccessFrom};
ghost use Rattle.policy_comparison.specs.QueuesAt.{queues_at};

use policies::{AnyPolicy, AnyRecord, theorems};
use std::alloc::AllocError;
use step_record::{Engine, Key, Outcome, StepFault};

/// Makes the access to one of the keys, which come next in a trace, in a cache that made those before it, and counts the key
/// that leaves by it, if one does, where it stood. The one error is out of memory.
pub(crate) fn access_counted(
    cache: &mut AnyPolicy,
    left: &mut Vec<u64>,
    keys: &[Key],
    i: usize,
) -> Result<(), AllocError>
    requires below { i < length keys.now }
    requires ready { IsReadyFor (slice_index keys.now i) cache.old }
    requires few { (row : ℕ) → get_or left.old.items row 0 + 1 < 2 ^ 64 }
    ensures stands { (j : Job) (trace : List ℕ) (n : ℕ) → StandsAt trace n (slice_index keys.now i)
        → HasAccessed j trace (take n trace) cache.old → OnOk result (HasAccessed j trace (take (n + 1) trace) cache.new) }
    ensures left { (j : Job) (trace : List ℕ) (from n : ℕ) → from ≤ n → StandsAt trace n (slice_index keys.now i)
        → HasAccessed j trace (take n trace) cache.old → AreLeft j trace from n left.old.items
        → OnOk result (AreLeft j trace from (n + 1) left.new.items) }
{
    match access_from(cache, keys, i)? {
        Some(row) => count_left(left, row),
        None => Ok(()),
    }
}

// The access alone: the number of the queue from which a key leaves by it.
fn access_from(cache: &mut AnyPolicy, keys: &[Key], i: usize) -> Result<Option<usize>, AllocError>
    requires below { i < length keys.now }
    requires ready { IsReadyFor (slice_index keys.now i) cache.old }
    ensures stands { (j : Job) (trace : List ℕ) (n : ℕ) → StandsAt trace n (slice_index keys.now i)
        → HasAccessed j trace (take n trace) cache.old → OnOk result (HasAccessed j trace (take (n + 1) trace) cache.new) }
    ensures row { (j : Job) (trace : List ℕ) (n : ℕ) → StandsAt trace n (slice_index keys.now i)
        → HasAccessed j trace (take n trace) cache.old
        → IfOk result (λ row. row ≡ row_left (get_or (outcomes_on j trace) n KeptOf) (queues_at j trace n)) }
{
    theorems::any_accepts();
    theorems::any_step_law();
    theorems::any_answers();
    cache.prefetch_at(keys, i);
    let row = access_key(cache, keys[i])?;
    Ok(row)
}

// Makes an access that the cache accepts.
fn access_key(cache: &mut AnyPolicy, key: Key) -> Result<Option<usize>, AllocError>
    requires accepted { any_act cache.old key ≢ None }
    requires ready { IsReadyFor key cache.old }
    ensures { IfOk result (λ row. IsAccessFrom key cache.old row cache.new) }
{
    let (outcome, done) = apply(cache, key)?;
    if is_eviction(outcome) {
        access_again(cache, key, outcome, done)
    } else {
        drop(done);
        Ok(None)
    }
}

// Where the key stood that left by the last access: which key that is was known only by the access, so it is undone, and
// then made again.
fn access_again(
    cache: &mut AnyPolicy,
    key: Key,
    outcome: Outcome,
    done: AnyRecord,
) -> Result<Option<usize>, AllocError>
    requires fits { AnyFits done cache.old }
    requires made { any_act (any_undone done cache.old) key ≡ Some (outcome, cache.old) }
    requires ready { IsReadyFor key (any_undone done cache.old) }
    ensures { IfOk result (λ row. IsAccessFrom key (any_undone done cache.old) row cache.new) }
{
    undo(cache, done)?;
    let row = cache.row_left(outcome);
    let (_, done) = apply(cache, key)?;
    drop(done);
    Ok(row)
}

// Whether a key left, or was not kept.
fn is_eviction(outcome: Outcome) -> bool
    ensures { result ≡ is_eviction outcome }
{
    match outcome {
        Outcome::Evicted(_) | Outcome::Rejected(_) => true,
        Outcome::Hit | Outcome::Kept => false,
    }
}

// Makes an access that the cache accepts, with its undo record.
fn apply(cache: &mut AnyPolicy, key: Key) -> Result<(Outcome, AnyRecord), AllocError>
    requires { any_act cache.old key ≢ None }
    ensures accepted { IfOk result (λ r. any_act cache.old key ≡ Some (r.0, cache.new)) }
    ensures fits { IfOk result (λ r. AnyFits r.1 cache.new) }
    ensures undone { IfOk result (λ r. any_undone r.1 cache.new ≡ cache.old) }
{
    match cache.apply(&key) {
        Ok(done) => Ok(done),
        Err(StepFault::OutOfMemory) => Err(AllocError),
        Err(StepFault::NotNow) => unreachable!(),
    }
}

// Undoes an access.
fn undo(cache: &mut AnyPolicy, done: AnyRecord) -> Result<(), AllocError>
    requires { AnyFits done cache.old }
    ensures { OnOk result (cache.new ≡ any_undone done cache.old) }
{
    match cache.undo(done) {
        Ok(()) => Ok(()),
        Err(done) => {
            drop(done);
            Err(AllocError)
        }
    }
}

// Counts one key more that left the queue of this number.
fn count_left(left: &mut Vec<u64>, row: usize) -> Result<(), AllocError>
    requires { get_or left.old.items row 0 + 1 < 2 ^ 64 }
    ensures { OnOk result ((r : ℕ) → get_or left.new.items r 0 ≡ get_or left.old.items r 0 + one_if (row == r)) }
{
    fill(left, row)?;
    if row < left.len() {
        left[row] += 1;
        Ok(())
    } else {
        left.push(1)?;
        Ok(())
    }
}

// Makes a list as long as this, by zeros behind the last.
fn fill(numbers: &mut Vec<u64>, len: usize) -> Result<(), AllocError>
    ensures same { OnOk result ((r : ℕ) → get_or numbers.new.items r 0 ≡ get_or numbers.old.items r 0) }
    ensures long { OnOk result (len ≤ length numbers.new.items) }
{
    for _place in numbers.len()..len {
        numbers.push(0)?;
    }
    Ok(())
}
