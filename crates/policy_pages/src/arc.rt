//! ARC: its definition over plain lists, its plan of moves, and the step that carries the plan out. The definition is
//! `specs/Arc.antt`; the plan, and the policy as one value, `specs/ArcPlan.antt`.

ghost use Rattle.std.specs.Prelude.{◌≡◌, ◌<◌, ◌≤◌, ◌+◌, ◌-◌, ◌*◌, ◌/◌, ℕ, min, max, nat_lt, ◌==◌, ◌||◌, ◌&&◌, false};
ghost use Rattle.std.specs.Prelude.{length, None, IfOk, OnErr};
ghost use Rattle.engine_base.specs.declared.limits.TheConstants.{MAX_CAPACITY};
ghost use Rattle.queue_table.specs.Entries.{entry, occurrences};
ghost use Rattle.queue_table.specs.Queues.{queue_holding};
ghost use Rattle.queue_table.specs.QueueTable.{queues, spare, HoldsAt};
ghost use Rattle.queue_table.specs.declared.records.Entry.{Entry};
ghost use Rattle.queue_table.specs.Moves.{item_of, goes};
ghost use Rattle.queue_table.specs.Undoing.{IsLeft, IsAccessed, outs};
ghost use Rattle.policy_pages.specs.Arc.{IsArc};
ghost use Rattle.policy_pages.specs.Plans.{miss_plan};
ghost use Rattle.policy_pages.specs.ArcPlan.{T1, T2, B1, B2, arc_of, total, step_size, replaced, full_l1_leavers};
ghost use Rattle.policy_pages.specs.ArcPlan.{open_l1_leavers, new_key_plan, recall_plan, arc_plan};
ghost use Rattle.policy_pages.specs.ArcExamples.{WorkedExamples};

use crate::accesses::{LeftKeys, hit, miss_without_runs};
use queue_table::{Accessed, Found, KeyName, KeyQueues, Left};
use std::alloc::AllocError;

const T1: u8 = 0;

const T2: u8 = 1;

const B1: u8 = 2;

const B2: u8 = 3;

/// An access to a key, by ARC's plan, where `t1` is to have `own_number` keys. The one error is out of memory; the queues
/// are then as before.
///
/// `C` selects an instance (docs/ARCHITECTURE.md).
#[inline(always)]
pub fn step<C, K: KeyName>(
    table: &mut KeyQueues<K>,
    capacity: u32,
    own_number: u32,
    key: K,
) -> Result<Accessed, AllocError>
    requires few { capacity ≤ MAX_CAPACITY }
    requires state { IsArc capacity (arc_of own_number (queues table.old)) }
    ensures accessed { IfOk result (λ a. IsAccessed (arc_plan capacity (K.key key) own_number (queues table.old))
        (item_of (K.key key)) own_number (queues table.old) (queues table.new) a) }
    // A hit asks for no memory.
    ensures memory { OnErr result ((arc_plan capacity (K.key key) own_number (queues table.old)).hits ≡ false) }
    ensures err { OnErr result (queues table.new ≡ queues table.old) }
{
    let Some(found) = table.find(key) else {
        return new_key::<C, K>(table, capacity, own_number, key);
    };
    table.tabled();
    if is_resident(found.queue) {
        return Ok(hit(table.send(key, found, T2, 0), own_number));
    }
    let in_b2 = found.queue == B2;
    let target = if in_b2 {
        lowered(table, own_number)
    } else {
        raised(table, capacity, own_number)
    };
    Ok(recalled::<C, K>(table, key, found, own_number, target, in_b2))
}

// Whether a key of this queue is in the cache.
fn is_resident(queue: u8) -> bool
    ensures { result ≡ (queue == T1 || queue == T2) }
{
    queue == T1 || queue == T2
}

// The size that t1 is to have after a key of b1 came again.
fn raised<K: KeyName>(table: &KeyQueues<K>, capacity: u32, target: u32) -> u32
    requires few { capacity ≤ MAX_CAPACITY }
    requires target { target ≤ capacity }
    requires b1 { 1 ≤ length (queues table.now B1) }
    requires b2 { length (queues table.now B2) ≤ 2 * MAX_CAPACITY }
    ensures { result ≡ min capacity (target + step_size B2 B1 (queues table.now)) }
{
    capacity.min(target + step_size(table.len(B2), table.len(B1)))
}

// The size that t1 is to have after a key of b2 came again.
fn lowered<K: KeyName>(table: &KeyQueues<K>, target: u32) -> u32
    requires b1 { length (queues table.now B1) ≤ 2 * MAX_CAPACITY }
    requires b2 { 1 ≤ length (queues table.now B2) }
    ensures { result ≡ target - step_size B1 B2 (queues table.now) }
{
    target.saturating_sub(step_size(table.len(B1), table.len(B2)))
}

// By how much it moves: how often the keys of the key's own ghost go into those of the other, and 1 at least.
fn step_size(other: usize, own: usize) -> u32
    requires some { 1 ≤ own }
    requires few { other ≤ 2 * MAX_CAPACITY }
    ensures result { result ≡ max 1 (other / own) }
    ensures few { result ≤ 2 * MAX_CAPACITY + 1 }
{
    (other / own).max(1) as u32
}

// An access to a key of a ghost, where t1 is to have `target` keys after it. It needs no room.
#[inline(always)]
fn recalled<C, K: KeyName>(
    table: &mut KeyQueues<K>,
    key: K,
    found: Found,
    old_target: u32,
    target: u32,
    in_b2: bool,
) -> Accessed
    requires at { HoldsAt found.at (entry (item_of (K.key key)) found.count) table.old }
    requires t1 { occurrences (item_of (K.key key)) (queues table.old T1) ≡ 0 }
    requires t2 { occurrences (item_of (K.key key)) (queues table.old T2) ≡ 0 }
    ensures { IsAccessed (recall_plan in_b2 target (queues table.old)) (item_of (K.key key)) old_target
        (queues table.old) (queues table.new) result }
{
    let first = replace(table, target, in_b2);
    let own = table.send(key, found, T2, 0);
    miss_without_runs(LeftKeys::one(first), own, old_target, target)
}

// An access to a key that stands nowhere. Room is made before anything moves.
#[inline(always)]
fn new_key<C, K: KeyName>(
    table: &mut KeyQueues<K>,
    capacity: u32,
    target: u32,
    key: K,
) -> Result<Accessed, AllocError>
    requires few { capacity ≤ MAX_CAPACITY }
    requires all_fit { total (queues table.old) ≤ 2 * capacity }
    requires absent { queue_holding (item_of (K.key key)) (queues table.old) ≡ None }
    ensures accessed { IfOk result (λ a. IsAccessed (new_key_plan capacity target (queues table.old))
        (item_of (K.key key)) target (queues table.old) (queues table.new) a) }
    ensures err { OnErr result (queues table.new ≡ queues table.old) }
{
    table.reserve()?;
    Ok(join::<C, K>(table, capacity, target, key))
}

// A new key joins t1, in the slot of the key that leaves for good, if one does.
#[inline(always)]
fn join<C, K: KeyName>(table: &mut KeyQueues<K>, capacity: u32, target: u32, key: K) -> Accessed
    requires few { capacity ≤ MAX_CAPACITY }
    requires all_fit { total (queues table.old) ≤ 2 * capacity }
    requires room { 1 ≤ spare table.old }
    requires absent { queue_holding (item_of (K.key key)) (queues table.old) ≡ None }
    ensures { IsAccessed (new_key_plan capacity target (queues table.old)) (item_of (K.key key)) target
        (queues table.old) (queues table.new) result }
{
    let l1 = table.len(T1) + table.len(B1);
    if l1 == capacity as usize {
        join_full_l1::<C, K>(table, capacity, target, key)
    } else {
        let all = l1 + table.len(T2) + table.len(B2);
        join_open_l1::<C, K>(table, capacity, target, all, key)
    }
}

// The same, where t1 and b1 have as many keys as the cache has room for.
#[inline(always)]
fn join_full_l1<C, K: KeyName>(
    table: &mut KeyQueues<K>,
    capacity: u32,
    target: u32,
    key: K,
) -> Accessed
    requires room { 1 ≤ spare table.old }
    requires absent { queue_holding (item_of (K.key key)) (queues table.old) ≡ None }
    ensures { IsAccessed (miss_plan (full_l1_leavers capacity target (queues table.old)) (goes T1 0) target)
        (item_of (K.key key)) target (queues table.old) (queues table.new) result }
{
    if table.len(T1) < capacity as usize {
        let first = replace(table, target, false);
        let (second, own) = table.renew_oldest(B1, key, T1, 0);
        return miss_without_runs(LeftKeys { first, second }, own, target, target);
    }
    let (first, own) = table.renew_oldest(T1, key, T1, 0);
    miss_without_runs(LeftKeys::one(first), own, target, target)
}

// The same, where they have fewer; all four queues have `all` keys.
#[inline(always)]
fn join_open_l1<C, K: KeyName>(
    table: &mut KeyQueues<K>,
    capacity: u32,
    target: u32,
    all: usize,
    key: K,
) -> Accessed
    requires few { capacity ≤ MAX_CAPACITY }
    requires all { all ≡ total (queues table.old) }
    requires room { 1 ≤ spare table.old }
    requires absent { queue_holding (item_of (K.key key)) (queues table.old) ≡ None }
    ensures { IsAccessed (miss_plan (open_l1_leavers capacity target (queues table.old)) (goes T1 0) target)
        (item_of (K.key key)) target (queues table.old) (queues table.new) result }
{
    let room = capacity as usize;
    if all < room {
        let own = table.join_apart(key, T1, 0);
        return miss_without_runs(LeftKeys::NONE, own, target, target);
    }
    let first = replace(table, target, false);
    if all == 2 * room {
        let (second, own) = table.renew_oldest(B2, key, T1, 0);
        return miss_without_runs(LeftKeys { first, second }, own, target, target);
    }
    let own = table.join(key, T1, 0);
    miss_without_runs(LeftKeys::one(first), own, target, target)
}

// The oldest of t1 leaves for b1, or the oldest of t2 for b2.
#[inline(always)]
fn replace<K: KeyName>(table: &mut KeyQueues<K>, target: u32, in_b2: bool) -> Left
    ensures left { IsLeft (replaced in_b2 target (queues table.old)) (queues table.old) (queues table.new) result }
    ensures stays { outs result.by ≡ 0 }
    ensures spare { spare table.new ≡ spare table.old }
    ensures others { (j : ℕ) (e : Entry) → HoldsAt j e table.old → occurrences e.item (queues table.old T1) ≡ 0
        → occurrences e.item (queues table.old T2) ≡ 0 → HoldsAt j e table.new }
{
    if t1_gives(table.len(T1), target as usize, in_b2) {
        table.send_oldest(T1, B1, 0)
    } else {
        table.send_oldest(T2, B2, 0)
    }
}

// Whether t1 gives up a key: it has more than it is to have, or just as many where the key comes back from b2.
fn t1_gives(t1: usize, target: usize, in_b2: bool) -> bool
    ensures { result ≡ (nat_lt 0 t1 && (nat_lt target t1 || (in_b2 && t1 == target))) }
{
    0 < t1 && (target < t1 || (in_b2 && t1 == target))
}

/// Short traces, with outcomes and states by another program.
pub fn worked_examples()
    ensures { WorkedExamples }
{}
