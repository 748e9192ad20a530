//! CAR: its definition over plain lists, its plan of moves, and the step that carries the plan out. The definition is
//! `specs/Car.antt`; the plan, and the policy as one value, `specs/CarPlan.antt`.

ghost use Rattle.std.specs.Prelude.{◌≡◌, ℕ, ◌+◌, ◌/◌, ◌≤◌, max, false, length, None, IfOk, OnErr};
ghost use Rattle.engine_base.specs.declared.limits.TheConstants.{MAX_CAPACITY};
ghost use Rattle.queue_table.specs.Entries.{entry, occurrences};
ghost use Rattle.queue_table.specs.Queues.{queue_holding};
ghost use Rattle.queue_table.specs.QueueTable.{queues, spare, HoldsAt};
ghost use Rattle.queue_table.specs.declared.records.Entry.{Entry};
ghost use Rattle.queue_table.specs.Moves.{item_of, goes};
ghost use Rattle.queue_table.specs.Undoing.{IsAccessed};
ghost use Rattle.policy_pages.specs.Car.{IsCar};
ghost use Rattle.policy_pages.specs.CarPlan.{T1, T2, car_of, giver, forgotten, target_after, is_resident};
ghost use Rattle.policy_pages.specs.CarPlan.{new_key_plan, recall_plan, car_plan};
ghost use Rattle.policy_pages.specs.CarStep.{IsReplaced, IsJoined};
ghost use Rattle.policy_pages.specs.CarExamples.{WorkedExamples};

use crate::accesses::{LeftKeys, hit, kept, miss_after_runs};
use queue_table::{Accessed, Found, KeyMove, KeyName, KeyQueues, Left, Run};
use std::alloc::AllocError;

const T1: u8 = 0;

const T2: u8 = 1;

const B1: u8 = 2;

const B2: u8 = 3;

/// How a key left for another one.
#[derive(Clone, Copy)]
pub struct Replaced {
    /// The keys of `t1` that went to `t2`.
    pub early: Run,
    /// The turns of the queue that gave up a key.
    pub late: Run,
    /// The key that left.
    pub first: Left,
}

/// An access to a key, by CAR's plan, where `t1` is to have `own_number` keys. The one error is out of memory; the queues
/// are then as before.
///
/// `C` selects an instance (docs/ARCHITECTURE.md).
#[inline(always)]
pub fn step<C, K: KeyName>(
    table: &mut KeyQueues<K>,
    capacity: u32,
    own_number: u32,
    key: K,
) -> Result<Accessed, AllocError>
    requires few { capacity ≤ MAX_CAPACITY }
    requires state { IsCar capacity (car_of own_number (queues table.old)) }
    ensures accessed { IfOk result (λ a. IsAccessed (car_plan capacity (K.key key) own_number (queues table.old))
        (item_of (K.key key)) own_number (queues table.old) (queues table.new) a) }
    // A hit asks for no memory.
    ensures memory { OnErr result ((car_plan capacity (K.key key) own_number (queues table.old)).hits ≡ false) }
    ensures err { OnErr result (queues table.new ≡ queues table.old) }
{
    let Some(found) = table.find(key) else {
        // Room is made before anything moves.
        table.reserve()?;
        return Ok(new_key::<C, K>(table, capacity, own_number, key));
    };
    table.tabled();
    if is_resident(found.queue) {
        return Ok(hit(table.recount(key, found, 1), own_number));
    }
    let in_b1 = found.queue == B1;
    Ok(recalled::<C, K>(table, capacity, own_number, key, found, in_b1))
}

// Whether a key of this queue is in the cache.
fn is_resident(queue: u8) -> bool
    ensures { result ≡ is_resident queue }
{
    queue == T1 || queue == T2
}

// An access to a key that stands nowhere. In a full cache it takes the slot of a key that a ghost forgets, if one does.
#[inline(always)]
fn new_key<C, K: KeyName>(table: &mut KeyQueues<K>, capacity: u32, target: u32, key: K) -> Accessed
    requires few { capacity ≤ MAX_CAPACITY }
    requires fits { length (queues table.old T1) + length (queues table.old T2) ≤ capacity }
    requires room { 1 ≤ spare table.old }
    requires absent { queue_holding (item_of (K.key key)) (queues table.old) ≡ None }
    ensures { IsAccessed (new_key_plan capacity target (queues table.old)) (item_of (K.key key)) target
        (queues table.old) (queues table.new) result }
{
    if table.len(T1) + table.len(T2) < capacity as usize {
        let own = table.join_apart(key, T1, 0);
        return kept(own, target);
    }
    let left = replace(table, capacity, target);
    let (second, own) = join(table, capacity, key);
    let keys = LeftKeys {
        first: left.first,
        second,
    };
    miss_after_runs(left.early, left.late, keys, own, target, target)
}

// The key joins t1, once another one left, and a ghost may forget its oldest for it.
#[inline(always)]
fn join<K: KeyName>(table: &mut KeyQueues<K>, capacity: u32, key: K) -> (Left, KeyMove)
    requires room { 1 ≤ spare table.old }
    requires absent { queue_holding (item_of (K.key key)) (queues table.old) ≡ None }
    ensures { IsJoined (forgotten capacity (queues table.old)) (goes T1 0) (item_of (K.key key)) (queues table.old)
        (queues table.new) result.0 result.1 }
{
    let room = capacity as usize;
    let l1 = table.len(T1).saturating_add(table.len(B1));
    if l1 == room {
        return table.renew_oldest(B1, key, T1, 0);
    }
    let all = l1
        .saturating_add(table.len(T2))
        .saturating_add(table.len(B2));
    if all == 2 * room {
        return table.renew_oldest(B2, key, T1, 0);
    }
    (Left::NONE, table.join(key, T1, 0))
}

// An access to a key of a ghost.
#[inline(always)]
fn recalled<C, K: KeyName>(
    table: &mut KeyQueues<K>,
    capacity: u32,
    target: u32,
    key: K,
    found: Found,
    in_b1: bool,
) -> Accessed
    requires few { length (queues table.old T1) ≤ MAX_CAPACITY }
    requires at { HoldsAt found.at (entry (item_of (K.key key)) found.count) table.old }
    requires t1 { occurrences (item_of (K.key key)) (queues table.old T1) ≡ 0 }
    requires t2 { occurrences (item_of (K.key key)) (queues table.old T2) ≡ 0 }
    ensures { IsAccessed (recall_plan capacity target in_b1 (queues table.old)) (item_of (K.key key)) target
        (queues table.old) (queues table.new) result }
{
    let left = replace(table, capacity, target);
    let after = moved_target(table, capacity, target, in_b1);
    let own = table.send(key, found, T2, 0);
    miss_after_runs(
        left.early,
        left.late,
        LeftKeys::one(left.first),
        own,
        target,
        after,
    )
}

// A key leaves, for b1 or b2.
#[inline(always)]
fn replace<K: KeyName>(table: &mut KeyQueues<K>, capacity: u32, target: u32) -> Replaced
    requires { length (queues table.old T1) ≤ MAX_CAPACITY }
    ensures made { IsReplaced capacity target (queues table.old) (queues table.new) result }
    ensures spare { spare table.new ≡ spare table.old }
    ensures others { (j : ℕ) (e : Entry) → HoldsAt j e table.old → occurrences e.item (queues table.old T1) ≡ 0
        → occurrences e.item (queues table.old T2) ≡ 0 → HoldsAt j e table.new }
{
    let most = (table.len(T1) + 1).saturating_sub(target.max(1) as usize);
    let early = table.run(T1, T2, 1, 1, most as u32);
    let queue = giver(table, target);
    let late = table.run(queue, queue, 1, 1, capacity);
    let first = table.send_oldest(queue, queue + 2, 0);
    Replaced { early, late, first }
}

// The queue that gives up a key.
#[inline(always)]
fn giver<K: KeyName>(table: &KeyQueues<K>, target: u32) -> u8
    ensures queue { result ≡ giver target (queues table.now) }
    ensures low { result ≤ 1 }
{
    if table.len(T1) < target.max(1) as usize {
        T2
    } else {
        T1
    }
}

// The size that t1 is to have after a key of a ghost came again.
fn moved_target<K: KeyName>(table: &KeyQueues<K>, capacity: u32, target: u32, in_b1: bool) -> u32
    ensures { result ≡ target_after capacity target in_b1 (queues table.now) }
{
    let before = target as usize;
    if in_b1 {
        let more = step_size(table.len(B2), table.len(B1));
        before.saturating_add(more).min(capacity as usize) as u32
    } else {
        let less = step_size(table.len(B1), table.len(B2));
        before.saturating_sub(less) as u32
    }
}

// By how much it moves: how often the keys of the key's own ghost go into those of the other, and 1 at least.
fn step_size(other: usize, own: usize) -> usize
    ensures { result ≡ max 1 (other / own) }
{
    if own == 0 { 1 } else { (other / own).max(1) }
}

/// Short traces, with outcomes and states by another program.
pub fn worked_examples()
    ensures { WorkedExamples }
{}
