//! CLOCK: its definition over a plain list, its plan of moves, and the step that carries the plan out. The definition is
//! `specs/Clock.antt`; the plan, and the policy as one value, `specs/ClockPlan.antt`.

ghost use Rattle.std.specs.Prelude.{◌≡◌, ◌≤◌, ℕ, List, false, None, IfOk, OnErr};
ghost use Rattle.queue_table.specs.Queues.{queue_holding};
ghost use Rattle.queue_table.specs.QueueTable.{queues, spare};
ghost use Rattle.queue_table.specs.Moves.{item_of};
ghost use Rattle.queue_table.specs.Undoing.{IsAccessed};
ghost use Rattle.policy_pages.specs.ClockPlan.{clock_plan, clock_eviction_plan};
ghost use Rattle.policy_pages.specs.CountedKeys.{CountedKey, oldest_count};
ghost use Rattle.policy_pages.specs.Turns.{turn_count, after_turns};
ghost use Rattle.policy_pages.specs.Clock.{IsClock};
ghost use Rattle.policy_pages.specs.ClockExamples.{WorkedExamples};

use crate::accesses::{evicted, hit, kept};
use queue_table::{Accessed, KeyName, KeyQueues, Run};
use std::alloc::AllocError;

const QUEUE: u8 = 0;

/// An access to a key: a hit sets its reference bit; in a full cache a miss passes over the oldest keys whose bits are
/// set, clearing these, and the oldest leaves. The one error is out of memory; the queues are then as before.
///
/// `C` selects an instance (docs/ARCHITECTURE.md).
#[inline(always)]
pub fn step<C, K: KeyName>(
    table: &mut KeyQueues<K>,
    capacity: u32,
    own_number: u32,
    key: K,
) -> Result<Accessed, AllocError>
    ensures accessed { IfOk result (λ a. IsAccessed (clock_plan capacity (K.key key) own_number (queues table.old))
        (item_of (K.key key)) own_number (queues table.old) (queues table.new) a) }
    // A hit asks for no memory.
    ensures memory { OnErr result ((clock_plan capacity (K.key key) own_number (queues table.old)).hits ≡ false) }
    ensures err { OnErr result (queues table.new ≡ queues table.old) }
{
    match table.find(key) {
        Some(found) => {
            let own = table.recount(key, found, 1);
            Ok(hit(own, own_number))
        }
        None => {
            table.reserve()?;
            if table.len(QUEUE) < capacity as usize {
                let own = table.join_apart(key, QUEUE, 1);
                return Ok(kept(own, own_number));
            }
            Ok(evict(table, capacity, own_number, key))
        }
    }
}

// A miss of a full cache.
#[inline(always)]
fn evict<K: KeyName>(table: &mut KeyQueues<K>, capacity: u32, own_number: u32, key: K) -> Accessed
    requires room { 1 ≤ spare table.old }
    requires absent { queue_holding (item_of (K.key key)) (queues table.old) ≡ None }
    ensures { IsAccessed (clock_eviction_plan capacity own_number (queues table.old)) (item_of (K.key key)) own_number
        (queues table.old) (queues table.new) result }
{
    let early = table.run(QUEUE, QUEUE, 1, 1, capacity);
    let (first, own) = table.renew_oldest(QUEUE, key, QUEUE, 1);
    evicted(early, Run::NONE, first, own, own_number, own_number)
}

/// The turns of an eviction end at a key whose reference bit is clear.
#[tactic(auto, using(crate::proofs::Turns::settled))]
pub fn clock_turns_suffice()
    ensures { (queue : List CountedKey) → oldest_count (after_turns (turn_count queue) queue) ≡ 0 }
{}

/// An eviction makes at most as many turns as keys fit, since each clears a bit.
#[tactic(auto, using(crate::proofs::ClockKeeping::turns_few))]
pub fn clock_turns_few()
    ensures { (c : ℕ) (queue : List CountedKey) → IsClock c queue → turn_count queue ≤ c }
{}

/// Short traces, with outcomes and states by another program.
pub fn worked_examples()
    ensures { WorkedExamples }
{}
