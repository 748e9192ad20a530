//! SIEVE: its definition over two plain lists, its plan of moves, and the step that carries the plan out. The definition
//! is `specs/Sieve.antt`; the plan, and the policy as one value, `specs/SievePlan.antt`.

ghost use Rattle.std.specs.Prelude.{◌≡◌, ◌≤◌, ◌+◌, ℕ, List, true, false, None, length, nat_lt, IfOk, OnErr};
ghost use Rattle.queue_table.specs.Entries.{oldest_of};
ghost use Rattle.queue_table.specs.Queues.{Queues, queue_holding};
ghost use Rattle.queue_table.specs.QueueTable.{queues, spare};
ghost use Rattle.queue_table.specs.Moves.{item_of, count_or, leaving, after_leaving};
ghost use Rattle.queue_table.specs.Undoing.{IsRun, IsAccessed};
ghost use Rattle.policy_pages.specs.SievePlan.{queue_ahead, pass_run, sieve_plan, sieve_eviction_plan};
ghost use Rattle.policy_pages.specs.CountedKeys.{oldest_count};
ghost use Rattle.engine_base.specs.Machine.{outcomes_of_all};
ghost use Rattle.policy_pages.specs.Sieve.{SieveState, empty_sieve, pass_count, after_passes, sieve_act};
ghost use Rattle.policy_pages.specs.SieveListing.{empty_listing, listing_act};
ghost use Rattle.policy_pages.specs.SieveExamples.{WorkedExamples};

use crate::accesses::{evicted, hit, kept};
use queue_table::{Accessed, KeyName, KeyQueues, Run};
use std::alloc::AllocError;

/// An access to a key: a hit sets its visited bit; in a full cache the hand passes over the keys whose bits are set,
/// clearing these, and the key at which it stops leaves. `own_number` is the number of the queue ahead of the hand. The one
/// error is out of memory; the queues are then as before.
///
/// `C` selects an instance (docs/ARCHITECTURE.md).
#[inline(always)]
pub fn step<C, K: KeyName>(
    table: &mut KeyQueues<K>,
    capacity: u32,
    own_number: u32,
    key: K,
) -> Result<Accessed, AllocError>
    requires { own_number ≤ 1 }
    ensures accessed { IfOk result (λ a. IsAccessed (sieve_plan capacity (K.key key) own_number (queues table.old))
        (item_of (K.key key)) own_number (queues table.old) (queues table.new) a) }
    // A hit asks for no memory.
    ensures memory { OnErr result ((sieve_plan capacity (K.key key) own_number (queues table.old)).hits ≡ false) }
    ensures err { OnErr result (queues table.new ≡ queues table.old) }
{
    match table.find(key) {
        Some(found) => {
            let own = table.recount(key, found, 1);
            Ok(hit(own, own_number))
        }
        None => {
            table.reserve()?;
            let ahead = own_number as u8;
            if has_room(table, capacity) {
                let own = table.join_apart(key, ahead, 0);
                return Ok(kept(own, own_number));
            }
            Ok(evict::<C, K>(table, capacity, ahead, key))
        }
    }
}

#[inline(always)]
fn has_room<K: KeyName>(table: &KeyQueues<K>, capacity: u32) -> bool
    ensures { result ≡ nat_lt (length (queues table.now 0) + length (queues table.now 1)) capacity }
{
    let (first, second) = (table.len(0), table.len(1));
    second < capacity as usize && first < capacity as usize - second
}

// A miss of a full cache. Mostly the hand stops before it has to go back to the oldest key: that case is compiled apart.
#[inline(always)]
fn evict<C, K: KeyName>(table: &mut KeyQueues<K>, capacity: u32, ahead: u8, key: K) -> Accessed
    requires low { ahead ≤ 1 }
    requires room { 1 ≤ spare table.old }
    requires absent { queue_holding (item_of (K.key key)) (queues table.old) ≡ None }
    ensures { IsAccessed (sieve_eviction_plan capacity ahead (queues table.old)) (item_of (K.key key)) ahead
        (queues table.old) (queues table.new) result }
{
    let early = table.run(ahead, 1 - ahead, 1, 1, capacity);
    if table.len(ahead) > 0 && early.times < capacity {
        evict_late::<C, K>(table, capacity, ahead, key, early, true)
    } else {
        evict_late::<C, K>(table, capacity, ahead, key, early, false)
    }
}

// The same, once the hand has passed on from where it was.
#[inline(always)]
fn evict_late<C, K: KeyName>(
    table: &mut KeyQueues<K>,
    capacity: u32,
    ahead: u8,
    key: K,
    early: Run,
    stopped: bool,
) -> Accessed
    requires low { ahead ≤ 1 }
    requires stopped { stopped ≡ true
        → nat_lt (count_or 0 (oldest_of (queues table.old (queue_ahead ahead (queues table.old))))) 1 ≡ true }
    requires room { 1 ≤ spare table.old }
    requires absent { queue_holding (item_of (K.key key)) (queues table.old) ≡ None }
    ensures { (s : Queues) → early ≡ pass_run capacity ahead s → IsRun early s (queues table.old)
        → IsAccessed (sieve_eviction_plan capacity ahead s) (item_of (K.key key)) ahead s (queues table.new) result }
{
    let mid = wrap(table, ahead);
    let late = pass(table, capacity, mid, stopped);
    let new = wrap_after(table, mid);
    let (first, own) = table.renew_oldest(mid, key, new, 0);
    evicted(early, late, first, own, u32::from(ahead), u32::from(new))
}

// The hand passes the keys ahead of it whose bits are set, none where it has stopped.
#[inline(always)]
fn pass<K: KeyName>(table: &mut KeyQueues<K>, capacity: u32, ahead: u8, stopped: bool) -> Run
    requires low { ahead ≤ 1 }
    requires stopped { stopped ≡ true → nat_lt (count_or 0 (oldest_of (queues table.old ahead))) 1 ≡ true }
    ensures run { result ≡ pass_run capacity ahead (queues table.old) }
    ensures made { IsRun result (queues table.old) (queues table.new) }
    ensures spare { spare table.new ≡ spare table.old }
{
    let most = if stopped { 0 } else { capacity };
    table.run(ahead, 1 - ahead, 1, 1, most)
}

// Where no key is ahead of the hand, it goes back to the oldest: the queue that is ahead of it then.
#[inline(always)]
fn wrap<K: KeyName>(table: &KeyQueues<K>, ahead: u8) -> u8
    requires { ahead ≤ 1 }
    ensures is { result ≡ queue_ahead ahead (queues table.now) }
    ensures low { result ≤ 1 }
{
    if table.len(ahead) == 0 {
        1 - ahead
    } else {
        ahead
    }
}

// The same, once the oldest of these keys has left.
fn wrap_after<K: KeyName>(table: &KeyQueues<K>, ahead: u8) -> u8
    requires { ahead ≤ 1 }
    ensures is { result ≡ queue_ahead ahead (after_leaving (leaving ahead None) (queues table.now)) }
    ensures low { result ≤ 1 }
{
    table.tabled();
    if table.len(ahead) <= 1 {
        1 - ahead
    } else {
        ahead
    }
}

/// The hand of an eviction stops at a key whose visited bit is clear.
#[tactic(auto, using(crate::proofs::SieveKeeping::passes_suffice))]
pub fn sieve_passes_suffice()
    ensures { (s : SieveState) → oldest_count (after_passes (pass_count s) s).ahead ≡ 0 }
{}

/// On any accesses SIEVE by two lists has the outcomes of its paper's listing: one queue, and a hand that points at a
/// key of it.
#[tactic(auto, using(crate::proofs::SieveListing::is_its_listing))]
pub fn sieve_is_its_listing()
    ensures { (c : ℕ) (keys : List ℕ) → 1 ≤ c
        → outcomes_of_all (sieve_act c) empty_sieve keys ≡ outcomes_of_all (listing_act c) empty_listing keys }
{}

/// A short trace, with outcomes and states by another program.
pub fn worked_examples()
    ensures { WorkedExamples }
{}
