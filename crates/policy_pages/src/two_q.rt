//! 2Q: its definition over plain lists, its plan of moves, and the step that carries the plan out. The definition is
//! `specs/TwoQ.antt`; the plan, and the policy as one value, `specs/TwoQPlan.antt`.

ghost use Rattle.std.specs.Prelude.{◌≡◌, ◌≤◌, nat_lt, ◌==◌, ◌||◌, false, length, IfOk, OnErr};
ghost use Rattle.queue_table.specs.QueueTable.{queues};
ghost use Rattle.queue_table.specs.Moves.{item_of};
ghost use Rattle.queue_table.specs.Undoing.{IsAccessed};
ghost use Rattle.policy_pages.specs.MissedKey.{IsOutside};
ghost use Rattle.policy_pages.specs.TwoQPlan.{A1IN, A1OUT, AM, joins, two_q_miss, two_q_plan};
ghost use Rattle.policy_pages.specs.TwoQExamples.{WorkedExamples};

use crate::accesses::{LeftKeys, hit, kept, miss_without_runs};
use crate::missed_key::{enter_apart, enter_for_oldest, enter_for_remembered};
use queue_table::{Accessed, Found, KeyMove, KeyName, KeyQueues};
use std::alloc::AllocError;

const A1IN: u8 = 0;

const A1OUT: u8 = 1;

const AM: u8 = 2;

// Selects the instance of a miss of a key that was searched.
struct Searched;

// Selects the instance of a miss of which `a1out` keeps the key that leaves.
struct Remembered;

/// The sizes of two parts of a 2Q cache, in keys. Any numbers will do.
#[derive(Clone, Copy, Debug, PartialEq, Eq)]
pub struct TwoQSizes {
    /// How many keys `a1in` is to have, the queue of new keys.
    pub kin: u32,
    /// How many keys `a1out` remembers.
    pub kout: u32,
}

/// An access to a key, by 2Q's plan, with parts of any sizes. The one error is out of memory; the queues are then as
/// before. 2Q has no number of its own.
///
/// `C` selects an instance (docs/ARCHITECTURE.md).
#[inline(always)]
pub fn step<C, K: KeyName>(
    table: &mut KeyQueues<K>,
    sizes: TwoQSizes,
    capacity: u32,
    own_number: u32,
    key: K,
) -> Result<Accessed, AllocError>
    ensures accessed { IfOk result (λ a. IsAccessed (two_q_plan sizes capacity (K.key key) own_number
        (queues table.old)) (item_of (K.key key)) own_number (queues table.old) (queues table.new) a) }
    // A hit asks for no memory.
    ensures memory { OnErr result
        ((two_q_plan sizes capacity (K.key key) own_number (queues table.old)).hits ≡ false) }
    ensures err { OnErr result (queues table.new ≡ queues table.old) }
{
    let Some(found) = table.find(key) else {
        // Room is made before anything moves.
        table.reserve()?;
        return Ok(miss::<C, K>(table, sizes, capacity, own_number, key, None, false));
    };
    if found.queue == AM {
        Ok(hit(table.send(key, found, AM, 0), own_number))
    } else if found.queue == A1IN {
        Ok(hit(KeyMove::unmoved(key.key()), own_number))
    } else {
        table.tabled();
        // To 2Q a key of a queue that it does not use is new.
        let remembered = found.queue == A1OUT;
        let found = Some(found);
        Ok(miss::<(C, Searched), K>(table, sizes, capacity, own_number, key, found, remembered))
    }
}

// A miss. In a full cache a key leaves, and a1out may forget one.
#[inline(always)]
fn miss<C, K: KeyName>(
    table: &mut KeyQueues<K>,
    sizes: TwoQSizes,
    capacity: u32,
    own_number: u32,
    key: K,
    found: Option<Found>,
    remembered: bool,
) -> Accessed
    requires outside { IsOutside remembered found (item_of (K.key key)) A1IN AM A1OUT table.old }
    ensures { IsAccessed (two_q_miss sizes capacity remembered own_number (queues table.old))
        (item_of (K.key key)) own_number (queues table.old) (queues table.new) result }
{
    let queue = queue_of(remembered);
    let (a1in, am) = (table.len(A1IN), table.len(AM));
    if a1in < (capacity as usize).saturating_sub(am) {
        let own = enter_apart(table, key, found, queue);
        return kept(own, own_number);
    }
    if !a1in_gives(a1in, am, sizes.kin) {
        let (first, own) = enter_for_oldest::<C, K>(table, AM, key, found, queue);
        return miss_without_runs(LeftKeys::one(first), own, own_number, own_number);
    }
    let size = sizes.kout;
    let (left, own) = enter_for_remembered::<(C, Remembered), K>(
        table, A1IN, A1OUT, size, key, found, remembered, queue,
    );
    miss_without_runs(left, own, own_number, own_number)
}

// The queue that a key joins.
fn queue_of(remembered: bool) -> u8
    ensures { result ≡ joins remembered }
{
    if remembered { AM } else { A1IN }
}

// Whether a1in gives up a key, and not am.
fn a1in_gives(a1in: usize, am: usize, kin: u32) -> bool
    ensures { result ≡ (nat_lt kin a1in || am == 0) }
{
    (kin as usize) < a1in || am == 0
}

/// Short traces, with outcomes and states by another program.
pub fn worked_examples()
    ensures { WorkedExamples }
{}
