//! S3-FIFO: its definition over plain lists, its plan of moves, and the step that carries the plan out. The definition is
//! `specs/S3Fifo.antt`; the plan, and the policy as one value, `specs/S3FifoPlan.antt`.

ghost use Rattle.std.specs.Prelude.{◌≡◌, ◌≤◌, false, length, IfOk, OnErr};
ghost use Rattle.engine_base.specs.declared.limits.TheConstants.{MAX_CAPACITY};
ghost use Rattle.queue_table.specs.Queues.{Queues};
ghost use Rattle.queue_table.specs.QueueTable.{queues};
ghost use Rattle.policy_pages.specs.S3Fifo.{s3_fifo_main_size, hit_count, IsS3Fifo};
ghost use Rattle.queue_table.specs.Moves.{item_of};
ghost use Rattle.queue_table.specs.Undoing.{IsRun, IsAccessed};
ghost use Rattle.policy_pages.specs.MissedKey.{IsOutside};
ghost use Rattle.policy_pages.specs.S3FifoPlan.{SMALL as SmallQueue, MAIN as MainQueue, GHOST as GhostQueue, s3_fifo_of};
ghost use Rattle.policy_pages.specs.S3FifoPlan.{joins, gives_main, eviction_plan, is_resident, s3_fifo_miss, s3_fifo_plan};
ghost use Rattle.policy_pages.specs.S3FifoExamples.{WorkedExamples};

use crate::accesses::{LeftKeys, hit, kept, miss_after_runs};
use crate::missed_key::{enter_apart, enter_for_oldest, enter_for_remembered};
use queue_table::{Accessed, Found, KeyName, KeyQueues, Run};
use std::alloc::AllocError;

const SMALL: u8 = 0;

const MAIN: u8 = 1;

const GHOST: u8 = 2;

// Selects the instance of a miss of a key that was searched.
struct Searched;

// Selects the instance of a miss after which a key leaves the small queue.
struct Early;

/// An access to a key, by S3-FIFO's plan, where the small queue is to have `part` keys, any number. The one error is
/// out of memory; the queues are then as before. S3-FIFO has no number of its own.
///
/// `C` selects an instance (docs/ARCHITECTURE.md).
#[inline(always)]
pub fn step<C, K: KeyName>(
    table: &mut KeyQueues<K>,
    part: u32,
    capacity: u32,
    own_number: u32,
    key: K,
) -> Result<Accessed, AllocError>
    requires few { capacity ≤ MAX_CAPACITY }
    requires state { IsS3Fifo part capacity (s3_fifo_of (queues table.old)) }
    ensures accessed { IfOk result (λ a. IsAccessed (s3_fifo_plan part capacity (K.key key) own_number
        (queues table.old)) (item_of (K.key key)) own_number (queues table.old) (queues table.new) a) }
    ensures memory { OnErr result
        ((s3_fifo_plan part capacity (K.key key) own_number (queues table.old)).hits ≡ false) }
    ensures err { OnErr result (queues table.new ≡ queues table.old) }
{
    let Some(found) = table.find(key) else {
        // Room in the table is made before anything moves.
        table.reserve()?;
        return Ok(miss::<C, K>(table, part, capacity, own_number, key, None, false));
    };
    if is_resident(found.queue) {
        let own = table.recount(key, found, one_hit_more(found.count));
        Ok(hit(own, own_number))
    } else {
        table.tabled();
        let remembered = found.queue == GHOST;
        let found = Some(found);
        Ok(miss::<(C, Searched), K>(table, part, capacity, own_number, key, found, remembered))
    }
}

// Whether a key of this queue is in the cache.
fn is_resident(queue: u8) -> bool
    ensures { result ≡ is_resident queue }
{
    queue == SMALL || queue == MAIN
}

// The count after a hit.
fn one_hit_more(count: u8) -> u8
    ensures { result ≡ hit_count count }
{
    if count < 3 { count + 1 } else { 3 }
}

// A miss. In a full cache main takes keys of the small queue, and then a key leaves.
#[inline(always)]
fn miss<C, K: KeyName>(
    table: &mut KeyQueues<K>,
    part: u32,
    capacity: u32,
    own_number: u32,
    key: K,
    found: Option<Found>,
    remembered: bool,
) -> Accessed
    requires few { capacity ≤ MAX_CAPACITY }
    requires state { IsS3Fifo part capacity (s3_fifo_of (queues table.old)) }
    requires outside { IsOutside remembered found (item_of (K.key key)) SmallQueue MainQueue GhostQueue table.old }
    ensures { IsAccessed (s3_fifo_miss part capacity remembered own_number (queues table.old))
        (item_of (K.key key)) own_number (queues table.old) (queues table.new) result }
{
    if table.len(SMALL) + table.len(MAIN) < capacity as usize {
        let own = enter_apart(table, key, found, queue_of(remembered));
        return kept(own, own_number);
    }
    table.tabled();
    let main = main_size(part, capacity);
    // Main takes the oldest keys of the small queue that were hit twice, until it is over its size.
    let room = (main as usize + 1).saturating_sub(table.len(MAIN));
    let early = table.run(SMALL, MAIN, 0, 2, room as u32);
    evict::<C, K>(table, main, own_number, key, found, remembered, early)
}

// The queue that a key joins.
fn queue_of(remembered: bool) -> u8
    ensures { result ≡ joins remembered }
{
    if remembered { MAIN } else { SMALL }
}

// The size that the main queue is to have, and that of the ghost.
fn main_size(part: u32, capacity: u32) -> u32
    ensures { result ≡ s3_fifo_main_size part capacity }
{
    capacity.saturating_sub(part)
}

// A key leaves for the accessed one, once all are promoted that are to be.
#[inline(always)]
fn evict<C, K: KeyName>(
    table: &mut KeyQueues<K>,
    main: u32,
    own_number: u32,
    key: K,
    found: Option<Found>,
    remembered: bool,
    early: Run,
) -> Accessed
    requires few { length (queues table.old MainQueue) ≤ MAX_CAPACITY }
    requires outside { IsOutside remembered found (item_of (K.key key)) SmallQueue MainQueue GhostQueue table.old }
    ensures { (s : Queues) → IsRun early s (queues table.old)
        → IsAccessed (eviction_plan main early remembered own_number (queues table.old))
        (item_of (K.key key)) own_number s (queues table.new) result }
{
    let queue = queue_of(remembered);
    if main_gives(table, main) {
        let most = 3 * table.len(MAIN) as u32;
        let late = table.run(MAIN, MAIN, 1, 1, most);
        let (first, own) = enter_for_oldest::<C, K>(table, MAIN, key, found, queue);
        return miss_after_runs(
            early,
            late,
            LeftKeys::one(first),
            own,
            own_number,
            own_number,
        );
    }
    let (left, own) = enter_for_remembered::<(C, Early), K>(
        table, SMALL, GHOST, main, key, found, remembered, queue,
    );
    miss_after_runs(early, Run::NONE, left, own, own_number, own_number)
}

// Whether main gives up a key, and not the small queue.
fn main_gives<K: KeyName>(table: &KeyQueues<K>, main: u32) -> bool
    ensures { result ≡ gives_main main (queues table.now) }
{
    table.len(SMALL) == 0 || (main as usize) < table.len(MAIN)
}

/// Short traces, with outcomes and states by another program.
pub fn worked_examples()
    ensures { WorkedExamples }
{}
