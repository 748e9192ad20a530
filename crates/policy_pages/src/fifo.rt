//! FIFO: its definition over a plain list, its plan of moves, and the step that carries the plan out. The definition is
//! `specs/Fifo.antt`; the plan, and the policy as one value, `specs/FifoPlan.antt`.

ghost use Rattle.std.specs.Prelude.{◌≡◌, false, IfOk, OnErr};
ghost use Rattle.queue_table.specs.QueueTable.{queues};
ghost use Rattle.queue_table.specs.Moves.{item_of};
ghost use Rattle.queue_table.specs.Undoing.{IsAccessed};
ghost use Rattle.policy_pages.specs.FifoPlan.{fifo_plan};
ghost use Rattle.policy_pages.specs.FifoExamples.{WorkedExamples};

use crate::accesses::{evicted, hit, kept};
use queue_table::{Accessed, KeyMove, KeyName, KeyQueues, Run};
use std::alloc::AllocError;

const QUEUE: u8 = 0;

/// An access to a key: a hit moves nothing, and at a miss of a full cache the oldest key leaves. The one error is out of
/// memory; the queues are then as before.
///
/// `C` selects an instance (docs/ARCHITECTURE.md).
#[inline(always)]
pub fn step<C, K: KeyName>(
    table: &mut KeyQueues<K>,
    capacity: u32,
    own_number: u32,
    key: K,
) -> Result<Accessed, AllocError>
    ensures accessed { IfOk result (λ a. IsAccessed (fifo_plan capacity (K.key key) own_number (queues table.old))
        (item_of (K.key key)) own_number (queues table.old) (queues table.new) a) }
    // A hit asks for no memory.
    ensures memory { OnErr result ((fifo_plan capacity (K.key key) own_number (queues table.old)).hits ≡ false) }
    ensures err { OnErr result (queues table.new ≡ queues table.old) }
{
    match table.find(key) {
        Some(_) => Ok(hit(KeyMove::unmoved(key.key()), own_number)),
        None => {
            table.reserve()?;
            if table.len(QUEUE) < capacity as usize {
                let own = table.join_apart(key, QUEUE, 0);
                return Ok(kept(own, own_number));
            }
            let (first, own) = table.renew_oldest(QUEUE, key, QUEUE, 0);
            Ok(evicted(Run::NONE, Run::NONE, first, own, own_number, own_number))
        }
    }
}

/// A short trace, with outcomes and states by another program.
pub fn worked_examples()
    ensures { WorkedExamples }
{}
