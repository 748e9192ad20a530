//! Four queues of distinct items by number, a count beside each, in one ring of slots with a hash index whose buckets
//! are search trees.
//!
//! Layers above see a [`QueueTable`] as a list of entries for each of its queues, oldest first, and the room that is
//! left. Each call leaves the lists that its contract names; one that takes an item out of its place says where it
//! stood, by the item right before it, so that it can go back. The slots of other items stay in use, so that a caller
//! may hold them.
//!
//! Only `list` walks a queue: the items stand in slots that are linked into one ring, and a hash index whose buckets
//! are search trees finds the slot of an item, in 129 slots at most whatever the keys. Only `reserve` and `list`
//! allocate.
//!
//! All slots stand in one ring, linked both ways, so that no move has a case for an end. Slots 0 to 5 hold no item:
//! slot s stands before section s, and slot s + 1 after it. Section 0 has the free slots, section q + 1 those of queue
//! q, oldest first. Here A and B stand in queue 0, C in queue 1 and D in queue 3:
//!
//! ```text
//!          free slots   queue 0          queue 1    queue 2  queue 3
//! +-> [0] - 8 - 11 - [1] - 6:A - 9:B - [2] - 7:C - [3] - [4] - 10:D - [5] -+
//! +------------------------------------------------------------------------+
//!
//! index: bucket of A's hash -> slot 9:B        a tree of the slots whose items share the bucket:
//!                              /       \        a bit of key and node a level says left or right
//!                          6:A           10:D
//! ```
//!
//! Above the table stand moves of keys between queues ([`KeyQueues`]). A policy says what an access does as a plan: runs of
//! oldest keys, keys that leave the old end of a queue, and what becomes of the accessed key. Each call carries out one part
//! of a plan and returns its part of the undo record; the whole record fits the queues after the access, and leads back to
//! those before it. So a policy has no way back of its own.
#![tactic(auto)]

mod growth;
mod key_name;
mod key_queues;
mod lengths;
mod links;
mod moves;
mod queue_table;
mod records;
mod slot;
mod slot_index;
mod undo;

pub use key_name::KeyName;
pub use key_queues::KeyQueues;
pub use moves::{Accessed, Change, Departure, KeyMove, Left, Moves, Run};
pub use queue_table::{AHEAD, QueueTable, push_keys};
pub use records::{Entry, Found, Place};
pub use slot::{NarrowKey, TableItem};
