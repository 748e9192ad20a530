//! The table of moves: what a hit, a miss and an eviction do to the queues, with an undo record. It is one table for
//! the policies of queues and for the concurrent cache, for items with any node.
//!
//! `access`, `hit` and `evict` carry out the table, `specs/Table.antt`, and hand back the undo record of what they
//! moved; `undo` takes it back from the record and the queues alone. A policy is a choice of `Rules` and of an
//! admission filter.
#![tactic(auto)]

mod accesses;
mod admission_filter;
mod hits;
mod misses;
mod queue_moves;
mod record;
mod rollback;
mod rules;
pub mod theorems;

pub use accesses::{access, make_room};
pub use admission_filter::{open_frequency, open_frequency_without_doorkeeper};
pub use hits::hit;
pub use misses::evict;
pub use record::{Effect, Leaver, Moves, Sent};
pub use rollback::undo;
pub use rules::{Placement, Rules};
