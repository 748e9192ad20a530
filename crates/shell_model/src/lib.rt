//! The concurrent cache as a definition, and what holds of every list of steps; its buffers; and which act comes next
//! in a walk. The definition has the state, what each step makes of it, and the undo record of a step.
//!
//! Striped read buffers and the write queue stand between the callers and the maintenance (Caffeine's Design page). A
//! read buffer may drop what it is offered; the write queue may refuse but loses nothing. Layers above see [`Stripes`]
//! as one list of items a stripe, and [`WriteTasks`] as one list of tasks, each oldest first. Every contract names the
//! lists that its call leaves; a full buffer answers `false` and stays as it is. Each call has one that undoes it, at
//! the end where it acted. Only `new` takes memory.
//!
//! A walk is the list of the steps, with their replies, by which a worker carries out one call (`specs/Walks.antt`).
//! [`next_step`] makes walks and nothing else: whatever completes a walk after the replies so far is what completes it
//! from the next act on. `Local::resume` begins within a walk, where the holder of the maintenance is. What walks mean
//! for the cache is proved too: it takes each act that walks ask of it, whatever the others did meanwhile, and after
//! whole walks nobody holds the maintenance.
#![tactic(auto)]

mod holder;
mod next;
mod place;
mod record;
mod stats;
mod stripes;
mod task;
pub mod theorems;
mod write_tasks;

pub use holder::Holder;
pub use next::{Next, next_step};
pub use place::Local;
pub use record::{Change, EvictionRecord, ShellRecord, UseRecord};
pub use stats::{Counted, ShellStats};
pub use stripes::{MAX_ITEMS, Stripes};
pub use task::Task;
pub use write_tasks::{MAX_TASKS, WriteTasks};
