//! A ticket lock whose value has a history. The value stands for a list of entries, as a session of steps does.
//!
//! The crate promises that whatever threads do, the value's list is one history of the passes' turns: past the
//! entries that it was opened with, those of worker `w` are just the ones that the pass of worker `w` made, in their
//! order, and no other worker has any. A turn sees all that its pass saw before. Nothing is left to redo once an entry
//! was made, and else what was left at first. Nothing is promised of waiting: a turn that is dropped keeps the book
//! taken for good.
#![tactic(auto)]

mod book;
mod fault;
mod rule;
mod view;
mod waiting;

pub use book::{MAX_TURNS, Pass, Turn, TurnBook};
pub use fault::OpenFault;
