//! Jobs over a trace while it is read, which is kept only where a policy has to know it whole.
//!
//! `reports` makes the report of each of any number of jobs, `intervals` their rows for each interval, `queues_text` these
//! rows once a queue, `compare` and `compare_intervals` count at which accesses two policies hit, and `part` finds the
//! first at which just one does. `footprint` counts the accesses and the blocks. Each promises what the policies'
//! definitions give over all accesses of the bytes read.
//!
//! The caches take the accesses piece by piece, so no memory grows with the trace but the rows, or where Belady's policy
//! is among the jobs. `reports` calls its gate around each batch of an actor.
#![tactic(auto)]

mod feed;
mod footprints;
mod jobs;
mod pairs;

pub use footprints::footprint;
pub use jobs::{intervals, queues_text, reports};
pub use pairs::{compare, compare_intervals, part};
