//! Short programs of a caller. They are over a policy, over a session, over the concurrent cache on threads, and over
//! the turn lock at a value of one's own. What each promises follows from the public contracts of the crates beneath.
//! `docs/LIBRARY.md` goes through them; the crate `example_tests` runs each.
#![tactic(auto)]

mod concurrent_run;
mod interval_hits;
mod log;
mod log_turn;
mod residents;
mod warm_hits;
mod writers;

pub use concurrent_run::{RunFault, copy_of, run_settled};
pub use interval_hits::{hits_by_interval, outcomes};
pub use log::{Log, LogLine};
pub use log_turn::{AppendFault, append};
pub use residents::{open_session, residents_at};
pub use warm_hits::hits_after;
pub use writers::{Written, write_log};
