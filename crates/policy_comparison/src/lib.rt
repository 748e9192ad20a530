//! Where two policies part over a trace, and how often they hit together; and the queues of a policy, interval by
//! interval.
//!
//! `part` runs both policies side by side, once, and promises by their definitions over the whole trace: the access
//! that it returns is the first at which just one of the two hits, and with `None` there is no such access. `compare`
//! counts the accesses of the whole trace at which both hit, only one of them, or neither, by the same definitions,
//! and `compare_intervals` those of each interval.
//!
//! `queues_text` is the text of several jobs over a trace that is kept; `QueueRuns` takes the accesses piece by piece,
//! also while a trace is read. The queues are those of the policy's definition once the first accesses are made
//! (`QueuesAt`). Each row is that of the interval, once a queue, with how many keys the queue holds once the interval's
//! last access is made, how many of these have their bit or count set, and how many keys left the queue over the
//! interval.
#![tactic(auto)]

mod cache_access;
mod compared_intervals;
mod compared_rows;
mod compared_run;
mod comparison;
mod divergence;
mod left_keys;
mod pair;
mod part_run;
mod queue_rows;
mod queue_run;
mod queue_runs;
pub mod theorems;

pub use cache_access::{hit_at, hits};
pub use compared_intervals::{compare, compare_intervals, push_compared_intervals};
pub use compared_rows::ComparedInterval;
pub use compared_run::ComparedRun;
pub use comparison::{Comparison, push_comparison};
pub use divergence::{part, part_watched, push_part};
pub use part_run::PartRun;
pub use queue_runs::{QueueRuns, queues_text};
