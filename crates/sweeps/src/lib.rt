//! Jobs over a trace, side by side: at several capacities, or by interval.
//!
//! Of a trace that is kept: `run_one` has the report of one job, `sweep` those of a job at several capacities, `sweep_each`
//! of several jobs at the same capacities, by `rayon`. And what jobs make of a trace over time: `intervals` cuts the
//! accesses into intervals of the same length, of which the last may be shorter, and each job has a row for each. A
//! `CurrentInterval` returns each interval once its accesses were made, to any run of a job.
//!
//! What takes the accesses of a trace piece by piece is a `Taker`: `JobRuns`, which makes these rows and the reports, and
//! above this crate what compares two policies or shows queues. `take_trace` gives it those of a trace that is kept; a
//! trace that is read is given while it is read (`long_traces`). Either way it comes to the same, since its promise is of
//! a trace and of how many of its first accesses were taken. `make_next` has runs of several jobs make them side by side.
//!
//! With `Ok`, each report is `report_on` of its job and the trace, in the order asked for. `intervals` promises that each
//! row counts the outcomes that the policy's definition gives at the row's accesses, over the whole trace;
//! `theorems::intervals_add_up` says that the rows of a policy sum up to its report.
#![tactic(auto)]

mod capacities;
mod current_interval;
mod interval_rows;
mod job_run;
mod job_runs;
mod numbered_report;
mod prepared_trace;
mod runs;
mod side_by_side;
mod single_run;
mod taker;
pub mod theorems;

pub use capacities::{jobs_over, sweep, sweep_batches, sweep_each};
pub use current_interval::CurrentInterval;
pub use interval_rows::intervals;
pub use job_runs::JobRuns;
pub use runs::{Run, make_next, open_runs};
pub use single_run::run_one;
pub use taker::{AT_A_TIME, Taker, pieces_of, take_trace};
