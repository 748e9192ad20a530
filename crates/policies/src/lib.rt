//! All policies as one engine, `AnyPolicy`, with one table of what each of them is (`design_of`); a job over a trace and
//! its report. A cache of any policy is one of queues (of the crate `queue_cache`), one that keeps each missed key
//! (`demand_cache`), one whose window follows the hits (`AdaptiveCache`), or Belady's optimal policy (`clairvoyant`).
//! What it promises over lists of accesses stands as the theorems below, over the steps alone, so that it reaches callers
//! that see a cache through a session.
//!
//! What every run of jobs needs stands here too, on threads or side by side: the accesses of a trace made in turn, the
//! `Report` of a job over it, and which job is refused, with the fault that says so (`ActorFault`).
#![tactic(auto)]

mod access_loops;
mod actor_fault;
mod any_policy;
mod cache_run;
mod design;
mod job_checks;
mod report;
mod same;
pub mod theorems;
mod trace_run;

pub use actor_fault::ActorFault;
pub use any_policy::{AnyPolicy, AnyRecord};
pub use cache_run::CacheRun;
pub use design::{Design, design_of};
pub use job_checks::{MAX_ACTORS, check_capacities, check_jobs, with_capacity};
pub use queue_cache::{Layout, Lru, SegmentedLru, TinyLfu, WindowTinyLfu};
pub use report::{Interval, Report};
pub use same::{clone_of_report, clone_of_stats, is_same_report, is_same_stats};
pub use trace_run::{access_all, access_in_batches, report_over};
