//! `workers` and `quiet_run` under one name, with the walks of `shell_model`. They are the walks of the workers' calls,
//! their runs on threads, and finishing a maintenance and quiet runs.
#![tactic(auto)]

pub use quiet_run::{QuietFault, SettleFault, run_quiet, settle, theorems};
pub use shell_model::{Local, Next, next_step};
pub use workers::{Cause, DriveFault, Driven, drive};
