//! Jobs on threads of their own, fed in batches, also while the trace is read. They make reports of a whole trace:
//! `run_actors` of one that is there, `run_reading_within` while it is read, also of one that is too long to be kept.
//! `Outboxes` is how the actors are fed in turn.
//!
//! All promise the same: with `Ok`, each report is `report_on` of its job and the trace, in the order of the jobs.
//! So a policy's report does not depend on how many actors there are, on the size of a batch, or on how the trace
//! came in.
#![tactic(auto)]

mod actor;
mod channel_protocol;
mod feeder;
mod lump;
mod mail;
mod run;
mod source;

pub use policies::{ActorFault, MAX_ACTORS};
pub use run::{check_run, run_actors, run_reading_within};
