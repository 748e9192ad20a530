//! Workers on threads over a session of the concurrent cache.
//!
//! `drive` has each worker enter one walk for each of its calls, in order, into the session, which the workers take in
//! turns, or the beginning of such walks where it was refused a step. `Driven::list` lists one worker's entries.
#![tactic(auto)]

mod driven;
mod run;

pub use driven::Driven;
pub use run::{Cause, DriveFault, drive};
