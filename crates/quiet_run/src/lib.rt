//! A maintenance finished by its holder; quiet runs, and why they are W-TinyLFU. In a quiet run one worker makes the
//! accesses, with a whole round after each, so that nothing is under way.
//!
//! `settle` finishes a maintenance by its holder's own steps, and `run_quiet` accesses keys; both say which steps
//! they added, and how many where they were cut off. A quiet run is W-TinyLFU: `specs/Quiet.antt` says what it is
//! that the cache and the policy hold the same, and the policies' table of moves goes by keys alone, so that the
//! cache's items may stand for them.
#![tactic(auto)]

mod round;
mod run;
pub mod theorems;

pub use round::{SettleFault, settle};
pub use run::{QuietFault, run_quiet};
