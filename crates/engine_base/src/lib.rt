//! Keys, configurations, traces, outcomes and steps; engines whose every step can be undone; bits in words, lists
//! by place. All crates of the simulator share them.
//!
//! The crate promises that a configuration is accepted exactly where each of its numbers is in
//! its range, and states the law that every engine keeps: a step's reply and new data depend on
//! the step and the data before it alone, and undoing the step's record gives those data back.
//!
//! Plain data stands here too: [`bits`] reads and writes one bit of a slice of words, and [`BitList`] is a list of bits,
//! packed, that does not change. Their definitions and lemmas are for every crate above.
#![tactic(auto)]

mod bit_list;
pub mod bits;
mod config;
mod drain;
mod engine;
mod entry;
mod gate;
mod item;
mod kept;
mod limits;
mod outcome;
mod stats;
mod step;
mod trace;
mod worker;

pub use bit_list::{BitList, MAX_LIST_WORDS};
pub use config::{Config, ConfigFault, Spread};
pub use drain::{Drain, Phase};
pub use engine::{Engine, StepFault};
pub use entry::Entry;
pub use gate::{Gate, OpenGate};
pub use item::{Item, Key, Node};
pub use kept::{ByWorker, Kept};
pub use limits::{
    MAX_ACCESSES, MAX_BATCH, MAX_CAPACITY, MAX_GHOST_PERCENT, MAX_JOURNAL_LIMIT, MAX_MAIN_PERCENT,
    MAX_PART_PERCENT, MAX_STEPS, MAX_STRIPES, MAX_TRACE_BYTES,
};
pub use outcome::Outcome;
pub use stats::Stats;
pub use step::{Act, Answer, Call, Reply, Step};
pub use trace::Trace;
pub use worker::{MAX_WORKERS, Worker};
