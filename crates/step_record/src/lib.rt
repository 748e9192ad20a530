//! Policies and jobs: which policy is run, by which word, with which sizes, on which configuration. What no policy's
//! word is needed for stands in `engine_base`, which this crate passes on: a caller names one crate.
#![tactic(auto)]

mod job;
mod sizes;

pub use engine_base::{
    Act, Answer, BitList, ByWorker, Call, Config, ConfigFault, Drain, Engine, Entry, Gate, Item,
    Kept, Key, MAX_ACCESSES, MAX_BATCH, MAX_CAPACITY, MAX_GHOST_PERCENT, MAX_JOURNAL_LIMIT,
    MAX_LIST_WORDS, MAX_MAIN_PERCENT, MAX_PART_PERCENT, MAX_STEPS, MAX_STRIPES, MAX_TRACE_BYTES,
    MAX_WORKERS, Node, OpenGate, Outcome, Phase, Reply, Spread, Stats, Step, StepFault, Trace,
    Worker, bits,
};
pub use job::{Job, POLICIES, Policy, Tuning, push_name};
pub use sizes::Sizes;
