//! Belady's optimal policy (MIN, OPT), over a set of numbers as a hierarchical bitmap. The key whose next use is
//! farthest is evicted (Belady 1966). It is what every other policy is compared with.
//!
//! The crate promises that the access at each place of the trace answers the outcome of the
//! definition, which scans plain lists for the farthest next use, and leaves the residents that
//! the definition gives; that an access that is not the trace's next is refused, and no other;
//! that neither an access nor undoing one asks for memory; and that each access can be undone from
//! its record and what the cache shows.
//!
//! `BitSet` is a set of numbers below a size: bits in words, under bits that show which of those words are not 0, and so on
//! up. What was put into it and not taken out is in it, and nothing else, and `least_below` answers the least of its numbers
//! below a bound. Each call costs a fixed number of words, and only `new` asks for memory.
#![tactic(auto)]

mod bit_layer;
mod bit_set;
mod clairvoyant;
mod limits;
mod number_set;
mod optimal_record;
pub mod theorems;
mod top_bit;

pub use bit_set::BitSet;
pub use clairvoyant::Clairvoyant;
pub use limits::MAX_SIZE;
pub use optimal_record::{EvictedKey, OptimalRecord};
pub use trace_index::{NextUse, NextUseFinder};
