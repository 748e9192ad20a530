//! A Count-Min sketch of four-bit counters, and its halving. TinyLFU (2017) keeps access frequencies so: four rows of
//! counters, sixteen to a word.
//!
//! Each key has one counter in each row. A touch raises those four, up to 15, and a halving floors every counter to
//! half. Both return a record that undoes them exactly: a touch's record is the key and four flags, and a halving's
//! is the bits that were lost, a quarter of the table. What a call leaves, what its record is and what undoing it
//! leaves are each a function of the counters before the call.
#![tactic(auto)]

mod blocks;
mod columns;
mod counters;
mod halve_record;
pub mod laws;
mod rows;
mod sketch;
mod touch_record;

pub use columns::{MAX_WIDTH, column, mix};
pub use halve_record::HalveRecord;
pub use sketch::Sketch;
pub use touch_record::{RaisedRows, TouchRecord};
