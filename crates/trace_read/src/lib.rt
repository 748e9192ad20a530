//! Trace files: bytes to accesses, and a sample of these.
//!
//! Two formats of recorded block traces are read, LIRS and ARC. The bytes are cut into lines at
//! each line feed, and each line by itself gives some accesses or is faulty. `read_trace` gives
//! the accesses of all lines in order where no line is faulty, and else the fault of the first
//! faulty line, with its number. The rules of both formats are defined by this project.
//!
//! A `Reading` gives the accesses to its caller, some at a time, within `Limits` on accesses and bytes. `read_trace`
//! and `read_trace_within` keep them all.
//!
//! A file is read in one pass, piece by piece, and no bytes are kept but those of the last piece and of a line that a
//! piece cut in two. The accesses of a line of many are made and given some hundreds at a time. `Read` and `TooLarge`
//! come before the fault of a line.
//!
//! A sample of a trace has all accesses to some of its blocks, and none to the others, chosen by a hash of the block's
//! number. `write_sample` reads a trace of any length and writes the accesses that it keeps while it reads: neither the
//! trace nor the sample is ever whole in memory, which holds the blocks that are kept and some text.
#![tactic(auto)]

mod arc;
mod digit_runs;
mod digits;
mod fault;
mod format;
mod limits;
mod lirs;
mod pending;
mod pieces;
mod reader;
mod reading;
mod sample_counts;
mod sample_fault;
mod sample_rule;
mod sample_writer;
mod sampled_accesses;
mod scan;

pub use engine_base::Trace;
pub use fault::TraceFault;
pub use format::Format;
pub use limits::{Limits, MAX_LONG_ACCESSES, MAX_LONG_TRACE_BYTES};
pub use reader::{read_trace, read_trace_within};
pub use reading::Reading;
pub use sample_counts::SampleCounts;
pub use sample_fault::SampleFault;
pub use sample_rule::SampleRule;
pub use sample_writer::write_sample;
