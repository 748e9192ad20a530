//! Reports and intervals as comma-separated text.
//!
//! `reports_text` is exactly the header line and one line a report, each ended by a line feed; `intervals_text` the
//! same of intervals; with `Ok`, `write_reports` has written the one. A rate is a number of hundredths of a percent,
//! rounded down, and is never computed by floating point.
#![tactic(auto)]

mod interval_rows;
mod rows;

pub use interval_rows::{interval_numbers, intervals_text};
pub use policies::{Interval, Report};
pub use rows::{rate_text, reports_text, write_reports};
pub use streams::WriteFault;
