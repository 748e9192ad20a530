//! The concurrent cache's journal, which is never too long to be read back.
//!
//! `journal_text` reads at most 2^30 bytes and knows no cache. `text_size` promises that a journal of the concurrent
//! cache is no longer, and `copy_journal` that whatever a session over it writes is read into a session opened alike.
#![tactic(auto)]

mod copy;
pub mod theorems;

pub use copy::copy_journal;
