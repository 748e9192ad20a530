//! The text of a journal, written and read. It is written from the applied steps of a session, and read back into a
//! session.
//!
//! `write_journal` promises that with `Ok` it has written exactly the text of the applied steps.
//! `read_journal` accepts exactly the texts whose entries are legal from the session's state and
//! within its limit, holds these entries then, and otherwise says what is wrong in the first line
//! that is. The grammar is this project's own, with one spelling for each entry.
#![tactic(auto)]

mod fault;
mod grammar;
mod line;
mod line_text;
mod reader;
mod replay;
mod steps;
mod table;
pub mod theorems;
mod version;
mod writer;

pub use fault::JournalFault;
pub use line::JournalLine;
pub use reader::{MAX_JOURNAL_BYTES, read_journal};
pub use streams::WriteFault;
pub use version::Version;
pub use writer::write_journal;
