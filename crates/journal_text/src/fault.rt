//! Why a journal was not read.
ghost use Rattle.std.specs.Prelude.{◌≡◌};
ghost use Rattle.journal_text.specs.ReadFaults.{fault_of};

use std::fmt;
use streams::ReadAllFault;
use thiserror::Error;

/// Why a journal was not read. Steps count from 1. It is displayed by its name, with the step where it
/// has one: `FalseReply step 1`.
#[derive(Clone, Copy, Debug, Error)]
pub enum JournalFault {
    /// Out of memory for the bytes, for the text of a line, or for a step.
    OutOfMemory,
    /// The first line is not a header, or has no line feed.
    Header,
    /// The line is not in the grammar, or there are bytes after the count of the steps.
    Line { step: usize },
    /// The step got another reply than the one that the line says.
    FalseReply { step: usize },
    /// The engine does not take the step in this state.
    NotNow { step: usize },
    /// As many steps are applied as the session's limit.
    JournalFull { step: usize },
    /// The reader failed, or was interrupted a million times.
    Read,
    /// The last line has no line feed, or the count of the steps is missing.
    Unended,
    /// The reader had over 2^30 bytes.
    TooLarge,
    /// There are not as many steps as the last line says.
    Count,
}

impl fmt::Display for JournalFault {
    ghost use Rattle.std.specs.Prelude.{Some};
    ghost use Rattle.journal_text.specs.FaultText.{journal_fault_text};

    ghost output = { λ fault. Some (journal_fault_text fault) };

    fn fmt<W: fmt::Write>(&self, f: &mut fmt::Formatter<W>) -> fmt::Result {
        match self {
            JournalFault::OutOfMemory => f.write_str("OutOfMemory"),
            JournalFault::Header => f.write_str("Header"),
            JournalFault::Line { step } => write!(f, "Line step {step}"),
            JournalFault::FalseReply { step } => write!(f, "FalseReply step {step}"),
            JournalFault::NotNow { step } => write!(f, "NotNow step {step}"),
            JournalFault::JournalFull { step } => write!(f, "JournalFull step {step}"),
            JournalFault::Read => f.write_str("Read"),
            JournalFault::Unended => f.write_str("Unended"),
            JournalFault::TooLarge => f.write_str("TooLarge"),
            JournalFault::Count => f.write_str("Count"),
        }
    }
}

impl From<ReadAllFault> for JournalFault {
    ghost from_gives = { λ f e. e ≡ fault_of f };

    fn from(fault: ReadAllFault) -> JournalFault {
        match fault {
            ReadAllFault::OutOfMemory => JournalFault::OutOfMemory,
            ReadAllFault::TooLarge => JournalFault::TooLarge,
            ReadAllFault::Read => JournalFault::Read,
        }
    }
}
