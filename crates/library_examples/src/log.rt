//! The value that is written in turns.
use step_record::Kept;

/// A line of a log: the worker that wrote it, and its number.
#[derive(Clone, Copy, Debug, PartialEq, Eq)]
pub struct LogLine {
    pub worker: u8,
    pub number: u64,
}

/// A log. Its name is its origin, which no turn changes.
#[derive(Drop)]
pub struct Log {
    pub name: u64,
    pub lines: Vec<LogLine>,
}

impl Kept for Log {
    ghost use Rattle.std.specs.Prelude.{ℕ, []};

    type Entry = LogLine;

    ghost Origin = { ℕ };

    ghost origin = { λ l. l.name };

    ghost entries = { λ l. l.lines.items };

    // A line that was written stays.
    ghost undone = { λ _. [] };

    ghost worker_of = { λ e. e.worker };
}
