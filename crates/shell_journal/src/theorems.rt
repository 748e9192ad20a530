//! Theorems on the text of a journal, and on what is read into, on public functions with empty bodies.
ghost use Rattle.shell_journal.specs.Copy.{OpenedAlikeLaw};
ghost use Rattle.shell_journal.specs.JournalSize.{TextSizeLaw};

/// With as many entries as a session may have, the text of a concurrent cache's journal is no longer than a reader
/// takes.
pub fn text_size()
    ensures { TextSizeLaw }
{}

/// Two concurrent caches that were just opened with one configuration are alike, as `copy_journal` asks.
pub fn opened_alike()
    ensures { OpenedAlikeLaw }
{}
