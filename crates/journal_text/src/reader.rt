//! A session's journal from a reader.
ghost use Rattle.std.specs.Prelude.{◌≡◌, ◌<◌, [], Err, OnOk, IfErr, IfSome, length};
ghost use Rattle.engine_base.specs.History.{Entries};
ghost use Rattle.journal_text.specs.Faults.{Accepts, IsFault, IsRefusedAsLarge, IsUnread};
ghost use Rattle.journal_text.specs.Journal.{IsJournalText};
ghost use Rattle.journal.specs.Session.{IsSameSession};
ghost use Rattle.streams.specs.Tally.{FailsWhere};

use super::JournalFault;
use super::replay::read_text;
use engine_base::{Engine, Reply, Step};
use journal::Session;
use std::alloc::Global;
use streams::CountedRead;

/// As many bytes as a journal has at most.
pub const MAX_JOURNAL_BYTES: usize = 1 << 30;

/// Reads the whole reader as a journal of version 1 or 2, into a session in which no step is
/// applied or undone: makes the step of each line, which must get the reply of the line.
///
/// All bytes are read before the first step, so `Read` and `TooLarge` come first and leave the
/// session alone, as does `Header`. Any other fault is that of the first line that is wrong, and
/// the steps of the lines before it are applied; after `FalseReply` the step of its own line is
/// too, with the reply that it got. After a fault it is not said how much was read.
pub fn read_journal<R: CountedRead, E: Engine<Step = Step, Reply = Reply>>(
    alloc: Global,
    reader: &mut R,
    session: &mut Session<E>,
) -> Result<(), JournalFault>
    requires kept { session.old.kept ≡ [] }
    requires tail { session.old.tail ≡ [] }
    // The bytes are a journal that the session takes, and it holds the entries of that.
    ensures ok { OnOk result (IfSome (R.remaining reader.old) (λ bytes.
        IsJournalText E.act session.old.opening session.old.limit bytes session.new.kept)) }
    // Each journal that the session takes is accepted, unless memory or the reader failed.
    ensures accepts { IfSome (R.remaining reader.old) (λ bytes. (es : Entries) →
        IsJournalText E.act session.old.opening session.old.limit bytes es → Accepts result session.new.kept es) }
    // What a fault says is so.
    ensures err { IfErr result (λ f. IfSome (R.remaining reader.old) (λ bytes.
        IsFault E.act session.old.opening session.old.limit f bytes session.new.kept)) }
    // More bytes than a journal may have are refused as such, unless memory or the reader failed.
    ensures large { IfSome (R.remaining reader.old) (λ bytes.
        MAX_JOURNAL_BYTES < length bytes → IsRefusedAsLarge result) }
    // What is found before the first step leaves the session as it was.
    ensures unread { IfErr result (λ f. IsUnread f → IsSameSession E.seen session.old session.new) }
    ensures opening { session.new.opening ≡ session.old.opening }
    ensures limit { session.new.limit ≡ session.old.limit }
    ensures tail { session.new.tail ≡ [] }
    // `Read` comes just where a read failed, or the millionth was interrupted.
    ensures tally { FailsWhere (result ≡ Err JournalFault.Read) (R.tally reader.old) (R.tally reader.new) }
{
    let bytes = streams::read_all(alloc, reader, MAX_JOURNAL_BYTES)?;
    read_text(alloc, bytes.as_slice(), session)
}
