//! Theorems on the text of journals, on public functions with empty bodies.
ghost use Rattle.std.specs.Prelude.{◌≡◌, ◌<◌, ◌≤◌, ◌^◌, ℕ, length};
ghost use Rattle.journal.specs.Session.{IsSoundSession, SessionState};
ghost use Rattle.journal_text.specs.Journal.{Step, Reply, Version, journal_of, AreLines, IsJournalText};
ghost use Rattle.journal_text.specs.Table.{JournalLine, text_of, IsLine};
ghost use Rattle.journal_text.specs.declared.reader.TheConstants.{MAX_JOURNAL_BYTES};
ghost use Rattle.journal_text.specs.declared.version.Version.TheVariants.{Two};
ghost use Rattle.engine_base.specs.History.{Entries};

use engine_base::{Engine, Reply, Step};

/// No text is that of two lines of the grammar.
pub fn one_line()
    ensures { (v : Version) (l m : JournalLine) → IsLine v l → IsLine v m → text_of l ≡ text_of m → l ≡ m }
{}

/// No text is the journal of two lists of entries.
pub fn one_journal()
    ensures { (v w : Version) (es fs : Entries) → length es < 2 ^ 64 → length fs < 2 ^ 64
        → AreLines v es → AreLines w fs → journal_of v es ≡ journal_of w fs → (v ≡ w) × (es ≡ fs) }
{}

/// What `write_journal` writes of a session is read by `read_journal` into a session opened alike.
pub fn read_back<E: Engine<Step = Step, Reply = Reply>>()
    // The text is a journal that a session takes which was opened on the same state and has the room.
    ensures taken { (s : SessionState E E.Data Step Reply) (limit : ℕ) → IsSoundSession E.act E.count E.pace E.seen s
        → AreLines Two s.kept → length s.kept ≤ limit → length (journal_of Two s.kept) ≤ MAX_JOURNAL_BYTES
        → IsJournalText E.act s.opening limit (journal_of Two s.kept) s.kept }
    // A session opened alike that holds the same entries shows the same.
    ensures state { (s t : SessionState E E.Data Step Reply) → IsSoundSession E.act E.count E.pace E.seen s
        → IsSoundSession E.act E.count E.pace E.seen t → t.opening ≡ s.opening → t.kept ≡ s.kept
        → E.seen t.engine ≡ E.seen s.engine }
{}
