//! The lines of a journal, whose steps are made one after another.
ghost use Rattle.std.specs.Prelude.{◌≡◌, ◌≢◌, ◌≤◌, ◌<◌, ◌+◌, ◌++◌, ℕ, List, [], Err, IfErr, OnOk, MatchOption, length};
ghost use Rattle.std.specs.Prelude.{vec_capacity};
ghost use Rattle.journal_text.specs.Faults.{Version, IsFault, IsUnread, KeepsSession};
ghost use Rattle.streams.specs.Feeds.{HasNoFeed};
ghost use Rattle.journal_text.specs.Journal.{ended_line, header, IsTextOf};
ghost use Rattle.journal_text.specs.declared.line_text.TheConstants.{MAX_LINE};
ghost use Rattle.journal_text.specs.declared.version.Version.TheVariants.{One};
ghost use Rattle.journal.specs.Session.{IsSameSession};
ghost use Rattle.engine_base.specs.History.{IsLegal};

use super::line_text::MAX_LINE;
use super::steps::take;
use super::{JournalFault, Version};
use engine_base::{Engine, Reply, Step};
use journal::Session;
use std::alloc::Global;
use streams::cut;

/// Reads the bytes as a journal, into a session that has made no step: makes the step of each line
/// and looks whether it gets the reply of the line.
pub fn read_text<E: Engine<Step = Step, Reply = Reply>>(
    alloc: Global,
    bytes: &[u8],
    session: &mut Session<E>,
) -> Result<(), JournalFault>
    requires { session.old.kept ≡ [] }
    ensures ok { OnOk result (IsTextOf bytes.now session.new.kept) }
    ensures err { IfErr result (λ f.
        IsFault E.act session.old.opening session.old.limit f bytes.now session.new.kept) }
    ensures unread { IfErr result (λ f. IsUnread f → IsSameSession E.seen session.old session.new) }
    ensures unfailed { result ≢ Err JournalFault.Read }
    ensures session { KeepsSession E.act session.old session.new }
{
    match header_of(bytes) {
        Some((version, lines)) => match Vec::with_capacity(alloc, MAX_LINE) {
            Ok(mut printed) => read_lines(version, lines, &mut printed, session),
            Err(_) => Err(JournalFault::OutOfMemory),
        },
        None => Err(JournalFault::Header),
    }
}

// Reads the lines after the header. Each is printed into the buffer, to be compared.
fn read_lines<E: Engine<Step = Step, Reply = Reply>>(
    version: Version,
    lines: &[u8],
    printed: &mut Vec<u8>,
    session: &mut Session<E>,
) -> Result<(), JournalFault>
    requires kept { session.old.kept ≡ [] }
    requires room { MAX_LINE ≤ vec_capacity printed.old }
    ensures ok { OnOk result (IsTextOf (ended_line (header version) ++ lines.now) session.new.kept) }
    ensures err { IfErr result (λ f. IsFault E.act session.old.opening session.old.limit f
        (ended_line (header version) ++ lines.now) session.new.kept) }
    ensures late { IfErr result (λ f. IsUnread f → ⊥) }
    ensures session { KeepsSession E.act session.old session.new }
{
    let mut rest = lines;
    'lines: while let Some((text, behind)) = first_line(rest) {
        if take(version, text, printed, session)? {
            return end(behind, session);
        }
        rest = behind;
    }
    stop(version, rest)
}

// The end of the bytes, where no line of the rest has its line feed and no count was read.
fn stop(version: Version, rest: &[u8]) -> Result<(), JournalFault>
    ensures ok { OnOk result ((version ≡ One) × (rest.now ≡ [])) }
    ensures err { IfErr result (λ f. (f ≡ JournalFault.Unended) × (version ≡ One → 0 < length rest.now)) }
{
    match version {
        Version::One => {
            if rest.is_empty() {
                return Ok(());
            }
            Err(JournalFault::Unended)
        }
        Version::Two => Err(JournalFault::Unended),
    }
}

// The end of version 2, after the count of the steps, which is the line after those of the steps: there are no more
// bytes, or they are a line too many.
fn end<E: Engine<Step = Step, Reply = Reply>>(
    behind: &[u8],
    session: &Session<E>,
) -> Result<(), JournalFault>
    ensures ok { OnOk result (behind.now ≡ []) }
    ensures err { IfErr result (λ f. (f ≡ JournalFault.Line (length session.now.kept + 2)) × (0 < length behind.now)) }
{
    if behind.is_empty() {
        return Ok(());
    }
    Err(JournalFault::Line {
        step: session.len() + 2,
    })
}

// The version that the header names, and the bytes after the header.
fn header_of(bytes: &[u8]) -> Option<(Version, &[u8])>
    ensures { MatchOption result
        ((v : Version) (more : List ℕ) → bytes.now ≢ ended_line (header v) ++ more)
        (λ h. bytes.now ≡ ended_line (header h.0) ++ h.1.now) }
{
    let (text, behind) = first_line(bytes)?;
    Some((version_of(text)?, behind))
}

// The version that a header names.
fn version_of(text: &[u8]) -> Option<Version>
    ensures { MatchOption result ((v : Version) → text.now ≢ header v) (λ v. text.now ≡ header v) }
{
    if text == b"cachesim journal 1".as_slice() {
        return Some(Version::One);
    }
    if text == b"cachesim journal 2".as_slice() {
        return Some(Version::Two);
    }
    None
}

// The first line without its line feed, and the bytes after that.
fn first_line(bytes: &[u8]) -> Option<(&[u8], &[u8])>
    ensures { MatchOption result (HasNoFeed bytes.now)
        (λ l. HasNoFeed l.0.now × (bytes.now ≡ ended_line l.0.now ++ l.1.now)) }
{
    match cut(bytes, b'\n') {
        (line, Some(behind)) => Some((line, behind)),
        (_, None) => None,
    }
}
