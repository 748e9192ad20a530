//! The step of a line, made in a session.
ghost use Rattle.std.specs.Prelude.{◌≡◌, ◌≢◌, true, false, ◌∷◌, [], ◌++◌, ◌+◌, ◌≤◌, length, IfErr, IfOk, OnOk};
ghost use Rattle.std.specs.Prelude.{vec_capacity};
ghost use Rattle.journal_text.specs.Faults.{Version, IsWrong, KeepsSession, TakesLine};
ghost use Rattle.engine_base.specs.History.{IsLegal};
ghost use Rattle.journal_text.specs.Table.{text_of, IsLine};
ghost use Rattle.journal_text.specs.declared.line_text.TheConstants.{MAX_LINE};
ghost use Rattle.journal_text.specs.declared.line.JournalLine.TheVariants.{Made};

use super::grammar::line;
use super::line_text::MAX_LINE;
use super::{JournalFault, JournalLine, Version};
use engine_base::{Engine, Entry, Reply, Step};
use journal::{Session, SessionFault};

/// Takes a line, without its line feed: makes its step, and returns `false`; or it is the count of
/// the steps that are applied, and `true` says so. It is printed into the buffer, to be compared.
pub fn take<E: Engine<Step = Step, Reply = Reply>>(
    version: Version,
    text: &[u8],
    printed: &mut Vec<u8>,
    session: &mut Session<E>,
) -> Result<bool, JournalFault>
    requires { MAX_LINE ≤ vec_capacity printed.old }
    ensures ok { IfOk result (λ closed. TakesLine closed version text.now session.old.kept session.new.kept) }
    ensures err { IfErr result (λ f.
        IsWrong E.act session.old.opening session.old.limit f version session.old.kept text.now session.new.kept) }
    ensures session { KeepsSession E.act session.old session.new }
    ensures room { MAX_LINE ≤ vec_capacity printed.new }
{
    match line(version, text, printed) {
        Some(JournalLine::Made(entry)) => {
            make(entry, session)?;
            Ok(false)
        }
        Some(JournalLine::Steps(count)) => {
            if count != session.len() as u64 {
                return Err(JournalFault::Count);
            }
            Ok(true)
        }
        None => Err(JournalFault::Line {
            step: session.len() + 1,
        }),
    }
}

// Makes the step of an entry, which must be answered by the reply of the entry.
fn make<E: Engine<Step = Step, Reply = Reply>>(
    entry: Entry<Step, Reply>,
    session: &mut Session<E>,
) -> Result<(), JournalFault>
    ensures ok { OnOk result (session.new.kept ≡ session.old.kept ++ entry ∷ []) }
    ensures err { IfErr result (λ f. (v : Version) → IsLine v (Made entry) → IsWrong E.act session.old.opening
        session.old.limit f v session.old.kept (text_of (Made entry)) session.new.kept) }
    ensures session { KeepsSession E.act session.old session.new }
{
    let step = session.len() + 1;
    match session.step(entry.step) {
        Ok(reply) => {
            if is_same(reply, entry.reply) {
                return Ok(());
            }
            Err(JournalFault::FalseReply { step })
        }
        Err(SessionFault::OutOfMemory) => Err(JournalFault::OutOfMemory),
        Err(SessionFault::NotNow) => Err(JournalFault::NotNow { step }),
        Err(SessionFault::JournalFull) => Err(JournalFault::JournalFull { step }),
    }
}

// Whether the replies are one.
fn is_same(reply: Reply, other: Reply) -> bool
    ensures same { result ≡ true → reply ≡ other }
    ensures differs { result ≡ false → reply ≢ other }
{
    reply == other
}
