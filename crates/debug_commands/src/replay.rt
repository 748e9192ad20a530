//! The debugger of a concurrent cache's journal, which walks a session.
ghost use Rattle.std.specs.Prelude.{◌≡◌, ◌++◌, ℕ, Err, IfSome, OnOk, OnErr, length, true, false};
ghost use Rattle.debug_commands.specs.Dialogue.{dialogue_of, WritesDialogue};
ghost use Rattle.journal.specs.Session.{IsMovedTo};
ghost use Rattle.debug_commands.specs.Replay.{replay_timeline, step_facts, hit_key, is_dropped, left_on_step};
ghost use Rattle.streams.specs.Part.{AppendsPart};
ghost use Rattle.streams.specs.Tally.{FailsWhere};

use crate::breakpoint::StepFacts;
use crate::command::{Dialect, View};
use crate::dialogue::answer_commands;
use crate::fault::DebugFault;
use crate::shell_text::push_shell;
use crate::timeline::Timeline;
use engine_base::{Act, Key, Reply};
use journal::Session;
use journal_text::write_journal;
use maintenance::Shell;
use std::alloc::{AllocError, Global};
use streams::{CountedRead, CountedWrite, CountedWriter};

/// Reads commands line by line and answers each at once, about the session of a concurrent cache: what it holds after
/// any number of its steps, the undone ones included. It ends at `quit` or the end of the input, and leaves the session
/// where the commands brought it; its steps, applied and undone together, stay as they were, also where it fails.
///
/// Errors: `TooLarge` where a line goes past 2^20 bytes of input, with the lines before it answered; `OutOfMemory`,
/// `Read` and `Write` where an allocation, the input or the output failed: the answers that were written are then a
/// beginning of those to all lines.
pub fn run_replay<R: CountedRead, W: CountedWrite>(
    alloc: Global,
    session: &mut Session<Shell>,
    commands: &mut R,
    out: &mut W,
) -> Result<(), DebugFault>
    // With its end it has written what the definition gives for the bytes of the commands, and the session stands at
    // the position that they lead to.
    ensures done { OnOk result (IfSome (R.remaining commands.old) (λ bytes. WritesDialogue
        (dialogue_of (replay_timeline session.old.opening (session.old.kept ++ session.old.tail))
        (length session.old.kept) bytes)
        true (W.contents out.old) (W.contents out.new) (length session.new.kept))) }
    // So it has where a line was too large, for the lines before that.
    ensures large { result ≡ Err DebugFault.TooLarge → IfSome (R.remaining commands.old) (λ bytes. WritesDialogue
        (dialogue_of (replay_timeline session.old.opening (session.old.kept ++ session.old.tail))
        (length session.old.kept) bytes)
        false (W.contents out.old) (W.contents out.new) (length session.new.kept)) }
    // Whatever failed, it has written a beginning of that text.
    ensures part { OnErr result (IfSome (R.remaining commands.old) (λ bytes. AppendsPart (W.contents out.old)
        (W.contents out.new) (dialogue_of (replay_timeline session.old.opening (session.old.kept ++ session.old.tail))
        (length session.old.kept) bytes).text)) }
    // Whatever comes, the session stands somewhere in its own steps.
    ensures walked { IsMovedTo (length session.new.kept) session.old session.new }
    ensures config { (i : ℕ) → result ≡ Err (DebugFault.Config i) → ⊥ }
    ensures flushed { OnOk result (W.is_flushed out.new ≡ true) }
    // `Read` comes just where a read failed or the millionth was interrupted, and `Write` where a write or a flush did.
    ensures reads { FailsWhere (result ≡ Err DebugFault.Read) (R.tally commands.old) (R.tally commands.new) }
    ensures writes { FailsWhere (result ≡ Err DebugFault.Write) (W.tally out.old) (W.tally out.new) }
{
    answer_commands(alloc, &mut Replay { session }, commands, out)
}

// The session, as the debugger walks it.
#[derive(Drop)]
struct Replay<'a> {
    session: &'a mut Session<Shell>,
}

impl<'a> Timeline for Replay<'a> {
    ghost use Rattle.std.specs.Prelude.{◌++◌, length, ⊤};
    ghost use Rattle.debug_commands.specs.Replay.{replay_timeline, walked_in, Walked};

    ghost Source = { Walked };

    ghost source = { λ w. walked_in w.session };

    ghost timeline = { λ w. replay_timeline w.session.now.opening (w.session.now.kept ++ w.session.now.tail) };

    ghost position = { λ w. length w.session.now.kept };

    ghost IsUsable = { λ w. ⊤ };

    fn dialect(&self) -> Dialect {
        Dialect::Journal
    }

    fn end(&self) -> usize {
        self.session.len() + self.session.ahead()
    }

    fn position(&self) -> usize {
        self.session.len()
    }

    fn back(&mut self, n: usize) -> Result<(), AllocError> {
        match self.session.back(n) {
            Ok(()) => Ok(()),
            Err(_) => Err(AllocError),
        }
    }

    fn forward(&mut self, n: usize) -> Result<(), AllocError> {
        match self.session.forward(n) {
            Ok(()) => Ok(()),
            Err(_) => Err(AllocError),
        }
    }

    fn next(&mut self) -> Result<StepFacts, AllocError> {
        let age = self.session.engine().frequency().age();
        if self.session.forward(1).is_err() {
            return Err(AllocError);
        }
        let halved = self.session.engine().frequency().age() < age;
        match self.session.entry(self.session.len()) {
            Some(entry) => Ok(step_facts(&entry.step.act, &entry.reply, halved)),
            None => unreachable!(),
        }
    }

    fn show(&self, alloc: Global, text: &mut Vec<u8>) -> Result<(), AllocError> {
        push_shell(alloc, self.session.engine(), text)
    }

    // The dialect has no views.
    fn view(&self, _alloc: Global, _view: View, _text: &mut Vec<u8>) -> Result<(), AllocError> {
        Ok(())
    }

    fn own(&self, alloc: Global, text: &mut Vec<u8>) -> Result<(), AllocError> {
        let mut journal = CountedWriter::new(Vec::new(alloc));
        match write_journal(alloc, self.session, &mut journal) {
            Ok(()) => text.extend_from_slice(journal.get_ref().as_slice()),
            Err(_) => Err(AllocError),
        }
    }
}

// What breakpoints look at in a step.
fn step_facts(act: &Act, reply: &Reply, halved: bool) -> StepFacts
    ensures { result ≡ step_facts act.now reply.now halved }
{
    StepFacts {
        hit: hit_key(act, reply),
        evicted: left_on_step(reply),
        evicted_too: None,
        halved,
        parted: false,
        dropped: is_dropped(reply),
    }
}

// The key of a look that found it.
fn hit_key(act: &Act, reply: &Reply) -> Option<Key>
    ensures { result ≡ hit_key act.now reply.now }
{
    match act {
        Act::Look { key } => match reply {
            Reply::Hit { .. } => Some(*key),
            _ => None,
        },
        _ => None,
    }
}

// The key that an eviction took out.
fn left_on_step(reply: &Reply) -> Option<Key>
    ensures { result ≡ left_on_step reply.now }
{
    match reply {
        Reply::Evicted { item } => Some(item.key),
        Reply::Rejected { item } => Some(item.key),
        _ => None,
    }
}

// Whether the reply drops an offer.
fn is_dropped(reply: &Reply) -> bool
    ensures { result ≡ is_dropped reply.now }
{
    matches!(reply, Reply::Full | Reply::Lost)
}
