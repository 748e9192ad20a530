//! A session's journal to a writer.
ghost use Rattle.std.specs.Prelude.{◌≡◌, ◌≤◌, ◌+◌, Err, OnOk, OnErr, [], true, vec_len, vec_capacity};
ghost use Rattle.std.specs.Io.KnownBytes.{Appends};
ghost use Rattle.engine_base.specs.Answers.{AnswersItsActs};
ghost use Rattle.journal_text.specs.Journal.{begun, journal_of, AreFit, AreLines};
ghost use Rattle.streams.specs.Part.{AppendsPart};
ghost use Rattle.streams.specs.Tally.{Exhausts, FailsWhere, Spends};
ghost use Rattle.streams.specs.Waiting.{IsTextWritten};
ghost use Rattle.journal_text.specs.declared.line_text.TheConstants.{MAX_LINE};
ghost use Rattle.journal_text.specs.declared.writer.TheConstants.{BUFFER};
ghost use Rattle.journal_text.specs.declared.version.Version.TheVariants.{Two};

use super::line_text::{MAX_LINE, push_bytes, push_ended_line};
use super::{JournalLine, WriteFault};
use engine_base::{Engine, Reply, Step};
use journal::Session;
use std::alloc::Global;
use streams::{CountedWrite, RetryBudget, WriteAllFault, write_all_within, write_some};

// How many bytes are gathered before they are written.
const BUFFER: usize = 65_536;

/// Writes the journal of the applied steps, in version 2, and flushes. The undone steps are not in
/// it. The text goes through a buffer, whose memory is taken before the first write: `OutOfMemory`
/// has written nothing, and after `Write` a beginning of the text was written, perhaps all.
pub fn write_journal<E: Engine<Step = Step, Reply = Reply>, W: CountedWrite>(
    alloc: Global,
    session: &Session<E>,
    writer: &mut W,
) -> Result<(), WriteFault>
    ensures text { OnOk result
        (Appends (W.contents writer.old) (W.contents writer.new) (journal_of Two session.now.kept)) }
    // It is read again: each entry is a line of the table, where the engine answers its acts.
    ensures lines { OnOk result (AnswersItsActs E.act → AreLines Two session.now.kept) }
    // Out of memory, nothing was written.
    ensures out_of_memory { result ≡ Err WriteFault.OutOfMemory → W.contents writer.new ≡ W.contents writer.old }
    ensures part { result ≡ Err WriteFault.Write
        → AppendsPart (W.contents writer.old) (W.contents writer.new) (journal_of Two session.now.kept) }
    ensures flushed { OnOk result (W.is_flushed writer.new ≡ true) }
    // `Write` comes just where a write or the flush failed, or the millionth was interrupted.
    ensures tally { FailsWhere (result ≡ Err WriteFault.Write) (W.tally writer.old) (W.tally writer.new) }
{
    let mut text = Vec::with_capacity(alloc, BUFFER)?;
    let mut budget = RetryBudget::new();
    write_entries(session, writer, &mut text, &mut budget)?;
    make_room_for_line(writer, &mut text, &mut budget)?;
    push_ended_line(&mut text, &JournalLine::Steps(session.len() as u64));
    write_all_within(writer, text.as_slice(), &mut budget)?;
    Ok(())
}

// Writes the header and the lines of the entries; the last of them may wait in the buffer.
fn write_entries<E: Engine<Step = Step, Reply = Reply>, W: CountedWrite>(
    session: &Session<E>,
    writer: &mut W,
    text: &mut Vec<u8>,
    budget: &mut RetryBudget,
) -> Result<(), WriteAllFault>
    requires empty { text.old.items ≡ [] }
    requires room { BUFFER ≤ vec_capacity text.old }
    ensures written { OnOk result (IsTextWritten (W.contents writer.old) (W.contents writer.new) text.new.items
        (begun Two session.now.kept)) }
    ensures part { OnErr result (AppendsPart (W.contents writer.old) (W.contents writer.new)
        (begun Two session.now.kept)) }
    ensures room { OnOk result (BUFFER ≤ vec_capacity text.new) }
    ensures fit { OnOk result (AreFit session.now.kept) }
    ensures spent { OnOk result (Spends budget.old budget.new (W.tally writer.old) (W.tally writer.new)) }
    ensures exhausted { OnErr result (Exhausts budget.old (W.tally writer.old) (W.tally writer.new)) }
{
    push_bytes(text, b"cachesim journal 2\n");
    for n in 0..session.len() {
        make_room_for_line(writer, text, budget)?;
        match session.entry(n + 1) {
            Some(entry) => push_ended_line(text, &JournalLine::Made(*entry)),
            None => unreachable!(),
        }
    }
    Ok(())
}

// Writes the buffer, where it has no room for a line more.
fn make_room_for_line<W: CountedWrite>(
    writer: &mut W,
    text: &mut Vec<u8>,
    budget: &mut RetryBudget,
) -> Result<(), WriteAllFault>
    requires { BUFFER ≤ vec_capacity text.old }
    ensures room { OnOk result (vec_len text.new + MAX_LINE ≤ vec_capacity text.new) }
    ensures capacity { OnOk result (BUFFER ≤ vec_capacity text.new) }
    ensures written { OnOk result (IsTextWritten (W.contents writer.old) (W.contents writer.new) text.new.items
        text.old.items) }
    ensures part { OnErr result (AppendsPart (W.contents writer.old) (W.contents writer.new) text.old.items) }
    ensures spent { OnOk result (Spends budget.old budget.new (W.tally writer.old) (W.tally writer.new)) }
    ensures exhausted { OnErr result (Exhausts budget.old (W.tally writer.old) (W.tally writer.new)) }
{
    if text.len() > BUFFER - MAX_LINE {
        write_some(writer, text.as_slice(), budget)?;
        text.clear();
    }
    Ok(())
}
