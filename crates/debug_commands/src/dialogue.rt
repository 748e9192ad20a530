//! The reading and answering of commands, a line at a time.
ghost use Rattle.std.specs.Prelude.{◌≡◌, ◌≢◌, ◌≤◌, ◌+◌, ◌-◌, ◌++◌, ℕ, List, [], length, true, false};
ghost use Rattle.std.specs.Prelude.{Ok, Err, IfOk, IfSome, OnOk, OnErr};
ghost use Rattle.std.specs.Io.KnownBytes.{Consumes, IsAtEnd};
ghost use Rattle.debug_commands.specs.Answers.{answer_to, position_line, response_to, stop_after, stop_line};
ghost use Rattle.debug_commands.specs.AnswerText.{IsAnswer};
ghost use Rattle.debug_commands.specs.Dialogue.{dialogue_of, is_last, WritesDialogue};
ghost use Rattle.debug_commands.specs.InputBytes.{feed, IsTooLarge};
ghost use Rattle.debug_commands.specs.Timeline.{TimelineData};
ghost use Rattle.debug_commands.specs.declared.breakpoint.Breakpoint.{Breakpoint};
ghost use Rattle.debug_commands.specs.declared.command.Command.TheVariants as command;
ghost use Rattle.streams.specs.Tally.{Exhausts, FailsWhere, Spends};
ghost use Rattle.streams.specs.Feeds.{HasNoFeed};
ghost use Rattle.streams.specs.Part.{AppendsPart};

use crate::breakpoint::{Breakpoint, first_holding};
use crate::command::{Command, InputLine};
use crate::fault::DebugFault;
use crate::grammar;
use crate::timeline::Timeline;
use std::alloc::{AllocError, Global};
use streams::{
    CountedRead, CountedWrite, RetryBudget, push_counts_line, push_pieces, read_some,
    write_all_within,
};

/// The most bytes of commands that are read, line feeds included: 2^20.
pub const MAX_COMMAND_BYTES: usize = 1 << 20;

/// The most breakpoints that can be set at one time.
pub const MAX_BREAKPOINTS: usize = 64;

/// Reads commands line by line and writes the answer to each before the next one is read, up to `quit` or the end of
/// the input. The output is flushed after each answer. Reads share their interruptions, and so do writes and flushes.
///
/// Errors: `TooLarge` where a line goes past `MAX_COMMAND_BYTES` bytes of input; the lines before it are answered.
/// `OutOfMemory`, `Read` and `Write` where an allocation, the input or the output failed: the answers that were written
/// are then a beginning of those to all lines.
pub fn answer_commands<T: Timeline, R: CountedRead, W: CountedWrite>(
    alloc: Global,
    timeline: &mut T,
    input: &mut R,
    out: &mut W,
) -> Result<(), DebugFault>
    requires { T.IsUsable timeline.old }
    // With its end it has written what the definition gives for the bytes of the input.
    ensures done { OnOk result (IfSome (R.remaining input.old) (λ bytes.
        WritesDialogue (dialogue_of (T.timeline timeline.old) (T.position timeline.old) bytes) true
        (W.contents out.old) (W.contents out.new) (T.position timeline.new))) }
    // So it has where a line was too large, for the lines before that.
    ensures large { result ≡ Err DebugFault.TooLarge → IfSome (R.remaining input.old) (λ bytes.
        WritesDialogue (dialogue_of (T.timeline timeline.old) (T.position timeline.old) bytes) false
        (W.contents out.old) (W.contents out.new) (T.position timeline.new)) }
    // Whatever failed, it has written a beginning of that text.
    ensures part { OnErr result (IfSome (R.remaining input.old) (λ bytes.
        AppendsPart (W.contents out.old) (W.contents out.new)
        (dialogue_of (T.timeline timeline.old) (T.position timeline.old) bytes).text)) }
    // The timeline's source never changes, also on errors.
    ensures source { T.source timeline.new ≡ T.source timeline.old }
    ensures usable { OnOk result (T.IsUsable timeline.new) }
    ensures same { OnOk result (T.timeline timeline.new ≡ T.timeline timeline.old) }
    ensures config { (i : ℕ) → result ≡ Err (DebugFault.Config i) → ⊥ }
    ensures flushed { OnOk result (W.is_flushed out.new ≡ true) }
    // `Read` comes just where a read failed or the millionth was interrupted, and `Write` where a write or a flush did.
    ensures reads { FailsWhere (result ≡ Err DebugFault.Read) (R.tally input.old) (R.tally input.new) }
    ensures writes { FailsWhere (result ≡ Err DebugFault.Write) (W.tally out.old) (W.tally out.new) }
{
    let mut breaks = Vec::new(alloc);
    let mut line = Vec::new(alloc);
    let mut text = Vec::new(alloc);
    let mut room = MAX_COMMAND_BYTES;
    let mut reads = RetryBudget::new();
    let mut writes = RetryBudget::new();
    'lines: loop {
        line.clear();
        text.clear();
        let ended = read_line(input, &mut line, &mut room, &mut reads)?;
        let input_line = grammar::line(timeline.dialect(), line.as_slice());
        answer(alloc, timeline, &mut breaks, input_line, &mut text)?;
        write_all_within(out, text.as_slice(), &mut writes)?;
        if is_last(ended, input_line) {
            return Ok(());
        }
    }
}

// Whether the dialogue ends with this line, which had a line feed or not.
fn is_last(ended: bool, input_line: InputLine) -> bool
    ensures { result ≡ is_last ended input_line }
{
    !ended || matches!(input_line, InputLine::Known(Command::Quit))
}

// Reads the next line into an empty buffer, without its line feed, and returns whether it had one: the last line may
// lack it. It reads no byte past the line feed, so that a line is answered before the next one is asked for. `room` is
// how many bytes may still be read, and falls by those that were.
fn read_line<R: CountedRead>(
    input: &mut R,
    text: &mut Vec<u8>,
    room: &mut usize,
    budget: &mut RetryBudget,
) -> Result<bool, DebugFault>
    requires { text.old.items ≡ [] }
    ensures read { IfOk result (λ ended.
        Consumes (R.remaining input.old) (R.remaining input.new) (text.new.items ++ feed ended)) }
    ensures feeds { OnOk result (HasNoFeed text.new.items) }
    ensures room { IfOk result (λ ended. room.new + length text.new.items + length (feed ended) ≡ room.old) }
    ensures end { result ≡ Ok false → IsAtEnd (R.remaining input.new) }
    ensures large { result ≡ Err DebugFault.TooLarge
        → IsTooLarge room.old (R.remaining input.old) (R.remaining input.new) }
    ensures config { (i : ℕ) → result ≡ Err (DebugFault.Config i) → ⊥ }
    ensures unwritten { result ≢ Err DebugFault.Write }
    ensures spent { result ≢ Err DebugFault.Read
        → Spends budget.old budget.new (R.tally input.old) (R.tally input.new) }
    ensures exhausted { result ≡ Err DebugFault.Read
        → Exhausts budget.old (R.tally input.old) (R.tally input.new) }
{
    let mut byte = [0u8; 1];
    'bytes: loop {
        let count = read_some(input, &mut byte, budget)?;
        if count == 0 {
            return Ok(false);
        }
        if *room == 0 {
            return Err(DebugFault::TooLarge);
        }
        *room -= 1;
        if byte[0] == b'\n' {
            return Ok(true);
        }
        text.extend_from_slice(&byte)?;
    }
}

// Adds the answer to a line.
#[tactic(auto, unfolding(crate::specs::Answers::response_to))]
fn answer<T: Timeline>(
    alloc: Global,
    timeline: &mut T,
    breaks: &mut Vec<Breakpoint>,
    line: InputLine,
    text: &mut Vec<u8>,
) -> Result<(), AllocError>
    requires { T.IsUsable timeline.old }
    ensures source { T.source timeline.new ≡ T.source timeline.old }
    ensures kept { OnOk result ((T.IsUsable timeline.new) × (T.timeline timeline.new ≡ T.timeline timeline.old)) }
    ensures answer { OnOk result (IsAnswer
        (answer_to (T.timeline timeline.old) (record { at = T.position timeline.old; breaks = breaks.old.items }) line)
        text.old.items text.new.items (T.position timeline.new) breaks.new.items) }
{
    match line {
        InputLine::Empty | InputLine::Known(Command::Quit) => Ok(()),
        InputLine::Unknown => text.extend_from_slice(b"fault: Command\n"),
        InputLine::Known(Command::Step(n)) => {
            let at = timeline.position();
            if n > (timeline.end() - at) as u64 {
                return text.extend_from_slice(b"fault: PastEnd\n");
            }
            go(timeline, at + n as usize, text)
        }
        InputLine::Known(Command::Back(n)) => {
            let at = timeline.position();
            if n > at as u64 {
                return text.extend_from_slice(b"fault: PastStart\n");
            }
            go(timeline, at - n as usize, text)
        }
        InputLine::Known(Command::Goto(n)) => {
            if n > timeline.end() as u64 {
                return text.extend_from_slice(b"fault: PastEnd\n");
            }
            go(timeline, n as usize, text)
        }
        InputLine::Known(Command::Run) => run(timeline, breaks.as_slice(), text),
        InputLine::Known(Command::Break(point)) => set(breaks, point, text),
        InputLine::Known(Command::Clear) => {
            breaks.clear();
            text.extend_from_slice(b"ok\n")
        }
        InputLine::Known(Command::Show) => timeline.show(alloc, text),
        InputLine::Known(Command::View(view)) => timeline.view(alloc, view, text),
        InputLine::Known(Command::Own) => timeline.own(alloc, text),
    }
}

// Goes to a position: the number of steps that are made there.
fn go<T: Timeline>(timeline: &mut T, n: usize, text: &mut Vec<u8>) -> Result<(), AllocError>
    requires usable { T.IsUsable timeline.old }
    requires within { n ≤ (T.timeline timeline.old).end }
    ensures source { T.source timeline.new ≡ T.source timeline.old }
    ensures kept { OnOk result ((T.IsUsable timeline.new) × (T.timeline timeline.new ≡ T.timeline timeline.old)) }
    ensures position { OnOk result (T.position timeline.new ≡ n) }
    ensures text { OnOk result (text.new.items ≡ text.old.items ++ position_line n) }
{
    let at = timeline.position();
    if n < at {
        timeline.back(at - n)?;
    } else {
        timeline.forward(n - at)?;
    }
    push_at(text, n)
}

// Goes onward to a breakpoint or the end.
#[tactic(auto, unfolding(crate::specs::Answers::response_to))]
fn run<T: Timeline>(
    timeline: &mut T,
    breaks: &[Breakpoint],
    text: &mut Vec<u8>,
) -> Result<(), AllocError>
    requires { T.IsUsable timeline.old }
    ensures source { T.source timeline.new ≡ T.source timeline.old }
    ensures kept { OnOk result ((T.IsUsable timeline.new) × (T.timeline timeline.new ≡ T.timeline timeline.old)) }
    ensures answer { OnOk result (IsAnswer
        (response_to (T.timeline timeline.old)
        (record { at = T.position timeline.old; breaks = breaks.now }) command.Run)
        text.old.items text.new.items (T.position timeline.new) breaks.now) }
{
    if timeline.position() == timeline.end() {
        return text.extend_from_slice(b"fault: PastEnd\n");
    }
    let stop = next_stop(timeline, breaks)?;
    push_stop(text, stop)?;
    push_at(text, timeline.position())
}

// Adds the line that says why a run stopped.
fn push_stop(text: &mut Vec<u8>, stop: Option<Breakpoint>) -> Result<(), AllocError>
    ensures { OnOk result (text.new.items ≡ text.old.items ++ stop_line stop) }
{
    match stop {
        Some(point) => push_pieces(text, &[b"stop ", point.word(), b"\n"]),
        None => text.extend_from_slice(b"end\n"),
    }
}

// Makes steps until a breakpoint holds, or to the end.
fn next_stop<T: Timeline>(
    timeline: &mut T,
    breaks: &[Breakpoint],
) -> Result<Option<Breakpoint>, AllocError>
    requires { T.IsUsable timeline.old }
    ensures source { T.source timeline.new ≡ T.source timeline.old }
    ensures kept { OnOk result ((T.IsUsable timeline.new) × (T.timeline timeline.new ≡ T.timeline timeline.old)) }
    ensures stop { IfOk result (λ stop. stop_after (T.timeline timeline.old).facts breaks.now (T.position timeline.old)
        ((T.timeline timeline.old).end - T.position timeline.old) ≡ (T.position timeline.new, stop)) }
{
    'steps: while timeline.position() < timeline.end() {
        let facts = timeline.next()?;
        if let Some(point) = first_holding(breaks, &facts) {
            return Ok(Some(point));
        }
    }
    Ok(None)
}

// Sets a breakpoint, where there are not too many.
#[tactic(auto, unfolding(crate::specs::Answers::response_to))]
fn set(
    breaks: &mut Vec<Breakpoint>,
    point: Breakpoint,
    text: &mut Vec<u8>,
) -> Result<(), AllocError>
    ensures { OnOk result ((t : TimelineData) (at : ℕ) → IsAnswer
        (response_to t (record { at = at; breaks = breaks.old.items }) (command.Break point))
        text.old.items text.new.items at breaks.new.items) }
{
    if breaks.len() == MAX_BREAKPOINTS {
        return text.extend_from_slice(b"fault: Breaks\n");
    }
    breaks.push(point)?;
    text.extend_from_slice(b"ok\n")
}

// Adds the line that names a position.
fn push_at(text: &mut Vec<u8>, position: usize) -> Result<(), AllocError>
    ensures { OnOk result (text.new.items ≡ text.old.items ++ position_line position) }
{
    push_counts_line(text, &[(b"at ", position as u64)])
}
