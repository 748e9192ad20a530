//! Both debuggers, and the reading of a journal, through inputs and outputs that fail.
ghost use Rattle.std.specs.Prelude.{◌≡◌, []};

use super::assertions::assert_equal;
use super::pipe::{Pipe, ROOM};
use super::policies_tests::answer_through as answer_of_policies;
use super::replay_tests::{JOURNAL, empty, opened};
use debug_commands::{DebugFault, run_replay};
use journal::Session;
use journal_text::{JournalFault, read_journal};
use maintenance::Shell;
use std::alloc::Global;
use std::process::Abort;
use std::test::Fail;
use std::thread::Threads;
use streams::{CountedReader, CountedWriter};

// Two commands, of which the second ends the run, and what follows it.
const COMMANDS: &[u8] = b"goto 5\nquit\nshow\n";

// As many reads as there are bytes up to the line feed of `quit`.
const READS: usize = 12;

// The trace of the one debugger has as many accesses, and the journal of the other more steps.
const ANSWERS: &[u8] = b"at 5\n";

// As many writes as the answer has bytes, and a flush for each of the two commands.
const WRITES: usize = 5 + 2;

// How many calls each end lets pass, and by how many interruptions it is held up before.
#[derive(Clone, Copy, Debug)]
struct Ends {
    reads: usize,
    writes: usize,
    interruptions: (u32, u32),
}

impl Ends {
    fn input(self, alloc: Global) -> Result<Pipe<'static>, Fail> {
        let mut input = Pipe::of(alloc, COMMANDS, self.reads)?;
        input.interruptions = self.interruptions.0;
        Ok(input)
    }

    fn output(self, alloc: Global) -> Result<CountedWriter<Pipe<'static>>, Fail> {
        let mut output = Pipe::of(alloc, b"", self.writes)?;
        output.interruptions = self.interruptions.1;
        Ok(CountedWriter::new(output))
    }
}

// The answer of the debugger of a journal through these ends. The session keeps its steps.
fn answer_of_replay(
    rt: &impl Abort,
    alloc: Global,
    input: Pipe<'_>,
    output: &mut CountedWriter<Pipe<'_>>,
) -> Result<Result<(), DebugFault>, Fail> {
    let mut session = opened(rt, alloc)?;
    let answer = run_replay(alloc, &mut session, &mut CountedReader::new(input), output);
    assert_equal(rt, session.len().wrapping_add(session.ahead()), 9);
    match answer {
        Err(DebugFault::OutOfMemory) => Err(Fail::from("out of memory")),
        answer => Ok(answer),
    }
}

// Sees an answer, and that the front of the answers is written, all of them where there is no fault.
fn assert_answered(
    rt: &impl Abort,
    ends: Ends,
    (answer, written): (Result<(), DebugFault>, &[u8]),
    wanted: Result<(), DebugFault>,
) {
    assert_eq!(rt; answer, wanted, "{ends:?}");
    assert!(rt; ANSWERS.starts_with(written));
    assert!(rt; answer.is_err() || written.len() == ANSWERS.len());
}

// Sees what both debuggers answer through such ends.
fn assert_through<R: Abort + Threads + Sync>(
    rt: &R,
    alloc: Global,
    ends: Ends,
    wanted: Result<(), DebugFault>,
) -> Result<(), Fail> {
    let mut output = ends.output(alloc)?;
    let answer = answer_of_policies(rt, alloc, ends.input(alloc)?, &mut output)?;
    assert_answered(
        rt,
        ends,
        (answer, output.get_ref().taken.as_slice()),
        wanted,
    );
    let mut output = ends.output(alloc)?;
    let answer = answer_of_replay(rt, alloc, ends.input(alloc)?, &mut output)?;
    assert_answered(
        rt,
        ends,
        (answer, output.get_ref().taken.as_slice()),
        wanted,
    );
    Ok(())
}

const WHOLE: Ends = Ends {
    reads: READS,
    writes: WRITES,
    interruptions: (0, 0),
};

#[test]
fn each_read_or_write_that_fails_is_reported(rt: HostRuntime) -> Result<(), Fail> {
    for reads in 0..READS {
        let ends = Ends { reads, ..WHOLE };
        assert_through(&rt, rt.alloc(), ends, Err(DebugFault::Read))?;
    }
    for writes in 0..WRITES {
        let ends = Ends { writes, ..WHOLE };
        assert_through(&rt, rt.alloc(), ends, Err(DebugFault::Write))?;
    }
    assert_through(&rt, rt.alloc(), WHOLE, Ok(()))
}

#[test]
fn the_millionth_interruption_is_a_failure(rt: HostRuntime) -> Result<(), Fail> {
    for (interruptions, wanted) in [
        ((999_999, 999_999), Ok(())),
        ((1_000_000, 0), Err(DebugFault::Read)),
        ((0, 1_000_000), Err(DebugFault::Write)),
    ] {
        let ends = Ends {
            interruptions,
            ..WHOLE
        };
        assert_through(&rt, rt.alloc(), ends, wanted)?;
    }
    Ok(())
}

// How many steps an empty session has once a journal was read in so many reads of a byte; `None` where a read failed.
fn steps_read(
    alloc: Global,
    session: &mut Session<Shell>,
    reads: usize,
) -> Result<Option<usize>, Fail>
    requires kept { session.old.kept ≡ [] }
    requires tail { session.old.tail ≡ [] }
{
    let journal = Pipe::of(alloc, JOURNAL.as_bytes(), reads)?;
    match read_journal(alloc, &mut CountedReader::new(journal), session) {
        Ok(()) => Ok(Some(session.len())),
        Err(JournalFault::Read) => Ok(None),
        Err(JournalFault::OutOfMemory) => Err(Fail::from("out of memory")),
        Err(_) => Err(Fail::from("a fault of the text")),
    }
}

// Its end takes a read too. Where one fails no step is made.
#[test]
fn a_journal_is_read_to_its_end_or_makes_no_step(rt: HostRuntime) -> Result<(), Fail> {
    for reads in 0..JOURNAL.len() + 2 {
        let wanted = if reads > JOURNAL.len() { Some(9) } else { None };
        let mut session = empty(&rt, rt.alloc())?;
        let found = steps_read(rt.alloc(), &mut session, reads)?;
        assert_eq!(rt; found, wanted, "in {reads} reads");
        assert_equal(&rt, session.len(), wanted.unwrap_or(0));
    }
    Ok(())
}
