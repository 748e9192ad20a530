//! A journal that is longer than the buffer that it is written through.
use super::assertions::assert_equal;
use super::sessions::{CONFIG, ask, opened};
use engine_base::{Act, Reply};
use journal::Session;
use journal_text::write_journal;
use maintenance::Shell;
use std::alloc::Global;
use std::io::{Result as IoResult, Write};
use std::process::Abort;
use std::test::Fail;
use streams::CountedWriter;

/// Keeps what it is given, and how many bytes it was given at once at most.
#[derive(Drop)]
struct Sink {
    taken: Vec<u8>,
    longest: usize,
}

impl Write for Sink {
    fn write(&mut self, buf: &[u8]) -> IoResult<usize> {
        self.longest = self.longest.max(buf.len());
        self.taken.extend_from_slice(buf)?;
        Ok(buf.len())
    }

    fn flush(&mut self) -> IoResult<()> {
        Ok(())
    }
}

// A step of the greatest key, and the bytes of its line.
const LINE: &str = "0 look 18446744073709551615 = miss\n";

const LINES: usize = 4000;
// The header, the lines and the count.
const LONG_LENGTH: usize = 19 + 4000 * 35 + 11;

// Looks up the greatest key again and again.
fn look(rt: &impl Abort, session: &mut Session<Shell>) -> Result<(), Fail> {
    for _ in 0..LINES {
        let reply = ask(rt, session, Act::Look { key: u64::MAX });
        assert_equal(rt, reply, Ok(Reply::Miss));
    }
    Ok(())
}

// The text of these steps.
fn long_text(alloc: Global) -> Result<Vec<u8>, Fail> {
    let mut text = Vec::with_capacity(alloc, LONG_LENGTH)?;
    text.extend_from_slice(b"cachesim journal 2\n")?;
    for _ in 0..LINES {
        text.extend_from_slice(LINE.as_bytes())?;
    }
    text.extend_from_slice(b"steps 4000\n")?;
    Ok(text)
}

// Looks up the greatest key so often, and writes the session.
fn write_long(rt: &impl Abort, alloc: Global, session: &mut Session<Shell>) -> Result<(), Fail> {
    look(rt, session)?;
    let text = long_text(alloc)?;
    let mut sink = CountedWriter::new(Sink {
        taken: Vec::with_capacity(alloc, LONG_LENGTH)?,
        longest: 0,
    });
    write_journal(alloc, session, &mut sink)?;
    let sink = sink.into_inner();
    assert!(rt; sink.longest <= 65_536, "{} bytes at once", sink.longest);
    assert_equal(rt, sink.taken.as_slice(), text.as_slice());
    Ok(())
}

#[test]
fn a_long_journal_is_written_buffer_by_buffer(rt: HostRuntime) -> Result<(), Fail> {
    let mut session = opened(&rt, rt.alloc(), &CONFIG, LINES)?;
    write_long(&rt, rt.alloc(), &mut session)
}
