//! The line of progress: its text, and when it is drawn and cleared.
use engine_base::Gate;
use std::fmt::{Display, Write};
use std::io::Read;
use std::rt::Clock;
use std::sync::atomic::AtomicU64;
use std::sync::atomic::Ordering::SeqCst;
use std::test::Fail;
use std::time::Duration;
use std::{fmt, io};
use streams::{Progress, ProgressLine, ProgressText, Watch, WatchedInput};

// A runtime whose clock goes on by 100 milliseconds each time it is read, and whose standard error counts what it is
// given: lines, and what clears them.
#[derive(Drop)]
struct Terminal {
    reads: AtomicU64,
    drawn: AtomicU64,
    cleared: AtomicU64,
}

impl Clock for Terminal {
    fn monotonic(&self) -> io::Result<Duration> {
        let reads = self.reads.fetch_add(1, SeqCst);
        Ok(Duration::from_millis(reads.saturating_mul(100)))
    }

    fn since_1970(&self) -> io::Result<Duration> {
        Ok(Duration::ZERO)
    }
}

// How many bytes were written.
#[derive(Drop)]
struct Length(usize);

impl Write for Length {
    fn write_str(&mut self, text: &str) -> fmt::Result {
        self.0 = self.0.saturating_add(text.len());
        Ok(())
    }
}

impl Eprint for Terminal {
    fn eprint<D: Display + Drop>(&self, value: D) -> io::Result<()> {
        let mut length = Length(0);
        let _ = write!(length, "{value}");
        if length.0 == "\r\x1b[K".len() {
            self.cleared.fetch_add(1, SeqCst);
        } else {
            self.drawn.fetch_add(1, SeqCst);
        }
        Ok(())
    }

    fn eprintln<D: Display + Drop>(&self, value: D) -> io::Result<()> {
        self.eprint(value)
    }
}

// How often a line is drawn and cleared over so many reads, and then so many batches: each takes a tenth of a second.
fn shown(is_terminal: bool, reads: u64, batches: u64) -> (u64, u64) {
    let terminal = Terminal {
        reads: AtomicU64::new(0),
        drawn: AtomicU64::new(0),
        cleared: AtomicU64::new(0),
    };
    let line = ProgressLine::new(&terminal, is_terminal, None);
    line.begin("run");
    let mut input = WatchedInput {
        input: b"1\n2\n3\n4\n5\n".as_slice(),
        line: &line,
    };
    for _ in 0..reads {
        let _ = input.read(&mut [0]);
    }
    if batches > 0 {
        line.count(batches);
    }
    for n in 0..batches {
        line.after(0, n);
    }
    line.end();
    (terminal.drawn.load(SeqCst), terminal.cleared.load(SeqCst))
}

#[test]
fn a_line_is_drawn_from_half_a_second_on_and_cleared(rt: HostRuntime) {
    for (is_terminal, reads, batches, wanted) in [
        (true, 0, 10, (3, 1)),
        (true, 0, 5, (1, 1)),
        (true, 0, 4, (0, 0)),
        (true, 10, 0, (3, 1)),
        (true, 4, 1, (1, 1)),
        (false, 10, 10, (0, 0)),
    ] {
        assert_eq!(rt; shown(is_terminal, reads, batches), wanted);
    }
}

// What is read after half a second of a file of ten bytes, and of what is no file.
const HALF: Progress = Progress::Read {
    bytes: 5,
    size: Some(10),
};

const PIPE: Progress = Progress::Read {
    bytes: 12_345_678,
    size: None,
};

#[test]
fn the_text_of_a_line(rt: HostRuntime) -> Result<(), Fail> {
    let made = |done: u64| Progress::Made { done, batches: 10 };
    for (progress, seconds, wanted) in [
        (made(0), 0, "\rrun: 0 % of accesses, 0:00\x1b[K"),
        (made(9), 9, "\rrun: 90 % of accesses, 0:09\x1b[K"),
        (made(10), 60, "\rrun: 100 % of accesses, 1:00\x1b[K"),
        (made(11), 4271, "\rrun: 100 % of accesses, 71:11\x1b[K"),
        (HALF, 61, "\rrun: 50 % of the file, 1:01\x1b[K"),
        (PIPE, 61, "\rrun: 12 MB, 1:01\x1b[K"),
    ] {
        let line = ProgressText {
            name: "run",
            progress,
            seconds,
        };
        let text = format!(in rt.alloc(); "{line}")?;
        assert_eq!(rt; text.as_str(), wanted);
    }
    Ok(())
}
