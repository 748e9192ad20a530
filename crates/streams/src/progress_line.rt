//! The line on a terminal that shows how far a subcommand is.
use engine_base::Gate;
use std::fmt;
use std::io::{self, Read};
use std::rt::Clock;
use std::sync::OnceLock;
use std::sync::atomic::AtomicU64;
use std::sync::atomic::Ordering::SeqCst;
use std::time::{Duration, Instant};

/// What watches a subcommand at work: first how much of its input is read, and from `count` on how many batches of
/// accesses are made, around each of which the gate is called.
pub trait Watch: Gate {
    /// Begins a subcommand. It is called once at most.
    fn begin(&self, name: &'static str);

    /// From here on its batches are counted, of which there are so many. It is called once at most.
    fn count(&self, batches: u64);

    /// They are over, or were given up. Nothing of what was shown is left. A second call does nothing.
    fn end(&self);
}

/// How far a subcommand is.
#[derive(Clone, Copy)]
pub enum Progress {
    /// So many bytes of its input are read, of a file of this size; `None` where it is no file.
    Read { bytes: u64, size: Option<u64> },
    /// So many batches of its accesses are made.
    Made { done: u64, batches: u64 },
}

// What erases the line from the cursor on.
const ERASED: &str = "\x1b[K";

// How long nothing is shown, in milliseconds.
const FIRST: u64 = 500;

// How long a line stands before it is drawn anew, in milliseconds.
const PAUSE: u64 = 200;

// The value of `due` while a thread draws.
const BUSY: u64 = u64::MAX;

// About how often the clock is read in all, whatever the batches are.
const LOOKS: u64 = 4096;

/// The line, on the standard error of a runtime.
#[derive(Drop)]
pub struct ProgressLine<'a, R> {
    rt: &'a R,
    // Where it is none, nothing is ever shown.
    start: Option<Instant>,
    size: Option<u64>,
    name: OnceLock<&'static str>,
    batches: OnceLock<u64>,
    read: AtomicU64,
    done: AtomicU64,
    // When the line is drawn next, in milliseconds after the start.
    due: AtomicU64,
}

impl<'a, R: Clock + Eprint> ProgressLine<'a, R> {
    /// A line that is drawn on standard error from half a second after the start on, or never. The size is that of the
    /// input, where it is a file.
    pub fn new(rt: &'a R, is_shown: bool, size: Option<u64>) -> ProgressLine<'a, R> {
        let start = if is_shown {
            Instant::now(rt).ok()
        } else {
            None
        };
        ProgressLine {
            rt,
            start,
            size,
            name: OnceLock::new(),
            batches: OnceLock::new(),
            read: AtomicU64::new(0),
            done: AtomicU64::new(0),
            due: AtomicU64::new(FIRST),
        }
    }

    // So many bytes more are read.
    fn add_read(&self, bytes: u64) {
        let before = self.read.fetch_add(bytes, SeqCst);
        if self.batches.get().is_none() {
            self.draw(Progress::Read {
                bytes: before.wrapping_add(bytes),
                size: self.size,
            });
        }
    }

    // Draws the line where it is due and no other thread draws it.
    fn draw(&self, progress: Progress) {
        let (Some(start), Some(name)) = (self.start, self.name.get()) else {
            return;
        };
        let Ok(gone) = start.elapsed(self.rt) else {
            return;
        };
        let now = milliseconds(gone);
        if !self.is_due(now) {
            return;
        }
        let _ = self.rt.eprint(ProgressText {
            name: *name,
            progress,
            seconds: gone.as_secs(),
        });
        self.due.store(now.saturating_add(PAUSE), SeqCst);
    }

    // Whether a line is due, which this thread draws then.
    fn is_due(&self, now: u64) -> bool {
        let due = self.due.load(SeqCst);
        now >= due && self.due.compare_exchange(due, BUSY, SeqCst, SeqCst).is_ok()
    }
}

fn milliseconds(time: Duration) -> u64 {
    time.as_secs()
        .saturating_mul(1000)
        .saturating_add(u64::from(time.subsec_millis()))
}

impl<'a, R: Clock + Eprint + Sync> Gate for ProgressLine<'a, R> {
    fn before(&self, _who: u8, _n: u64) {}

    fn after(&self, _who: u8, _n: u64) {
        let Some(batches) = self.batches.get() else {
            return;
        };
        let done = self.done.fetch_add(1, SeqCst).wrapping_add(1);
        if done % (*batches / LOOKS).max(1) == 0 {
            self.draw(Progress::Made {
                done,
                batches: *batches,
            });
        }
    }
}

impl<'a, R: Clock + Eprint + Sync> Watch for ProgressLine<'a, R> {
    fn begin(&self, name: &'static str) {
        let _ = self.name.try_set(name);
    }

    fn count(&self, batches: u64) {
        let _ = self.batches.try_set(batches);
    }

    fn end(&self) {
        if self.due.swap(FIRST, SeqCst) != FIRST {
            let _ = eprint!(self.rt; "\r{ERASED}");
        }
    }
}

/// An input whose line shows how much of it is read.
#[derive(Drop)]
pub struct WatchedInput<'a, I, R> {
    pub input: I,
    pub line: &'a ProgressLine<'a, R>,
}

impl<'a, I: Read, R: Clock + Eprint> Read for WatchedInput<'a, I, R> {
    ghost remaining = { λ watched. I.remaining watched.input };

    fn read(&mut self, chunk: &mut [u8]) -> io::Result<usize> {
        let count = self.input.read(chunk)?;
        self.line.add_read(count as u64);
        Ok(count)
    }
}

/// The text of the line. It is written over the line that stands there, and the rest of that is erased.
#[derive(Clone, Copy)]
pub struct ProgressText {
    /// The name of the subcommand.
    pub name: &'static str,
    pub progress: Progress,
    /// The time since the start of the program.
    pub seconds: u64,
}

impl fmt::Display for ProgressText {
    fn fmt<W: fmt::Write>(&self, f: &mut fmt::Formatter<W>) -> fmt::Result {
        let (name, progress) = (self.name, self.progress);
        let minutes = self.seconds / 60;
        let seconds = self.seconds % 60;
        write!(f, "\r{name}: {progress}, {minutes}:{seconds:02}{ERASED}")
    }
}

impl fmt::Display for Progress {
    fn fmt<W: fmt::Write>(&self, f: &mut fmt::Formatter<W>) -> fmt::Result {
        match *self {
            Progress::Read {
                bytes,
                size: Some(size),
            } => write!(f, "{} % of the file", percent(bytes, size)),
            Progress::Read { bytes, size: None } => write!(f, "{} MB", bytes / 1_000_000),
            Progress::Made { done, batches } => {
                write!(f, "{} % of accesses", percent(done, batches))
            }
        }
    }
}

// How much the part is of the whole, at most 100.
fn percent(part: u64, whole: u64) -> u64 {
    part.min(whole).saturating_mul(100) / whole.max(1)
}
