//! Readers and writers that count what became of their calls.
ghost use Rattle.std.specs.Prelude.{◌≡◌, ◌<◌, ℕ, List, Option, Some, IfOk, OnOk, length, true, false, Bool};
ghost use Rattle.std.specs.Io.{ReadsAtMost, WritesAtMost};
ghost use Rattle.std.specs.Io.KnownBytes.{Keeps, ReadConsumes, WriteAppends};
ghost use Rattle.streams.specs.Tally.{Tally, Counts, no_calls};

use crate::tally::Tally;
use std::io::{Error, ErrorKind, Read, Result, Write};

/// A reader that counts what became of its reads. `CountedReader` makes one of any reader.
pub trait CountedRead {
    /// The bytes that reads will give from here on, where they are known.
    ghost remaining: { Self → Option (List ℕ) };

    /// What became of the reads so far.
    ghost tally: { Self → Tally };

    /// A read as by `std::io::Read::read`, which is counted.
    fn read(&mut self, chunk: &mut [u8]) -> Result<usize>
        ensures bound { ReadsAtMost result chunk.new }
        ensures bytes { ReadConsumes (remaining self.old) (remaining self.new) result chunk.new }
        ensures counted { Counts result (tally self.old) (tally self.new) };
}

/// A writer that counts what became of its writes and flushes. `CountedWriter` makes one of any
/// writer.
pub trait CountedWrite {
    /// The bytes that the writer holds, where they are known.
    ghost contents: { Self → Option (List ℕ) };

    /// What became of the writes and flushes so far.
    ghost tally: { Self → Tally };

    /// Whether it was flushed after the last write.
    ghost is_flushed: { Self → Bool };

    /// A write as by `std::io::Write::write`, which is counted. That no byte was taken is an error,
    /// unless there is none. What was flushed before it is flushed no more.
    fn write(&mut self, bytes: &[u8]) -> Result<usize>
        ensures bound { WritesAtMost result bytes.now }
        ensures bytes { WriteAppends (contents self.old) (contents self.new) result bytes.now }
        ensures some { IfOk result (λ n. 0 < length bytes.now → 0 < n) }
        ensures unflushed { is_flushed self.new ≡ false }
        ensures counted { Counts result (tally self.old) (tally self.new) };

    /// A flush as by `std::io::Write::flush`, which is counted.
    fn flush(&mut self) -> Result<()>
        ensures bytes { Keeps (contents self.old) (contents self.new) }
        ensures flushed { OnOk result (is_flushed self.new ≡ true) }
        ensures counted { Counts result (tally self.old) (tally self.new) };
}

/// A reader, and what became of its reads since it was made.
#[derive(Drop)]
pub struct CountedReader<R> {
    inner: R,
    tally: Tally,
}

impl<R> CountedReader<R> {
    /// Of a reader, whose reads are counted from here on.
    pub fn new(inner: R) -> CountedReader<R>
        ensures inner { result.inner ≡ inner }
        ensures tally { result.tally ≡ no_calls }
    {
        CountedReader {
            inner,
            tally: Tally::new(),
        }
    }

    /// The reader.
    pub fn get_ref(&self) -> &R
        ensures { result.now ≡ self.now.inner }
    {
        &self.inner
    }
}

impl<R: Read> CountedRead for CountedReader<R> {
    ghost remaining = { λ r. R.remaining r.inner };

    ghost tally = { λ r. r.tally };

    fn read(&mut self, chunk: &mut [u8]) -> Result<usize> {
        match self.inner.read(chunk) {
            Ok(count) => Ok(count),
            Err(error) => Err(self.tally.count(error)),
        }
    }
}

/// Bytes in memory, whose reads neither fail nor are interrupted.
impl CountedRead for &[u8] {
    ghost remaining = { λ bytes. Some bytes.now };

    ghost tally = { λ _. no_calls };

    fn read(&mut self, chunk: &mut [u8]) -> Result<usize> {
        Read::read(self, chunk)
    }
}

/// A writer, what became of its writes and flushes since it was made, and whether it was flushed
/// after the last write.
#[derive(Drop)]
pub struct CountedWriter<W> {
    inner: W,
    tally: Tally,
    is_flushed: bool,
}

impl<W> CountedWriter<W> {
    /// Of a writer, whose writes and flushes are counted from here on.
    pub fn new(inner: W) -> CountedWriter<W>
        ensures inner { result.inner ≡ inner }
        ensures tally { result.tally ≡ no_calls }
    {
        CountedWriter {
            inner,
            tally: Tally::new(),
            is_flushed: true,
        }
    }

    /// The writer.
    pub fn get_ref(&self) -> &W
        ensures { result.now ≡ self.now.inner }
    {
        &self.inner
    }

    /// The writer, which is counted no more.
    pub fn into_inner(self) -> W
        ensures { result ≡ self.inner }
    {
        self.inner
    }
}

impl<W: Write> CountedWrite for CountedWriter<W> {
    ghost contents = { λ w. W.contents w.inner };

    ghost tally = { λ w. w.tally };

    ghost is_flushed = { λ w. w.is_flushed };

    fn write(&mut self, bytes: &[u8]) -> Result<usize> {
        self.is_flushed = false;
        match self.inner.write(bytes) {
            Ok(0) if !bytes.is_empty() => Err(self.tally.count(Error::from(ErrorKind::WriteZero))),
            Ok(count) => Ok(count),
            Err(error) => Err(self.tally.count(error)),
        }
    }

    fn flush(&mut self) -> Result<()> {
        match self.inner.flush() {
            Ok(()) => {
                self.is_flushed = true;
                Ok(())
            }
            Err(error) => Err(self.tally.count(error)),
        }
    }
}
