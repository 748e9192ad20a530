//! A trace whose caller takes its accesses, some at a time.
ghost use Rattle.std.specs.Prelude.{◌≡◌, ◌≤◌, ◌<◌, ℕ, List, Option, Ok, Err, OnOk, OnErr, length, true, false};
ghost use Rattle.std.specs.Io.KnownBytes.{IsAtEnd};
ghost use Rattle.streams.specs.Tally.{FailsWhere};
ghost use Rattle.streams.specs.declared.tally.Tally.{Tally};
ghost use Rattle.trace_read.specs.ReadTrace.{IsReadWithin};
ghost use Rattle.trace_read.specs.Reading.{HasGiven, IsFilled, IsNextGiven, IsReading, IsSomeReading, left_of};
ghost use Rattle.trace_read.specs.declared.limits.Limits.{Limits};
ghost use Rattle.trace_read.specs.declared.format.Format.{Format};
ghost use Rattle.trace_read.specs.declared.limits.TheConstants.{MAX_LONG_TRACE_BYTES};

use super::TraceFault;
use super::format::Format;
use super::limits::Limits;
use super::pending::Pending;
use super::pieces::Pieces;
use super::scan::Scan;
use engine_base::Key;
use std::alloc::Global;
use streams::CountedRead;

// How many bytes are asked for at a time.
const CHUNK: usize = 65_536;

/// A trace that is read as its caller asks for accesses. It keeps the bytes of one piece, and of a line that a piece cut
/// in two.
pub struct Reading {
    format: Format,
    limits: Limits,
    scan: Scan,
    // The accesses that come next, of a line of many.
    run: Pending,
    pieces: Pieces,
    // The piece that was read last is before `end`; what comes before `at` was taken.
    chunk: [u8; CHUNK],
    at: usize,
    end: usize,
    // Whether the last line was ended.
    is_at_end: bool,
}

impl Drop for Reading {
    fn drop(self) {
        let Reading {
            format: _,
            limits: _,
            scan: _,
            run: _,
            pieces: _,
            chunk: _,
            at: _,
            end: _,
            is_at_end: _,
        } = self;
    }
}

impl Reading {
    /// Before the first byte of a trace of this format, within these limits.
    pub fn new(alloc: Global, format: Format, limits: Limits) -> Reading
        requires { limits.bytes ≤ MAX_LONG_TRACE_BYTES }
        ensures new { (bytes : Option (List ℕ)) (tally : Tally) → HasGiven limits format bytes bytes tally tally 0 result }
        ensures same { (result.format ≡ format) × (result.limits ≡ limits) }
    {
        Reading {
            format,
            limits,
            scan: Scan::new(alloc, format, limits.accesses),
            run: Pending::none(),
            pieces: Pieces::new(limits.bytes),
            chunk: [0u8; CHUNK],
            at: 0,
            end: 0,
            is_at_end: false,
        }
    }

    /// Puts the next accesses in the place of those that the list has: those of a piece, or some hundreds of a line of
    /// more, and maybe none. False at the end, with none.
    ///
    /// `Read` and `TooLarge` come before the fault of a line: after a faulty line the rest is still read, and only counted.
    /// After an error the reading is of no more use.
    pub fn next<R: CountedRead>(
        &mut self,
        reader: &mut R,
        keys: &mut Vec<Key>,
    ) -> Result<bool, TraceFault>
        requires { IsSomeReading (R.remaining reader.old) (R.tally reader.old) self.old }
        // Of a reading that began at the bytes `old`, where the reader had counted `before`, and that has given the first n
        // accesses, they are the next, and the end or the fault is that of those bytes.
        ensures next { (limits : Limits) (format : Format) (old : Option (List ℕ)) (before : Tally) (n : ℕ)
            → HasGiven limits format old (R.remaining reader.old) before (R.tally reader.old) n self.old
            → IsNextGiven limits format old (R.remaining reader.new) before (R.tally reader.new) n keys.new.items self.new result }
        ensures further { result ≡ Ok true → left_of self.new < left_of self.old }
    {
        keys.clear();
        if self.run.count() > 0 {
            self.run.give(keys)?;
            return Ok(true);
        }
        if !self.fill(reader)? {
            if self.is_at_end {
                return Ok(false);
            }
            self.run = self.scan.end(keys)?;
            self.is_at_end = true;
            return Ok(true);
        }
        let chunk = self.chunk.as_slice();
        match self.scan.take(&chunk[self.at..self.end], keys) {
            Ok(taken) => {
                self.at += taken.bytes;
                self.run = taken.run;
                Ok(true)
            }
            Err(TraceFault::OutOfMemory) => Err(TraceFault::OutOfMemory),
            Err(fault) => {
                self.pieces.pass_rest(reader, &mut self.chunk)?;
                Err(fault)
            }
        }
    }

    // Sees to it that there are bytes to take: reads on where all were taken. False at the end of the reader.
    fn fill<R: CountedRead>(&mut self, reader: &mut R) -> Result<bool, TraceFault>
        requires { IsSomeReading (R.remaining reader.old) (R.tally reader.old) self.old }
        ensures reading { (old : Option (List ℕ)) (before : Tally)
            → IsReading old (R.remaining reader.old) before (R.tally reader.old) self.old
            → OnOk result (IsReading old (R.remaining reader.new) before (R.tally reader.new) self.new) }
        ensures read { (old : Option (List ℕ)) (before : Tally)
            → IsReading old (R.remaining reader.old) before (R.tally reader.old) self.old
            → OnErr result (IsReadWithin self.old.limits self.old.format old (R.remaining reader.new) result) }
        ensures tally { (old : Option (List ℕ)) (before : Tally)
            → IsReading old (R.remaining reader.old) before (R.tally reader.old) self.old
            → FailsWhere (result ≡ Err TraceFault.Read) before (R.tally reader.new) }
        ensures some { result ≡ Ok true → self.new.at < self.new.end }
        ensures within { OnOk result (self.new.end ≤ length self.new.chunk) }
        ensures end { result ≡ Ok false → IsAtEnd (R.remaining reader.new) × (self.new.at ≡ self.new.end) }
        ensures same { OnOk result (IsFilled self.old self.new) }
        ensures left { OnOk result (left_of self.new ≤ left_of self.old) }
    {
        if self.at < self.end {
            return Ok(true);
        }
        if self.is_at_end {
            return Ok(false);
        }
        let count = self.pieces.next(reader, &mut self.chunk)?;
        self.at = 0;
        self.end = count;
        Ok(count > 0)
    }
}
