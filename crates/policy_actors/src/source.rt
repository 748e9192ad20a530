//! Where the accesses of a run come from.
ghost use Rattle.std.specs.Prelude.{◌≡◌, ◌≤◌, ℕ, List, Err, OnOk, Option, Some, length};
ghost use Rattle.streams.specs.Tally.{FailsWhere};
ghost use Rattle.trace_read.specs.ReadTrace.{IsReadWithin};
ghost use Rattle.trace_read.specs.TraceText.{keys_of_file};
ghost use Rattle.trace_read.specs.declared.limits.TheConstants.{MAX_LONG_TRACE_BYTES};

use crate::feeder::Feeder;
use crate::lump::FedTrace;
use std::alloc::AllocError;
use std::sync::Wait;
use step_record::Trace;
use streams::CountedRead;
use trace_read::{Format, Limits, Reading, TraceFault};

// How many accesses of a trace that is there the feeder gets at a time.
const PIECE: usize = 65_536;

/// A trace that is there, or that is read meanwhile.
pub trait AccessSource: Drop {
    /// The result of feeding the actors.
    type Outcome;

    // these are its accesses, as far as they are known, and it gives at most so many
    ghost gives: { Self → Option (List ℕ) → ℕ → Type 0 };

    ghost becomes: { Self → Self.Outcome → Type 0 };

    /// The most accesses that it may give.
    fn max_accesses(&self) -> usize
        ensures { (known : Option (List ℕ)) (most : ℕ) → gives self.now known most
            → gives self.now known result × (result ≤ most) };

    /// Gives the feeder all accesses, in order.
    fn feed<S: FedTrace, W: Wait>(self, feeder: Feeder<'_, S, W>) -> Self::Outcome
        requires gives { gives self S.known S.most }
        requires none { feeder.place ≡ 0 }
        ensures { becomes self result };

    /// Gives nothing, where the actors could not be started.
    fn cancel(self) -> Self::Outcome
        ensures { becomes self result };
}

/// A trace that is there.
#[derive(Drop)]
pub struct TraceSource<'t> {
    pub trace: &'t Trace,
}

impl<'t> AccessSource for TraceSource<'t> {
    type Outcome = ();

    ghost use Rattle.std.specs.Prelude.{⊤, ◌≡◌, ◌≤◌, Some, length};

    ghost gives = { λ s known most. (known ≡ Some s.trace.now) × (length s.trace.now ≤ most) };

    ghost becomes = { λ s o. ⊤ };

    fn max_accesses(&self) -> usize {
        self.trace.len()
    }

    fn feed<S: FedTrace, W: Wait>(self, mut feeder: Feeder<'_, S, W>) {
        let _ = feed_trace(&mut feeder, self.trace);
    }

    fn cancel(self) {}
}

/// A trace that a reader gives, within these limits.
#[derive(Drop)]
pub struct ReaderSource<'r, R> {
    pub reader: &'r mut R,
    pub format: Format,
    pub limits: Limits,
}

impl<'r, R: CountedRead> AccessSource for ReaderSource<'r, R> {
    type Outcome = (&'r mut R, Result<(), TraceFault>);

    ghost use Rattle.std.specs.Prelude.{◌≡◌, ◌≤◌, Err};
    ghost use Rattle.streams.specs.Tally.{FailsWhere};
    ghost use Rattle.trace_read.specs.declared.fault.TraceFault.TheVariants.{Read};
    ghost use Rattle.trace_read.specs.ReadTrace.{IsReadWithin};
    ghost use Rattle.trace_read.specs.TraceText.{keys_of_file};
    ghost use Rattle.trace_read.specs.declared.limits.TheConstants.{MAX_LONG_TRACE_BYTES};

    ghost gives = { λ s known most. (known ≡ keys_of_file s.format (R.remaining s.reader.now))
        × (s.limits.accesses ≤ most) × (s.limits.bytes ≤ MAX_LONG_TRACE_BYTES) };

    ghost becomes = { λ s o. (o.0.ghost_name ≡ s.reader.ghost_name)
        × IsReadWithin s.limits s.format (R.remaining s.reader.now) (R.remaining o.0.now) o.1
        × FailsWhere (o.1 ≡ Err Read) (R.tally s.reader.now) (R.tally o.0.now) };

    fn max_accesses(&self) -> usize {
        self.limits.accesses
    }

    fn feed<S: FedTrace, W: Wait>(
        self,
        mut feeder: Feeder<'_, S, W>,
    ) -> (&'r mut R, Result<(), TraceFault>) {
        let ReaderSource {
            reader,
            format,
            limits,
        } = self;
        let read = feed_read(&mut feeder, reader, format, limits);
        (reader, read)
    }

    fn cancel(self) -> (&'r mut R, Result<(), TraceFault>) {
        let ReaderSource { reader, .. } = self;
        (reader, Err(TraceFault::OutOfMemory))
    }
}

// Gives the feeder a trace that is there, piece by piece. The one error is out of memory.
fn feed_trace<S: FedTrace, W: Wait>(
    feeder: &mut Feeder<'_, S, W>,
    trace: &Trace,
) -> Result<(), AllocError>
    requires known { S.known ≡ Some trace.now }
    requires few { length trace.now ≤ S.most }
    requires none { feeder.old.place ≡ 0 }
    ensures { OnOk result (feeder.new.place ≡ length trace.now) }
{
    let mut read = Vec::new(feeder.alloc);
    let mut rest = trace.keys();
    while rest.len() > PIECE {
        let (piece, later) = rest.split_at(PIECE);
        read.extend_from_slice(piece)?;
        feeder.take(&mut read);
        rest = later;
    }
    read.extend_from_slice(rest)?;
    feeder.give(read, true);
    Ok(())
}

// Gives the feeder the trace that the reader gives, while it is read.
fn feed_read<S: FedTrace, R: CountedRead, W: Wait>(
    feeder: &mut Feeder<'_, S, W>,
    reader: &mut R,
    format: Format,
    limits: Limits,
) -> Result<(), TraceFault>
    requires known { S.known ≡ keys_of_file format (R.remaining reader.old) }
    requires few { limits.accesses ≤ S.most }
    requires bytes { limits.bytes ≤ MAX_LONG_TRACE_BYTES }
    requires none { feeder.old.place ≡ 0 }
    ensures read { IsReadWithin limits format (R.remaining reader.old) (R.remaining reader.new) result }
    ensures tally { FailsWhere (result ≡ Err TraceFault.Read) (R.tally reader.old) (R.tally reader.new) }
{
    let mut reading = Reading::new(feeder.alloc, format, limits);
    let mut keys = Vec::new(feeder.alloc);
    let mut waiting = Vec::new(feeder.alloc);
    'pieces: while reading.next(reader, &mut keys)? {
        waiting.extend_from_slice(keys.as_slice())?;
        feeder.take(&mut waiting);
    }
    feeder.give(waiting, true);
    Ok(())
}
