//! How the accesses of a trace reach what takes them while it is read.
ghost use Rattle.std.specs.Prelude.{◌≡◌, ◌≤◌, ◌⊎◌, ℕ, List, Err, Ok, IfOk, IfSome, OnOk, false, length, true};
ghost use Rattle.engine_base.specs.declared.limits.TheConstants.{MAX_ACCESSES, MAX_STEPS};
ghost use Rattle.streams.specs.Tally.{FailsWhere};
ghost use Rattle.sweeps.specs.Taking.{HasTakenAll, Task};
ghost use Rattle.trace_read.specs.ReadTrace.{IsReadWithin};
ghost use Rattle.trace_read.specs.TraceText.{keys_in};
ghost use Rattle.trace_read.specs.declared.limits.TheConstants.{MAX_LONG_TRACE_BYTES};
ghost use Rattle.long_traces.specs.Feed.{Begins, HasBegun};

use std::alloc::{AllocError, Global};
use std::thread::Threads;
use step_record::{OpenGate, Trace};
use streams::CountedRead;
use sweeps::{AT_A_TIME, Taker, take_trace};
use trace_read::{Format, Limits, Reading, TraceFault, read_trace_within};

/// What has taken all accesses of the trace that the reader gives, a file of this format within these limits. It is
/// made of the whole trace where that `is_kept`; else it is made of no access, and takes the first ones while
/// later ones are not yet read.
///
/// Errors: those of `read_trace`, and `OutOfMemory` also where what takes them is out of memory.
pub(crate) fn taken_by<
    T: Threads + Sync,
    R: CountedRead,
    K: Taker,
    F: Fn(&Trace) -> Result<K, AllocError>,
>(
    rt: &T,
    alloc: Global,
    reader: &mut R,
    format: Format,
    limits: Limits,
    is_kept: bool,
    make: F,
) -> Result<K, TraceFault>
    requires bytes { limits.bytes ≤ MAX_LONG_TRACE_BYTES }
    requires accesses { limits.accesses ≤ MAX_STEPS }
    requires kept { is_kept ≡ true → limits.accesses ≤ MAX_ACCESSES }
    requires makes { (trace : _) → F.pre make trace }
    requires begins { (task : Task)
        × Begins (λ opened taker. F.post make opened (Ok taker)) is_kept (K.has_taken task) }
    ensures some { IfOk result (λ taker. (task : Task)
        → Begins (λ opened taker. F.post make opened (Ok taker)) is_kept (K.has_taken task)
        → HasTakenAll (K.has_taken task) taker) }
    ensures taken { IfOk result (λ taker. IfSome (R.remaining reader.old) (λ bytes. (task : Task)
        → Begins (λ opened taker. F.post make opened (Ok taker)) is_kept (K.has_taken task)
        → K.has_taken task (keys_in format bytes) (length (keys_in format bytes)) taker)) }
    ensures read { IsReadWithin limits format (R.remaining reader.old) (R.remaining reader.new) result }
    ensures tally { FailsWhere (result ≡ Err TraceFault.Read) (R.tally reader.old) (R.tally reader.new) }
{
    if is_kept {
        let trace = read_trace_within(alloc, reader, format, limits)?;
        let mut taker = make(&trace)?;
        take_trace(rt, &trace, &mut taker, &OpenGate)?;
        return Ok(taker);
    }
    let none = Trace::new(Vec::new(alloc));
    let mut taker = make(&none)?;
    read_taken(rt, alloc, reader, format, limits, &mut taker)?;
    Ok(taker)
}

// Reads the whole reader as a trace file within these limits, and has all its accesses taken, `AT_A_TIME` or some more
// of them at a time, the first while later ones are not yet read.
//
// Errors: those of `read_trace`, and `OutOfMemory` also where what takes them is out of memory.
fn read_taken<T: Threads + Sync, R: CountedRead, K: Taker>(
    rt: &T,
    alloc: Global,
    reader: &mut R,
    format: Format,
    limits: Limits,
    taker: &mut K,
) -> Result<(), TraceFault>
    requires bytes { limits.bytes ≤ MAX_LONG_TRACE_BYTES }
    requires accesses { limits.accesses ≤ MAX_STEPS }
    requires begun { (task : Task) × HasBegun (K.has_taken task) taker.old }
    ensures some { OnOk result ((task : Task) → HasBegun (K.has_taken task) taker.old
        → HasTakenAll (K.has_taken task) taker.new) }
    ensures taken { OnOk result (IfSome (R.remaining reader.old) (λ bytes. (task : Task)
        → HasBegun (K.has_taken task) taker.old
        → K.has_taken task (keys_in format bytes) (length (keys_in format bytes)) taker.new)) }
    ensures read { IsReadWithin limits format (R.remaining reader.old) (R.remaining reader.new) result }
    ensures tally { FailsWhere (result ≡ Err TraceFault.Read) (R.tally reader.old) (R.tally reader.new) }
{
    let mut reading = Reading::new(alloc, format, limits);
    let mut keys = Vec::new(alloc);
    let mut waiting = Vec::new(alloc);
    'pieces: while reading.next(reader, &mut keys)? {
        waiting.extend_from_slice(keys.as_slice())?;
        if waiting.len() >= AT_A_TIME {
            taker.take(rt, waiting.as_slice())?;
            waiting.clear();
        }
    }
    Ok(taker.take(rt, waiting.as_slice())?)
}
