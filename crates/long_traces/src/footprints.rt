//! How large a trace is that is read.
ghost use Rattle.std.specs.Prelude.{◌≡◌, ◌≤◌, [], Err, IfOk, IfSome};
ghost use Rattle.streams.specs.Tally.{FailsWhere};
ghost use Rattle.trace_index.specs.FootprintCounter.{HasCounted};
ghost use Rattle.trace_index.specs.Footprint.{footprint_of};
ghost use Rattle.trace_read.specs.ReadTrace.{IsReadWithin};
ghost use Rattle.trace_read.specs.TraceText.{keys_in};
ghost use Rattle.trace_read.specs.declared.limits.TheConstants.{MAX_LONG_ACCESSES, MAX_LONG_TRACE_BYTES};

use crate::feed::taken_by;
use std::alloc::{AllocError, Global};
use std::thread::Threads;
use step_record::{Key, Trace};
use streams::CountedRead;
use sweeps::Taker;
use trace_index::{Footprint, FootprintCounter};
use trace_read::{Format, Limits, TraceFault};

/// How large the trace is that the reader gives. Beside a piece of it, memory has a number for each block.
///
/// Errors: those of `reports`.
pub fn footprint<T: Threads + Sync, R: CountedRead>(
    rt: &T,
    alloc: Global,
    reader: &mut R,
    format: Format,
    limits: Limits,
) -> Result<Footprint, TraceFault>
    requires accesses { limits.accesses ≤ MAX_LONG_ACCESSES }
    requires bytes { limits.bytes ≤ MAX_LONG_TRACE_BYTES }
    ensures footprint { IfOk result (λ footprint. IfSome (R.remaining reader.old)
        (λ bytes. footprint ≡ footprint_of (keys_in format bytes))) }
    ensures read { IsReadWithin limits format (R.remaining reader.old) (R.remaining reader.new) result }
    ensures tally { FailsWhere (result ≡ Err TraceFault.Read) (R.tally reader.old) (R.tally reader.new) }
{
    let counted = taken_by(
        rt,
        alloc,
        reader,
        format,
        limits,
        false,
        |_none: &Trace| -> Result<CountedTrace, AllocError>
            ensures { IfOk result (λ counted. HasCounted [] counted.counter) }
        {
            Ok(CountedTrace {
                counter: FootprintCounter::new(alloc),
            })
        },
    )?;
    Ok(counted.counter.footprint())
}

// What is counted of a trace while it is read.
#[derive(Drop)]
struct CountedTrace {
    counter: FootprintCounter,
}

impl Taker for CountedTrace {
    ghost use Rattle.long_traces.specs.Footprint.{HasCountedFirst};

    ghost has_taken = { HasCountedFirst };

    fn take<T: Threads + Sync>(&mut self, _rt: &T, keys: &[Key]) -> Result<(), AllocError> {
        self.counter.take(keys)
    }
}
