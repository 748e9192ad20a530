//! A sample, written while its trace is read.
ghost use Rattle.std.specs.Prelude.{◌≡◌, ◌≤◌, [], Err, IfErr, IfOk, IfSome, OnErr, OnOk, false, true};
ghost use Rattle.std.specs.Io.KnownBytes.{Appends, IsAtEnd};
ghost use Rattle.streams.specs.Part.{AppendsPart};
ghost use Rattle.streams.specs.Tally.{Exhausts, FailsWhere, Spends};
ghost use Rattle.streams.specs.Waiting.{IsTextWritten};
ghost use Rattle.trace_read.specs.TraceText.{keys_in};
ghost use Rattle.trace_read.specs.Numbers.{numbers_text};
ghost use Rattle.trace_read.specs.Sample.{sample_of};
ghost use Rattle.trace_read.specs.Written.{Counts, IsFaultless, IsSampleFault};

use crate::fault::TraceFault;
use crate::format::Format;
use crate::limits::Limits;
use crate::reading::Reading;
use crate::sample_counts::SampleCounts;
use crate::sample_fault::SampleFault;
use crate::sample_rule::SampleRule;
use crate::sampled_accesses::SampledAccesses;
use engine_base::Gate;
use std::alloc::Global;
use streams::{CountedRead, CountedWrite, RetryBudget, WriteAllFault, flush, write_some};

// Text is written once it has so many bytes.
const LONG_TEXT: usize = 65_536;

/// Reads a trace within the limits of a long one, and writes its sample while it reads: a number a line, flushed at the
/// end. It returns how much there was. Text is written some of it at a time, so what is written before an error is a
/// beginning of the text. Where a write fails no more is read. The gate is called after each piece of the trace.
pub fn write_sample<R: CountedRead, W: CountedWrite, G: Gate>(
    alloc: Global,
    reader: &mut R,
    format: Format,
    rule: SampleRule,
    writer: &mut W,
    gate: &G,
) -> Result<SampleCounts, SampleFault>
    requires { 2 ≤ rule.inverse }
    // The bytes have no fault, and those written are the text of the accesses that the sample has.
    ensures sound { OnOk result (IsFaultless format (R.remaining reader.old)) }
    ensures text { OnOk result (IfSome (R.remaining reader.old) (λ bytes. Appends (W.contents writer.old)
        (W.contents writer.new) (numbers_text (sample_of rule.inverse rule.seed (keys_in format bytes))))) }
    ensures counts { IfOk result (λ counts. IfSome (R.remaining reader.old) (λ bytes.
        Counts rule.inverse rule.seed (keys_in format bytes) counts)) }
    ensures end { OnOk result (IsAtEnd (R.remaining reader.new)) }
    ensures flushed { OnOk result (W.is_flushed writer.new ≡ true) }
    // After an error they are a beginning of that text.
    ensures part { OnErr result (IfSome (R.remaining reader.old) (λ bytes. AppendsPart (W.contents writer.old)
        (W.contents writer.new) (numbers_text (sample_of rule.inverse rule.seed (keys_in format bytes))))) }
    // A fault of the trace is that of reading it.
    ensures fault { IfErr result (IsSampleFault format (R.remaining reader.old) (R.remaining reader.new)) }
    // `Read` comes just where a read failed, or the millionth was interrupted, and `Write` where a write or a flush did.
    ensures reads { FailsWhere (result ≡ Err (SampleFault.Trace TraceFault.Read)) (R.tally reader.old) (R.tally reader.new) }
    ensures writes { FailsWhere (result ≡ Err SampleFault.Write) (W.tally writer.old) (W.tally writer.new) }
{
    let mut reading = Reading::new(alloc, format, Limits::LONG);
    let mut sample = SampledAccesses::new(alloc, rule);
    let mut keys = Vec::new(alloc);
    let mut budget = RetryBudget::new();
    let mut accesses = 0;
    'pieces: loop {
        let more = match reading.next(reader, &mut keys) {
            Ok(more) => more,
            Err(fault) => return Err(SampleFault::Trace(fault)),
        };
        if let Err(_) = sample.add(keys.as_slice()) {
            return Err(SampleFault::Trace(TraceFault::OutOfMemory));
        }
        accesses += keys.len() as u64;
        gate.after(0, accesses);
        if let Err(_) = pass_on(&mut sample, more, writer, &mut budget) {
            return Err(SampleFault::Write);
        }
        if !more {
            return Ok(sample.counts(accesses));
        }
    }
}

// Writes the text that waits, where it is long. Where no more comes, it is written in any case, and the writer flushed.
fn pass_on<W: CountedWrite>(
    sample: &mut SampledAccesses,
    more: bool,
    writer: &mut W,
    budget: &mut RetryBudget,
) -> Result<(), WriteAllFault>
    ensures same { (sample.new.test ≡ sample.old.test) × (sample.new.blocks ≡ sample.old.blocks) × (sample.new.accesses ≡ sample.old.accesses) }
    ensures written { OnOk result (IsTextWritten (W.contents writer.old) (W.contents writer.new) sample.new.text.items sample.old.text.items) }
    ensures none { OnOk result (more ≡ false → sample.new.text.items ≡ []) }
    ensures flushed { OnOk result (more ≡ false → W.is_flushed writer.new ≡ true) }
    ensures part { OnErr result (AppendsPart (W.contents writer.old) (W.contents writer.new) sample.old.text.items) }
    ensures spent { OnOk result (Spends budget.old budget.new (W.tally writer.old) (W.tally writer.new)) }
    ensures exhausted { OnErr result (Exhausts budget.old (W.tally writer.old) (W.tally writer.new)) }
{
    if more && sample.text.len() < LONG_TEXT {
        return Ok(());
    }
    write_some(writer, sample.text.as_slice(), budget)?;
    sample.text.clear();
    if more {
        return Ok(());
    }
    flush(writer, budget)
}
