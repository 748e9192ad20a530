//! The whole program, over readers and writers.
ghost use Rattle.std.specs.Prelude.{◌≡◌, ◌≢◌, ◌≤◌, ◌⊎◌, map, true};
ghost use Rattle.clap.specs.Words.{kind_of};
ghost use Rattle.streams.specs.Tally.{Exhausts, IsServed};
ghost use Rattle.streams.specs.declared.retry_budget.TheConstants.{INTERRUPTIONS};
ghost use Rattle.cachesim.specs.CallFaults.{AreServed, BlamesCalls};
ghost use Rattle.cachesim.specs.FaultLine.{IsReported};
ghost use Rattle.cachesim.specs.FaultCauses.{EndsInFault};
ghost use Rattle.cachesim.specs.Outcome.{DoneBy, DoneUnsaid, RefusedBy, is_help};
ghost use Rattle.cachesim.specs.declared.fault_report.TheConstants.{DONE, FAULT, REFUSED};

use crate::fault::Fault;
use crate::fault_report::{DONE, report_done, report_fault, report_usage_error};
use crate::files::Files;
use crate::perform::perform;
use clap::Error;
use clap::error::ErrorKind;
use command_line::ParseFault;
use std::alloc::Global;
use std::sync::Wait;
use std::thread::Threads;
use streams::{CountedRead, CountedWrite, Watch};

// The line of a number of read buffers that no cache has, which is a usage error.
const STRIPES: &[u8] = b"fault: Stripes\n";

// The line of Belady's policy for a long trace, which is a usage error.
const WHOLE_TRACE: &[u8] =
    b"error: clairvoyant has to know the whole trace, which --long does not keep: take a sample of it\n";

// The line of an interval that only a long trace may have, which is a usage error.
const LONG_INTERVALS: &[u8] = b"error: an interval has at most 16777216 accesses without --long\n";

// The lines of a word that names no policy, or of arguments that are incomplete, which are a usage error.
const INCOMPLETE: &[u8] = b"error: a word names no policy, or a number is missing
  [possible values: lru, slru, tinylfu-lru, tinylfu-slru, wtinylfu, clairvoyant, fifo, clock, sieve, \
s3-fifo, 2q, arc, caffeine, car]
  [with sizes of their own: wtinylfu:main=N, caffeine:main=N:period=N, 2q:in=P:out=P, s3-fifo:small=P]
";

/// The program, of the words after its name, over an input and two outputs: it returns the
/// status. `DONE` is 0, `FAULT` 1, with one line on the fault output, and `REFUSED` 2, a usage
/// error. `debug` and `replay` read a file too; all other subcommands are watched.
pub fn command<
    T: Threads + Wait + Sync,
    R: CountedRead,
    W: CountedWrite,
    X: CountedWrite,
    F: Files,
    P: Watch,
>(
    rt: &T,
    alloc: Global,
    words: &[&str],
    input: &mut R,
    out: &mut W,
    fault_out: &mut X,
    files: &F,
    watch: &P,
) -> u8
    ensures status { result ≤ REFUSED }
    // With status 0 the words ask for help, or the bytes read have no fault and those written are what the words ask for:
    // - `run`: the text of the report of each policy; `sweep`: of each at each capacity;
    // - `intervals`: the rows of each policy; `compare`: the row of what is counted of both, or a row for each interval;
    // - `footprint`: the row of how many accesses, distinct blocks, and blocks that are accessed once there are;
    // - `part`: the line of the access at which the two policies part;
    // - `sample`: the accesses to the blocks of the sample, with a line on the fault output, which is else as it was;
    // - `drive`: the journal of the walks by which the workers read the accesses in turn, in an empty cache;
    // - `debug`, `replay`: the answers to the commands read, about a file that is a trace or a journal without a fault.
    ensures done { result ≡ DONE → DoneBy (map (λ s. s.now) words.now) (F.known files.now) (R.remaining input.old)
        (W.contents out.old) (W.contents out.new) (X.contents fault_out.old) (X.contents fault_out.new)
        (fault_out.new ≡ fault_out.old) }
    // With status 1 a fault was found: one of the machine, or that of the words, the trace or the journal. Its line
    // was written to the fault output, whole unless a write or the flush of that output failed. What is found before
    // anything is written, as a faulty line of a trace, leaves the output as it was, and so does every fault of
    // `run`, `sweep`, `intervals`, `part`, `compare` and `footprint` but a failed write. `sample` has written a beginning
    // of its text. A run of workers that was stopped has its journal written. A call of the input or the output failed just
    // where that fault says so. Or no fault was found, and `sample` wrote all of its text, but not its line: a call of
    // the fault output failed, which has a beginning of it.
    ensures faulted { result ≡ FAULT → EndsInFault (map (λ s. s.now) words.now) (F.known files.now)
        (X.tally fault_out.old) (X.tally fault_out.new) (R.remaining input.old) (W.contents out.old) (W.contents out.new)
        (X.contents fault_out.old) (X.contents fault_out.new) (out.new ≡ out.old) (λ fault. BlamesCalls fault
        (R.tally input.old) (R.tally input.new) (W.tally out.old) (W.tally out.new))
        ⊎ DoneUnsaid (map (λ s. s.now) words.now) (X.tally fault_out.old) (X.tally fault_out.new)
        (R.remaining input.old) (W.contents out.old) (W.contents out.new) (X.contents fault_out.old)
        (X.contents fault_out.new) (AreServed (R.tally input.old) (R.tally input.new) (W.tally out.old)
        (W.tally out.new) × (W.is_flushed out.new ≡ true)) }
    // With status 0 no call of the input or of an output failed, and the output is flushed.
    ensures served { result ≡ DONE → AreServed (R.tally input.old) (R.tally input.new) (W.tally out.old)
        (W.tally out.new) × (W.is_flushed out.new ≡ true)
        × IsServed (X.tally fault_out.old) (X.tally fault_out.new) }
    // A usage error comes only where it is due, before anything is read or written. Its line is written likewise.
    ensures refused { result ≡ REFUSED → RefusedBy (map (λ s. s.now) words.now) (X.tally fault_out.old)
        (X.tally fault_out.new) (X.contents fault_out.old) (X.contents fault_out.new)
        × (input.new ≡ input.old) × (out.new ≡ out.old) }
{
    let arguments = match command_line::parse(alloc, words) {
        Ok(arguments) => arguments,
        Err(ParseFault::OutOfMemory) => {
            return report_fault(alloc, Fault::OutOfMemory, fault_out);
        }
        Err(ParseFault::Refused(error)) => return answer_help(alloc, &error, out, fault_out),
        Err(ParseFault::Stripes) => return report_usage_error(STRIPES, fault_out),
        Err(ParseFault::WholeTrace) => return report_usage_error(WHOLE_TRACE, fault_out),
        Err(ParseFault::LongIntervals) => return report_usage_error(LONG_INTERVALS, fault_out),
        Err(ParseFault::Incomplete) => return report_usage_error(INCOMPLETE, fault_out),
    };
    let done = perform(rt, alloc, &arguments, input, out, files, watch);
    watch.end();
    drop(arguments);
    match done {
        Ok(None) => DONE,
        Ok(Some(line)) => report_done(line.as_bytes(), fault_out),
        Err(fault) => report_fault(alloc, fault, fault_out),
    }
}

// Writes help or the version to the output, and what else clap answers to the fault output.
fn answer_help<W: CountedWrite, X: CountedWrite>(
    alloc: Global,
    error: &Error,
    out: &mut W,
    fault_out: &mut X,
) -> u8
    ensures status { result ≤ REFUSED }
    ensures done { result ≡ DONE → is_help (kind_of error.now) }
    ensures silent { result ≡ DONE → fault_out.new ≡ fault_out.old }
    ensures faulted { result ≡ FAULT
        → (IsReported Fault.OutOfMemory (X.tally fault_out.old) (X.tally fault_out.new) (X.contents fault_out.old)
        (X.contents fault_out.new) × (out.new ≡ out.old))
        ⊎ (IsReported Fault.Write (X.tally fault_out.old) (X.tally fault_out.new) (X.contents fault_out.old)
        (X.contents fault_out.new) × is_help (kind_of error.now)
        × Exhausts INTERRUPTIONS (W.tally out.old) (W.tally out.new)) }
    ensures served { result ≡ DONE → IsServed (W.tally out.old) (W.tally out.new) × (W.is_flushed out.new ≡ true) }
    ensures refused { result ≡ REFUSED → (¬ is_help (kind_of error.now))
        × (kind_of error.now ≢ ErrorKind.OutOfMemory) × (out.new ≡ out.old) }
{
    if error.kind() == ErrorKind::OutOfMemory {
        return report_fault(alloc, Fault::OutOfMemory, fault_out);
    }
    let Ok(text) = error.to_string(alloc) else {
        return report_fault(alloc, Fault::OutOfMemory, fault_out);
    };
    if error.use_stderr() {
        return report_usage_error(text.as_bytes(), fault_out);
    }
    match streams::write_all(out, text.as_bytes()) {
        Ok(()) => DONE,
        Err(_) => report_fault(alloc, Fault::Write, fault_out),
    }
}
