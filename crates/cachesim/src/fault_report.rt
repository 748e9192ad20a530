//! How the program ends: its statuses, and the line that reports a fault or says what was done.
ghost use Rattle.std.specs.Prelude.{◌≡◌, ◌≤◌};
ghost use Rattle.std.specs.Io.KnownBytes.{Appends};
ghost use Rattle.streams.specs.Part.{AppendsPart};
ghost use Rattle.streams.specs.Tally.{Exhausts, IsServed};
ghost use Rattle.streams.specs.declared.retry_budget.TheConstants.{INTERRUPTIONS};
ghost use Rattle.cachesim.specs.FaultLine.{IsReported, WritesLine};
ghost use Rattle.cachesim.specs.declared.fault_report.TheConstants.{DONE, FAULT, REFUSED};

use crate::fault::Fault;
use std::alloc::Global;
use streams::CountedWrite;

/// The program did what it was asked to, and said all that it had to say of it.
pub const DONE: u8 = 0;

/// A fault other than a usage error, or a line of `sample` that could not be written.
pub const FAULT: u8 = 1;

/// A usage error: the command-line arguments are invalid.
pub const REFUSED: u8 = 2;

// The line of the fault for which no memory may be left.
const OUT_OF_MEMORY: &[u8] = b"fault: OutOfMemory\n";

/// Reports a fault by its line. That of a failed allocation takes no memory, and is also written if there is no
/// memory to format another line.
pub fn report_fault<X: CountedWrite>(alloc: Global, fault: Fault, fault_out: &mut X) -> u8
    ensures status { result ≡ FAULT }
    ensures reported { IsReported fault (X.tally fault_out.old) (X.tally fault_out.new) (X.contents fault_out.old)
        (X.contents fault_out.new) }
{
    if !matches!(fault, Fault::OutOfMemory)
        && let Ok(line) = format!(in alloc; "fault: {fault}\n")
    {
        report_line(line.as_bytes(), fault_out);
        return FAULT;
    }
    report_line(OUT_OF_MEMORY, fault_out);
    FAULT
}

/// Says what was done by its line. Where the fault output fails, the status alone reports that.
pub fn report_done<X: CountedWrite>(line: &[u8], fault_out: &mut X) -> u8
    ensures status { result ≤ FAULT }
    ensures line { result ≡ DONE → Appends (X.contents fault_out.old) (X.contents fault_out.new) line.now }
    ensures served { result ≡ DONE → IsServed (X.tally fault_out.old) (X.tally fault_out.new) }
    ensures part { result ≡ FAULT → AppendsPart (X.contents fault_out.old) (X.contents fault_out.new) line.now }
    ensures failed { result ≡ FAULT → Exhausts INTERRUPTIONS (X.tally fault_out.old) (X.tally fault_out.new) }
{
    match streams::write_all(fault_out, line) {
        Ok(()) => DONE,
        Err(_) => FAULT,
    }
}

/// Reports a usage error by its line.
pub fn report_usage_error<X: CountedWrite>(line: &[u8], fault_out: &mut X) -> u8
    ensures status { result ≡ REFUSED }
    ensures line { WritesLine (X.tally fault_out.old) (X.tally fault_out.new) (X.contents fault_out.old)
        (X.contents fault_out.new) line.now }
{
    report_line(line, fault_out);
    REFUSED
}

// Writes a line to the fault output; where that fails too, the status alone reports.
fn report_line<X: CountedWrite>(line: &[u8], fault_out: &mut X)
    ensures { WritesLine (X.tally fault_out.old) (X.tally fault_out.new) (X.contents fault_out.old)
        (X.contents fault_out.new) line.now }
{
    let _ = streams::write_all(fault_out, line);
}
