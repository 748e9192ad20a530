//! What typed arguments ask for.
ghost use Rattle.std.specs.Prelude.{◌≡◌, ◌≢◌, ◌⊎◌, IfErr, IfOk, IsErrAnd, IsOkAnd, OnOk, false, option_map};
ghost use Rattle.std.specs.Prelude.{string_bytes, true};
ghost use Rattle.std.specs.Io.KnownBytes.{Appends};
ghost use Rattle.command_line.specs.Accepted.{AreAccepted, needs_whole_trace};
ghost use Rattle.streams.specs.Tally.{FailsWhere};
ghost use Rattle.cachesim.specs.CallFaults.{Tally, IsOfRead, IsOfWrite};
ghost use Rattle.cachesim.specs.Subcommand.{IsPerformed, IsSameEnd, IsToSay};

use crate::debug::{debug, replay};
use crate::drive::drive;
use crate::fault::Fault;
use crate::files::Files;
use crate::footprint::footprint;
use crate::reports::{compare, intervals, part, run};
use crate::sample::sample;
use crate::sweep::sweep;
use command_line::Arguments;
use std::alloc::Global;
use std::sync::Wait;
use std::thread::Threads;
use streams::{CountedRead, CountedWrite, Watch};

/// Does what the arguments ask for, over an input and an output, and returns the line that says what was done, which
/// only `sample` has. `debug` and `replay` read a file too; all others are watched.
pub fn perform<T: Threads + Wait + Sync, R: CountedRead, W: CountedWrite, F: Files, P: Watch>(
    rt: &T,
    alloc: Global,
    arguments: &Arguments,
    input: &mut R,
    out: &mut W,
    files: &F,
    watch: &P,
) -> Result<Option<String>, Fault>
    requires accepted { AreAccepted arguments.now }
    requires kept { needs_whole_trace arguments.now ≡ false }
    ensures performed { IsPerformed arguments.now (F.known files.now) (R.remaining input.old) (W.contents out.old)
        (W.contents out.new) (R.tally input.old) (R.tally input.new) (W.tally out.old) (W.tally out.new)
        (out.new ≡ out.old) (W.is_flushed out.new ≡ true) result }
    ensures line { IfOk result (λ line. IsToSay arguments.now (R.remaining input.old) (option_map string_bytes line)) }
{
    match arguments {
        Arguments::Run(arguments) => write_text(
            run(rt, alloc, arguments, input, watch),
            out,
            watch,
        ),
        Arguments::Sweep(arguments) => write_text(
            sweep(rt, alloc, arguments, input, watch),
            out,
            watch,
        ),
        Arguments::Intervals(arguments) => {
            write_text(intervals(rt, alloc, arguments, input, watch), out, watch)
        }
        Arguments::Part(arguments) => write_text(
            part(rt, alloc, arguments, input, watch),
            out,
            watch,
        ),
        Arguments::Compare(arguments) => {
            write_text(compare(rt, alloc, arguments, input, watch), out, watch)
        }
        Arguments::Footprint(arguments) => {
            write_text(footprint(rt, alloc, arguments, input, watch), out, watch)
        }
        Arguments::Sample(arguments) => with_line(sample(alloc, arguments, input, out, watch)),
        Arguments::Drive(arguments) => without_line(drive(rt, alloc, arguments, input, out, watch)),
        Arguments::Debug(arguments) => without_line(debug(rt, alloc, arguments, input, out, files)),
        Arguments::Replay(arguments) => without_line(replay(alloc, arguments, input, out, files)),
    }
}

// What was done, with the line that says it.
fn with_line(done: Result<String, Fault>) -> Result<Option<String>, Fault>
    ensures same { IsSameEnd done result }
    ensures line { IfOk result (λ line. IsOkAnd done (λ made. line ≡ Some made)) }
{
    match done {
        Ok(line) => Ok(Some(line)),
        Err(fault) => Err(fault),
    }
}

// What was done, of which no line is said.
fn without_line(done: Result<(), Fault>) -> Result<Option<String>, Fault>
    ensures same { IsSameEnd done result }
    ensures line { IfOk result (λ line. option_map string_bytes line ≡ None) }
{
    match done {
        Ok(()) => Ok(None),
        Err(fault) => Err(fault),
    }
}

// Writes the text that was made, of which no line is said, or hands on why none was made. Nothing more is watched.
fn write_text<W: CountedWrite, P: Watch>(
    text: Result<Vec<u8>, Fault>,
    out: &mut W,
    watch: &P,
) -> Result<Option<String>, Fault>
    requires { ¬ IsOfWrite text }
    ensures text { OnOk result (IsOkAnd text (λ text. Appends (W.contents out.old) (W.contents out.new) text.items)) }
    ensures line { IfOk result (λ line. option_map string_bytes line ≡ None) }
    ensures kept { IfErr result (λ fault. fault ≢ Fault.Write → out.new ≡ out.old) }
    ensures fault { IfErr result (λ fault. (fault ≡ Fault.Write) ⊎ IsErrAnd text (λ made. made ≡ fault)) }
    ensures reads { (old : Tally) (new : Tally) → FailsWhere (IsOfRead text) old new
        → FailsWhere (IsOfRead result) old new }
    ensures writes { FailsWhere (IsOfWrite result) (W.tally out.old) (W.tally out.new) }
    ensures flushed { OnOk result (W.is_flushed out.new ≡ true) }
{
    watch.end();
    let text = text?;
    match streams::write_all(out, text.as_slice()) {
        Ok(()) => Ok(None),
        Err(_) => Err(Fault::Write),
    }
}
