//! The subcommand `drive`: a trace to the journal of workers on threads.
ghost use Rattle.std.specs.Prelude.{◌≡◌, ◌≤◌, ℕ, Ok, [], IfErr, IfOk, IsOkAnd, None, OnOk, get_or, length, true};
ghost use Rattle.std.specs.Prelude.{map};
ghost use Rattle.std.specs.Io.KnownBytes.{Appends};
ghost use Rattle.engine_base.specs.Config.{config_fault};
ghost use Rattle.command_line.specs.Accepted.{IsAcceptedDrive};
ghost use Rattle.command_line.specs.declared.arguments.Arguments.TheVariants.{Drive};
ghost use Rattle.journal_text.specs.Journal.{journal_of};
ghost use Rattle.journal_text.specs.declared.version.Version.TheVariants.{Two};
ghost use Rattle.streams.specs.Tally.{FailsWhere};
ghost use Rattle.cachesim.specs.CallFaults.{IsOfRead, IsOfWrite};
ghost use Rattle.cachesim.specs.WorkerReads.{IsDealt};
ghost use Rattle.cachesim.specs.DriveOutput.{IsEmptySession, IsOfRun, LeavesRun};
ghost use Rattle.cachesim.specs.Subcommand.{IsPerformed};

use crate::fault::Fault;
use command_line::DriveArguments;
use journal::Session;
use journal_text::write_journal;
use maintenance::Shell;
use std::alloc::{AllocError, Global};
use std::sync::Wait;
use std::thread::Threads;
use step_record::{Call, Config, Trace};
use streams::{CountedRead, CountedWrite, Watch};
use trace_read::read_trace;
use workers::{Cause, DriveFault, Driven};

/// A session of no step over an empty cache. The one error is out of memory.
pub fn open_session(alloc: Global, config: &Config) -> Result<Session<Shell>, AllocError>
    requires { config_fault config.now ≡ Ok tt }
    ensures { IfOk result (IsEmptySession config.now) }
{
    let shell = Shell::new(alloc, config)?;
    Ok(Session::open(alloc, shell, config.journal_limit as usize))
}

/// Reads the trace, lets the workers read its keys in a concurrent cache, each on a thread of its
/// own, and writes the journal of their steps. Where a worker was refused a step, the journal is
/// written too, and the fault is the cause. Any other fault but `Write` has written nothing.
pub fn drive<T: Threads + Wait + Sync, R: CountedRead, W: CountedWrite, P: Watch>(
    rt: &T,
    alloc: Global,
    arguments: &DriveArguments,
    input: &mut R,
    out: &mut W,
    watch: &P,
) -> Result<(), Fault>
    requires { IsAcceptedDrive arguments.now }
    ensures { IsPerformed (Drive arguments.now) (λ path. None) (R.remaining input.old) (W.contents out.old)
        (W.contents out.new) (R.tally input.old) (R.tally input.new) (W.tally out.old) (W.tally out.new)
        (out.new ≡ out.old) (W.is_flushed out.new ≡ true) result }
{
    watch.begin("drive");
    let trace = read_trace(alloc, input, arguments.format)?;
    let accesses = trace.len() as u64;
    let pieces = deal(alloc, trace, arguments.workers)?;
    let session = open_session(alloc, &arguments.config)?;
    watch.count(accesses);
    let run = workers::drive(rt, alloc, session, pieces, watch);
    watch.end();
    write_run(alloc, &run, out)
}

// An empty list of calls for each worker.
fn empty_pieces(alloc: Global, workers: u8) -> Result<Vec<Vec<Call>>, AllocError>
    ensures many { IfOk result (λ pieces. length pieces.items ≡ workers) }
    ensures empty { IfOk result (λ pieces. (w : ℕ) → get_or (map (λ p. p.items) pieces.items) w [] ≡ []) }
{
    let mut pieces = Vec::new(alloc);
    for _ in 0..workers {
        pieces.push(Vec::new(alloc))?;
    }
    Ok(pieces)
}

// The calls of each worker: access i, counted from 0, is a read by the worker i modulo their number.
fn deal(alloc: Global, trace: Trace, workers: u8) -> Result<Vec<Vec<Call>>, AllocError>
    requires { 1 ≤ workers }
    ensures { IfOk result (λ pieces. IsDealt workers trace (map (λ p. p.items) pieces.items)) }
{
    let mut pieces = empty_pieces(alloc, workers)?;
    let keys = trace.keys();
    for (i, key) in keys.iter().enumerate() {
        pieces[i % usize::from(workers)].push(Call::Read(*key))?;
    }
    Ok(pieces)
}

// Writes the journal of a run, also of one that was stopped, and reports why it did not make all walks.
fn write_run<W: CountedWrite>(
    alloc: Global,
    run: &Result<Driven, DriveFault>,
    out: &mut W,
) -> Result<(), Fault>
    requires { IfErr run.now IsOfRun }
    ensures leaves { IfErr result (LeavesRun run.now (W.contents out.old) (W.contents out.new)) }
    ensures written { OnOk result (IsOkAnd run.now (λ driven. (length driven.session.kept ≤ driven.session.limit)
        × Appends (W.contents out.old) (W.contents out.new) (journal_of Two driven.session.kept))) }
    ensures unread { ¬ IsOfRead result }
    ensures writes { FailsWhere (IsOfWrite result) (W.tally out.old) (W.tally out.new) }
    ensures flushed { OnOk result (W.is_flushed out.new ≡ true) }
{
    match run {
        Ok(driven) => {
            driven.session.sound();
            Ok(write_journal(alloc, &driven.session, out)?)
        }
        Err(DriveFault::Stopped { driven, cause }) => {
            driven.session.sound();
            write_journal(alloc, &driven.session, out)?;
            Err(match cause {
                Cause::Memory => Fault::OutOfMemory,
                Cause::JournalFull => Fault::JournalFull,
            })
        }
        Err(DriveFault::OutOfMemory { session: _ }) => Err(Fault::OutOfMemory),
        Err(DriveFault::Workers { .. }) => unreachable!(),
        Err(DriveFault::Held { .. }) => unreachable!(),
    }
}
