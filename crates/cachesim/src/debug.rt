//! The subcommands `debug` and `replay`: commands on the input, about what a file has.
ghost use Rattle.std.specs.Prelude.{◌≡◌, true, Ok};
ghost use Rattle.command_line.specs.Accepted.{IsAcceptedPart};
ghost use Rattle.command_line.specs.declared.arguments.Arguments.TheVariants.{Debug, Replay};
ghost use Rattle.engine_base.specs.Config.{config_fault};
ghost use Rattle.cachesim.specs.DriveOutput.{IsEmptySession};
ghost use Rattle.cachesim.specs.Subcommand.{IsPerformed};

use crate::drive::open_session;
use crate::fault::Fault;
use crate::files::Files;
use command_line::{DebugArguments, ReplayArguments};
use debug_commands::run_replay;
use debug_policies::run_debug;
use journal::Session;
use journal_text::read_journal;
use maintenance::Shell;
use std::alloc::Global;
use std::thread::Threads;
use streams::{CountedRead, CountedWrite};
use trace_read::read_trace;

/// Reads the trace of the file, and answers the commands of the input about the two policies over
/// it, each at once.
pub fn debug<T: Threads + Sync, R: CountedRead, W: CountedWrite, F: Files>(
    rt: &T,
    alloc: Global,
    arguments: &DebugArguments,
    input: &mut R,
    out: &mut W,
    files: &F,
) -> Result<(), Fault>
    requires { IsAcceptedPart arguments.now.policies }
    ensures { IsPerformed (Debug arguments.now) (F.known files.now) (R.remaining input.old) (W.contents out.old)
        (W.contents out.new) (R.tally input.old) (R.tally input.new) (W.tally out.old) (W.tally out.new)
        (out.new ≡ out.old) (W.is_flushed out.new ≡ true) result }
{
    let bytes = files.bytes(alloc, arguments.trace.as_str())?;
    let policies = &arguments.policies;
    let trace = read_trace(alloc, &mut bytes.as_slice(), policies.format)?;
    run_debug(
        rt,
        alloc,
        &trace,
        &policies.first,
        &policies.second,
        input,
        out,
    )?;
    Ok(())
}

/// Reads the journal of the file into a session of an empty cache, and answers the commands of the
/// input about it, each at once.
pub fn replay<R: CountedRead, W: CountedWrite, F: Files>(
    alloc: Global,
    arguments: &ReplayArguments,
    input: &mut R,
    out: &mut W,
    files: &F,
) -> Result<(), Fault>
    requires { config_fault arguments.now.config ≡ Ok tt }
    ensures { IsPerformed (Replay arguments.now) (F.known files.now) (R.remaining input.old) (W.contents out.old)
        (W.contents out.new) (R.tally input.old) (R.tally input.new) (W.tally out.old) (W.tally out.new)
        (out.new ≡ out.old) (W.is_flushed out.new ≡ true) result }
{
    let mut session = open_session(alloc, &arguments.config)?;
    replay_in(alloc, arguments, &mut session, input, out, files)
}

// The same in a session of an empty cache, which its caller drops in one place.
fn replay_in<R: CountedRead, W: CountedWrite, F: Files>(
    alloc: Global,
    arguments: &ReplayArguments,
    session: &mut Session<Shell>,
    input: &mut R,
    out: &mut W,
    files: &F,
) -> Result<(), Fault>
    requires { IsEmptySession arguments.now.config session.old }
    ensures { IsPerformed (Replay arguments.now) (F.known files.now) (R.remaining input.old) (W.contents out.old)
        (W.contents out.new) (R.tally input.old) (R.tally input.new) (W.tally out.old) (W.tally out.new)
        (out.new ≡ out.old) (W.is_flushed out.new ≡ true) result }
{
    let bytes = files.bytes(alloc, arguments.journal.as_str())?;
    read_journal(alloc, &mut bytes.as_slice(), session)?;
    run_replay(alloc, session, input, out)?;
    Ok(())
}
