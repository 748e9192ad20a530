//! The subcommand `footprint`: how large a trace is.
ghost use Rattle.command_line.specs.Accepted.{AreLimits};
ghost use Rattle.command_line.specs.declared.arguments.Arguments.TheVariants.{Footprint as OfFootprint};
ghost use Rattle.cachesim.specs.Subcommand.{IsMade};

use crate::fault::Fault;
use command_line::FootprintArguments;
use std::alloc::Global;
use std::thread::Threads;
use streams::{CountedRead, Watch};

/// A header and a row: how many accesses, how many distinct blocks, and how many of these are accessed once.
pub fn footprint<T: Threads + Sync, R: CountedRead, P: Watch>(
    rt: &T,
    alloc: Global,
    arguments: &FootprintArguments,
    input: &mut R,
    watch: &P,
) -> Result<Vec<u8>, Fault>
    requires { AreLimits arguments.now.limits }
    ensures { IsMade (OfFootprint arguments.now) (R.remaining input.old) (R.tally input.old) (R.tally input.new) result }
{
    watch.begin("footprint");
    let found = long_traces::footprint(rt, alloc, input, arguments.format, arguments.limits)?;
    Ok(found.text(alloc)?)
}
