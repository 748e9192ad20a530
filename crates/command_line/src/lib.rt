//! Options as rows, `clap`'s commands made of them, arguments as typed values.
//!
//! Options and subcommands are rows (`options`), of which the commands are made that `clap` reads, and `parse` gives the
//! arguments as typed values: configurations, jobs, capacities, a format. Its promise is that what it gives is a
//! function of the words: the same words always give the same arguments, and are refused exactly
//! where one of the rows' rules is broken.
//!
//! The words of policies and formats are those of `Policy::word` and `Format::word`.
#![tactic(auto)]

mod arguments;
mod choices;
mod commands;
mod fault;
mod lists;
mod options;
mod parser;
mod policy_words;
mod values;

pub use arguments::{
    Arguments, CompareArguments, DebugArguments, DriveArguments, FootprintArguments,
    IntervalsArguments, JobArguments, PartArguments, ReplayArguments, RunArguments,
    SampleArguments, SweepArguments,
};
pub use fault::ParseFault;
pub use lists::{CapacityList, FilePath, JobList, NamedList};
pub use parser::parse;
