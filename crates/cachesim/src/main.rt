//! The program over readers, writers and files: `command`, a file for each subcommand; `main`. It simulates cache
//! policies over recorded block traces.
//!
//! `command` is the whole program over readers and writers: it takes the words of a call, and carries the promise of
//! what the program writes and with which status it ends. `main` hands it the words, the streams and the files of the
//! process.
#![tactic(auto)]

mod call;
mod debug;
mod drive;
mod fault;
mod fault_report;
mod files;
mod footprint;
mod host;
mod limits;
mod perform;
mod reports;
mod sample;
mod sweep;
#[cfg(test)]
mod tests;

pub use call::command;
pub use fault::Fault;
pub use fault_report::{DONE, FAULT, REFUSED};
pub use files::{FileFault, FileInMemory, Files, MAX_FILE_BYTES};
use host::run_process;
use std::process::ExitCode;

fn main(rt: HostRuntime) -> ExitCode {
    ExitCode::from(run_process(&rt, rt.stdin(), rt.stdout(), rt.stderr()))
}
