//! The debugger of two policies, which walks over one trace, there and back. `run_debug` reads commands and answers
//! them: it promises that with `Ok` it has written just the lines that the definition of its answers gives for the
//! commands it read, in which what is shown is the policies' definitions over the first accesses.
#![tactic(auto)]

mod debugger;
mod inside;
mod one_policy;
mod views;
mod window;

pub use debug_commands::DebugFault;
pub use debugger::run_debug;
