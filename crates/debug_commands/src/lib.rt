//! Commands of a debugger, and the debugger of a journal.
//!
//! A debugger walks a `Timeline`: steps that can be made and undone one by one. Commands are read and answered line by line.
//! What is answered is a definition over the timeline's steps alone (`specs/Answers.antt`, `specs/Dialogue.antt`): a position, a
//! list of breakpoints, and the lines for each command. `answer_commands` promises that with `Ok` it has written just these
//! lines for the commands it read.
//!
//! `run_replay` walks the journal of a run of the concurrent cache back and forth and shows the cache at each step: what is
//! shown is the state that the definition of the concurrent cache gives after the first steps of the session.
#![tactic(auto)]

mod breakpoint;
mod command;
mod dialogue;
mod fault;
mod grammar;
mod replay;
mod shell_text;
mod timeline;

pub use breakpoint::{Breakpoint, StepFacts};
pub use command::{Command, Dialect, InputLine, View};
pub use dialogue::{MAX_BREAKPOINTS, MAX_COMMAND_BYTES, answer_commands};
pub use fault::DebugFault;
pub use grammar::line;
pub use replay::run_replay;
pub use timeline::Timeline;
