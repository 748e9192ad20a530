//! The commands.

use crate::breakpoint::Breakpoint;
use engine_base::Key;

/// What a line says.
#[derive(Clone, Copy)]
pub enum InputLine {
    /// Nothing: blanks alone.
    Empty,
    /// No command.
    Unknown,
    /// A command.
    Known(Command),
}

/// A command of the debugger.
#[derive(Clone, Copy)]
pub enum Command {
    /// This number of steps onward.
    Step(u64),
    /// This number of steps back.
    Back(u64),
    /// To a position: the number of steps that are made there.
    Goto(u64),
    /// Onward, at least one step, to the next breakpoint that holds.
    Run,
    /// Sets a breakpoint.
    Break(Breakpoint),
    /// Removes all breakpoints.
    Clear,
    /// What is seen at the position.
    Show,
    /// What else is seen of two policies at the position, in the one dialect that has it.
    View(View),
    /// The command that only this dialect has: `part` or `save`.
    Own,
    /// Ends the run.
    Quit,
}

/// What a command of the one dialect shows of two policies at a position.
#[derive(Clone, Copy)]
pub enum View {
    /// The sizes of their windows.
    Window,
    /// Their queues.
    Queues,
    /// The access that led to the position, and its outcomes.
    Last,
    /// What their admission filters take as a key's frequency.
    Estimate(Key),
}

/// Which of the two debuggers the commands are for. They differ by a command and a breakpoint, and the first has the views
/// more.
#[derive(Clone, Copy)]
pub enum Dialect {
    /// Two policies over a trace: `part`, `break part`, `window`, `queues`, `last` and `estimate`.
    Policies,
    /// The journal of a concurrent cache: `save` and `break drop`.
    Journal,
}
