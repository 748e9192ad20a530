//! The grammar of a line, and its names.
ghost use Rattle.std.specs.Prelude.{◌≡◌};
ghost use Rattle.debug_commands.specs.Commands.{command_line_of, command_name_at, command_named, point_at, view_named};
ghost use Rattle.debug_commands.specs.Names.{command_names, command_spelling};
ghost use Rattle.debug_commands.specs.declared.grammar.TheConstants.{NAMES};
ghost use Rattle.streams.specs.Reads.{first_named, with_rest};

use crate::breakpoint::Breakpoint;
use crate::command::{Command, Dialect, InputLine, View};
use streams::{Words, trimmed};

/// What a line says, which is given without its line feed.
#[tactic(auto, unfolding(crate::specs::Commands::line_in, crate::specs::Commands::command_in, crate::specs::Commands::command_at, crate::specs::Commands::command_name_at, crate::specs::Names::name_of))]
pub fn line(dialect: Dialect, text: &[u8]) -> InputLine
    ensures { result ≡ command_line_of dialect text.now }
{
    let mut words = Words::of(trimmed(text));
    let Some(first) = words.next() else {
        return InputLine::Empty;
    };
    let Some(name) = first_named(&NAMES, first) else {
        return InputLine::Unknown;
    };
    let Some(command) = named_command(dialect, name, &mut words) else {
        return InputLine::Unknown;
    };
    match words.next() {
        None => InputLine::Known(command),
        Some(_) => InputLine::Unknown,
    }
}

/// A word of a command that is no number.
#[derive(Clone, Copy)]
pub enum Name {
    Step,
    Back,
    Goto,
    Run,
    Break,
    Clear,
    Show,
    Window,
    Queues,
    Last,
    Estimate,
    Part,
    Save,
    Quit,
    Hit,
    Evict,
    Halve,
    Drop,
}

impl Name {
    /// How the name is spelled.
    pub fn text(self) -> &'static [u8]
        ensures { result.now ≡ command_spelling self }
    {
        match self {
            Name::Step => b"step",
            Name::Back => b"back",
            Name::Goto => b"goto",
            Name::Run => b"run",
            Name::Break => b"break",
            Name::Clear => b"clear",
            Name::Show => b"show",
            Name::Window => b"window",
            Name::Queues => b"queues",
            Name::Last => b"last",
            Name::Estimate => b"estimate",
            Name::Part => b"part",
            Name::Save => b"save",
            Name::Quit => b"quit",
            Name::Hit => b"hit",
            Name::Evict => b"evict",
            Name::Halve => b"halve",
            Name::Drop => b"drop",
        }
    }
}

// The command of this name, with what stands next.
fn named_command(dialect: Dialect, name: Name, words: &mut Words) -> Option<Command>
    ensures { with_rest words.new result ≡ command_named dialect name words.old }
{
    match name {
        Name::Step => Some(Command::Step(words.number()?)),
        Name::Back => Some(Command::Back(words.number()?)),
        Name::Goto => Some(Command::Goto(words.number()?)),
        Name::Run => Some(Command::Run),
        Name::Break => Some(Command::Break(next_breakpoint(dialect, words)?)),
        Name::Clear => Some(Command::Clear),
        Name::Show => Some(Command::Show),
        Name::Part => match dialect {
            Dialect::Policies => Some(Command::Own),
            Dialect::Journal => None,
        },
        Name::Save => match dialect {
            Dialect::Policies => None,
            Dialect::Journal => Some(Command::Own),
        },
        Name::Quit => Some(Command::Quit),
        _ => match dialect {
            Dialect::Policies => Some(Command::View(named_view(name, words)?)),
            Dialect::Journal => None,
        },
    }
}

// The view of this name, with what stands next.
fn named_view(name: Name, words: &mut Words) -> Option<View>
    ensures { with_rest words.new result ≡ view_named name words.old }
{
    match name {
        Name::Window => Some(View::Window),
        Name::Queues => Some(View::Queues),
        Name::Last => Some(View::Last),
        Name::Estimate => Some(View::Estimate(words.number()?)),
        _ => None,
    }
}

// The breakpoint that stands next.
#[tactic(auto, unfolding(crate::specs::Commands::point_at))]
fn next_breakpoint(dialect: Dialect, words: &mut Words) -> Option<Breakpoint>
    ensures { with_rest words.new result ≡ point_at dialect words.old }
{
    match next_name(words)? {
        Name::Hit => Some(Breakpoint::Hit(words.number()?)),
        Name::Evict => Some(Breakpoint::Evict(words.number()?)),
        Name::Halve => Some(Breakpoint::Halve),
        Name::Part => match dialect {
            Dialect::Policies => Some(Breakpoint::Part),
            Dialect::Journal => None,
        },
        Name::Drop => match dialect {
            Dialect::Policies => None,
            Dialect::Journal => Some(Breakpoint::Drop),
        },
        _ => None,
    }
}

// The name that stands next.
#[tactic(auto, unfolding(crate::specs::Commands::command_name_at, crate::specs::Names::name_of))]
fn next_name(words: &mut Words) -> Option<Name>
    ensures { with_rest words.new result ≡ command_name_at words.old }
{
    first_named(&NAMES, words.next()?)
}

// All names.
const NAMES: [Name; 18] = [
    Name::Step,
    Name::Back,
    Name::Goto,
    Name::Run,
    Name::Break,
    Name::Clear,
    Name::Show,
    Name::Window,
    Name::Queues,
    Name::Last,
    Name::Estimate,
    Name::Part,
    Name::Save,
    Name::Quit,
    Name::Hit,
    Name::Evict,
    Name::Halve,
    Name::Drop,
];

// The list by its value: with another one this is not proved.
fn names()
    ensures { NAMES ≡ command_names }
{}

// The first of the names that is spelled so.
fn first_named(names: &[Name], word: &[u8]) -> Option<Name>
    ensures { result ≡ first_named command_spelling names.now word.now }
{
    for name in names {
        if name.text() == word {
            return Some(*name);
        }
    }
    None
}
