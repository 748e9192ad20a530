//! The program's commands, as `clap` builds them from the rows.
ghost use Rattle.std.specs.Prelude.{◌≡◌, false, IfOk, map};
ghost use Rattle.clap.specs.Words.{app_of, new_app, new_rule, rule_of};
ghost use Rattle.command_line.specs.Options.{defined, defined_subcommand, subcommands};
ghost use Rattle.command_line.specs.Program.{IsCommandOf, app_of_subcommand, empty_app, parser_of, program_app};
ghost use Rattle.command_line.specs.Program.{is_required, rule_of_row, with_place};

use crate::choices::WordLists;
use crate::options::{OptionRow, Place, SUBCOMMANDS, Subcommand, ValueKind};
use clap::builder::ValueParser;
use clap::{Arg, ArgAction, Command};
use std::alloc::{AllocError, Global};

// The version, which is the newest in `CHANGELOG.md`: `tools/check_manual` compares them.
const VERSION: &str = "0.1.0";

/// The program's commands, over the words that name formats, spreads and rates.
pub(crate) fn program<'a>(alloc: Global, lists: &WordLists<'a>) -> Result<Command<'a>, AllocError>
    ensures { IfOk result (λ c. app_of c ≡ program_app lists.now) }
{
    let mut command = top_command(alloc);
    for row in rows() {
        let subcommand = subcommand(alloc, row, lists)?;
        command = command.subcommand(subcommand)?;
    }
    command.bin_name("cachesim")
}

// The rows of all subcommands.
fn rows() -> &'static [Subcommand]
    ensures { map defined_subcommand result.now ≡ subcommands }
{
    &SUBCOMMANDS
}

// `cachesim` itself, which has a version, wants a subcommand, and is handed the words after its name.
fn top_command<'a>(alloc: Global) -> Command<'a>
    ensures { IsCommandOf empty_app result }
{
    Command::new(alloc, "cachesim")
        .about("Simulates cache policies over recorded block traces")
        .version(VERSION)
        .subcommand_required(true)
        .no_binary_name(true)
}

// The subcommand, with its options.
fn subcommand<'a>(
    alloc: Global,
    row: &Subcommand,
    lists: &WordLists<'a>,
) -> Result<Command<'a>, AllocError>
    ensures { IfOk result (IsCommandOf (app_of_subcommand lists.now (defined_subcommand row.now))) }
{
    let mut command = without_options(alloc, row);
    for option in row.options {
        command = command.arg(arg(alloc, option.row(), lists))?;
    }
    Ok(command)
}

// The subcommand without options, whose help has its texts.
fn without_options<'a>(alloc: Global, row: &Subcommand) -> Command<'a>
    ensures { IsCommandOf (new_app row.now.name.now) result }
{
    let command = Command::new(alloc, row.name)
        .about(row.about)
        .long_about(row.whole)
        .after_help(row.example)
        .next_line_help(true);
    match row.usage {
        Some(usage) => command.override_usage(usage),
        None => command,
    }
}

// The argument of an option.
fn arg<'a>(alloc: Global, row: &OptionRow, lists: &WordLists<'a>) -> Arg<'a>
    ensures rule { rule_of result ≡ rule_of_row lists.now (defined row.now) }
    ensures local { result.global ≡ false }
{
    let arg = placed(alloc, row)
        .value_parser(parser(row.value, lists))
        .value_name(row.value_name)
        .help(row.help)
        .hide_possible_values(has_many_words(row.value));
    match row.default {
        Some(word) => arg.default_value(word),
        None => arg.required(is_required(row.place)),
    }
}

// An argument of the row's name, given as the row says.
fn placed<'a>(alloc: Global, row: &OptionRow) -> Arg<'a>
    ensures rule { rule_of result ≡ with_place row.now.place row.now.id.now (new_rule row.now.id.now) }
    ensures local { result.global ≡ false }
{
    let arg = Arg::new(alloc, row.id);
    match row.place {
        Place::Named | Place::Optional => arg.long(row.id),
        Place::NamedOften => arg.long(row.id).action(ArgAction::Append),
        Place::Switch => arg.long(row.id).action(ArgAction::SetTrue),
        Place::Positional => arg.num_args(1..).action(ArgAction::Append),
    }
}

// Whether an option with no default has to be given.
fn is_required(place: Place) -> bool
    ensures { result ≡ is_required place }
{
    !matches!(place, Place::Optional | Place::Switch)
}

// Whether a value is one of so many words that they do not fit a line.
fn has_many_words(value: ValueKind) -> bool {
    matches!(value, ValueKind::Rate)
}

// What `clap` takes as a value.
fn parser<'a>(value: ValueKind, lists: &WordLists<'a>) -> ValueParser<'a>
    ensures { result ≡ parser_of lists.now value }
{
    match value {
        ValueKind::Number(least, most) => ValueParser::Signed(i64::from(least), i64::from(most)),
        ValueKind::AnyNumber => ValueParser::Unsigned(0, u64::MAX),
        ValueKind::Format => ValueParser::Names(lists.formats),
        ValueKind::Spread => ValueParser::Names(lists.spreads),
        ValueKind::Rate => ValueParser::Names(lists.rates),
        ValueKind::Policy | ValueKind::File => ValueParser::String,
        ValueKind::Flag => ValueParser::Bool,
    }
}
