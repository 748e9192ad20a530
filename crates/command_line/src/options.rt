//! The program's options and subcommands, each a row: the commands that `clap` reads, their help, the arguments and the
//! definition of what words ask for are all made of these. A text of help is broken where its line would be over 80
//! columns wide: help sets those of options in by 10, and those in the list of subcommands by 13.
ghost use Rattle.std.specs.Prelude.{◌≡◌};
ghost use Rattle.command_line.specs.Options.{defined, row_of};

use OptionName::{
    Batch, Capacities, Capacity, ComparedEvery, Every, First, Format, In, Inside, Journal, Limit,
    Long, Main, Out, Period, Policies, Rate, Second, Seed, Small, Spread, Stripes, SweptPolicies,
    Trace, Workers,
};
use step_record::{
    MAX_BATCH, MAX_CAPACITY, MAX_GHOST_PERCENT, MAX_JOURNAL_LIMIT, MAX_MAIN_PERCENT,
    MAX_PART_PERCENT, MAX_WORKERS,
};

/// A subcommand: its name, the texts of its help, and its options.
#[derive(Clone, Copy)]
pub struct Subcommand {
    pub name: &'static str,
    /// One line, in the list of subcommands and at the top of `-h`.
    pub about: &'static str,
    /// The top of `--help`: what is read from where.
    pub whole: &'static str,
    /// Its usage line, where that of `clap` is over 80 columns wide.
    pub usage: Option<&'static str>,
    /// The end of help: a call.
    pub example: &'static str,
    /// In the order in which help lists them.
    pub options: &'static [OptionName],
}

/// An option.
#[derive(Clone, Copy)]
pub struct OptionRow {
    /// Its name, after `--` where it has a name.
    pub id: &'static str,
    /// What help calls a value.
    pub value_name: &'static str,
    /// What help says of it. Of many words it lists the possible values too, which `clap` would write into one line.
    pub help: &'static str,
    pub value: ValueKind,
    pub place: Place,
    /// Its value where none is given; an option with no default is required, unless its place says otherwise.
    pub default: Option<&'static str>,
}

/// The name of an option, whose row is the one at its place in `OPTIONS`.
#[derive(Clone, Copy)]
pub enum OptionName {
    Capacity,
    Capacities,
    Main,
    Small,
    In,
    Out,
    Period,
    Spread,
    Format,
    Long,
    Batch,
    Every,
    ComparedEvery,
    Inside,
    Policies,
    SweptPolicies,
    First,
    Second,
    Workers,
    Stripes,
    Limit,
    Trace,
    Journal,
    Rate,
    Seed,
}

impl OptionName {
    /// Its row.
    pub fn row(self) -> &'static OptionRow
        ensures { defined result.now ≡ row_of self }
    {
        &OPTIONS[self as usize]
    }
}

/// What a value of an option is.
#[derive(Clone, Copy)]
pub enum ValueKind {
    /// A number from the first to the second.
    Number(u32, u32),
    /// A number of 64 bits.
    AnyNumber,
    /// The word of a policy, with sizes of its own or none.
    Policy,
    /// The word of a format.
    Format,
    /// The word of a spread.
    Spread,
    /// The word of a rate of a sample.
    Rate,
    /// The path of a file.
    File,
    /// None: whether the option is given is all.
    Flag,
}

/// How the values of an option are given.
#[derive(Clone, Copy)]
pub enum Place {
    /// Behind its name, once.
    Named,
    /// Behind its name, once or not at all.
    Optional,
    /// Behind its name, once for each value.
    NamedOften,
    /// With no name, one or more.
    Positional,
    /// Its name alone, or not at all.
    Switch,
}

/// All subcommands, in the order in which help lists them.
pub static SUBCOMMANDS: [Subcommand; 10] = [
    Subcommand {
        name: "run",
        about: "Runs policies over the trace on standard input: a report of each",
        whole: "Runs policies over the trace on standard input and prints a report of each.
The trace comes by a redirection (< FILE) or a pipe. Without one, at a terminal,
the program waits for you to type the trace, a line each, up to Ctrl-D.",
        usage: None,
        example: "Example: cachesim run --capacity 100 lru wtinylfu clairvoyant < trace.lirs",
        options: &[
            Capacity, Main, Small, In, Out, Period, Spread, Format, Long, Batch, Policies,
        ],
    },
    Subcommand {
        name: "sweep",
        about: "Runs policies at several capacities: a report of each at each",
        whole: "Runs policies over the trace on standard input and prints a report of each at
each capacity. The trace comes by a redirection (< FILE) or a pipe.",
        usage: None,
        example: "Example: cachesim sweep --policy wtinylfu 50 100 200 400 < trace.lirs",
        options: &[
            Main,
            Small,
            In,
            Out,
            Period,
            Spread,
            Format,
            Long,
            SweptPolicies,
            Capacities,
        ],
    },
    Subcommand {
        name: "intervals",
        about: "Runs policies and prints what each makes of each interval",
        whole: "Runs policies over the trace on standard input and prints what each makes of
each interval of it: a row for each --every accesses, or with --inside for each
queue of the policy. The caches stay as they are from one interval to the next.
The trace comes by a redirection (< FILE) or a pipe.",
        usage: None,
        example: "Example: cachesim intervals --capacity 100 --every 1000 lru arc < trace.lirs",
        options: &[
            Capacity, Every, Inside, Main, Small, In, Out, Period, Spread, Format, Long, Policies,
        ],
    },
    Subcommand {
        name: "part",
        about: "Prints the first access at which just one of two policies hits",
        whole: "Prints where two policies diverge: `part P`, P the first access of the trace on
standard input, counted from 1, at which just one of them hits, or `part none`.
The trace comes by a redirection (< FILE) or a pipe.",
        usage: None,
        example: "Example: cachesim part --capacity 100 --first lru --second slru < trace.lirs",
        options: &[
            Capacity, Main, Small, In, Out, Period, Spread, Format, Long, First, Second,
        ],
    },
    Subcommand {
        name: "compare",
        about: "Counts the accesses at which both policies hit, one, or neither",
        whole: "Prints at how many accesses of the trace on standard input both of two policies
hit, only the first, only the second, and neither; with --every M at how many of
each M accesses, a row for each. The trace comes by a redirection (< FILE) or a
pipe.",
        usage: Some(
            "cachesim compare [OPTIONS] --capacity <N> --first <POLICY>
                        --second <POLICY>",
        ),
        example: "Example: cachesim compare --capacity 100 --first lru --second slru < trace.lirs",
        options: &[
            Capacity,
            ComparedEvery,
            Main,
            Small,
            In,
            Out,
            Period,
            Spread,
            Format,
            Long,
            First,
            Second,
        ],
    },
    Subcommand {
        name: "footprint",
        about: "Counts the accesses of the trace and its distinct blocks",
        whole: "Prints how large the trace on standard input is: how many accesses, how many
distinct blocks, and how many of these are accessed once. The trace comes by a
redirection (< FILE) or a pipe.",
        usage: None,
        example: "Example: cachesim footprint < trace.lirs",
        options: &[Format, Long],
    },
    Subcommand {
        name: "sample",
        about: "Writes a sample of the trace: all accesses to one block in N",
        whole: "Writes a sample of the trace on standard input, a block number a line: all
accesses to one block in N, and none to the others. The trace may have
4294967295 accesses and 2^40 bytes; it comes by a redirection (< FILE) or a
pipe. At its end a line on standard error says what the sample is.",
        usage: None,
        example: "Example: cachesim sample --rate 1/8 < trace.lirs > eighth.lirs",
        options: &[Rate, Seed, Format],
    },
    Subcommand {
        name: "drive",
        about: "Runs the concurrent cache on threads and prints its journal",
        whole: "Runs the concurrent cache on threads over the trace on standard input and prints
its journal, which `replay` reads. The trace comes by a redirection (< FILE) or
a pipe.",
        usage: None,
        example: "Example: cachesim drive --capacity 100 --workers 4 < trace.lirs > run.journal",
        options: &[
            Capacity, Main, Small, In, Out, Period, Spread, Format, Workers, Stripes, Limit,
        ],
    },
    Subcommand {
        name: "debug",
        about: "Answers commands about two policies over the trace of a file",
        whole: "Answers commands on standard input about two policies over the trace of a file.
A command is a line: step N, back N, goto N, run, break hit K, break evict K,
break halve, break part, clear, show, window, queues, last, estimate K, part,
quit. Here standard input has the commands, and --trace names the file of the
trace.",
        usage: Some(
            "cachesim debug [OPTIONS] --capacity <N> --first <POLICY>
                      --second <POLICY> --trace <FILE>",
        ),
        example: "Example: cachesim debug --trace t.lirs --capacity 100 --first lru --second slru",
        options: &[
            Capacity, Main, Small, In, Out, Period, Spread, Format, First, Second, Trace,
        ],
    },
    Subcommand {
        name: "replay",
        about: "Answers commands about the concurrent run of a journal",
        whole: "Answers commands on standard input about the concurrent run whose journal is in
a file. A command is a line: step N, back N, goto N, run, break hit K, break
evict K, break halve, break drop, clear, show, save, quit. Give --capacity,
--stripes, --main, --spread and --limit as they were given to `drive`.",
        usage: None,
        example: "Example: cachesim replay --journal run.journal --capacity 100",
        options: &[
            Capacity, Main, Small, In, Out, Period, Spread, Journal, Stripes, Limit,
        ],
    },
];

// The options, in the order of their names.
static OPTIONS: [OptionRow; 25] = [
    OptionRow {
        id: "capacity",
        value_name: "N",
        help: "How many entries the cache holds, from 1 to 1048576",
        value: ValueKind::Number(1, MAX_CAPACITY),
        place: Place::Named,
        default: None,
    },
    OptionRow {
        id: "capacities",
        value_name: "CAPACITY",
        help: "How many entries the caches hold, from 1 to 1048576 each, in the
order of their reports",
        value: ValueKind::Number(1, MAX_CAPACITY),
        place: Place::Positional,
        default: None,
    },
    OptionRow {
        id: "main",
        value_name: "N",
        help: "How much of the capacity of wtinylfu, and of caffeine at first, is
the main part, in percent, from 0 to 99;
the rest is the window",
        value: ValueKind::Number(0, MAX_MAIN_PERCENT as u32),
        place: Place::Named,
        default: Some("99"),
    },
    OptionRow {
        id: "small",
        value_name: "P",
        help: "How much of the capacity of s3-fifo is its small queue, in percent,
from 1 to 99",
        value: ValueKind::Number(1, MAX_PART_PERCENT as u32),
        place: Place::Named,
        default: Some("10"),
    },
    OptionRow {
        id: "in",
        value_name: "P",
        help: "How much of the capacity of 2q is its queue of new keys, in percent,
from 1 to 99",
        value: ValueKind::Number(1, MAX_PART_PERCENT as u32),
        place: Place::Named,
        default: Some("25"),
    },
    OptionRow {
        id: "out",
        value_name: "P",
        help: "How many keys that left the ghost of 2q remembers, in percent of the
capacity, from 1 to 100",
        value: ValueKind::Number(1, MAX_GHOST_PERCENT as u32),
        place: Place::Named,
        default: Some("50"),
    },
    OptionRow {
        id: "period",
        value_name: "N",
        help: "After how many accesses caffeine moves its window, from 1 to
4294967295, though no fewer than its entries; by itself 10 an entry",
        value: ValueKind::Number(1, u32::MAX),
        place: Place::Optional,
        default: None,
    },
    OptionRow {
        id: "spread",
        value_name: "SPREAD",
        help: "How keys are spread over the columns of a sketch: mixed by a hash,
plain by remainders",
        value: ValueKind::Spread,
        place: Place::Named,
        default: Some("mixed"),
    },
    OptionRow {
        id: "format",
        value_name: "FORMAT",
        help: "The format of the trace: lirs has a block number a line, arc a first
block and how many blocks",
        value: ValueKind::Format,
        place: Place::Named,
        default: Some("lirs"),
    },
    OptionRow {
        id: "long",
        value_name: "",
        help: "The trace may have 4294967295 accesses and 2^40 bytes, in place of
16777216 and 2^30; not for clairvoyant",
        value: ValueKind::Flag,
        place: Place::Switch,
        default: None,
    },
    OptionRow {
        id: "batch",
        value_name: "N",
        help: "How many accesses a policy is given at once, from 1 to 65536; no
report depends on it",
        value: ValueKind::Number(1, MAX_BATCH),
        place: Place::Named,
        default: Some("1024"),
    },
    OptionRow {
        id: "every",
        value_name: "M",
        help: "How many accesses an interval has, from 1 to 16777216, or to
4294967295 with --long; the last one may have fewer",
        value: ValueKind::Number(1, u32::MAX),
        place: Place::Named,
        default: None,
    },
    OptionRow {
        id: "every",
        value_name: "M",
        help: "A row for each interval of M accesses, from 1 to 16777216, or to
4294967295 with --long; the last one may have fewer",
        value: ValueKind::Number(1, u32::MAX),
        place: Place::Optional,
        default: None,
    },
    OptionRow {
        id: "inside",
        value_name: "",
        help: "A row for each queue of the policy: how many keys it holds at the
end of the interval, and how many have their bit or count set",
        value: ValueKind::Flag,
        place: Place::Switch,
        default: None,
    },
    OptionRow {
        id: "policy",
        value_name: "POLICY",
        help: "The policies to run, in the order of their reports;
no file is named here; behind a word sizes of its own may stand,
in place of those of --main, --in and the like: 2q:in=50:out=100
[possible values: lru, slru, tinylfu-lru, tinylfu-slru, wtinylfu,
clairvoyant, fifo, clock, sieve, s3-fifo, 2q, arc, caffeine, car]",
        value: ValueKind::Policy,
        place: Place::Positional,
        default: None,
    },
    OptionRow {
        id: "policy",
        value_name: "POLICY",
        help: "A policy to run; given more than once,
the reports of the first come first; behind a word sizes of its own
may stand, in place of those of --main, --in and the like:
2q:in=50:out=100
[possible values: lru, slru, tinylfu-lru, tinylfu-slru, wtinylfu,
clairvoyant, fifo, clock, sieve, s3-fifo, 2q, arc, caffeine, car]",
        value: ValueKind::Policy,
        place: Place::NamedOften,
        default: None,
    },
    OptionRow {
        id: "first",
        value_name: "POLICY",
        help: "The one policy, by a word of `run`, with sizes of its own or none",
        value: ValueKind::Policy,
        place: Place::Named,
        default: None,
    },
    OptionRow {
        id: "second",
        value_name: "POLICY",
        help: "The other policy, by a word of `run`, with sizes of its own or none",
        value: ValueKind::Policy,
        place: Place::Named,
        default: None,
    },
    OptionRow {
        id: "workers",
        value_name: "N",
        help: "How many threads read the keys of the trace, from 1 to 64; access i
is made by thread i modulo their number",
        value: ValueKind::Number(1, MAX_WORKERS as u32),
        place: Place::Named,
        default: Some("2"),
    },
    OptionRow {
        id: "stripes",
        value_name: "N",
        help: "How many read buffers the cache has,
a power of two from 1 to 64",
        value: ValueKind::AnyNumber,
        place: Place::Named,
        default: Some("4"),
    },
    OptionRow {
        id: "limit",
        value_name: "N",
        help: "How many steps the journal holds,
from 1 to 16777216",
        value: ValueKind::Number(1, MAX_JOURNAL_LIMIT),
        place: Place::Named,
        default: Some("1048576"),
    },
    OptionRow {
        id: "trace",
        value_name: "FILE",
        help: "The file of the trace, of at most 2^30 bytes",
        value: ValueKind::File,
        place: Place::Named,
        default: None,
    },
    OptionRow {
        id: "journal",
        value_name: "FILE",
        help: "The file of the journal, of at most 2^30 bytes",
        value: ValueKind::File,
        place: Place::Named,
        default: None,
    },
    OptionRow {
        id: "rate",
        value_name: "1/N",
        help: "How many of the blocks: one in N, by a hash of its number
[possible values: 1/2, 1/4, 1/8, 1/16, 1/32, 1/64, 1/128, 1/256,
1/512, 1/1024, 1/2048, 1/4096, 1/8192, 1/16384, 1/32768, 1/65536,
1/131072, 1/262144, 1/524288, 1/1048576]",
        value: ValueKind::Rate,
        place: Place::Named,
        default: None,
    },
    OptionRow {
        id: "seed",
        value_name: "S",
        help: "Another number keeps other blocks,
from 0 to 18446744073709551615",
        value: ValueKind::AnyNumber,
        place: Place::Named,
        default: Some("1"),
    },
];
