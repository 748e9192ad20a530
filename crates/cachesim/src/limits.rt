//! The limits that the documents name, and the statuses, by their values: where one is changed, its line here is no
//! longer proved.
ghost use Rattle.std.specs.Prelude.{◌≡◌};
ghost use Rattle.cachesim.specs.declared.fault_report.TheConstants.{DONE, FAULT, REFUSED};
ghost use Rattle.trace_read.specs.declared.limits.TheConstants.Limits.{DEFAULT, LONG};

use crate::files::MAX_FILE_BYTES;
use debug_commands::{MAX_BREAKPOINTS, MAX_COMMAND_BYTES};
use journal_text::MAX_JOURNAL_BYTES;
use policies::MAX_ACTORS;
use shell_model::{MAX_ITEMS, MAX_TASKS};
use step_record::{
    MAX_ACCESSES, MAX_BATCH, MAX_CAPACITY, MAX_GHOST_PERCENT, MAX_JOURNAL_LIMIT, MAX_LIST_WORDS,
    MAX_MAIN_PERCENT, MAX_PART_PERCENT, MAX_STEPS, MAX_STRIPES, MAX_TRACE_BYTES, MAX_WORKERS,
};
use streams::INTERRUPTIONS;
use trace_read::{MAX_LONG_ACCESSES, MAX_LONG_TRACE_BYTES};
use turn_book::MAX_TURNS;

const _: () = prove!(
    MAX_CAPACITY == 1_048_576
        && MAX_MAIN_PERCENT == 99
        && MAX_PART_PERCENT == 99
        && MAX_GHOST_PERCENT == 100
        && MAX_LIST_WORDS == 262_144
        && MAX_STRIPES == 64
        && MAX_ITEMS == 16
        && MAX_TASKS == 128
        && MAX_TURNS == 4_294_967_296
        && MAX_JOURNAL_LIMIT == 16_777_216
        && MAX_STEPS == 4_294_967_296
        && MAX_WORKERS == 64
        && MAX_ACTORS == 64
        && MAX_BATCH == 65_536
        && MAX_ACCESSES == 16_777_216
        && MAX_TRACE_BYTES == 1_073_741_824
        && MAX_LONG_ACCESSES == 4_294_967_295
        && MAX_LONG_TRACE_BYTES == 1_099_511_627_776
        && MAX_FILE_BYTES == 1_073_741_824
        && MAX_JOURNAL_BYTES == 1_073_741_824
        && MAX_COMMAND_BYTES == 1_048_576
        && MAX_BREAKPOINTS == 64
        && INTERRUPTIONS == 1_000_000
);

// The statuses.
fn statuses()
    ensures { (DONE ≡ 0) × (FAULT ≡ 1) × (REFUSED ≡ 2) }
{}

// How much of a trace is read: 2^24 accesses and 2^30 bytes, or with `--long` 2^32 - 1 accesses and 2^40 bytes.
fn traces()
    ensures default { DEFAULT ≡ record { accesses = 16777216; bytes = 1073741824 } }
    ensures long { LONG ≡ record { accesses = 4294967295; bytes = 1099511627776 } }
{}
