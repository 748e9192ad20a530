//! The undo record of a step.
use crate::holder::Holder;
use crate::stats::Counted;
use admission::FreqRecord;
use engine_base::{Drain, Item, Phase, Worker};
use replacement::Moves;
use segments::MoveRecord;

/// A key that was recorded, and the moves that came with it: where its item went, and what that pushed out of
/// protected.
#[derive(Drop)]
pub struct UseRecord {
    /// What recording the key changed.
    pub frequency: FreqRecord,
    /// What moved.
    pub moves: Moves,
}

/// What an eviction moved in the queues, and whether the item that left them left the table too.
#[derive(Drop)]
pub struct EvictionRecord {
    /// What moved in the queues.
    pub moves: Moves,
    /// Whether the item that left them was that of its key in the table, and left that too.
    pub listed: bool,
}

/// What a step changed besides the statistics and the count of steps.
#[derive(Drop)]
pub enum Change {
    /// Nothing.
    Nothing,
    /// A read buffer took the item.
    Offered {
        stripe: u8,
        item: Item,
    },
    /// The update of the item waits.
    Updated {
        item: Item,
    },
    /// The item came into the table under a new node, and its addition waits.
    Added {
        item: Item,
    },
    /// The item left the table, and its removal waits.
    Removed {
        item: Item,
    },
    /// A write asked for maintenance.
    Requested {
        before: Drain,
        now: Drain,
    },
    /// The worker holds the maintenance.
    Began {
        worker: Worker,
        before: Drain,
    },
    /// An item was taken out of a read buffer and applied.
    Read {
        stripe: u8,
        item: Item,
        used: UseRecord,
    },
    /// The maintenance went on to a phase.
    Passed {
        before: Phase,
        now: Phase,
    },
    /// A task of an addition, where it is new, or of an update was applied.
    Applied {
        before: Phase,
        is_new: bool,
        item: Item,
        used: UseRecord,
    },
    /// A task of a removal was applied.
    Cleared {
        before: Phase,
        item: Item,
        out: Option<MoveRecord>,
    },
    /// An eviction moved its candidate, and dropped an item where the queues held too much.
    Evicted {
        before: Phase,
        eviction: EvictionRecord,
    },
    /// The maintenance ended.
    Ended {
        holder: Holder,
        before: Drain,
        now: Drain,
    },
}

/// The undo record of a step: which count its reply raised, and what else it changed. It holds no list but that of a
/// halving of the frequency.
#[derive(Drop)]
pub struct ShellRecord {
    pub counted: Counted,
    pub change: Change,
}
