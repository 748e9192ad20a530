//! What an access came to, and the undo record of what it moved.
ghost use Rattle.std.specs.Prelude.{◌≡◌};
ghost use Rattle.replacement.specs.PlanMoves.{leaver_in};

use engine_base::{Item, Outcome};
use segments::{Queue, QueuePlace};

/// The undo record of an access or an eviction: what moved, in turn. It does not name what went to the recent end of a
/// queue: that is the newest item there, once what came later is undone. It takes 40 bytes, as its small fields stand
/// first.
#[derive(Clone, Copy)]
pub enum Moves {
    /// An item of the queues was accessed, and maybe another followed it.
    Renewed {
        /// To whose recent end it went.
        to: Queue,
        /// What went to a recent end then: the oldest item of a queue.
        sent: Option<Sent>,
        /// Where it stood.
        from: QueuePlace,
    },
    /// What a new item or an eviction moved.
    Replaced {
        /// The queue to whose recent end a new item came first, if one did.
        came: Option<Queue>,
        /// What went to a recent end last: the oldest item of a queue.
        sent: Option<Sent>,
        /// The item that left between the two.
        left: Option<Leaver>,
    },
}

/// The oldest item of a queue, which left the queues.
#[derive(Clone, Copy)]
pub struct Leaver {
    /// The item.
    pub item: Item,
    /// The queue that it left.
    pub from: Queue,
}

/// The way of the oldest item of a queue to the recent end of another.
#[derive(Clone, Copy)]
pub struct Sent {
    /// The queue whose oldest item it was.
    pub from: Queue,
    /// The queue to whose recent end it went.
    pub to: Queue,
}

impl Moves {
    /// Nothing moved.
    pub const NONE: Moves = Moves::Replaced {
        came: None,
        sent: None,
        left: None,
    };

    /// The item that left the queues, if one did.
    #[inline(always)]
    pub fn leaver(&self) -> Option<Leaver>
        ensures { result ≡ leaver_in self.now }
    {
        match *self {
            Moves::Renewed { .. } => None,
            Moves::Replaced { left, .. } => left,
        }
    }
}

/// What an access or an eviction came to: its outcome, and the undo record of what it moved.
#[derive(Clone, Copy)]
pub struct Effect {
    /// The outcome.
    pub outcome: Outcome,
    /// The undo record.
    pub moves: Moves,
}
