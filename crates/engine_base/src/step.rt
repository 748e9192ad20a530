//! What the concurrent cache is asked, one step at a time, and what it answers.
ghost use Rattle.std.specs.Prelude.{◌≡◌};
ghost use Rattle.engine_base.specs.Answers.{is_answer};

use super::item::{Item, Key, Node};
use super::kept::ByWorker;
use super::worker::Worker;

/// What a caller asks of the concurrent cache; a worker carries each call out by several steps.
#[derive(Clone, Copy, PartialEq, Eq)]
pub enum Call {
    /// Reads a key, and adds it where the cache does not have it.
    Read(Key),
    /// Removes a key.
    Remove(Key),
}

/// A step: one act of one worker.
#[derive(Clone, Copy, PartialEq, Eq)]
pub struct Step {
    pub worker: Worker,
    pub act: Act,
}

impl ByWorker for Step {
    ghost worker = { λ s. s.worker };
}

/// What a worker does in a step: a reader's or a writer's own part, or a piece of the maintenance
/// that one of them at a time does for all (Caffeine's Design page).
#[derive(Clone, Copy, Debug, PartialEq, Eq)]
pub enum Act {
    /// Looks a key up.
    Look { key: Key },
    /// Offers an item that was read to a read buffer.
    Offer { stripe: u8, item: Item },
    /// Loses an offer, because another worker holds the read buffer.
    Lose { stripe: u8, item: Item },
    /// Adds a key, or updates it where it is there.
    Put { key: Key },
    /// Removes a key.
    Remove { key: Key },
    /// Asks after a read whether maintenance is due.
    AfterRead { answer: Answer },
    /// Asks after a write whether maintenance is due.
    AfterWrite,
    /// Begins the maintenance.
    Begin,
    /// Takes the oldest item out of a read buffer and applies it.
    DrainRead { stripe: u8 },
    /// Takes the oldest task out of the write queue and applies it.
    DrainWrite,
    /// Evicts one entry where the window is over its size.
    Evict,
    /// Ends the maintenance.
    End,
}

impl Act {
    /// Whether the reply belongs to this act.
    pub fn is_answered_by(&self, reply: &Reply) -> bool
        ensures { result ≡ is_answer self.now reply.now }
    {
        match self {
            Act::Look { .. } => matches!(reply, Reply::Hit { .. } | Reply::Miss),
            Act::Offer { .. } => matches!(reply, Reply::Kept | Reply::Full),
            Act::Lose { .. } => matches!(reply, Reply::Lost),
            Act::Put { .. } => {
                matches!(
                    reply,
                    Reply::Added { .. } | Reply::Present { .. } | Reply::WritesFull
                )
            }
            Act::Remove { .. } => {
                matches!(
                    reply,
                    Reply::Removed { .. } | Reply::Absent | Reply::WritesFull
                )
            }
            Act::AfterRead { .. } | Act::AfterWrite => matches!(reply, Reply::Go | Reply::Drain),
            Act::Begin => matches!(reply, Reply::Began | Reply::Busy),
            Act::DrainRead { .. } => matches!(reply, Reply::Drained { .. } | Reply::Empty),
            Act::DrainWrite => matches!(
                reply,
                Reply::Applied { .. } | Reply::Cleared { .. } | Reply::Empty | Reply::Enough
            ),
            Act::Evict => matches!(
                reply,
                Reply::Shifted { .. } | Reply::Evicted { .. } | Reply::Rejected { .. } | Reply::Fits
            ),
            Act::End => matches!(reply, Reply::Idle | Reply::Again | Reply::NotYet),
        }
    }
}

/// What an offer to a read buffer was answered.
#[derive(Clone, Copy, Debug, PartialEq, Eq)]
pub enum Answer {
    /// The buffer took the item.
    Kept,
    /// The buffer was full, and the item was dropped.
    Full,
    /// The buffer was contended, and the item was dropped.
    Lost,
}

/// What a step is answered. `Act` says what is asked.
#[derive(Clone, Copy, Debug, PartialEq, Eq)]
pub enum Reply {
    /// The key is there, with this node.
    Hit { node: Node },
    /// The key is not there.
    Miss,
    /// The read buffer took the item.
    Kept,
    /// The read buffer was full.
    Full,
    /// The read buffer was contended.
    Lost,
    /// The key was added under this new node.
    Added { node: Node },
    /// The key was there already, with this node.
    Present { node: Node },
    /// The write queue was full, and nothing changed.
    WritesFull,
    /// The key left, with this node.
    Removed { node: Node },
    /// The key to remove is not there.
    Absent,
    /// The worker goes on without maintenance.
    Go,
    /// The worker should try to begin the maintenance.
    Drain,
    /// The worker holds the maintenance now.
    Began,
    /// Another worker holds the maintenance.
    Busy,
    /// This item was taken out of the read buffer and applied.
    Drained { item: Item },
    /// The buffer or the queue is empty.
    Empty,
    /// This task's item was added or updated in the queues.
    Applied { item: Item },
    /// This removed item was taken out of its queue.
    Cleared { item: Item },
    /// As many tasks were applied as one maintenance applies.
    Enough,
    /// The window's oldest moved to probation, and nothing left.
    Shifted { item: Item },
    /// The victim left.
    Evicted { item: Item },
    /// The candidate was not admitted, and left.
    Rejected { item: Item },
    /// The window is not over its size.
    Fits,
    /// The maintenance ended, and none is required.
    Idle,
    /// The maintenance ended, and another one is required.
    Again,
    /// The window is over its size, so the maintenance cannot end.
    NotYet,
}
