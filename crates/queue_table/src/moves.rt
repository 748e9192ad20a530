//! The undo record of an access: of fixed size, whatever the access moved.
ghost use Rattle.std.specs.Prelude.{◌≡◌, ℕ, Bool, Option};
ghost use Rattle.queue_table.specs.Queues.{Item, Queues};
ghost use Rattle.queue_table.specs.Moves.{item_of, Leaving, Own, stays, own_plan, outcome_after};
ghost use Rattle.queue_table.specs.Undoing.{left_of, IsOwn, IsCarried};

use engine_base::{Key, Outcome};

/// A run: the oldest key of one queue goes to the recent end of another one, or of the same, again and again.
#[derive(Clone, Copy)]
pub struct Run {
    /// How many keys went.
    pub times: u32,
    /// The queue that they left.
    pub from: u8,
    /// The queue to which they went.
    pub to: u8,
    /// By how much each one's count was lowered.
    pub less: u8,
}

/// What became of the oldest key of a queue.
#[derive(Clone, Copy)]
pub enum Departure {
    /// Nothing.
    Stayed,
    /// It went to another queue.
    Sent,
    /// It stands nowhere any more.
    Out,
}

/// A key that left the old end of its queue.
#[derive(Clone, Copy)]
pub struct Left {
    /// The key.
    pub key: Key,
    /// Its count before.
    pub count: u8,
    /// Its queue before.
    pub queue: u8,
    /// Where it went.
    pub by: Departure,
}

/// What an access changed of the place of its own key.
#[derive(Clone, Copy)]
pub enum Change {
    /// Nothing.
    Unmoved,
    /// Its count.
    Counted,
    /// It joined a queue, and stood nowhere before.
    Joined,
    /// It went from one place to another.
    Moved,
}

/// The accessed key, as it stood before.
#[derive(Clone, Copy)]
pub struct KeyMove {
    /// The key.
    pub key: Key,
    /// The next older key of its queue before; `None` where it was the oldest.
    pub older: Option<Key>,
    /// Its count before.
    pub count: u8,
    /// Its queue before.
    pub queue: u8,
    /// What changed.
    pub by: Change,
}

/// What an access moved, in its order. It undoes the access, from the last part to the first, and holds no list.
#[derive(Clone, Copy)]
pub struct Moves {
    /// The first run.
    pub early: Run,
    /// The second run.
    pub late: Run,
    /// The key that left a queue first.
    pub first: Left,
    /// The key that left a queue next.
    pub second: Left,
    /// The accessed key.
    pub own: KeyMove,
    /// The policy's own number before the access.
    pub own_number: u32,
}

/// An access that was made.
#[derive(Clone, Copy)]
pub struct Accessed {
    /// Its outcome.
    pub outcome: Outcome,
    /// The policy's own number after it.
    pub own_number: u32,
    /// What undoes it.
    pub moves: Moves,
}

impl Run {
    /// No run.
    pub const NONE: Run = Run {
        times: 0,
        from: 0,
        to: 0,
        less: 0,
    };
}

impl Left {
    /// No key left.
    pub const NONE: Left = Left {
        key: 0,
        count: 0,
        queue: 0,
        by: Departure::Stayed,
    };

    /// The outcome of a miss at which this is the key that left first.
    pub fn outcome(&self) -> Outcome
        ensures { (l : Option Leaving) (s : Queues) → self.now ≡ left_of l s → result ≡ outcome_after l s }
    {
        match self.by {
            Departure::Stayed => Outcome::Kept,
            Departure::Sent => Outcome::Evicted(self.key),
            Departure::Out => Outcome::Evicted(self.key),
        }
    }
}

impl KeyMove {
    /// The accessed key stays as it is.
    pub fn unmoved(key: Key) -> KeyMove
        ensures { (s : Queues) → IsOwn stays (item_of key) s s result }
    {
        KeyMove {
            key,
            older: None,
            count: 0,
            queue: 0,
            by: Change::Unmoved,
        }
    }
}

impl Moves {
    /// The record of an access that only moves its own key.
    pub fn of_key(own: KeyMove, own_number: u32) -> Moves
        ensures { (hits : Bool) (o : Own) (i : Item) (x : ℕ) (s u : Queues) → IsOwn o i s u own
            → IsCarried (own_plan hits o x) i own_number s u result }
    {
        Moves {
            early: Run::NONE,
            late: Run::NONE,
            first: Left::NONE,
            second: Left::NONE,
            own,
            own_number,
        }
    }
}
