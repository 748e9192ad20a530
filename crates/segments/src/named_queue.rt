//! A queue under its name.
ghost use Rattle.std.specs.Prelude.{◌≡◌};

use engine_base::Key;
use std::marker::Model;

/// A key of a queue.
#[derive(Clone, Copy)]
pub struct QueueKey {
    /// The key.
    pub key: Key,
    /// The number that its policy keeps beside it, where it keeps one: a bit, a count.
    pub number: Option<u64>,
}

/// A queue under its name, the oldest key first.
#[derive(Drop)]
pub struct NamedQueue {
    name: &'static str,
    keys: Vec<QueueKey>,
}

impl Model for NamedQueue {
    ghost use Rattle.segments.specs.NamedQueue.{NamedQueueData};

    ghost Value = { NamedQueueData };

    ghost view = { λ q. record { name = q.name.now; keys = q.keys.items } };
}

impl NamedQueue {
    /// The keys under the name.
    pub fn new(name: &'static str, keys: Vec<QueueKey>) -> NamedQueue
        ensures { result ≡ record { name = name.now; keys = keys.items } }
    {
        NamedQueue { name, keys }
    }

    /// Its name.
    pub fn name(&self) -> &'static str
        ensures { result.now ≡ self.now.name }
    {
        self.name
    }

    /// Its keys, the oldest first.
    pub fn keys(&self) -> &[QueueKey]
        ensures { result.now ≡ self.now.keys }
    {
        self.keys.as_slice()
    }
}
