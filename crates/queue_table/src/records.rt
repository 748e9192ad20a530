//! Entries, places in queues, and what a search finds.
use engine_base::Item;

/// An item with the count beside it.
#[derive(Clone, Copy)]
pub struct Entry {
    /// The item.
    pub item: Item,
    /// Its count.
    pub count: u8,
}

/// A place in a queue, named by the item that stands right before it.
#[derive(Clone, Copy)]
pub struct Place {
    /// The number of the queue.
    pub queue: u8,
    /// The item right before the place, towards the oldest end: `None` where the place is the old end of the queue.
    pub older: Option<Item>,
}

/// An item that stands in a queue: its slot, its queue and its count.
#[derive(Clone, Copy)]
pub struct Found {
    /// The slot.
    pub at: u32,
    /// The number of the queue.
    pub queue: u8,
    /// The count.
    pub count: u8,
}
