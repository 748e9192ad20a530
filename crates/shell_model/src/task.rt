//! What a writer leaves to the maintenance.
use engine_base::Item;

/// What became of an entry of the table, which the queues are still to follow.
#[derive(Clone, Copy)]
pub enum Task {
    /// The item was added to the table.
    Add(Item),
    /// The item, which the table had already, was written again.
    Update(Item),
    /// The item was removed from the table.
    Remove(Item),
}

/// The blank of a buffer's empty places.
impl Default for Task {
    fn default() -> Task {
        Task::Add(Item::default())
    }
}
