//! How the maintenance of the concurrent cache stands (Caffeine's Design page).

/// Whether maintenance is due or under way.
#[derive(Clone, Copy, PartialEq, Eq)]
pub enum Drain {
    /// None is under way, and none is due.
    Idle,
    /// None is under way, and one is due.
    Required,
    /// One is under way, and none is due after it.
    ToIdle,
    /// One is under way, and another one is due after it.
    ToRequired,
}

/// What the worker that holds the maintenance is at. A phase does not go back.
#[derive(Clone, Copy, PartialEq, Eq)]
pub enum Phase {
    /// It drains the read buffers.
    Reads,
    /// It applies the tasks of the write queue.
    Writes,
    /// It evicts what is too much.
    Evictions,
}
