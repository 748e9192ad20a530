//! Why a book was not opened.

/// Why a book was not opened. Each fault gives the value back.
#[derive(Drop)]
pub enum OpenFault<T> {
    /// An allocation failed.
    OutOfMemory(T),
    /// There are no workers, or more than a book has passes for.
    Workers(T),
    /// A pass has no turns, or more than it can draw.
    Turns(T),
}
