//! What a seat at the table knows. No value of these types is made.
use std::collections::LinkedList;
use std::snapshot::Snapshot;

/// The entries of one worker, how many tickets it has drawn, and the value's entries when it gave its last turn.
pub struct Part<E> {
    pub number: u64,
    pub own: LinkedList<E>,
    pub draws: u64,
    pub shown: LinkedList<E>,
}

/// The opening value, the parts of the seat's workers, the entries that were given last, the ticket that the seat
/// waits with or whose turn has come, and the value that it then took.
pub struct View<T, E> {
    pub opening: Option<T>,
    pub parts: LinkedList<Part<E>>,
    pub last: LinkedList<E>,
    pub ticket: Option<u64>,
    pub held: Option<T>,
}

/// What the table is made with.
#[derive(Drop)]
pub struct Terms<T> {
    pub opening: Snapshot<T>,
    pub workers: u8,
}
