//! The names of the queues, over their numbers in the table.
ghost use Rattle.std.specs.Prelude.{◌≡◌, ◌<◌};
ghost use Rattle.queue_table.specs.Queues.{QUEUES};
ghost use Rattle.segments.specs.Names.{number_of, name_of, named_place, numbered_place};

use crate::records::{Queue, QueuePlace};
use queue_table::Place;

/// The number of a queue.
#[inline(always)]
pub(crate) fn number(queue: Queue) -> u8
    ensures number { result ≡ number_of queue }
    ensures low { result < QUEUES }
{
    match queue {
        Queue::Window => 0,
        Queue::Probation => 1,
        Queue::Protected => 2,
    }
}

/// The queue with a number. Those above 2 are empty.
#[inline(always)]
pub(crate) fn name(number: u8) -> Queue
    ensures { result ≡ name_of number }
{
    match number {
        0 => Queue::Window,
        1 => Queue::Probation,
        _ => Queue::Protected,
    }
}

/// A place, by the name of its queue.
#[inline(always)]
pub(crate) fn queue_place(place: Place) -> QueuePlace
    ensures { result ≡ named_place place }
{
    QueuePlace {
        queue: name(place.queue),
        older: place.older,
    }
}

/// A place, by the number of its queue.
#[inline(always)]
pub(crate) fn table_place(place: QueuePlace) -> Place
    ensures place { result ≡ numbered_place place }
    ensures low { result.queue < QUEUES }
{
    Place {
        queue: number(place.queue),
        older: place.older,
    }
}
