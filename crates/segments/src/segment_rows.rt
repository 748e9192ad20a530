//! Of the policies that go by the table of moves. Each answer is for queues of keys alone.
ghost use Rattle.std.specs.Prelude.{◌≡◌};
ghost use Rattle.segments.specs.Items.{nodeless_item};
ghost use Rattle.segments.specs.Queues.{queue_holding, IsDistinct};
ghost use Rattle.segments.specs.SegmentQueues.{one_queue, two_queues, three_queues};
ghost use Rattle.segments.specs.KeyRow.{row_of};
ghost use Rattle.segments.specs.SegmentKeys.{AreKeys};

use crate::records::Queue;
use crate::segments::Segments;
use engine_base::{Item, Key};

/// The number of the queue, of a policy that has one, in which the key stands.
pub fn one_queue_row(segments: &Segments, key: Key) -> Option<usize>
    ensures { AreKeys segments.now.lists → result ≡ row_of key (one_queue segments.now.lists) }
{
    match queue_of(segments, key) {
        Some(Queue::Window) => Some(0),
        Some(Queue::Probation) => None,
        Some(Queue::Protected) => None,
        None => None,
    }
}

/// Of segmented LRU.
pub fn two_queues_row(segments: &Segments, key: Key) -> Option<usize>
    ensures { AreKeys segments.now.lists → result ≡ row_of key (two_queues segments.now.lists) }
{
    match queue_of(segments, key) {
        Some(Queue::Probation) => Some(0),
        Some(Queue::Protected) => Some(1),
        Some(Queue::Window) => None,
        None => None,
    }
}

/// Of segmented LRU behind a window.
pub fn three_queues_row(segments: &Segments, key: Key) -> Option<usize>
    ensures { AreKeys segments.now.lists → result ≡ row_of key (three_queues segments.now.lists) }
{
    match queue_of(segments, key) {
        Some(Queue::Window) => Some(0),
        Some(Queue::Probation) => Some(1),
        Some(Queue::Protected) => Some(2),
        None => None,
    }
}

// The one queue in which the key stands.
fn queue_of(segments: &Segments, key: Key) -> Option<Queue>
    ensures queue { result ≡ queue_holding (nodeless_item key) segments.now.lists }
    ensures distinct { IsDistinct segments.now.lists }
{
    segments.find(Item { key, node: 0 })
}
