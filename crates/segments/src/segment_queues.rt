//! The queues of the policies that go by the table of moves.
ghost use Rattle.std.specs.Prelude.{◌≡◌, ◌++◌, [], ◌∷◌, map, IfOk, OnOk};
ghost use Rattle.segments.specs.Queues.{queue_of};
ghost use Rattle.segments.specs.NamedQueue.{plain_key};
ghost use Rattle.segments.specs.SegmentQueues.{item_queue};
ghost use Rattle.segments.specs.SegmentQueues.{one_queue as one_queue_of, two_queues as two_queues_of};
ghost use Rattle.segments.specs.SegmentQueues.{three_queues as three_queues_of};

use crate::named_queue::{NamedQueue, QueueKey};
use crate::records::Queue;
use crate::segments::Segments;
use engine_base::Item;
use std::alloc::{AllocError, Global};

/// The queue of a policy that has one. The one error is that an allocation failed.
pub fn one_queue(alloc: Global, segments: &Segments) -> Result<Vec<NamedQueue>, AllocError>
    ensures { IfOk result (λ queues. queues.items ≡ one_queue_of segments.now.lists) }
{
    let mut queues = Vec::new(alloc);
    push_segment(alloc, &mut queues, "queue", segments, Queue::Window)?;
    Ok(queues)
}

/// The queues of segmented LRU. The one error is that an allocation failed.
pub fn two_queues(alloc: Global, segments: &Segments) -> Result<Vec<NamedQueue>, AllocError>
    ensures { IfOk result (λ queues. queues.items ≡ two_queues_of segments.now.lists) }
{
    let mut queues = Vec::new(alloc);
    push_main(alloc, &mut queues, segments)?;
    Ok(queues)
}

/// Those of segmented LRU behind a window. The one error is that an allocation failed.
pub fn three_queues(alloc: Global, segments: &Segments) -> Result<Vec<NamedQueue>, AllocError>
    ensures { IfOk result (λ queues. queues.items ≡ three_queues_of segments.now.lists) }
{
    let mut queues = Vec::new(alloc);
    push_segment(alloc, &mut queues, "window", segments, Queue::Window)?;
    push_main(alloc, &mut queues, segments)?;
    Ok(queues)
}

// Appends the queues of segmented LRU.
fn push_main(
    alloc: Global,
    queues: &mut Vec<NamedQueue>,
    segments: &Segments,
) -> Result<(), AllocError>
    ensures { OnOk result (queues.new.items ≡ queues.old.items ++ two_queues_of segments.now.lists) }
{
    push_segment(alloc, queues, "probation", segments, Queue::Probation)?;
    push_segment(alloc, queues, "protected", segments, Queue::Protected)
}

// Appends a queue under its name.
fn push_segment(
    alloc: Global,
    queues: &mut Vec<NamedQueue>,
    name: &'static str,
    segments: &Segments,
    queue: Queue,
) -> Result<(), AllocError>
    ensures { OnOk result (queues.new.items
        ≡ queues.old.items ++ item_queue name.now (queue_of queue segments.now.lists) ∷ []) }
{
    let mut keys = Vec::new(alloc);
    push_items(&mut keys, &segments.list(alloc, queue)?)?;
    queues.push(NamedQueue::new(name, keys))?;
    Ok(())
}

// Appends the keys of items.
fn push_items(keys: &mut Vec<QueueKey>, items: &[Item]) -> Result<(), AllocError>
    ensures { OnOk result (keys.new.items ≡ keys.old.items ++ map plain_key (map (λ i. i.key) items.now)) }
{
    for item in items {
        keys.push(QueueKey {
            key: item.key,
            number: None,
        })?;
    }
    Ok(())
}
