//! Single moves in the queues, as a plan names them.
ghost use Rattle.std.specs.Prelude.{◌≡◌, ◌≤◌, ◌+◌, Some, None, IsSome};
ghost use Rattle.segments.specs.Items.{oldest_of};
ghost use Rattle.segments.specs.Queues.{queue_of, queue_holding, queues_after_move, queues_after_pop, IsDistinct};
ghost use Rattle.replacement.specs.Plan.{transfer, leaver};
ghost use Rattle.replacement.specs.PlanMoves.{queues_after_transfer, queues_after_leaving, sent_by};

use crate::record::{Leaver, Sent};
use engine_base::Item;
use segments::{Queue, Segments};

/// Puts an item that stands in no queue at the recent end of one.
#[inline(always)]
pub(crate) fn join(segments: &mut Segments, queue: Queue, item: Item)
    requires room { 1 ≤ segments.old.spare }
    requires absent { queue_holding item segments.old.lists ≡ None }
    requires distinct { IsDistinct segments.old.lists }
    ensures lists { segments.new.lists ≡ queues_after_move item queue segments.old.lists }
    ensures distinct { IsDistinct segments.new.lists }
    ensures spare { segments.old.spare ≤ segments.new.spare + 1 }
{
    let _ = segments.push_recent(queue, item);
}

/// Takes out the oldest item of a queue; `None` where it is empty.
#[inline(always)]
pub(crate) fn drop_oldest(segments: &mut Segments, queue: Queue) -> Option<Leaver>
    requires { IsDistinct segments.old.lists }
    ensures lists { segments.new.lists ≡ queues_after_leaving
        (leaver queue (oldest_of (queue_of queue segments.old.lists))) segments.old.lists }
    ensures rest { segments.new.lists ≡ queues_after_pop queue segments.old.lists }
    ensures left { result ≡ leaver queue (oldest_of (queue_of queue segments.old.lists)) }
    ensures distinct { IsDistinct segments.new.lists }
{
    let (item, _) = segments.pop_oldest(queue)?;
    Some(Leaver { item, from: queue })
}

/// Puts an item that stands in no queue at the recent end of a queue that is not empty, whose oldest item leaves.
#[inline(always)]
pub(crate) fn renew_oldest(segments: &mut Segments, queue: Queue, item: Item)
    requires oldest { IsSome (oldest_of (queue_of queue segments.old.lists)) }
    requires absent { queue_holding item segments.old.lists ≡ None }
    requires distinct { IsDistinct segments.old.lists }
    ensures lists { segments.new.lists ≡ queues_after_leaving
        (leaver queue (oldest_of (queue_of queue segments.old.lists))) (queues_after_move item queue segments.old.lists) }
    ensures spare { segments.old.spare ≤ segments.new.spare }
{
    match segments.renew_oldest(queue, item) {
        Some(_) => {}
        None => unreachable!(),
    }
}

/// Takes the oldest item of a queue to the recent end of another; `None` where it is empty.
#[inline(always)]
pub(crate) fn send_oldest(segments: &mut Segments, from: Queue, to: Queue) -> Option<Sent>
    ensures lists { segments.new.lists
        ≡ queues_after_transfer (transfer from to (oldest_of (queue_of from segments.old.lists)))
        segments.old.lists }
    ensures sent { result ≡ sent_by (transfer from to (oldest_of (queue_of from segments.old.lists))) }
    ensures spare { segments.old.spare ≤ segments.new.spare }
{
    segments.send_oldest(from, to)?;
    Some(Sent { from, to })
}
