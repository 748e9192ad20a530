//! A hit.
ghost use Rattle.std.specs.Prelude.{◌≡◌, ◌≤◌, ◌↔◌, Option, Some, None, IfSome, IfNone};
ghost use Rattle.segments.specs.Queues.{queue_holding, IsDistinct};
ghost use Rattle.replacement.specs.Table.{after_hit};
ghost use Rattle.replacement.specs.Plan.{demotion, settling};
ghost use Rattle.replacement.specs.PlanMoves.{queues_after_transfer, sent_by, UndoesMoves};
ghost use Rattle.replacement.specs.Effects.{IsHit};

use crate::queue_moves::send_oldest;
use crate::record::{Moves, Sent};
use engine_base::Item;
use segments::{Queue, Segments};

/// A hit on an item, where protected holds `size` items: an item of the window goes to the window's recent end, any
/// other to protected's, and where one that came from probation takes protected over its size, the oldest item there
/// goes to probation's recent end. The undo record; `None`, and nothing moved, where the item stands in no queue.
#[inline(always)]
pub fn hit(segments: &mut Segments, size: usize, item: Item) -> Option<Moves>
    ensures absent { result ≡ None ↔ queue_holding item segments.old.lists ≡ None }
    ensures lists { segments.new.lists ≡ after_hit size item segments.old.lists }
    ensures record { IfSome result (λ m. IsHit size item segments.old.lists segments.new.lists m) }
    ensures undoes { IfSome result (λ m. UndoesMoves segments.old.lists segments.new.lists m) }
    ensures spare { segments.old.spare ≤ segments.new.spare }
    // what holds of every Segments: no item stands twice
    ensures distinct { IsDistinct segments.old.lists }
{
    let (queue, renewed) = segments.refresh(item)?;
    let sent = settle(segments, size, queue);
    let (Some(from), Some(to)) = (renewed.from, renewed.to) else {
        unreachable!()
    };
    Some(Moves::Renewed { to, sent, from })
}

// What follows the move of an item that stood in the queue.
#[inline(always)]
fn settle(segments: &mut Segments, size: usize, queue: Queue) -> Option<Sent>
    ensures lists { segments.new.lists
        ≡ queues_after_transfer (settling size queue segments.old.lists) segments.old.lists }
    ensures sent { result ≡ sent_by (settling size queue segments.old.lists) }
    ensures spare { segments.old.spare ≤ segments.new.spare }
{
    match queue {
        Queue::Probation => demote(segments, size),
        Queue::Window | Queue::Protected => None,
    }
}

// Takes the oldest item of protected to probation where protected is over its size.
#[inline(always)]
fn demote(segments: &mut Segments, size: usize) -> Option<Sent>
    ensures lists { segments.new.lists ≡ queues_after_transfer (demotion size segments.old.lists) segments.old.lists }
    ensures sent { result ≡ sent_by (demotion size segments.old.lists) }
    ensures spare { segments.old.spare ≤ segments.new.spare }
{
    if segments.len(Queue::Protected) <= size {
        return None;
    }
    send_oldest(segments, Queue::Protected, Queue::Probation)
}
