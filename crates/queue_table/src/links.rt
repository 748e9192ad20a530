//! All slots stand in one ring, linked both ways, so that no move has a case for an end. Slots 0 to 5 hold no item:
//! slot s stands before section s, and slot s + 1 after it. Section 0 has the free slots, section q + 1 those of queue
//! q, oldest first. Here A and B stand in queue 0, C in queue 1 and D in queue 3:
//!
//! ```text
//!          free slots   queue 0          queue 1    queue 2  queue 3
//! +-> [0] - 8 - 11 - [1] - 6:A - 9:B - [2] - 7:C - [3] - [4] - 10:D - [5] -+
//! +------------------------------------------------------------------------+
//!
//! index: bucket of A's hash -> slot 9:B        a tree of the slots whose items share the bucket:
//!                              /       \        a bit of key and node a level says left or right
//!                          6:A           10:D
//! ```
ghost use Rattle.std.specs.Prelude.{◌≡◌, ◌≢◌, ◌<◌, ◌≤◌, suc, Some, IfOk, map, length, slice_index, slice_set};
ghost use Rattle.queue_table.specs.Entries.{entry};
ghost use Rattle.queue_table.specs.Items.{oldest_of, newest_of};
ghost use Rattle.queue_table.specs.Queues.{QUEUES, place_in};
ghost use Rattle.queue_table.specs.Ring.{slot_item, count, walk, IsRing, ring_of, moved_before, ring, used};
ghost use Rattle.queue_table.specs.Ring.{order_of, lists, item_or, entries, olders, newers, next_but};
ghost use Rattle.queue_table.specs.Ring.{IsQueued, HasItems, CanGo, IsSent, IsFreed, ChangesOnlyLinks};

use crate::records::Place;
use crate::slot::{
    RingSlot, item_of, newer_than, older_than, queue_of, set_count, set_newer, set_older, set_queue,
};
use engine_base::Item;
use std::alloc::{AllocError, Global};

/// The first slot that holds an item.
pub(crate) const FIRST_SLOT: u32 = 6;

/// Takes the slot out from between its neighbours.
#[inline(always)]
fn unlink<S: RingSlot>(slots: &mut [S], at: u32)
    requires at { at < length (map S.shown slots.old) }
    requires older { slice_index (olders (map S.shown slots.old)) at < length (map S.shown slots.old) }
    requires newer { slice_index (newers (map S.shown slots.old)) at < length (map S.shown slots.old) }
    ensures newers { newers (map S.shown slots.new) ≡ slice_set (newers (map S.shown slots.old)) (slice_index (olders (map S.shown slots.old)) at)
        (slice_index (newers (map S.shown slots.old)) at) }
    ensures olders { olders (map S.shown slots.new) ≡ slice_set (olders (map S.shown slots.old)) (slice_index (newers (map S.shown slots.old)) at)
        (slice_index (olders (map S.shown slots.old)) at) }
    ensures only { ChangesOnlyLinks (map S.shown slots.old) (map S.shown slots.new) }
{
    let older = older_than(slots, at);
    let newer = newer_than(slots, at);
    set_newer(slots, older as usize, newer);
    set_older(slots, newer as usize, older);
}

/// Puts the slot between `before` and its older neighbour.
#[inline(always)]
pub(crate) fn link<S: RingSlot>(slots: &mut [S], at: u32, before: u32)
    requires at { at < length (map S.shown slots.old) }
    requires before { before < length (map S.shown slots.old) }
    requires older { slice_index (olders (map S.shown slots.old)) before < length (map S.shown slots.old) }
    ensures newers { newers (map S.shown slots.new) ≡ slice_set (slice_set (newers (map S.shown slots.old))
        (slice_index (olders (map S.shown slots.old)) before) at) at before }
    ensures olders { olders (map S.shown slots.new) ≡ slice_set (slice_set (olders (map S.shown slots.old)) at
        (slice_index (olders (map S.shown slots.old)) before)) before at }
    ensures only { ChangesOnlyLinks (map S.shown slots.old) (map S.shown slots.new) }
{
    let older = older_than(slots, before);
    set_newer(slots, older as usize, at);
    set_newer(slots, at as usize, before);
    set_older(slots, at as usize, older);
    set_older(slots, before as usize, at);
}

/// Moves the slot to the place before another one.
#[inline(always)]
fn move_before<S: RingSlot>(slots: &mut [S], at: u32, before: u32)
    requires ring { IsRing (newers (map S.shown slots.old)) (olders (map S.shown slots.old)) (ring_of (newers (map S.shown slots.old))) }
    requires at { (1 ≤ at) × (at < length (map S.shown slots.old)) }
    requires before { before < length (map S.shown slots.old) }
    requires apart { before ≢ at }
    ensures ring { IsRing (newers (map S.shown slots.new)) (olders (map S.shown slots.new)) (ring_of (newers (map S.shown slots.new))) }
    ensures order { ring_of (newers (map S.shown slots.new)) ≡ moved_before at before (ring_of (newers (map S.shown slots.old))) }
    ensures only { ChangesOnlyLinks (map S.shown slots.old) (map S.shown slots.new) }
{
    unlink(slots, at);
    link(slots, at, before);
}

/// The slot that stands before the queue.
#[inline(always)]
pub(crate) fn slot_before(queue: u8) -> u32
    requires { queue < QUEUES }
    ensures { result ≡ suc queue }
{
    queue as u32 + 1
}

/// The slot that stands after the queue.
#[inline(always)]
pub(crate) fn slot_behind(queue: u8) -> u32
    requires { queue < QUEUES }
    ensures { result ≡ suc (suc queue) }
{
    queue as u32 + 2
}

/// The free slot that was freed last.
#[inline(always)]
pub(crate) fn newest_free<S: RingSlot>(slots: &[S]) -> u32
    requires queued { IsQueued (map S.shown slots.now) (order_of (map S.shown slots.now)) }
    requires room { 1 ≤ length (order_of (map S.shown slots.now) 0) }
    ensures { 1 ≤ count result (order_of (map S.shown slots.now) 0) }
{
    older_than(slots, 1)
}

/// The first slot of a queue that is not empty.
#[inline(always)]
pub(crate) fn oldest_slot<S: RingSlot>(slots: &[S], queue: u8) -> u32
    requires { HasItems queue (map S.shown slots.now) }
    ensures { oldest_of (order_of (map S.shown slots.now) (suc queue)) ≡ Some result }
{
    newer_than(slots, slot_before(queue))
}

/// The last slot of a queue that is not empty.
#[inline(always)]
pub(crate) fn newest_slot<S: RingSlot>(slots: &[S], queue: u8) -> u32
    requires { HasItems queue (map S.shown slots.now) }
    ensures { newest_of (order_of (map S.shown slots.now) (suc queue)) ≡ Some result }
{
    older_than(slots, slot_behind(queue))
}

/// The slot after another one, `but` left out.
#[inline(always)]
pub(crate) fn next_slot<S: RingSlot>(slots: &[S], at: u32, but: u32) -> u32
    requires ring { IsRing (newers (map S.shown slots.now)) (olders (map S.shown slots.now)) (ring (order_of (map S.shown slots.now))) }
    requires at { at < length (map S.shown slots.now) }
    ensures { result ≡ next_but (newers (map S.shown slots.now)) at but }
{
    let newer = newer_than(slots, at);
    if newer == but {
        return newer_than(slots, newer);
    }
    newer
}

/// The items of so many slots from the one that stands before the queue on.
pub(crate) fn items_in<S: RingSlot>(
    slots: &[S],
    alloc: Global,
    queue: u8,
    len: usize,
) -> Result<Vec<Item>, AllocError>
    requires queue { queue < QUEUES }
    requires ring { 1 ≤ len → IsRing (newers (map S.shown slots.now)) (olders (map S.shown slots.now)) (ring (order_of (map S.shown slots.now))) }
    ensures { IfOk result (λ v. v.items ≡ map (λ k. slot_item (entries (map S.shown slots.now)) k)
        (walk (newers (map S.shown slots.now)) (suc queue) len)) }
{
    let mut list = Vec::with_capacity(alloc, len)?;
    let mut at = slot_before(queue);
    for step in 0..len {
        at = newer_than(slots, at);
        list.push(item_of(slots, at))?;
    }
    Ok(list)
}

/// The item of a slot, `None` at those that stand between the sections.
#[inline(always)]
fn held_item<S: RingSlot>(slots: &[S], at: u32) -> Option<Item>
    requires { at < length (map S.shown slots.now) }
    ensures { result ≡ item_or (entries (map S.shown slots.now)) at }
{
    if at < FIRST_SLOT {
        return None;
    }
    Some(item_of(slots, at))
}

/// Gives the slot another count, and moves it to the place before another one in a queue.
#[inline(always)]
pub(crate) fn send<S: RingSlot>(slots: &mut [S], at: u32, count: u8, queue: u8, before: u32)
    requires queue { queue < QUEUES }
    requires place { CanGo at (suc queue) before (map S.shown slots.old) }
    ensures { IsSent at queue before (entry (slot_item (entries (map S.shown slots.old)) at) count)
        (map S.shown slots.old) (map S.shown slots.new) }
{
    set_count(slots, at as usize, count);
    move_before(slots, at, before);
    set_queue(slots, at as usize, queue);
}

/// Moves the slot to the free ones.
#[inline(always)]
pub(crate) fn release<S: RingSlot>(slots: &mut [S], at: u32)
    requires { CanGo at 0 1 (map S.shown slots.old) }
    ensures { IsFreed at (map S.shown slots.old) (map S.shown slots.new) }
{
    move_before(slots, at, 1);
}

/// Where the item of a slot in use stands, by the item right before it.
#[inline(always)]
pub(crate) fn place_of_slot<S: RingSlot>(slots: &[S], at: u32) -> Place
    requires queued { IsQueued (map S.shown slots.now) (order_of (map S.shown slots.now)) }
    requires used { 1 ≤ count at (used (order_of (map S.shown slots.now))) }
    ensures place { Some result ≡ place_in (slot_item (entries (map S.shown slots.now)) at) (lists (map S.shown slots.now)) }
    ensures low { result.queue < QUEUES }
    ensures queue { 1 ≤ count at (order_of (map S.shown slots.now) (suc result.queue)) }
{
    let older = older_than(slots, at);
    Place {
        queue: queue_of(slots, at),
        older: held_item(slots, older),
    }
}
