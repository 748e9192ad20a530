//! Slots, index and lengths together: what holds of the three, and the calls that keep it.
ghost use Rattle.std.specs.Prelude.{◌≡◌, ◌≢◌, ◌<◌, ◌≤◌, ◌+◌, ◌*◌, ◌^◌, suc, [], Ok, Option, Some, None, OnOk, IfOk, IfSome, IfNone};
ghost use Rattle.std.specs.Prelude.{ℕ, ◌++◌, length, map};
ghost use Rattle.std.specs.List.{Contains};
ghost use Rattle.queue_table.specs.Entries.{Item, entry, items_of, oldest_of, newest_of, IsGap};
ghost use Rattle.queue_table.specs.Queues.{QUEUES, empty_queues, queue_holding, items_below, place_in, IsDistinct};
ghost use Rattle.queue_table.specs.Queues.{after_push, after_removal, after_send, after_count, after_return};
ghost use Rattle.queue_table.specs.Ring.{entries, lists_of, order_of, order_without, sent, IsPlace, IsQueued};
ghost use Rattle.queue_table.specs.QueueTable.{queues, spare, entry_at, CanLeave, IsUsed, IsCounted, IsBehind, IsSlotOf};
ghost use Rattle.queue_table.specs.QueueTable.{KeepsSlots, KeepsOthers};

use crate::growth::grow;
use crate::lengths::{Lengths, SECTIONS, section};
use crate::links::{
    items_in, newest_free, newest_slot, next_slot, oldest_slot, place_of_slot, release, send,
    slot_before, slot_behind,
};
use crate::records::{Entry, Found, Place};
use crate::slot::{
    RingItems, RingSlot, TableItem, entry_of, item_of, newer_than, push_widened, queue_of,
    set_count, set_item,
};
use crate::slot_index::SlotIndex;
use engine_base::{Item, Key};
use std::alloc::{AllocError, Global};
use std::marker::Model;

/// Queues by number, each item once, with a count beside it. A call that works on an item takes its slot, as `find`,
/// `oldest` and `newest` give it.
pub struct QueueTable<K: TableItem = Item> {
    slots: Vec<K::Slot>,
    index: SlotIndex,
    lengths: Lengths,
}

impl<K: TableItem> Drop for QueueTable<K> {
    fn drop(self) {
        let QueueTable {
            slots: _,
            index: _,
            lengths: _,
        } = self;
    }
}

impl<K: TableItem> Model for QueueTable<K> {
    ghost use Rattle.std.specs.Prelude.{List, map};
    ghost use Rattle.queue_table.specs.declared.slot.Slot.{Slot};
    ghost use Rattle.queue_table.specs.QueueTable.{IsKept};

    ghost Value = { List Slot };

    ghost view = { λ t. map K.Slot.shown t.slots.items };

    ghost invariant = { λ t. IsKept (map K.Slot.shown t.slots.items) t.index t.lengths };
}

// A first index of up to so many bits has four buckets for each item, so most hold one item at most. A larger one has
// two for each: past the processor's caches, its length costs more than a second slot in a tree.
const MAX_SPARSE_BITS: u32 = 18;

/// How many keys are read ahead at once.
pub const AHEAD: usize = 16;

// How many bits number the buckets of a first index for so many items.
fn bits_for(items: u32) -> u32
    ensures sparse { 1 ≤ items → 4 * items ≤ 2 ^ MAX_SPARSE_BITS → (4 * items ≤ 2 ^ result) × (2 ^ result < 8 * items) }
    ensures dense { 2 ^ MAX_SPARSE_BITS < 4 * items → (2 * items ≤ 2 ^ result) × (2 ^ result < 4 * items) }
{
    let bits = u32::wrapping_sub(33, items.wrapping_sub(1).leading_zeros());
    if bits < MAX_SPARSE_BITS {
        bits + 1
    } else {
        bits
    }
}

impl<K: TableItem> QueueTable<K> {
    /// Empty queues, with no room yet. Allocates nothing. The first `reserve` makes a hash index that is large enough
    /// for so many items.
    pub fn for_items(alloc: Global, items: u32) -> QueueTable<K>
        ensures queues { queues result ≡ empty_queues }
        ensures distinct { IsDistinct (queues result) }
    {
        QueueTable {
            slots: Vec::new(alloc),
            index: SlotIndex::unallocated(alloc, bits_for(items)),
            lengths: Lengths { at: [0; SECTIONS] },
        }
    }

    /// Reads ahead what searches for the next few keys from the one at `i` on, with node 0, read first: of a slot both the
    /// item and a link, since it may lie in two lines of the processor's cache. Unlike the reads of a search, these do not
    /// wait for one another. What it returns means nothing.
    #[inline(always)]
    pub fn read_ahead<N: TableItem>(&self, keys: &[N], i: usize) -> u64
        requires { i ≤ length keys.now }
    {
        let end = i + AHEAD.min(keys.len() - i);
        let mut read = 0;
        for key in &keys[i..end] {
            let at = self.index.first_slot(key.item());
            if (at as usize) < self.slots.len() {
                let slots: &[K::Slot] = &self.slots;
                read ^= item_of(slots, at).key ^ newer_than(slots, at) as u64;
            }
        }
        read
    }

    /// The same queues for items of any width. The one error is that an allocation failed.
    pub fn widened(self, alloc: Global) -> Result<QueueTable<Key>, AllocError>
        ensures { IfOk result (λ wide. wide ≡ self) }
    {
        let QueueTable {
            slots,
            index,
            lengths,
        } = self;
        let mut wide = Vec::new(alloc);
        push_widened(&mut wide, &slots)?;
        Ok(QueueTable {
            slots: wide,
            index,
            lengths,
        })
    }

    /// Makes room for at least one more item; where there is room, it allocates nothing and returns Ok. The one error
    /// is out of memory; queues and room are then as before.
    #[inline(always)]
    pub fn reserve(&mut self, alloc: Global) -> Result<(), AllocError>
        ensures queues { queues self.new ≡ queues self.old }
        ensures room { OnOk result (1 ≤ spare self.new) }
        ensures enough { 1 ≤ spare self.old → result ≡ Ok tt }
        ensures spare { spare self.old ≤ spare self.new }
    {
        if self.lengths.free() > 0 {
            return Ok(());
        }
        grow::<K>(alloc, &mut self.slots, &mut self.index)?;
        self.lengths.add_free();
        Ok(())
    }

    /// For how many more items there is room.
    #[inline(always)]
    pub fn spare(&self) -> usize
        ensures { result ≡ spare self.now }
    {
        self.lengths.free()
    }

    /// How many items stand in the queue.
    #[inline(always)]
    pub fn len(&self, queue: u8) -> usize
        requires { queue < QUEUES }
        ensures { result ≡ length (queues self.now queue) }
    {
        self.lengths.of(queue)
    }

    /// How many items stand in the queues.
    #[inline(always)]
    pub fn count(&self) -> usize
        ensures { result ≡ items_below QUEUES (queues self.now) }
    {
        self.lengths.items()
    }

    /// A copy of the queue's items, oldest first.
    pub fn list(&self, alloc: Global, queue: u8) -> Result<Vec<Item>, AllocError>
        requires { queue < QUEUES }
        ensures { IfOk result (λ v. v.items ≡ items_of (queues self.now queue)) }
    {
        items_in(&self.slots, alloc, queue, self.lengths.of(queue))
    }

    /// No item stands twice. Does nothing.
    #[inline(always)]
    pub fn distinct(&self)
        ensures { IsDistinct (queues self.now) }
    {
        let _ = &self.slots;
    }

    // The slot in use that holds the item.
    #[inline(always)]
    fn find_slot(&self, item: Item) -> Option<u32>
        ensures there { IfSome result (λ at. IsSlotOf at item self.now) }
        ensures missing { IfNone result (queue_holding item (queues self.now) ≡ None) }
        // Of every table: no item stands twice.
        ensures distinct { IsDistinct (queues self.now) }
    {
        if self.slots.is_empty() {
            return None;
        }
        match self.index.find(&RingItems { slots: &self.slots }, item) {
            0 => None,
            at => Some(at),
        }
    }

    /// The slot of the item, with its queue and its count.
    #[inline(always)]
    pub fn find(&self, item: Item) -> Option<Found>
        ensures used { IfSome result (λ f. IsUsed f.at self.now) }
        ensures entry { IfSome result (λ f. entry_at f.at self.now ≡ entry item f.count) }
        ensures low { IfSome result (λ f. f.queue < QUEUES) }
        ensures queue { IfSome result (λ f. queue_holding item (queues self.now) ≡ Some f.queue) }
        ensures stands { IfSome result (λ f. Contains (queues self.now f.queue) (entry item f.count)) }
        ensures missing { IfNone result (queue_holding item (queues self.now) ≡ None) }
        // Of every table: no item stands twice.
        ensures distinct { IsDistinct (queues self.now) }
    {
        let at = self.find_slot(item)?;
        let slots: &[K::Slot] = &self.slots;
        let entry = entry_of(slots, at);
        Some(Found {
            at,
            queue: queue_of(slots, at),
            count: entry.count,
        })
    }

    /// The slot of a queue's oldest entry, with the entry.
    #[inline(always)]
    pub fn oldest(&self, queue: u8) -> Option<(u32, Entry)>
        requires { queue < QUEUES }
        ensures used { IfSome result (λ r. IsUsed r.0 self.now) }
        ensures entry { IfSome result (λ r. entry_at r.0 self.now ≡ r.1) }
        ensures first { IfSome result (λ r. oldest_of (queues self.now queue) ≡ Some r.1) }
        ensures missing { IfNone result (queues self.now queue ≡ []) }
    {
        if self.lengths.of(queue) == 0 {
            return None;
        }
        let at = oldest_slot(&self.slots, queue);
        Some((at, entry_of(&self.slots, at)))
    }

    /// The slot of a queue's newest entry, with the entry.
    #[inline(always)]
    pub fn newest(&self, queue: u8) -> Option<(u32, Entry)>
        requires { queue < QUEUES }
        ensures used { IfSome result (λ r. IsUsed r.0 self.now) }
        ensures entry { IfSome result (λ r. entry_at r.0 self.now ≡ r.1) }
        ensures last { IfSome result (λ r. newest_of (queues self.now queue) ≡ Some r.1) }
        ensures missing { IfNone result (queues self.now queue ≡ []) }
    {
        if self.lengths.of(queue) == 0 {
            return None;
        }
        let at = newest_slot(&self.slots, queue);
        Some((at, entry_of(&self.slots, at)))
    }

    // The slot before a place: that of its older neighbour, or the one that stands before the queue.
    fn older_slot(&self, place: Place) -> u32
        requires queue { place.queue < QUEUES }
        requires some { 0 < length self.now }
        ensures within { result < length self.now }
        ensures none { place.older ≡ None → result ≡ suc place.queue }
        ensures older { (i : Item) → place.older ≡ Some i → queue_holding i (queues self.now) ≢ None
            → IsSlotOf result i self.now }
    {
        let _ = &self.slots;
        let Some(older) = place.older else {
            return slot_before(place.queue);
        };
        self.find_slot(older).unwrap_or(slot_before(place.queue))
    }

    // The slot after a place in its queue, `but` left out. Slot 0 stands in no queue.
    fn slot_at_place(&self, place: Place, but: u32) -> u32
        requires queue { place.queue < QUEUES }
        requires some { 0 < length self.now }
        ensures queued { IsQueued self.now (order_of self.now) }
        ensures behind { but ≢ suc (suc place.queue)
            → IsGap place.older (lists_of (order_without but (order_of self.now)) (entries self.now) place.queue)
            → IsBehind result place.queue place.older (entries self.now)
            (order_without but (order_of self.now) (suc place.queue)) }
    {
        next_slot(&self.slots, self.older_slot(place), but)
    }

    // Puts an item that is not there into a free slot, and the slot before another one of a queue.
    #[inline(always)]
    fn put(&mut self, item: K, count: u8, queue: u8, before: u32)
        requires queue { queue < QUEUES }
        requires room { 1 ≤ spare self.old }
        requires absent { queue_holding (K.item item) (queues self.old) ≡ None }
        requires place { IsPlace before (suc queue) (order_of self.old) }
        ensures distinct { IsDistinct (queues self.old) }
        ensures spare { spare self.new + 1 ≡ spare self.old }
        ensures recent { before ≡ suc (suc queue) → queues self.new
            ≡ after_push queue (entry (K.item item) count) (queues self.old) }
        ensures back { (older : Option Item)
            → IsBehind before queue older (entries self.old) (order_of self.old (suc queue))
            → queues self.new ≡ after_return queue older (entry (K.item item) count) (queues self.old) }
        ensures others { KeepsSlots self.old self.new }
    {
        let slots: &mut [K::Slot] = &mut self.slots;
        let at = newest_free(slots);
        self.index.insert(at, item.item());
        send(slots, at, count, queue, before);
        set_item(slots, at as usize, item);
        self.lengths.pass(0, section(queue));
    }

    // Moves a slot in use to the place before another one of a queue, with another count, and says where it stood.
    #[inline(always)]
    fn shift(&mut self, at: u32, queue: u8, before: u32, count: u8) -> Place
        requires queue { queue < QUEUES }
        requires used { IsUsed at self.old }
        requires place { IsPlace before (suc queue) (order_without at (order_of self.old)) }
        ensures low { result.queue < QUEUES }
        ensures spare { spare self.new ≡ spare self.old }
        ensures place { Some result ≡ place_in (entry_at at self.old).item (queues self.old) }
        ensures recent { before ≡ suc (suc queue)
            → queues self.new ≡ after_send (entry (entry_at at self.old).item count) queue (queues self.old) }
        ensures back { (older : Option Item)
            → IsBehind before queue older (entries self.old) (order_without at (order_of self.old) (suc queue))
            → queues self.new ≡ after_return queue older (entry (entry_at at self.old).item count)
            (after_removal (entry_at at self.old).item (queues self.old)) }
        ensures others { KeepsOthers (entry_at at self.old).item self.old self.new }
    {
        let slots: &mut [K::Slot] = &mut self.slots;
        let from = leave(slots, &mut self.lengths, at, section(queue));
        send(slots, at, count, queue, before);
        from
    }

    /// Puts an item that stands in no queue at the recent end of one, with a count. It requires room, and takes room for one.
    #[inline(always)]
    pub fn push(&mut self, queue: u8, item: K, count: u8)
        requires queue { queue < QUEUES }
        requires room { 1 ≤ spare self.old }
        requires absent { queue_holding (K.item item) (queues self.old) ≡ None }
        ensures queues { queues self.new ≡ after_push queue (entry (K.item item) count) (queues self.old) }
        ensures spare { spare self.new + 1 ≡ spare self.old }
        ensures others { KeepsSlots self.old self.new }
        // Of every table: no item stands twice.
        ensures distinct { IsDistinct (queues self.old) }
    {
        self.put(item, count, queue, slot_behind(queue));
    }

    /// Puts an item that stands in no queue into a place, with a count. It requires room, and takes room for one.
    pub fn insert(&mut self, place: Place, item: K, count: u8)
        requires queue { place.queue < QUEUES }
        requires room { 1 ≤ spare self.old }
        requires absent { queue_holding (K.item item) (queues self.old) ≡ None }
        requires gap { IsGap place.older (queues self.old place.queue) }
        ensures queues { queues self.new ≡ after_return place.queue place.older (entry (K.item item) count) (queues self.old) }
        ensures spare { spare self.new + 1 ≡ spare self.old }
        ensures others { KeepsSlots self.old self.new }
        // Of every table: no item stands twice.
        ensures distinct { IsDistinct (queues self.old) }
    {
        let before = self.slot_at_place(place, 0);
        self.put(item, count, place.queue, before);
    }

    /// Takes the item of a slot to the recent end of a queue, with another count, and says where it stood.
    #[inline(always)]
    pub fn send(&mut self, at: u32, queue: u8, count: u8) -> Place
        requires queue { queue < QUEUES }
        requires used { IsUsed at self.old }
        ensures queues { queues self.new ≡ after_send (entry (entry_at at self.old).item count) queue (queues self.old) }
        ensures low { result.queue < QUEUES }
        ensures place { Some result ≡ place_in (entry_at at self.old).item (queues self.old) }
        ensures spare { spare self.new ≡ spare self.old }
        ensures others { KeepsOthers (entry_at at self.old).item self.old self.new }
    {
        self.shift(at, queue, slot_behind(queue), count)
    }

    /// Takes the item of a slot into a place, with another count.
    pub fn send_to(&mut self, at: u32, place: Place, count: u8)
        requires queue { place.queue < QUEUES }
        requires used { IsUsed at self.old }
        requires gap { IsGap place.older (after_removal (entry_at at self.old).item (queues self.old) place.queue) }
        ensures queues { queues self.new ≡ after_return place.queue place.older (entry (entry_at at self.old).item count)
            (after_removal (entry_at at self.old).item (queues self.old)) }
        ensures spare { spare self.new ≡ spare self.old }
        ensures others { KeepsOthers (entry_at at self.old).item self.old self.new }
    {
        let before = self.slot_at_place(place, at);
        let _ = self.shift(at, place.queue, before, count);
    }

    /// Takes an item back to a place, with a count, from the queue in which it stands, or from nowhere. It requires room,
    /// and takes room for one, where the item stands nowhere.
    pub fn put_back(&mut self, place: Place, item: K, count: u8)
        requires queue { place.queue < QUEUES }
        requires room { queue_holding (K.item item) (queues self.old) ≡ None → 1 ≤ spare self.old }
        requires gap { IsGap place.older (after_removal (K.item item) (queues self.old) place.queue) }
        ensures queues { queues self.new ≡ after_return place.queue place.older (entry (K.item item) count)
            (after_removal (K.item item) (queues self.old)) }
        ensures spare { spare self.old ≤ spare self.new + 1 }
        ensures stood { queue_holding (K.item item) (queues self.old) ≢ None → spare self.old ≤ spare self.new }
        ensures others { KeepsOthers (K.item item) self.old self.new }
    {
        match self.find(item.item()) {
            Some(found) => self.send_to(found.at, place, count),
            None => self.insert(place, item, count),
        }
    }

    /// Gives a slot an item that stands in no queue, with a count, and takes it to the recent end of a queue. Says where
    /// the item stood that it had. Takes no room.
    #[inline(always)]
    pub fn renew(&mut self, at: u32, queue: u8, item: K, count: u8) -> Place
        requires queue { queue < QUEUES }
        requires used { IsUsed at self.old }
        requires absent { queue_holding (K.item item) (queues self.old) ≡ None }
        ensures queues { queues self.new ≡ after_push queue (entry (K.item item) count)
            (after_removal (entry_at at self.old).item (queues self.old)) }
        ensures low { result.queue < QUEUES }
        ensures place { Some result ≡ place_in (entry_at at self.old).item (queues self.old) }
        ensures spare { spare self.new ≡ spare self.old }
        ensures others { KeepsOthers (entry_at at self.old).item self.old self.new }
    {
        let slots: &mut [K::Slot] = &mut self.slots;
        let from = leave(slots, &mut self.lengths, at, section(queue));
        let old = item_of(slots, at);
        self.index.remove(at, old);
        self.index.insert(at, item.item());
        send(slots, at, count, queue, slot_behind(queue));
        set_item(slots, at as usize, item);
        from
    }

    /// Takes the item of a slot out, and says where it stood.
    #[inline(always)]
    pub fn remove(&mut self, at: u32) -> Place
        requires used { IsUsed at self.old }
        ensures queues { queues self.new ≡ after_removal (entry_at at self.old).item (queues self.old) }
        ensures low { result.queue < QUEUES }
        ensures place { Some result ≡ place_in (entry_at at self.old).item (queues self.old) }
        ensures spare { spare self.new ≡ spare self.old + 1 }
        ensures others { KeepsOthers (entry_at at self.old).item self.old self.new }
    {
        let slots: &mut [K::Slot] = &mut self.slots;
        let from = leave(slots, &mut self.lengths, at, 0);
        let old = item_of(slots, at);
        self.index.remove(at, old);
        release(slots, at);
        from
    }

    /// Writes another count beside the item of a slot.
    #[inline(always)]
    pub fn set_count(&mut self, at: u32, count: u8)
        requires used { IsUsed at self.old }
        ensures queues { queues self.new ≡ after_count (entry_at at self.old).item count (queues self.old) }
        ensures spare { spare self.new ≡ spare self.old }
        ensures others { KeepsOthers (entry_at at self.old).item self.old self.new }
    {
        let slots: &mut [K::Slot] = &mut self.slots;
        set_count(slots, at as usize, count);
    }
}

/// Appends the keys of the items. The one error is that an allocation failed; some keys may be appended then.
pub fn push_keys(keys: &mut Vec<Key>, items: &[Item]) -> Result<(), AllocError>
    ensures { OnOk result (keys.new.items ≡ keys.old.items ++ map (λ i. i.key) items.now) }
{
    for item in items {
        keys.push(item.key)?;
    }
    Ok(())
}

// Counts a slot in use out of its queue and into a section, and says where it stood.
#[inline(always)]
fn leave<S: RingSlot>(slots: &[S], lengths: &mut Lengths, at: u32, to: usize) -> Place
    requires slot { CanLeave at (map S.shown slots.now) lengths.old }
    requires to { to ≤ QUEUES }
    ensures low { result.queue < QUEUES }
    ensures place { Some result ≡ place_in (entry_at at (map S.shown slots.now)).item (queues (map S.shown slots.now)) }
    ensures counted { (s b : ℕ) → to ≡ s → IsCounted lengths.new (sent at s b (order_of (map S.shown slots.now))) }
{
    let from = place_of_slot(slots, at);
    lengths.pass(section(from.queue), to);
    from
}
