//! What a slot keeps, and how it is read and written.
ghost use Rattle.std.specs.Prelude.{◌≡◌, ◌<◌, ◌++◌, length, map, slice_index, slice_set, OnOk};
ghost use Rattle.queue_table.specs.Entries.{Item, entry};
ghost use Rattle.queue_table.specs.Ring.{Slot, entries, olders, newers, tags, slot_entry, slot_item, tag_at, bare_slot, ChangesOnlyLinks, ChangesOnlyEntry};

use crate::records::Entry;
use crate::slot_index::SlotItems;
use engine_base::{Item, Key};
use std::alloc::AllocError;

/// A place for one item, with its neighbours in the ring of all slots.
#[derive(Clone, Copy)]
pub struct Slot {
    pub(crate) item: Item,
    pub(crate) older: u32,
    pub(crate) newer: u32,
    /// The queue of a slot in use.
    pub(crate) queue: u8,
    /// The count beside the item.
    pub(crate) count: u8,
}

/// The same for an item that is a number, in half the bytes.
#[derive(Clone, Copy)]
pub struct NumberSlot {
    number: u32,
    older: u32,
    newer: u32,
    queue: u8,
    count: u8,
}

/// A key below 2^32, as most are, which takes the slot of a number.
#[derive(Clone, Copy)]
pub struct NarrowKey {
    /// The key.
    pub key: u32,
}

/// What a ring is made of: a slot, however it is kept.
pub trait RingSlot: Copy {
    // the slot that definitions see
    ghost shown: { Self → Slot };

    /// A slot that holds no item.
    fn bare(older: u32, newer: u32) -> Self
        ensures { shown result ≡ bare_slot older newer };

    /// The item.
    fn item(&self) -> Item
        ensures { result ≡ (shown self.now).item };

    /// The older neighbour.
    fn older(&self) -> u32
        ensures { result ≡ (shown self.now).older };

    /// The newer neighbour.
    fn newer(&self) -> u32
        ensures { result ≡ (shown self.now).newer };

    /// The queue.
    fn queue(&self) -> u8
        ensures { result ≡ (shown self.now).queue };

    /// The count.
    fn count(&self) -> u8
        ensures { result ≡ (shown self.now).count };

    /// Writes the older neighbour.
    fn set_older(&mut self, to: u32)
        ensures { shown self.new ≡ record (shown self.old) { older = to } };

    /// Writes the newer neighbour.
    fn set_newer(&mut self, to: u32)
        ensures { shown self.new ≡ record (shown self.old) { newer = to } };

    /// Writes the queue.
    fn set_queue(&mut self, to: u8)
        ensures { shown self.new ≡ record (shown self.old) { queue = to } };

    /// Writes the count.
    fn set_count(&mut self, to: u8)
        ensures { shown self.new ≡ record (shown self.old) { count = to } };
}

/// What stands in the queues of a table: an item, or a key or a number, which is the item with node 0.
pub trait TableItem: Copy {
    // the item that definitions see
    ghost item: { Self → Item };

    /// A slot that can hold it.
    type Slot: RingSlot;

    /// What an item is multiplied with for its bucket, of 2^bits. Any number will do.
    fn multiplier(bits: u32) -> u64;

    /// The item.
    fn item(self) -> Item
        ensures { result ≡ item self };

    /// Writes it into a slot.
    fn put_in(self, slot: &mut Self::Slot)
        ensures { Self.Slot.shown slot.new ≡ record (Self.Slot.shown slot.old) { item = item self } };
}

// 2^64 over the golden ratio, to the nearest odd number (Knuth's multiplicative hashing).
const MULTIPLIER: u64 = 11400714819323198485;

impl RingSlot for Slot {
    ghost shown = { λ s. s };

    #[inline(always)]
    fn bare(older: u32, newer: u32) -> Slot {
        Slot {
            item: Item { key: 0, node: 0 },
            older,
            newer,
            queue: 0,
            count: 0,
        }
    }

    #[inline(always)]
    fn item(&self) -> Item {
        self.item
    }

    #[inline(always)]
    fn older(&self) -> u32 {
        self.older
    }

    #[inline(always)]
    fn newer(&self) -> u32 {
        self.newer
    }

    #[inline(always)]
    fn queue(&self) -> u8 {
        self.queue
    }

    #[inline(always)]
    fn count(&self) -> u8 {
        self.count
    }

    #[inline(always)]
    fn set_older(&mut self, to: u32) {
        self.older = to;
    }

    #[inline(always)]
    fn set_newer(&mut self, to: u32) {
        self.newer = to;
    }

    #[inline(always)]
    fn set_queue(&mut self, to: u8) {
        self.queue = to;
    }

    #[inline(always)]
    fn set_count(&mut self, to: u8) {
        self.count = to;
    }
}

impl RingSlot for NumberSlot {
    ghost shown = { λ s. record { item = record { key = s.number; node = 0 }; older = s.older; newer = s.newer; queue = s.queue; count = s.count } };

    #[inline(always)]
    fn bare(older: u32, newer: u32) -> NumberSlot {
        NumberSlot {
            number: 0,
            older,
            newer,
            queue: 0,
            count: 0,
        }
    }

    #[inline(always)]
    fn item(&self) -> Item {
        self.number.item()
    }

    #[inline(always)]
    fn older(&self) -> u32 {
        self.older
    }

    #[inline(always)]
    fn newer(&self) -> u32 {
        self.newer
    }

    #[inline(always)]
    fn queue(&self) -> u8 {
        self.queue
    }

    #[inline(always)]
    fn count(&self) -> u8 {
        self.count
    }

    #[inline(always)]
    fn set_older(&mut self, to: u32) {
        self.older = to;
    }

    #[inline(always)]
    fn set_newer(&mut self, to: u32) {
        self.newer = to;
    }

    #[inline(always)]
    fn set_queue(&mut self, to: u8) {
        self.queue = to;
    }

    #[inline(always)]
    fn set_count(&mut self, to: u8) {
        self.count = to;
    }
}

impl TableItem for Item {
    ghost item = { λ i. i };

    type Slot = Slot;

    #[inline(always)]
    fn multiplier(_bits: u32) -> u64 {
        MULTIPLIER
    }

    #[inline(always)]
    fn item(self) -> Item {
        self
    }

    #[inline(always)]
    fn put_in(self, slot: &mut Slot) {
        slot.item = self;
    }
}

impl TableItem for Key {
    ghost item = { λ k. record { key = k; node = 0 } };

    type Slot = Slot;

    #[inline(always)]
    fn multiplier(_bits: u32) -> u64 {
        MULTIPLIER
    }

    #[inline(always)]
    fn item(self) -> Item {
        Item { key: self, node: 0 }
    }

    #[inline(always)]
    fn put_in(self, slot: &mut Slot) {
        slot.item = self.item();
    }
}

// Numbers in turn have buckets in turn: keys that come one after the other stand side by side.
impl TableItem for u32 {
    ghost item = { λ n. record { key = n; node = 0 } };

    type Slot = NumberSlot;

    #[inline(always)]
    fn multiplier(bits: u32) -> u64 {
        1 << (64u32.wrapping_sub(bits) % 64)
    }

    #[inline(always)]
    fn item(self) -> Item {
        Item {
            key: self as u64,
            node: 0,
        }
    }

    #[inline(always)]
    fn put_in(self, slot: &mut NumberSlot) {
        slot.number = self;
    }
}

impl TableItem for NarrowKey {
    ghost item = { λ k. record { key = k.key; node = 0 } };

    type Slot = NumberSlot;

    #[inline(always)]
    fn multiplier(_bits: u32) -> u64 {
        MULTIPLIER
    }

    #[inline(always)]
    fn item(self) -> Item {
        self.key.item()
    }

    #[inline(always)]
    fn put_in(self, slot: &mut NumberSlot) {
        slot.number = self.key;
    }
}

/// The items of the slots, as a search of the index reads them.
#[derive(Clone, Copy)]
pub(crate) struct RingItems<'a, S: RingSlot> {
    pub(crate) slots: &'a [S],
}

impl<S: RingSlot> SlotItems for RingItems<'_, S> {
    ghost len = { λ r. length (map S.shown r.slots.now) };

    ghost item_at = { λ r. slot_item (entries (map S.shown r.slots.now)) };

    #[inline(always)]
    fn item(&self, at: u32) -> Item {
        item_of(self.slots, at)
    }
}

/// The item of a slot.
#[inline(always)]
pub(crate) fn item_of<S: RingSlot>(slots: &[S], at: u32) -> Item
    requires { at < length (map S.shown slots.now) }
    ensures { slot_item (entries (map S.shown slots.now)) at ≡ result }
{
    slots[at as usize].item()
}

/// The entry of a slot.
#[inline(always)]
pub(crate) fn entry_of<S: RingSlot>(slots: &[S], at: u32) -> Entry
    requires { at < length (map S.shown slots.now) }
    ensures { slot_entry (entries (map S.shown slots.now)) at ≡ result }
{
    let slot = &slots[at as usize];
    Entry {
        item: slot.item(),
        count: slot.count(),
    }
}

/// The queue of a slot in use.
#[inline(always)]
pub(crate) fn queue_of<S: RingSlot>(slots: &[S], at: u32) -> u8
    requires { at < length (map S.shown slots.now) }
    ensures { tag_at (tags (map S.shown slots.now)) at ≡ result }
{
    slots[at as usize].queue()
}

/// The older neighbour of a slot.
#[inline(always)]
pub(crate) fn older_than<S: RingSlot>(slots: &[S], at: u32) -> u32
    requires { at < length (map S.shown slots.now) }
    ensures { slice_index (olders (map S.shown slots.now)) at ≡ result }
{
    slots[at as usize].older()
}

/// The newer neighbour of a slot.
#[inline(always)]
pub(crate) fn newer_than<S: RingSlot>(slots: &[S], at: u32) -> u32
    requires { at < length (map S.shown slots.now) }
    ensures { slice_index (newers (map S.shown slots.now)) at ≡ result }
{
    slots[at as usize].newer()
}

#[inline(always)]
pub(crate) fn set_newer<S: RingSlot>(slots: &mut [S], at: usize, to: u32)
    requires { at < length (map S.shown slots.old) }
    ensures newers { newers (map S.shown slots.new) ≡ slice_set (newers (map S.shown slots.old)) at to }
    ensures olders { olders (map S.shown slots.new) ≡ olders (map S.shown slots.old) }
    ensures only { ChangesOnlyLinks (map S.shown slots.old) (map S.shown slots.new) }
{
    let slot = &mut slots[at];
    slot.set_newer(to);
}

#[inline(always)]
pub(crate) fn set_older<S: RingSlot>(slots: &mut [S], at: usize, to: u32)
    requires { at < length (map S.shown slots.old) }
    ensures newers { newers (map S.shown slots.new) ≡ newers (map S.shown slots.old) }
    ensures olders { olders (map S.shown slots.new) ≡ slice_set (olders (map S.shown slots.old)) at to }
    ensures only { ChangesOnlyLinks (map S.shown slots.old) (map S.shown slots.new) }
{
    let slot = &mut slots[at];
    slot.set_older(to);
}

#[inline(always)]
pub(crate) fn set_queue<S: RingSlot>(slots: &mut [S], at: usize, to: u8)
    requires { at < length (map S.shown slots.old) }
    ensures newers { newers (map S.shown slots.new) ≡ newers (map S.shown slots.old) }
    ensures olders { olders (map S.shown slots.new) ≡ olders (map S.shown slots.old) }
    ensures entries { entries (map S.shown slots.new) ≡ entries (map S.shown slots.old) }
    ensures tags { tags (map S.shown slots.new) ≡ slice_set (tags (map S.shown slots.old)) at to }
{
    let slot = &mut slots[at];
    slot.set_queue(to);
}

/// Writes another count beside the item.
#[inline(always)]
pub(crate) fn set_count<S: RingSlot>(slots: &mut [S], at: usize, to: u8)
    requires { at < length (map S.shown slots.old) }
    ensures { ChangesOnlyEntry at (entry (slot_item (entries (map S.shown slots.old)) at) to) (map S.shown slots.old)
        (map S.shown slots.new) }
{
    let slot = &mut slots[at];
    slot.set_count(to);
}

/// Writes another item beside the count.
#[inline(always)]
pub(crate) fn set_item<K: TableItem>(slots: &mut [K::Slot], at: usize, to: K)
    requires { at < length (map K.Slot.shown slots.old) }
    ensures { ChangesOnlyEntry at (entry (K.item to) (slot_entry (entries (map K.Slot.shown slots.old)) at).count)
        (map K.Slot.shown slots.old) (map K.Slot.shown slots.new) }
{
    let slot = &mut slots[at];
    to.put_in(slot);
}

/// Appends the same slots for items of any width. The one error is that an allocation failed; some slots may be appended
/// then.
pub(crate) fn push_widened<S: RingSlot>(wide: &mut Vec<Slot>, slots: &[S]) -> Result<(), AllocError>
    ensures { OnOk result (wide.new.items ≡ wide.old.items ++ map S.shown slots.now) }
{
    for slot in slots {
        wide.push(Slot {
            item: slot.item(),
            older: slot.older(),
            newer: slot.newer(),
            queue: slot.queue(),
            count: slot.count(),
        })?;
    }
    Ok(())
}
