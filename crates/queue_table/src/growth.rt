//! How a table gets room for one more item: its first slots and buckets, a free slot more, and more buckets.
ghost use Rattle.std.specs.Prelude.{◌≡◌, ◌<◌, ◌≤◌, ◌+◌, ◌*◌, ◌-◌, ◌^◌, eqb, cond, ◌++◌, ◌∷◌, [], OnOk, OnErr, IfOk, ℕ, length, map};
ghost use Rattle.queue_table.specs.Ring.{entries, olders, newers, tags, FIRST, IsRing, ring, order_of, no_slots, more_free};
ghost use Rattle.queue_table.specs.Ring.{lists, IsQueued};
ghost use Rattle.queue_table.specs.Entries.{Item, entry};
ghost use Rattle.queue_table.specs.Index.{capacity, IsIndexed};
ghost use Rattle.queue_table.specs.QueueTable.{bits_of_first, bits_of_wider, bits_once_begun, from_first, IsIndexOf, IsLoaded, IsInSlots, IsSound, IsSame};

use crate::links::{FIRST_SLOT, link};
use crate::slot::{RingSlot, TableItem, item_of};
use crate::slot_index::SlotIndex;
use std::alloc::{AllocError, Global};

/// The most slots: the largest index, of 2^31 buckets, has branches for them.
const MAX_SLOTS: usize = 1 << 30;

/// The first index has at least 2^4 buckets.
const MIN_FIRST_BITS: u32 = 4;

/// The first index has at most 2^24 buckets.
const MAX_FIRST_BITS: u32 = 24;

/// The slots that stand between the sections, which are empty.
fn first_slots<S: RingSlot>(alloc: Global) -> Result<Vec<S>, AllocError>
    ensures queued { IfOk result (λ v. IsQueued (map S.shown v.items) no_slots) }
    ensures len { IfOk result (λ v. length (map S.shown v.items) ≡ FIRST) }
{
    let mut slots = Vec::new(alloc);
    slots.push(S::bare(5, 1))?;
    slots.push(S::bare(0, 2))?;
    slots.push(S::bare(1, 3))?;
    slots.push(S::bare(2, 4))?;
    slots.push(S::bare(3, 5))?;
    slots.push(S::bare(4, 0))?;
    Ok(slots)
}

/// How many bits number the buckets of the first index: as many as wished, or the least where the wish is out of range.
fn first_bits(wished: u32) -> u32
    ensures bits { result ≡ bits_of_first wished }
    ensures range { (4 ≤ result) × (result < 32) }
{
    if wished < MIN_FIRST_BITS || wished > MAX_FIRST_BITS {
        return MIN_FIRST_BITS;
    }
    wished
}

/// Makes the first slots and buckets where there are none.
fn begin<K: TableItem>(
    alloc: Global,
    slots: &mut Vec<K::Slot>,
    index: &mut SlotIndex,
) -> Result<(), AllocError>
    requires sound { IsSound (map K.Slot.shown slots.old.items) index.old }
    requires few { length (map K.Slot.shown slots.old.items) < 2 ^ 32 }
    requires load { IsLoaded (length (map K.Slot.shown slots.old.items)) index.old.bits }
    ensures held { OnOk result (IsInSlots (map K.Slot.shown slots.new.items) index.new
        (order_of (map K.Slot.shown slots.new.items))) }
    ensures same { IsSame (map K.Slot.shown slots.old.items) (map K.Slot.shown slots.new.items) }
    ensures load { IsLoaded (length (map K.Slot.shown slots.new.items)) index.new.bits }
    ensures few { length (map K.Slot.shown slots.new.items) < 2 ^ 32 }
    ensures bits { OnOk result (index.new.bits ≡ bits_once_begun (length (map K.Slot.shown slots.old.items)) index.old.bits) }
    ensures err { OnErr result (IsSound (map K.Slot.shown slots.new.items) index.new) }
{
    if !slots.is_empty() {
        return Ok(());
    }
    let bits = first_bits(index.bits());
    *index = SlotIndex::new(alloc, bits, K::multiplier(bits))?;
    *slots = first_slots(alloc)?;
    Ok(())
}

/// Adds a free slot.
fn add_slot<S: RingSlot>(slots: &mut Vec<S>) -> Result<(), AllocError>
    requires ring { IsRing (newers (map S.shown slots.old.items)) (olders (map S.shown slots.old.items)) (ring (order_of (map S.shown slots.old.items))) }
    requires few { length (map S.shown slots.old.items) < 2 ^ 32 }
    ensures ring { OnOk result (IsRing (newers (map S.shown slots.new.items)) (olders (map S.shown slots.new.items))
        (ring (more_free (length (map S.shown slots.old.items)) (order_of (map S.shown slots.old.items))))) }
    ensures entries { OnOk result (entries (map S.shown slots.new.items) ≡ entries (map S.shown slots.old.items)
        ++ entry record { key = 0; node = 0 } 0 ∷ []) }
    ensures tags { OnOk result (tags (map S.shown slots.new.items) ≡ tags (map S.shown slots.old.items) ++ 0 ∷ []) }
    ensures len { OnOk result (length (map S.shown slots.new.items) ≡ length (map S.shown slots.old.items) + 1) }
    ensures err { OnErr result ((map S.shown slots.new.items) ≡ (map S.shown slots.old.items)) }
{
    let at = slots.len() as u32;
    slots.push(S::bare(0, 0))?;
    link(slots, at, 1);
    Ok(())
}

/// Puts every slot that holds an item into an index that knows no slot.
fn fill<S: RingSlot>(slots: &[S], index: &mut SlotIndex)
    requires few { (FIRST ≤ length (map S.shown slots.now)) × (length (map S.shown slots.now) ≤ 2 ^ 32) }
    requires room { length (map S.shown slots.now) ≤ capacity index.old.bits }
    requires empty { (item_of : ℕ → Item) → IsIndexed index.old item_of (λ _. 0) }
    ensures indexed { IsIndexOf index.new (entries (map S.shown slots.now)) (from_first (length (map S.shown slots.now) - FIRST)) }
    ensures bits { index.new.bits ≡ index.old.bits }
{
    for at in FIRST_SLOT as usize..slots.len() {
        index.insert(at as u32, item_of(slots, at as u32));
    }
}

/// Makes the index ready for one more slot: spreads the items over twice as many buckets where there are fewer than two
/// for a slot. All slots are in use. Fails where there are MAX_SLOTS, or out of memory.
fn widen<K: TableItem>(
    alloc: Global,
    slots: &[K::Slot],
    index: &mut SlotIndex,
) -> Result<(), AllocError>
    requires held { IsInSlots (map K.Slot.shown slots.now) index.old (order_of (map K.Slot.shown slots.now)) }
    requires free { order_of (map K.Slot.shown slots.now) 0 ≡ [] }
    requires load { IsLoaded (length (map K.Slot.shown slots.now)) index.old.bits }
    ensures held { IsInSlots (map K.Slot.shown slots.now) index.new (order_of (map K.Slot.shown slots.now)) }
    ensures few { OnOk result (length (map K.Slot.shown slots.now) < 2 ^ 30) }
    ensures load { IsLoaded (length (map K.Slot.shown slots.now)) index.new.bits }
    ensures bits { OnOk result (index.new.bits ≡ bits_of_wider (length (map K.Slot.shown slots.now)) index.old.bits) }
    ensures roomy { OnOk result (2 * length (map K.Slot.shown slots.now) ≤ 2 ^ index.new.bits) }
{
    if slots.len() >= MAX_SLOTS {
        return Err(AllocError);
    }
    let bits = index.bits();
    let buckets = 1usize << bits;
    if slots.len() <= buckets / 2 || bits >= 31 {
        return Ok(());
    }
    *index = SlotIndex::new(alloc, bits + 1, K::multiplier(bits + 1))?;
    fill(slots, index);
    Ok(())
}

/// Adds a free slot where there is none, and buckets where there are too few.
#[cold]
#[inline(never)]
pub(crate) fn grow<K: TableItem>(
    alloc: Global,
    slots: &mut Vec<K::Slot>,
    index: &mut SlotIndex,
) -> Result<(), AllocError>
    requires sound { IsSound (map K.Slot.shown slots.old.items) index.old }
    requires none { order_of (map K.Slot.shown slots.old.items) 0 ≡ [] }
    requires few { length (map K.Slot.shown slots.old.items) < 2 ^ 32 }
    requires load { IsLoaded (length (map K.Slot.shown slots.old.items)) index.old.bits }
    ensures sound { IsSound (map K.Slot.shown slots.new.items) index.new }
    ensures lists { lists (map K.Slot.shown slots.new.items) ≡ lists (map K.Slot.shown slots.old.items) }
    ensures few { length (map K.Slot.shown slots.new.items) < 2 ^ 32 }
    ensures ok { OnOk result ((s : ℕ) → length (order_of (map K.Slot.shown slots.new.items) s)
        ≡ length (order_of (map K.Slot.shown slots.old.items) s) + cond (eqb s 0) 1 0) }
    ensures err { OnErr result ((s : ℕ) → length (order_of (map K.Slot.shown slots.new.items) s) ≡ length (order_of (map K.Slot.shown slots.old.items) s)) }
    ensures load { IsLoaded (length (map K.Slot.shown slots.new.items)) index.new.bits }
    ensures bits { OnOk result (index.new.bits ≡ bits_of_wider (length (map K.Slot.shown slots.new.items) - 1)
        (bits_once_begun (length (map K.Slot.shown slots.old.items)) index.old.bits)) }
{
    begin::<K>(alloc, slots, index)?;
    widen::<K>(alloc, slots, index)?;
    add_slot(slots)
}
