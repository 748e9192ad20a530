//! A hash index whose buckets are search trees: the slots whose items share a bucket stand in one tree, in which each
//! bit of key and node goes left or right. So no list of keys makes a search long: it passes one slot a bit at most.
ghost use Rattle.std.specs.Prelude.{◌≡◌, ◌≢◌, ◌<◌, ◌≤◌, ◌+◌, ◌^◌, ℕ, true, false, IfOk, length, slice_index};
ghost use Rattle.queue_table.specs.Trees.{Item, Tree, branch, tally, turn, IsSorted, grafted, plucked, lowest, lifted, detached};
ghost use Rattle.queue_table.specs.Places.{IsWhole, IsBare, IsFree, IsThere, Replaces};
ghost use Rattle.queue_table.specs.Index.{bucket, capacity, IsIndexed, LacksSlot, HasSlot, IsAdded, IsRemoved, CanFind, IsFound, IsInBucket};
ghost use Rattle.queue_table.specs.Walks.{HasTree, HasTreeWithin, IsOnWay};

use engine_base::Item;
use std::alloc::{AllocError, Global};

/// What a search reads: the item of each slot.
pub trait SlotItems {
    // how many slots there are
    ghost len: { Self → ℕ };

    // the item of each slot
    ghost item_at: { Self → ℕ → Item };

    /// The item of a slot.
    fn item(&self, at: u32) -> Item
        requires { at < len self.now }
        ensures { result ≡ item_at self.now at };
}

/// In which slot each item stands.
#[derive(Drop)]
pub struct SlotIndex {
    // The first slot of each bucket's tree, by bucket. Behind these the first slots of each slot's left and right
    // branch, side by side, by slot. 0 is no slot.
    links: Vec<u32>,
    // There are 2^bits buckets.
    bits: u32,
    // The upper bits of the product of an item with it say its bucket.
    multiplier: u64,
}

impl SlotIndex {
    /// An index without buckets, which holds nothing and is not searched. It says how many bits are to number the
    /// buckets once there are some. Allocates nothing.
    pub fn unallocated(alloc: Global, bits: u32) -> SlotIndex
        ensures { result.bits ≡ bits }
    {
        SlotIndex {
            links: Vec::new(alloc),
            bits,
            multiplier: 0,
        }
    }

    /// An index of 2^bits buckets for half as many slots and two more. It knows no slot. The upper bits of the product of
    /// an item with the multiplier say its bucket. The one error is out of memory.
    pub fn new(alloc: Global, bits: u32, multiplier: u64) -> Result<SlotIndex, AllocError>
        requires { (1 ≤ bits) × (bits < 32) }
        ensures empty { IfOk result (λ x. (item_of : ℕ → Item) → IsIndexed x item_of (λ _. 0)) }
        ensures bits { IfOk result (λ x. x.bits ≡ bits) }
    {
        let buckets = 1usize << bits;
        let links = vec![in alloc; 0u32; buckets + 2 * (buckets / 2 + 2)]?;
        Ok(SlotIndex {
            links,
            bits,
            multiplier,
        })
    }

    /// How many bits number the buckets.
    pub fn bits(&self) -> u32
        ensures { result ≡ self.now.bits }
    {
        self.bits
    }

    /// The slot that holds the item, 0 where none does. Most buckets hold at most one slot, so the root is compared
    /// before a branch is chosen.
    #[inline(always)]
    pub fn find<I: SlotItems>(&self, items: &I, item: Item) -> u32
        requires { CanFind self.now (I.len items.now) }
        ensures { (used : ℕ → ℕ) → IsIndexed self.now (I.item_at items.now) used
            → IsFound item (I.item_at items.now) used result }
    {
        let bucket = bucket_of(self.multiplier, self.bits, item);
        let at = self.links[bucket];
        if at == 0 {
            return 0;
        }
        if is_same(&items.item(at), &item) {
            return at;
        }
        let below = branch_of(self.bits, at, turns_right(item, 0));
        self.find_below(items, below, item, 1)
    }

    /// The first slot of the item's bucket, 0 where there is none: what a search reads first. A prefetch reads it.
    #[inline(always)]
    pub fn first_slot(&self, item: Item) -> u32
        ensures { (item_of : ℕ → Item) (used : ℕ → ℕ) → IsIndexed self.now item_of used
            → IsInBucket item self.now.multiplier self.now.bits item_of used result }
    {
        if self.bits < 1 || self.bits > 31 {
            return 0;
        }
        let bucket = bucket_of(self.multiplier, self.bits, item);
        if bucket >= self.links.len() {
            return 0;
        }
        self.links[bucket]
    }

    /// Takes in a slot that it does not know, with its item.
    #[inline(always)]
    pub fn insert(&mut self, at: u32, item: Item)
        requires at { (1 ≤ at) × (at < capacity self.old.bits) }
        requires absent { LacksSlot at self.old }
        ensures indexed { (item_of item_of2 : ℕ → Item) (used used2 : ℕ → ℕ) → IsIndexed self.old item_of used
            → IsAdded at item item_of item_of2 used used2 → IsIndexed self.new item_of2 used2 }
        ensures bits { self.new.bits ≡ self.old.bits }
    {
        let bucket = bucket_of(self.multiplier, self.bits, item);
        let next = self.links[bucket];
        if next == 0 {
            self.links[bucket] = at;
            return;
        }
        let below = branch_of(self.bits, next, turns_right(item, 0));
        self.graft(below, at, item, 1);
    }

    /// Forgets a slot that it knows; the item is that of the slot. Most buckets hold this slot alone.
    #[inline(always)]
    pub fn remove(&mut self, at: u32, item: Item)
        requires { HasSlot at item self.old }
        ensures indexed { (item_of : ℕ → Item) (used used2 : ℕ → ℕ) → IsIndexed self.old item_of used
            → IsRemoved at item item_of used used2 → IsIndexed self.new item_of used2 }
        ensures bits { self.new.bits ≡ self.old.bits }
    {
        let bucket = bucket_of(self.multiplier, self.bits, item);
        if self.links[bucket] == at && self.is_bare(at) {
            self.links[bucket] = 0;
            return;
        }
        self.detach(bucket, at, item, 0);
    }

    // The slot of the tree at a place that holds the item, 0 where none does.
    fn find_below<I: SlotItems>(&self, items: &I, place: usize, item: Item, depth: usize) -> u32
        requires { HasTreeWithin self.now place depth (I.len items.now) }
        ensures { (t : Tree) → IsWhole self.now.links.items (2 ^ self.now.bits) place t
            → IsSorted (I.item_at items.now) depth t → IsFound item (I.item_at items.now) (λ k. tally k t) result }
    {
        let at = self.links[place];
        if at == 0 {
            return 0;
        }
        if is_same(&items.item(at), &item) {
            return at;
        }
        let below = branch_of(self.bits, at, turns_right(item, depth));
        self.find_below(items, below, item, depth + 1)
    }

    // Puts a slot without branches at the end of its item's way down from a place.
    fn graft(&mut self, place: usize, at: u32, item: Item, depth: usize)
        requires at { 1 ≤ at }
        requires room { branch (2 ^ self.old.bits) at true < length self.old.links.items }
        requires tree { HasTree self.old place depth }
        ensures grafted { (t : Tree) → IsWhole self.old.links.items (2 ^ self.old.bits) place t
            → IsFree self.old.links.items (2 ^ self.old.bits) place at t
            → Replaces (2 ^ self.old.bits) self.old.links.items self.new.links.items place t (grafted depth item at t) }
        ensures bits { self.new.bits ≡ self.old.bits }
        ensures multiplier { self.new.multiplier ≡ self.old.multiplier }
    {
        let next = self.links[place];
        if next == 0 {
            self.links[place] = at;
            return;
        }
        let below = branch_of(self.bits, next, turns_right(item, depth));
        self.graft(below, at, item, depth + 1)
    }

    // Takes a slot out of the tree at a place.
    fn detach(&mut self, place: usize, at: u32, item: Item, depth: usize)
        requires { IsOnWay self.old place at item depth }
        ensures detached { (t : Tree) (item_of : ℕ → Item) → IsWhole self.old.links.items (2 ^ self.old.bits) place t
            → IsThere item_of at item depth t
            → Replaces (2 ^ self.old.bits) self.old.links.items self.new.links.items place t (detached depth item at t) }
        ensures bare { IsBare self.new.links.items (2 ^ self.old.bits) at }
        ensures bits { self.new.bits ≡ self.old.bits }
        ensures multiplier { self.new.multiplier ≡ self.old.multiplier }
    {
        let next = self.links[place];
        if next == at {
            if self.is_bare(at) {
                self.links[place] = 0;
            } else {
                self.lift(place, at);
            }
            return;
        }
        let below = branch_of(self.bits, next, turns_right(item, depth));
        self.detach(below, at, item, depth + 1)
    }

    // Whether a slot has no branches. They are found by its number and not by the link to it, so that the processor
    // reads both at once.
    #[inline(always)]
    fn is_bare(&self, at: u32) -> bool
        requires within { branch (2 ^ self.now.bits) at true < length self.now.links.items }
        requires bits { self.now.bits < 32 }
        ensures { result ≡ true → IsBare self.now.links.items (2 ^ self.now.bits) at }
    {
        let left = branch_of(self.bits, at, false);
        self.links[left] == 0 && self.links[left + 1] == 0
    }

    // Takes the first slot out of the tree at a place: the lowest slot below it comes in its place. A slot that is out
    // keeps no branches, so that none has to be cleared where it comes in again.
    #[inline(always)]
    fn lift(&mut self, place: usize, at: u32)
        requires tree { HasTree self.old place 0 }
        requires first { slice_index self.old.links.items place ≡ at }
        requires some { 1 ≤ at }
        ensures lifted { (t : Tree) → IsWhole self.old.links.items (2 ^ self.old.bits) place t
            → Replaces (2 ^ self.old.bits) self.old.links.items self.new.links.items place t (lifted t) }
        ensures bare { IsBare self.new.links.items (2 ^ self.old.bits) at }
        ensures bits { self.new.bits ≡ self.old.bits }
        ensures multiplier { self.new.multiplier ≡ self.old.multiplier }
    {
        let lowest = self.pluck(place);
        if lowest == at {
            return;
        }
        let from = branch_of(self.bits, at, false);
        let to = branch_of(self.bits, lowest, false);
        self.links[to] = self.links[from];
        self.links[to + 1] = self.links[from + 1];
        self.links[place] = lowest;
        self.links[from] = 0;
        self.links[from + 1] = 0;
    }

    // Takes a slot without branches out of the tree at a place, and returns it.
    fn pluck(&mut self, place: usize) -> u32
        requires tree { HasTree self.old place 0 }
        requires some { 1 ≤ slice_index self.old.links.items place }
        ensures plucked { (t : Tree) → IsWhole self.old.links.items (2 ^ self.old.bits) place t
            → Replaces (2 ^ self.old.bits) self.old.links.items self.new.links.items place t (plucked t) }
        ensures lowest { (t : Tree) → IsWhole self.old.links.items (2 ^ self.old.bits) place t → result ≡ lowest 0 t }
        ensures bare { IsBare self.new.links.items (2 ^ self.old.bits) result }
        ensures bits { self.new.bits ≡ self.old.bits }
        ensures multiplier { self.new.multiplier ≡ self.old.multiplier }
    {
        let at = self.links[place];
        let left = branch_of(self.bits, at, false);
        if self.links[left] != 0 {
            return self.pluck(left);
        }
        if self.links[left + 1] != 0 {
            return self.pluck(left + 1);
        }
        self.links[place] = 0;
        at
    }
}

// The bucket of an item: the upper bits of one product of its key with its node.
#[inline(always)]
fn bucket_of(multiplier: u64, bits: u32, item: Item) -> usize
    requires { (1 ≤ bits) × (bits < 32) }
    ensures bucket { result ≡ bucket multiplier bits item }
    ensures within { result < 2 ^ bits }
{
    let mixed = item.key.wrapping_add(item.node.wrapping_mul(1 << 32));
    (mixed.wrapping_mul(multiplier) >> (64 - bits)) as usize
}

// Where the links have a slot's left or right branch.
#[inline(always)]
fn branch_of(bits: u32, at: u32, right: bool) -> usize
    requires { bits < 32 }
    ensures { result ≡ branch (2 ^ bits) at right }
{
    (1usize << bits) + 2 * at as usize + right as usize
}

// Whether the item goes right at a depth of its tree: by the bits of its key from the lowest on, then of its node.
#[inline(always)]
fn turns_right(item: Item, depth: usize) -> bool
    ensures { result ≡ turn depth item }
{
    let word = if depth / 64 % 2 == 0 {
        item.key
    } else {
        item.node
    };
    (word >> (depth % 64)) % 2 == 1
}

// Whether the two are one item.
#[inline(always)]
fn is_same(a: &Item, b: &Item) -> bool
    ensures same { result ≡ true → a.now ≡ b.now }
    ensures other { result ≡ false → a.now ≢ b.now }
{
    a.key == b.key && a.node == b.node
}
