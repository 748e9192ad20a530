//! Numbers of keys in a table by a hash.
ghost use Rattle.std.specs.Prelude.{◌≡◌, ◌≢◌, ℕ, ◌<◌, ◌≤◌, ◌+◌, ◌^◌, cond, nat_eq, None, IfOk, IfSome, OnSome, length, slice_index};
ghost use Rattle.trace_index.specs.KeyCells.{home, number_among, len_of_larger, has_few_free, IsPlace};

use engine_base::Key;
use std::alloc::{AllocError, Global};
use std::marker::Model;
use std::mem;

/// 2^64 over the golden ratio, to the nearest odd number (Knuth's multiplicative hashing).
const MULTIPLIER: u64 = 11400714819323198485;

/// A key stands among so many cells from its home on, or not in the table. So no list of keys makes a search long.
const WINDOW: usize = 1024;

/// The first cells.
const MIN_HOMES: u32 = 256;

/// A table of at most so many homes grows, by a ninth.
const MAX_HOMES: u32 = 1 << 31;

/// A number for each of some keys, 12 bytes a cell, and so 14.4 to 16 bytes a key once there are many. A key stands in the
/// first cell from its home on that was empty when it came: the cells between are mostly in the same line of the processor's
/// cache. A larger table takes the cells in their order, so that it may grow by little.
#[derive(Drop)]
pub(crate) struct KeyCells {
    // The key in each cell, and its number, 0 where the cell is empty.
    keys: Vec<Key>,
    numbers: Vec<u32>,
    // The home of a key is one of the first so many cells.
    homes: u32,
    // How many cells are taken.
    count: u32,
}

impl Model for KeyCells {
    ghost use Rattle.std.specs.Prelude.{ℕ, List};
    ghost use Rattle.trace_index.specs.KeyCells.{AreCells};

    // the keys, and their numbers
    ghost Value = { List ℕ × List ℕ };

    ghost view = { λ c. (c.keys.items, c.numbers.items) };

    ghost invariant = { λ c. AreCells c.homes c.count c.keys.items c.numbers.items };
}

impl KeyCells {
    /// No cells.
    pub(crate) fn new(alloc: Global) -> KeyCells
        ensures { (k : ℕ) → number_among result k ≡ 0 }
    {
        KeyCells {
            keys: Vec::new(alloc),
            numbers: Vec::new(alloc),
            homes: 0,
            count: 0,
        }
    }

    /// Empty cells, with a ninth more homes than these have, as far as there may be more.
    pub(crate) fn larger(&self) -> Result<KeyCells, AllocError>
        ensures empty { IfOk result (λ c. (k : ℕ) → number_among c k ≡ 0) }
        ensures len { IfOk result (λ c. length c.0 ≡ len_of_larger (length self.now.0)) }
    {
        let homes = MIN_HOMES.max(self.homes.min(MAX_HOMES) / 9 * 10);
        let len = homes as usize + WINDOW;
        let alloc = *self.keys.allocator();
        Ok(KeyCells {
            keys: vec![in alloc; 0; len]?,
            numbers: vec![in alloc; 0; len]?,
            homes,
            count: 0,
        })
    }

    /// Whether as many cells are taken as five homes in six, and there may be more.
    #[inline(always)]
    pub(crate) fn is_crowded(&self) -> bool
        ensures { result ≡ has_few_free self.now.1 }
    {
        self.count >= self.homes - self.homes / 6 && self.homes <= MAX_HOMES
    }

    /// How many cells there are.
    pub(crate) fn len(&self) -> usize
        ensures len { result ≡ length self.now.0 }
        ensures few { result < 2 ^ 63 }
    {
        self.keys.len()
    }

    /// The key in a cell and its number, 0 where the cell is empty.
    pub(crate) fn cell(&self, place: usize) -> (Key, u32)
        requires { place < length self.now.0 }
        ensures { result ≡ (slice_index self.now.0 place, slice_index self.now.1 place) }
    {
        (self.keys[place], self.numbers[place])
    }

    /// The number of a key, 0 for none.
    pub(crate) fn number(&self, key: Key) -> u32
        ensures { result ≡ number_among self.now key }
    {
        let home = home_of(self.homes, key);
        let end = self.keys.len().min(home + WINDOW);
        let place = search(&self.keys, &self.numbers, home, end, key);
        if place >= end {
            return 0;
        }
        self.numbers[place]
    }

    /// Puts a key's number, and returns the one that it had, 0 for none. Returns `None` where all cells in which the key
    /// could stand are taken, and then changes nothing.
    #[inline(always)]
    pub(crate) fn put(&mut self, key: Key, number: u32) -> Option<u32>
        requires { number ≢ 0 }
        ensures none { result ≡ None → number_among self.old key ≡ 0 }
        ensures same { result ≡ None → self.new ≡ self.old }
        ensures old { IfSome result (λ n. n ≡ number_among self.old key) }
        ensures updates { OnSome result ((k : ℕ) →
            number_among self.new k ≡ cond (nat_eq key k) number (number_among self.old k)) }
    {
        let home = home_of(self.homes, key);
        let end = self.keys.len().min(home + WINDOW);
        let place = search(&self.keys, &self.numbers, home, end, key);
        if place >= end {
            return None;
        }
        self.keys[place] = key;
        let before = mem::replace(&mut self.numbers[place], number);
        self.count += (before == 0) as u32;
        Some(before)
    }
}

// The first of the cells from `home` to `end` that has the key or is empty; `end` where there is none.
#[inline(always)]
fn search(keys: &[Key], numbers: &[u32], home: usize, end: usize, key: Key) -> usize
    requires keys { end ≤ length keys.now }
    requires numbers { end ≤ length numbers.now }
    ensures { IsPlace keys.now numbers.now home end key result }
{
    for place in home..end {
        if keys[place] == key || numbers[place] == 0 {
            return place;
        }
    }
    end
}

// The home of a key: its place among the homes is that of the upper bits of a product among all numbers of 32 bits.
#[inline(always)]
fn home_of(homes: u32, key: Key) -> usize
    ensures home { result ≡ home homes key }
    ensures low { result < 2 ^ 32 }
{
    let upper = key.wrapping_mul(MULTIPLIER) >> 32;
    (upper.wrapping_mul(homes as u64) >> 32) as usize
}
