//! The place of each key.
ghost use Rattle.std.specs.Prelude.{◌≡◌, ℕ, suc, ◌<◌, ◌≤◌, cond, nat_eq, Some, None, IfOk, IfSome, OnOk, length, slice_index, ◌^◌};
ghost use Rattle.engine_base.specs.declared.limits.TheConstants.{MAX_ACCESSES};
ghost use Rattle.trace_index.specs.KeyPlaces.{place_in_table, place_of, number_of_key};

use crate::key_numbers::KeyNumbers;
use crate::packed_keys::PackedKeys;
use engine_base::Key;
use std::alloc::{AllocError, Global};
use std::mem;

/// A place of the trace for each key that was put. Keys that are low for the place, and not few, as those of blocks mostly
/// are, have theirs in a table, by the key itself, in 4 bytes; every other key has it in a table by its hash, in 16 to 24
/// bytes.
///
/// The table grows as such keys come. A key that came before the table reached it has its place by its hash until it is
/// put again; from then on that one is not read any more.
pub struct KeyPlaces {
    // One more than the place of each key below the table's length, or 0.
    low: Vec<u32>,
    // The same for the keys that were put past the table.
    high: KeyNumbers,
    // The table takes keys below this: TABLE_START, and KEY_SHARE more for each key that came past it and that the access
    // alone would let in. So a few high keys do not make it long.
    reach: u64,
}

impl Drop for KeyPlaces {
    fn drop(self) {
        let KeyPlaces {
            low: _,
            high: _,
            reach: _,
        } = self;
    }
}

// An access lets keys below ACCESS_SHARE * place + TABLE_START into the table.
const ACCESS_SHARE: u64 = 4;

const KEY_SHARE: u64 = 16;

const TABLE_START: u64 = 1 << 20;

impl KeyPlaces {
    /// No places yet.
    pub fn new(alloc: Global) -> KeyPlaces
        ensures { (k : ℕ) → place_of result k ≡ None }
    {
        KeyPlaces {
            low: Vec::new(alloc),
            high: KeyNumbers::new(alloc),
            reach: TABLE_START,
        }
    }

    /// No places yet, of keys that are put from the last on. Where most of them, by every 64th, are low enough for the
    /// table, it is as long from the start as they may make it.
    pub(crate) fn from_end(alloc: Global, keys: &PackedKeys) -> KeyPlaces
        ensures { (k : ℕ) → place_of result k ≡ None }
    {
        let mut places = KeyPlaces::new(alloc);
        let len = keys.len();
        let end = ACCESS_SHARE
            .saturating_mul(len as u64)
            .saturating_add(TABLE_START);
        let mut low: usize = 0;
        for i in 0..len / 64 {
            low += (keys.get(64 * i) < end) as usize;
        }
        if low > len / 128 {
            places.reach = end;
        }
        places
    }

    /// The place of a key that has one in the table, `None` for any other key: for reads ahead of `put`, which do not
    /// depend on one another, so that the processor overlaps them.
    #[inline(always)]
    pub fn in_table(&self, key: Key) -> Option<u32>
        ensures table { result ≡ place_in_table self.now key }
        ensures place { IfSome result (λ p. place_of self.now key ≡ Some p) }
    {
        if key < self.low.len() as u64 {
            return self.low[key as usize].checked_sub(1);
        }
        None
    }

    /// The number of the place that a key has: one more than it, or 0 for none.
    #[inline(always)]
    pub(crate) fn number(&self, key: Key) -> u32
        ensures { result ≡ number_of_key self.now key }
    {
        if key < self.low.len() as u64 {
            let number = self.low[key as usize];
            if number != 0 {
                return number;
            }
        }
        self.high.number(key)
    }

    /// Puts a key's place, and returns the one that it had. The only error is out of memory.
    #[inline(always)]
    pub fn put(&mut self, key: Key, place: u32) -> Result<Option<u32>, AllocError>
        requires { place < MAX_ACCESSES }
        ensures old { IfOk result (λ o. o ≡ place_of self.old key) }
        ensures updates { OnOk result ((k : ℕ) →
            place_of self.new k ≡ cond (nat_eq key k) (Some place) (place_of self.old k)) }
    {
        let number = self.put_number(key, place)?;
        Ok(number.checked_sub(1))
    }

    /// The same, returning the number of the place that the key had: one more than it, or 0 for none.
    #[inline(always)]
    pub(crate) fn put_number(&mut self, key: Key, place: u32) -> Result<u32, AllocError>
        requires { place < MAX_ACCESSES }
        ensures old { IfOk result (λ n. n ≡ number_of_key self.old key) }
        ensures updates { OnOk result ((k : ℕ) →
            number_of_key self.new k ≡ cond (nat_eq key k) (suc place) (number_of_key self.old k)) }
    {
        if key >= self.low.len() as u64 {
            return self.put_past(key, place);
        }
        let number = mem::replace(&mut self.low[key as usize], place + 1);
        if !self.high.is_empty() && number == 0 {
            return Ok(self.high.number(key));
        }
        Ok(number)
    }

    // The same for a key that the table does not reach, out of line: a loop over keys that it does reach then saves no
    // registers for it.
    #[inline(never)]
    fn put_past(&mut self, key: Key, place: u32) -> Result<u32, AllocError>
        requires few { place < MAX_ACCESSES }
        requires past { length self.old.low.items ≤ key }
        ensures old { IfOk result (λ n. n ≡ number_of_key self.old key) }
        ensures updates { OnOk result ((k : ℕ) →
            number_of_key self.new k ≡ cond (nat_eq key k) (suc place) (number_of_key self.old k)) }
    {
        let end = ACCESS_SHARE * place as u64 + TABLE_START;
        if key >= end.min(self.reach) {
            let number = self.high.put(key, place + 1)?;
            let more = KEY_SHARE * (number == 0 && key < end) as u64;
            self.reach = self.reach.saturating_add(more);
            return Ok(number);
        }
        self.grow(key as usize + 1, end as usize)?;
        self.low[key as usize] = place + 1;
        Ok(self.high.number(key))
    }

    // Makes the table at least so long: twice as long as it was, where that is no more than `most`, so that it grows few
    // times.
    #[cold]
    #[inline(never)]
    fn grow(&mut self, least: usize, most: usize) -> Result<(), AllocError>
        requires longer { length self.old.low.items < least }
        requires within { least ≤ most }
        requires short { most < 2 ^ 63 }
        ensures long { OnOk result (least ≤ length self.new.low.items) }
        ensures low { (k : ℕ) → slice_index self.new.low.items k ≡ slice_index self.old.low.items k }
        ensures high { self.new.high ≡ self.old.high }
    {
        let len = least.max(most.min(2 * self.low.len()));
        self.low.resize(len, 0)
    }
}
