//! Numbers of keys, whatever the keys are.
ghost use Rattle.std.specs.Prelude.{◌≡◌, ◌≢◌, ℕ, ◌+◌, cond, nat_eq, true, IfOk, OnOk};
ghost use Rattle.std.specs.BTreeMap.{get};
ghost use Rattle.std.specs.Ordering.{nat_cmp};
ghost use Rattle.trace_index.specs.KeyCells.{number_or};
ghost use Rattle.trace_index.specs.KeyNumbers.{number_of_any, number_in_both, number_in};

use crate::key_cells::KeyCells;
use engine_base::Key;
use std::alloc::{AllocError, Global};
use std::collections::BTreeMap;

/// A number for each key that was put. Nearly all have theirs in a table; those that find no cell near their home, which
/// are few unless keys are chosen against the hash, have theirs in a balanced tree.
pub(crate) struct KeyNumbers {
    cells: KeyCells,
    // What the table has of a key comes before what the tree has.
    rest: BTreeMap<Key, u32>,
}

impl Drop for KeyNumbers {
    fn drop(self) {
        let KeyNumbers { cells: _, rest: _ } = self;
    }
}

impl KeyNumbers {
    /// No numbers yet.
    pub(crate) fn new(alloc: Global) -> KeyNumbers
        ensures { (k : ℕ) → number_of_any result k ≡ 0 }
    {
        KeyNumbers {
            cells: KeyCells::new(alloc),
            rest: BTreeMap::new(alloc),
        }
    }

    /// Whether no key has a number.
    #[inline(always)]
    pub(crate) fn is_empty(&self) -> bool
        ensures { result ≡ true → (k : ℕ) → number_of_any self.now k ≡ 0 }
    {
        self.cells.len() + self.rest.len() == 0
    }

    /// The number of a key, 0 for none.
    #[inline(never)]
    pub(crate) fn number(&self, key: Key) -> u32
        ensures { result ≡ number_of_any self.now key }
    {
        let number = self.cells.number(key);
        if number != 0 {
            return number;
        }
        in_rest(&self.rest, key)
    }

    /// Puts a key's number, and returns the one that it had, 0 for none. The only error is out of memory.
    #[inline(always)]
    pub(crate) fn put(&mut self, key: Key, number: u32) -> Result<u32, AllocError>
        requires { number ≢ 0 }
        ensures old { IfOk result (λ n. n ≡ number_of_any self.old key) }
        ensures updates { OnOk result ((k : ℕ) →
            number_of_any self.new k ≡ cond (nat_eq key k) number (number_of_any self.old k)) }
    {
        if self.cells.is_crowded() {
            self.widen()?;
        }
        put_in(&mut self.cells, &mut self.rest, key, number)
    }

    // Moves all numbers of the table to more cells.
    #[cold]
    #[inline(never)]
    fn widen(&mut self) -> Result<(), AllocError>
        ensures { OnOk result ((k : ℕ) → number_of_any self.new k ≡ number_of_any self.old k) }
    {
        let mut cells = self.cells.larger()?;
        for place in 0..self.cells.len() {
            let (key, number) = self.cells.cell(place);
            move_cell(&mut cells, &mut self.rest, key, number)?;
        }
        self.cells = cells;
        Ok(())
    }
}

// Puts a key's number into a table, or into the tree where the table has no cell for it, and returns the one that it had.
#[inline(always)]
fn put_in(
    cells: &mut KeyCells,
    rest: &mut BTreeMap<Key, u32>,
    key: Key,
    number: u32,
) -> Result<u32, AllocError>
    requires { number ≢ 0 }
    ensures old { IfOk result (λ n. n ≡ number_in_both cells.old rest.old key) }
    ensures updates { OnOk result ((k : ℕ) →
        number_in_both cells.new rest.new k ≡ cond (nat_eq key k) number (number_in_both cells.old rest.old k)) }
{
    match cells.put(key, number) {
        Some(0) => Ok(in_rest(rest, key)),
        Some(before) => Ok(before),
        None => {
            let before = rest.insert(key, number)?;
            Ok(before.unwrap_or(0))
        }
    }
}

// Puts what a cell has, if it is not empty.
fn move_cell(
    cells: &mut KeyCells,
    rest: &mut BTreeMap<Key, u32>,
    key: Key,
    number: u32,
) -> Result<(), AllocError>
    ensures { OnOk result ((k : ℕ) →
        number_in_both cells.new rest.new k ≡ number_or (cond (nat_eq key k) number 0) (number_in_both cells.old rest.old k)) }
{
    if number == 0 {
        return Ok(());
    }
    let _before = put_in(cells, rest, key, number)?;
    Ok(())
}

// The number that the tree has for a key, or 0.
#[inline(always)]
fn in_rest(rest: &BTreeMap<Key, u32>, key: Key) -> u32
    ensures { result ≡ number_in (get nat_cmp rest.now key) }
{
    if rest.is_empty() {
        return 0;
    }
    rest.get(&key).copied().unwrap_or(0)
}
