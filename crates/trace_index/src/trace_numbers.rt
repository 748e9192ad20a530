//! The keys of a trace by number.
ghost use Rattle.std.specs.Prelude.{◌≡◌, ◌<◌, ◌≤◌, List, ℕ, IfOk, OnOk, length};
ghost use Rattle.engine_base.specs.declared.limits.TheConstants.{MAX_ACCESSES};
ghost use Rattle.trace_index.specs.TraceNumbers.{count_before, keys_with, numbers_of, HasNumbers, NumbersDiffer};

use crate::key_places::KeyPlaces;
use engine_base::{Key, Trace};
use std::alloc::{AllocError, Global};
use std::marker::Model;

/// The number of a key of a trace.
pub type Number = u32;

/// For each access of a trace the number of its key: 0 for the key that comes first, 1 for the next other one, and so
/// on. What does not depend on what keys are called can go by them in place of the keys, which are twice as long.
#[derive(Drop)]
pub struct TraceNumbers {
    numbers: Vec<Number>,
}

impl Model for TraceNumbers {
    ghost use Rattle.std.specs.Prelude.{ℕ, List, ◌≤◌, length};
    ghost use Rattle.engine_base.specs.declared.limits.TheConstants.{MAX_ACCESSES};

    ghost Value = { List ℕ };

    ghost view = { λ t. t.numbers.items };

    ghost invariant = { λ t. length t.numbers.items ≤ MAX_ACCESSES };
}

impl TraceNumbers {
    /// The numbers of a trace, found in one pass over it. The only error is out of memory.
    #[tactic(auto, using(crate::proofs::Numbers::numbers_differ))]
    pub fn of(alloc: Global, trace: &Trace) -> Result<TraceNumbers, AllocError>
        ensures numbers { IfOk result (λ t. t ≡ numbers_of trace.now) }
        ensures differ { NumbersDiffer trace.now }
    {
        let numbers = numbers_of(alloc, trace.keys())?;
        Ok(TraceNumbers { numbers })
    }

    /// The number of each access's key, in order.
    pub fn as_slice(&self) -> &[Number]
        ensures numbers { result.now ≡ self.now }
        ensures few { length self.now ≤ MAX_ACCESSES }
    {
        self.numbers.as_slice()
    }
}

// The number of each of the keys.
fn numbers_of(alloc: Global, keys: &[Key]) -> Result<Vec<Number>, AllocError>
    requires { length keys.now ≤ MAX_ACCESSES }
    ensures { IfOk result (λ numbers. numbers.items ≡ numbers_of keys.now) }
{
    let mut numbers = Vec::with_capacity(alloc, keys.len())?;
    let mut seen = KeyPlaces::new(alloc);
    let mut count: u32 = 0;
    for key in keys {
        let number = number_of(&mut seen, count, *key)?;
        count += (number == count) as u32;
        numbers.push(number)?;
    }
    Ok(numbers)
}

// The number of a key, where so many keys have one: the next one, where it has none. The only error is out of memory.
#[inline(always)]
fn number_of(seen: &mut KeyPlaces, count: u32, key: Key) -> Result<u32, AllocError>
    requires { count < MAX_ACCESSES }
    ensures number { (keys : List ℕ) → length keys ≡ count → HasNumbers keys seen.old
        → IfOk result (λ n. n ≡ count_before (keys_with keys key) key) }
    ensures seen { (keys : List ℕ) → length keys ≡ count → HasNumbers keys seen.old
        → OnOk result (HasNumbers (keys_with keys key) seen.new) }
{
    let number = seen.number(key);
    if number != 0 {
        return Ok(number - 1);
    }
    seen.put_number(key, count)?;
    Ok(count)
}
