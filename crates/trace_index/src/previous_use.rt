//! A trace with the previous use of each access.
ghost use Rattle.std.specs.Prelude.{◌≡◌, ℕ, suc, ◌<◌, ◌≤◌, IfOk, length, slice_index};
ghost use Rattle.engine_base.specs.declared.limits.TheConstants.{MAX_ACCESSES};
ghost use Rattle.trace_index.specs.Uses.{ArePreviousUses, last_below, number_of};

use crate::key_places::KeyPlaces;
use engine_base::{Key, Trace};
use std::alloc::{AllocError, Global};
use std::marker::Model;

/// A trace, with the previous use of each access's key: the place of the last access to it before. It takes 4 bytes an
/// access, and is found once.
#[derive(Drop)]
pub struct PreviousUse<'a> {
    trace: &'a Trace,
    before: Vec<u32>,
}

impl<'a> Model for PreviousUse<'a> {
    ghost use Rattle.std.specs.Prelude.{ℕ, List};
    ghost use Rattle.trace_index.specs.Uses.{ArePreviousUses};

    ghost Value = { List ℕ };

    ghost view = { λ u. u.trace.now };

    ghost invariant = { λ u. ArePreviousUses u.trace.now u.before.items };
}

impl<'a> PreviousUse<'a> {
    /// The trace with each previous use, found in one pass over it. The only error is out of memory.
    pub fn build(alloc: Global, trace: &'a Trace) -> Result<PreviousUse<'a>, AllocError>
        ensures { IfOk result (λ u. u ≡ trace.now) }
    {
        let before = previous_uses_of(alloc, trace.keys())?;
        Ok(PreviousUse { trace, before })
    }

    /// How many accesses there are.
    pub fn len(&self) -> usize
        ensures len { result ≡ length self.now }
        ensures few { result ≤ MAX_ACCESSES }
    {
        self.before.len()
    }

    /// The number of the previous use of the key that is accessed at a place: one more than the greatest earlier place
    /// that holds the same key, or 0 where there is none. So it is above f exactly where the key came at f or later.
    #[inline(always)]
    pub fn number(&self, place: usize) -> u32
        requires { place < length self.now }
        ensures { result ≡ number_of (last_below self.now place (slice_index self.now place)) }
    {
        self.before[place]
    }
}

// The number of each access's previous use. From the start on, the place that a key has is that of its last access.
fn previous_uses_of(alloc: Global, keys: &[Key]) -> Result<Vec<u32>, AllocError>
    requires { length keys.now ≤ MAX_ACCESSES }
    ensures { IfOk result (λ before. ArePreviousUses keys.now before.items) }
{
    let mut before: Vec<u32> = vec![in alloc; 0; keys.len()]?;
    let mut last = KeyPlaces::new(alloc);
    for place in 0..keys.len() {
        let earlier = last.put_number(keys[place], place as u32)?;
        before[place] = earlier;
    }
    Ok(before)
}
