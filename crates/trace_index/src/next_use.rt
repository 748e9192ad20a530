//! A trace with the next use of each access.
ghost use Rattle.std.specs.Prelude.{◌≡◌, ℕ, ◌<◌, ◌≤◌, IfOk, length, slice_index};
ghost use Rattle.engine_base.specs.declared.limits.TheConstants.{MAX_ACCESSES};
ghost use Rattle.trace_index.specs.Uses.{AreNextUses, next};
ghost use Rattle.trace_index.specs.PackedKeys.{unpacked};

use crate::next_use_finder::NextUseFinder;
use crate::packed_keys::PackedKeys;
use engine_base::{Key, Trace};
use std::alloc::{AllocError, Global};
use std::marker::Model;
use std::sync::Arc;

/// The accesses of a trace, with the next use of each one's key: the place of the next access to it. Each access takes
/// 8 bytes, or 12 where a key of the trace is 2^32 or more.
///
/// It is found once, and any number of caches, on any threads, can read it.
#[derive(Drop)]
pub struct NextUse {
    found: Arc<FoundUses>,
}

// The keys of the accesses, and for each one more than the place of the next access to it, or 0.
#[derive(Drop)]
struct FoundUses {
    keys: PackedKeys,
    after: Vec<u32>,
}

impl Model for NextUse {
    ghost use Rattle.std.specs.Prelude.{ℕ, List};
    ghost use Rattle.std.specs.Arc.{arc_value};
    ghost use Rattle.trace_index.specs.Uses.{AreNextUses};
    ghost use Rattle.trace_index.specs.PackedKeys.{unpacked};

    ghost Value = { List ℕ };

    ghost view = { λ u. unpacked (arc_value u.found).keys };

    ghost invariant = { λ u. AreNextUses (unpacked (arc_value u.found).keys) (arc_value u.found).after.items };
}

impl NextUse {
    /// The trace with each next use, found in one pass over it. The only error is that an allocation failed.
    pub fn build(alloc: Global, trace: &Trace) -> Result<NextUse, AllocError>
        ensures { IfOk result (λ u. u ≡ trace.now) }
    {
        let mut finder = NextUseFinder::new(alloc);
        finder.take(trace.keys())?;
        finder.finish(alloc)
    }

    // The next uses, from the keys and the number of each one's next use. The only error is out of memory.
    pub(crate) fn of_found(
        alloc: Global,
        keys: PackedKeys,
        after: Vec<u32>,
    ) -> Result<NextUse, AllocError>
        requires { AreNextUses (unpacked keys) after.items }
        ensures { IfOk result (λ u. u ≡ unpacked keys) }
    {
        let found = Arc::new(alloc, FoundUses { keys, after })?;
        Ok(NextUse { found })
    }

    /// The same next uses for one more cache. Nothing is copied, and no memory is taken; the only
    /// error is that there are 2^63 of them already.
    pub fn share(&self) -> Result<NextUse, AllocError>
        ensures { IfOk result (λ u. u ≡ self.now) }
    {
        let found = Arc::try_clone(&self.found)?;
        Ok(NextUse { found })
    }

    /// How many accesses there are.
    pub fn len(&self) -> usize
        ensures len { result ≡ length self.now }
        ensures few { result ≤ MAX_ACCESSES }
    {
        self.found.after.len()
    }

    /// No trace has more than `MAX_ACCESSES` accesses. This does nothing: its contract is the fact.
    pub fn bounded(&self)
        ensures { length self.now ≤ MAX_ACCESSES }
    {
        let _found = &self.found;
    }

    /// The key of the access at a place.
    pub fn key(&self, place: usize) -> Key
        requires { place < length self.now }
        ensures { result ≡ slice_index self.now place }
    {
        self.found.keys.get(place)
    }

    /// The next use of the key that is accessed at a place: the least later place that holds the
    /// same key, or none.
    pub fn next(&self, place: usize) -> Option<u32>
        requires { place < length self.now }
        ensures { result ≡ next self.now place (slice_index self.now place) }
    {
        self.found.after[place].checked_sub(1)
    }
}
