//! The next uses of a trace that is still read.
ghost use Rattle.std.specs.Prelude.{◌≡◌, ◌+◌, ◌++◌, [], ◌≤◌, IfOk, OnOk, OnErr, length};
ghost use Rattle.engine_base.specs.declared.limits.TheConstants.{MAX_ACCESSES};
ghost use Rattle.trace_index.specs.Uses.{AreNextUses};
ghost use Rattle.trace_index.specs.PackedKeys.{unpacked};

use crate::key_places::KeyPlaces;
use crate::next_use::NextUse;
use crate::packed_keys::PackedKeys;
use engine_base::Key;
use std::alloc::{AllocError, Global};
use std::marker::Model;
use std::mem;

/// The next uses of a trace whose accesses come one after another. It keeps their keys, packed, so that nobody has to keep
/// the trace: 4 bytes an access, or 8 where a key of them is 2^32 or more. `finish` finds the next uses in one pass from
/// the trace's end.
#[derive(Drop)]
pub struct NextUseFinder {
    keys: PackedKeys,
    alloc: Global,
}

impl Model for NextUseFinder {
    ghost use Rattle.std.specs.Prelude.{ℕ, ◌≤◌, List, length};
    ghost use Rattle.engine_base.specs.declared.limits.TheConstants.{MAX_ACCESSES};
    ghost use Rattle.trace_index.specs.PackedKeys.{unpacked};

    ghost Value = { List ℕ };

    ghost view = { λ f. unpacked f.keys };

    ghost invariant = { λ f. length (unpacked f.keys) ≤ MAX_ACCESSES };
}

impl NextUseFinder {
    /// No accesses yet.
    pub fn new(alloc: Global) -> NextUseFinder
        ensures { result ≡ [] }
    {
        NextUseFinder {
            keys: PackedKeys::new(alloc),
            alloc,
        }
    }

    /// Takes the next accesses. The one error is out of memory; the finder then has no accesses any more, and holds no
    /// memory.
    pub fn take(&mut self, keys: &[Key]) -> Result<(), AllocError>
        requires few { length self.old + length keys.now ≤ MAX_ACCESSES }
        ensures taken { OnOk result (self.new ≡ self.old ++ keys.now) }
        ensures none { OnErr result (self.new ≡ []) }
    {
        let packed = mem::replace(&mut self.keys, PackedKeys::new(self.alloc));
        self.keys = packed.with(keys)?;
        Ok(())
    }

    /// How many accesses there are so far.
    pub fn len(&self) -> usize
        ensures { result ≡ length self.now }
    {
        self.keys.len()
    }

    /// The next uses of the accesses so far, as the whole trace. The only error is out of memory.
    pub fn finish(self, alloc: Global) -> Result<NextUse, AllocError>
        ensures { IfOk result (λ u. u ≡ self) }
    {
        let after = next_uses_of(alloc, &self.keys)?;
        NextUse::of_found(alloc, self.keys, after)
    }
}

// The number of each access's next use. From the end on, the place that a key has is that of its next access; so no
// branch hangs on whether there is one, and what is written is written in order.
fn next_uses_of(alloc: Global, keys: &PackedKeys) -> Result<Vec<u32>, AllocError>
    requires { length (unpacked keys.now) ≤ MAX_ACCESSES }
    ensures { IfOk result (λ after. AreNextUses (unpacked keys.now) after.items) }
{
    let len = keys.len();
    let mut after: Vec<u32> = vec![in alloc; 0; len]?;
    let mut following = KeyPlaces::from_end(alloc, keys);
    for back in 0..len {
        let place = len - 1 - back;
        let next = following.put_number(keys.get(place), place as u32)?;
        after[place] = next;
    }
    Ok(after)
}
