//! What is counted of accesses that come piece by piece.
ghost use Rattle.std.specs.Prelude.{◌≡◌, ◌≤◌, ◌<◌, ◌+◌, ◌++◌, ◌^◌, ℕ, List, [], ◌∷◌, Some, cond, nat_eq, false, is_some, IfOk};
ghost use Rattle.std.specs.Prelude.{OnOk, length};
ghost use Rattle.engine_base.specs.declared.limits.TheConstants.{MAX_STEPS};
ghost use Rattle.trace_index.specs.FootprintCounter.{AreFewer, HasCounted, footprint_with, mark_in};
ghost use Rattle.trace_index.specs.Footprint.{footprint_of};

use crate::footprint::Footprint;
use crate::key_places::KeyPlaces;
use engine_base::Key;
use std::alloc::{AllocError, Global};

// The numbers that are kept for blocks are below this, and so below `MAX_ACCESSES`.
const MAX_NUMBER: u64 = 1 << 23;

/// How large a trace is so far, with a number for each block that was accessed: 4 to 16 bytes a block, the fewest where
/// the blocks' own numbers are low.
#[derive(Drop)]
pub struct FootprintCounter {
    footprint: Footprint,
    // For each block about how many there were at its last access, with the last bit set if that was not its first.
    places: KeyPlaces,
}

impl FootprintCounter {
    /// Before the first access.
    pub fn new(alloc: Global) -> FootprintCounter
        ensures { HasCounted [] result }
    {
        FootprintCounter {
            footprint: Footprint {
                accesses: 0,
                blocks: 0,
                once: 0,
            },
            places: KeyPlaces::new(alloc),
        }
    }

    /// What it has counted.
    pub fn footprint(&self) -> Footprint
        ensures { (done : List ℕ) → HasCounted done self.now → result ≡ footprint_of done }
    {
        self.footprint
    }

    /// Counts these accesses too. The one error is out of memory; the counter is of no more use then.
    pub fn take(&mut self, keys: &[Key]) -> Result<(), AllocError>
        requires { (done : List ℕ) × HasCounted done self.old × (length done + length keys.now ≤ MAX_STEPS) }
        ensures { (done : List ℕ) → HasCounted done self.old → OnOk result (HasCounted (done ++ keys.now) self.new) }
    {
        for key in keys {
            self.count(*key)?;
        }
        Ok(())
    }

    // Counts an access.
    fn count(&mut self, key: Key) -> Result<(), AllocError>
        requires { (done : List ℕ) × HasCounted done self.old × (length done < MAX_STEPS) }
        ensures { (done : List ℕ) → HasCounted done self.old → OnOk result (HasCounted (done ++ key ∷ []) self.new) }
    {
        let number = self.footprint.blocks.min(MAX_NUMBER - 1) as u32;
        let before = mark(&mut self.places, key, number)?;
        self.footprint = counted(self.footprint, before);
        Ok(())
    }
}

// The footprint with an access more, to a block that was accessed again before or only once, or never.
fn counted(footprint: Footprint, before: Option<bool>) -> Footprint
    requires few { AreFewer MAX_STEPS footprint }
    requires some { before ≡ Some false → 1 ≤ footprint.once }
    ensures { result ≡ footprint_with before footprint }
{
    let accesses = footprint.accesses + 1;
    match before {
        None => Footprint {
            accesses,
            blocks: footprint.blocks + 1,
            once: footprint.once + 1,
        },
        Some(false) => Footprint {
            accesses,
            blocks: footprint.blocks,
            once: footprint.once - 1,
        },
        Some(true) => Footprint {
            accesses,
            ..footprint
        },
    }
}

// Marks an access to the block, and returns whether it was accessed again before, `None` where it never was. The one
// error is out of memory.
fn mark(places: &mut KeyPlaces, block: Key, number: u32) -> Result<Option<bool>, AllocError>
    requires { number < 2 ^ 23 }
    ensures before { IfOk result (λ before. before ≡ mark_in places.old block) }
    ensures after { OnOk result ((other : ℕ) → mark_in places.new other
        ≡ cond (nat_eq block other) (Some (is_some (mark_in places.old block))) (mark_in places.old other)) }
{
    let place = number / 2 * 2;
    match places.put(block, place + 1)? {
        Some(before) => Ok(Some(before % 2 == 1)),
        None => {
            places.put(block, place)?;
            Ok(None)
        }
    }
}
