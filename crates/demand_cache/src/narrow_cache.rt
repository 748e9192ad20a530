//! A cache over keys below 2^32, as most traces have: it takes half the bytes.
ghost use Rattle.std.specs.Prelude.{◌≡◌, ◌+◌, ◌≤◌, ◌<◌, true, length, map, take, All, IfOk, OnErr};
ghost use Rattle.engine_base.specs.declared.limits.TheConstants.{MAX_STEPS};
ghost use Rattle.engine_base.specs.Machine.{state_after_all};
ghost use Rattle.demand_cache.specs.DemandCache.{demand_access, DemandStops};
ghost use Rattle.demand_cache.specs.NarrowKeys.{IsNarrow};

use crate::demand_cache::DemandCache;
use engine_base::Key;
use queue_table::NarrowKey;
use std::alloc::AllocError;

/// A cache that holds keys below 2^32 alone.
pub type NarrowCache = DemandCache<NarrowKey>;

// The least key that is not narrow.
const WIDE: u64 = 1 << 32;

// How many keys are narrowed at once.
const PIECE: usize = 512;

impl DemandCache<NarrowKey> {
    /// Makes the accesses in turn, none of which is to be undone, and returns how many it made: all, where each key is below
    /// 2^32, and else those before a key that is not, or fewer. It makes at most `MAX_STEPS` with those that it made before.
    /// The one error is that an allocation failed: the cache has made those before an access that may ask for memory.
    pub fn access_narrow(&mut self, keys: &[Key]) -> Result<usize, AllocError>
        requires { self.old.stats.accesses + length keys.now ≤ MAX_STEPS }
        ensures within { IfOk result (λ n. n ≤ length keys.now) }
        ensures made { IfOk result (λ n. self.new ≡ state_after_all demand_access self.old (take n keys.now)) }
        ensures all { All IsNarrow keys.now → IfOk result (λ n. n ≡ length keys.now) }
        ensures memory { OnErr result (DemandStops keys.now self.old self.new) }
    {
        let mut names = [NarrowKey { key: 0 }; PIECE];
        let mut made = 0;
        while made < keys.len() {
            let end = made + PIECE.min(keys.len() - made);
            let piece = &keys[made..end];
            if !are_narrow(&mut names, piece) {
                break;
            }
            self.access_all(&names[..piece.len()])?;
            made = end;
        }
        Ok(made)
    }
}

// Writes the lower halves of keys over the first names, and says whether the upper ones are all 0. A loop with no way out in
// the middle takes several keys at once.
fn are_narrow(names: &mut [NarrowKey], keys: &[Key]) -> bool
    requires { length keys.now ≤ length names.old }
    ensures len { length names.new ≡ length names.old }
    ensures keys { result ≡ true → map (λ k. k.key) (take (length keys.now) names.new) ≡ keys.now }
    ensures all { All IsNarrow keys.now → result ≡ true }
{
    let mut bits = 0;
    for i in 0..keys.len() {
        bits |= keys[i];
        names[i] = NarrowKey {
            key: (keys[i] % WIDE) as u32,
        };
    }
    bits < WIDE
}
