//! What an access changed.
ghost use Rattle.std.specs.Prelude.{◌≡◌};
ghost use Rattle.clairvoyant.specs.OptimalRecord.{outcome_of};

use engine_base::{Key, Outcome};

/// A key that was evicted, with the rank that it had: the number by which the cache knows a
/// resident. Of a trace of `n` accesses, a key that is used next at place `p` has rank
/// `2 * n - 1 - p`, and a key that is never used again has the place of its last access for its
/// rank. So the key whose next use is farthest ranks least.
#[derive(Clone, Copy)]
pub struct EvictedKey {
    pub(crate) key: Key,
    pub(crate) rank: u32,
}

/// The undo record of an access: what it changed of the residents. The accessed key is the
/// trace's, at the place of the access.
#[derive(Clone, Copy)]
pub enum OptimalRecord {
    /// The key was a resident.
    Hit,
    /// The key became a resident, and none was evicted.
    Kept,
    /// The key became a resident in the place of this one.
    Evicted(EvictedKey),
    /// This key, the accessed one, did not become a resident.
    Rejected(Key),
}

impl OptimalRecord {
    /// The outcome of the access.
    pub fn outcome(&self) -> Outcome
        ensures { result ≡ outcome_of self.now }
    {
        match *self {
            OptimalRecord::Hit => Outcome::Hit,
            OptimalRecord::Kept => Outcome::Kept,
            OptimalRecord::Evicted(gone) => Outcome::Evicted(gone.key),
            OptimalRecord::Rejected(key) => Outcome::Rejected(key),
        }
    }
}
