//! The undo record of a halving.
ghost use Rattle.std.specs.Prelude.{◌≡◌, ◌≤◌, ◌/◌, length};
ghost use Rattle.engine_base.specs.declared.bit_list.TheConstants.{MAX_LIST_WORDS};

use engine_base::BitList;

/// The bits that a halving lost, one for each counter. Contracts see the field, so that they say all that it holds.
#[derive(Drop)]
pub struct HalveRecord {
    pub(crate) lost: BitList,
}

impl HalveRecord {
    /// How many words the record holds.
    pub fn words(&self) -> u64
        ensures words { result ≡ length self.now.lost / 64 }
        ensures few { result ≤ MAX_LIST_WORDS }
    {
        self.lost.words()
    }
}
