//! How large a trace is.
ghost use Rattle.std.specs.Prelude.{◌≡◌, IfOk};
ghost use Rattle.trace_index.specs.Footprint.{footprint_text};

use std::alloc::{AllocError, Global};

/// How large a trace is.
#[derive(Clone, Copy, Debug, PartialEq, Eq)]
pub struct Footprint {
    /// How many accesses it has.
    pub accesses: u64,
    /// How many distinct blocks are accessed.
    pub blocks: u64,
    /// How many of these are accessed once.
    pub once: u64,
}

impl Footprint {
    /// A header and a row: how many accesses, how many distinct blocks, and how many of these are accessed once. The
    /// one error is out of memory.
    pub fn text(&self, alloc: Global) -> Result<Vec<u8>, AllocError>
        ensures { IfOk result (λ text. text.items ≡ footprint_text self.now) }
    {
        let Footprint {
            accesses,
            blocks,
            once,
        } = *self;
        let text = format!(in alloc; "accesses,blocks,once\n{accesses},{blocks},{once}\n")?;
        Ok(text.into_bytes())
    }
}
