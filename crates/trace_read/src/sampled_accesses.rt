//! What a sample keeps of the accesses that it is given.
ghost use Rattle.std.specs.Prelude.{◌≡◌, ◌≤◌, ◌<◌, ◌+◌, ◌^◌, ◌==◌, [], ◌∷◌, OnOk, length};
ghost use Rattle.std.specs.List.{IsDistinct};
ghost use Rattle.trace_read.specs.SampledAccesses.{HasNothing, Keeps};
ghost use Rattle.trace_read.specs.Sample.{sample_of};

use crate::sample_counts::SampleCounts;
use crate::sample_rule::{BlockTest, SampleRule};
use engine_base::Key;
use itoa::Buffer;
use std::alloc::{AllocError, Global};
use std::collections::HashSet;
use std::hash::{BuildHasherDefault, FoldHasher};

/// What a sample has so far: the blocks, how many accesses, and the text of the last of these.
pub struct SampledAccesses {
    test: BlockTest,
    pub blocks: HashSet<Key, BuildHasherDefault<FoldHasher>, Global>,
    pub accesses: u64,
    pub text: Vec<u8>,
}

impl Drop for SampledAccesses {
    fn drop(self) {
        let SampledAccesses {
            test: _,
            blocks: _,
            accesses: _,
            text: _,
        } = self;
    }
}

impl SampledAccesses {
    /// Nothing yet, by this rule.
    pub fn new(alloc: Global, rule: SampleRule) -> SampledAccesses
        requires { 2 ≤ rule.inverse }
        ensures rule { result.test.rule ≡ rule }
        ensures none { HasNothing result }
    {
        SampledAccesses {
            test: BlockTest::new(rule),
            blocks: HashSet::new(alloc),
            accesses: 0,
            text: Vec::new(alloc),
        }
    }

    /// Keeps those of these accesses that the sample has. After an error, which is out of memory, it kept some of them.
    pub fn add(&mut self, keys: &[Key]) -> Result<(), AllocError>
        requires { self.old.accesses + length keys.now < 2 ^ 64 }
        ensures rule { self.new.test.rule ≡ self.old.test.rule }
        ensures kept { OnOk result (Keeps self.old self.new
            (sample_of self.old.test.rule.inverse self.old.test.rule.seed keys.now)) }
        ensures few { self.new.accesses ≤ self.old.accesses + length keys.now }
    {
        for key in keys {
            self.take(*key)?;
        }
        Ok(())
    }

    /// How much it kept of so many accesses.
    pub fn counts(&self, accesses: u64) -> SampleCounts
        ensures accesses { (result.accesses ≡ accesses) × (result.kept ≡ self.now.accesses) }
        ensures blocks { (result.blocks ≡ length self.now.blocks.keys) × IsDistinct (λ a b. a == b) self.now.blocks.keys }
    {
        SampleCounts {
            kept: self.accesses,
            accesses,
            blocks: self.blocks.len() as u64,
        }
    }

    // Keeps an access where the sample has it.
    #[inline(always)]
    fn take(&mut self, key: Key) -> Result<(), AllocError>
        requires { self.old.accesses + 1 < 2 ^ 64 }
        ensures rule { self.new.test.rule ≡ self.old.test.rule }
        ensures kept { OnOk result (Keeps self.old self.new
            (sample_of self.old.test.rule.inverse self.old.test.rule.seed (key ∷ []))) }
        ensures few { self.new.accesses ≤ self.old.accesses + 1 }
    {
        if self.test.keeps(key) {
            self.keep(key)?;
        }
        Ok(())
    }

    fn keep(&mut self, key: Key) -> Result<(), AllocError>
        requires { self.old.accesses + 1 < 2 ^ 64 }
        ensures rule { self.new.test.rule ≡ self.old.test.rule }
        ensures kept { OnOk result (Keeps self.old self.new (key ∷ [])) }
        ensures few { self.new.accesses ≤ self.old.accesses + 1 }
    {
        self.blocks.insert(key)?;
        self.text
            .extend_from_slice(Buffer::new().format(key).as_bytes())?;
        self.text.push(b'\n')?;
        self.accesses += 1;
        Ok(())
    }
}
