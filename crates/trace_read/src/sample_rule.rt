//! Which blocks a sample has.
ghost use Rattle.std.specs.Prelude.{◌≡◌, ◌≤◌, ◌+◌, ◌*◌, ◌/◌, ◌^◌};
ghost use Rattle.sketch.specs.Columns.{wrap};
ghost use Rattle.trace_read.specs.Hash.{block_hash, is_sampled};

use engine_base::Key;
use sketch::mix;

/// Which blocks a sample has.
#[derive(Clone, Copy)]
pub struct SampleRule {
    /// One block in so many on average: at least 2.
    pub inverse: u32,
    /// Another number gives other blocks.
    pub seed: u64,
}

/// A rule, with what is the same for all blocks.
#[derive(Clone, Copy)]
pub struct BlockTest {
    pub rule: SampleRule,
    // The seed's part of what is mixed.
    offset: u64,
    // The hash of a block that is kept is below it.
    below: u64,
    ghost offset_is: { offset ≡ wrap ((rule.seed + 1) * 0x9E3779B97F4A7C15) },
    ghost below_is: { below ≡ 2 ^ 64 / rule.inverse },
}

impl BlockTest {
    /// The test of a rule.
    pub fn new(rule: SampleRule) -> BlockTest
        requires { 2 ≤ rule.inverse }
        ensures { result.rule ≡ rule }
    {
        BlockTest {
            rule,
            offset: rule.seed.wrapping_add(1).wrapping_mul(0x9E3779B97F4A7C15),
            below: ((1 << 64) / u128::from(rule.inverse)) as u64,
        }
    }

    /// Whether the block is kept.
    #[inline(always)]
    pub fn keeps(&self, block: Key) -> bool
        ensures { result ≡ is_sampled self.now.rule.inverse self.now.rule.seed block }
    {
        mix(block.wrapping_add(self.offset)) < self.below
    }
}
