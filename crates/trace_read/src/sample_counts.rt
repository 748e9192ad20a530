//! How much a sample has.

/// How much a sample has, and the trace that it is of.
#[derive(Clone, Copy, Debug)]
pub struct SampleCounts {
    /// The accesses that were kept.
    pub kept: u64,
    /// The accesses of the trace.
    pub accesses: u64,
    /// The blocks that the kept accesses are to.
    pub blocks: u64,
}
