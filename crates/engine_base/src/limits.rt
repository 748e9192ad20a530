//! The limits of the simulator, each by name. They are defined by this project.

/// The largest capacity of a cache, in entries: 2^20.
pub const MAX_CAPACITY: u32 = 1 << 20;

/// The largest share of the main part, in percent: with 100 a window would be empty.
pub const MAX_MAIN_PERCENT: u8 = 99;

/// The largest share of a part whose size is a choice, in percent: with 100 nothing would be left.
pub const MAX_PART_PERCENT: u8 = 99;

/// The largest share of the capacity that a ghost whose size is a choice remembers, in percent.
pub const MAX_GHOST_PERCENT: u8 = 100;

/// The largest number of read buffers of a concurrent cache.
pub const MAX_STRIPES: u8 = 64;

/// The largest number of steps that a journal keeps: 2^24.
pub const MAX_JOURNAL_LIMIT: u32 = 1 << 24;

/// The largest number of steps that an engine has applied at one time: 2^32.
pub const MAX_STEPS: u64 = 1 << 32;

/// The largest number of accesses of a trace that a policy is given at once: 2^16.
pub const MAX_BATCH: u32 = 1 << 16;

/// The largest number of accesses of a trace: 2^24.
pub const MAX_ACCESSES: usize = 1 << 24;

/// The largest size of a trace file, in bytes: 2^30.
pub const MAX_TRACE_BYTES: usize = 1 << 30;
