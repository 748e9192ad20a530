//! The most that is read of a trace.
ghost use Rattle.std.specs.Prelude.{◌≡◌, nat_lt};
ghost use Rattle.engine_base.specs.declared.limits.TheConstants.{MAX_ACCESSES};

use engine_base::{MAX_ACCESSES, MAX_TRACE_BYTES};

/// The largest number of accesses of a long trace, which is not kept: 2^32 - 1.
pub const MAX_LONG_ACCESSES: usize = (1 << 32) - 1;

/// The largest size of the file of a long trace, in bytes: 2^40.
pub const MAX_LONG_TRACE_BYTES: usize = 1 << 40;

/// The most accesses and the most bytes of a trace file. What passes them is `TooLong` and `TooLarge`.
#[derive(Clone, Copy, Debug)]
pub struct Limits {
    pub accesses: usize,
    pub bytes: usize,
}

impl Limits {
    /// Those of a trace that is kept.
    pub const DEFAULT: Limits = Limits {
        accesses: MAX_ACCESSES,
        bytes: MAX_TRACE_BYTES,
    };

    /// Those of a long trace, which is not kept.
    pub const LONG: Limits = Limits {
        accesses: MAX_LONG_ACCESSES,
        bytes: MAX_LONG_TRACE_BYTES,
    };

    /// Whether a trace within them may be too long to be kept.
    pub fn are_long(&self) -> bool
        ensures { result ≡ nat_lt MAX_ACCESSES self.now.accesses }
    {
        self.accesses > MAX_ACCESSES
    }
}
