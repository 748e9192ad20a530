//! Why the words of a call gave no arguments.
ghost use Rattle.std.specs.Prelude.{◌≡◌};
ghost use Rattle.command_line.specs.declared.fault.ParseFault.TheVariants.{OutOfMemory, Refused};
ghost use Rattle.command_line.specs.declared.fault.ValueFault.TheVariants as value;

use clap::Error;
use std::alloc::{AllocError, AllocFailed};

/// Why the words of a call gave no arguments.
#[derive(Drop)]
pub enum ParseFault {
    /// The allocation failed.
    OutOfMemory,
    /// `clap` refused the words, they ask for help or the version, or `clap` ran out of memory; its
    /// kind says which.
    Refused(Error),
    /// The words lack a number in its range or a known policy, and `clap` let them pass.
    Incomplete,
    /// The number of read buffers is not a power of two up to `MAX_STRIPES`.
    Stripes,
    /// A policy that has to know the whole trace is named for one that may be too long to be kept.
    WholeTrace,
    /// An interval has more accesses than the trace may have.
    LongIntervals,
}

impl From<AllocError> for ParseFault {
    ghost from_gives = { λ _ fault. fault ≡ OutOfMemory };

    fn from(_error: AllocError) -> ParseFault {
        ParseFault::OutOfMemory
    }
}

impl From<Error> for ParseFault {
    ghost from_gives = { λ error fault. fault ≡ Refused error };

    fn from(error: Error) -> ParseFault {
        ParseFault::Refused(error)
    }
}

/// A value of matches, or why they do not give it.
pub(crate) type ValueResult<T> = Result<T, ValueFault>;

/// Why matches do not give a value.
#[derive(Clone, Copy)]
pub(crate) enum ValueFault {
    /// The allocation failed.
    OutOfMemory,
    /// The words lack it.
    Incomplete,
}

impl From<AllocError> for ValueFault {
    ghost from_gives = { λ _ fault. fault ≡ value.OutOfMemory };

    fn from(_error: AllocError) -> ValueFault {
        ValueFault::OutOfMemory
    }
}

impl<T: Drop> From<AllocFailed<T>> for ValueFault {
    ghost from_gives = { λ _ fault. fault ≡ value.OutOfMemory };

    fn from(_error: AllocFailed<T>) -> ValueFault {
        ValueFault::OutOfMemory
    }
}
