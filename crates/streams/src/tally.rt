//! What became of the calls of a reader or a writer.
ghost use Rattle.std.specs.Prelude.{◌≡◌, ◌≢◌, ◌<◌, ◌-◌, ◌^◌, ◌⊎◌};
ghost use Rattle.std.specs.IoError.{error_kind};
ghost use Rattle.streams.specs.Tally.{CountsError, no_calls};

use std::io::{Error, ErrorKind};

/// How often the calls of a reader or a writer were interrupted, and whether one failed.
#[derive(Clone, Copy)]
pub struct Tally {
    /// Whether a call failed otherwise than by an interruption.
    pub has_failed: bool,
    /// How many calls were interrupted.
    pub interruptions: u64,
}

impl Tally {
    /// Of no call.
    pub fn new() -> Tally
        ensures { result ≡ no_calls }
    {
        Tally {
            has_failed: false,
            interruptions: 0,
        }
    }

    // Counts the error of a call, and returns it. The interruption that can no longer be counted,
    // the 2^64th, is a failure of kind `Other`.
    pub(crate) fn count(&mut self, error: Error) -> Error
        ensures counts { CountsError result self.old self.new }
        ensures given { (error_kind error ≢ ErrorKind.Interrupted) ⊎ (self.old.interruptions < 2 ^ 64 - 1)
            → result ≡ error }
    {
        let is_interruption = error.kind() == ErrorKind::Interrupted;
        if is_interruption && self.interruptions < u64::MAX {
            self.interruptions += 1;
            return error;
        }
        self.has_failed = true;
        if is_interruption {
            return Error::from(ErrorKind::Other);
        }
        error
    }
}
