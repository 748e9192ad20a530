//! Why there are no reports.
ghost use Rattle.std.specs.Prelude.{◌≡◌};
ghost use Rattle.policies.specs.declared.actor_fault.ActorFault.TheVariants.{OutOfMemory};

use std::alloc::AllocError;
use thiserror::Error;

/// Why there are no reports. Of several causes the first in the order `Batch`, `Actors`, `Config`, `OutOfMemory` is
/// reported.
#[derive(Clone, Copy, Debug, PartialEq, Eq, Error)]
pub enum ActorFault {
    /// An allocation failed, or a thread could not be started.
    #[error("OutOfMemory")]
    OutOfMemory,
    /// The size of a batch is 0 or over `MAX_BATCH`.
    #[error("Batch")]
    Batch,
    /// `Config::check` refuses the configuration of the job at this index, from 0, and of none before it.
    #[error("Config")]
    Config { index: usize },
    /// There are more than `MAX_ACTORS` jobs.
    #[error("Actors")]
    Actors,
}

impl From<AllocError> for ActorFault {
    ghost from_gives = { λ _ e. e ≡ OutOfMemory };

    fn from(_refused: AllocError) -> ActorFault {
        ActorFault::OutOfMemory
    }
}
