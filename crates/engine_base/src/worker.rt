//! Who makes a step.
ghost use Rattle.std.specs.Prelude.{◌≡◌, ◌<◌, ◌≤◌, ℕ, MatchOption};
ghost use Rattle.engine_base.specs.declared.worker.TheConstants.{MAX_WORKERS};

use std::marker::Model;

/// How many workers there are at most.
pub const MAX_WORKERS: u8 = 64;

/// The number of a worker, from 0 on and below `MAX_WORKERS`.
#[derive(Clone, Copy, PartialEq, Eq)]
pub struct Worker {
    number: u8,
}

impl Model for Worker {
    ghost Value = { ℕ };

    ghost view = { λ w. w.number };

    ghost invariant = { λ w. w.number < MAX_WORKERS };

    ghost inverse = { λ n. record { number = n } };
}

impl Worker {
    /// The worker of a number, or `None` from `MAX_WORKERS` on.
    pub fn new(number: u8) -> Option<Worker>
        ensures { MatchOption result (MAX_WORKERS ≤ number) (λ w. (w ≡ number) × (number < MAX_WORKERS)) }
    {
        if number >= MAX_WORKERS {
            return None;
        }
        Some(Worker { number })
    }

    /// The worker's number.
    pub fn number(&self) -> u8
        ensures number { result ≡ self.now }
        ensures below { result < MAX_WORKERS }
    {
        self.number
    }
}
