//! What is made of each of several jobs, side by side.
ghost use Rattle.std.specs.Prelude.{◌≡◌, Ok, IfOk};
ghost use Rattle.std.specs.List.{AllZip};
ghost use Rattle.engine_base.specs.Config.{config_fault};
ghost use Rattle.sweeps.specs.Sweep.{AreAccepted};

use rayon::prelude::*;
use std::alloc::{AllocError, Global};
use std::thread::Threads;
use step_record::Job;

/// What `make` makes of each of the jobs, in their order; `rayon` calls it side by side where there are threads.
pub fn made_by_each<
    R: Threads + Sync,
    M: Send + Drop,
    F: Fn(&Job) -> Result<M, AllocError> + Copy + Send + Sync,
>(rt: &R, alloc: Global, jobs: &[Job], make: F) -> Result<Vec<M>, AllocError>
    requires checked { AreAccepted jobs.now }
    requires makes { (job : _) → config_fault job.now.config ≡ Ok tt → F.pre make job }
    ensures { IfOk result (λ made. AllZip (λ job m. (j : _) × (j.now ≡ job) × F.post make j (Ok m)) jobs.now made.items) }
{
    jobs.par_iter()
        .with_min_len(1)
        .map(make)
        .collect::<Result<Vec<_>, _>>(rt, alloc)?
}
