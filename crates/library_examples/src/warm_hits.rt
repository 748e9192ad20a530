//! Hits after a warm-up.
ghost use Rattle.std.specs.Prelude.{◌≡◌, Ok};
ghost use Rattle.engine_base.specs.Config.{config_fault};

use policies::AnyPolicy;
use std::alloc::{AllocError, Global};
use step_record::{Job, Key, Trace};

/// How many accesses of the trace are hits of the job, where the first `warm` only fill the cache.
///
/// The error is that an allocation failed.
pub fn hits_after(alloc: Global, job: &Job, trace: &Trace, warm: usize) -> Result<u64, AllocError>
    requires checked { config_fault job.now.config ≡ Ok tt }
{
    let (first, rest) = trace.keys().split_at(warm.min(trace.len()));
    let mut cache = AnyPolicy::open(alloc, job, trace)?;
    access_each(&mut cache, first)?;
    let before = cache.stats().hits;
    access_each(&mut cache, rest)?;
    Ok(cache.stats().hits.saturating_sub(before))
}

fn access_each(cache: &mut AnyPolicy, keys: &[Key]) -> Result<(), AllocError> {
    for key in keys {
        if cache.access::<WarmHits>(*key).is_err() {
            return Err(AllocError);
        }
    }
    Ok(())
}

// The caller of the accesses: each type has machine code of its own for them, which becomes part of its loop.
struct WarmHits;
