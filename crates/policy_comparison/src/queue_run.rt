//! A job over a trace whose accesses are made in turn, with a row for each interval and each queue.
ghost use Rattle.std.specs.Prelude.{◌≡◌, ◌≤◌, ◌<◌, ◌+◌, ◌++◌, ℕ, List, Ok, IfOk, OnOk, length, slice_index};
ghost use Rattle.engine_base.specs.Config.{config_fault};
ghost use Rattle.policies.specs.AnyPolicy.{Job as JobOf};
ghost use Rattle.policy_comparison.specs.QueueRows.{queue_rows, queue_rows_on};
ghost use Rattle.policy_comparison.specs.QueueRun.{CanAccess, EndsInterval, HasQueueRows, StandsAt};
ghost use Rattle.sweeps.specs.Taking.{AreNext, CanTake, HasTakenAll, RunsOver};

use crate::left_keys::access_counted;
use crate::queue_rows::push_queue_rows;
use policies::{AnyPolicy, Interval};
use std::alloc::{AllocError, Global};
use step_record::{Job, Key, Trace};
use sweeps::{CurrentInterval, Run};

/// A cache of a job, with the rows of each interval that is over.
pub(crate) struct QueueRun {
    pub(crate) job: Job,
    alloc: Global,
    cache: AnyPolicy,
    current: CurrentInterval,
    // How many keys left each queue by the accesses that were made of the current interval.
    left: Vec<u64>,
    rows: Vec<u8>,
}

impl Drop for QueueRun {
    fn drop(self) {
        let QueueRun {
            job: _,
            alloc: _,
            cache: _,
            current: _,
            left: _,
            rows: _,
        } = self;
    }
}

impl Run for QueueRun {
    ghost use Rattle.policy_comparison.specs.QueueRun.{HasQueueRows};

    ghost job_of = { λ run. run.job };

    ghost has_run = { HasQueueRows };

    fn open(alloc: Global, job: &Job, trace: &Trace, every: usize) -> Result<QueueRun, AllocError> {
        let cache = AnyPolicy::open(alloc, job, trace)?;
        let left = Vec::new(alloc);
        let rows = Vec::new(alloc);
        Ok(QueueRun {
            job: *job,
            alloc,
            cache,
            current: CurrentInterval::first(every),
            left,
            rows,
        })
    }

    fn make(&mut self, keys: &[Key]) -> Result<(), AllocError> {
        for i in 0..keys.len() {
            self.access(keys, i)?;
        }
        Ok(())
    }
}

impl QueueRun {
    /// Adds all rows once all accesses were made. The one error is out of memory.
    pub(crate) fn push_rows(&self, text: &mut Vec<u8>) -> Result<(), AllocError>
        requires { (every : ℕ) × HasTakenAll (HasQueueRows every) self.now }
        ensures { (every : ℕ) (trace : List ℕ) → HasQueueRows every trace (length trace) self.now
            → OnOk result (text.new.items ≡ text.old.items ++ queue_rows_on every self.now.job trace) }
    {
        text.extend_from_slice(self.rows.as_slice())?;
        if let Some(last) = self.current.last(&self.job, &self.cache) {
            push_interval_rows(self.alloc, &last, &self.left, &self.cache, text)?;
        }
        Ok(())
    }

    // Makes the access to one of the keys, which come next in a trace. The one error is out of memory.
    fn access(&mut self, keys: &[Key], i: usize) -> Result<(), AllocError>
        requires below { i < length keys.now }
        requires ready { CanAccess (slice_index keys.now i) self.old }
        ensures job { self.new.job ≡ self.old.job }
        ensures rows { (every : ℕ) (trace : List ℕ) (n : ℕ) → StandsAt trace n (slice_index keys.now i)
            → HasQueueRows every trace n self.old → OnOk result (HasQueueRows every trace (n + 1) self.new) }
    {
        access_counted(&mut self.cache, &mut self.left, keys, i)?;
        if let Some(over) = self.current.advance(&self.job, 1, &self.cache) {
            push_interval_rows(self.alloc, &over, &self.left, &self.cache, &mut self.rows)?;
            self.left.clear();
        }
        Ok(())
    }
}

// Adds the rows of the interval whose accesses the cache of the job made last, where so many keys left each queue by them.
// The one error is out of memory.
fn push_interval_rows(
    alloc: Global,
    interval: &Interval,
    left: &[u64],
    cache: &AnyPolicy,
    text: &mut Vec<u8>,
) -> Result<(), AllocError>
    ensures { (job : JobOf) (trace : List ℕ) → EndsInterval job trace interval.now left.now cache.now
        → OnOk result (text.new.items ≡ text.old.items ++ queue_rows job trace interval.now) }
{
    let queues = cache.named_queues(alloc)?;
    push_queue_rows(alloc, text, interval, queues.as_slice(), left)
}
