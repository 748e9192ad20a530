//! The accesses of a line of many that were not made yet.
ghost use Rattle.std.specs.Prelude.{◌≡◌, ◌≤◌, ◌<◌, ◌+◌, ◌^◌, ◌++◌, [], OnOk, length};
ghost use Rattle.trace_read.specs.Lines.{run_from};

use super::arc::{AT_ONCE, BlockRun, push_reserved_run};
use engine_base::Key;
use std::alloc::AllocError;

/// A run, of which the first `done` accesses were made.
#[derive(Drop)]
pub struct Pending {
    run: BlockRun,
    done: u64,
    ghost within: { done ≤ run.count },
    ghost fits: { run.start + run.count ≤ 2 ^ 64 },
}

impl Pending {
    ghost use Rattle.trace_read.specs.Pending.{pending_count, pending_keys};

    /// Of a run of which none were made.
    pub fn new(run: BlockRun) -> Pending
        requires { run.start + run.count ≤ 2 ^ 64 }
        ensures keys { pending_keys result ≡ run_from run.start run.count }
        ensures count { pending_count result ≡ run.count }
    {
        Pending { run, done: 0 }
    }

    /// No accesses.
    pub fn none() -> Pending
        ensures keys { pending_keys result ≡ [] }
        ensures count { pending_count result ≡ 0 }
    {
        Pending::new(BlockRun { start: 0, count: 0 })
    }

    /// How many are left.
    pub fn count(&self) -> u64
        ensures { result ≡ pending_count self.now }
    {
        self.run.count - self.done
    }

    /// Makes the next of them in an empty list, at most `AT_ONCE`.
    pub fn give(&mut self, keys: &mut Vec<Key>) -> Result<(), AllocError>
        requires some { 0 < pending_count self.old }
        requires none { keys.old.items ≡ [] }
        ensures given { OnOk result (pending_keys self.old ≡ keys.new.items ++ pending_keys self.new) }
        ensures count { OnOk result (length keys.new.items + pending_count self.new ≡ pending_count self.old) }
        ensures further { OnOk result (pending_count self.new < pending_count self.old) }
    {
        let count = (self.run.count - self.done).min(AT_ONCE);
        keys.reserve(count as usize)?;
        push_reserved_run(self.run.start + self.done, count, keys);
        self.done += count;
        Ok(())
    }
}
