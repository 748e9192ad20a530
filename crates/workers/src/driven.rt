//! What a run of workers made.
ghost use Rattle.std.specs.Prelude.{◌≡◌, ◌∷◌, ◌++◌, [], IfOk, OnOk, drop};
ghost use Rattle.shell_model.specs.WorkerEntries.{entries_of};

use engine_base::{Entry, Reply, Step, Worker};
use journal::Session;
use maintenance::Shell;
use std::alloc::{AllocError, Global};

/// What a run of workers made: the session, whose entries past the earlier ones are those of the workers, and how many
/// steps were applied before the run. The list of one worker's entries is made on demand.
#[derive(Drop)]
pub struct Driven {
    pub session: Session<Shell>,
    pub earlier: usize,
}

impl Driven {
    /// The entries that a worker made in the run and that are applied, in order. The only error is that the allocation
    /// failed.
    pub fn list(&self, alloc: Global, worker: Worker) -> Result<Vec<Entry<Step, Reply>>, AllocError>
        ensures { IfOk result (λ list. list.items
            ≡ entries_of worker (drop self.now.earlier self.now.session.kept)) }
    {
        let mut list = Vec::new(alloc);
        for n in self.earlier..self.session.len() {
            let Some(entry) = self.session.entry(n + 1) else {
                unreachable!()
            };
            push_own(&mut list, entry, worker)?;
        }
        Ok(list)
    }
}

// Puts an entry on a worker's list, where the worker made it.
fn push_own(
    list: &mut Vec<Entry<Step, Reply>>,
    entry: &Entry<Step, Reply>,
    worker: Worker,
) -> Result<(), AllocError>
    ensures { OnOk result (list.new.items ≡ list.old.items ++ entries_of worker (entry.now ∷ [])) }
{
    if entry.step.worker.number() == worker.number() {
        list.push(*entry)?;
    }
    Ok(())
}
