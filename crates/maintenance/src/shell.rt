//! The shell as an engine.
ghost use Rattle.std.specs.Prelude.{◌≡◌, ◌<◌, ◌≤◌, Ok, Some, None, IfOk, length};
ghost use Rattle.std.specs.Prelude.{option_map};
ghost use Rattle.engine_base.specs.declared.limits.TheConstants.{MAX_STRIPES};
ghost use Rattle.engine_base.specs.Config.{config_fault};
ghost use Rattle.segments.specs.Queues.{queue_of};
ghost use Rattle.shell_model.specs.Buffers.{stripe_at};
ghost use Rattle.shell_model.specs.Shell.{node_of};
ghost use Rattle.shell_model.specs.ReachableShell.{IsReachable};
ghost use Rattle.maintenance.specs.EmptyShell.{IsOpened, holder_parts};

use crate::node_table::NodeTable;
use crate::shell_core::ShellCore;
use admission::Frequency;
use engine_base::{Config, Drain, Engine, Item, Key, Node, Phase, Reply, Step, StepFault, Worker};
use replacement::Rules;
use segments::{Queue, Segments};
use shell_model::{Change, ShellRecord, ShellStats, Stripes, Task, WriteTasks};
use std::alloc::{AllocError, Global};
use std::marker::Model;

/// The concurrent cache: a table from keys to nodes, three queues, read buffers, a write queue, an access
/// frequency, and the state of the maintenance. It takes steps of readers, writers and the maintenance, in any order,
/// and undoes them from their records.
///
/// Contracts see its state, which some list of accepted steps leads to from a shell just opened.
#[derive(Drop)]
pub struct Shell {
    core: ShellCore,
}

impl Model for Shell {
    ghost use Rattle.shell_model.specs.Shell.{Shell as State};
    ghost use Rattle.shell_model.specs.ReachableShell.{IsReachable};

    ghost Value = { State };

    ghost view = { λ s. s.core };

    ghost invariant = { λ s. IsReachable s.core };
}

impl Shell {
    /// An empty shell for a checked configuration. The only error is that the allocation failed.
    pub fn new(alloc: Global, config: &Config) -> Result<Shell, AllocError>
        requires { config_fault config.now ≡ Ok tt }
        ensures { IfOk result (λ shell. IsOpened config.now shell) }
    {
        let config = *config;
        let stripes = Stripes::new(alloc, config.stripes)?;
        let writes = WriteTasks::new(alloc)?;
        let frequency = Frequency::new(alloc, config.capacity, config.spread)?;
        Ok(Shell {
            core: ShellCore {
                config,
                rules: Rules::three_queues(&config),
                table: NodeTable::new(alloc),
                next: 0,
                queues: Segments::for_items(alloc, config.capacity),
                stripes,
                writes,
                frequency,
                drain: Drain::Idle,
                holder: None,
                stats: ShellStats::NONE,
                applied: 0,
            },
        })
    }

    /// Every shell stands where some accepted steps lead to from a shell just opened. This does
    /// nothing: its contract is the fact.
    pub fn reachable(&self)
        ensures { IsReachable self.now }
    {
        let _core = &self.core;
    }

    /// Whether maintenance is due or under way.
    pub fn drain(&self) -> Drain
        ensures { result ≡ self.now.drain }
    {
        self.core.drain
    }

    /// The worker that does the maintenance, its phase, and how many more tasks it may apply.
    pub fn holder(&self) -> Option<(Worker, Phase, u8)>
        ensures { result ≡ option_map holder_parts self.now.holder }
    {
        match self.core.holder {
            None => None,
            Some(holder) => Some((holder.worker, holder.phase, holder.left)),
        }
    }

    /// The node that the table gives a key.
    pub fn node_of(&self, key: Key) -> Option<Node>
        ensures { result ≡ node_of key self.now.table }
    {
        self.core.table.node_of(key)
    }

    /// The number of the next addition.
    pub fn next_node(&self) -> Node
        ensures { result ≡ self.now.next }
    {
        self.core.next
    }

    /// How many read buffers there are: 1 to [`MAX_STRIPES`].
    ///
    /// [`MAX_STRIPES`]: engine_base::MAX_STRIPES
    pub fn stripes(&self) -> u8
        ensures stripes { result ≡ self.now.config.stripes }
        ensures count { length self.now.stripes ≡ result }
        ensures range { (1 ≤ result) × (result ≤ MAX_STRIPES) }
        ensures reached { IsReachable self.now }
    {
        self.core.config.stripes
    }

    /// The items of a read buffer, oldest first.
    pub fn stripe(&self, stripe: u8) -> &[Item]
        requires { stripe < length self.now.stripes }
        ensures { result.now ≡ stripe_at stripe self.now.stripes }
    {
        self.core.stripes.items(stripe)
    }

    /// The tasks of the write queue, oldest first.
    pub fn tasks(&self) -> &[Task]
        ensures { result.now ≡ self.now.writes }
    {
        self.core.writes.tasks()
    }

    /// The access frequency of the keys that the maintenance applied.
    pub fn frequency(&self) -> &Frequency
        ensures { result.now ≡ self.now.frequency }
    {
        &self.core.frequency
    }

    /// How often each kind of reply was given.
    pub fn stats(&self) -> ShellStats
        ensures { result ≡ self.now.stats }
    {
        self.core.stats
    }

    /// The items of the table, by ascending key. The only error is that the allocation failed.
    pub fn table(&self, alloc: Global) -> Result<Vec<Item>, AllocError>
        ensures { IfOk result (λ items. items.items ≡ self.now.table) }
    {
        self.core.table.list(alloc)
    }

    /// The items of a queue, oldest first. The only error is that the allocation failed.
    pub fn list(&self, alloc: Global, queue: Queue) -> Result<Vec<Item>, AllocError>
        ensures { IfOk result (λ items. items.items ≡ queue_of queue self.now.queues) }
    {
        self.core.queues.list(alloc, queue)
    }
}

impl Engine for Shell {
    ghost use Rattle.shell_model.specs.Shell.{act};
    ghost use Rattle.maintenance.specs.Performing.{MayAllocate};
    ghost use Rattle.shell_model.specs.Records.{undone_step, step_asks, record_size, shell_record_of};
    ghost use Rattle.shell_model.specs.ReachableShell.{ShellFits};
    ghost use Rattle.admission.specs.Frequency.{pace_of};
    ghost use Rattle.shell_model.proofs.Engines.{act_counts, act_ends, act_paced};

    type Step = Step;

    type Reply = Reply;

    type Record = ShellRecord;

    type Data = Shell;

    ghost seen = { λ s. s };

    ghost act = { act };

    ghost record_of = { shell_record_of };

    ghost may_ask = { λ x s. MayAllocate s.act };

    ghost fits = { ShellFits };

    ghost undone = { undone_step };

    ghost asks = { step_asks };

    ghost count = { λ x. x.applied };

    ghost words_of = { record_size };

    ghost pace = { λ x. pace_of x.frequency };

    fn apply(&mut self, step: &Step) -> Result<(Reply, ShellRecord), StepFault> {
        self.core.apply(*step)
    }

    fn undo(&mut self, done: ShellRecord) -> Result<(), ShellRecord> {
        self.core.undo(done)
    }

    fn standing(&self) -> u64 {
        self.core.applied
    }

    fn words(done: &ShellRecord) -> u64 {
        match &done.change {
            Change::Read { used, .. } => used.frequency.words(),
            Change::Applied { used, .. } => used.frequency.words(),
            _ => 0,
        }
    }

    ghost counted = { act_counts };

    ghost counted_out = { act_ends };

    ghost paced = { act_paced };
}
