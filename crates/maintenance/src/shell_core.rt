//! The parts of the shell together, and one step of it.
ghost use Rattle.std.specs.Prelude.{◌≡◌, ◌<◌, ◌≤◌, ◌↔◌, Some, None, IfOk, OnErr, Err, IsSome};
ghost use Rattle.engine_base.specs.declared.limits.TheConstants.{MAX_STEPS};
ghost use Rattle.shell_model.specs.Shell.{act as acted, act_reply, in_phase};
ghost use Rattle.shell_model.specs.Records.{shell_record_of};
ghost use Rattle.shell_model.specs.ShellStats.{AreAtMost};
ghost use Rattle.shell_model.specs.Consistency.{IsConsistent};
ghost use Rattle.maintenance.specs.Performing.{IsPerformed, MayAllocate};

use crate::node_table::NodeTable;
use admission::Frequency;
use engine_base::{Act, Config, Drain, MAX_STEPS, Phase, Reply, Step, StepFault, Worker};
use replacement::Rules;
use segments::Segments;
use shell_model::{Change, Counted, Holder, ShellRecord, ShellStats, Stripes, WriteTasks};
use std::alloc::AllocError;
use std::marker::Model;

/// The state of a shell. Its invariant only bounds its numbers; the shell around it keeps that it is reachable.
pub(crate) struct ShellCore {
    pub(crate) config: Config,
    pub(crate) rules: Rules,
    pub(crate) table: NodeTable,
    pub(crate) next: u64,
    pub(crate) queues: Segments,
    pub(crate) stripes: Stripes,
    pub(crate) writes: WriteTasks,
    pub(crate) frequency: Frequency,
    pub(crate) drain: Drain,
    pub(crate) holder: Option<Holder>,
    pub(crate) stats: ShellStats,
    pub(crate) applied: u64,
}

impl Drop for ShellCore {
    fn drop(self) {
        let ShellCore {
            config: _,
            rules: _,
            table: _,
            next: _,
            queues: _,
            stripes: _,
            writes: _,
            frequency: _,
            drain: _,
            holder: _,
            stats: _,
            applied: _,
        } = self;
    }
}

impl Model for ShellCore {
    ghost use Rattle.std.specs.Prelude.{◌≡◌, ◌≤◌};
    ghost use Rattle.engine_base.specs.declared.limits.TheConstants.{MAX_STEPS};
    ghost use Rattle.shell_model.specs.Shell.{Shell};
    ghost use Rattle.shell_model.specs.Consistency.{IsLeft};
    ghost use Rattle.replacement.specs.Rules.{three_queues};

    ghost Value = { Shell };

    ghost view = { λ s. record {
      config = s.config;
      table = s.table;
      next = s.next;
      queues = s.queues.lists;
      stripes = s.stripes;
      writes = s.writes;
      frequency = s.frequency;
      drain = s.drain;
      holder = s.holder;
      stats = s.stats;
      applied = s.applied;
    } };

    ghost invariant = { λ s. (s.next ≤ MAX_STEPS) × (s.applied ≤ MAX_STEPS) × (IsLeft s.holder)
        × (s.rules ≡ three_queues s.config) };
}

impl ShellCore {
    /// One step, with its record.
    pub(crate) fn apply(&mut self, step: Step) -> Result<(Reply, ShellRecord), StepFault>
        requires sound { IsConsistent self.old }
        requires next { self.old.next ≤ self.old.applied }
        requires counts { AreAtMost MAX_STEPS self.old.stats }
        requires few { self.old.frequency.halvings ≤ MAX_STEPS }
        ensures some { IfOk result (λ r. acted self.old step ≡ Some (r.0, self.new)) }
        ensures record_is { IfOk result (λ r. r.1 ≡ shell_record_of step self.old) }
        ensures not_now { result ≡ Err StepFault.NotNow ↔ acted self.old step ≡ None }
        ensures memory { result ≡ Err StepFault.OutOfMemory → MayAllocate step.act }
        ensures err { OnErr result (self.new ≡ self.old) }
    {
        if self.applied >= MAX_STEPS {
            return Err(StepFault::NotNow);
        }
        match self.perform(step.worker, step.act) {
            Err(AllocError) => Err(StepFault::OutOfMemory),
            Ok(None) => Err(StepFault::NotNow),
            Ok(Some((reply, change))) => {
                let counted = Counted::of(reply);
                self.stats.count(counted);
                self.applied += 1;
                Ok((reply, ShellRecord { counted, change }))
            }
        }
    }

    // One act, or `None` where it may not come now.
    fn perform(&mut self, worker: Worker, act: Act) -> Result<Option<(Reply, Change)>, AllocError>
        requires sound { IsConsistent self.old }
        requires room { self.old.next < MAX_STEPS }
        requires few { self.old.frequency.halvings ≤ MAX_STEPS }
        ensures performed { IfOk result (λ o. IsPerformed worker act self.old o self.new) }
        // Memory is missing only for an act that may come now, and nothing has changed then.
        ensures err { OnErr result (IsSome (act_reply worker act self.old) × (self.new ≡ self.old)) }
        ensures memory { OnErr result (MayAllocate act) }
    {
        match act {
            Act::Look { key } => Ok(Some((self.look(key), Change::Nothing))),
            Act::Offer { stripe, item } => {
                if (stripe as usize) < self.stripes.count() && item.node < self.next {
                    Ok(Some(self.offer(stripe, item)))
                } else {
                    Ok(None)
                }
            }
            Act::Lose { stripe, item } => {
                if (stripe as usize) < self.stripes.count() && item.node < self.next {
                    Ok(Some((Reply::Lost, Change::Nothing)))
                } else {
                    Ok(None)
                }
            }
            Act::Put { key } => Ok(Some(self.put(key)?)),
            Act::Remove { key } => Ok(Some(self.remove(key))),
            Act::AfterRead { answer } => Ok(Some((self.after_read(answer), Change::Nothing))),
            Act::AfterWrite => Ok(Some(self.after_write())),
            Act::Begin => Ok(Some(self.begin(worker))),
            Act::DrainRead { stripe } => self.drain_read(worker, stripe),
            Act::DrainWrite => self.drain_write(worker),
            Act::Evict => match self.held_by(worker) {
                None => Ok(None),
                Some(holder) => Ok(Some(self.evict(holder))),
            },
            Act::End => match self.held_by(worker) {
                None => Ok(None),
                Some(holder) => Ok(Some(self.end(holder))),
            },
        }
    }

    // A round is at that phase.
    pub(crate) fn set_phase(&mut self, phase: Phase)
        ensures { self.new ≡ in_phase phase self.old }
    {
        if let Some(holder) = &mut self.holder {
            holder.phase = phase;
        }
    }
}
