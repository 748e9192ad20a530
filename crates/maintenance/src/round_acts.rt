//! The acts of a round of maintenance: it drains the reads and the writes, evicts, and ends.
ghost use Rattle.std.specs.Prelude.{◌≡◌, ◌<◌, ◌≤◌, true, false, length, Some, None, option_map};
ghost use Rattle.std.specs.Prelude.{IfOk, IsSome, OnOk, OnErr};
ghost use Rattle.engine_base.specs.declared.item.Item.{Item as ItemValue};
ghost use Rattle.engine_base.specs.declared.limits.TheConstants.{MAX_STEPS};
ghost use Rattle.engine_base.specs.declared.step.Act.TheVariants as act;
ghost use Rattle.shell_model.specs.declared.task.Task.TheVariants.{Add};
ghost use Rattle.shell_model.specs.Buffers.{stripe_at};
ghost use Rattle.segments.specs.Queues.{IsDistinct, queue_holding};
ghost use Rattle.replacement.specs.Plan.{candidate_of};
ghost use Rattle.replacement.specs.Rules.{three_queues};
ghost use Rattle.replacement.specs.PlanMoves.{queues_after, moves_of, leaver_in};
ghost use Rattle.shell_model.specs.Frequency.{frequency_recorded, shell_frequency_record};
ghost use Rattle.shell_model.specs.ShellState.{in_phase, is_over, queues_cleared, unlisted_by};
ghost use Rattle.shell_model.specs.Changes.{after_change, shell_after_task, shell_after_touch, without_task};
ghost use Rattle.shell_model.specs.Shell.{act_reply, added_of, cleared_of, end_reply, evict_change, evict_effect};
ghost use Rattle.shell_model.specs.Shell.{leaves_table, read_reply, reply_by, task_reply, touched_of};
ghost use Rattle.shell_model.specs.Consistency.{IsConsistent};
ghost use Rattle.maintenance.specs.EvictionPlan.{planned};
ghost use Rattle.shell_model.specs.declared.record.Change.TheVariants.{Passed};
ghost use Rattle.maintenance.specs.Performing.{HasTask, IsPerformed};

use crate::shell_core::ShellCore;
use admission::{FreqRecord, Frequency};
use engine_base::{Drain, Item, Key, Outcome, Phase, Reply, Worker};
use replacement::{Effect, Leaver, Moves, Rules};
use segments::{MoveRecord, Queue, Segments};
use shell_model::{Change, EvictionRecord, Holder, Task, UseRecord};
use std::alloc::AllocError;

impl ShellCore {
    /// Drains the oldest item of a read buffer, or gives `None` where the act may not come now.
    pub(crate) fn drain_read(
        &mut self,
        worker: Worker,
        stripe: u8,
    ) -> Result<Option<(Reply, Change)>, AllocError>
        requires few { self.old.frequency.halvings ≤ MAX_STEPS }
        ensures performed { IfOk result (λ o. IsPerformed worker (act.DrainRead stripe) self.old o self.new) }
        ensures err { OnErr result (IsSome (act_reply worker (act.DrainRead stripe) self.old) × (self.new ≡ self.old)) }
    {
        if !self.reads_stripe(worker, stripe) {
            return Ok(None);
        }
        let [item, ..] = self.stripes.items(stripe) else {
            return Ok(Some((Reply::Empty, Change::Nothing)));
        };
        let item = *item;
        let used = self.touch(item)?;
        let _ = self.stripes.take_oldest(stripe);
        Ok(Some((Reply::Drained { item }, Change::Read { stripe, item, used })))
    }

    /// Applies the oldest task of the write queue, or gives `None` where the act may not come now.
    pub(crate) fn drain_write(
        &mut self,
        worker: Worker,
    ) -> Result<Option<(Reply, Change)>, AllocError>
        requires sound { IsConsistent self.old }
        requires few { self.old.frequency.halvings ≤ MAX_STEPS }
        ensures performed { IfOk result (λ o. IsPerformed worker act.DrainWrite self.old o self.new) }
        ensures err { OnErr result (IsSome (act_reply worker act.DrainWrite self.old) × (self.new ≡ self.old)) }
    {
        let holder = match self.held_by(worker) {
            Some(holder) if holder.phase != Phase::Evictions => holder,
            _ => return Ok(None),
        };
        let [task, ..] = self.writes.tasks() else {
            return Ok(Some((Reply::Empty, self.pass_on(holder.phase, Phase::Writes))));
        };
        if holder.left == 0 {
            return Ok(Some((Reply::Enough, self.pass_on(holder.phase, Phase::Writes))));
        }
        let task = *task;
        let made = self.apply_task(holder.phase, task)?;
        self.take_task();
        Ok(Some(made))
    }

    /// Compares the item that has to leave the window with the victim, where the window is over its size.
    pub(crate) fn evict(&mut self, holder: Holder) -> (Reply, Change)
        requires distinct { IsDistinct self.old.queues }
        ensures made { result ≡ ((evict_effect self.old).0, evict_change holder self.old) }
        ensures state { self.new ≡ after_change result.1 self.old }
    {
        let before = holder.phase;
        let passed = self.pass_on(before, Phase::Evictions);
        let Some(candidate) = self.candidate() else {
            return (Reply::Fits, passed);
        };
        let effect = carry_out(&mut self.queues, &self.frequency, &self.rules);
        let listed = self.unlist(effect.moves.leaver());
        let eviction = EvictionRecord {
            moves: effect.moves,
            listed,
        };
        (
            reply_to(candidate, &effect),
            Change::Evicted { before, eviction },
        )
    }

    /// Ends the round, where the window is not over its size.
    pub(crate) fn end(&mut self, holder: Holder) -> (Reply, Change)
        ensures made { result ≡ end_reply holder self.old }
        ensures state { self.new ≡ after_change result.1 self.old }
    {
        if self.is_over() {
            return (Reply::NotYet, Change::Nothing);
        }
        let before = self.drain;
        let (reply, now) = match before {
            Drain::ToRequired => (Reply::Again, Drain::Required),
            Drain::Required => (Reply::Idle, Drain::Idle),
            Drain::ToIdle => (Reply::Idle, Drain::Idle),
            Drain::Idle => (Reply::Idle, Drain::Idle),
        };
        self.drain = now;
        self.holder = None;
        (
            reply,
            Change::Ended {
                holder,
                before,
                now,
            },
        )
    }

    // Whether the worker is in a round that still drains reads, and there is such a read buffer.
    fn reads_stripe(&self, worker: Worker, stripe: u8) -> bool
        ensures yes { result ≡ true → (stripe < length self.now.stripes)
            × (act_reply worker (act.DrainRead stripe) self.now
            ≡ Some (read_reply stripe (stripe_at stripe self.now.stripes) self.now)) }
        ensures no { result ≡ false → act_reply worker (act.DrainRead stripe) self.now ≡ None }
    {
        match self.held_by(worker) {
            None => false,
            Some(holder) => {
                (stripe as usize) < self.stripes.count() && holder.phase == Phase::Reads
            }
        }
    }

    // A key is recorded, and its item moves where it is queued.
    fn touch(&mut self, item: Item) -> Result<UseRecord, AllocError>
        requires { self.old.frequency.halvings ≤ MAX_STEPS }
        ensures state { OnOk result (self.new ≡ shell_after_touch item self.old) }
        ensures made { IfOk result (λ r. r ≡ touched_of item self.old) }
        ensures err { OnErr result (self.new ≡ self.old) }
    {
        let frequency = record_key(&mut self.frequency, item.key)?;
        let moves = match replacement::hit(&mut self.queues, self.rules.protected, item) {
            Some(moves) => moves,
            None => Moves::NONE,
        };
        Ok(UseRecord { frequency, moves })
    }

    // An item that is queued nowhere is recorded, and comes into the window.
    fn enter_window(&mut self, item: Item) -> Result<UseRecord, AllocError>
        requires few { self.old.frequency.halvings ≤ MAX_STEPS }
        requires absent { queue_holding item self.old.queues ≡ None }
        ensures state { OnOk result (self.new ≡ shell_after_task (Add item) self.old) }
        ensures made { IfOk result (λ r. r ≡ added_of item self.old) }
        ensures err { OnErr result (self.new ≡ self.old) }
    {
        self.queues.reserve()?;
        let frequency = record_key(&mut self.frequency, item.key)?;
        let _ = self.queues.push_recent(Queue::Window, item);
        let moves = Moves::Replaced {
            came: Some(Queue::Window),
            sent: None,
            left: None,
        };
        Ok(UseRecord { frequency, moves })
    }

    // Applies a task, in a round that was at this phase before.
    fn apply_task(&mut self, before: Phase, task: Task) -> Result<(Reply, Change), AllocError>
        requires few { self.old.frequency.halvings ≤ MAX_STEPS }
        requires absent { (item : ItemValue) → task ≡ Add item → queue_holding item self.old.queues ≡ None }
        ensures made { IfOk result (λ r. r ≡ task_reply before task self.old) }
        ensures state { OnOk result (self.new ≡ shell_after_task task self.old) }
        ensures err { OnErr result (self.new ≡ self.old) }
    {
        match task {
            Task::Add(item) => {
                let used = self.enter_window(item)?;
                Ok((
                    Reply::Applied { item },
                    Change::Applied {
                        before,
                        is_new: true,
                        item,
                        used,
                    },
                ))
            }
            Task::Update(item) => {
                let used = self.touch(item)?;
                Ok((
                    Reply::Applied { item },
                    Change::Applied {
                        before,
                        is_new: false,
                        item,
                        used,
                    },
                ))
            }
            Task::Remove(item) => {
                let out = clear(&mut self.queues, item);
                Ok((
                    Reply::Cleared { item },
                    Change::Cleared { before, item, out },
                ))
            }
        }
    }

    // The oldest task was applied.
    fn take_task(&mut self)
        requires { HasTask self.old.holder }
        ensures { self.new ≡ without_task self.old }
    {
        let _ = self.writes.take_oldest();
        if let Some(holder) = &mut self.holder {
            holder.phase = Phase::Writes;
            holder.left -= 1;
        }
    }

    // The round goes on to a phase.
    fn pass_on(&mut self, before: Phase, now: Phase) -> Change
        ensures made { result ≡ Passed before now }
        ensures state { self.new ≡ in_phase now self.old }
    {
        self.set_phase(now);
        Change::Passed { before, now }
    }

    // Whether the window is over its size.
    fn is_over(&self) -> bool
        ensures { result ≡ is_over self.now }
    {
        self.queues.len(Queue::Window) > self.rules.window
    }

    // The item that has to leave the window, where that is over its size.
    fn candidate(&self) -> Option<Item>
        ensures { result ≡ candidate_of (three_queues self.now.config) self.now.queues }
    {
        if self.is_over() {
            self.queues.oldest(Queue::Window)
        } else {
            None
        }
    }

    // What went out of the queues leaves the table, where it is listed there.
    fn unlist(&mut self, left: Option<Leaver>) -> bool
        ensures state { self.new
            ≡ record self.old { table = unlisted_by (option_map (λ l. l.item) left) self.old.table } }
        ensures listed { result ≡ leaves_table left self.old.table }
    {
        let Some(left) = left else {
            return false;
        };
        let listed = self.table.is_listed(left.item);
        if listed {
            self.table.remove(left.item);
        }
        listed
    }
}

// Records a key. The only error is that the allocation of a halving failed; nothing is changed then.
fn record_key(frequency: &mut Frequency, key: Key) -> Result<FreqRecord, AllocError>
    requires { frequency.old.halvings ≤ MAX_STEPS }
    ensures state { OnOk result (frequency.new ≡ frequency_recorded frequency.old key) }
    ensures made { IfOk result (λ r. r ≡ shell_frequency_record frequency.old key) }
    ensures err { OnErr result (frequency.new ≡ frequency.old) }
{
    frequency.record(key)
}

// Takes an item out, where it is queued.
fn clear(queues: &mut Segments, item: Item) -> Option<MoveRecord>
    ensures lists { queues.new.lists ≡ queues_cleared item queues.old.lists }
    ensures made { result ≡ cleared_of item (queue_holding item queues.old.lists) queues.old.lists }
{
    queues.take_out(item)
}

// Moves what the plan of an eviction moves.
fn carry_out(queues: &mut Segments, frequency: &Frequency, rules: &Rules) -> Effect
    requires distinct { IsDistinct queues.old.lists }
    ensures lists { queues.new.lists
        ≡ queues_after (planned rules.now frequency.now queues.old.lists) queues.old.lists }
    ensures moves { result.moves ≡ moves_of (planned rules.now frequency.now queues.old.lists) queues.old.lists }
    ensures outcome { result.outcome ≡ (planned rules.now frequency.now queues.old.lists).outcome }
{
    replacement::evict(queues, Some(frequency), rules)
}

// What is replied of a candidate, by what the eviction came to.
fn reply_to(candidate: Item, effect: &Effect) -> Reply
    ensures { result
        ≡ reply_by effect.now.outcome (option_map (λ l. l.item) (leaver_in effect.now.moves)) candidate }
{
    match (effect.outcome, effect.moves.leaver()) {
        (Outcome::Evicted(_), Some(left)) => Reply::Evicted { item: left.item },
        (Outcome::Rejected(_), Some(left)) => Reply::Rejected { item: left.item },
        _ => Reply::Shifted { item: candidate },
    }
}
