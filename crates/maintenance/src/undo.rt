//! Undoing one step.
ghost use Rattle.std.specs.Prelude.{◌≡◌, ◌≢◌, ◌<◌, Some, None, IfErr, OnOk, OnErr};
ghost use Rattle.replacement.specs.PlanMoves.{leaver_in};
ghost use Rattle.shell_model.specs.Changes.{before_change, before_use, change_asks, FitsChange, FitsTouched, HasLeft};
ghost use Rattle.shell_model.specs.Changes.{holder_with_task, written_task as task_of};
ghost use Rattle.shell_model.specs.Records.{FitsStep, step_asks, undone_step};
ghost use Rattle.shell_model.specs.Consistency.{IsLeft};
ghost use Rattle.shell_model.specs.Frequency.{FitsFrequency, frequency_unrecorded};
ghost use Rattle.shell_model.specs.declared.record.Change.TheVariants.{Nothing, Offered, Updated, Added, Removed, Read};
ghost use Rattle.shell_model.specs.declared.record.Change.TheVariants.{Applied, Cleared, Evicted, Ended};

use crate::shell_core::ShellCore;
use admission::{FreqRecord, Frequency};
use engine_base::{Item, Phase};
use segments::MoveRecord;
use shell_model::{Change, EvictionRecord, ShellRecord, Task, UseRecord};
use std::alloc::AllocError;

impl ShellCore {
    /// Undoes the step that the record is of. Where it finds no memory, it hands the record back.
    pub(crate) fn undo(&mut self, made: ShellRecord) -> Result<(), ShellRecord>
        requires fits { FitsStep made self.old }
        requires left { IsLeft (before_change made.change self.old).holder }
        ensures ok { OnOk result (self.new ≡ undone_step made self.old) }
        ensures err { OnErr result (self.new ≡ self.old) }
        ensures returned { IfErr result (λ r. r ≡ made) }
        ensures asks { OnErr result (step_asks made) }
    {
        let ShellRecord { counted, change } = made;
        match self.undo_change(change) {
            Err(change) => Err(ShellRecord { counted, change }),
            Ok(()) => {
                self.stats.uncount(counted);
                self.applied -= 1;
                Ok(())
            }
        }
    }

    // What a step changed goes back. Only changes that undoing takes no memory for hold a list; so a change that is
    // refused can be handed back whole.
    fn undo_change(&mut self, change: Change) -> Result<(), Change>
        requires fits { FitsChange change self.old }
        requires left { IsLeft (before_change change self.old).holder }
        ensures ok { OnOk result (self.new ≡ before_change change self.old) }
        ensures err { IfErr result (λ c. (self.new ≡ self.old) × (c ≡ change) × change_asks change) }
    {
        match change {
            Change::Nothing => {}
            Change::Offered { stripe, item: _ } => self.stripes.unoffer(stripe),
            Change::Updated { item: _ } => self.writes.unpush(),
            Change::Added { item } => self.undo_added(item),
            Change::Removed { item } => {
                if self.table.place(item).is_err() {
                    return Err(Change::Removed { item });
                }
                self.writes.unpush();
            }
            Change::Requested { before, now: _ } => self.drain = before,
            Change::Began { worker: _, before } => {
                self.drain = before;
                self.holder = None;
            }
            Change::Read { stripe, item, used } => self.undo_read(stripe, item, used),
            Change::Passed { before, now: _ } => self.set_phase(before),
            Change::Applied {
                before,
                is_new,
                item,
                used,
            } => self.undo_applied(before, is_new, item, used),
            Change::Cleared { before, item, out } => {
                if self.undo_cleared(before, item, out).is_err() {
                    return Err(Change::Cleared { before, item, out });
                }
            }
            Change::Evicted { before, eviction } => {
                if self.undo_evicted(before, &eviction).is_err() {
                    return Err(Change::Evicted { before, eviction });
                }
            }
            Change::Ended {
                holder,
                before,
                now: _,
            } => {
                self.drain = before;
                self.holder = Some(holder);
            }
        }
        Ok(())
    }

    fn untouch(&mut self, used: UseRecord)
        requires { FitsTouched used self.old }
        ensures { self.new ≡ before_use used self.old }
    {
        let UseRecord { frequency, moves } = used;
        replacement::undo(&mut self.queues, moves);
        unrecord_key(&mut self.frequency, frequency);
    }

    // The phase as before, and a task more left.
    fn refill(&mut self, before: Phase)
        requires { HasLeft self.old.holder }
        ensures { self.new ≡ record self.old { holder = holder_with_task before self.old.holder } }
    {
        if let Some(holder) = &mut self.holder {
            holder.phase = before;
            holder.left += 1;
        }
    }

    fn undo_added(&mut self, item: Item)
        requires { FitsChange (Added item) self.old }
        ensures { self.new ≡ before_change (Added item) self.old }
    {
        self.writes.unpush();
        self.table.remove(item);
        self.next -= 1;
    }

    fn undo_read(&mut self, stripe: u8, item: Item, used: UseRecord)
        requires { FitsChange (Read stripe item used) self.old }
        ensures { self.new ≡ before_change (Read stripe item used) self.old }
    {
        self.untouch(used);
        self.stripes.untake(stripe, item);
    }

    fn undo_applied(&mut self, before: Phase, is_new: bool, item: Item, used: UseRecord)
        requires { FitsChange (Applied before is_new item used) self.old }
        ensures { self.new ≡ before_change (Applied before is_new item used) self.old }
    {
        self.untouch(used);
        self.writes.untake(written_task(is_new, item));
        self.refill(before);
    }

    fn undo_cleared(
        &mut self,
        before: Phase,
        item: Item,
        out: Option<MoveRecord>,
    ) -> Result<(), AllocError>
        requires { FitsChange (Cleared before item out) self.old }
        ensures ok { OnOk result (self.new ≡ before_change (Cleared before item out) self.old) }
        ensures err { OnErr result ((self.new ≡ self.old) × (out ≢ None)) }
    {
        if let Some(out) = out {
            self.queues.reserve()?;
            self.queues.put_back(out);
        }
        self.writes.untake(Task::Remove(item));
        self.refill(before);
        Ok(())
    }

    fn undo_evicted(&mut self, before: Phase, eviction: &EvictionRecord) -> Result<(), AllocError>
        requires { FitsChange (Evicted before eviction.now) self.old }
        ensures ok { OnOk result (self.new ≡ before_change (Evicted before eviction.now) self.old) }
        ensures err { OnErr result ((self.new ≡ self.old) × (leaver_in eviction.now.moves ≢ None)) }
    {
        if let Some(left) = eviction.moves.leaver() {
            self.queues.reserve()?;
            if eviction.listed {
                self.table.place(left.item)?;
            }
        }
        replacement::undo(&mut self.queues, eviction.moves);
        self.set_phase(before);
        Ok(())
    }
}

// The task of an item that was written, by whether it is new in the table.
fn written_task(is_new: bool, item: Item) -> Task
    ensures { result ≡ task_of is_new item }
{
    if is_new {
        Task::Add(item)
    } else {
        Task::Update(item)
    }
}

// Undoes the recording of a key.
fn unrecord_key(frequency: &mut Frequency, made: FreqRecord)
    requires { FitsFrequency made frequency.old }
    ensures { frequency.new ≡ frequency_unrecorded made frequency.old }
{
    frequency.unrecord(made);
}
