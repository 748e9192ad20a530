//! Undoing an access, by its record alone.
ghost use Rattle.std.specs.Prelude.{◌≡◌, ◌≢◌, ◌<◌, ◌≤◌, ◌+◌, cond, None, OnOk, OnErr};
ghost use Rattle.queue_table.specs.Queues.{QUEUES, queue_holding, after_removal, after_return, after_count};
ghost use Rattle.queue_table.specs.Entries.{entry, newest_of, IsGap};
ghost use Rattle.queue_table.specs.QueueTable.{queues, spare};
ghost use Rattle.queue_table.specs.Moves.{item_of};
ghost use Rattle.queue_table.specs.Undoing.{FitsMoves, FitsOwn, FitsLeft, FitsRun, MovesAsk, HasCountLeft, before_all};
ghost use Rattle.queue_table.specs.Undoing.{before_own, before_leaving, before_run, before_turn, outs, joins};
ghost use Rattle.queue_table.specs.Undoing.{item_in};

use crate::key_queues::KeyQueues;
use crate::moves::{Change, Departure, KeyMove, Left, Moves, Run};
use crate::records::Place;
use engine_base::{Item, Key};
use std::alloc::AllocError;

impl KeyQueues {
    /// Undoes the last access, by its record. The one error is out of memory; the queues are then as before.
    pub fn undo(&mut self, done: Moves) -> Result<(), AllocError>
        requires { FitsMoves done (queues self.old) }
        ensures ok { OnOk result (queues self.new ≡ before_all done (queues self.old)) }
        ensures err { OnErr result (queues self.new ≡ queues self.old) }
        // Only a key that comes back from nowhere asks for room, where the accessed key leaves none.
        ensures asks { OnErr result (MovesAsk done) }
    {
        if !is_joined(done.own.by) && (is_out(done.first.by) || is_out(done.second.by)) {
            self.reserve()?;
        }
        self.undo_own(done.own);
        self.undo_left(done.second);
        self.undo_left(done.first);
        self.undo_run(done.late);
        self.undo_run(done.early);
        Ok(())
    }

    // The accessed key stands where it stood.
    fn undo_own(&mut self, done: KeyMove)
        requires { FitsOwn done (queues self.old) }
        ensures queues { queues self.new ≡ before_own done (queues self.old) }
        ensures spare { spare self.old + joins done.by ≤ spare self.new }
    {
        match done.by {
            Change::Unmoved => {}
            Change::Counted => self.count_back(done.key, done.count),
            Change::Joined => self.take_out(done.key),
            Change::Moved => self.put_back(done.queue, done.older, done.key, done.count),
        }
    }

    // The key that left stands at the old end of its queue again.
    fn undo_left(&mut self, done: Left)
        requires fits { FitsLeft done (queues self.old) }
        requires room { outs done.by ≤ spare self.old }
        ensures queues { queues self.new ≡ before_leaving done (queues self.old) }
        ensures spare { spare self.old ≤ spare self.new + outs done.by }
    {
        match done.by {
            Departure::Stayed => {}
            Departure::Sent => self.put_back(done.queue, None, done.key, done.count),
            Departure::Out => self.put_back(done.queue, None, done.key, done.count),
        }
    }

    // The keys that turned go back, the last one first.
    fn undo_run(&mut self, done: Run)
        requires { FitsRun done (queues self.old) }
        ensures { queues self.new ≡ before_run done (queues self.old) }
    {
        for _turn in 0..done.times {
            self.undo_turn(done.from, done.to, done.less);
        }
    }

    fn undo_turn(&mut self, from: u8, to: u8, less: u8)
        requires from { from < QUEUES }
        requires to { to < QUEUES }
        requires count { HasCountLeft less (newest_of (queues self.old to)) }
        ensures { queues self.new ≡ before_turn from to less (queues self.old) }
    {
        self.table.distinct();
        let Some((at, newest)) = self.table.newest(to) else {
            return;
        };
        let place = Place {
            queue: from,
            older: None,
        };
        self.table.send_to(at, place, newest.count + less);
    }

    // Takes a key back to its place, from where it stands, or from nowhere.
    fn put_back(&mut self, queue: u8, older: Option<Key>, key: Key, count: u8)
        requires queue { queue < QUEUES }
        requires room { queue_holding (item_of key) (queues self.old) ≡ None → 1 ≤ spare self.old }
        requires gap { IsGap (item_in older) (after_removal (item_of key) (queues self.old) queue) }
        ensures queues { queues self.new ≡ after_return queue (item_in older) (entry (item_of key) count)
            (after_removal (item_of key) (queues self.old)) }
        ensures spare { spare self.old ≤ spare self.new + 1 }
        ensures stood { queue_holding (item_of key) (queues self.old) ≢ None → spare self.old ≤ spare self.new }
    {
        let place = Place {
            queue,
            older: item_in(older),
        };
        self.table.put_back(place, key, count);
    }

    // Takes a key out, wherever it stands.
    fn take_out(&mut self, key: Key)
        requires { queue_holding (item_of key) (queues self.old) ≢ None }
        ensures queues { queues self.new ≡ after_removal (item_of key) (queues self.old) }
        ensures spare { spare self.old + 1 ≤ spare self.new }
    {
        match self.table.find(Item { key, node: 0 }) {
            Some(found) => {
                let _ = self.table.remove(found.at);
            }
            None => unreachable!(),
        }
    }

    // Gives a key another count, where it stands.
    fn count_back(&mut self, key: Key, count: u8)
        ensures queues { queues self.new ≡ after_count (item_of key) count (queues self.old) }
        ensures spare { spare self.new ≡ spare self.old }
    {
        match self.table.find(Item { key, node: 0 }) {
            Some(found) => self.table.set_count(found.at, count),
            None => {}
        }
    }
}

fn is_out(by: Departure) -> bool
    ensures { outs by ≡ cond result 1 0 }
{
    match by {
        Departure::Stayed => false,
        Departure::Sent => false,
        Departure::Out => true,
    }
}

fn is_joined(by: Change) -> bool
    ensures { joins by ≡ cond result 1 0 }
{
    match by {
        Change::Unmoved => false,
        Change::Counted => false,
        Change::Joined => true,
        Change::Moved => false,
    }
}

// The item of a neighbour.
fn item_in(neighbour: Option<Key>) -> Option<Item>
    ensures { result ≡ item_in neighbour }
{
    let key = neighbour?;
    Some(Item { key, node: 0 })
}
