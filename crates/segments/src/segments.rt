//! The queues, over a table of queues by number.
ghost use Rattle.std.specs.Prelude.{◌≡◌, ◌≢◌, ◌↔◌, ◌+◌, ◌≤◌, Ok, [], length, Option, Some, None, MatchOption};
ghost use Rattle.std.specs.Prelude.{IfOk, OnOk, IfSome, IfNone};
ghost use Rattle.segments.specs.Items.{oldest_of, last_item};
ghost use Rattle.segments.specs.Queues.{empty_queues, queue_of, queue_holding, IsDistinct, queues_after_push, queues_without, queues_after_move, queues_after_pop};
ghost use Rattle.segments.specs.Queues.{queue_after_access, total_items, residents_in};
ghost use Rattle.segments.specs.Moves.{IsMoveRecord, FitsMove, queues_before_move, room_needed};
ghost use Rattle.segments.specs.Runs.{queues_after_run, queues_before_run};

use crate::names::{name, number, queue_place, table_place};
use crate::records::{MoveRecord, Queue, QueuePlace};
use engine_base::{Item, Key};
use queue_table::{QueueTable, push_keys};
use std::alloc::{AllocError, Global};
use std::marker::Model;

/// Three queues of items, each of which stands once, oldest first.
#[derive(Drop)]
pub struct Segments {
    alloc: Global,
    table: QueueTable,
    /// A sum over what `read_ahead` read, kept so that the compiler cannot drop the reads.
    read: u64,
}

impl Model for Segments {
    ghost use Rattle.queue_table.specs.QueueTable.{queues, spare};
    ghost use Rattle.segments.specs.Queues.{Shown};
    ghost use Rattle.segments.specs.Names.{shown_of, IsNamed};

    ghost Value = { Shown };

    ghost view = { λ s. shown_of (queues s.table) (spare s.table) };

    ghost invariant = { λ s. IsNamed (queues s.table) };
}

// The queue to which an item goes on a hit where it stands.
#[inline(always)]
fn queue_after_hit(queue: Queue) -> Queue
    ensures { result ≡ queue_after_access queue }
{
    match queue {
        Queue::Window => Queue::Window,
        Queue::Probation | Queue::Protected => Queue::Protected,
    }
}

impl Segments {
    /// Three empty queues, with no room yet. Allocates nothing.
    pub fn new(alloc: Global) -> Segments
        ensures lists { result.lists ≡ empty_queues }
        ensures distinct { IsDistinct result.lists }
    {
        Segments::for_items(alloc, 0)
    }

    /// Three empty queues, with no room yet. Allocates nothing. The first `reserve` makes a hash index that is large
    /// enough for so many items, so that it is not rebuilt while the queues fill.
    pub fn for_items(alloc: Global, items: u32) -> Segments
        ensures lists { result.lists ≡ empty_queues }
        ensures distinct { IsDistinct result.lists }
    {
        Segments {
            alloc,
            table: QueueTable::for_items(alloc, items),
            read: 0,
        }
    }

    /// Reads ahead what searches for the next few keys from the one at `i` on, with node 0, read first. It changes nothing.
    #[inline(never)]
    pub fn read_ahead(&mut self, keys: &[Key], i: usize)
        requires { i ≤ length keys.now }
        ensures { self.new ≡ self.old }
    {
        self.read ^= self.table.read_ahead(keys, i);
    }

    /// Makes room for at least one more item; where there is room, it allocates nothing and returns Ok. The one error
    /// is out of memory; queues and room are then as before.
    #[inline(always)]
    pub fn reserve(&mut self) -> Result<(), AllocError>
        ensures lists { self.new.lists ≡ self.old.lists }
        ensures room { OnOk result (1 ≤ self.new.spare) }
        ensures enough { 1 ≤ self.old.spare → result ≡ Ok tt }
        ensures spare { self.old.spare ≤ self.new.spare }
    {
        self.table.reserve(self.alloc)
    }

    /// For how many more items there is room.
    pub fn spare(&self) -> usize
        ensures { result ≡ self.now.spare }
    {
        self.table.spare()
    }

    /// Puts an item that stands in no queue at the recent end of one. It requires room, and takes room for one.
    #[inline(always)]
    pub fn push_recent(&mut self, queue: Queue, item: Item) -> MoveRecord
        requires room { 1 ≤ self.old.spare }
        requires absent { queue_holding item self.old.lists ≡ None }
        ensures lists { self.new.lists ≡ queues_after_push queue item self.old.lists }
        ensures record { IsMoveRecord item (Some queue) self.old.lists self.new.lists result }
        ensures spare { self.old.spare ≤ self.new.spare + 1 }
    {
        self.table.push(number(queue), item, 0);
        MoveRecord {
            item,
            from: None,
            to: Some(queue),
        }
    }

    /// Takes the item from where it stands to the recent end of a queue. `None`, and nothing moved, where it stands in
    /// no queue.
    pub fn move_recent(&mut self, item: Item, queue: Queue) -> Option<MoveRecord>
        ensures absent { result ≡ None ↔ queue_holding item self.old.lists ≡ None }
        ensures lists { IfSome result (λ _. self.new.lists ≡ queues_after_move item queue self.old.lists) }
        ensures none { IfNone result (self.new.lists ≡ self.old.lists) }
        ensures record { IfSome result (λ r. IsMoveRecord item (Some queue) self.old.lists self.new.lists r) }
        ensures spare { self.old.spare ≤ self.new.spare }
    {
        let Some(found) = self.table.find(item) else {
            return None;
        };
        let place = self.table.send(found.at, number(queue), 0);
        Some(MoveRecord {
            item,
            from: Some(queue_place(place)),
            to: Some(queue),
        })
    }

    /// Moves the item to the recent end of the queue that it goes to on a hit: of the window if it stands there, else
    /// of protected. Returns where it stood, and the record of the move. `None`, and nothing moved, if it stands in no
    /// queue. Looks the item up once.
    #[inline(always)]
    pub fn refresh(&mut self, item: Item) -> Option<(Queue, MoveRecord)>
        ensures absent { result ≡ None ↔ queue_holding item self.old.lists ≡ None }
        ensures place { IfSome result (λ r. queue_holding item self.old.lists ≡ Some r.0) }
        ensures lists { IfSome result (λ r. self.new.lists ≡ queues_after_move item (queue_after_access r.0) self.old.lists) }
        ensures none { IfNone result (self.new.lists ≡ self.old.lists) }
        ensures record { IfSome result (λ r.
            IsMoveRecord item (Some (queue_after_access r.0)) self.old.lists self.new.lists r.1) }
        ensures spare { self.old.spare ≤ self.new.spare }
        // Of every `Segments`: no item stands twice.
        ensures distinct { IsDistinct self.old.lists }
    {
        let Some(found) = self.table.find(item) else {
            return None;
        };
        let from = name(found.queue);
        let to = queue_after_hit(from);
        let place = self.table.send(found.at, number(to), 0);
        let record = MoveRecord {
            item,
            from: Some(queue_place(place)),
            to: Some(to),
        };
        Some((from, record))
    }

    /// Takes the oldest item of the queue out. `None`, and nothing moved, where the queue is empty.
    #[inline(always)]
    pub fn pop_oldest(&mut self, queue: Queue) -> Option<(Item, MoveRecord)>
        ensures item { MatchOption result (queue_of queue self.old.lists ≡ [])
            (λ r. oldest_of (queue_of queue self.old.lists) ≡ Some r.0) }
        ensures lists { self.new.lists ≡ queues_after_pop queue self.old.lists }
        ensures none { IfNone result (self.new.lists ≡ self.old.lists) }
        ensures record { IfSome result (λ r. IsMoveRecord r.0 None self.old.lists self.new.lists r.1) }
        ensures spare { self.old.spare ≤ self.new.spare }
        ensures gained { IfSome result (λ _. self.old.spare + 1 ≤ self.new.spare) }
    {
        self.table.distinct();
        let Some((at, oldest)) = self.table.oldest(number(queue)) else {
            return None;
        };
        let place = self.table.remove(at);
        let record = MoveRecord {
            item: oldest.item,
            from: Some(queue_place(place)),
            to: None,
        };
        Some((oldest.item, record))
    }

    /// Takes the oldest item of the queue out, and puts one that stands in no queue at its recent end. Returns the
    /// records of both moves, in this order; `None`, and nothing moved, where the queue is empty. Takes no room.
    #[inline(always)]
    pub fn renew_oldest(&mut self, queue: Queue, item: Item) -> Option<(MoveRecord, MoveRecord)>
        requires absent { queue_holding item self.old.lists ≡ None }
        ensures item { MatchOption result (queue_of queue self.old.lists ≡ [])
            (λ r. oldest_of (queue_of queue self.old.lists) ≡ Some r.0.item) }
        ensures lists { IfSome result (λ _. self.new.lists ≡ queues_after_push queue item (queues_after_pop queue self.old.lists)) }
        ensures none { IfNone result (self.new.lists ≡ self.old.lists) }
        ensures out { IfSome result (λ r.
            IsMoveRecord r.0.item None self.old.lists (queues_after_pop queue self.old.lists) r.0) }
        ensures put { IfSome result (λ r.
            IsMoveRecord item (Some queue) (queues_after_pop queue self.old.lists) self.new.lists r.1) }
        ensures spare { self.old.spare ≤ self.new.spare }
    {
        self.table.distinct();
        let Some((at, oldest)) = self.table.oldest(number(queue)) else {
            return None;
        };
        let place = self.table.renew(at, number(queue), item, 0);
        let out = MoveRecord {
            item: oldest.item,
            from: Some(queue_place(place)),
            to: None,
        };
        let put = MoveRecord {
            item,
            from: None,
            to: Some(queue),
        };
        Some((out, put))
    }

    /// The oldest item of the queue, `None` if it is empty.
    #[inline(always)]
    pub fn oldest(&self, queue: Queue) -> Option<Item>
        ensures { result ≡ oldest_of (queue_of queue self.now.lists) }
    {
        let (_, oldest) = self.table.oldest(number(queue))?;
        Some(oldest.item)
    }

    /// The newest item of the queue, `None` if it is empty.
    pub fn newest(&self, queue: Queue) -> Option<Item>
        ensures { result ≡ last_item (queue_of queue self.now.lists) }
    {
        let (_, newest) = self.table.newest(number(queue))?;
        Some(newest.item)
    }

    /// Moves the oldest item of a queue to the recent end of a queue. `None`, and nothing moved, if the first queue is
    /// empty. Does not search the hash index.
    #[inline(always)]
    pub fn send_oldest(&mut self, from: Queue, to: Queue) -> Option<MoveRecord>
        ensures item { MatchOption result (queue_of from self.old.lists ≡ [])
            (λ r. oldest_of (queue_of from self.old.lists) ≡ Some r.item) }
        ensures lists { IfSome result (λ r. self.new.lists ≡ queues_after_move r.item to self.old.lists) }
        ensures none { IfNone result (self.new.lists ≡ self.old.lists) }
        ensures record { IfSome result (λ r. IsMoveRecord r.item (Some to) self.old.lists self.new.lists r) }
        ensures spare { self.old.spare ≤ self.new.spare }
    {
        self.table.distinct();
        let Some((at, oldest)) = self.table.oldest(number(from)) else {
            return None;
        };
        let place = self.table.send(at, number(to), 0);
        Some(MoveRecord {
            item: oldest.item,
            from: Some(queue_place(place)),
            to: Some(to),
        })
    }

    /// Moves so many items of a queue, the oldest first, to the recent end of another one: all of them where it holds
    /// fewer. Does not search the hash index.
    pub fn send_times(&mut self, from: Queue, to: Queue, times: u32)
        requires { from ≢ to }
        ensures lists { self.new.lists ≡ queues_after_run times from to self.old.lists }
        ensures undone { times ≤ length (queue_of from self.old.lists)
            → queues_before_run times from to self.new.lists ≡ self.old.lists }
        ensures spare { self.old.spare ≤ self.new.spare }
    {
        for _turn in 0..times {
            self.distinct();
            let _ = self.send_oldest(from, to);
        }
    }

    /// Undoes `send_times`: so many items of the queue to which they went, the newest first, go back to the old end of
    /// the other one.
    pub fn return_times(&mut self, from: Queue, to: Queue, times: u32)
        requires { from ≢ to }
        ensures lists { self.new.lists ≡ queues_before_run times from to self.old.lists }
        ensures spare { self.old.spare ≤ self.new.spare }
    {
        for _turn in 0..times {
            self.distinct();
            if let Some(item) = self.newest(to) {
                let place = QueuePlace {
                    queue: from,
                    older: None,
                };
                self.put_back(MoveRecord {
                    item,
                    from: Some(place),
                    to: Some(to),
                });
            }
        }
    }

    // No item stands twice. This does nothing: its contract is the fact.
    fn distinct(&self)
        ensures { IsDistinct self.now.lists }
    {
        self.table.distinct();
    }

    /// Takes the item out. `None`, and nothing moved, where it stands in no queue.
    pub fn take_out(&mut self, item: Item) -> Option<MoveRecord>
        ensures absent { result ≡ None ↔ queue_holding item self.old.lists ≡ None }
        ensures lists { self.new.lists ≡ queues_without item self.old.lists }
        ensures none { IfNone result (self.new.lists ≡ self.old.lists) }
        ensures record { IfSome result (λ r. IsMoveRecord item None self.old.lists self.new.lists r) }
        ensures spare { self.old.spare ≤ self.new.spare }
        ensures gained { IfSome result (λ _. self.old.spare + 1 ≤ self.new.spare) }
    {
        let found = self.table.find(item)?;
        let place = self.table.remove(found.at);
        Some(MoveRecord {
            item,
            from: Some(queue_place(place)),
            to: None,
        })
    }

    /// Undoes a move from its record, which must fit the queues as they stand. If the item went out, it requires
    /// room for it.
    pub fn put_back(&mut self, done: MoveRecord)
        requires fits { FitsMove done self.old.lists }
        requires room { room_needed done.to ≤ self.old.spare }
        ensures lists { self.new.lists ≡ queues_before_move done self.old.lists }
        ensures spare { self.old.spare ≤ self.new.spare + room_needed done.to }
    {
        let Some(place) = done.from else {
            let _ = self.take_out(done.item);
            return;
        };
        self.table.distinct();
        self.table.put_back(table_place(place), done.item, 0);
    }

    /// A copy of the queue's items, oldest first.
    pub fn list(&self, alloc: Global, queue: Queue) -> Result<Vec<Item>, AllocError>
        ensures { IfOk result (λ items. items.items ≡ queue_of queue self.now.lists) }
    {
        self.table.list(alloc, number(queue))
    }

    /// The keys of the window, of probation and of protected in that order, oldest first. The one error is that an
    /// allocation failed.
    pub fn keys(&self, alloc: Global) -> Result<Vec<Key>, AllocError>
        ensures { IfOk result (λ keys. keys.items ≡ residents_in self.now.lists) }
    {
        let mut keys = Vec::new(alloc);
        push_keys(&mut keys, &self.list(alloc, Queue::Window)?)?;
        push_keys(&mut keys, &self.list(alloc, Queue::Probation)?)?;
        push_keys(&mut keys, &self.list(alloc, Queue::Protected)?)?;
        Ok(keys)
    }

    /// How many items stand in the queue.
    #[inline(always)]
    pub fn len(&self, queue: Queue) -> usize
        ensures { result ≡ length (queue_of queue self.now.lists) }
    {
        self.table.len(number(queue))
    }

    /// How many items stand in the queues.
    #[inline(always)]
    pub fn count(&self) -> usize
        ensures { result ≡ total_items self.now.lists }
    {
        self.table.count()
    }

    /// The queue in which the item stands.
    pub fn find(&self, item: Item) -> Option<Queue>
        ensures queue { result ≡ queue_holding item self.now.lists }
        // Of every `Segments`: no item stands twice.
        ensures distinct { IsDistinct self.now.lists }
    {
        let found = self.table.find(item)?;
        Some(name(found.queue))
    }
}
