//! Queues of keys by number, and the calls that carry out one part of a plan.
ghost use Rattle.std.specs.Prelude.{◌≡◌, ◌≢◌, ◌<◌, ◌≤◌, ◌+◌, ◌++◌, ℕ, nat_lt, true, false, [], length, Ok, Option, Some, None, OnOk, OnErr, IfOk, IfSome, IfNone, Contains};
ghost use Rattle.queue_table.specs.Entries.{entry, items_of, occurrences, oldest_of};
ghost use Rattle.queue_table.specs.Queues.{QUEUES, empty_queues, queue_holding};
ghost use Rattle.queue_table.specs.QueueTable.{queues, spare, HoldsAt};
ghost use Rattle.queue_table.specs.Moves.{Entry, after_leaving, item_of, run, standing, turns_due, count_or, leaving, counts, goes};
ghost use Rattle.queue_table.specs.Undoing.{IsTurn, IsRun, IsLeft, IsOwn, outs, key_in};
ghost use Rattle.queue_table.specs.Tabled.{IsTabled, keys_of};

use crate::key_name::KeyName;
use crate::moves::{Change, Departure, KeyMove, Left, Run};
use crate::queue_table::{AHEAD, QueueTable, push_keys};
use crate::records::{Entry, Found};
use crate::slot::TableItem;
use engine_base::{Item, Key};
use std::alloc::{AllocError, Global};
use std::marker::Model;

// The least number of keys in the queues at which it is read ahead. Smaller queues stay in the processor's caches, where
// that costs more than it spares.
const AHEAD_FROM: usize = 65_536;

/// Queues by number, of distinct keys, oldest first, with a count beside each key.
#[derive(Drop)]
pub struct KeyQueues<K: KeyName = Key> {
    alloc: Global,
    pub(crate) table: QueueTable<K>,
    /// A sum over what `read_ahead` read, kept so that the compiler cannot drop the reads.
    read: u64,
}

impl<K: KeyName> Model for KeyQueues<K> {
    ghost use Rattle.std.specs.Prelude.{List};
    ghost use Rattle.queue_table.specs.QueueTable.{queues};
    ghost use Rattle.queue_table.specs.Tabled.{Slot, HasKeys};

    ghost Value = { List Slot };

    ghost view = { λ t. t.table };

    ghost invariant = { λ t. HasKeys (queues t.table) };
}

impl<K: KeyName> KeyQueues<K> {
    /// Empty queues, with no room yet. Allocates nothing. The first `reserve` makes a hash index that is large enough
    /// for so many keys, so that it is not rebuilt while the queues fill.
    #[inline(always)]
    pub fn for_items(alloc: Global, items: u32) -> KeyQueues<K>
        ensures { queues result ≡ empty_queues }
    {
        KeyQueues {
            alloc,
            table: QueueTable::for_items(alloc, items),
            read: 0,
        }
    }

    /// The same queues for keys of any width. The one error is that an allocation failed.
    pub fn widened(self) -> Result<KeyQueues, AllocError>
        ensures { IfOk result (λ wide. wide ≡ self) }
    {
        let table = self.table.widened(self.alloc)?;
        Ok(KeyQueues {
            alloc: self.alloc,
            table,
            read: self.read,
        })
    }

    /// What holds of any `KeyQueues`. This does nothing: its contract is the fact.
    #[inline(always)]
    pub fn tabled(&self)
        ensures { IsTabled (queues self.now) }
    {
        self.table.distinct();
    }

    /// How many keys stand in the queue.
    #[inline(always)]
    pub fn len(&self, queue: u8) -> usize
        requires { queue < QUEUES }
        ensures { result ≡ length (queues self.now queue) }
    {
        self.table.len(queue)
    }

    /// Makes room for at least one more key; where there is room, it allocates nothing and returns Ok. The one error
    /// is out of memory; queues and room are then as before.
    #[inline(always)]
    pub fn reserve(&mut self) -> Result<(), AllocError>
        ensures queues { queues self.new ≡ queues self.old }
        ensures room { OnOk result (1 ≤ spare self.new) }
        ensures enough { 1 ≤ spare self.old → result ≡ Ok tt }
        ensures spare { spare self.old ≤ spare self.new }
    {
        self.table.reserve(self.alloc)
    }

    /// Reads ahead, once for each few keys, what accesses to the keys from the one at `i` on read first, where the queues
    /// are larger than the processor's caches: to be called before each access of a loop over them. It changes nothing.
    #[inline(always)]
    pub fn prefetch_at(&mut self, keys: &[K], i: usize)
        requires { i ≤ length keys.now }
        ensures { self.new ≡ self.old }
    {
        if i % AHEAD == 0 && self.table.count() >= AHEAD_FROM {
            self.read_ahead(keys, i);
        }
    }

    #[inline(never)]
    fn read_ahead(&mut self, keys: &[K], i: usize)
        requires { i ≤ length keys.now }
        ensures { self.new ≡ self.old }
    {
        self.read ^= self.table.read_ahead(keys, i);
    }

    /// The slot of the key, with its queue and its count.
    #[inline(always)]
    pub fn find(&self, key: K) -> Option<Found>
        ensures at { IfSome result (λ f. HoldsAt f.at (entry (item_of (K.key key)) f.count) self.now) }
        ensures low { IfSome result (λ f. f.queue < QUEUES) }
        ensures stands { IfSome result (λ f. standing (item_of (K.key key)) (queues self.now) ≡ Some (f.queue, f.count)) }
        ensures absent { IfNone result (queue_holding (item_of (K.key key)) (queues self.now) ≡ None) }
    {
        let found = self.table.find(key.item())?;
        Some(found)
    }

    /// The oldest key of one queue goes to the recent end of another, or of the same, with its count lowered: again and
    /// again while its count is at least the given one, and at most so many times. It needs no room.
    #[inline(always)]
    pub fn run(&mut self, from: u8, to: u8, less: u8, least: u8, most: u32) -> Run
        requires from { from < QUEUES }
        requires to { to < QUEUES }
        requires least { 1 ≤ least }
        requires less { less ≤ least }
        ensures run { result ≡ run from to less (turns_due most from to less least (queues self.old)) }
        ensures made { IsRun result (queues self.old) (queues self.new) }
        ensures spare { spare self.new ≡ spare self.old }
        ensures others { (j : ℕ) (e : Entry) → HoldsAt j e self.old → occurrences e.item (queues self.old from) ≡ 0
            → HoldsAt j e self.new }
    {
        let mut times = 0;
        while times < most {
            if !self.turn(from, to, less, least) {
                break;
            }
            times += 1;
        }
        Run {
            times,
            from,
            to,
            less,
        }
    }

    // One turn, where the count of the oldest key is at least the given one; whether it is.
    #[inline(always)]
    fn turn(&mut self, from: u8, to: u8, less: u8, least: u8) -> bool
        requires from { from < QUEUES }
        requires to { to < QUEUES }
        requires least { 1 ≤ least }
        requires less { less ≤ least }
        ensures none { result ≡ false → nat_lt (count_or 0 (oldest_of (queues self.old from))) least ≡ true }
        ensures same { result ≡ false → self.new ≡ self.old }
        ensures some { result ≡ true → nat_lt (count_or 0 (oldest_of (queues self.old from))) least ≡ false }
        ensures turned { result ≡ true → IsTurn from to less (queues self.old) (queues self.new) }
        ensures spare { spare self.new ≡ spare self.old }
        ensures others { (j : ℕ) (e : Entry) → HoldsAt j e self.old → occurrences e.item (queues self.old from) ≡ 0
            → HoldsAt j e self.new × (occurrences e.item (queues self.new from) ≡ 0) }
    {
        self.table.distinct();
        let Some((at, oldest)) = self.table.oldest(from) else {
            return false;
        };
        if oldest.count < least {
            return false;
        }
        let _ = self.table.send(at, to, oldest.count - less);
        true
    }

    /// The oldest key of a queue, if it has one, goes to the recent end of another one. It needs no room.
    #[inline(always)]
    pub fn send_oldest(&mut self, from: u8, queue: u8, count: u8) -> Left
        requires from { from < QUEUES }
        requires queue { queue < QUEUES }
        ensures left { IsLeft (leaving from (Some (queue, count))) (queues self.old) (queues self.new) result }
        ensures stays { outs result.by ≡ 0 }
        ensures spare { spare self.new ≡ spare self.old }
        ensures others { (j : ℕ) (e : Entry) → HoldsAt j e self.old → occurrences e.item (queues self.old from) ≡ 0
            → HoldsAt j e self.new }
    {
        self.table.distinct();
        let Some((at, oldest)) = self.table.oldest(from) else {
            return Left::NONE;
        };
        let _ = self.table.send(at, queue, count);
        Left {
            key: oldest.item.key,
            count: oldest.count,
            queue: from,
            by: Departure::Sent,
        }
    }

    /// The oldest key of a queue, if it has one, goes out, and leaves room. It is a call, since most keys leave by
    /// `renew_oldest`: as a part of its callers it makes the steps of all policies too large to be part of their loops.
    #[inline(never)]
    pub fn drop_oldest(&mut self, from: u8) -> Left
        requires from { from < QUEUES }
        ensures left { IsLeft (leaving from None) (queues self.old) (queues self.new) result }
        ensures out { outs result.by ≤ 1 }
        ensures spare { spare self.new ≡ spare self.old + outs result.by }
        ensures others { (j : ℕ) (e : Entry) → HoldsAt j e self.old → occurrences e.item (queues self.old from) ≡ 0
            → HoldsAt j e self.new }
    {
        self.table.distinct();
        let Some((at, oldest)) = self.table.oldest(from) else {
            return Left::NONE;
        };
        let _ = self.table.remove(at);
        Left {
            key: oldest.item.key,
            count: oldest.count,
            queue: from,
            by: Departure::Out,
        }
    }

    /// Gives a key that was found another count, where it stands.
    #[inline(always)]
    pub fn recount(&mut self, key: K, found: Found, count: u8) -> KeyMove
        requires at { HoldsAt found.at (entry (item_of (K.key key)) found.count) self.old }
        ensures own { IsOwn (counts count) (item_of (K.key key)) (queues self.old) (queues self.new) result }
        ensures spare { spare self.new ≡ spare self.old }
    {
        self.table.distinct();
        self.table.set_count(found.at, count);
        KeyMove {
            key: key.key(),
            older: None,
            count: found.count,
            queue: 0,
            by: Change::Counted,
        }
    }

    /// Takes a key that was found to the recent end of a queue, with another count. It needs no room.
    #[inline(always)]
    pub fn send(&mut self, key: K, found: Found, queue: u8, count: u8) -> KeyMove
        requires queue { queue < QUEUES }
        requires at { HoldsAt found.at (entry (item_of (K.key key)) found.count) self.old }
        ensures own { IsOwn (goes queue count) (item_of (K.key key)) (queues self.old) (queues self.new) result }
        ensures spare { spare self.new ≡ spare self.old }
    {
        self.table.distinct();
        let place = self.table.send(found.at, queue, count);
        KeyMove {
            key: key.key(),
            older: key_in(place.older),
            count: found.count,
            queue: place.queue,
            by: Change::Moved,
        }
    }

    /// Puts a key that stands nowhere at the recent end of a queue. It takes room for one.
    #[inline(always)]
    pub fn join(&mut self, key: K, queue: u8, count: u8) -> KeyMove
        requires queue { queue < QUEUES }
        requires room { 1 ≤ spare self.old }
        requires absent { queue_holding (item_of (K.key key)) (queues self.old) ≡ None }
        ensures own { IsOwn (goes queue count) (item_of (K.key key)) (queues self.old) (queues self.new) result }
        ensures spare { spare self.new + 1 ≡ spare self.old }
    {
        self.table.push(queue, key, count);
        KeyMove {
            key: key.key(),
            older: None,
            count: 0,
            queue: 0,
            by: Change::Joined,
        }
    }

    /// The oldest key of a queue, if it has one, goes out, and a key that stands nowhere joins the recent end of a queue,
    /// in its slot. It takes room for one where none goes out.
    #[inline(always)]
    pub fn renew_oldest(&mut self, from: u8, key: K, queue: u8, count: u8) -> (Left, KeyMove)
        requires from { from < QUEUES }
        requires queue { queue < QUEUES }
        requires room { 1 ≤ spare self.old }
        requires absent { queue_holding (item_of (K.key key)) (queues self.old) ≡ None }
        ensures left { IsLeft (leaving from None) (queues self.old) (after_leaving (leaving from None) (queues self.old))
            result.0 }
        ensures out { outs result.0.by ≤ 1 }
        ensures own { IsOwn (goes queue count) (item_of (K.key key)) (after_leaving (leaving from None) (queues self.old))
            (queues self.new) result.1 }
    {
        self.table.distinct();
        let Some((at, oldest)) = self.table.oldest(from) else {
            return (Left::NONE, self.join_apart(key, queue, count));
        };
        let _ = self.table.renew(at, queue, key, count);
        let left = Left {
            key: oldest.item.key,
            count: oldest.count,
            queue: from,
            by: Departure::Out,
        };
        let own = KeyMove {
            key: key.key(),
            older: None,
            count: 0,
            queue: 0,
            by: Change::Joined,
        };
        (left, own)
    }

    /// `join` as a call, where a key that comes finds room: that ends once a cache is full, and callers stay small.
    #[inline(never)]
    pub fn join_apart(&mut self, key: K, queue: u8, count: u8) -> KeyMove
        requires queue { queue < QUEUES }
        requires room { 1 ≤ spare self.old }
        requires absent { queue_holding (item_of (K.key key)) (queues self.old) ≡ None }
        ensures own { IsOwn (goes queue count) (item_of (K.key key)) (queues self.old) (queues self.new) result }
        ensures spare { spare self.new + 1 ≡ spare self.old }
    {
        self.join(key, queue, count)
    }

    /// The keys of a queue, oldest first, with their counts. The one error is that an allocation failed.
    pub fn entries(&self, queue: u8) -> Result<Vec<Entry>, AllocError>
        requires { queue < QUEUES }
        ensures { IfOk result (λ entries. entries.items ≡ queues self.now queue) }
    {
        let items = self.table.list(self.alloc, queue)?;
        let mut entries = Vec::new(self.alloc);
        push_entries(&mut entries, &self.table, &items)?;
        Ok(entries)
    }

    /// Appends the keys of a queue to others, oldest first. The one error is that an allocation failed; some keys may be
    /// appended then.
    pub fn add_keys(&self, queue: u8, keys: &mut Vec<Key>) -> Result<(), AllocError>
        requires { queue < QUEUES }
        ensures { OnOk result (keys.new.items ≡ keys.old.items ++ keys_of (queues self.now queue)) }
    {
        let items = self.table.list(self.alloc, queue)?;
        push_keys(keys, &items)
    }
}

// Appends the items of a queue with the counts beside them.
fn push_entries<K: KeyName>(
    entries: &mut Vec<Entry>,
    table: &QueueTable<K>,
    items: &[Item],
) -> Result<(), AllocError>
    ensures { (q : ℕ) → q < QUEUES → items.now ≡ items_of (queues table.now q)
        → OnOk result (entries.new.items ≡ entries.old.items ++ queues table.now q) }
{
    for item in items {
        let count = count_beside(table, *item);
        entries.push(Entry { item: *item, count })?;
    }
    Ok(())
}

// The count beside an item, where it stands in a queue.
fn count_beside<K: KeyName>(table: &QueueTable<K>, item: Item) -> u8
    ensures { (q n : ℕ) → q < QUEUES → Contains (queues table.now q) (entry item n) → result ≡ n }
{
    match table.find(item) {
        Some(found) => found.count,
        None => 0,
    }
}

// The key of a neighbour.
#[inline(always)]
fn key_in(neighbour: Option<Item>) -> Option<Key>
    ensures { result ≡ key_in neighbour }
{
    let item = neighbour?;
    Some(item.key)
}
