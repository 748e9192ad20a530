//! The accessed key of a miss, which goes to a queue from where it was found, or from nowhere.
ghost use Rattle.std.specs.Prelude.{◌≡◌, ◌<◌, ◌≤◌, ◌||◌, nat_lt, false, length, None};
ghost use Rattle.queue_table.specs.Entries.{occurrences};
ghost use Rattle.queue_table.specs.Queues.{QUEUES};
ghost use Rattle.queue_table.specs.QueueTable.{queues};
ghost use Rattle.queue_table.specs.Moves.{item_of, leaving, after_leaving, goes};
ghost use Rattle.queue_table.specs.Undoing.{IsLeft, IsOwn, outs};
ghost use Rattle.policy_pages.specs.Leavers.{leavers_for_ghost, IsEntered};
ghost use Rattle.policy_pages.specs.MissedKey.{CanEnter};

use crate::accesses::LeftKeys;
use queue_table::{Found, KeyMove, KeyName, KeyQueues, Left};

/// The key goes to the recent end of a queue. One that stands nowhere takes room.
///
/// `C` selects an instance (docs/ARCHITECTURE.md).
#[inline(always)]
pub fn enter<C, K: KeyName>(
    table: &mut KeyQueues<K>,
    key: K,
    found: Option<Found>,
    queue: u8,
) -> KeyMove
    requires queue { queue < QUEUES }
    requires enters { CanEnter found (item_of (K.key key)) table.old }
    ensures { IsOwn (goes queue 0) (item_of (K.key key)) (queues table.old) (queues table.new) result }
{
    match found {
        Some(found) => table.send(key, found, queue, 0),
        None => table.join(key, queue, 0),
    }
}

/// The same as a call, where the key finds room in the cache: that ends once it is full, and callers stay small.
#[inline(never)]
pub fn enter_apart<K: KeyName>(
    table: &mut KeyQueues<K>,
    key: K,
    found: Option<Found>,
    queue: u8,
) -> KeyMove
    requires queue { queue < QUEUES }
    requires enters { CanEnter found (item_of (K.key key)) table.old }
    ensures { IsOwn (goes queue 0) (item_of (K.key key)) (queues table.old) (queues table.new) result }
{
    enter::<Apart, K>(table, key, found, queue)
}

// Selects the instance of `enter` in `enter_apart`.
struct Apart;

/// The oldest key of a queue goes out, if it has one, and the accessed key, which is not in it, to the recent end of a
/// queue. One that stands nowhere takes the slot of the key that goes.
#[inline(always)]
pub fn enter_for_oldest<C, K: KeyName>(
    table: &mut KeyQueues<K>,
    from: u8,
    key: K,
    found: Option<Found>,
    queue: u8,
) -> (Left, KeyMove)
    requires from { from < QUEUES }
    requires queue { queue < QUEUES }
    requires enters { CanEnter found (item_of (K.key key)) table.old }
    requires off { occurrences (item_of (K.key key)) (queues table.old from) ≡ 0 }
    ensures left { IsLeft (leaving from None) (queues table.old) (after_leaving (leaving from None) (queues table.old))
        result.0 }
    ensures out { outs result.0.by ≤ 1 }
    ensures own { IsOwn (goes queue 0) (item_of (K.key key)) (after_leaving (leaving from None) (queues table.old))
        (queues table.new) result.1 }
{
    match found {
        Some(found) => {
            let left = table.drop_oldest(from);
            let own = table.send(key, found, queue, 0);
            (left, own)
        }
        None => table.renew_oldest(from, key, queue, 0),
    }
}

/// The oldest key of a queue, which the accessed one does not stand in, leaves for a ghost of the given size, and the
/// accessed key goes to the recent end of a queue. Where the ghost does not remember that, it may forget its oldest.
#[inline(always)]
pub fn enter_for_remembered<C, K: KeyName>(
    table: &mut KeyQueues<K>,
    from: u8,
    into: u8,
    size: u32,
    key: K,
    found: Option<Found>,
    remembered: bool,
    queue: u8,
) -> (LeftKeys, KeyMove)
    requires from { from < QUEUES }
    requires into { into < QUEUES }
    requires queue { queue < QUEUES }
    requires enters { CanEnter found (item_of (K.key key)) table.old }
    requires off { occurrences (item_of (K.key key)) (queues table.old from) ≡ 0 }
    requires new { remembered ≡ false → occurrences (item_of (K.key key)) (queues table.old into) ≡ 0 }
    ensures { IsEntered (leavers_for_ghost from into size remembered (queues table.old)) (goes queue 0)
        (item_of (K.key key)) (queues table.old) (queues table.new) result.0 result.1 }
{
    let keeps = ghost_keeps(table, into, size, remembered);
    let first = table.send_oldest(from, into, 0);
    if keeps {
        let own = enter::<C, K>(table, key, found, queue);
        return (LeftKeys::one(first), own);
    }
    let (second, own) = enter_for_oldest::<C, K>(table, into, key, found, queue);
    (LeftKeys { first, second }, own)
}

// Whether a ghost keeps its keys where one more joins it: the accessed key leaves it, or there is room.
fn ghost_keeps<K: KeyName>(table: &KeyQueues<K>, into: u8, size: u32, remembered: bool) -> bool
    requires { into < QUEUES }
    ensures { result ≡ (remembered || nat_lt (length (queues table.now into)) size) }
{
    remembered || table.len(into) < size as usize
}
