//! Accesses of a policy that keeps each missed key, from the parts of their plans that were carried out.
ghost use Rattle.std.specs.Prelude.{◌≡◌, ◌≤◌, ℕ, Option, true, false};
ghost use Rattle.queue_table.specs.Queues.{Item, Queues};
ghost use Rattle.queue_table.specs.Moves.{Leaving, Own, own_plan};
ghost use Rattle.queue_table.specs.Undoing.{IsRun, IsLeft, IsOwn, IsAccessed, outs};
ghost use Rattle.policy_pages.specs.Leavers.{Leavers, one_leaver, AreLeft};
ghost use Rattle.policy_pages.specs.Plans.{Run, run_plan, miss_plan, leaver_plan};

use engine_base::Outcome;
use queue_table::{Accessed, KeyMove, Left, Moves, Run};

/// A hit.
#[inline(always)]
pub fn hit(own: KeyMove, own_number: u32) -> Accessed
    ensures { (o : Own) (i : Item) (s u : Queues) → IsOwn o i s u own
        → IsAccessed (own_plan true o own_number) i own_number s u result }
{
    Accessed {
        outcome: Outcome::Hit,
        own_number,
        moves: Moves::of_key(own, own_number),
    }
}

/// A miss for which there was room.
#[inline(always)]
pub fn kept(own: KeyMove, own_number: u32) -> Accessed
    ensures { (o : Own) (i : Item) (s u : Queues) → IsOwn o i s u own
        → IsAccessed (own_plan false o own_number) i own_number s u result }
{
    Accessed {
        outcome: Outcome::Kept,
        own_number,
        moves: Moves::of_key(own, own_number),
    }
}

/// A miss at which a key left, after two runs, from the policy's own number before it and after it.
#[inline(always)]
pub fn evicted(
    early: Run,
    late: Run,
    first: Left,
    own: KeyMove,
    old_number: u32,
    new_number: u32,
) -> Accessed
    ensures { (e l : Run) (f : Option Leaving) (o : Own) (i : Item) (s a b c u : Queues) → early ≡ e → late ≡ l
        → IsRun early s a → IsRun late a b → IsLeft f b c first → outs first.by ≤ 1 → IsOwn o i c u own
        → IsAccessed (leaver_plan e l f o new_number) i old_number s u result }
{
    let left = LeftKeys::one(first);
    miss_after_runs(early, late, left, own, old_number, new_number)
}

/// The keys that left their queues at a miss, in turn.
#[derive(Clone, Copy)]
pub struct LeftKeys {
    /// The first.
    pub first: Left,
    /// The next.
    pub second: Left,
}

impl LeftKeys {
    /// None left.
    pub const NONE: LeftKeys = LeftKeys {
        first: Left::NONE,
        second: Left::NONE,
    };

    /// One alone left, or none.
    #[inline(always)]
    pub fn one(first: Left) -> LeftKeys
        ensures { (l : Option Leaving) (s u : Queues) → IsLeft l s u first → outs first.by ≤ 1
            → AreLeft (one_leaver l) s u result }
    {
        LeftKeys {
            first,
            second: Left::NONE,
        }
    }
}

/// A miss after two runs, from the keys that left then and what became of its own.
#[inline(always)]
pub fn miss_after_runs(
    early: Run,
    late: Run,
    left: LeftKeys,
    own: KeyMove,
    old_number: u32,
    new_number: u32,
) -> Accessed
    ensures { (e r : Run) (l : Leavers) (o : Own) (i : Item) (s a b u v : Queues) → early ≡ e → late ≡ r
        → IsRun early s a → IsRun late a b → AreLeft l b u left → IsOwn o i u v own
        → IsAccessed (run_plan e r l o new_number) i old_number s v result }
{
    Accessed {
        outcome: left.first.outcome(),
        own_number: new_number,
        moves: Moves {
            early,
            late,
            first: left.first,
            second: left.second,
            own,
            own_number: old_number,
        },
    }
}

/// The same without runs.
#[inline(always)]
pub fn miss_without_runs(left: LeftKeys, own: KeyMove, old_number: u32, new_number: u32) -> Accessed
    ensures { (l : Leavers) (o : Own) (i : Item) (s u v : Queues) → AreLeft l s u left → IsOwn o i u v own
        → IsAccessed (miss_plan l o new_number) i old_number s v result }
{
    miss_after_runs(Run::NONE, Run::NONE, left, own, old_number, new_number)
}
