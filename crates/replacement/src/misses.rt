//! A miss, and one eviction.
ghost use Rattle.std.specs.Prelude.{◌≡◌, ◌≤◌, Option, Some, None, option_map};
ghost use Rattle.segments.specs.Queues.{queue_holding, queues_after_move, IsDistinct};
ghost use Rattle.replacement.specs.Admission.{admits_in};
ghost use Rattle.replacement.specs.Table.{eviction};
ghost use Rattle.replacement.specs.Plan.{direct_plan, eviction_plan, joining_first};
ghost use Rattle.replacement.specs.PlanMoves.{moves_of, Replaced, UndoesMoves};
ghost use Rattle.replacement.specs.Effects.{IsEffect, IsReplacement};

use crate::admission_filter::admits;
use crate::queue_moves::{drop_oldest, join, renew_oldest, send_oldest};
use crate::record::{Effect, Leaver, Moves, Sent};
use crate::rules::Rules;
use admission::Frequency;
use engine_base::{Item, Outcome};
use segments::{Queue, Segments};

/// One eviction. Where the window is over its size, its oldest item goes to probation's recent end as the candidate;
/// where the queues then hold more than the capacity, probation's oldest is the victim. Where these are one item it
/// leaves; else the victim leaves if the candidate is admitted against it (`Evicted`), and the candidate if not
/// (`Rejected`). In every other case nothing leaves (`Kept`).
#[inline(always)]
pub fn evict(segments: &mut Segments, frequency: Option<&Frequency>, rules: &Rules) -> Effect
    requires distinct { IsDistinct segments.old.lists }
    ensures outcome { result.outcome
        ≡ (eviction rules.now (admits_in (option_map (λ f. f.now) frequency.entry)) segments.old.lists).outcome }
    ensures lists { segments.new.lists
        ≡ (eviction rules.now (admits_in (option_map (λ f. f.now) frequency.entry)) segments.old.lists).queues }
    ensures record { result.moves
        ≡ moves_of (eviction_plan rules.now (admits_in
        (option_map (λ f. f.now) frequency.entry)) segments.old.lists) segments.old.lists }
    ensures undoes { UndoesMoves segments.old.lists segments.new.lists result.moves }
{
    evict_planned(segments, frequency, rules, None)
}

// A new item joins the window, and one eviction follows. Each `C` has an instance of its own, called at one place: it is
// large, and with several calls it would be part of none of its callers.
#[inline(always)]
pub(crate) fn windowed<C>(
    segments: &mut Segments,
    frequency: Option<&Frequency>,
    rules: &Rules,
    item: Item,
) -> Effect
    requires absent { queue_holding item segments.old.lists ≡ None }
    requires distinct { IsDistinct segments.old.lists }
    requires room { 1 ≤ segments.old.spare }
    ensures effect { IsEffect (joining_first Queue.Window item
        (eviction_plan rules.now (admits_in (option_map (λ f. f.now) frequency.entry))
        (queues_after_move item Queue.Window segments.old.lists)))
        segments.old.lists segments.new.lists result }
{
    join(segments, Queue::Window, item);
    evict_planned(segments, frequency, rules, Some(Queue::Window))
}

// A new item seeks a place in a queue.
#[inline(always)]
pub(crate) fn direct(
    segments: &mut Segments,
    frequency: Option<&Frequency>,
    rules: &Rules,
    queue: Queue,
    item: Item,
) -> Effect
    requires absent { queue_holding item segments.old.lists ≡ None }
    requires distinct { IsDistinct segments.old.lists }
    requires room { 1 ≤ segments.old.spare }
    ensures effect { IsEffect (direct_plan rules.now (admits_in
        (option_map (λ f. f.now) frequency.entry)) queue item segments.old.lists)
        segments.old.lists segments.new.lists result }
{
    if segments.count() < rules.capacity {
        join(segments, queue, item);
        return replacement(Outcome::Kept, Some(queue), None, None);
    }
    let Some(victim) = segments.oldest(queue) else {
        return replacement(Outcome::Rejected(item.key), None, None, None);
    };
    if !admits(frequency, item.key, victim.key) {
        return replacement(Outcome::Rejected(item.key), None, None, None);
    }
    renew_oldest(segments, queue, item);
    let left = Some(Leaver {
        item: victim,
        from: queue,
    });
    replacement(Outcome::Evicted(victim.key), Some(queue), left, None)
}

// One eviction, by its plan, after a new item came to a queue, or none.
#[inline(always)]
pub(crate) fn evict_planned(
    segments: &mut Segments,
    frequency: Option<&Frequency>,
    rules: &Rules,
    came: Option<Queue>,
) -> Effect
    requires distinct { IsDistinct segments.old.lists }
    ensures effect { IsReplacement came (eviction_plan rules.now (admits_in
        (option_map (λ f. f.now) frequency.entry)) segments.old.lists)
        segments.old.lists segments.new.lists result }
{
    if segments.len(Queue::Window) <= rules.window {
        return replacement(Outcome::Kept, came, None, None);
    }
    let Some(candidate) = segments.oldest(Queue::Window) else {
        return replacement(Outcome::Kept, came, None, None);
    };
    if segments.count() <= rules.capacity {
        let sent = send_oldest(segments, Queue::Window, Queue::Probation);
        return replacement(Outcome::Kept, came, None, sent);
    }
    let loser = match segments.oldest(Queue::Probation) {
        Some(victim) if admits(frequency, candidate.key, victim.key) => Some(victim),
        _ => None,
    };
    // One call, since two would make this too large to be part of the loops over accesses.
    let from = match loser {
        Some(_) => Queue::Probation,
        None => Queue::Window,
    };
    let left = drop_oldest(segments, from);
    let Some(victim) = loser else {
        return replacement(Outcome::Rejected(candidate.key), came, left, None);
    };
    let sent = send_oldest(segments, Queue::Window, Queue::Probation);
    replacement(Outcome::Evicted(victim.key), came, left, sent)
}

// What a miss or an eviction came to, by what moved.
#[inline(always)]
fn replacement(
    outcome: Outcome,
    came: Option<Queue>,
    left: Option<Leaver>,
    sent: Option<Sent>,
) -> Effect
    ensures { result ≡ record { outcome = outcome; moves = Replaced came sent left } }
{
    Effect {
        outcome,
        moves: Moves::Replaced { came, sent, left },
    }
}
