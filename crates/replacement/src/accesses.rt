//! An access.
ghost use Rattle.std.specs.Prelude.{◌≡◌, ◌≢◌, ◌≤◌, Option, Some, None, OnOk, OnErr, option_map};
ghost use Rattle.segments.specs.Queues.{IsDistinct, queue_holding};
ghost use Rattle.replacement.specs.Admission.{admits_in};
ghost use Rattle.replacement.specs.Table.{access};
ghost use Rattle.replacement.specs.Plan.{plan};
ghost use Rattle.replacement.specs.PlanMoves.{moves_of, UndoesMoves};
ghost use Rattle.replacement.specs.Effects.{IsEffect};

use crate::hits::hit;
use crate::misses::{direct, windowed};
use crate::record::Effect;
use crate::rules::{Placement, Rules};
use admission::Frequency;
use engine_base::{Item, Key, Node, Outcome};
use segments::Segments;
use std::alloc::AllocError;

/// Makes the room that an access to the item needs, ahead of it. The one error is that an allocation failed where the
/// item stands in no queue; the queues are then as before.
#[inline(always)]
pub fn make_room(segments: &mut Segments, item: Item) -> Result<(), AllocError>
    ensures room { OnOk result (queue_holding item segments.new.lists ≡ None → 1 ≤ segments.new.spare) }
    ensures lists { segments.new.lists ≡ segments.old.lists }
    ensures memory { OnErr result (queue_holding item segments.old.lists ≡ None) }
{
    match segments.reserve() {
        Ok(()) => Ok(()),
        Err(_) => without_room(segments, item.key, item.node),
    }
}

// Where there is no room and no memory for more, an item that stands in a queue goes on without.
#[cold]
#[inline(never)]
fn without_room(segments: &Segments, key: Key, node: Node) -> Result<(), AllocError>
    ensures found { OnOk result (queue_holding (record { key = key; node = node }) segments.now.lists ≢ None) }
    ensures missed { OnErr result (queue_holding (record { key = key; node = node }) segments.now.lists ≡ None) }
{
    match segments.find(Item { key, node }) {
        Some(_) => Ok(()),
        None => Err(AllocError),
    }
}

/// Accesses an item: a hit where it stands in a queue, else a miss, by the rules. Where keys are counted, `frequency`
/// is the one that already has the item's key. It requires room for one item where the item stands in no queue.
///
/// `C` selects an instance (docs/ARCHITECTURE.md).
#[inline(always)]
pub fn access<C>(
    segments: &mut Segments,
    frequency: Option<&Frequency>,
    rules: &Rules,
    item: Item,
) -> Effect
    requires room { queue_holding item segments.old.lists ≡ None → 1 ≤ segments.old.spare }
    ensures outcome { result.outcome
        ≡ (access rules.now (admits_in (option_map (λ f. f.now) frequency.entry)) item segments.old.lists).outcome }
    ensures lists { segments.new.lists
        ≡ (access rules.now (admits_in (option_map (λ f. f.now) frequency.entry)) item segments.old.lists).queues }
    ensures record { result.moves
        ≡ moves_of (plan rules.now (admits_in (option_map
        (λ f. f.now) frequency.entry)) item segments.old.lists) segments.old.lists }
    ensures undoes { UndoesMoves segments.old.lists segments.new.lists result.moves }
    // what holds of every Segments: no item stands twice
    ensures distinct { IsDistinct segments.old.lists }
{
    access_planned::<C>(segments, frequency, rules, item)
}

// An access, by its plan.
#[inline(always)]
fn access_planned<C>(
    segments: &mut Segments,
    frequency: Option<&Frequency>,
    rules: &Rules,
    item: Item,
) -> Effect
    requires room { queue_holding item segments.old.lists ≡ None → 1 ≤ segments.old.spare }
    ensures effect { IsEffect (plan rules.now (admits_in
        (option_map (λ f. f.now) frequency.entry)) item segments.old.lists)
        segments.old.lists segments.new.lists result }
    ensures distinct { IsDistinct segments.old.lists }
{
    match hit(segments, rules.protected, item) {
        Some(moves) => Effect {
            outcome: Outcome::Hit,
            moves,
        },
        None => match rules.placement {
            Placement::Windowed => windowed::<C>(segments, frequency, rules, item),
            Placement::Direct(queue) => direct(segments, frequency, rules, queue, item),
        },
    }
}
