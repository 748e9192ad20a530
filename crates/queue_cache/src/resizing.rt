//! How the window's size in force goes to its target, and how the queues follow.
ghost use Rattle.std.specs.Prelude.{◌≡◌, ◌≤◌, ◌<◌, ◌-◌};
ghost use Rattle.engine_base.specs.declared.limits.TheConstants.{MAX_CAPACITY};
ghost use Rattle.segments.specs.Queues.{total_items};
ghost use Rattle.queue_cache.specs.Resizing.{size_towards};
ghost use Rattle.queue_cache.specs.AdaptiveWindow.{queues_resized};
ghost use Rattle.queue_cache.specs.WindowRecord.{size_change, queues_before_change, size_before as size_before_of};

use crate::climber::ClimbRules;
use crate::window_record::SizeChange;
use segments::{Queue, Segments};

/// By how many items the window grows or shrinks in an access at most, as in Caffeine's BoundedLocalCache.
pub const MAX_SIZE_CHANGE: u32 = 1_000;

/// The size in force after an access, and how it changed.
#[derive(Clone, Copy)]
pub(crate) struct Resized {
    pub(crate) size: u32,
    pub(crate) change: SizeChange,
}

/// The size in force goes to the target, and the queues follow.
#[inline(always)]
pub(crate) fn resize(segments: &mut Segments, rules: &ClimbRules, target: u32, size: u32) -> Resized
    requires target { target ≤ rules.now.largest }
    requires size { size ≤ rules.now.largest }
    requires fits { rules.now.largest ≤ rules.now.capacity }
    requires small { rules.now.capacity ≤ MAX_CAPACITY }
    requires few { total_items segments.old.lists ≤ rules.now.capacity }
    ensures size { result.size ≡ size_towards target size }
    ensures change { result.change ≡ size_change rules.now target size segments.old.lists }
    ensures lists { segments.new.lists ≡ queues_resized rules.now target size segments.old.lists }
{
    if size < target {
        return grow(segments, rules, target, size);
    }
    if target < size {
        return shrink(segments, rules, target, size);
    }
    Resized {
        size,
        change: SizeChange::Stayed,
    }
}

// Protected gives what it has over its size to probation, and then probation what the main part has over its own to the
// window.
#[cold]
#[inline(never)]
fn grow(segments: &mut Segments, rules: &ClimbRules, target: u32, size: u32) -> Resized
    requires below { size < target }
    requires target { target ≤ rules.now.largest }
    requires fits { rules.now.largest ≤ rules.now.capacity }
    requires small { rules.now.capacity ≤ MAX_CAPACITY }
    requires few { total_items segments.old.lists ≤ rules.now.capacity }
    ensures size { result.size ≡ size_towards target size }
    ensures change { result.change ≡ size_change rules.now target size segments.old.lists }
    ensures lists { segments.new.lists ≡ queues_resized rules.now target size segments.old.lists }
{
    let grown = target.min(size + MAX_SIZE_CHANGE);
    let rules = rules.at(grown);
    let demoted = excess(segments.len(Queue::Protected), rules.protected);
    segments.send_times(Queue::Protected, Queue::Probation, demoted);
    let probation = segments.len(Queue::Probation);
    let main = probation + segments.len(Queue::Protected);
    let lent = excess(main, rules.capacity - rules.window).min(probation as u32);
    segments.send_times(Queue::Probation, Queue::Window, lent);
    Resized {
        size: grown,
        change: SizeChange::Grew {
            by: grown - size,
            demoted,
            lent,
        },
    }
}

// The window gives what it has over its size to probation.
#[cold]
#[inline(never)]
fn shrink(segments: &mut Segments, rules: &ClimbRules, target: u32, size: u32) -> Resized
    requires above { target < size }
    requires size { size ≤ rules.now.largest }
    requires small { rules.now.capacity ≤ MAX_CAPACITY }
    requires few { total_items segments.old.lists ≤ rules.now.capacity }
    ensures size { result.size ≡ size_towards target size }
    ensures change { result.change ≡ size_change rules.now target size segments.old.lists }
    ensures lists { segments.new.lists ≡ queues_resized rules.now target size segments.old.lists }
{
    let shrunk = target.max(size.saturating_sub(MAX_SIZE_CHANGE));
    let rules = rules.at(shrunk);
    let returned = excess(segments.len(Queue::Window), rules.window);
    segments.send_times(Queue::Window, Queue::Probation, returned);
    Resized {
        size: shrunk,
        change: SizeChange::Shrank {
            by: size - shrunk,
            returned,
        },
    }
}

// How many items a part has over its size.
fn excess(items: usize, size: usize) -> u32
    requires { items ≤ MAX_CAPACITY }
    ensures { result ≡ items - size }
{
    items.saturating_sub(size) as u32
}

/// Undoes what followed a change of the size: the last run first.
pub(crate) fn undo_runs(segments: &mut Segments, change: SizeChange)
    ensures lists { segments.new.lists ≡ queues_before_change change segments.old.lists }
    ensures spare { segments.old.spare ≤ segments.new.spare }
{
    match change {
        SizeChange::Grew { demoted, lent, .. } => {
            segments.return_times(Queue::Probation, Queue::Window, lent);
            segments.return_times(Queue::Protected, Queue::Probation, demoted);
        }
        SizeChange::Shrank { returned, .. } => {
            segments.return_times(Queue::Window, Queue::Probation, returned);
        }
        SizeChange::Stayed => {}
    }
}

/// The size before a change.
pub(crate) fn size_before(change: SizeChange, size: u32) -> u32
    requires some { 1 ≤ size_before_of change size }
    requires few { size_before_of change size ≤ MAX_CAPACITY }
    ensures { result ≡ size_before_of change size }
{
    match change {
        SizeChange::Grew { by, .. } => size - by,
        SizeChange::Shrank { by, .. } => size + by,
        SizeChange::Stayed => size,
    }
}
