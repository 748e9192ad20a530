//! The queues of W-TinyLFU with a window whose size follows the hits.
ghost use Rattle.std.specs.Prelude.{◌≡◌, ◌≤◌, Some, None, Ok, IfOk, OnOk, OnErr, length};
ghost use Rattle.engine_base.specs.Config.{config_fault};
ghost use Rattle.engine_base.specs.Stats.{is_hit as is_hit_of};
ghost use Rattle.segments.specs.SegmentQueues.{three_queues as three_queues_of};
ghost use Rattle.segments.specs.Queues.{queue_holding, residents_in};
ghost use Rattle.segments.specs.KeyRow.{row_of};
ghost use Rattle.segments.specs.SegmentKeys.{AreKeys};
ghost use Rattle.replacement.specs.Admission.{admits_in};
ghost use Rattle.replacement.specs.PlanMoves.{leaver_in, room_for};
ghost use Rattle.queue_cache.specs.Climber.{AreSmallRules, caffeine_rules, first_window};
ghost use Rattle.queue_cache.specs.AdaptiveWindow.{empty_adaptive, adaptive_act};
ghost use Rattle.queue_cache.specs.WindowRecord.{window_record_of, window_undone, WindowFits};

use crate::climber::{ClimbRules, Climber, first_window_of};
use crate::resizing::{resize, size_before, undo_runs};
use crate::window_record::WindowRecord;
use admission::Frequency;
use engine_base::{Config, Item, Key, Outcome};
use replacement::{access, make_room, undo};
use segments::{NamedQueue, Queue, Segments, three_queues, three_queues_row};
use std::alloc::{AllocError, Global};
use std::marker::Model;

// Selects the instance of an access of the queues alone.
struct Windowed;

/// The queues of a cache, the size of its window in force, and the climber that says which size it is to have. Contracts
/// see these with the rules, and for how many more items there is room.
#[derive(Drop)]
pub struct AdaptiveWindow {
    rules: ClimbRules,
    segments: Segments,
    size: u32,
    climber: Climber,
}

impl Model for AdaptiveWindow {
    ghost use Rattle.queue_cache.specs.Climber.{AreClimbRules, AreSmallRules};
    ghost use Rattle.queue_cache.specs.AdaptiveWindow.{ShownWindow, IsAdaptive};

    ghost Value = { ShownWindow };

    ghost view = { λ w. record {
      rules = w.rules;
      state = record { queues = w.segments.lists; size = w.size; climber = w.climber };
      spare = w.segments.spare;
    } };

    ghost invariant = { λ w. AreClimbRules w.rules × AreSmallRules w.rules
        × IsAdaptive w.rules record { queues = w.segments.lists; size = w.size; climber = w.climber } };
}

impl AdaptiveWindow {
    /// An empty cache for a configuration that `Config::check` accepts. Allocates nothing.
    pub fn new(alloc: Global, config: &Config, period: Option<u32>) -> AdaptiveWindow
        requires { config_fault config.now ≡ Ok tt }
        ensures rules { result.rules ≡ caffeine_rules config.now.capacity config.now.main_percent period }
        ensures state { result.state
            ≡ empty_adaptive (caffeine_rules config.now.capacity config.now.main_percent period)
            (first_window config.now.capacity config.now.main_percent) }
    {
        let rules = ClimbRules::caffeine(config, period);
        let size = first_window_of(config);
        AdaptiveWindow {
            rules,
            segments: Segments::for_items(alloc, config.capacity),
            size,
            climber: Climber::first(&rules, size),
        }
    }

    /// Makes room for one more item. The one error is that an allocation failed; nothing that is seen of the queues
    /// changes then.
    #[inline(always)]
    pub fn reserve(&mut self) -> Result<(), AllocError>
        ensures room { OnOk result (1 ≤ self.new.spare) }
        ensures rules { self.new.rules ≡ self.old.rules }
        ensures state { self.new.state ≡ self.old.state }
    {
        self.segments.reserve()
    }

    /// Makes the room that an access to the item needs. The one error is that an allocation failed where the item is not
    /// there; nothing that is seen of the queues changes then.
    #[inline(always)]
    pub fn make_room(&mut self, item: Item) -> Result<(), AllocError>
        ensures room { OnOk result (queue_holding item self.new.state.queues ≡ None → 1 ≤ self.new.spare) }
        ensures rules { self.new.rules ≡ self.old.rules }
        ensures state { self.new.state ≡ self.old.state }
        ensures memory { OnErr result (queue_holding item self.old.state.queues ≡ None) }
    {
        make_room(&mut self.segments, item)
    }

    /// Reads ahead what searches for the next few keys from the one at `i` on read first. It changes nothing.
    #[inline(always)]
    pub fn read_ahead(&mut self, keys: &[Key], i: usize)
        requires { i ≤ length keys.now }
        ensures { self.new ≡ self.old }
    {
        self.segments.read_ahead(keys, i);
    }

    /// How many items it holds.
    #[inline(always)]
    pub fn capacity(&self) -> u32
        ensures { result ≡ self.now.rules.capacity }
    {
        self.rules.capacity
    }

    /// The size of the window in force.
    pub fn size(&self) -> u32
        ensures { result ≡ self.now.state.size }
    {
        self.size
    }

    /// The size that the window is to have.
    pub fn target(&self) -> u32
        ensures { result ≡ self.now.state.climber.target }
    {
        self.climber.target
    }

    /// The keys of the window, of probation and of protected in that order, oldest first. The one error is that an
    /// allocation failed.
    pub fn keys(&self, alloc: Global) -> Result<Vec<Key>, AllocError>
        ensures { IfOk result (λ keys. keys.items ≡ residents_in self.now.state.queues) }
    {
        self.segments.keys(alloc)
    }

    /// Its queues under their names, with the keys, oldest first. The one error is that an allocation failed.
    pub fn named_queues(&self, alloc: Global) -> Result<Vec<NamedQueue>, AllocError>
        ensures { IfOk result (λ named. named.items ≡ three_queues_of self.now.state.queues) }
    {
        three_queues(alloc, &self.segments)
    }

    /// The number of its queue, in the order of `named_queues`, in which the key stands.
    pub fn row_of(&self, key: Key) -> Option<usize>
        ensures { AreKeys self.now.state.queues → result ≡ row_of key (three_queues_of self.now.state.queues) }
    {
        three_queues_row(&self.segments, key)
    }

    /// Accesses an item, whose key the frequency already has: by the table of moves, with a window of the size in force.
    /// The access is counted, and then the size in force goes to the target, by `MAX_SIZE_CHANGE` at most, and the queues
    /// follow. It requires room for one item where the item is not there.
    ///
    /// `C` selects an instance (docs/ARCHITECTURE.md).
    #[inline(always)]
    pub fn access<C>(&mut self, frequency: &Frequency, item: Item) -> WindowRecord
        requires room { queue_holding item self.old.state.queues ≡ None → 1 ≤ self.old.spare }
        ensures outcome { result.outcome
            ≡ (adaptive_act self.old.rules (admits_in (Some frequency.now)) item self.old.state).0 }
        ensures state { self.new.state
            ≡ (adaptive_act self.old.rules (admits_in (Some frequency.now)) item self.old.state).1 }
        ensures record { result
            ≡ window_record_of self.old.rules (admits_in (Some frequency.now)) item self.old.state }
        ensures fits { WindowFits self.old.rules result self.new.state }
        ensures undone { window_undone result self.new.state ≡ self.old.state }
        ensures rules { self.new.rules ≡ self.old.rules }
    {
        let rules = self.rules.at(self.size);
        let effect = access::<(C, Windowed)>(&mut self.segments, Some(frequency), &rules, item);
        let period = self.climber.count(&self.rules, is_hit(effect.outcome));
        let resized = resize(
            &mut self.segments,
            &self.rules,
            self.climber.target,
            self.size,
        );
        self.size = resized.size;
        WindowRecord {
            outcome: effect.outcome,
            access: effect.moves,
            size: resized.change,
            period,
        }
    }

    /// Prepares the frequency for the next victim of an admission, once a miss in a full cache has decided on one: what it
    /// is asked of is then the same key for as long as it is not evicted. It changes nothing.
    #[inline(always)]
    pub fn prepare_victim(&self, frequency: &mut Frequency, outcome: Outcome)
        ensures { frequency.new ≡ frequency.old }
    {
        match outcome {
            Outcome::Hit | Outcome::Kept => {}
            Outcome::Evicted(_) | Outcome::Rejected(_) => {
                if let Some(victim) = self.segments.oldest(Queue::Probation) {
                    frequency.prepare(victim.key);
                }
            }
        }
    }

    /// Undoes an access: first what followed the change of the window's size, then the access. It requires that the record
    /// fits, and room for the item that left, if one did.
    pub fn undo(&mut self, done: WindowRecord)
        requires fits { WindowFits self.old.rules done self.old.state }
        requires room { room_for (leaver_in done.access) ≤ self.old.spare }
        ensures state { self.new.state ≡ window_undone done self.old.state }
        ensures rules { self.new.rules ≡ self.old.rules }
    {
        undo_runs(&mut self.segments, done.size);
        undo(&mut self.segments, done.access);
        self.size = size_before(done.size, self.size);
        self.climber.uncount(done.period, is_hit(done.outcome));
    }
}

// Whether an access was a hit.
#[inline(always)]
fn is_hit(outcome: Outcome) -> bool
    ensures { result ≡ is_hit_of outcome }
{
    match outcome {
        Outcome::Hit => true,
        Outcome::Kept | Outcome::Evicted(_) | Outcome::Rejected(_) => false,
    }
}
