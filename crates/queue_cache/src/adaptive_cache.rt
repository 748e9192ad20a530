//! The engine: a cache with an adaptive window, whose accesses are counted and can be undone.
ghost use Rattle.std.specs.Prelude.{◌≡◌, ◌≢◌, ◌≤◌, ◌<◌, ◌^◌, ◌↔◌, [], ◌++◌, map, length, Ok, Err, Some, None};
ghost use Rattle.std.specs.Prelude.{IfOk, OnOk, OnErr};
ghost use Rattle.engine_base.specs.declared.limits.TheConstants.{MAX_STEPS};
ghost use Rattle.engine_base.specs.Config.{config_fault};
ghost use Rattle.segments.specs.SegmentQueues.{three_queues as three_queues_of};
ghost use Rattle.segments.specs.Queues.{queue_holding, residents_in};
ghost use Rattle.segments.specs.KeyRow.{row_of};
ghost use Rattle.segments.specs.SegmentKeys.{AreKeys};
ghost use Rattle.queue_cache.specs.AdaptiveCache.{empty_cache, cache_act, cache_may_ask};

use crate::adaptive_window::AdaptiveWindow;
use crate::window_record::WindowRecord;
use admission::{FreqRecord, Frequency};
use engine_base::{Config, Engine, Item, Key, MAX_STEPS, Outcome, Stats, StepFault};
use queue_table::AHEAD;
use replacement::open_frequency_without_doorkeeper;
use segments::NamedQueue;
use std::alloc::{AllocError, Global};
use std::marker::Model;

/// How many columns each of the four rows of the sketch has for an entry: sixteen counters in all, as Caffeine's.
pub const COLUMNS: u32 = 4;

// The least capacity at which it is read ahead: in smaller caches that costs more than it spares.
const AHEAD_FROM: u32 = 4096;

/// A cache of W-TinyLFU with a window whose size follows the hits. Contracts see the rules of its climber, its window,
/// its frequency and its counts.
pub struct AdaptiveCache {
    window: AdaptiveWindow,
    frequency: Frequency,
    stats: Stats,
}

impl Drop for AdaptiveCache {
    fn drop(self) {
        let AdaptiveCache {
            window: _,
            frequency: _,
            stats: _,
        } = self;
    }
}

/// The undo record of an access: that of the recording of its key, and what the access came to and moved. It holds lists
/// only where the recording brought a halving.
#[derive(Drop)]
pub struct AdaptiveRecord {
    pub(crate) counting: FreqRecord,
    pub(crate) window: WindowRecord,
}

impl Model for AdaptiveCache {
    ghost use Rattle.queue_cache.specs.AdaptiveCache.{AdaptiveCacheState, IsRunning};

    ghost Value = { AdaptiveCacheState };

    ghost view = { λ q. record {
      rules = q.window.rules;
      window = q.window.state;
      frequency = q.frequency;
      stats = q.stats;
    } };

    ghost invariant = { λ q. IsRunning q.frequency q.stats };
}

impl AdaptiveCache {
    /// An empty cache for a configuration that `Config::check` accepts. A period has as many accesses as are chosen, one
    /// for each entry at least, and where none are chosen ten for each entry. The one error is that an allocation failed.
    pub fn new(
        alloc: Global,
        config: &Config,
        period: Option<u32>,
    ) -> Result<AdaptiveCache, AllocError>
        requires { config_fault config.now ≡ Ok tt }
        ensures { IfOk result (λ q. q ≡ empty_cache config.now period) }
    {
        let frequency = open_frequency_without_doorkeeper(alloc, config, COLUMNS)?;
        Ok(AdaptiveCache {
            window: AdaptiveWindow::new(alloc, config, period),
            frequency,
            stats: Stats::NONE,
        })
    }

    /// Reads ahead, once for each few keys, what accesses to the keys from the one at `i` on read first, where queues and
    /// sketch are larger than the processor's caches: to be called before each access of a loop over them. It changes
    /// nothing.
    #[inline(always)]
    pub fn prefetch_at(&mut self, keys: &[Key], i: usize)
        requires { i ≤ length keys.now }
        ensures { self.new ≡ self.old }
    {
        if i % AHEAD == 0 && self.window.capacity() >= AHEAD_FROM {
            self.window.read_ahead(keys, i);
        }
    }

    /// Makes an access that is not to be undone: that of `apply`, without its undo record.
    ///
    /// Errors: `NotNow` exactly where `MAX_STEPS` accesses are applied, and `OutOfMemory`; each leaves the cache as it
    /// was.
    ///
    /// `C` selects an instance (docs/ARCHITECTURE.md).
    #[inline(always)]
    pub fn access<C>(&mut self, key: Key) -> Result<Outcome, StepFault>
        ensures accepted { IfOk result (λ o. cache_act self.old key ≡ Some (o, self.new)) }
        ensures not_now { result ≡ Err StepFault.NotNow ↔ cache_act self.old key ≡ None }
        ensures memory { result ≡ Err StepFault.OutOfMemory → cache_may_ask self.old key }
        ensures err { OnErr result (self.new ≡ self.old) }
    {
        let item = Item { key, node: 0 };
        make_room(&self.stats, &mut self.window, item)?;
        let Ok(()) = self.frequency.count(key) else {
            return Err(StepFault::OutOfMemory);
        };
        let done = self.window.access::<C>(&self.frequency, item);
        self.stats.count(done.outcome);
        self.window
            .prepare_victim(&mut self.frequency, done.outcome);
        Ok(done.outcome)
    }

    /// What was counted of the applied accesses.
    pub fn stats(&self) -> Stats
        ensures { result ≡ self.now.stats }
    {
        self.stats
    }

    /// How often keys came.
    pub fn frequency(&self) -> &Frequency
        ensures { result.now ≡ self.now.frequency }
    {
        &self.frequency
    }

    /// The size of the window in force.
    pub fn window_size(&self) -> u32
        ensures { result ≡ self.now.window.size }
    {
        self.window.size()
    }

    /// The size that the window is to have.
    pub fn target(&self) -> u32
        ensures { result ≡ self.now.window.climber.target }
    {
        self.window.target()
    }

    /// The keys that it holds: those of the window, of probation and of protected in that order, oldest first. The one
    /// error is that an allocation failed.
    pub fn residents(&self, alloc: Global) -> Result<Vec<Key>, AllocError>
        ensures { IfOk result (λ keys. keys.items ≡ residents_in self.now.window.queues) }
    {
        self.window.keys(alloc)
    }

    /// Its queues under their names, with the keys, oldest first. The one error is that an allocation failed.
    pub fn named_queues(&self, alloc: Global) -> Result<Vec<NamedQueue>, AllocError>
        ensures { IfOk result (λ named. named.items ≡ three_queues_of self.now.window.queues) }
    {
        self.window.named_queues(alloc)
    }

    /// The number of its queue, in the order of `named_queues`, in which the key stands.
    pub fn row_of(&self, key: Key) -> Option<usize>
        ensures { AreKeys self.now.window.queues → result ≡ row_of key (three_queues_of self.now.window.queues) }
    {
        self.window.row_of(key)
    }
}

impl Engine for AdaptiveCache {
    ghost use Rattle.std.specs.Prelude.{◌+◌, refl};
    ghost use Rattle.engine_base.specs.Pace.{IsPaced};
    ghost use Rattle.engine_base.proofs.Limited.{related, ended};
    ghost use Rattle.admission.proofs.Weighing.{recorded_paced};
    ghost use Rattle.queue_cache.specs.AdaptiveCache.{cache_act, cache_record_of, cache_undone, cache_asks, CacheFits};
    ghost use Rattle.queue_cache.specs.AdaptiveCache.{cache_access, cache_count, cache_may_ask, cache_words, cache_pace};

    type Step = Key;

    type Reply = Outcome;

    type Record = AdaptiveRecord;

    type Data = AdaptiveCache;

    ghost seen = { λ q. q };

    ghost act = { cache_act };

    ghost record_of = { cache_record_of };

    ghost may_ask = { cache_may_ask };

    ghost fits = { CacheFits };

    ghost undone = { cache_undone };

    ghost asks = { cache_asks };

    ghost count = { cache_count };

    ghost words_of = { cache_words };

    ghost pace = { cache_pace };

    #[inline(always)]
    fn apply(&mut self, step: &Key) -> Result<(Outcome, AdaptiveRecord), StepFault> {
        let key = *step;
        let item = Item { key, node: 0 };
        make_room(&self.stats, &mut self.window, item)?;
        let Ok(counting) = self.frequency.record(key) else {
            return Err(StepFault::OutOfMemory);
        };
        let done = self.window.access::<WithRecord>(&self.frequency, item);
        let outcome = done.outcome;
        self.stats.count(outcome);
        let record = AdaptiveRecord {
            counting,
            window: done,
        };
        Ok((outcome, record))
    }

    fn undo(&mut self, done: AdaptiveRecord) -> Result<(), AdaptiveRecord> {
        let asks = done.window.access.leaver().is_some();
        if asks && self.window.reserve().is_err() {
            return Err(done);
        }
        let AdaptiveRecord { counting, window } = done;
        self.stats.uncount(window.outcome);
        self.window.undo(window);
        self.frequency.unrecord(counting);
        Ok(())
    }

    fn standing(&self) -> u64 {
        self.stats.accesses
    }

    fn words(done: &AdaptiveRecord) -> u64 {
        done.counting.words()
    }

    ghost counted = { related cache_count cache_access (λ d e. cache_count e ≡ cache_count d + 1) (λ k d. refl) };

    ghost counted_out = { ended cache_count cache_access };

    ghost paced = { related cache_count cache_access (λ d e. IsPaced (cache_pace d) (cache_pace e))
        (λ k d. recorded_paced d.frequency k) };
}

// Selects the instance of an access whose undo record is read.
struct WithRecord;

// Makes the room that one more access takes, before its key is counted: what follows takes none.
#[inline(always)]
fn make_room(stats: &Stats, window: &mut AdaptiveWindow, item: Item) -> Result<(), StepFault>
    ensures below { OnOk result (stats.now.accesses ≢ MAX_STEPS) }
    ensures room { OnOk result (queue_holding item window.new.state.queues ≡ None → 1 ≤ window.new.spare) }
    ensures rules { window.new.rules ≡ window.old.rules }
    ensures state { window.new.state ≡ window.old.state }
    ensures not_now { result ≡ Err StepFault.NotNow ↔ stats.now.accesses ≡ MAX_STEPS }
    ensures memory { result ≡ Err StepFault.OutOfMemory → queue_holding item window.old.state.queues ≡ None }
{
    if stats.accesses == MAX_STEPS {
        return Err(StepFault::NotNow);
    }
    match window.make_room(item) {
        Ok(()) => Ok(()),
        Err(_) => Err(StepFault::OutOfMemory),
    }
}
