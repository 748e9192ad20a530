//! The policies of queues, as one engine.
ghost use Rattle.std.specs.Prelude.{◌≡◌, ◌≢◌, ◌+◌, ◌≤◌, ◌<◌, ◌↔◌, [], ◌++◌, option_map, map, length, false};
ghost use Rattle.std.specs.Prelude.{IfOk, OnOk, OnErr, Ok, Option, Some, None};
ghost use Rattle.engine_base.specs.declared.limits.TheConstants.{MAX_STEPS};
ghost use Rattle.engine_base.specs.Config.{config_fault};
ghost use Rattle.engine_base.specs.Stats.{is_eviction};
ghost use Rattle.segments.specs.Queues.{queue_holding};
ghost use Rattle.replacement.specs.Shape.{shape_of};
ghost use Rattle.queue_cache.specs.Design.{CoversDesign};
ghost use Rattle.queue_cache.specs.QueueCache.{frequency_by, recorded_in};
ghost use Rattle.queue_cache.specs.QueueStep.{counting_record, halvings_in, unrecorded, FitsCounting, FillsSample};

use crate::design::{Layout, QueueDesign, QueueSetup};
use crate::fixed_design::FixedDesign;
use crate::record::AccessRecord;
use admission::{FreqRecord, Frequency};
use engine_base::{Config, Engine, Item, Key, MAX_STEPS, Outcome, Stats, StepFault};
use queue_table::AHEAD;
use replacement::{Rules, access, make_room, open_frequency, undo};
use segments::{
    NamedQueue, Queue, Segments, one_queue, one_queue_row, three_queues, three_queues_row,
    two_queues, two_queues_row,
};
use std::alloc::{AllocError, Global};
use std::marker::{Model, PhantomData};

// The least capacity at which it is read ahead. Smaller queues stay in the processor's caches, where that costs more
// than it spares; where keys are counted, the sketch shares the caches with them.
const AHEAD_FROM: usize = 65_536;

const AHEAD_FROM_WHERE_COUNTING: usize = 4096;

/// Marks a cache whose design its type does not say.
#[derive(Drop)]
pub struct AnyDesign;

/// A cache of a policy of queues. `P` marks the types of single policies, as `Lru`, and is nothing to the cache.
pub struct QueueCache<P = AnyDesign> {
    setup: QueueSetup,
    rules: Rules,
    segments: Segments,
    frequency: Option<Frequency>,
    stats: Stats,
    policy: PhantomData<P>,
}

impl<P> Drop for QueueCache<P> {
    fn drop(self) {
        let QueueCache {
            setup: _,
            rules: _,
            segments: _,
            frequency: _,
            stats: _,
            policy: _,
        } = self;
    }
}

impl<P> Model for QueueCache<P> {
    ghost use Rattle.queue_cache.specs.QueueCache.{QueueState};
    ghost use Rattle.queue_cache.specs.QueueFields.{IsHolding};

    ghost Value = { QueueState };

    ghost view = { λ q. record {
      setup = q.setup;
      queues = q.segments.lists;
      frequency = q.frequency;
      stats = q.stats;
    } };

    ghost invariant = { λ q. IsHolding q.setup q.rules q.frequency q.stats };
}

impl<P: Drop> QueueCache<P> {
    ghost use Rattle.segments.specs.Queues.{residents_in};
    ghost use Rattle.segments.specs.KeyRow.{row_of};
    ghost use Rattle.segments.specs.SegmentKeys.{AreKeys};
    ghost use Rattle.queue_cache.specs.Design.{named_in};
    ghost use Rattle.queue_cache.specs.QueueCache.{StandsFor};
    ghost use Rattle.queue_cache.specs.QueueStep.{queue_act, queue_record_of, queue_undone, queue_asks, QueueFits};
    ghost use Rattle.queue_cache.specs.QueueStep.{queue_may_ask, queue_words, queue_pace};

    /// An empty cache of a design. It requires a configuration that `Config::check` accepts. The one error is that an
    /// allocation failed.
    pub fn with_design(
        alloc: Global,
        design: QueueDesign,
        config: &Config,
    ) -> Result<QueueCache<P>, AllocError>
        requires { config_fault config.now ≡ Ok tt }
        ensures stands { IfOk result (λ q. StandsFor record { design = design; config = config.now } [] q) }
        ensures fresh { IfOk result (λ q. q.stats.accesses ≡ 0) }
    {
        let frequency = first_frequency(alloc, design.counts_keys, config)?;
        let config = *config;
        Ok(QueueCache {
            setup: QueueSetup { design, config },
            rules: design.rules(&config),
            segments: Segments::for_items(alloc, config.capacity),
            frequency,
            stats: Stats::NONE,
            policy: PhantomData,
        })
    }

    /// Reads ahead, once for each few keys, what accesses to the keys from the one at `i` on read first, where the
    /// queues are larger than the processor's caches: to be called before each access of a loop over them. It changes
    /// nothing.
    #[inline(always)]
    pub fn prefetch_at(&mut self, keys: &[Key], i: usize)
        requires { i ≤ length keys.now }
        ensures { self.new ≡ self.old }
    {
        if i % AHEAD == 0 {
            self.read_ahead(keys, i);
        }
    }

    fn read_ahead(&mut self, keys: &[Key], i: usize)
        requires { i ≤ length keys.now }
        ensures { self.new ≡ self.old }
    {
        let least = if self.frequency.is_some() {
            AHEAD_FROM_WHERE_COUNTING
        } else {
            AHEAD_FROM
        };
        if self.rules.capacity >= least {
            self.segments.read_ahead(keys, i);
        }
    }

    /// Makes an access that is not to be undone: that of `apply`, without its undo record.
    ///
    /// Errors: `NotNow` exactly where `MAX_STEPS` accesses are applied, and `OutOfMemory`; each leaves the cache as it
    /// was.
    ///
    /// `C` selects an instance (docs/ARCHITECTURE.md).
    #[inline(always)]
    pub fn access<C>(&mut self, key: Key) -> Result<Outcome, StepFault>
        ensures accepted { IfOk result (λ o. queue_act self.old key ≡ Some (o, self.new)) }
        ensures not_now { result ≡ Err StepFault.NotNow ↔ queue_act self.old key ≡ None }
        ensures memory { result ≡ Err StepFault.OutOfMemory → queue_may_ask self.old key }
        ensures err { OnErr result (self.new ≡ self.old) }
    {
        let item = Item { key, node: 0 };
        reserve_access(&self.stats, &mut self.segments, item)?;
        let Ok(()) = count_in(&mut self.frequency, key) else {
            return Err(StepFault::OutOfMemory);
        };
        let frequency = self.frequency.as_ref();
        let effect = access::<C>(&mut self.segments, frequency, &self.rules, item);
        self.stats.count(effect.outcome);
        Ok(effect.outcome)
    }

    /// Makes an access as `access` does, compiled for a design: that of the cache, or one that counts keys as well.
    ///
    /// Errors: those of `access`.
    #[inline(always)]
    pub fn access_by<D: FixedDesign>(&mut self, key: Key) -> Result<Outcome, StepFault>
        requires { CoversDesign D.DESIGN self.old.setup.design }
        ensures accepted { IfOk result (λ o. queue_act self.old key ≡ Some (o, self.new)) }
        ensures not_now { result ≡ Err StepFault.NotNow ↔ queue_act self.old key ≡ None }
        ensures memory { result ≡ Err StepFault.OutOfMemory → queue_may_ask self.old key }
        ensures err { OnErr result (self.new ≡ self.old) }
        ensures setup { self.new.setup ≡ self.old.setup }
    {
        let design = D::DESIGN;
        let item = Item { key, node: 0 };
        reserve_access(&self.stats, &mut self.segments, item)?;
        let Ok(()) = count_where(design.counts_keys, &mut self.frequency, key) else {
            return Err(StepFault::OutOfMemory);
        };
        let frequency = frequency_where(design.counts_keys, &self.frequency);
        let rules = design.fixed(&self.rules);
        let effect = access::<D>(&mut self.segments, frequency, &rules, item);
        self.stats.count(effect.outcome);
        prepare_victim(design, &mut self.frequency, &self.segments, effect.outcome);
        Ok(effect.outcome)
    }

    /// What its policy goes by.
    pub fn design(&self) -> QueueDesign
        ensures { result ≡ self.now.setup.design }
    {
        self.setup.design
    }

    /// What was counted of the applied accesses.
    pub fn stats(&self) -> Stats
        ensures { result ≡ self.now.stats }
    {
        self.stats
    }

    /// How often keys came, where the policy counts them.
    pub fn frequency(&self) -> Option<&Frequency>
        ensures { option_map (λ f. f.now) result ≡ self.now.frequency }
    {
        self.frequency.as_ref()
    }

    /// The keys that it holds: those of the window, of probation and of protected in that order, oldest first. The one
    /// error is that an allocation failed.
    pub fn residents(&self, alloc: Global) -> Result<Vec<Key>, AllocError>
        ensures { IfOk result (λ keys. keys.items ≡ residents_in self.now.queues) }
    {
        self.segments.keys(alloc)
    }

    /// Its queues under their names, with the keys, oldest first. The one error is that an allocation failed.
    pub fn named_queues(&self, alloc: Global) -> Result<Vec<NamedQueue>, AllocError>
        ensures { IfOk result (λ named. named.items ≡ named_in self.now.setup.design.layout self.now.queues) }
    {
        match self.setup.design.layout {
            Layout::OneQueue => one_queue(alloc, &self.segments),
            Layout::TwoQueues => two_queues(alloc, &self.segments),
            Layout::ThreeQueues => three_queues(alloc, &self.segments),
        }
    }

    /// The number of its queue, in the order of `named_queues`, in which the key stands.
    pub fn row_of(&self, key: Key) -> Option<usize>
        ensures { AreKeys self.now.queues
            → result ≡ row_of key (named_in self.now.setup.design.layout self.now.queues) }
    {
        match self.setup.design.layout {
            Layout::OneQueue => one_queue_row(&self.segments, key),
            Layout::TwoQueues => two_queues_row(&self.segments, key),
            Layout::ThreeQueues => three_queues_row(&self.segments, key),
        }
    }
}

impl<P: Drop> Engine for QueueCache<P> {
    ghost use Rattle.std.specs.Prelude.{refl};
    ghost use Rattle.engine_base.specs.Pace.{IsPaced};
    ghost use Rattle.engine_base.proofs.Limited.{related, ended};
    ghost use Rattle.queue_cache.specs.QueueStep.{queue_act, queue_record_of, queue_undone, queue_asks, QueueFits};
    ghost use Rattle.queue_cache.specs.QueueCache.{queue_access};
    ghost use Rattle.queue_cache.specs.QueueStep.{queue_count, queue_may_ask, queue_words, queue_pace};
    ghost use Rattle.queue_cache.specs.QueuePace.{paced-by};

    type Step = Key;

    type Reply = Outcome;

    type Record = AccessRecord;

    type Data = QueueCache<P>;

    ghost seen = { λ q. q };

    ghost act = { queue_act };

    ghost record_of = { queue_record_of };

    ghost may_ask = { queue_may_ask };

    ghost fits = { QueueFits };

    ghost undone = { queue_undone };

    ghost asks = { queue_asks };

    ghost count = { queue_count };

    ghost words_of = { queue_words };

    ghost pace = { queue_pace };

    #[inline(always)]
    fn apply(&mut self, step: &Key) -> Result<(Outcome, AccessRecord), StepFault> {
        let key = *step;
        let item = Item { key, node: 0 };
        reserve_access(&self.stats, &mut self.segments, item)?;
        let Ok(counting) = record_in(&mut self.frequency, key) else {
            return Err(StepFault::OutOfMemory);
        };
        let frequency = self.frequency.as_ref();
        let effect = access::<WithRecord>(&mut self.segments, frequency, &self.rules, item);
        self.stats.count(effect.outcome);
        let record = AccessRecord {
            counting,
            moves: effect.moves,
            outcome: effect.outcome,
        };
        Ok((effect.outcome, record))
    }

    fn undo(&mut self, done: AccessRecord) -> Result<(), AccessRecord> {
        if done.moves.leaver().is_some() && self.segments.reserve().is_err() {
            return Err(done);
        }
        let AccessRecord {
            counting,
            moves,
            outcome,
        } = done;
        self.stats.uncount(outcome);
        undo(&mut self.segments, moves);
        unrecord_in(&mut self.frequency, counting);
        Ok(())
    }

    fn standing(&self) -> u64 {
        self.stats.accesses
    }

    fn words(done: &AccessRecord) -> u64 {
        done.counting.words()
    }

    ghost counted = { related queue_count queue_access (λ d e. queue_count e ≡ queue_count d + 1) (λ k d. refl) };

    ghost counted_out = { ended queue_count queue_access };

    ghost paced = { related queue_count queue_access (λ d e. IsPaced (queue_pace d) (queue_pace e))
        (λ k d. paced-by k d.frequency) };
}

// Selects the instance of an access whose undo record is read.
struct WithRecord;

// The frequency of no key, where keys are counted.
fn first_frequency(
    alloc: Global,
    counts_keys: bool,
    config: &Config,
) -> Result<Option<Frequency>, AllocError>
    requires { config_fault config.now ≡ Ok tt }
    ensures { IfOk result (λ f. f ≡ frequency_by counts_keys (shape_of config.now) []) }
{
    if !counts_keys {
        return Ok(None);
    }
    let frequency = open_frequency(alloc, config)?;
    Ok(Some(frequency))
}

// Makes the room that one more access takes, before its key is counted: what follows takes none.
#[inline(always)]
fn reserve_access(stats: &Stats, segments: &mut Segments, item: Item) -> Result<(), StepFault>
    ensures below { OnOk result (stats.now.accesses ≢ MAX_STEPS) }
    ensures room { OnOk result (queue_holding item segments.new.lists ≡ None → 1 ≤ segments.new.spare) }
    ensures lists { segments.new.lists ≡ segments.old.lists }
    ensures not_now { result ≡ Err StepFault.NotNow ↔ stats.now.accesses ≡ MAX_STEPS }
    ensures memory { result ≡ Err StepFault.OutOfMemory → queue_holding item segments.old.lists ≡ None }
{
    if stats.accesses == MAX_STEPS {
        return Err(StepFault::NotNow);
    }
    match make_room(segments, item) {
        Ok(()) => Ok(()),
        Err(_) => Err(StepFault::OutOfMemory),
    }
}

// Records a key where keys are counted, for an access that is not to be undone.
#[inline(always)]
fn count_in(frequency: &mut Option<Frequency>, key: Key) -> Result<(), AllocError>
    requires { halvings_in frequency.old ≤ MAX_STEPS }
    ensures after { OnOk result (frequency.new ≡ recorded_in key frequency.old) }
    ensures memory { OnErr result (FillsSample frequency.old) }
    ensures err { OnErr result (frequency.new ≡ frequency.old) }
{
    if let Some(frequency) = frequency {
        frequency.count(key)?;
    }
    Ok(())
}

// The same where it is known beforehand whether keys are counted.
#[inline(always)]
fn count_where(
    counts_keys: bool,
    frequency: &mut Option<Frequency>,
    key: Key,
) -> Result<(), AllocError>
    requires few { halvings_in frequency.old ≤ MAX_STEPS }
    requires counts { counts_keys ≡ false → frequency.old ≡ None }
    ensures after { OnOk result (frequency.new ≡ recorded_in key frequency.old) }
    ensures memory { OnErr result (FillsSample frequency.old) }
    ensures err { OnErr result (frequency.new ≡ frequency.old) }
{
    if counts_keys {
        count_in(frequency, key)
    } else {
        Ok(())
    }
}

// The frequency, where it is known beforehand whether keys are counted.
#[inline(always)]
fn frequency_where(counts_keys: bool, frequency: &Option<Frequency>) -> Option<&Frequency>
    requires { counts_keys ≡ false → frequency.now ≡ None }
    ensures { option_map (λ f. f.now) result ≡ frequency.now }
{
    if counts_keys {
        frequency.as_ref()
    } else {
        None
    }
}

// Prepares the frequency, where keys are counted, for the next victim of an admission, once a miss in a full cache has
// decided on one. What it is asked of is then the same key for as long as it is not evicted.
#[inline(always)]
fn prepare_victim(
    design: QueueDesign,
    frequency: &mut Option<Frequency>,
    segments: &Segments,
    outcome: Outcome,
)
    ensures { frequency.new ≡ frequency.old }
{
    if !design.counts_keys || !is_of_full_cache(outcome) {
        return;
    }
    let queue = match design.layout {
        Layout::OneQueue => Queue::Window,
        Layout::TwoQueues | Layout::ThreeQueues => Queue::Probation,
    };
    if let Some(frequency) = frequency {
        if let Some(victim) = segments.oldest(queue) {
            frequency.prepare(victim.key);
        }
    }
}

// Whether an access was a miss in a full cache.
#[inline(always)]
fn is_of_full_cache(outcome: Outcome) -> bool
    ensures { result ≡ is_eviction outcome }
{
    match outcome {
        Outcome::Evicted(_) | Outcome::Rejected(_) => true,
        Outcome::Hit | Outcome::Kept => false,
    }
}

// Records a key where keys are counted.
#[inline(always)]
fn record_in(frequency: &mut Option<Frequency>, key: Key) -> Result<FreqRecord, AllocError>
    requires { halvings_in frequency.old ≤ MAX_STEPS }
    ensures after { OnOk result (frequency.new ≡ recorded_in key frequency.old) }
    ensures memory { OnErr result (FillsSample frequency.old) }
    ensures record { IfOk result (λ r. r ≡ counting_record key frequency.old) }
    ensures fits { IfOk result (λ r. FitsCounting r frequency.new) }
    ensures undone { IfOk result (λ r. unrecorded r frequency.new ≡ frequency.old) }
    ensures err { OnErr result (frequency.new ≡ frequency.old) }
{
    match frequency {
        Some(frequency) => frequency.record(key),
        None => Ok(FreqRecord::Nothing),
    }
}

// Undoes the recording of a key, if there was one.
fn unrecord_in(frequency: &mut Option<Frequency>, done: FreqRecord)
    requires { FitsCounting done frequency.old }
    ensures { frequency.new ≡ unrecorded done frequency.old }
{
    if let Some(frequency) = frequency {
        frequency.unrecord(done);
    }
}
