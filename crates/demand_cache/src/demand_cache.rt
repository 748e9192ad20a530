//! The engine: a cache whose accesses are counted and can be undone.
ghost use Rattle.std.specs.Prelude.{◌≡◌, ◌+◌, ◌≤◌, ◌↔◌, ◌++◌, [], ◌∷◌, length, map, Err, Some, None, IfOk, OnOk, OnErr};
ghost use Rattle.engine_base.specs.declared.limits.TheConstants.{MAX_CAPACITY, MAX_STEPS};
ghost use Rattle.engine_base.specs.Stats.{stats_of};
ghost use Rattle.queue_table.specs.QueueTable.{queues as queues_at};
ghost use Rattle.engine_base.specs.Machine.{state_after_all};
ghost use Rattle.demand_cache.specs.DemandQueues.{empty_cache, queues_residents, queues_named};
ghost use Rattle.demand_cache.specs.QueueRow.{named_row, numbered_keys, IsLowRow, IsQueueOf};
ghost use Rattle.segments.specs.NamedQueue.{plain_key};
ghost use Rattle.segments.specs.KeyRow.{has_named, is_number, row_of};
ghost use Rattle.queue_table.specs.Tabled.{keys_of};
ghost use Rattle.queue_table.specs.Queues.{Queues};

use crate::demand_policy::{DemandPolicy, QueueRow};
use engine_base::{Engine, Key, MAX_STEPS, Outcome, Stats, StepFault};
use queue_table::{Entry, KeyName, KeyQueues, Moves};
use segments::{NamedQueue, QueueKey};
use std::alloc::{AllocError, Global};
use std::marker::Model;

/// A cache of a policy that keeps each missed key.
#[derive(Drop)]
pub struct DemandCache<K: KeyName = Key> {
    pub(crate) policy: DemandPolicy,
    capacity: u32,
    /// The policy's own number: ARC's target, the queue that is ahead of SIEVE's hand.
    own_number: u32,
    queues: KeyQueues<K>,
    stats: Stats,
}

/// The undo record of an access: of fixed size, whatever the access moved.
#[derive(Clone, Copy)]
pub struct DemandRecord {
    /// What undoes the access to the queues.
    pub moves: Moves,
    /// The outcome that was counted.
    pub outcome: Outcome,
}

impl<K: KeyName> Model for DemandCache<K> {
    ghost use Rattle.queue_table.specs.QueueTable.{queues as queues_at};
    ghost use Rattle.queue_table.specs.Lists.{lists_of};
    ghost use Rattle.demand_cache.specs.DemandCache.{DemandState, IsDemand, state_of};

    ghost Value = { DemandState };

    ghost view = { λ t. state_of t.policy t.capacity t.own_number (lists_of (queues_at t.queues)) t.stats };

    ghost invariant = { λ t. IsDemand (state_of t.policy t.capacity t.own_number (lists_of (queues_at t.queues)) t.stats) };
}

impl<K: KeyName> DemandCache<K> {
    ghost use Rattle.demand_cache.specs.DemandCache.{demand_access, demand_act, demand_may_ask, DemandStops};

    /// An empty cache. Allocates nothing.
    pub fn new(alloc: Global, policy: DemandPolicy, capacity: u32) -> DemandCache<K>
        requires least { 1 ≤ capacity }
        requires most { capacity ≤ MAX_CAPACITY }
        ensures queues { result.queues ≡ empty_cache policy capacity }
        ensures stats { result.stats ≡ stats_of [] }
    {
        DemandCache {
            policy,
            capacity,
            own_number: 0,
            queues: KeyQueues::for_items(alloc, policy.keys_in(capacity)),
            stats: Stats::NONE,
        }
    }

    /// The same cache for keys of any width. The one error is that an allocation failed.
    pub fn widened(self) -> Result<DemandCache, AllocError>
        ensures { IfOk result (λ wide. wide ≡ self) }
    {
        let queues = self.queues.widened()?;
        Ok(DemandCache {
            policy: self.policy,
            capacity: self.capacity,
            own_number: self.own_number,
            queues,
            stats: self.stats,
        })
    }

    /// Reads ahead, for each few keys, what accesses to them read first, from the key at `i` on: to be called before
    /// each access of a loop over them. It changes nothing.
    #[inline(always)]
    pub fn prefetch_at(&mut self, keys: &[K], i: usize)
        requires { i ≤ length keys.now }
        ensures { self.new ≡ self.old }
    {
        self.queues.prefetch_at(keys, i);
    }

    /// The accesses of `access_all`, where the caller knows the policy, as a loop that is part of the caller.
    #[inline(always)]
    pub(crate) fn access_all_by<C>(
        &mut self,
        policy: DemandPolicy,
        keys: &[K],
    ) -> Result<(), AllocError>
        requires policy { policy ≡ self.old.queues.policy }
        requires room { self.old.stats.accesses + length keys.now ≤ MAX_STEPS }
        ensures all { OnOk result (self.new ≡ state_after_all demand_access self.old (K.keys keys.now)) }
        ensures memory { OnErr result (DemandStops (K.keys keys.now) self.old self.new) }
    {
        for i in 0..keys.len() {
            self.prefetch_at(keys, i);
            match self.access_by::<C>(policy, keys[i]) {
                Ok(_) => {}
                Err(StepFault::OutOfMemory) => return Err(AllocError),
                Err(StepFault::NotNow) => unreachable!(),
            }
        }
        Ok(())
    }

    // The access of `access`, where the caller knows the policy, so that no step of another one is compiled.
    #[inline(always)]
    fn access_by<C>(&mut self, policy: DemandPolicy, key: K) -> Result<Outcome, StepFault>
        requires { policy ≡ self.old.queues.policy }
        ensures accepted { IfOk result (λ o. demand_act self.old (K.key key) ≡ Some (o, self.new)) }
        ensures not_now { result ≡ Err StepFault.NotNow ↔ demand_act self.old (K.key key) ≡ None }
        ensures memory { result ≡ Err StepFault.OutOfMemory → demand_may_ask self.old (K.key key) }
        ensures err { OnErr result (self.new ≡ self.old) }
        ensures policy { self.new.queues.policy ≡ self.old.queues.policy }
    {
        if self.stats.accesses == MAX_STEPS {
            return Err(StepFault::NotNow);
        }
        self.queues.tabled();
        match policy.count_out::<C, K>(&mut self.queues, self.capacity, self.own_number, key) {
            Err(_) => Err(StepFault::OutOfMemory),
            Ok(done) => {
                self.own_number = done.own_number;
                self.stats.count(done.outcome);
                Ok(done.outcome)
            }
        }
    }

    /// What was counted of the applied accesses.
    pub fn stats(&self) -> Stats
        ensures { result ≡ self.now.stats }
    {
        self.stats
    }
}

impl DemandCache {
    ghost use Rattle.demand_cache.specs.DemandCache.{demand_act, demand_may_ask};

    /// Makes an access that is not to be undone: that of `apply`, without its undo record. It is part of its caller, so
    /// that the record is not made.
    ///
    /// Errors: `NotNow` exactly where `MAX_STEPS` accesses are applied, and `OutOfMemory`; each leaves the cache as it
    /// was.
    ///
    /// `C` selects an instance (docs/ARCHITECTURE.md).
    #[inline(always)]
    pub fn access<C>(&mut self, key: Key) -> Result<Outcome, StepFault>
        ensures accepted { IfOk result (λ o. demand_act self.old key ≡ Some (o, self.new)) }
        ensures not_now { result ≡ Err StepFault.NotNow ↔ demand_act self.old key ≡ None }
        ensures memory { result ≡ Err StepFault.OutOfMemory → demand_may_ask self.old key }
        ensures err { OnErr result (self.new ≡ self.old) }
    {
        self.access_by::<C>(self.policy, key)
    }

    /// The resident keys, queue by queue, oldest first. The one error is that an allocation failed.
    pub fn residents(&self, alloc: Global) -> Result<Vec<Key>, AllocError>
        ensures { IfOk result (λ keys. keys.items ≡ queues_residents self.now.queues) }
    {
        let mut keys = Vec::new(alloc);
        self.add_residents(&mut keys)?;
        Ok(keys)
    }

    /// The queues under their names, with the keys, oldest first, and the numbers beside these. The one error is that an
    /// allocation failed.
    pub fn named_queues(&self, alloc: Global) -> Result<Vec<NamedQueue>, AllocError>
        ensures { IfOk result (λ named. named.items ≡ queues_named self.now.queues) }
    {
        self.queues.tabled();
        let mut named = Vec::new(alloc);
        for row in self.policy.queue_rows(self.own_number) {
            push_row(alloc, &mut named, &self.queues, self.own_number, *row)?;
        }
        Ok(named)
    }

    /// The number of the first of the queues, in the order of `named_queues`, that has the key. A target has the key that
    /// is its size.
    pub fn row_of(&self, key: Key) -> Option<usize>
        ensures { result ≡ row_of key (queues_named self.now.queues) }
    {
        self.queues.tabled();
        let rows = self.policy.queue_rows(self.own_number);
        first_row(rows, self.own_number, queue_of(&self.queues, key), key)
    }

    // Appends the resident keys.
    fn add_residents(&self, keys: &mut Vec<Key>) -> Result<(), AllocError>
        ensures { OnOk result (keys.new.items ≡ keys.old.items ++ queues_residents self.now.queues) }
    {
        self.queues.tabled();
        let (first, second) = self.policy.resident_queues(self.own_number);
        self.queues.add_keys(first, keys)?;
        match second {
            Some(second) => self.queues.add_keys(second, keys),
            None => Ok(()),
        }
    }
}

// Appends what a policy shows under a name, of the queues and its own number.
fn push_row(
    alloc: Global,
    named: &mut Vec<NamedQueue>,
    queues: &KeyQueues,
    own_number: u32,
    row: QueueRow,
) -> Result<(), AllocError>
    requires { IsLowRow row }
    ensures { OnOk result (named.new.items ≡ named.old.items ++ named_row own_number (queues_at queues.now) row ∷ []) }
{
    let mut keys = Vec::new(alloc);
    let name = match row {
        QueueRow::Keys(name, queue) => {
            push_plain(&mut keys, &queues.entries(queue)?)?;
            name
        }
        QueueRow::Counts(name, queue) => {
            push_counted(&mut keys, &queues.entries(queue)?)?;
            name
        }
        QueueRow::OwnNumber(name) => {
            keys.push(QueueKey {
                key: u64::from(own_number),
                number: None,
            })?;
            name
        }
    };
    named.push(NamedQueue::new(name, keys))?;
    Ok(())
}

// Appends the keys of entries.
fn push_plain(keys: &mut Vec<QueueKey>, entries: &[Entry]) -> Result<(), AllocError>
    ensures { OnOk result (keys.new.items ≡ keys.old.items ++ map plain_key (keys_of entries.now)) }
{
    for entry in entries {
        keys.push(QueueKey {
            key: entry.item.key,
            number: None,
        })?;
    }
    Ok(())
}

// Appends the keys of entries, each with its count.
fn push_counted(keys: &mut Vec<QueueKey>, entries: &[Entry]) -> Result<(), AllocError>
    ensures { OnOk result (keys.new.items ≡ keys.old.items ++ numbered_keys entries.now) }
{
    for entry in entries {
        keys.push(QueueKey {
            key: entry.item.key,
            number: Some(u64::from(entry.count)),
        })?;
    }
    Ok(())
}

// The queue in which the key stands.
fn queue_of(queues: &KeyQueues, key: Key) -> Option<u8>
    ensures { IsQueueOf key (queues_at queues.now) result }
{
    queues.tabled();
    match queues.find(key) {
        Some(found) => Some(found.queue),
        None => None,
    }
}

// The number of the first of the rows that has the key, where this is the queue in which it stands.
fn first_row(rows: &[QueueRow], own_number: u32, queue: Option<u8>, key: Key) -> Option<usize>
    ensures { (s : Queues) → IsQueueOf key s queue → result ≡ row_of key (map (named_row own_number s) rows.now) }
{
    for i in 0..rows.len() {
        if has_key(rows[i], own_number, queue, key) {
            return Some(i);
        }
    }
    None
}

// Whether the row has the key, where this is the queue in which it stands.
fn has_key(row: QueueRow, own_number: u32, queue: Option<u8>, key: Key) -> bool
    ensures { (s : Queues) → IsQueueOf key s queue → result ≡ has_named key (named_row own_number s row) }
{
    match row {
        QueueRow::Keys(_, number) => is_queue(queue, number),
        QueueRow::Counts(_, number) => is_queue(queue, number),
        QueueRow::OwnNumber(_) => key == u64::from(own_number),
    }
}

// Whether there is a queue, and it has this number.
fn is_queue(queue: Option<u8>, number: u8) -> bool
    ensures { result ≡ is_number number queue }
{
    match queue {
        Some(queue) => queue == number,
        None => false,
    }
}

impl Engine for DemandCache {
    ghost use Rattle.std.specs.Prelude.{refl};
    ghost use Rattle.engine_base.proofs.Limited.{related, ended};
    ghost use Rattle.demand_cache.specs.DemandCache.{demand_act, demand_record_of, demand_undone, demand_asks, DemandFits};
    ghost use Rattle.demand_cache.specs.DemandCache.{demand_access, demand_count, demand_may_ask};
    ghost use Rattle.engine_base.specs.Pace.{pace_without_sketch, still-paced};

    type Step = Key;

    type Reply = Outcome;

    type Record = DemandRecord;

    type Data = DemandCache;

    ghost seen = { λ t. t };

    ghost act = { demand_act };

    ghost record_of = { demand_record_of };

    ghost may_ask = { demand_may_ask };

    ghost fits = { DemandFits };

    ghost undone = { demand_undone };

    ghost asks = { demand_asks };

    ghost count = { demand_count };

    ghost words_of = { λ r. 0 };

    ghost pace = { λ d. pace_without_sketch };

    fn apply(&mut self, step: &Key) -> Result<(Outcome, DemandRecord), StepFault> {
        if self.stats.accesses == MAX_STEPS {
            return Err(StepFault::NotNow);
        }
        self.queues.tabled();
        match self
            .policy
            .step(&mut self.queues, self.capacity, self.own_number, *step)
        {
            Err(_) => Err(StepFault::OutOfMemory),
            Ok(done) => {
                self.own_number = done.own_number;
                self.stats.count(done.outcome);
                let record = DemandRecord {
                    moves: done.moves,
                    outcome: done.outcome,
                };
                Ok((done.outcome, record))
            }
        }
    }

    fn undo(&mut self, done: DemandRecord) -> Result<(), DemandRecord> {
        self.queues.tabled();
        match self.queues.undo(done.moves) {
            Err(_) => Err(done),
            Ok(()) => {
                self.queues.tabled();
                self.own_number = done.moves.own_number;
                self.stats.uncount(done.outcome);
                Ok(())
            }
        }
    }

    fn standing(&self) -> u64 {
        self.stats.accesses
    }

    fn words(_done: &DemandRecord) -> u64 {
        0
    }

    ghost counted = { related demand_count demand_access (λ d e. demand_count e ≡ demand_count d + 1) (λ k d. refl) };

    ghost counted_out = { ended demand_count demand_access };

    ghost paced = { λ d s r e h. still-paced };
}
