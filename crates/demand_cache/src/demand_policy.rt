//! The policies that keep each missed key: all that names one of them in code.
ghost use Rattle.std.specs.Prelude.{◌≡◌, Bool, ℕ, ◌+◌, ◌≤◌, ◌<◌, false, length, map, IfOk, OnOk, OnErr, IfSome, All};
ghost use Rattle.engine_base.specs.declared.limits.TheConstants.{MAX_CAPACITY, MAX_STEPS};
ghost use Rattle.queue_table.specs.QueueTable.{queues as queues_at};
ghost use Rattle.queue_table.specs.Queues.{QUEUES, Item, Queues};
ghost use Rattle.queue_table.specs.Moves.{Plan, item_of};
ghost use Rattle.queue_table.specs.Undoing.{IsAccessed};
ghost use Rattle.demand_cache.specs.DemandPolicy.{page_of, plan_by};
ghost use Rattle.demand_cache.specs.QueueRow.{named_row, IsLowRow};
ghost use Rattle.engine_base.specs.Machine.{state_after_all};
ghost use Rattle.demand_cache.specs.DemandCache.{IsCountedBy, DemandStops, demand_access};

use crate::demand_cache::DemandCache;
use engine_base::{Key, Outcome};
use policy_pages::two_q::TwoQSizes;
use policy_pages::{arc, car, clock, fifo, s3_fifo, sieve, two_q};
use queue_table::{Accessed, KeyName, KeyQueues};
use std::alloc::{AllocError, Global};

/// A policy that keeps each missed key, with the sizes of its parts where they are a choice. Any sizes will do.
#[derive(Clone, Copy, Debug, PartialEq, Eq)]
pub enum DemandPolicy {
    /// First in, first out (the textbook definition).
    Fifo,
    /// Second chance, as the clock of an operating system (Corbató 1969).
    Clock,
    /// A hand that passes over keys which were hit (NSDI 2024).
    Sieve,
    /// A small queue before a main one, with a ghost (SOSP 2023). The small queue is to have so many keys.
    S3Fifo(u32),
    /// A queue of new keys before an Lru queue, with a ghost (VLDB 1994).
    TwoQ(TwoQSizes),
    /// Recency beside frequency, each with a ghost, and a target that adapts (FAST 2003).
    Arc,
    /// Recency beside frequency by two clocks, each with a ghost, and a target that adapts (FAST 2004).
    Car,
}

/// What a policy shows under a name.
#[derive(Clone, Copy)]
pub(crate) enum QueueRow {
    /// The keys of a queue.
    Keys(&'static str, u8),
    /// The keys of a queue, each with its count.
    Counts(&'static str, u8),
    /// The policy's own number.
    OwnNumber(&'static str),
}

// Each selects the instance of an access that is part of a policy's loop.
pub(crate) struct FifoLoop;

pub(crate) struct ClockLoop;

pub(crate) struct SieveLoop;

pub(crate) struct S3FifoLoop;

pub(crate) struct TwoQLoop;

pub(crate) struct ArcLoop;

pub(crate) struct CarLoop;

// Selects the instance of a step whose undo record is read.
struct WithRecord;

/// What is read of an access that is not to be undone.
#[derive(Clone, Copy)]
pub(crate) struct Counted {
    pub outcome: Outcome,
    /// The policy's own number after it.
    pub own_number: u32,
}

impl<K: KeyName> DemandCache<K> {
    /// Makes the accesses in turn, none of which is to be undone: at most `MAX_STEPS` with those that it made. The one error
    /// is that an allocation failed: the cache has made those before an access that may ask for memory.
    // Each policy has a loop of its own: the instructions that tell the policies apart would be a tenth of an access.
    #[inline(never)]
    pub fn access_all(&mut self, keys: &[K]) -> Result<(), AllocError>
        requires { self.old.stats.accesses + length keys.now ≤ MAX_STEPS }
        ensures all { OnOk result (self.new ≡ state_after_all demand_access self.old (K.keys keys.now)) }
        ensures memory { OnErr result (DemandStops (K.keys keys.now) self.old self.new) }
    {
        match self.policy {
            DemandPolicy::Fifo => self.access_all_by::<FifoLoop>(DemandPolicy::Fifo, keys),
            DemandPolicy::Clock => self.access_all_by::<ClockLoop>(DemandPolicy::Clock, keys),
            DemandPolicy::Sieve => self.access_all_by::<SieveLoop>(DemandPolicy::Sieve, keys),
            DemandPolicy::S3Fifo(part) => {
                self.access_all_by::<S3FifoLoop>(DemandPolicy::S3Fifo(part), keys)
            }
            DemandPolicy::TwoQ(sizes) => {
                self.access_all_by::<TwoQLoop>(DemandPolicy::TwoQ(sizes), keys)
            }
            DemandPolicy::Arc => self.access_all_by::<ArcLoop>(DemandPolicy::Arc, keys),
            DemandPolicy::Car => self.access_all_by::<CarLoop>(DemandPolicy::Car, keys),
        }
    }
}

impl DemandPolicy {
    /// The queues in which the resident keys stand, where this is the policy's own number, with which some queues show a
    /// state.
    pub(crate) fn resident_queues(self, own_number: u32) -> (u8, Option<u8>)
        requires { (s : Queues) × (page_of self).IsShown own_number s }
        ensures is { result ≡ (page_of self).resident_queues own_number }
        ensures first { result.0 < QUEUES }
        ensures second { IfSome result.1 (λ q. q < QUEUES) }
    {
        match self {
            DemandPolicy::Fifo | DemandPolicy::Clock => (0, None),
            DemandPolicy::Sieve => {
                let ahead = queue_ahead(own_number);
                (1 - ahead, Some(ahead))
            }
            DemandPolicy::S3Fifo(_) | DemandPolicy::Arc | DemandPolicy::Car => (0, Some(1)),
            DemandPolicy::TwoQ(_) => (0, Some(2)),
        }
    }

    /// Under which names the policy shows which queues, where this is its own number, with which some queues show a state.
    pub(crate) fn queue_rows(self, own_number: u32) -> &'static [QueueRow]
        requires { (s : Queues) × (page_of self).IsShown own_number s }
        ensures rows { (s : Queues) → map (named_row own_number s) result.now
            ≡ (page_of self).named_queues ((page_of self).view own_number s) }
        ensures low { All IsLowRow result.now }
    {
        match self {
            DemandPolicy::Fifo => &[QueueRow::Keys("queue", 0)],
            DemandPolicy::Clock => &[QueueRow::Counts("queue", 0)],
            DemandPolicy::Sieve => sieve_rows(own_number),
            DemandPolicy::S3Fifo(_) => &[
                QueueRow::Counts("small", 0),
                QueueRow::Counts("main", 1),
                QueueRow::Keys("ghost", 2),
            ],
            DemandPolicy::TwoQ(_) => &[
                QueueRow::Keys("a1in", 0),
                QueueRow::Keys("am", 2),
                QueueRow::Keys("a1out", 1),
            ],
            DemandPolicy::Arc => &[
                QueueRow::Keys("t1", 0),
                QueueRow::Keys("t2", 1),
                QueueRow::Keys("b1", 2),
                QueueRow::Keys("b2", 3),
                QueueRow::OwnNumber("target"),
            ],
            DemandPolicy::Car => &[
                QueueRow::Counts("t1", 0),
                QueueRow::Counts("t2", 1),
                QueueRow::Keys("b1", 2),
                QueueRow::Keys("b2", 3),
                QueueRow::OwnNumber("target"),
            ],
        }
    }

    /// How many keys a full cache has in its queues at most, those that a ghost remembers among them: the index is made
    /// for so many, so that it is not rebuilt while the queues fill.
    pub(crate) fn keys_in(self, capacity: u32) -> u32
        requires { capacity ≤ MAX_CAPACITY }
        ensures { capacity ≤ result }
    {
        match self {
            DemandPolicy::Fifo | DemandPolicy::Clock | DemandPolicy::Sieve => capacity,
            DemandPolicy::S3Fifo(_)
            | DemandPolicy::TwoQ(_)
            | DemandPolicy::Arc
            | DemandPolicy::Car => 2 * capacity,
        }
    }

    /// The step of the policy, without its record. Each policy's is read where it was made: read after the `match`, they
    /// would all be made.
    ///
    /// `C` selects an instance (docs/ARCHITECTURE.md).
    #[inline(always)]
    pub(crate) fn count_out<C, K: KeyName>(
        self,
        queues: &mut KeyQueues<K>,
        capacity: u32,
        own_number: u32,
        key: K,
    ) -> Result<Counted, AllocError>
        requires least { 1 ≤ capacity }
        requires most { capacity ≤ MAX_CAPACITY }
        requires shown { (page_of self).IsShown own_number (queues_at queues.old) }
        requires state { (page_of self).IsState capacity ((page_of self).view own_number (queues_at queues.old)) }
        ensures counted { IfOk result (λ c. IsCountedBy (plan_by self capacity (K.key key) own_number
            (queues_at queues.old)) (item_of (K.key key)) (queues_at queues.old) (queues_at queues.new)
            c.outcome c.own_number) }
        ensures memory { OnErr result
            ((plan_by self capacity (K.key key) own_number (queues_at queues.old)).hits ≡ false) }
        ensures err { OnErr result (queues_at queues.new ≡ queues_at queues.old) }
    {
        match self {
            DemandPolicy::Fifo => without_record(fifo::step::<C, K>(
                queues, capacity, own_number, key,
            )),
            DemandPolicy::Clock => without_record(clock::step::<C, K>(
                queues, capacity, own_number, key,
            )),
            DemandPolicy::Sieve => without_record(sieve::step::<C, K>(
                queues, capacity, own_number, key,
            )),
            DemandPolicy::S3Fifo(part) => without_record(s3_fifo::step::<C, K>(
                queues, part, capacity, own_number, key,
            )),
            DemandPolicy::TwoQ(sizes) => without_record(two_q::step::<C, K>(
                queues, sizes, capacity, own_number, key,
            )),
            DemandPolicy::Arc => without_record(arc::step::<C, K>(
                queues, capacity, own_number, key,
            )),
            DemandPolicy::Car => without_record(car::step::<C, K>(
                queues, capacity, own_number, key,
            )),
        }
    }

    /// The step of the policy.
    #[inline(always)]
    pub(crate) fn step(
        self,
        queues: &mut KeyQueues,
        capacity: u32,
        own_number: u32,
        key: Key,
    ) -> Result<Accessed, AllocError>
        requires least { 1 ≤ capacity }
        requires most { capacity ≤ MAX_CAPACITY }
        requires shown { (page_of self).IsShown own_number (queues_at queues.old) }
        requires state { (page_of self).IsState capacity ((page_of self).view own_number (queues_at queues.old)) }
        ensures accessed { IfOk result (λ a. IsAccessed (plan_by self capacity key own_number (queues_at queues.old))
            (item_of key) own_number (queues_at queues.old) (queues_at queues.new) a) }
        ensures memory { OnErr result ((plan_by self capacity key own_number (queues_at queues.old)).hits ≡ false) }
        ensures err { OnErr result (queues_at queues.new ≡ queues_at queues.old) }
    {
        match self {
            DemandPolicy::Fifo => fifo::step::<WithRecord, Key>(queues, capacity, own_number, key),
            DemandPolicy::Clock => clock::step::<WithRecord, Key>(
                queues, capacity, own_number, key,
            ),
            DemandPolicy::Sieve => sieve::step::<WithRecord, Key>(
                queues, capacity, own_number, key,
            ),
            DemandPolicy::S3Fifo(part) => s3_fifo::step::<WithRecord, Key>(
                queues, part, capacity, own_number, key,
            ),
            DemandPolicy::TwoQ(sizes) => two_q::step::<WithRecord, Key>(
                queues, sizes, capacity, own_number, key,
            ),
            DemandPolicy::Arc => arc::step::<WithRecord, Key>(queues, capacity, own_number, key),
            DemandPolicy::Car => car::step::<WithRecord, Key>(queues, capacity, own_number, key),
        }
    }
}

// The queue of the keys ahead of SIEVE's hand, by the policy's own number.
fn queue_ahead(own_number: u32) -> u8
    requires { own_number ≤ 1 }
    ensures { result ≡ own_number }
{
    own_number as u8
}

// The rows of SIEVE, by the policy's own number.
fn sieve_rows(own_number: u32) -> &'static [QueueRow]
    requires { own_number ≤ 1 }
    ensures rows { (s : Queues) → map (named_row own_number s) result.now
        ≡ (page_of DemandPolicy.Sieve).named_queues ((page_of DemandPolicy.Sieve).view own_number s) }
    ensures low { All IsLowRow result.now }
{
    if own_number == 0 {
        &[QueueRow::Counts("passed", 1), QueueRow::Counts("ahead", 0)]
    } else {
        &[QueueRow::Counts("passed", 0), QueueRow::Counts("ahead", 1)]
    }
}

// What is read of a step.
#[inline(always)]
fn without_record(done: Result<Accessed, AllocError>) -> Result<Counted, AllocError>
    ensures counted { (p : Plan) (i : Item) (x : ℕ) (s u : Queues) → IfOk done (λ a. IsAccessed p i x s u a)
        → IfOk result (λ c. IsCountedBy p i s u c.outcome c.own_number) }
    ensures memory { (hits : Bool) → OnErr done (hits ≡ false) → OnErr result (hits ≡ false) }
    ensures err { (s u : Queues) → OnErr done (u ≡ s) → OnErr result (u ≡ s) }
{
    match done {
        Ok(done) => Ok(Counted {
            outcome: done.outcome,
            own_number: done.own_number,
        }),
        Err(fault) => Err(fault),
    }
}
