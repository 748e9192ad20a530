//! The cache that knows the trace.
ghost use Rattle.std.specs.Prelude.{◌≡◌, suc, ◌-◌, ◌*◌, ◌≤◌, ◌<◌, length, map, slice_index, IfSome};
ghost use Rattle.std.specs.Prelude.{IfOk, Ok, Some, None};
ghost use Rattle.engine_base.specs.declared.limits.TheConstants.{MAX_ACCESSES, MAX_CAPACITY};
ghost use Rattle.clairvoyant.specs.Ranks.{rank, rank_by, key_at};
ghost use Rattle.clairvoyant.specs.RankSet.{IsTied};
ghost use Rattle.clairvoyant.specs.Belady.{belady_residents};
ghost use Rattle.clairvoyant.specs.OptimalRecord.{record_at};
ghost use Rattle.clairvoyant.specs.Keys.{IsAscendingKeys};
ghost use Rattle.clairvoyant.specs.NextAccesses.{renumbered};
ghost use Rattle.segments.specs.NamedQueue.{numbered_key};

use crate::BitSet;
use crate::optimal_record::{EvictedKey, OptimalRecord};
use engine_base::{Engine, Key, Outcome, Stats, StepFault};
use segments::{NamedQueue, QueueKey};
use std::alloc::{AllocError, Global};
use std::marker::Model;
use trace_index::NextUse;

/// A cache that serves the accesses of a trace in order. On a miss in a full cache, of the
/// residents and the new key the one whose next use is farthest leaves (Belady 1966): a key that
/// is never used again counts as farther than any that is, and of several such keys the one whose
/// last access is earliest leaves.
pub struct Clairvoyant {
    core: OptimalCore,
    ranks: BitSet,
    stats: Stats,
}

impl Drop for Clairvoyant {
    fn drop(self) {
        let Clairvoyant {
            core: _,
            ranks: _,
            stats: _,
        } = self;
    }
}

impl Model for Clairvoyant {
    ghost use Rattle.clairvoyant.specs.Clairvoyant.{ClairvoyantState};
    ghost use Rattle.clairvoyant.specs.Representation.{shown, IsRepresented};

    ghost Value = { ClairvoyantState };

    ghost view = { λ l. shown l.core.capacity l.core.uses l.stats };

    ghost invariant = { λ l. IsRepresented l.core.capacity l.core.uses l.stats l.ranks };
}

// The trace and the capacity, which no access changes.
#[derive(Drop)]
struct OptimalCore {
    uses: NextUse,
    capacity: usize,
}

impl OptimalCore {
    // Makes the access at a place: changes the ranks that are held, `held` of them before, and
    // returns its undo record. Part of its caller, as `apply` is: out of line it would write the record and look up the
    // key that left, whoever calls it.
    #[inline(always)]
    fn serve(&self, ranks: &mut BitSet, held: usize, place: usize) -> OptimalRecord
        requires place { place < length self.now.uses }
        requires tied { IsTied self.now.uses place (belady_residents self.now.capacity self.now.uses place) ranks.old }
        requires held { held ≡ length (belady_residents self.now.capacity self.now.uses place) }
        ensures tied { IsTied self.now.uses (suc place)
            (belady_residents self.now.capacity self.now.uses (suc place)) ranks.new }
        ensures record { result ≡ record_at self.now.capacity self.now.uses place }
    {
        let former = 2 * self.uses.len() - 1 - place;
        let rank = self.rank(place);
        if ranks.has(former) {
            ranks.take(former);
            ranks.put(rank as usize);
            return OptimalRecord::Hit;
        }
        if held < self.capacity {
            ranks.put(rank as usize);
            return OptimalRecord::Kept;
        }
        match ranks.least_below(rank as usize) {
            Some(least) => {
                ranks.take(least);
                ranks.put(rank as usize);
                OptimalRecord::Evicted(EvictedKey {
                    key: self.key_at(least),
                    rank: least as u32,
                })
            }
            None => OptimalRecord::Rejected(self.uses.key(place)),
        }
    }

    // Takes back what the access at a place did to the ranks that are held.
    fn unserve(&self, ranks: &mut BitSet, place: usize, done: OptimalRecord)
        requires place { place < length self.now.uses }
        requires tied { IsTied self.now.uses (suc place)
            (belady_residents self.now.capacity self.now.uses (suc place)) ranks.old }
        requires record { done ≡ record_at self.now.capacity self.now.uses place }
        ensures { IsTied self.now.uses place (belady_residents self.now.capacity self.now.uses place) ranks.new }
    {
        let rank = self.rank(place) as usize;
        match done {
            OptimalRecord::Hit => {
                ranks.take(rank);
                ranks.put(2 * self.uses.len() - 1 - place);
            }
            OptimalRecord::Kept => ranks.take(rank),
            OptimalRecord::Evicted(gone) => {
                ranks.take(rank);
                ranks.put(gone.rank as usize);
            }
            OptimalRecord::Rejected(_) => {}
        }
    }

    // The rank of the key that is accessed at a place, after that access.
    //
    // A rank is one number for when a key is used next: in a trace of `n` accesses, a key that is used next at place
    // `p` has rank `2 * n - 1 - p`, and a key that is never used again has the place of its last access for its rank.
    // So the key whose next use is farthest ranks least, and of keys that are never used again the one whose last
    // access is earliest.
    #[inline(always)]
    fn rank(&self, place: usize) -> u32
        requires { place < length self.now.uses }
        ensures rank { result ≡ rank self.now.uses (suc place) (slice_index self.now.uses place) }
        ensures within { result < 2 * length self.now.uses }
    {
        let next = self.uses.next(place);
        rank_by(self.uses.len(), next, place)
    }

    // The key that a rank is of.
    fn key_at(&self, rank: usize) -> Key
        requires { rank < 2 * length self.now.uses }
        ensures { result ≡ key_at self.now.uses rank }
    {
        let len = self.uses.len();
        if rank < len {
            self.uses.key(rank)
        } else {
            self.uses.key(2 * len - 1 - rank)
        }
    }
}

// The rank of a key that is used next at one place and was used last at another.
fn rank_by(len: usize, next: Option<u32>, last: usize) -> u32
    requires few { len ≤ MAX_ACCESSES }
    requires next { IfSome next (λ n. n < len) }
    requires last { last < len }
    ensures rank { result ≡ rank_by len next last }
    ensures within { result < 2 * len }
{
    match next {
        Some(next) => (2 * len - 1) as u32 - next,
        None => last as u32,
    }
}

impl Clairvoyant {
    ghost use Rattle.clairvoyant.specs.Clairvoyant.{clairvoyant_at, IsBeladyReached};
    ghost use Rattle.clairvoyant.specs.NextAccesses.{clairvoyant_queues, next_accesses};

    /// An empty cache at the start of a trace, for 1 to `MAX_CAPACITY` keys. The only error is that an allocation
    /// failed; a cache that is open asks for no more.
    pub fn open(alloc: Global, uses: NextUse, capacity: u32) -> Result<Clairvoyant, AllocError>
        requires { (1 ≤ capacity) × (capacity ≤ MAX_CAPACITY) }
        ensures { IfOk result (λ l. l ≡ clairvoyant_at capacity uses 0) }
    {
        let ranks = BitSet::new(alloc, 2 * uses.len())?;
        let capacity = capacity as usize;
        Ok(Clairvoyant {
            core: OptimalCore { uses, capacity },
            ranks,
            stats: Stats::NONE,
        })
    }

    /// Every cache stands where the first accesses of its trace lead to. This does nothing: its contract is the fact.
    pub fn reached(&self)
        ensures { IsBeladyReached self.now }
    {
        let _core = &self.core;
    }

    /// What was counted of the accesses that stand.
    pub fn stats(&self) -> Stats
        ensures { result ≡ self.now.stats }
    {
        self.stats
    }

    /// The keys that it holds, ascending. The only error is out of memory.
    pub fn residents(&self, alloc: Global) -> Result<Vec<Key>, AllocError>
        ensures { IfOk result (λ keys. keys.items ≡ self.now.residents) }
    {
        let mut keys = Vec::new(alloc);
        let size = 2 * self.core.uses.len();
        for rank in 0..size {
            if self.ranks.has(rank) {
                keys.push(self.core.key_at(rank))?;
            }
        }
        keys.sort_unstable();
        Ok(keys)
    }

    /// Its keys, ascending, as a queue by the name `next`, each with the access at which it comes next, counted from 1,
    /// and 0 where it never does. The only error is out of memory.
    pub fn named_queues(&self, alloc: Global) -> Result<Vec<NamedQueue>, AllocError>
        ensures { IfOk result (λ named. named.items ≡ clairvoyant_queues self.now) }
    {
        let keys = self.residents(alloc)?;
        let next = self.next_accesses(alloc, &keys)?;
        let mut named = Vec::new(alloc);
        named.push(NamedQueue::new("next", next))?;
        Ok(named)
    }

    // Each of the resident keys with its next access: from the last access of the trace back to the next one, so that of
    // the uses of a key the first stands.
    fn next_accesses(&self, alloc: Global, keys: &[Key]) -> Result<Vec<QueueKey>, AllocError>
        requires { keys.now ≡ self.now.residents }
        ensures { IfOk result (λ next. next.items ≡ next_accesses self.now) }
    {
        let mut next = never_used(alloc, keys)?;
        let made = self.stats.accesses as usize;
        let mut place = self.core.uses.len();
        while place > made {
            place -= 1;
            renumber(&mut next, keys, self.core.uses.key(place), place as u64 + 1);
        }
        Ok(next)
    }
}

// The keys, of which none is used again.
fn never_used(alloc: Global, keys: &[Key]) -> Result<Vec<QueueKey>, AllocError>
    ensures { IfOk result (λ next. next.items ≡ map (λ k. numbered_key k 0) keys.now) }
{
    let mut next = Vec::new(alloc);
    for key in keys {
        next.push(QueueKey {
            key: *key,
            number: Some(0),
        })?;
    }
    Ok(next)
}

// Puts a number beside a key, where it is among the keys.
fn renumber(next: &mut Vec<QueueKey>, keys: &[Key], key: Key, number: u64)
    requires keys { map (λ e. e.key) next.old.items ≡ keys.now }
    requires ascending { IsAscendingKeys keys.now }
    ensures { next.new.items ≡ renumbered key number next.old.items }
{
    if let Ok(i) = keys.binary_search(&key) {
        next[i] = QueueKey {
            key,
            number: Some(number),
        };
    }
}

impl Engine for Clairvoyant {
    ghost use Rattle.clairvoyant.specs.Clairvoyant.{clairvoyant_act};
    ghost use Rattle.clairvoyant.specs.OptimalRecord.{record_at, clairvoyant_undone, ClairvoyantFits};
    ghost use Rattle.clairvoyant.specs.StepCount.{act_counts, act_ends};
    ghost use Rattle.engine_base.specs.Pace.{pace_without_sketch, still-paced};

    type Step = Key;

    type Reply = Outcome;

    type Record = OptimalRecord;

    type Data = Clairvoyant;

    ghost seen = { λ l. l };

    ghost act = { clairvoyant_act };

    // The record is that of the access at this place of the trace.
    ghost record_of = { λ k d. record_at d.capacity d.trace d.stats.accesses };

    // No access takes memory.
    ghost may_ask = { λ d k. ⊥ };

    ghost fits = { ClairvoyantFits };

    ghost undone = { clairvoyant_undone };

    // Undoing takes no memory.
    ghost asks = { λ r. ⊥ };

    ghost count = { λ d. d.stats.accesses };

    ghost words_of = { λ r. 0 };

    ghost pace = { λ d. pace_without_sketch };

    // Part of its caller, so that one who reads no record does not look up the key that left: that would wait for memory.
    #[inline(always)]
    fn apply(&mut self, step: &Key) -> Result<(Outcome, OptimalRecord), StepFault> {
        let place = self.stats.accesses as usize;
        if place >= self.core.uses.len() {
            return Err(StepFault::NotNow);
        }
        if self.core.uses.key(place) != *step {
            return Err(StepFault::NotNow);
        }
        let held = (self.stats.misses - self.stats.evictions) as usize;
        let record = self.core.serve(&mut self.ranks, held, place);
        let outcome = record.outcome();
        self.stats.count(outcome);
        Ok((outcome, record))
    }

    fn undo(&mut self, done: OptimalRecord) -> Result<(), OptimalRecord> {
        let place = (self.stats.accesses - 1) as usize;
        self.core.unserve(&mut self.ranks, place, done);
        self.stats.uncount(done.outcome());
        Ok(())
    }

    fn standing(&self) -> u64 {
        self.stats.accesses
    }

    fn words(_done: &OptimalRecord) -> u64 {
        0
    }

    ghost counted = { act_counts };

    ghost counted_out = { act_ends };

    ghost paced = { λ d s r e h. still-paced };
}
