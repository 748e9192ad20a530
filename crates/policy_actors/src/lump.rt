//! What is fed to the actors of a run: lumps of a trace, cut into batches that share their accesses.
ghost use Rattle.std.specs.Prelude.{◌≡◌, ◌+◌, ◌-◌, ◌*◌, ◌<◌, ◌≤◌, ℕ, List, Option, IfOk, IfSome, length, take, drop, true, false};
ghost use Rattle.std.specs.Arc.{arc_value};
ghost use Rattle.std.proofs.Props.{props};
ghost use Rattle.engine_base.specs.declared.limits.TheConstants.{MAX_STEPS};
ghost use Rattle.policy_actors.specs.ChannelProtocol.{IsBatch};
ghost use Rattle.policy_actors.specs.Lumps.{AreAt, batches_of};

use crate::channel_protocol::Batch;
use std::alloc::{AllocError, Global};
use std::marker::{Brand, Model, PhantomData};
use std::sync::Arc;
use step_record::Key;

// The most accesses that wait for an actor, 32 MiB that all actors share: an actor can lag that far before the feeder
// waits for it.
const MAX_WAITING: usize = 4_194_304;

// The most batches that wait in a channel, which are those accesses at the size of a batch that the program has by
// default. All places are written when the channel is made, 0.07 ms for a thousand.
const MAX_WAITING_BATCHES: usize = 4096;

/// The trace that is fed, where its keys are known when the actors start, how many of them go to a batch, and how many
/// there are at most. It stands for values that are known at run time only.
pub trait FedTrace {
    ghost known: { Option (List ℕ) };

    ghost size: { ℕ };

    ghost most: { ℕ };
}

impl FedTrace for Brand {
    ghost use Rattle.std.specs.Prelude.{None};

    ghost known = { None };

    ghost size = { 0 };

    ghost most = { 0 };
}

/// How many accesses go to a batch of the trace that is fed, which has no more than an engine counts.
pub struct BatchSize<S: FedTrace> {
    pub accesses: usize,
    marker: PhantomData<S>,
    pub ghost known: { accesses ≡ S.size },
    pub ghost some: { 0 < accesses },
    pub ghost few: { S.most ≤ MAX_STEPS },
}

impl<S: FedTrace> Copy for BatchSize<S> {}

impl<S: FedTrace> Clone for BatchSize<S> {
    fn clone(&self) -> Result<Self, AllocError> {
        Ok(*self)
    }
}

impl<S: FedTrace> BatchSize<S> {
    pub fn new(accesses: usize) -> BatchSize<S>
        requires known { accesses ≡ S.size }
        requires some { 0 < accesses }
        requires few { S.most ≤ MAX_STEPS }
        ensures { result.accesses ≡ accesses }
    {
        BatchSize {
            accesses,
            marker: PhantomData,
        }
    }

    /// How many batches so many accesses make: the last one may be shorter, and no accesses are one empty batch.
    pub fn batches(&self, accesses: usize) -> usize
        ensures exact { result ≡ batches_of accesses self.now.accesses }
        ensures all { accesses ≤ result * self.now.accesses }
        ensures some { 0 < result }
    {
        accesses.div_ceil(self.accesses).max(1)
    }

    /// How many batches of a trace of so many accesses may wait for an actor.
    pub fn waiting(&self, accesses: usize) -> usize
        ensures { 0 < result }
    {
        self.batches(accesses.min(MAX_WAITING))
            .min(MAX_WAITING_BATCHES)
    }
}

/// Accesses that stand at one place of the trace that is fed, from which each actor is given its batches.
pub struct Lump<S: FedTrace> {
    accesses: Arc<Vec<Key>>,
    place: usize,
    // Nothing follows the accesses.
    is_end: bool,
    size: BatchSize<S>,
    ghost few: { 0 < length (arc_value accesses).items → place + length (arc_value accesses).items ≤ S.most },
    ghost piece: { IfSome S.known (λ all. (arc_value accesses).items
        ≡ take (length (arc_value accesses).items) (drop place all)) } by { Prim.hlevel props },
    ghost at_end: { IfSome S.known
        (λ all. is_end ≡ true → (arc_value accesses).items ≡ drop place all) } by { Prim.hlevel props },
    ghost before_end: { IfSome S.known (λ all. is_end ≡ false → 0 < length (arc_value accesses).items
        → place + length (arc_value accesses).items < length all) } by { Prim.hlevel props },
}

impl<S: FedTrace> Drop for Lump<S> {
    fn drop(self) {
        let Lump {
            accesses: _,
            place: _,
            is_end: _,
            size: _,
        } = self;
    }
}

impl<S: FedTrace> Lump<S> {
    /// These accesses, which stand at this place. The one error is out of memory.
    pub fn new(
        alloc: Global,
        accesses: Vec<Key>,
        place: usize,
        is_end: bool,
        size: BatchSize<S>,
    ) -> Result<Lump<S>, AllocError>
        requires few { 0 < length accesses.items → place + length accesses.items ≤ S.most }
        requires at { IfSome S.known (λ all. AreAt all place is_end accesses.items) }
    {
        let accesses = Arc::new(alloc, accesses)?;
        Ok(Lump {
            accesses,
            place,
            is_end,
            size,
        })
    }

    /// The batch with this number, of which nothing is copied. `None` where it is not in the lump as a whole, or 2^63
    /// batches share the lump already.
    pub fn batch(&self, number: u64) -> Option<Batch>
        ensures { IfSome result (IsBatch S.known S.most S.size number) }
    {
        let size = self.size.accesses;
        let start = (number as usize)
            .checked_mul(size)?
            .checked_sub(self.place)?;
        let left = self.accesses.len().checked_sub(start)?;
        if left < size && !self.is_end {
            return None;
        }
        let keys = SharedKeys::of(&self.accesses, start, size.min(left)).ok()?;
        Some(Batch {
            number,
            last: left <= size && self.is_end,
            keys,
        })
    }
}

/// A stretch of the keys of a lump, which is dropped with the last of those who share it.
#[derive(Drop)]
pub struct SharedKeys {
    keys: Arc<Vec<Key>>,
    start: usize,
    end: usize,
}

impl Model for SharedKeys {
    ghost use Rattle.std.specs.Prelude.{ℕ, List, ◌≤◌, ◌-◌, length, take, drop};
    ghost use Rattle.std.specs.Arc.{arc_value};

    ghost Value = { List ℕ };

    ghost view = { λ k. take (k.end - k.start) (drop k.start (arc_value k.keys).items) };

    ghost invariant = { λ k. (k.start ≤ k.end) × (k.end ≤ length (arc_value k.keys).items) };
}

impl SharedKeys {
    // So many of the keys, from this index on. The one error is that 2^63 share them already.
    fn of(keys: &Arc<Vec<Key>>, start: usize, len: usize) -> Result<SharedKeys, AllocError>
        requires { start + len ≤ length (arc_value keys.now).items }
        ensures { IfOk result (λ k. k ≡ take len (drop start (arc_value keys.now).items)) }
    {
        let keys = Arc::try_clone(keys)?;
        Ok(SharedKeys {
            keys,
            start,
            end: start + len,
        })
    }

    pub fn as_slice(&self) -> &[Key]
        ensures { result.now ≡ self.now }
    {
        &self.keys[self.start..self.end]
    }
}
