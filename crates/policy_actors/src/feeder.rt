//! What feeds the actors of a run, and how far they are.
ghost use Rattle.std.specs.Prelude.{◌≡◌, ◌+◌, ◌-◌, ◌*◌, ◌<◌, ◌≤◌, IfOk, IfSome, IsTrue, OnErr, OnOk, length, take, drop};
ghost use Rattle.policy_actors.specs.Lumps.{AreAt, batches_of};

use crate::lump::{BatchSize, FedTrace, Lump};
use crate::mail::Outboxes;
use std::alloc::{AllocError, Global};
use std::mem;
use std::sync::Wait;
use std::sync::atomic::AtomicU64;
use std::sync::atomic::Ordering::Relaxed;
use step_record::Key;

// Fewer accesses than this are not handed over before the end: it bounds how often an actor that is faster than the
// feeder sleeps and is woken.
const MIN_LUMP: usize = 16_384;

// Where more accesses than this wait in the channels, fewer than this are not handed over, so that those that wait for
// slow actors are a few large lumps.
const LONG_LUMP: usize = 262_144;

// The room for a lump: for the accesses up to `MIN_LUMP`, and those of the piece that passes it.
const LUMP_ROOM: usize = 65_536;

/// What gives the accesses of a trace to the actors, lump by lump.
pub struct Feeder<'b, S: FedTrace, W: Wait> {
    rt: &'b W,
    pub alloc: Global,
    ends: Outboxes<S>,
    size: BatchSize<S>,
    // Batches finished by all actors together. It only paces the feeding.
    finished: &'b AtomicU64,
    // How many accesses were taken.
    pub place: usize,
    // No actor is gone, and nothing was out of memory.
    is_open: bool,
}

impl<'b, S: FedTrace, W: Wait> Drop for Feeder<'b, S, W> {
    fn drop(self) {
        let Feeder {
            rt: _,
            alloc: _,
            ends: _,
            size: _,
            finished: _,
            place: _,
            is_open: _,
        } = self;
    }
}

impl<'b, S: FedTrace, W: Wait> Feeder<'b, S, W> {
    /// A feeder that has given nothing yet.
    pub fn new(
        rt: &'b W,
        alloc: Global,
        ends: Outboxes<S>,
        size: BatchSize<S>,
        finished: &'b AtomicU64,
    ) -> Feeder<'b, S, W>
        ensures { result.place ≡ 0 }
    {
        Feeder {
            rt,
            alloc,
            ends,
            size,
            finished,
            place: 0,
            is_open: true,
        }
    }

    /// Takes as many as are due of the accesses that were read and not taken yet, from the first on, and leaves the others.
    /// Where an actor is gone they are only counted, so that none of them stay in memory: it is fed to the end also then,
    /// so that a fault of the trace is found.
    pub fn take(&mut self, keys: &mut Vec<Key>)
        requires few { self.old.place + length keys.old.items ≤ S.most }
        requires next { IfSome S.known (λ all.
            keys.old.items ≡ take (length keys.old.items) (drop self.old.place all)) }
        ensures order { self.old.place ≤ self.new.place }
        ensures taken { self.new.place + length keys.new.items ≡ self.old.place + length keys.old.items }
        ensures left { keys.new.items ≡ drop (self.new.place - self.old.place) keys.old.items }
    {
        if !self.is_open {
            self.place += keys.len();
            keys.clear();
            return;
        }
        let batches = self.batches_due(keys.len());
        if batches == 0 {
            return;
        }
        match take_front(self.alloc, keys, batches * self.size.accesses) {
            Ok(front) => self.give(front, false),
            Err(_) => self.is_open = false,
        }
    }

    /// Gives each end these accesses, which come next: each batch to all of them before the next. At the end they are
    /// all that is left of the trace; before that they are whole batches, with an access after them.
    pub fn give(&mut self, accesses: Vec<Key>, is_end: bool)
        requires few { self.old.place + length accesses.items ≤ S.most }
        requires next { IfSome S.known (λ all. AreAt all self.old.place is_end accesses.items) }
        ensures place { self.new.place ≡ self.old.place + length accesses.items }
        ensures sent { IsTrue self.new.is_open → self.new.ends.sent
            ≡ self.old.ends.sent + batches_of (length accesses.items) self.old.size.accesses }
    {
        let place = self.place;
        self.place += accesses.len();
        if !self.is_open {
            return;
        }
        let batches = self.size.batches(accesses.len());
        self.is_open = match Lump::new(self.alloc, accesses, place, is_end, self.size) {
            Ok(lump) => send_lump(self.rt, &mut self.ends, &lump, batches),
            Err(_) => false,
        };
    }

    // How many batches to give now of the accesses that were read: whole ones, with an access after them.
    fn batches_due(&self, read: usize) -> usize
        ensures { 0 < result → result * self.now.size.accesses < read }
    {
        let size = self.size.accesses;
        let sent = self.ends.sent.saturating_mul(self.ends.len() as u64);
        let waiting = sent.saturating_sub(self.finished.load(Relaxed));
        let is_behind = waiting.saturating_mul(size as u64) > LONG_LUMP as u64;
        let least = if is_behind { LONG_LUMP } else { MIN_LUMP };
        if read <= least {
            return 0;
        }
        (read - 1) / size
    }
}

// Sends each end so many batches of the lump, in turn. False where not all of them could be sent.
fn send_lump<S: FedTrace, W: Wait>(
    rt: &W,
    ends: &mut Outboxes<S>,
    lump: &Lump<S>,
    batches: usize,
) -> bool
    ensures { IsTrue result → ends.new.sent ≡ ends.old.sent + batches }
{
    for _number in 0..batches {
        if !ends.send(rt, lump) {
            return false;
        }
    }
    true
}

// Takes accesses off the front. Those after them are copied to a new vector, with room for a lump.
fn take_front(alloc: Global, keys: &mut Vec<Key>, len: usize) -> Result<Vec<Key>, AllocError>
    requires { len ≤ length keys.old.items }
    ensures front { IfOk result (λ front. front.items ≡ take len keys.old.items) }
    ensures rest { OnOk result (keys.new.items ≡ drop len keys.old.items) }
    ensures err { OnErr result (keys.new.items ≡ keys.old.items) }
{
    let mut rest = Vec::with_capacity(alloc, LUMP_ROOM)?;
    rest.extend_from_slice(&keys[len..])?;
    let mut front = mem::replace(keys, rest);
    front.truncate(len);
    Ok(front)
}
