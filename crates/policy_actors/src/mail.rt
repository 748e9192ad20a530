//! The two ends of an actor's channel, and the sending ends of several.
ghost use Rattle.std.specs.Prelude.{◌≡◌, ◌+◌, ◌<◌, All, IfOk, IfSome, IsTrue, OnOk, length, true, false};
ghost use Rattle.crossbeam_channel.specs.Claims.{view, IsSeatAt};
ghost use Rattle.crossbeam_channel.specs.Ends.{sends_on, receives_on};
ghost use Rattle.policy_actors.specs.ChannelProtocol.{channel_log, IsBatch};

use crate::channel_protocol::{
    Batch, BatchesInOrder, ChannelLog, ChannelPass, Ends, Received, Receiver, Sender, Sent,
};
use crate::lump::{FedTrace, Lump};
use crossbeam_channel::bounded_with;
use std::alloc::{AllocError, Global};
use std::sync::Wait;

/// The sending ends of several actors' channels. A batch goes to every end before the next one goes to any: between two
/// calls each end was sent as many.
#[derive(Drop)]
pub struct Outboxes<S: FedTrace> {
    ends: Vec<Outbox<S>>,
    // How many batches each end was sent.
    pub sent: u64,
    ghost even: { All (λ o. o.sent ≡ sent) ends.items },
}

impl<S: FedTrace> Outboxes<S> {
    /// No ends.
    pub fn new(alloc: Global) -> Outboxes<S>
        ensures { result.sent ≡ 0 }
    {
        Outboxes {
            ends: Vec::new(alloc),
            sent: 0,
        }
    }

    /// How many ends there are.
    pub fn len(&self) -> usize
        ensures { result ≡ length self.now.ends.items }
    {
        self.ends.len()
    }

    /// Makes a channel with room for this number of batches, and adds its sending end to the others.
    pub fn add(&mut self, alloc: Global, batches: usize) -> Result<Inbox<S>, AllocError>
        requires none { self.old.sent ≡ 0 }
        requires room { 0 < batches }
        ensures none { self.new.sent ≡ 0 }
        ensures added { OnOk result (length self.new.ends.items ≡ length self.old.ends.items + 1) }
        ensures taken { IfOk result (λ inbox. inbox.taken ≡ 0) }
    {
        let (outbox, inbox) = channel(alloc, batches)?;
        self.ends.push(outbox)?;
        Ok(inbox)
    }

    /// Sends each end its next batch, which is one of the lump. False where it is not, or an end has no receiver left:
    /// then all ends are dropped.
    pub fn send<R: Wait>(&mut self, rt: &R, lump: &Lump<S>) -> bool
        ensures { IsTrue result → self.new.sent ≡ self.old.sent + 1 }
    {
        if let Some(next) = self.sent.checked_add(1)
            && send_each(rt, &mut self.ends, lump, self.sent)
        {
            self.sent = next;
            return true;
        }
        self.ends.clear();
        false
    }
}

/// The receiving end of an actor's channel.
pub struct Inbox<S: FedTrace> {
    receiver: Receiver<S>,
    pass: ChannelPass,
    pub taken: u64,
    ghost seated: { IsSeatAt (receives_on receiver) pass },
    ghost viewed: { view pass ≡ channel_log false true 0 taken },
}

impl<S: FedTrace> Drop for Inbox<S> {
    fn drop(self) {
        let Inbox {
            receiver: _,
            pass: _,
            taken: _,
        } = self;
    }
}

impl<S: FedTrace> Inbox<S> {
    /// Takes the next batch. `None` where the feeder is gone.
    pub fn take<R: Wait>(&mut self, rt: &R) -> Option<Batch>
        ensures batch { IfSome result (IsBatch S.known S.most S.size self.old.taken) }
        ensures taken { IfSome result (λ b. self.new.taken ≡ self.old.taken + 1) }
    {
        let next = self.taken.checked_add(1)?;
        match self.receiver.recv_as::<Received<S>, R>(rt, &mut self.pass) {
            Ok(batch) => {
                self.taken = next;
                Some(batch)
            }
            Err(_) => None,
        }
    }
}

// The sending end of an actor's channel.
pub struct Outbox<S: FedTrace> {
    sender: Sender<S>,
    pass: ChannelPass,
    sent: u64,
    ghost seated: { IsSeatAt (sends_on sender) pass },
    ghost viewed: { view pass ≡ channel_log true false sent 0 },
}

impl<S: FedTrace> Drop for Outbox<S> {
    fn drop(self) {
        let Outbox {
            sender: _,
            pass: _,
            sent: _,
        } = self;
    }
}

impl<S: FedTrace> Outbox<S> {
    // Sends the next batch. False where the actor is gone.
    fn send<R: Wait>(&mut self, rt: &R, batch: Batch) -> bool
        requires { IsBatch S.known S.most S.size self.old.sent batch }
        ensures { IsTrue result → self.new.sent ≡ self.old.sent + 1 }
    {
        let Some(next) = self.sent.checked_add(1) else {
            return false;
        };
        match self.sender.send_as::<Sent, R>(rt, &mut self.pass, batch) {
            Ok(()) => {
                self.sent = next;
                true
            }
            Err(_) => false,
        }
    }
}

// Sends each end the batch of the lump with this number, which is its next.
fn send_each<S: FedTrace, R: Wait>(
    rt: &R,
    ends: &mut Vec<Outbox<S>>,
    lump: &Lump<S>,
    number: u64,
) -> bool
    requires { All (λ o. o.sent ≡ number) ends.old.items }
    ensures { IsTrue result → All (λ o. o.sent ≡ number + 1) ends.new.items }
{
    for end in 0..ends.len() {
        match lump.batch(number) {
            Some(batch) => {
                if !ends[end].send(rt, batch) {
                    return false;
                }
            }
            None => return false,
        }
    }
    true
}

// A channel with room for this number of batches.
fn channel<S: FedTrace>(alloc: Global, batches: usize) -> Result<(Outbox<S>, Inbox<S>), AllocError>
    requires { 0 < batches }
    ensures { IfOk result (λ r. (r.0.sent ≡ 0) × (r.1.taken ≡ 0)) }
{
    let (sender, receiver, mut pass) = bounded_with::<Batch, ChannelLog, BatchesInOrder<S>, Global>(
        alloc, batches,
    )?;
    let theirs = sender.another::<Ends>(&mut pass);
    let outbox = Outbox {
        sender,
        pass,
        sent: 0,
    };
    let inbox = Inbox {
        receiver,
        pass: theirs,
        taken: 0,
    };
    Ok((outbox, inbox))
}
