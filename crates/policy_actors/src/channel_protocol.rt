//! The protocol of an actor's channel.
ghost use Rattle.std.specs.Prelude.{⊤};

use crate::lump::{FedTrace, SharedKeys};
use crossbeam_channel::protocol::{Lesson, Outcome, Protocol, Split};
use crossbeam_channel::{Pass, RuledReceiver, RuledSender};
use std::marker::PhantomData;

/// A piece of the trace.
pub struct Batch {
    pub number: u64,
    pub last: bool,
    pub keys: SharedKeys,
}

impl Drop for Batch {
    fn drop(self) {
        let Batch {
            number: _,
            last: _,
            keys: _,
        } = self;
    }
}

// Ghost state of a channel end: whether it sends, whether it receives, and how many batches it has sent and received.
pub struct ChannelLog {
    pub gives: bool,
    pub takes: bool,
    pub given: u64,
    pub taken: u64,
}

pub struct BatchesInOrder<S> {
    marker: PhantomData<S>,
}

impl<S: FedTrace> Protocol<Batch, ChannelLog> for BatchesInOrder<S> {
    ghost use Rattle.std.specs.Prelude.{true};
    ghost use Rattle.policy_actors.specs.ChannelProtocol.{channel_log, AreKept};

    ghost holds = { AreKept S.known S.most S.size };

    ghost first = { channel_log true true 0 0 };
}

pub struct Ends;

impl Split<ChannelLog> for Ends {
    ghost use Rattle.std.specs.Prelude.{true, false};
    ghost use Rattle.policy_actors.specs.ChannelProtocol.{channel_log};

    ghost left = { λ v. channel_log true false v.given 0 };

    ghost right = { λ v. channel_log false true 0 v.taken };
}

pub struct Sent;

impl Outcome<Batch, ChannelLog> for Sent {
    ghost use Rattle.std.specs.Prelude.{◌≡◌, ◌+◌};
    ghost use Rattle.policy_actors.specs.ChannelProtocol.{channel_log};

    ghost then = { λ v x w. w ≡ channel_log v.gives v.takes (v.given + 1) v.taken };
}

impl Lesson<Batch, ChannelLog> for Sent {
    ghost fact = { λ v items. ⊤ };
}

pub struct Received<S> {
    marker: PhantomData<S>,
}

impl<S: FedTrace> Outcome<Batch, ChannelLog> for Received<S> {
    ghost use Rattle.std.specs.Prelude.{◌≡◌, ◌+◌};
    ghost use Rattle.policy_actors.specs.ChannelProtocol.{channel_log, IsBatch};

    ghost then = { λ v x w. (w ≡ channel_log v.gives v.takes v.given (v.taken + 1))
        × IsBatch S.known S.most S.size v.taken x };
}

impl<S: FedTrace> Lesson<Batch, ChannelLog> for Received<S> {
    ghost fact = { λ v items. ⊤ };
}

pub type Sender<S> = RuledSender<Batch, ChannelLog, BatchesInOrder<S>>;

pub type Receiver<S> = RuledReceiver<Batch, ChannelLog, BatchesInOrder<S>>;

pub type ChannelPass = Pass<Batch, ChannelLog>;
