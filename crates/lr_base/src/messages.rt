//! What clients and replicas send one another.
ghost use Rattle.std.specs.Prelude.{⊤, ◌≡◌, ◌<◌, ◌≤◌, length, IfOk};
ghost use Rattle.lr_base.specs.Limits.{last_number};
ghost use Rattle.lr_base.specs.Rules.{stamp_of};

use crate::lr_service::Operation;
use crate::names::{Cid, Spot};
use crate::rows::{NoMemory, Rows, Text};
use crate::stamp::Stamp;
use std::alloc::AllocError;

/// A call as its client made it, with the label that its front end had.
#[derive(Drop)]
pub struct Call<O> {
    pub cid: Cid,
    /// The updates that must come before it.
    pub prev: Stamp,
    pub op: O,
}

/// An entry of a replica's order log.
#[derive(Drop)]
pub struct Entry<O> {
    /// The view in which it was ordered first.
    pub birth: u64,
    pub call: Call<O>,
    /// Whether its operation is ordered against all updates.
    pub immediate: bool,
    /// What an immediate call was frozen for: the updates that must come before it, beside those of its label.
    pub extra: Stamp,
}

/// An update in a replica's log.
#[derive(Drop)]
pub struct LogUpdate<O> {
    pub spot: Spot,
    pub cid: Cid,
    /// The updates that must be applied before it.
    pub prev: Stamp,
    pub op: O,
}

impl<O> LogUpdate<O> {
    /// Its causes, and its own number at its place.
    pub fn stamp(&self) -> Stamp
        requires place { self.now.spot.place < length self.now.prev }
        requires number { self.now.spot.number ≤ last_number }
        ensures stamp { result ≡ stamp_of self.now }
        ensures parts { length result ≡ length self.now.prev }
    {
        let mut stamp = self.prev.copy();
        stamp.set_part(self.spot.place, self.spot.number);
        stamp
    }
}

impl<O: Operation> LogUpdate<O> {
    /// An update equal to this one.
    pub fn copy(&self) -> Result<Self, NoMemory>
        ensures { IfOk result (λ copied. copied ≡ self.now) }
    {
        let op = self.op.copy()?;
        Ok(LogUpdate {
            spot: self.spot,
            cid: self.cid,
            prev: self.prev.copy(),
            op,
        })
    }
}

impl<O: Operation> Call<O> {
    /// A call equal to this one.
    pub fn copy(&self) -> Result<Self, NoMemory>
        ensures { IfOk result (λ copied. copied ≡ self.now) }
    {
        let op = self.op.copy()?;
        Ok(Call {
            cid: self.cid,
            prev: self.prev.copy(),
            op,
        })
    }
}

impl<O: Operation> Entry<O> {
    /// An entry equal to this one.
    pub fn copy(&self) -> Result<Self, NoMemory>
        ensures { IfOk result (λ copied. copied ≡ self.now) }
    {
        let call = self.call.copy()?;
        Ok(Entry {
            birth: self.birth,
            call,
            immediate: self.immediate,
            extra: self.extra.copy(),
        })
    }
}

/// A client's word that it has the reply to a call, in a replica's log.
#[derive(Clone, Copy, PartialEq, Eq)]
pub struct LogAck {
    pub spot: Spot,
    pub cid: Cid,
    /// The front end's clock when it was sent.
    pub time: u64,
}

/// What is known of an executed call: where it was accepted, and its stamp.
#[derive(Drop)]
pub struct Known {
    pub spot: Spot,
    pub stamp: Stamp,
}

/// Whether a replica has met a call before.
#[derive(Drop)]
pub enum Fresh {
    New,
    /// The message's time lies further back than the clock allows.
    Late { time: u64, clock: u64 },
    /// The call was taken before: where, and with which stamp.
    Again { spot: Spot, stamp: Stamp },
    /// The client has said that it has the reply.
    Settled,
}

impl Known {
    /// The same of the same call. It takes no memory.
    pub fn copy(&self) -> Known
        ensures { result ≡ self.now }
    {
        Known {
            spot: self.spot,
            stamp: self.stamp.copy(),
        }
    }
}

impl Clone for Known {
    ghost is_clone = { λ known cloned. cloned ≡ known };

    ghost is_infallible = { λ _. ⊤ };

    fn clone(&self) -> Result<Self, AllocError> {
        Ok(self.copy())
    }
}

/// What a replica tells another: how many items it received of each place, and its whole log.
#[derive(Drop)]
pub struct Gossip<O> {
    pub rep_ts: Stamp,
    /// In the order of places and then numbers, as in the log.
    pub updates: Rows<LogUpdate<O>>,
    pub acks: Rows<LogAck>,
}

/// A message, with all that it carries.
#[derive(Drop)]
pub enum Message<O> {
    /// A client's update; `time` is the front end's clock.
    Update { call: Call<O>, time: u64 },
    /// A client's query.
    Query { call: Call<O> },
    /// A client's word that it has the reply to its update; `time` is the front end's clock.
    Ack { cid: Cid, time: u64 },
    /// The reply to an update: where it was accepted, and what to see to see it.
    Done { cid: Cid, spot: Spot, stamp: Stamp },
    /// The reply to a query: the service's answer, and what it was read after.
    Answer { cid: Cid, text: Text, stamp: Stamp },
    /// What a replica tells another.
    Gossip { gossip: Gossip<O> },
}
