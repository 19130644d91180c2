//! The data of a history's facts: what was accepted, sent, received and called.
use crate::facts::newest::Newest;
use crate::facts::spots::SpotList;
use crate::facts::table::Table;
use lr_base::{Actor, Cid, Spot};

/// A call, with the updates that its front end's label named when it was made.
#[derive(Drop)]
pub struct CallCopy<O> {
    pub cid: Cid,
    pub op: O,
    pub label: SpotList,
}

/// An update that was accepted at a spot, with its causes and itself.
#[derive(Drop)]
pub struct AcceptedUpdate<O> {
    pub spot: Spot,
    pub cid: Cid,
    pub op: O,
    pub below: SpotList,
}

/// What a message carries.
#[derive(Drop)]
pub enum Load<O> {
    Update { call: CallCopy<O>, time: u64 },
    Query { call: CallCopy<O> },
    Ack { cid: Cid, time: u64 },
    Done { cid: Cid, names: SpotList },
    Answer { cid: Cid, names: SpotList },
    Gossip { names: SpotList },
    Nothing,
}

/// A message that was sent.
#[derive(Drop)]
pub struct SentCopy<O> {
    pub number: u64,
    pub from: Actor,
    pub to: Actor,
    pub load: Load<O>,
}

/// Whose step it is, and the message that came in it.
#[derive(Drop)]
pub struct Handled<O> {
    pub actor: Option<Actor>,
    pub came: Option<SentCopy<O>>,
}

/// A front end: what its label names, how many calls it made, its clock, its open call, and its last answered update.
#[derive(Drop)]
pub struct FrontNow<O> {
    pub label: SpotList,
    pub calls: u64,
    pub clock: u64,
    pub open_call: Option<CallCopy<O>>,
    pub answered: Option<Cid>,
}

/// The facts of a history so far: what was accepted and sent, what each replica received, and each front end.
#[derive(Drop)]
pub struct Gathered<O: Drop> {
    pub accepted: Newest<AcceptedUpdate<O>>,
    pub messages: Newest<SentCopy<O>>,
    pub received: Table<SpotList>,
    pub fronts: Table<FrontNow<O>>,
}
