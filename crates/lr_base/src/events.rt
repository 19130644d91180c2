//! The events of a run, and what is printed of them.
use crate::names::{Actor, Cid, Spot};
use crate::rows::{Rows, Text};
use crate::stamp::Stamp;

/// One line of a script.
#[derive(Drop)]
pub enum Event<O> {
    /// A front end calls an operation through a replica, at a clock reading.
    Call {
        client: u32,
        replica: u8,
        reading: u64,
        op: O,
    },
    /// A front end sends its open call again, through a replica, at a clock reading.
    Resend {
        client: u32,
        replica: u8,
        reading: u64,
    },
    /// A front end acknowledges its last answered update to a replica, at a clock reading.
    Ack {
        client: u32,
        replica: u8,
        reading: u64,
    },
    /// A message is delivered to its receiver. Messages are numbered from 1 in the order of their sends.
    Deliver {
        message: u64,
    },
    /// A replica reads its clock.
    Tick {
        replica: u8,
        reading: u64,
    },
    /// A replica sends gossip to another.
    Gossip {
        from: u8,
        to: u8,
    },
    /// A replica's state is printed.
    Show {
        replica: u8,
    },
}

/// What is printed of a message when it is sent.
#[derive(Drop)]
pub enum Sent {
    Update { cid: Cid, time: u64 },
    Query { cid: Cid },
    Ack { cid: Cid, time: u64 },
    Done { cid: Cid, spot: Spot },
    Answer { cid: Cid, text: Text },
    Gossip,
}

/// Why nothing was done.
#[derive(Clone, Copy, PartialEq, Eq)]
pub enum Refusal {
    /// The message's time lies further back than the clock allows.
    Late { time: u64, clock: u64 },
    /// The call was taken before, at this spot.
    Again { spot: Spot },
    /// The client has said that it has the reply.
    Settled,
    /// An acknowledgement of the call is logged, at this spot.
    Noted { spot: Spot },
    FullLog,
    FullHeld,
    /// A count has reached its greatest number.
    Worn,
    /// The front end has this call open.
    Unfinished { cid: Cid },
    /// The front end has no call open.
    Idle,
    /// No update of the client was answered yet.
    Nothing,
}

/// A replica's state, as it is printed.
#[derive(Drop)]
pub struct StateLine {
    pub replica: u8,
    pub view: u64,
    pub clock: u64,
    pub received: Stamp,
    pub log: Rows<Spot>,
    pub acks: Rows<Spot>,
    pub calls: Rows<Cid>,
    pub held: Rows<Cid>,
    pub marks: Rows<(u64, u64)>,
}

/// One printed line of what an event did.
#[derive(Drop)]
pub enum Outcome {
    Send {
        number: u64,
        from: Actor,
        to: Actor,
        what: Sent,
    },
    Accept {
        spot: Spot,
        cid: Cid,
    },
    /// An acknowledgement was logged, at this spot.
    Note {
        spot: Spot,
        cid: Cid,
    },
    Hold {
        cid: Cid,
    },
    /// So many new items were taken from gossip.
    Take {
        count: u64,
    },
    /// A reply to the open call was taken.
    Got {
        cid: Cid,
    },
    /// A reply to another call came.
    Stale {
        cid: Cid,
    },
    /// So far a replica's clock has come.
    ClockAt {
        reading: u64,
    },
    /// No message of this number was sent.
    NoMessage {
        message: u64,
    },
    Refuse {
        why: Refusal,
    },
    State {
        line: StateLine,
    },
}

/// An event with what it did.
#[derive(Drop)]
pub struct Step<O> {
    pub event: Event<O>,
    pub outcomes: Rows<Outcome>,
}
