//! Outcomes of each kind.
use lr_base::{Actor, Cid, NoMemory, Outcome, Refusal, Rows, Sent, Spot, Stamp, StateLine};
use std::alloc::Global;

pub fn cid(client: u32, seq: u64) -> Cid {
    Cid { client, seq }
}

pub fn spot(place: u8, number: u64) -> Spot {
    Spot { place, number }
}

/// From the first client to the first replica.
pub fn asked(number: u64, what: Sent) -> Outcome {
    Outcome::Send {
        number,
        from: Actor::Client(0),
        to: Actor::Replica(0),
        what,
    }
}

/// From the first replica to the first client.
pub fn replied(number: u64, what: Sent) -> Outcome {
    Outcome::Send {
        number,
        from: Actor::Replica(0),
        to: Actor::Client(0),
        what,
    }
}

/// From the first replica to the second.
pub fn spread(number: u64) -> Outcome {
    Outcome::Send {
        number,
        from: Actor::Replica(0),
        to: Actor::Replica(1),
        what: Sent::Gossip,
    }
}

pub fn update() -> Sent {
    Sent::Update {
        cid: cid(0, 1),
        time: 5,
    }
}

pub fn query() -> Sent {
    Sent::Query { cid: cid(0, 2) }
}

pub fn ack() -> Sent {
    Sent::Ack {
        cid: cid(0, 1),
        time: 7,
    }
}

pub fn done() -> Sent {
    Sent::Done {
        cid: cid(0, 1),
        spot: spot(0, 1),
    }
}

pub fn answer(alloc: Global) -> Result<Sent, NoMemory> {
    Ok(Sent::Answer {
        cid: cid(0, 2),
        text: Rows::from_slice(alloc, b"3")?,
    })
}

pub fn acceptance() -> Outcome {
    Outcome::Accept {
        spot: spot(0, 1),
        cid: cid(0, 1),
    }
}

/// The acknowledgement of that update, behind it.
pub fn note() -> Outcome {
    Outcome::Note {
        spot: spot(0, 2),
        cid: cid(0, 1),
    }
}

/// One replica that holds nothing, and knows one call.
pub fn first_state(alloc: Global) -> Result<Outcome, NoMemory> {
    let mut received = Stamp::zero(2);
    received.set_part(0, 1);
    Ok(Outcome::State {
        line: StateLine {
            replica: 0,
            view: 0,
            clock: 0,
            received,
            log: Rows::new(alloc),
            acks: Rows::new(alloc),
            calls: Rows::from_slice(alloc, &[cid(0, 1)])?,
            held: Rows::new(alloc),
            marks: Rows::new(alloc),
        },
    })
}

/// The second of two replicas, with something in each of its lists.
pub fn full_state(alloc: Global) -> Result<Outcome, NoMemory> {
    let mut received = Stamp::zero(3);
    received.set_part(0, 1);
    received.set_part(1, 2);
    Ok(Outcome::State {
        line: StateLine {
            replica: 1,
            view: 0,
            clock: 14,
            received,
            log: Rows::from_slice(alloc, &[spot(1, 1), spot(1, 2), spot(2, 3)])?,
            acks: Rows::from_slice(alloc, &[spot(0, 2)])?,
            calls: Rows::from_slice(alloc, &[cid(0, 1), cid(0, 2), cid(1, 1)])?,
            held: Rows::from_slice(alloc, &[cid(0, 3), cid(0, 3)])?,
            marks: Rows::from_slice(alloc, &[(0, 1), (2, 1)])?,
        },
    })
}

/// Each reason why nothing is done.
pub const REFUSALS: [Refusal; 10] = [
    Refusal::Late { time: 3, clock: 14 },
    Refusal::Again {
        spot: Spot {
            place: 0,
            number: 1,
        },
    },
    Refusal::Settled,
    Refusal::Noted {
        spot: Spot {
            place: 0,
            number: 2,
        },
    },
    Refusal::FullLog,
    Refusal::FullHeld,
    Refusal::Worn,
    Refusal::Unfinished {
        cid: Cid { client: 0, seq: 2 },
    },
    Refusal::Idle,
    Refusal::Nothing,
];
