//! Each refusal, clocks at both ends of 64 bits, replies in and out of turn, and turns over the replicas.
use super::{AckFault, CallFault, Front, ResendFault, Taken};
use crate::savepoint::FrontSavepoint;
use lr_base::lr_service::{Kind, Operation};
use lr_base::{Cid, Config, LAST_NUMBER, Message, NoMemory, Rows, Spot, Stamp};
use std::alloc::Global;
use std::test::Fail;

/// An operation that is just a number of some kind.
#[derive(Drop)]
struct Numbered {
    kind: Kind,
    number: u64,
}

impl Operation for Numbered {
    ghost kind_of = { λ op. op.kind };

    fn copy(&self) -> Result<Self, NoMemory> {
        Ok(Numbered {
            kind: self.kind,
            number: self.number,
        })
    }
}

const UPDATE: Numbered = Numbered {
    kind: Kind::Causal,
    number: 3,
};

const QUERY: Numbered = Numbered {
    kind: Kind::Query,
    number: 4,
};

const LAST: u64 = u64::MAX;

/// What a front end answered: of a message the count of its call, its number, the first part of its label, its time.
#[derive(Clone, Copy, Debug, PartialEq, Eq)]
enum Answered {
    Update(u64, u64, u64, u64),
    Query(u64, u64, u64),
    Ack(u64, u64),
    Other,
    Unfinished(u64),
    Worn,
    Idle,
    Nothing,
    NoMemory,
    Got(u64),
    Stale(u64),
    NoReply,
}

// The front end of client 2 of three replicas.
fn second_front() -> Front<Numbered> {
    Front::new(
        Config {
            replicas: 3,
            clients: 64,
            delta: 10,
        },
        2,
    )
}

fn sent(message: &Message<Numbered>) -> Answered {
    match message {
        Message::Update { call, time } => {
            Answered::Update(call.cid.seq, call.op.number, first_of(&call.prev), *time)
        }
        Message::Query { call } => {
            Answered::Query(call.cid.seq, call.op.number, first_of(&call.prev))
        }
        Message::Ack { cid, time } => Answered::Ack(cid.seq, *time),
        _ => Answered::Other,
    }
}

// A stamp's first part.
fn first_of(stamp: &Stamp) -> u64 {
    match stamp.as_slice().first() {
        Some(part) => *part,
        None => 0,
    }
}

fn call(front: &mut Front<Numbered>, reading: u64, op: &Numbered) -> Answered {
    match front.call(reading, op.kind, op) {
        Ok(message) => sent(&message),
        Err(CallFault::Unfinished(cid)) => Answered::Unfinished(cid.seq),
        Err(CallFault::Worn) => Answered::Worn,
        Err(CallFault::NoMemory) => Answered::NoMemory,
    }
}

fn resend(front: &mut Front<Numbered>, reading: u64) -> Answered {
    match front.resend(reading) {
        Ok(message) => sent(&message),
        Err(ResendFault::Idle) => Answered::Idle,
        Err(ResendFault::NoMemory) => Answered::NoMemory,
    }
}

fn ack(front: &mut Front<Numbered>, reading: u64) -> Answered {
    match front.ack(reading) {
        Ok(message) => sent(&message),
        Err(AckFault::Nothing) => Answered::Nothing,
    }
}

fn taken(taken: Taken) -> Answered {
    match taken {
        Taken::Got(cid) => Answered::Got(cid.seq),
        Taken::Stale(cid) => Answered::Stale(cid.seq),
    }
}

// A stamp of these parts, unless one is above the last number.
fn stamp_of(parts: [u64; 4]) -> Option<Stamp> {
    let [first, second, third, order] = parts;
    if first.max(second).max(third).max(order) > LAST_NUMBER {
        return None;
    }
    let mut stamp = Stamp::none();
    stamp.push(first);
    stamp.push(second);
    stamp.push(third);
    stamp.push(order);
    Some(stamp)
}

// The reply to an update comes, with a stamp of these parts.
fn done(front: &mut Front<Numbered>, seq: u64, parts: [u64; 4]) -> Answered {
    let Some(stamp) = stamp_of(parts) else {
        return Answered::NoReply;
    };
    front.keeps();
    if stamp.parts() != front.label.parts() {
        return Answered::NoReply;
    }
    taken(front.take_reply(&Message::Done {
        cid: Cid { client: 2, seq },
        spot: Spot {
            place: 0,
            number: 1,
        },
        stamp,
    }))
}

// The same, but the step is undone.
fn done_undone(front: &mut Front<Numbered>, seq: u64, parts: [u64; 4]) -> Answered {
    let Some(stamp) = stamp_of(parts) else {
        return Answered::NoReply;
    };
    front.keeps();
    if stamp.parts() != front.label.parts() {
        return Answered::NoReply;
    }
    let reply = Message::Done {
        cid: Cid { client: 2, seq },
        spot: Spot {
            place: 0,
            number: 1,
        },
        stamp,
    };
    let mut point = front.save();
    let answered = taken(front.take_off(&reply, &mut point));
    if undo(front, point) {
        answered
    } else {
        Answered::NoReply
    }
}

// The reply to a query comes.
fn answer(alloc: Global, front: &mut Front<Numbered>, seq: u64) -> Answered {
    let stamp = Stamp::zero(4);
    front.keeps();
    if stamp.parts() != front.label.parts() {
        return Answered::NoReply;
    }
    taken(front.take_reply(&Message::Answer {
        cid: Cid { client: 2, seq },
        text: Rows::new(alloc),
        stamp,
    }))
}

#[test]
fn a_clients_commands_have_their_answers(rt: HostRuntime) -> Result<(), Fail> {
    let mut front = second_front();
    let it = &mut front;
    // Before any call.
    assert_eq!(rt; resend(it, 5), Answered::Idle);
    assert_eq!(rt; ack(it, 4), Answered::Nothing);
    assert_eq!(rt; done(it, 1, [9, 9, 9, 9]), Answered::Stale(1));
    // The first call, at the greatest reading so far.
    assert_eq!(rt; call(it, 3, &UPDATE), Answered::Update(1, 3, 0, 5));
    assert_eq!(rt; call(it, 7, &QUERY), Answered::Unfinished(1));
    assert_eq!(rt; resend(it, 6), Answered::Update(1, 3, 0, 7));
    assert_eq!(rt; ack(it, 0), Answered::Nothing);
    assert_eq!(rt; done(it, 2, [9, 9, 9, 9]), Answered::Stale(2));
    assert_eq!(rt; done(it, 1, [4, 0, 2, 0]), Answered::Got(1));
    assert_eq!(rt; done(it, 1, [9, 9, 9, 9]), Answered::Stale(1));
    assert_eq!(rt; resend(it, 0), Answered::Idle);
    assert_eq!(rt; ack(it, 8), Answered::Ack(1, 8));
    // A query's answer leaves the last answered update.
    assert_eq!(rt; call(it, 0, &QUERY), Answered::Query(2, 4, 4));
    assert_eq!(rt; resend(it, LAST), Answered::Query(2, 4, 4));
    assert_eq!(rt; answer(rt.alloc(), it, 2), Answered::Got(2));
    assert_eq!(rt; ack(it, 9), Answered::Ack(1, LAST));
    // A stamp joins the label, and doesn't replace it.
    assert_eq!(rt; call(it, 9, &UPDATE), Answered::Update(3, 3, 4, LAST));
    assert_eq!(rt; done(it, 3, [1, 8, 0, 0]), Answered::Got(3));
    let label = [4, 8, 2, 0];
    assert!(rt; front.label.as_slice() == label.as_slice());
    assert_eq!(rt; ack(&mut front, 0), Answered::Ack(3, LAST));
    Ok(())
}

#[test]
fn a_worn_front_end_calls_no_more(rt: HostRuntime) -> Result<(), Fail> {
    let mut front = second_front();
    front.calls = LAST_NUMBER;
    assert_eq!(rt; call(&mut front, 5, &UPDATE), Answered::Worn);
    assert_eq!(rt; front.clock, 5);
    front.calls = LAST_NUMBER - 1;
    assert_eq!(rt;
        call(&mut front, 0, &UPDATE),
        Answered::Update(4_611_686_018_427_387_904, 3, 0, 5)
    );
    Ok(())
}

// Undoes a step, where the savepoint's label has as many parts.
fn undo(front: &mut Front<Numbered>, point: FrontSavepoint<Numbered>) -> bool {
    front.keeps();
    if point.label.parts() != front.label.parts() {
        return false;
    }
    front.restore(point);
    true
}

#[test]
fn a_command_is_undone(rt: HostRuntime) -> Result<(), Fail> {
    let mut front = second_front();
    let it = &mut front;
    let point = it.save();
    assert_eq!(rt; call(it, 5, &UPDATE), Answered::Update(1, 3, 0, 5));
    assert!(rt; undo(it, point));
    assert_eq!(rt; resend(it, 0), Answered::Idle);
    assert_eq!(rt; call(it, 4, &QUERY), Answered::Query(1, 4, 0));
    let point = it.save();
    assert_eq!(rt; call(it, 6, &UPDATE), Answered::Unfinished(1));
    assert!(rt; undo(it, point));
    let copied = front.copy()?;
    assert_eq!(rt; copied.clock, 4);
    assert!(rt; copied.expects(Cid { client: 2, seq: 1 }));
    assert!(rt; !copied.expects(Cid { client: 1, seq: 1 }));
    Ok(())
}

#[test]
fn a_reply_is_undone(rt: HostRuntime) -> Result<(), Fail> {
    let mut front = second_front();
    let it = &mut front;
    assert_eq!(rt; call(it, 5, &UPDATE), Answered::Update(1, 3, 0, 5));
    assert_eq!(rt; done_undone(it, 1, [4, 0, 2, 0]), Answered::Got(1));
    assert_eq!(rt; resend(it, 0), Answered::Update(1, 3, 0, 5));
    assert_eq!(rt; ack(it, 0), Answered::Nothing);
    assert_eq!(rt; done_undone(it, 2, [9, 9, 9, 9]), Answered::Stale(2));
    assert_eq!(rt; done(it, 1, [4, 0, 2, 0]), Answered::Got(1));
    assert_eq!(rt; done_undone(it, 1, [9, 9, 9, 9]), Answered::Stale(1));
    assert_eq!(rt; resend(it, 0), Answered::Idle);
    assert_eq!(rt; ack(it, 0), Answered::Ack(1, 5));
    let label = [4, 0, 2, 0];
    assert!(rt; front.label.as_slice() == label.as_slice());
    Ok(())
}

#[test]
fn turns_go_round_the_replicas(rt: HostRuntime) -> Result<(), Fail> {
    let front = second_front();
    // (turn, replica): 2^64 - 1 is three times 6,148,914,691,236,517,205
    let turns: [(u64, u8); 7] = [
        (0, 2),
        (1, 0),
        (2, 1),
        (3, 2),
        (LAST - 2, 0),
        (LAST - 1, 1),
        (LAST, 2),
    ];
    for (turn, want) in turns {
        assert_eq!(rt; front.choice(turn), want, "{turn}");
    }
    Ok(())
}
