//! A world, with a history worked out by hand.
use crate::World;
use lr_base::lr_service::{Kind, Service};
use lr_base::{Config, Event, Spot};
use lr_graph::{ready_of, value_of};
use std::alloc::Global;
use std::process::Abort;
use std::test::Fail;
use svc_tally::{Tally, TallyOp};

const TWO_REPLICAS: Config = Config {
    replicas: 2,
    clients: 1,
    delta: 10,
};

// The first client calls through a replica.
fn call(alloc: Global, replica: u8, reading: u64, op: &str) -> Result<Event<TallyOp>, Fail> {
    Ok(Event::Call {
        client: 0,
        replica,
        reading,
        op: Tally::read_op(alloc, op.as_bytes())?,
    })
}

#[test]
fn a_query_waits_for_gossip(rt: HostRuntime) -> Result<(), Fail> {
    let mut world = World::<Tally>::new(rt.alloc(), TWO_REPLICAS)?;
    // (event, how many messages were sent after it, how many lines it has)
    let events = [
        (call(rt.alloc(), 0, 1, "add x 5")?, 1, 1),
        (Event::Deliver { message: 1 }, 2, 2),
        (Event::Deliver { message: 2 }, 2, 1),
        (call(rt.alloc(), 1, 2, "read x")?, 3, 1),
        (Event::Deliver { message: 3 }, 3, 1),
        (Event::Gossip { from: 0, to: 1 }, 4, 1),
        (Event::Deliver { message: 4 }, 5, 2),
        (Event::Deliver { message: 5 }, 5, 1),
        (Event::Deliver { message: 4 }, 5, 1),
        (Event::Deliver { message: 0 }, 5, 1),
        (Event::Deliver { message: 6 }, 5, 1),
        (Event::Show { replica: 1 }, 5, 1),
    ];
    for (at, (event, sent, lines)) in events.into_iter().enumerate() {
        assert!(rt; world.fits(&event), "event {at}");
        let outcomes = world.step(&event)?;
        assert_eq!(rt; world.sent(), sent, "event {at}");
        assert_eq!(rt; outcomes.len(), lines, "event {at}");
        assert_eq!(rt; world.history().len(), at + 1);
    }
    assert_eq!(rt; world.config().clients, 1);
    Ok(())
}

#[test]
fn events_fit_that_name_who_there_is(rt: HostRuntime) -> Result<(), Fail> {
    let world = World::<Tally>::new(rt.alloc(), TWO_REPLICAS)?;
    let stranger = Event::Call {
        client: 1,
        replica: 0,
        reading: 5,
        op: Tally::read_op(rt.alloc(), b"read x")?,
    };
    // (event, whether it fits)
    let events = [
        (call(rt.alloc(), 1, 5, "read x")?, true),
        (call(rt.alloc(), 2, 5, "read x")?, false),
        (stranger, false),
        (Event::Deliver { message: 0 }, true),
        (Event::Deliver { message: 99 }, true),
        (Event::Gossip { from: 1, to: 0 }, true),
        (Event::Gossip { from: 1, to: 1 }, false),
        (Event::Gossip { from: 0, to: 2 }, false),
        (Event::Gossip { from: 2, to: 0 }, false),
        (Event::Show { replica: 1 }, true),
        (Event::Show { replica: 2 }, false),
    ];
    for (at, (event, fits)) in events.into_iter().enumerate() {
        assert_eq!(rt; world.fits(&event), fits, "event {at}");
    }
    Ok(())
}

// The second client calls through the second replica.
fn other_call(alloc: Global, reading: u64, op: &str) -> Result<Event<TallyOp>, Fail> {
    Ok(Event::Call {
        client: 1,
        replica: 1,
        reading,
        op: Tally::read_op(alloc, op.as_bytes())?,
    })
}

// The first events of a run of two clients, in which an update waits at one replica for one that the other accepted.
fn two_clients(rt: &impl Abort, alloc: Global, count: usize) -> Result<World<Tally>, Fail> {
    let config = Config {
        replicas: 2,
        clients: 2,
        delta: 10,
    };
    let mut world = World::<Tally>::new(alloc, config)?;
    let events = [
        call(alloc, 0, 1, "add x 1")?,
        Event::Deliver { message: 1 },
        Event::Deliver { message: 2 },
        call(alloc, 1, 2, "add x 2")?,
        Event::Deliver { message: 3 },
        other_call(alloc, 1, "add x 4")?,
        Event::Deliver { message: 5 },
        Event::Deliver { message: 6 },
        other_call(alloc, 2, "read x")?,
        Event::Deliver { message: 7 },
        Event::Deliver { message: 4 },
        call(alloc, 1, 3, "read x")?,
        Event::Deliver { message: 9 },
        Event::Gossip { from: 0, to: 1 },
        Event::Deliver { message: 10 },
    ];
    for (at, event) in events.into_iter().enumerate() {
        if at == count {
            return Ok(world);
        }
        assert!(rt; world.fits(&event), "event {at}");
        let _lines = world.step(&event)?;
    }
    Ok(world)
}

fn check_spots(rt: &impl Abort, found: &[Spot], want: &[(u8, u64)]) {
    assert_eq!(rt; found.len(), want.len());
    for (spot, (place, number)) in found.iter().zip(want) {
        assert_eq!(rt; spot.place, *place);
        assert_eq!(rt; spot.number, *number);
    }
}

fn check_counter(rt: &impl Abort, alloc: Global, value: &Tally, want: &str) -> Result<(), Fail> {
    let op = Tally::read_op(alloc, b"read x")?;
    match Tally::kind(&op) {
        Kind::Query => {
            let answer = value.read(&op)?;
            assert!(rt; answer.as_slice() == want.as_bytes(), "it isn't {want}");
        }
        Kind::Causal | Kind::Forced | Kind::Immediate => assert!(rt; false, "no query"),
    }
    Ok(())
}

#[test]
fn what_is_ready_after_a_history(rt: HostRuntime) -> Result<(), Fail> {
    // (how many events, replica, its ready spots, its counter)
    let rows: [(usize, u8, &[(u8, u64)], &str); 4] = [
        (15, 1, &[(0, 1), (1, 1), (1, 2)], "7"),
        (15, 0, &[(0, 1)], "1"),
        (14, 1, &[(1, 2)], "4"),
        (0, 0, &[], "0"),
    ];
    for (count, replica, spots, counter) in rows {
        let world = two_clients(&rt, rt.alloc(), count)?;
        let config = world.config();
        let history = world.history().as_slice();
        let ready = ready_of::<Tally>(rt.alloc(), config, history, replica)?;
        check_spots(&rt, ready.as_slice(), spots);
        let value = value_of::<Tally>(rt.alloc(), config, history, replica)?;
        check_counter(&rt, rt.alloc(), &value, counter)?;
    }
    Ok(())
}
