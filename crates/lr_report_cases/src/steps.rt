//! Steps and headers, printed one after another.
use crate::outcomes;
use lr_base::lr_service::Service;
use lr_base::{Config, Event, NoMemory, Outcome, Refusal, Rows, Step, Text};
use lr_report::{render_header, render_printed_step, render_step};
use lr_script::{Header, Name};
use std::alloc::Global;
use svc_tally::{Tally, TallyOp};

const ONE_REPLICA: Config = Config {
    replicas: 1,
    clients: 2,
    delta: 10,
};

const TWO_REPLICAS: Config = Config {
    replicas: 2,
    clients: 2,
    delta: 10,
};

/// Prints them all.
pub fn put_all(alloc: Global, out: &mut Text) -> Result<(), NoMemory> {
    put_headers(out)?;
    put_sent(alloc, out)?;
    put_others(alloc, out)?;
    put_refusals(alloc, out)?;
    put(alloc, TWO_REPLICAS, outcomes::full_state(alloc)?, out)?;
    put_history(alloc, out)
}

// A header of each service.
fn put_headers(out: &mut Text) -> Result<(), NoMemory> {
    for service in [Name::Tally, Name::Mail, Name::Claims] {
        let header = Header {
            service,
            config: TWO_REPLICAS,
        };
        render_header(&header, out)?;
    }
    Ok(())
}

// A step of number 7 with one outcome: once with its event, and once from the text of it.
fn put(alloc: Global, config: Config, outcome: Outcome, out: &mut Text) -> Result<(), NoMemory> {
    let step = step_of(alloc, Event::Show { replica: 0 }, outcome)?;
    render_step::<Tally>(config, 7, &step, out)?;
    render_printed_step(config, 7, b"show 0", step.outcomes.as_slice(), out)
}

// An event with one outcome.
fn step_of(
    alloc: Global,
    event: Event<TallyOp>,
    outcome: Outcome,
) -> Result<Step<TallyOp>, NoMemory> {
    let mut outcomes = Rows::new(alloc);
    outcomes.push(outcome)?;
    Ok(Step { event, outcomes })
}

// A message of each kind.
fn put_sent(alloc: Global, out: &mut Text) -> Result<(), NoMemory> {
    put(
        alloc,
        ONE_REPLICA,
        outcomes::asked(1, outcomes::update()),
        out,
    )?;
    put(
        alloc,
        ONE_REPLICA,
        outcomes::replied(2, outcomes::done()),
        out,
    )?;
    put(
        alloc,
        ONE_REPLICA,
        outcomes::asked(3, outcomes::query()),
        out,
    )?;
    let answer = outcomes::answer(alloc)?;
    put(alloc, ONE_REPLICA, outcomes::replied(4, answer), out)?;
    put(alloc, ONE_REPLICA, outcomes::asked(5, outcomes::ack()), out)?;
    put(alloc, TWO_REPLICAS, outcomes::spread(6), out)
}

// What else one replica and one client do.
fn put_others(alloc: Global, out: &mut Text) -> Result<(), NoMemory> {
    let got = outcomes::cid(0, 1);
    let held = outcomes::cid(0, 3);
    put(alloc, ONE_REPLICA, outcomes::acceptance(), out)?;
    put(alloc, ONE_REPLICA, outcomes::note(), out)?;
    put(alloc, ONE_REPLICA, Outcome::Got { cid: got }, out)?;
    put(alloc, ONE_REPLICA, Outcome::Stale { cid: got }, out)?;
    put(alloc, ONE_REPLICA, Outcome::Hold { cid: held }, out)?;
    put(alloc, ONE_REPLICA, Outcome::ClockAt { reading: 14 }, out)?;
    put(alloc, ONE_REPLICA, Outcome::NoMessage { message: 9 }, out)?;
    put(alloc, ONE_REPLICA, Outcome::Take { count: 12 }, out)?;
    put(alloc, ONE_REPLICA, outcomes::first_state(alloc)?, out)
}

fn put_refusals(alloc: Global, out: &mut Text) -> Result<(), NoMemory> {
    for why in outcomes::REFUSALS {
        put(alloc, ONE_REPLICA, Outcome::Refuse { why }, out)?;
    }
    Ok(())
}

// A history: an update is called and delivered, its reply is taken and acknowledged.
fn put_history(alloc: Global, out: &mut Text) -> Result<(), NoMemory> {
    let header = Header {
        service: Name::Tally,
        config: ONE_REPLICA,
    };
    let Ok(op) = Tally::read_op(alloc, b"add x 3") else {
        return Err(NoMemory);
    };
    let call = Event::Call {
        client: 0,
        replica: 0,
        reading: 5,
        op,
    };
    let called = step_of(alloc, call, outcomes::asked(1, outcomes::update()))?;
    let mut delivered = step_of(alloc, Event::Deliver { message: 1 }, outcomes::acceptance())?;
    delivered
        .outcomes
        .push(outcomes::replied(2, outcomes::done()))?;
    render_header(&header, out)?;
    render_step::<Tally>(ONE_REPLICA, 1, &called, out)?;
    render_step::<Tally>(ONE_REPLICA, 2, &delivered, out)?;
    put_rest(alloc, out)
}

// The events of this history from its third on.
fn put_rest(alloc: Global, out: &mut Text) -> Result<(), NoMemory> {
    let (client, replica) = (0, 0);
    let cid = outcomes::cid(0, 1);
    let why = Refusal::Idle;
    let ack = Event::Ack {
        client,
        replica,
        reading: 7,
    };
    let resend = Event::Resend {
        client,
        replica,
        reading: 8,
    };
    let tick = Event::Tick {
        replica,
        reading: 14,
    };
    let replied = Event::Deliver { message: 2 };
    put_step(alloc, 3, replied, Outcome::Got { cid }, out)?;
    put_step(alloc, 4, ack, outcomes::asked(3, outcomes::ack()), out)?;
    let acknowledged = Event::Deliver { message: 3 };
    put_step(alloc, 5, acknowledged, outcomes::note(), out)?;
    put_step(alloc, 6, resend, Outcome::Refuse { why }, out)?;
    put_step(alloc, 7, tick, Outcome::ClockAt { reading: 14 }, out)
}

fn put_step(
    alloc: Global,
    number: u64,
    event: Event<TallyOp>,
    outcome: Outcome,
    out: &mut Text,
) -> Result<(), NoMemory> {
    let step = step_of(alloc, event, outcome)?;
    render_step::<Tally>(ONE_REPLICA, number, &step, out)
}
