//! A log beside a plain list of its items, over steps that are drawn.
ghost use Rattle.std.specs.Prelude.{◌<◌};

use crate::taking::{add_ack, add_update, is_free, take};
use lr_base::lr_service::Service;
use lr_base::{Cid, LAST_NUMBER, LogAck, LogUpdate, Places, Spot, Stamp};
use lr_log::Log;
use rand_core::utils::NextWord;
use rand_pcg::Pcg32;
use std::alloc::Global;
use std::process::Abort;
use std::test::Fail;
use svc_tally::{Tally, TallyOp};

// How many steps are made, over how many places, numbers of each and calls.
const STEPS: u64 = 2000;

const PLACES: u64 = 9;

const NUMBERS: u64 = 60;

const CALLS: u64 = 40;

// An item, of one kind or the other.
#[derive(Clone, Copy)]
struct Plain {
    spot: Spot,
    cid: Cid,
    is_ack: bool,
}

// A number below this one.
fn draw(source: &mut Pcg32, below: u64) -> u64
    requires { 0 < below }
    ensures { result < below }
{
    u64::from(source.next_word()) % below
}

fn draw_cid(source: &mut Pcg32) -> Cid {
    Cid {
        client: 0,
        seq: draw(source, CALLS),
    }
}

fn draw_item(source: &mut Pcg32) -> Plain {
    let place = draw(source, PLACES) as u8;
    let number = draw(source, NUMBERS) + 1;
    Plain {
        spot: Spot { place, number },
        cid: draw_cid(source),
        is_ack: draw(source, 3) == 0,
    }
}

// Whether an item stands at a spot.
fn stands(items: &[Plain], spot: Spot) -> bool {
    items.iter().any(|item| item.spot == spot)
}

// How many items there are of one kind.
fn count(items: &[Plain], is_ack: bool) -> usize {
    items.iter().filter(|item| item.is_ack == is_ack).count()
}

// The least spot of a call's items of one kind.
fn least(items: &[Plain], cid: Cid, is_ack: bool) -> Option<Spot> {
    let mut least: Option<Spot> = None;
    for item in items {
        if item.cid == cid && item.is_ack == is_ack {
            least = match least {
                Some(spot) => Some(spot.min(item.spot)),
                None => Some(item.spot),
            };
        }
    }
    least
}

// The numbers of a place's items of one kind.
fn numbers(alloc: Global, items: &[Plain], place: u8, is_ack: bool) -> Result<Vec<u64>, Fail> {
    let mut numbers = Vec::new(alloc);
    for item in items {
        if item.spot.place == place && item.is_ack == is_ack {
            numbers.push(item.spot.number)?;
        }
    }
    numbers.sort_unstable();
    Ok(numbers)
}

// Logs an item.
fn log_item(rt: &impl Abort, log: &mut Log<TallyOp>, item: Plain) -> Result<(), Fail> {
    let Plain { spot, cid, is_ack } = item;
    if is_ack {
        return add_ack(rt, log, LogAck { spot, cid, time: 5 });
    }
    let update = LogUpdate {
        spot,
        cid,
        prev: Stamp::zero(10),
        op: Tally::read_op(log.allocator(), b"add x 1")?,
    };
    add_update(rt, log, update)
}

// One more item, where its spot is free.
fn step_adding(
    rt: &impl Abort,
    log: &mut Log<TallyOp>,
    items: &mut Vec<Plain>,
    source: &mut Pcg32,
) -> Result<(), Fail> {
    let item = draw_item(source);
    let stood = stands(items.as_slice(), item.spot);
    assert!(rt; is_free(log, item.spot) != stood);
    if !stood {
        log_item(rt, log, item)?;
        items.push(item)?;
    }
    Ok(())
}

// Some more items at once.
fn step_taking(
    rt: &impl Abort,
    log: &mut Log<TallyOp>,
    items: &mut Vec<Plain>,
    source: &mut Pcg32,
) -> Result<(), Fail> {
    let mut more = Log::new(log.allocator());
    for _ in 0..draw(source, 6) {
        let item = draw_item(source);
        if !stands(items.as_slice(), item.spot) {
            log_item(rt, &mut more, item)?;
            items.push(item)?;
        }
    }
    take(rt, log, &more)?;
    Ok(())
}

// All that is new above a stamp is dropped.
fn step_dropping(
    rt: &impl Abort,
    log: &mut Log<TallyOp>,
    items: &mut Vec<Plain>,
    source: &mut Pcg32,
) {
    let mut rep_ts = Stamp::zero(10);
    for place in 0..9 {
        let number = draw(source, NUMBERS) + 10;
        assert!(rt; place < rep_ts.parts());
        assert!(rt; number <= LAST_NUMBER);
        rep_ts.set_part(place, number);
        items.retain(|item| item.spot.place != place || item.spot.number <= number);
    }
    log.drop_new(&rep_ts);
}

// The look-ups of a call.
fn check_call(rt: &impl Abort, log: &Log<TallyOp>, items: &[Plain], cid: Cid) {
    assert!(rt; log.update_of(cid) == least(items, cid, false));
    assert!(rt; log.ack_of(cid) == least(items, cid, true));
    match log.first_update(cid) {
        Some(update) => {
            assert!(rt; update.cid == cid);
            assert!(rt; Some(update.spot) == least(items, cid, false));
        }
        None => assert!(rt; least(items, cid, false) == None),
    }
}

// The items of a place.
fn check_place(
    rt: &impl Abort,
    log: &Log<TallyOp>,
    items: &[Plain],
    place: u8,
) -> Result<(), Fail> {
    let updates = numbers(log.allocator(), items, place, false)?;
    let acks = numbers(log.allocator(), items, place, true)?;
    assert_eq!(rt; log.updates_of(place).len(), updates.len());
    assert_eq!(rt; log.acks_of(place as usize).len(), acks.len());
    for (update, number) in log.updates_of(place).iter().zip(&updates) {
        assert_eq!(rt; update.spot.number, *number);
    }
    for (ack, number) in log.acks_of(place as usize).iter().zip(&acks) {
        assert_eq!(rt; ack.spot.number, *number);
    }
    Ok(())
}

// All of a log.
fn check_all(rt: &impl Abort, log: &Log<TallyOp>, items: &[Plain]) -> Result<(), Fail> {
    assert_eq!(rt; log.len(), items.len());
    let updates = log.update_spots()?;
    let acks = log.ack_spots()?;
    assert_eq!(rt; updates.len(), count(items, false));
    assert_eq!(rt; acks.len(), count(items, true));
    for place in 0..10 {
        check_place(rt, log, items, place)?;
    }
    Ok(())
}

#[test]
fn a_log_is_its_items(rt: HostRuntime) -> Result<(), Fail> {
    let mut source = Pcg32::new(42, 54);
    let mut log = Log::new(rt.alloc());
    let mut items = Vec::new(rt.alloc());
    for _ in 0..STEPS {
        match draw(&mut source, 40) {
            0 => step_dropping(&rt, &mut log, &mut items, &mut source),
            1..=8 => step_taking(&rt, &mut log, &mut items, &mut source)?,
            9..=20 => check_call(&rt, &log, items.as_slice(), draw_cid(&mut source)),
            21 => check_all(&rt, &log, items.as_slice())?,
            _ => step_adding(&rt, &mut log, &mut items, &mut source)?,
        }
    }
    check_all(&rt, &log, items.as_slice())
}
