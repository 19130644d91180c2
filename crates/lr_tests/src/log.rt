//! The calls of a log, with lists worked out by hand.
use crate::items::{cid, stamp, table_of, update};
use crate::taking::{add_ack, add_update, take};
use lr_base::{LOG_ROOM, LogAck, Places, Spot};
use lr_log::Log;
use std::alloc::Global;
use std::process::Abort;
use std::test::Fail;
use svc_tally::TallyOp;

// Items by place and number, and the number of their client's call.
const ITEMS: [(u8, u64, u64); 5] = [(1, 2, 7), (0, 9, 8), (1, 1, 9), (2, 1, 7), (0, 3, 7)];

// The same in the order of places and then numbers.
const IN_ORDER: [(u8, u64, u64); 5] = [(0, 3, 7), (0, 9, 8), (1, 1, 9), (1, 2, 7), (2, 1, 7)];

// The number of an acknowledgement beside an update: no two items stand at one spot.
const FURTHER: u64 = 100;

// An acknowledgement of the same call, behind all updates of its place.
fn ack(item: (u8, u64, u64)) -> LogAck {
    let (place, number, seq) = item;
    LogAck {
        spot: Spot {
            place,
            number: number.saturating_add(FURTHER),
        },
        cid: cid(seq),
        time: 5,
    }
}

// The items that a log holds, as updates and as acknowledgements.
fn check_items(rt: &impl Abort, log: &Log<TallyOp>, want: &[(u8, u64, u64)]) -> Result<(), Fail> {
    let updates = log.copy_updates()?;
    let acks = log.copy_acks()?;
    assert_eq!(rt; updates.len(), want.len());
    assert_eq!(rt; acks.len(), want.len());
    for ((update, known), item) in updates.as_slice().iter().zip(acks.as_slice()).zip(want) {
        let (place, number, seq) = *item;
        assert!(rt; update.spot == Spot { place, number });
        assert!(rt; *known == ack(*item));
        assert!(rt; update.cid == cid(seq));
    }
    Ok(())
}

// A log with these items, as updates and as acknowledgements.
fn log_of(rt: &impl Abort, alloc: Global, items: &[(u8, u64, u64)]) -> Result<Log<TallyOp>, Fail> {
    let mut log = Log::new(alloc);
    for item in items {
        add_update(rt, &mut log, update(alloc, *item)?)?;
        add_ack(rt, &mut log, ack(*item))?;
    }
    Ok(log)
}

#[test]
fn items_stand_in_the_order_of_spots(rt: HostRuntime) -> Result<(), Fail> {
    let mut log = log_of(&rt, rt.alloc(), &ITEMS)?;
    check_items(&rt, &log, &IN_ORDER)?;
    check_items(&rt, &log.copy()?, &IN_ORDER)?;
    assert_eq!(rt; log.len(), 10);
    // All replicas have all of them.
    let row = [9, 2, 1, 0];
    log.retain_unknown(&table_of(&rt, &[&row, &row, &row]));
    assert_eq!(rt; log.update_spots()?.len(), 0);
    assert_eq!(rt; log.len(), 5);
    Ok(())
}

#[test]
fn several_are_added_at_once(rt: HostRuntime) -> Result<(), Fail> {
    let mut log = log_of(&rt, rt.alloc(), &[ITEMS[0], ITEMS[1]])?;
    take(&rt, &mut log, &Log::new(rt.alloc()))?;
    assert_eq!(rt; log.len(), 4);
    let more = log_of(&rt, rt.alloc(), &[ITEMS[2], ITEMS[3], ITEMS[4]])?;
    take(&rt, &mut log, &more)?;
    check_items(&rt, &log, &IN_ORDER)?;
    Ok(())
}

#[test]
fn the_least_spot_of_a_call_is_found(rt: HostRuntime) -> Result<(), Fail> {
    let log = log_of(&rt, rt.alloc(), &ITEMS)?;
    // (call, its least spot)
    for (seq, place, number) in [(7, 0, 3), (8, 0, 9), (9, 1, 1)] {
        let spot = Spot { place, number };
        assert!(rt; log.update_of(cid(seq)) == Some(spot), "update {seq}");
        let known = ack((place, number, seq));
        assert!(rt; log.ack_of(cid(seq)) == Some(known.spot), "ack {seq}");
        let first = log.first_update(cid(seq)).ok_or("no update")?;
        assert!(rt; first.spot == spot, "first {seq}");
    }
    assert!(rt; log.update_of(cid(1)) == None);
    assert!(rt; log.ack_of(cid(1)) == None);
    Ok(())
}

#[test]
fn the_items_of_a_place_stand_together(rt: HostRuntime) -> Result<(), Fail> {
    let log = log_of(&rt, rt.alloc(), &ITEMS)?;
    // (place, the numbers of its updates)
    let places: [(u8, &[u64]); 4] = [(0, &[3, 9]), (1, &[1, 2]), (2, &[1]), (3, &[])];
    for (place, numbers) in places {
        let updates = log.updates_of(place);
        let acks = log.acks_of(place as usize);
        assert_eq!(rt; updates.len(), numbers.len(), "place {place}");
        assert_eq!(rt; acks.len(), numbers.len(), "place {place}");
        for ((update, known), number) in updates.iter().zip(acks).zip(numbers) {
            assert_eq!(rt; update.spot.number, *number, "place {place}");
            assert_eq!(rt;
                known.spot.number,
                number.saturating_add(FURTHER),
                "place {place}"
            );
        }
    }
    Ok(())
}

#[test]
fn new_items_are_dropped(rt: HostRuntime) -> Result<(), Fail> {
    let mut log = log_of(&rt, rt.alloc(), &ITEMS)?;
    // Of each place so many were received: the updates (0, 3) and (1, 1) and no acknowledgement.
    log.drop_new(&stamp(&rt, &[8, 1, 0, 0]));
    assert_eq!(rt; log.len(), 2);
    assert!(rt;
        log.update_of(cid(7))
            == Some(Spot {
                place: 0,
                number: 3
            })
    );
    assert!(rt;
        log.update_of(cid(9))
            == Some(Spot {
                place: 1,
                number: 1
            })
    );
    assert!(rt; log.update_of(cid(8)) == None);
    assert!(rt; log.ack_of(cid(7)) == None);
    Ok(())
}

#[test]
fn a_log_has_room_below_its_most(rt: HostRuntime) -> Result<(), Fail> {
    let mut log = log_of(&rt, rt.alloc(), &[ITEMS[0]])?;
    for number in 0..510 {
        assert!(rt; log.has_room(), "before {number}");
        add_ack(&rt, &mut log, ack((2, number, 1)))?;
    }
    assert_eq!(rt; log.len(), LOG_ROOM);
    assert!(rt; !log.has_room());
    Ok(())
}
