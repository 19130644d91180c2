//! What leaves a log, what is told of it, and the table that says what each replica has: all worked out by hand.
use crate::items::{cid, stamp, table_of, tell, update};
use crate::taking::{add_ack, add_update};
use lr_base::{Cid, LOG_ROOM, LogAck, LogUpdate, Spot};
use lr_log::{Log, Table};
use std::alloc::Global;
use std::process::Abort;
use std::test::Fail;
use svc_tally::TallyOp;

// A place and a number.
type Item = (u8, u64);

// What three replicas told. The least of each place is 3, 1, 0 and 0.
const TOLD: [&[u64]; 3] = [&[5, 3, 2, 0], &[3, 3, 0, 0], &[4, 1, 2, 0]];

// Items at the border of what is told, at each place the last that all have and those behind it.
const ITEMS: [Item; 7] = [(0, 1), (0, 3), (0, 4), (0, 5), (1, 1), (1, 2), (2, 1)];

// Those of them that some replica lacks.
const LACKED: [Item; 4] = [(0, 4), (0, 5), (1, 2), (2, 1)];

// Those that the second replica lacks.
const NEW_FOR_SECOND: [Item; 3] = [(0, 4), (0, 5), (2, 1)];

// Those that the third lacks.
const NEW_FOR_THIRD: [Item; 2] = [(0, 5), (1, 2)];

// The delta of all cases of acknowledgements.
const DELTA: u64 = 5;

fn ack(item: Item, cid: Cid, time: u64) -> LogAck {
    let (place, number) = item;
    LogAck {
        spot: Spot { place, number },
        cid,
        time,
    }
}

// Logs an update of each, all of them of one call.
fn log_updates(
    rt: &impl Abort,
    log: &mut Log<TallyOp>,
    items: &[Item],
    seq: u64,
) -> Result<(), Fail> {
    for (place, number) in items {
        let made = update(log.allocator(), (*place, *number, seq))?;
        add_update(rt, log, made)?;
    }
    Ok(())
}

// A log of acknowledgements alone, one at each of these.
fn log_of_acks(rt: &impl Abort, alloc: Global, items: &[Item]) -> Result<Log<TallyOp>, Fail> {
    let mut log = Log::new(alloc);
    for item in items {
        add_ack(rt, &mut log, ack(*item, cid(1), 10))?;
    }
    Ok(log)
}

fn check_spots(rt: &impl Abort, spots: &[Spot], want: &[Item]) {
    assert_eq!(rt; spots.len(), want.len());
    for (spot, (place, number)) in spots.iter().zip(want) {
        assert_eq!(rt; spot.place, *place);
        assert_eq!(rt; spot.number, *number, "at place {place}");
    }
}

// Logs updates from one number at the first place up to the room of the log, and answers the last number.
fn fill(rt: &impl Abort, log: &mut Log<TallyOp>, first: u64) -> Result<u64, Fail> {
    let mut last = first;
    for _ in 0..LOG_ROOM {
        assert!(rt; log.has_room());
        last = last.saturating_add(1);
        log_updates(rt, log, &[(0, last)], last)?;
    }
    assert_eq!(rt; log.len(), LOG_ROOM);
    assert!(rt; !log.has_room());
    Ok(last)
}

#[test]
fn a_full_log_accepts_again_once_all_have_told(rt: HostRuntime) -> Result<(), Fail> {
    let mut log = Log::new(rt.alloc());
    assert_eq!(rt; fill(&rt, &mut log, 0)?, 512);
    let mut table = table_of(&rt, &[&[512, 0, 0], &[0, 0, 0]]);
    log.retain_unknown(&table);
    assert!(rt; !log.has_room());
    tell(&rt, &mut table, 1, &[511, 0, 0]);
    log.retain_unknown(&table);
    check_spots(&rt, log.update_spots()?.as_slice(), &[(0, 512)]);
    tell(&rt, &mut table, 1, &[512, 0, 0]);
    log.retain_unknown(&table);
    assert_eq!(rt; log.len(), 0);
    assert_eq!(rt; fill(&rt, &mut log, 512)?, 1024);
    Ok(())
}

#[test]
fn just_the_updates_that_a_replica_lacks_stay(rt: HostRuntime) -> Result<(), Fail> {
    let mut log = Log::new(rt.alloc());
    log_updates(&rt, &mut log, &ITEMS, 1)?;
    let table = table_of(&rt, &TOLD);
    log.retain_unknown(&table);
    check_spots(&rt, log.update_spots()?.as_slice(), &LACKED);
    // No call of those that left is found any more, and the least of those that stayed is.
    assert!(rt;
        log.update_of(cid(1))
            == Some(Spot {
                place: 0,
                number: 4
            })
    );
    log.retain_unknown(&table);
    check_spots(&rt, log.update_spots()?.as_slice(), &LACKED);
    Ok(())
}

#[test]
fn no_acknowledgement_leaves_with_the_updates(rt: HostRuntime) -> Result<(), Fail> {
    let mut log = log_of_acks(&rt, rt.alloc(), &ITEMS)?;
    log.retain_unknown(&table_of(&rt, &TOLD));
    check_spots(&rt, log.ack_spots()?.as_slice(), &ITEMS);
    Ok(())
}

#[test]
fn a_lone_replica_keeps_no_update(rt: HostRuntime) -> Result<(), Fail> {
    let mut log = Log::new(rt.alloc());
    log_updates(&rt, &mut log, &[(0, 1), (0, 2), (0, 3)], 1)?;
    log.retain_unknown(&table_of(&rt, &[&[3, 0]]));
    assert_eq!(rt; log.len(), 0);
    assert!(rt; log.update_of(cid(1)) == None);
    Ok(())
}

#[test]
fn an_acknowledgement_leaves_once_it_is_late(rt: HostRuntime) -> Result<(), Fail> {
    // (its time, the delta, the clock, whether it stays)
    let cases: [(u64, u64, u64, bool); 7] = [
        (10, 5, 14, true),
        (10, 5, 15, true),
        (10, 5, 16, false),
        (10, 0, 10, true),
        (10, 0, 11, false),
        (10, u64::MAX, u64::MAX, true),
        (u64::MAX, 0, u64::MAX, true),
    ];
    for (time, delta, clock, stays) in cases {
        let mut log = Log::<TallyOp>::new(rt.alloc());
        add_ack(&rt, &mut log, ack((0, 2), cid(1), time))?;
        log.drop_acks(&table_of(&rt, &[&[2, 0]]), clock, delta);
        assert_eq!(rt; log.len() == 1, stays, "{time} and {delta} at {clock}");
        assert_eq!(rt; log.ack_of(cid(1)).is_some(), stays);
    }
    Ok(())
}

#[test]
fn an_acknowledgement_stays_while_an_update_of_its_call_is_logged(
    rt: HostRuntime,
) -> Result<(), Fail> {
    let told: [&[u64]; 2] = [&[9, 1, 0], &[9, 0, 0]];
    let acked = cid(1);
    let stranger = Cid { client: 1, seq: 1 };
    // (the call that is acknowledged, the number of the logged update's call, whether the acknowledgement stays)
    for (acked, seq, stays) in [(acked, 1, true), (acked, 2, false), (stranger, 1, false)] {
        let mut log = Log::new(rt.alloc());
        // The update is one that the second replica lacks.
        log_updates(&rt, &mut log, &[(1, 1)], seq)?;
        add_ack(&rt, &mut log, ack((0, 2), acked, 10))?;
        log.drop_acks(&table_of(&rt, &told), 100, DELTA);
        assert_eq!(rt; log.ack_of(acked).is_some(), stays, "update of {seq}");
        assert_eq!(rt; log.update_spots()?.len(), 1);
    }
    Ok(())
}

#[test]
fn just_the_late_acknowledgements_that_a_replica_lacks_stay(rt: HostRuntime) -> Result<(), Fail> {
    let mut log = log_of_acks(&rt, rt.alloc(), &ITEMS)?;
    let table = table_of(&rt, &TOLD);
    log.drop_acks(&table, 15, DELTA);
    check_spots(&rt, log.ack_spots()?.as_slice(), &ITEMS);
    log.drop_acks(&table, 16, DELTA);
    check_spots(&rt, log.ack_spots()?.as_slice(), &LACKED);
    Ok(())
}

fn check_updates(rt: &impl Abort, updates: &[LogUpdate<TallyOp>], want: &[Item]) {
    assert_eq!(rt; updates.len(), want.len());
    for (update, (place, number)) in updates.iter().zip(want) {
        assert_eq!(rt; update.spot.place, *place);
        assert_eq!(rt; update.spot.number, *number, "at place {place}");
    }
}

fn check_acks(rt: &impl Abort, acks: &[LogAck], want: &[Item]) {
    assert_eq!(rt; acks.len(), want.len());
    for (known, item) in acks.iter().zip(want) {
        assert!(rt; *known == ack(*item, cid(1), 10));
    }
}

#[test]
fn what_a_replica_lacks_is_copied(rt: HostRuntime) -> Result<(), Fail> {
    let mut log = Log::new(rt.alloc());
    log_updates(&rt, &mut log, &ITEMS, 1)?;
    let acks = log_of_acks(&rt, rt.alloc(), &ITEMS)?;
    // (what it told, what is new for it)
    let cases: [(&[u64], &[Item]); 4] = [
        (&[0, 0, 0, 0], &ITEMS),
        (TOLD[1], &NEW_FOR_SECOND),
        (TOLD[2], &NEW_FOR_THIRD),
        (&[5, 2, 1, 0], &[]),
    ];
    for (told, want) in cases {
        let theirs = stamp(&rt, told);
        check_updates(&rt, log.copy_new_updates(&theirs)?.as_slice(), want);
        check_acks(&rt, acks.copy_new_acks(&theirs)?.as_slice(), want);
    }
    // Nothing left.
    check_spots(&rt, log.update_spots()?.as_slice(), &ITEMS);
    check_spots(&rt, acks.ack_spots()?.as_slice(), &ITEMS);
    Ok(())
}

fn check_rows(rt: &impl Abort, table: &Table, want: &[&[u64]]) {
    assert_eq!(rt; table.rows().len(), want.len());
    for (row, parts) in table.rows().iter().zip(want) {
        assert!(rt; row.as_slice() == *parts);
    }
}

#[test]
fn what_is_told_is_joined(rt: HostRuntime) -> Result<(), Fail> {
    let none: [u64; 4] = [0, 0, 0, 0];
    let mut table = table_of(&rt, &[&none, &none, &none]);
    // (who tells, what, its row then)
    let cases: [(u8, [u64; 4], [u64; 4]); 5] = [
        (1, [3, 0, 2, 0], [3, 0, 2, 0]),
        (1, [1, 4, 0, 0], [3, 4, 2, 0]),
        (1, [0, 0, 0, 0], [3, 4, 2, 0]),
        (2, [1, 1, 1, 0], [1, 1, 1, 0]),
        (0, [0, 5, 0, 0], [0, 5, 0, 0]),
    ];
    for (replica, told, want) in cases {
        tell(&rt, &mut table, replica, &told);
        assert!(rt; (replica as usize) < table.rows().len());
        assert!(rt; table.row(replica).as_slice() == want.as_slice());
    }
    check_rows(&rt, &table, &[&[0, 5, 0, 0], &[3, 4, 2, 0], &[1, 1, 1, 0]]);
    assert!(rt; table.own().as_slice() == [0, 5, 0, 0].as_slice());
    check_rows(
        &rt,
        &table.copy(),
        &[&[0, 5, 0, 0], &[3, 4, 2, 0], &[1, 1, 1, 0]],
    );
    Ok(())
}

#[test]
fn all_rows_are_asked(rt: HostRuntime) -> Result<(), Fail> {
    // (what three replicas told, whether the second item of the first place is known everywhere)
    let cases: [([u64; 3], bool); 6] = [
        ([2, 2, 2], true),
        ([3, 2, 9], true),
        ([1, 2, 2], false),
        ([2, 1, 2], false),
        ([2, 2, 1], false),
        ([0, 0, 0], false),
    ];
    for ([own, second, third], want) in cases {
        let table = table_of(
            &rt,
            &[&[own, 0, 0, 0], &[second, 0, 0, 0], &[third, 0, 0, 0]],
        );
        let spot = Spot {
            place: 0,
            number: 2,
        };
        let least = own.min(second).min(third);
        assert_eq!(rt;
            table.known_everywhere(spot),
            want,
            "{own} {second} {third}"
        );
        assert!(rt; table.floor().as_slice() == [least, 0, 0, 0].as_slice());
    }
    Ok(())
}

#[test]
fn just_what_a_replica_lacks_is_not_known_everywhere(rt: HostRuntime) -> Result<(), Fail> {
    let table = table_of(&rt, &TOLD);
    assert!(rt; table.floor().as_slice() == [3, 1, 0, 0].as_slice());
    for (place, number) in ITEMS {
        let lacked = LACKED.iter().any(|item| *item == (place, number));
        assert!(rt; table.known_everywhere(Spot { place, number }) != lacked);
    }
    Ok(())
}
