//! Copies that are late or in time at both ends of the clock, and calls that come to a table and leave it.
use crate::{CallTable, late};
use lr_base::{Cid, Known, LogAck, LogUpdate, NoMemory, Places, Spot, Stamp};
use std::alloc::Global;
use std::slice;
use std::test::Fail;

#[test]
fn a_copy_is_late_once_the_clock_is_past_the_sum(rt: HostRuntime) -> Result<(), Fail> {
    let last = u64::MAX;
    // (time, delta, clock, whether it is late)
    let copies: [(u64, u64, u64, bool); 8] = [
        (5, 10, 15, false),
        (5, 10, 16, true),
        (0, 0, 0, false),
        (0, 0, 1, true),
        (last, 0, last, false),
        (last - 2, 1, last, true),
        (last, 1, last, false),
        (last, last, last, false),
    ];
    for (time, delta, clock, want) in copies {
        assert_eq!(rt; late(time, delta, clock), want, "{time} {delta} {clock}");
    }
    Ok(())
}

fn cid(client: u32, seq: u64) -> Cid {
    Cid { client, seq }
}

// The count of the spot at which the call was executed, where it was.
fn number_of(table: &CallTable, cid: Cid) -> Option<u64> {
    let known = table.find(cid)?;
    Some(known.spot.number)
}

// Enters a call that isn't there, and else says so.
fn enter(table: &mut CallTable, cid: Cid, number: u64) -> Result<bool, NoMemory> {
    if table.find(cid).is_some() {
        return Ok(false);
    }
    let known = Known {
        spot: Spot { place: 0, number },
        stamp: Stamp::zero(2),
    };
    table.enter(cid, known)?;
    Ok(true)
}

#[test]
fn calls_come_to_a_table_and_leave_it(rt: HostRuntime) -> Result<(), Fail> {
    let mut table = CallTable::new(rt.alloc());
    // (call, number, whether it is entered)
    let calls: [(Cid, u64, bool); 4] = [
        (cid(1, 1), 5, true),
        (cid(0, 2), 6, true),
        (cid(0, 1), 7, true),
        (cid(0, 2), 8, false),
    ];
    for (cid, number, want) in calls {
        assert_eq!(rt; enter(&mut table, cid, number)?, want);
    }
    let all = [cid(0, 1), cid(0, 2), cid(1, 1)];
    assert!(rt; table.cids(rt.alloc())?.as_slice() == all.as_slice());
    assert_eq!(rt; number_of(&table, cid(0, 2)), Some(6));
    assert_eq!(rt; number_of(&table, cid(1, 2)), None);
    let copied = table.copy()?;
    table.leave(&[cid(1, 1), cid(3, 3), cid(0, 1)]);
    let left = [cid(0, 2)];
    assert!(rt; table.cids(rt.alloc())?.as_slice() == left.as_slice());
    assert_eq!(rt; number_of(&table, cid(1, 1)), None);
    assert_eq!(rt; number_of(&copied, cid(1, 1)), Some(5));
    Ok(())
}

// A log with one update.
#[derive(Drop)]
struct OneUpdate {
    update: LogUpdate<u8>,
}

impl Places<u8> for OneUpdate {
    ghost use Rattle.std.specs.Prelude.{[], ◌∷◌};

    ghost updates = { λ log. log.update ∷ [] };

    fn updates_of(&self, place: u8) -> &[LogUpdate<u8>] {
        if self.update.spot.place == place {
            slice::from_ref(&self.update)
        } else {
            &[]
        }
    }

    fn has_update(&self, cid: Cid) -> bool {
        self.update.cid == cid
    }
}

// An acknowledgement of a call.
fn ack(client: u32, seq: u64) -> LogAck {
    LogAck {
        spot: Spot {
            place: 1,
            number: seq,
        },
        cid: cid(client, seq),
        time: 0,
    }
}

// The calls that stay of `0.1`, `0.2` and `1.1`, of which the first has an update in the log.
fn left_by(alloc: Global, acks: &[LogAck]) -> Result<Vec<Cid>, NoMemory> {
    let mut table = CallTable::new(alloc);
    for cid in [cid(0, 1), cid(0, 2), cid(1, 1)] {
        let _entered = enter(&mut table, cid, 1)?;
    }
    let log = OneUpdate {
        update: LogUpdate {
            spot: Spot {
                place: 0,
                number: 1,
            },
            cid: cid(0, 1),
            prev: Stamp::zero(2),
            op: 0,
        },
    };
    table.forget(&log, acks);
    table.cids(alloc)
}

#[test]
fn calls_that_are_done_are_forgotten(rt: HostRuntime) -> Result<(), Fail> {
    let all = [cid(0, 1), cid(0, 2), cid(1, 1)];
    let but_the_second = [cid(0, 1), cid(1, 1)];
    let logged = [cid(0, 1)];
    // (what is acknowledged, acknowledgements, calls that stay)
    let cases: [(&str, &[LogAck], &[Cid]); 6] = [
        ("nothing", &[], &all),
        ("a call without an update", &[ack(0, 2)], &but_the_second),
        ("a call with an update", &[ack(0, 1)], &all),
        ("a call that isn't there", &[ack(1, 2)], &all),
        ("a call twice", &[ack(0, 2), ack(0, 2)], &but_the_second),
        ("each call", &[ack(1, 1), ack(0, 1), ack(0, 2)], &logged),
    ];
    for (what, acks, want) in cases {
        let left = left_by(rt.alloc(), acks)?;
        assert!(rt; left.as_slice() == want, "{what}");
    }
    Ok(())
}
