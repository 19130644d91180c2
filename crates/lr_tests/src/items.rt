//! Items of logs, stamps and tables, which tests are made of.
use lr_base::lr_service::Service;
use lr_base::{Cid, Config, LAST_NUMBER, LogUpdate, MOST_PARTS, MOST_REPLICAS, Spot, Stamp};
use lr_log::Table;
use std::alloc::Global;
use std::process::Abort;
use std::test::Fail;
use svc_tally::{Tally, TallyOp};

/// A call of the first client.
pub fn cid(seq: u64) -> Cid {
    Cid { client: 0, seq }
}

/// A stamp of these parts.
pub fn stamp(rt: &impl Abort, parts: &[u64]) -> Stamp {
    let mut stamp = Stamp::none();
    for number in parts {
        assert!(rt; stamp.as_slice().len() < MOST_PARTS);
        assert!(rt; *number <= LAST_NUMBER);
        stamp.push(*number);
    }
    stamp
}

/// An update at this place and with this number, of the first client's call of this number. It has no causes, and adds
/// 1 to a counter.
pub fn update(alloc: Global, item: (u8, u64, u64)) -> Result<LogUpdate<TallyOp>, Fail> {
    let (place, number, seq) = item;
    Ok(LogUpdate {
        spot: Spot { place, number },
        cid: cid(seq),
        prev: Stamp::zero(4),
        op: Tally::read_op(alloc, b"add x 1")?,
    })
}

/// The first replica's table, of so many rows, where each replica told its row.
pub fn table_of(rt: &impl Abort, rows: &[&[u64]]) -> Table {
    assert!(rt; rows.len() <= MOST_REPLICAS as usize);
    let replicas = rows.len() as u8;
    let config = Config {
        replicas,
        clients: 1,
        delta: 0,
    };
    assert!(rt; config.is_valid());
    let mut table = Table::new(config, 0);
    for replica in 0..replicas {
        tell(rt, &mut table, replica, rows[replica as usize]);
    }
    table
}

/// A replica tells a stamp.
pub fn tell(rt: &impl Abort, table: &mut Table, replica: u8, row: &[u64]) {
    let row = stamp(rt, row);
    let replicas = table.rows().len();
    assert!(rt; (replica as usize) < replicas);
    assert!(rt; row.as_slice().len() == replicas + 1);
    table.merge(replica, &row);
}
