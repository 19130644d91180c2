//! Steps that are undone.
use crate::faults::Fault;
use crate::steps::{accept, hear, hold, note, read, tick};
use lr_causal::Causal;
use std::alloc::Global;
use svc_tally::Tally;

/// Accepts an update, holds a query, applies the update, asks another query, and undoes what it did.
pub fn accept_undone(
    alloc: Global,
    replica: &mut Causal<Tally>,
    update: &[&str],
    query: &[&str],
    asked: &[&str],
    out: &mut String,
) -> Result<(), Fault> {
    let mut point = replica.save(replica.me());
    accept(alloc, replica, update, out)?;
    hold(alloc, replica, query)?;
    replica.apply(&mut point)?;
    read(alloc, replica, asked, out)?;
    replica.restore(point);
    Ok(())
}

/// Takes gossip, applies it, asks a query, and undoes what it did.
pub fn hear_undone(
    alloc: Global,
    replica: &mut Causal<Tally>,
    from: &Causal<Tally>,
    asked: &[&str],
    out: &mut String,
) -> Result<(), Fault> {
    if replica.config().replicas <= from.me() {
        return Err(Fault::NoReplica);
    }
    let mut point = replica.save(from.me());
    hear(replica, from, out)?;
    replica.apply(&mut point)?;
    read(alloc, replica, asked, out)?;
    replica.restore(point);
    Ok(())
}

/// Takes an acknowledgement, reads the clock, and undoes what it did.
pub fn note_undone(
    replica: &mut Causal<Tally>,
    noted: &[&str],
    ticked: &[&str],
    out: &mut String,
) -> Result<(), Fault> {
    let point = replica.save(replica.me());
    note(replica, noted, out)?;
    out.push_str(", ")?;
    tick(replica, ticked, out)?;
    replica.restore(point);
    Ok(())
}
