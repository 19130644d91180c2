//! How answers and states are printed.
use crate::faults::Fault;
use lr_base::{Cid, Fresh, Gossip, LogAck, LogUpdate, Spot, Stamp, Text};
use lr_causal::{AckEnd, Causal};
use std::alloc::{AllocError, Global};
use std::str;
use svc_tally::{Tally, TallyOp};

/// Adds a stamp's parts behind `out`, with dots between them.
pub fn put_stamp(stamp: &Stamp, out: &mut String) -> Result<(), AllocError> {
    for place in 0..stamp.parts() {
        if 0 < place {
            out.push_str(".")?;
        }
        let part = stamp.part(place);
        write!(out, "{part}")?;
    }
    Ok(())
}

fn put_spot(spot: Spot, out: &mut String) -> Result<(), AllocError> {
    let Spot { place, number } = spot;
    write!(out, "{place}:{number}")
}

// Adds what stands between two items behind `out`, unless nothing stands there.
fn put_comma(out: &mut String) -> Result<(), AllocError> {
    if out.is_empty() {
        return Ok(());
    }
    out.push_str(", ")
}

/// Adds where an update was accepted behind `out`, and its stamp.
pub fn put_accepted(spot: Spot, stamp: &Stamp, out: &mut String) -> Result<(), AllocError> {
    put_spot(spot, out)?;
    out.push_str(" at ")?;
    put_stamp(stamp, out)
}

/// Adds how many items of gossip were new behind `out`.
pub fn put_count(count: u64, out: &mut String) -> Result<(), AllocError> {
    write!(out, "{count} new")
}

/// Adds a query's answer behind `out`, or a dash for none.
pub fn put_answer(answer: &Option<Text>, out: &mut String) -> Result<(), Fault> {
    put_comma(out)?;
    let Some(text) = answer else {
        return Ok(out.push_str("-")?);
    };
    match str::from_utf8(text.as_slice()) {
        Ok(text) => Ok(out.push_str(text)?),
        Err(_) => Err(Fault::Unread),
    }
}

/// Adds what a replica says of a call behind `out`.
pub fn put_fresh(fresh: &Fresh, out: &mut String) -> Result<(), AllocError> {
    match fresh {
        Fresh::New => out.push_str("new"),
        Fresh::Late { time, clock } => write!(out, "{time} is late at {clock}"),
        Fresh::Again { spot, stamp } => {
            out.push_str("taken ")?;
            put_accepted(*spot, stamp, out)
        }
        Fresh::Settled => out.push_str("settled"),
    }
}

/// Adds what became of an acknowledgement behind `out`.
pub fn put_noted(end: AckEnd, out: &mut String) -> Result<(), AllocError> {
    match end {
        AckEnd::Noted(spot) => put_spot(spot, out),
        AckEnd::Again(spot) => {
            out.push_str("noted ")?;
            put_spot(spot, out)
        }
        AckEnd::FullLog => out.push_str("no room"),
        AckEnd::Worn => out.push_str("no number"),
    }
}

/// Adds a replica's stamps and counts behind `out`.
pub fn put_stamps(replica: &Causal<Tally>, out: &mut String) -> Result<(), AllocError> {
    put_named("received", replica.rep_ts(), out)?;
    put_named("applied", replica.val_ts(), out)?;
    put_named("ordered", replica.order_ts(), out)?;
    put_named("immediate", replica.imm_ts(), out)?;
    put_counts(replica, out)
}

fn put_named(name: &str, stamp: &Stamp, out: &mut String) -> Result<(), AllocError> {
    out.push_str(name)?;
    out.push_str(" ")?;
    put_stamp(stamp, out)?;
    out.push_str(", ")
}

fn put_counts(replica: &Causal<Tally>, out: &mut String) -> Result<(), AllocError> {
    let me = replica.me();
    let top = replica.top();
    let clock = replica.clock();
    write!(out, "me {me}, top {top}, clock {clock}")
}

/// Adds what each replica was last heard to have received behind `out`.
pub fn put_heard(replica: &Causal<Tally>, out: &mut String) -> Result<(), AllocError> {
    for stamp in replica.table() {
        put_comma(out)?;
        put_stamp(stamp, out)?;
    }
    Ok(())
}

fn put_seq(cid: Cid, out: &mut String) -> Result<(), AllocError> {
    put_comma(out)?;
    let seq = cid.seq;
    write!(out, "{seq}")
}

/// Adds the numbers of the executed calls behind `out`, in their order.
pub fn put_executed(alloc: Global, replica: &Causal<Tally>, out: &mut String) -> Result<(), Fault> {
    let cids = replica.calls().cids(alloc)?;
    for cid in &cids {
        put_seq(*cid, out)?;
    }
    Ok(())
}

/// Adds the numbers of the held queries behind `out`, in the order of arrival.
pub fn put_held(replica: &Causal<Tally>, out: &mut String) -> Result<(), AllocError> {
    for call in replica.held() {
        put_seq(call.cid, out)?;
    }
    Ok(())
}

/// Adds what is told behind `out`: how many items were received of each place, the updates, and the acknowledgements.
pub fn put_gossip(gossip: &Gossip<TallyOp>, out: &mut String) -> Result<(), AllocError> {
    put_stamp(&gossip.rep_ts, out)?;
    put_update_items(gossip.updates.as_slice(), out)?;
    put_ack_items(gossip.acks.as_slice(), out)
}

/// Adds the logged updates behind `out`, each with its spot, its call and its label.
pub fn put_updates(replica: &Causal<Tally>, out: &mut String) -> Result<(), Fault> {
    let updates = replica.log().copy_updates()?;
    Ok(put_update_items(updates.as_slice(), out)?)
}

/// Adds the logged acknowledgements behind `out`, each with its spot and its call.
pub fn put_acks(replica: &Causal<Tally>, out: &mut String) -> Result<(), Fault> {
    let acks = replica.log().copy_acks()?;
    Ok(put_ack_items(acks.as_slice(), out)?)
}

fn put_update_items(updates: &[LogUpdate<TallyOp>], out: &mut String) -> Result<(), AllocError> {
    for update in updates {
        put_item(update.spot, update.cid, out)?;
        out.push_str(" after ")?;
        put_stamp(&update.prev, out)?;
    }
    Ok(())
}

fn put_ack_items(acks: &[LogAck], out: &mut String) -> Result<(), AllocError> {
    for ack in acks {
        put_item(ack.spot, ack.cid, out)?;
    }
    Ok(())
}

fn put_item(spot: Spot, cid: Cid, out: &mut String) -> Result<(), AllocError> {
    put_comma(out)?;
    put_spot(spot, out)?;
    let seq = cid.seq;
    write!(out, " of {seq}")
}
