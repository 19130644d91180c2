//! What a replica is asked and told, with each condition of the call tested. What it answers goes behind `out`.
ghost use Rattle.std.specs.Prelude.{ℕ, length, IfOk};
ghost use Rattle.lr_causal.specs.Causal.{IsGossip};
ghost use Rattle.lr_causal.specs.Savepoint.{CanUndo};
ghost use Rattle.lr_causal.specs.State.{me_of, replica_of};

use crate::faults::Fault;
use crate::printed::{put_accepted, put_answer, put_count, put_gossip, put_noted};
use crate::texts::{call_of, cid, number_of, op_of, small_number_of, stamp_of};
use lr_base::lr_service::{Kind, Operation, Service};
use lr_base::{Gossip, LogAck, Rows, Spot, Stamp};
use lr_causal::Causal;
use lr_log::is_new;
use std::alloc::Global;
use svc_tally::{Tally, TallyOp};

/// Accepts an update of the client: its number, its label, and the operation.
pub fn accept(
    alloc: Global,
    replica: &mut Causal<Tally>,
    words: &[&str],
    out: &mut String,
) -> Result<(), Fault>
    ensures { (row : ℕ) → CanUndo row (replica_of replica.old) (replica_of replica.new) }
{
    let call = call_of(alloc, replica.rep_ts().parts(), words)?;
    if 1 << 62 <= replica.rep_ts().part(replica.me()) {
        return Err(Fault::Worn);
    }
    match Tally::kind(&call.op) {
        Kind::Query => Err(Fault::BadOperation),
        Kind::Causal | Kind::Forced | Kind::Immediate => {
            let (spot, stamp) = replica.accept(&call)?;
            Ok(put_accepted(spot, &stamp, out)?)
        }
    }
}

/// Holds a query of the client: its number, its label, and the operation.
pub fn hold(alloc: Global, replica: &mut Causal<Tally>, words: &[&str]) -> Result<(), Fault>
    ensures { (row : ℕ) → CanUndo row (replica_of replica.old) (replica_of replica.new) }
{
    let call = call_of(alloc, replica.rep_ts().parts(), words)?;
    Ok(replica.hold(&call)?)
}

/// Takes an acknowledgement of the client: the number of its call, and a time.
pub fn note(replica: &mut Causal<Tally>, words: &[&str], out: &mut String) -> Result<(), Fault>
    ensures { (row : ℕ) → CanUndo row (replica_of replica.old) (replica_of replica.new) }
{
    let [seq, time] = words else {
        return Err(Fault::Unread);
    };
    let end = replica.ack(cid(number_of(seq)?), number_of(time)?)?;
    Ok(put_noted(end, out)?)
}

/// Reads the clock at a time.
pub fn tick(replica: &mut Causal<Tally>, words: &[&str], out: &mut String) -> Result<(), Fault>
    ensures { (row : ℕ) → CanUndo row (replica_of replica.old) (replica_of replica.new) }
{
    let [reading] = words else {
        return Err(Fault::Unread);
    };
    let clock = replica.tick(number_of(reading)?);
    Ok(write!(out, "clock {clock}")?)
}

/// Reads a query's answer, if there is one: its label, and the operation.
pub fn read(
    alloc: Global,
    replica: &Causal<Tally>,
    words: &[&str],
    out: &mut String,
) -> Result<(), Fault> {
    let [label, op @ ..] = words else {
        return Err(Fault::Unread);
    };
    let label = stamp_of(replica.rep_ts().parts(), label)?;
    let op = op_of(alloc, op)?;
    match Tally::kind(&op) {
        Kind::Query => put_answer(&replica.read(&label, &op)?, out),
        Kind::Causal | Kind::Forced | Kind::Immediate => Err(Fault::BadOperation),
    }
}

/// Takes one replica's gossip at another of its run.
pub fn hear(
    replica: &mut Causal<Tally>,
    from: &Causal<Tally>,
    out: &mut String,
) -> Result<(), Fault>
    ensures { CanUndo (me_of from.now) (replica_of replica.old) (replica_of replica.new) }
{
    if from.config() != replica.config() {
        return Err(Fault::TwoRuns);
    }
    let gossip = from.make_gossip(replica.me())?;
    let count = replica.take_gossip(from.me(), &gossip)?;
    Ok(put_count(count, out)?)
}

/// Asks what a replica tells another: that one's number.
pub fn tell(replica: &Causal<Tally>, words: &[&str], out: &mut String) -> Result<(), Fault> {
    let [to] = words else {
        return Err(Fault::Unread);
    };
    let to = small_number_of(to)?;
    if replica.config().replicas <= to {
        return Err(Fault::NoReplica);
    }
    let gossip = replica.make_gossip(to)?;
    Ok(put_gossip(&gossip, out)?)
}

/// Takes gossip of a replica that logged nothing but acknowledgements: the replica, its stamp, and the numbers of the
/// acknowledgements.
pub fn hear_acks(
    alloc: Global,
    replica: &mut Causal<Tally>,
    words: &[&str],
    out: &mut String,
) -> Result<(), Fault> {
    let [from, rep_ts, numbers @ ..] = words else {
        return Err(Fault::Unread);
    };
    let from = small_number_of(from)?;
    if replica.config().replicas <= from {
        return Err(Fault::NoReplica);
    }
    let rep_ts = stamp_of(replica.rep_ts().parts(), rep_ts)?;
    let gossip = gossip_of_acks(alloc, from, rep_ts, numbers)?;
    let count = replica.take_gossip(from, &gossip)?;
    Ok(put_count(count, out)?)
}

// The gossip of a replica that received so many items, and of these numbers, in their order, acknowledgements of the
// calls of the same numbers.
fn gossip_of_acks(
    alloc: Global,
    place: u8,
    rep_ts: Stamp,
    numbers: &[&str],
) -> Result<Gossip<TallyOp>, Fault>
    ensures { IfOk result (IsGossip ⟦<TallyOp as Operation>⟧.kind_of (length rep_ts)) }
{
    let mut acks = Rows::new(alloc);
    let mut last = 0;
    for number in numbers {
        let number = number_of(number)?;
        let spot = Spot { place, number };
        if is_new(&rep_ts, spot) {
            return Err(Fault::Unreceived);
        }
        if number <= last {
            return Err(Fault::OutOfOrder);
        }
        last = number;
        acks.push(LogAck {
            spot,
            cid: cid(number),
            time: 0,
        })?;
    }
    Ok(Gossip {
        rep_ts,
        updates: Rows::new(alloc),
        acks,
    })
}
