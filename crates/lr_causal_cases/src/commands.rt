//! Commands, and what they answer.
ghost use Rattle.std.specs.Prelude.{◌<◌, length, IfOk};

use crate::faults::Fault;
use crate::printed::{
    put_acks, put_executed, put_fresh, put_heard, put_held, put_stamps, put_updates,
};
use crate::steps::{accept, hear, hear_acks, hold, note, read, tell, tick};
use crate::texts::{cid, cut, number_of, small_number_of};
use crate::undone::{accept_undone, hear_undone, note_undone};
use lr_base::Config;
use lr_calls::late;
use lr_causal::Causal;
use std::alloc::Global;
use svc_tally::Tally;

/// Does a command on these replicas, and adds what it answers behind `out`.
pub fn answer(
    alloc: Global,
    replicas: &mut Vec<Causal<Tally>>,
    line: &str,
    out: &mut String,
) -> Result<(), Fault> {
    let words: Vec<&str> = line.split_whitespace().collect(alloc)?;
    match words.as_slice() {
        ["run", count] => begin(alloc, replicas, count),
        ["copy", at] => copy(replicas, at),
        ["late", times @ ..] => answer_late(times, out),
        [verb, at, words @ ..] => answer_at(alloc, replicas, at, verb, words, out),
        _ => Err(Fault::Unread),
    }
}

// Begins a run of so many replicas, in place of the one before.
fn begin(alloc: Global, replicas: &mut Vec<Causal<Tally>>, count: &str) -> Result<(), Fault> {
    let config = Config {
        replicas: small_number_of(count)?,
        clients: 1,
        delta: 10,
    };
    if !config.is_valid() {
        return Err(Fault::BadCount);
    }
    replicas.clear();
    for me in 0..config.replicas {
        replicas.push(Causal::new(alloc, config, me)?)?;
    }
    Ok(())
}

// The index of a replica: its number in the run, or that of its copy behind them.
fn index_of(replicas: &[Causal<Tally>], text: &str) -> Result<usize, Fault>
    ensures { IfOk result (λ at. at < length replicas.now) }
{
    let at = small_number_of(text)? as usize;
    if at < replicas.len() {
        Ok(at)
    } else {
        Err(Fault::NoReplica)
    }
}

fn copy_of(replicas: &[Causal<Tally>], text: &str) -> Result<Causal<Tally>, Fault> {
    let at = index_of(replicas, text)?;
    Ok(replicas[at].copy()?)
}

// Puts a copy of a replica behind the others.
fn copy(replicas: &mut Vec<Causal<Tally>>, at: &str) -> Result<(), Fault> {
    let copied = copy_of(replicas.as_slice(), at)?;
    replicas.push(copied)?;
    Ok(())
}

// A time, how late a message may be, and a clock.
fn answer_late(times: &[&str], out: &mut String) -> Result<(), Fault> {
    let [time, delta, clock] = times else {
        return Err(Fault::Unread);
    };
    let is_late = late(number_of(time)?, number_of(delta)?, number_of(clock)?);
    Ok(write!(out, "{is_late}")?)
}

// What one replica is told by another, or else what it does alone.
fn answer_at(
    alloc: Global,
    replicas: &mut Vec<Causal<Tally>>,
    at: &str,
    verb: &str,
    words: &[&str],
    out: &mut String,
) -> Result<(), Fault> {
    let at = index_of(replicas.as_slice(), at)?;
    match words {
        [from, asked @ ..] if verb == "hear" => {
            let from = copy_of(replicas.as_slice(), from)?;
            answer_heard(alloc, &mut replicas[at], &from, asked, out)
        }
        _ => answer_one(alloc, &mut replicas[at], verb, words, out),
    }
}

// Gossip: taken; or, with a query behind it, taken, applied and undone.
fn answer_heard(
    alloc: Global,
    replica: &mut Causal<Tally>,
    from: &Causal<Tally>,
    asked: &[&str],
    out: &mut String,
) -> Result<(), Fault> {
    if asked.is_empty() {
        hear(replica, from, out)
    } else {
        hear_undone(alloc, replica, from, asked, out)
    }
}

// What changes one replica, or else what only asks it.
fn answer_one(
    alloc: Global,
    replica: &mut Causal<Tally>,
    verb: &str,
    words: &[&str],
    out: &mut String,
) -> Result<(), Fault> {
    match verb {
        "accept" => answer_accepted(alloc, replica, words, out),
        "hold" => hold(alloc, replica, words),
        "note" => answer_noted(replica, words, out),
        "tick" => tick(replica, words, out),
        "hear_acks" => hear_acks(alloc, replica, words, out),
        "settle" => Ok(replica.settle()?),
        "drop_answered" => Ok(replica.drop_answered()),
        _ => answer_asked(alloc, replica, verb, words, out),
    }
}

// An update: accepted; or, where a query to be held and one to be read stand behind it, each behind a stroke, accepted,
// applied and undone.
fn answer_accepted(
    alloc: Global,
    replica: &mut Causal<Tally>,
    words: &[&str],
    out: &mut String,
) -> Result<(), Fault> {
    let Some((update, queries)) = cut(words) else {
        return accept(alloc, replica, words, out);
    };
    let Some((query, asked)) = cut(queries) else {
        return Err(Fault::Unread);
    };
    accept_undone(alloc, replica, update, query, asked, out)
}

// An acknowledgement: noted; or, with a time behind a stroke, noted, the clock read, and undone.
fn answer_noted(
    replica: &mut Causal<Tally>,
    words: &[&str],
    out: &mut String,
) -> Result<(), Fault> {
    match cut(words) {
        Some((noted, ticked)) => note_undone(replica, noted, ticked, out),
        None => note(replica, words, out),
    }
}

// What only asks one replica.
fn answer_asked(
    alloc: Global,
    replica: &Causal<Tally>,
    verb: &str,
    words: &[&str],
    out: &mut String,
) -> Result<(), Fault> {
    match verb {
        "read" => read(alloc, replica, words, out),
        "fresh" => answer_fresh(replica, words, out),
        "tell" => tell(replica, words, out),
        "stamps" => Ok(put_stamps(replica, out)?),
        "heard" => Ok(put_heard(replica, out)?),
        "executed" => put_executed(alloc, replica, out),
        "held" => Ok(put_held(replica, out)?),
        "updates" => put_updates(replica, out),
        "acks" => put_acks(replica, out),
        _ => Err(Fault::Unread),
    }
}

// The number of a call, and a message's time.
fn answer_fresh(replica: &Causal<Tally>, words: &[&str], out: &mut String) -> Result<(), Fault> {
    let [seq, time] = words else {
        return Err(Fault::Unread);
    };
    let fresh = replica.fresh(cid(number_of(seq)?), number_of(time)?);
    Ok(put_fresh(&fresh, out)?)
}
