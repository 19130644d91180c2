//! What an event did, line by line.
ghost use Rattle.std.specs.Prelude.{◌≡◌, ◌++◌, codes, OnOk};
ghost use Rattle.std.specs.Fmt.{decimal};
ghost use Rattle.lr_report.specs.Printed.{outcome_line, outcome_text, refusal_text, sent_text};
ghost use Rattle.lr_report.specs.Texts.{actor_text, cid_text, spot_text};

use crate::names::{put_actor, put_cid, put_spot};
use crate::state_lines::put_state;
use lr_base::{Actor, Cid, NoMemory, Outcome, Refusal, Sent, Spot, Text, put_number};

// Adds the outcome's line behind `out`.
pub fn put_line(replicas: u8, outcome: &Outcome, out: &mut Text) -> Result<(), NoMemory>
    ensures { OnOk result (out.new ≡ out.old ++ outcome_line replicas outcome.now) }
{
    out.extend(b"  ")?;
    put_outcome(replicas, outcome, out)?;
    out.extend(b"\n")
}

fn put_outcome(replicas: u8, outcome: &Outcome, out: &mut Text) -> Result<(), NoMemory>
    ensures { OnOk result (out.new ≡ out.old ++ outcome_text replicas outcome.now) }
{
    match outcome {
        Outcome::Send {
            number,
            from,
            to,
            what,
        } => {
            put_way(*number, *from, *to, out)?;
            put_sent(replicas, what, out)
        }
        Outcome::Accept { spot, cid } => put_with_item(b"accept ", replicas, *spot, *cid, out),
        Outcome::Note { spot, cid } => put_with_item(b"note ", replicas, *spot, *cid, out),
        Outcome::Hold { cid } => put_with_call(b"hold ", *cid, out),
        Outcome::Take { count } => put_with_number(b"take ", *count, out),
        Outcome::Got { cid } => put_with_call(b"got ", *cid, out),
        Outcome::Stale { cid } => put_with_call(b"stale ", *cid, out),
        Outcome::ClockAt { reading } => put_with_number(b"clock ", *reading, out),
        Outcome::NoMessage { message } => put_with_number(b"none ", *message, out),
        Outcome::Refuse { why } => {
            out.extend(b"refuse ")?;
            put_refusal(replicas, *why, out)
        }
        Outcome::State { line } => put_state(replicas, line, out),
    }
}

// The text that stands before it, and then a number.
fn put_with_number(before: &[u8], number: u64, out: &mut Text) -> Result<(), NoMemory>
    ensures { OnOk result (out.new ≡ out.old ++ (before.now ++ decimal number)) }
{
    out.extend(before)?;
    put_number(number, out)
}

fn put_with_call(before: &[u8], cid: Cid, out: &mut Text) -> Result<(), NoMemory>
    ensures { OnOk result (out.new ≡ out.old ++ (before.now ++ cid_text cid)) }
{
    out.extend(before)?;
    put_cid(cid, out)
}

fn put_with_spot(before: &[u8], replicas: u8, spot: Spot, out: &mut Text) -> Result<(), NoMemory>
    ensures { OnOk result (out.new ≡ out.old ++ (before.now ++ spot_text replicas spot)) }
{
    out.extend(before)?;
    put_spot(replicas, spot, out)
}

// The item of a call: the spot, and then the call.
fn put_with_item(
    before: &[u8],
    replicas: u8,
    spot: Spot,
    cid: Cid,
    out: &mut Text,
) -> Result<(), NoMemory>
    ensures { OnOk result (out.new ≡ out.old
        ++ (before.now ++ (spot_text replicas spot ++ (codes " " ++ cid_text cid)))) }
{
    put_with_spot(before, replicas, spot, out)?;
    out.extend(b" ")?;
    put_cid(cid, out)
}

// A call, and the time of the front end's clock.
fn put_with_time(before: &[u8], cid: Cid, time: u64, out: &mut Text) -> Result<(), NoMemory>
    ensures { OnOk result (out.new ≡ out.old ++ (before.now ++ (cid_text cid ++ (codes " at " ++ decimal time)))) }
{
    put_with_call(before, cid, out)?;
    out.extend(b" at ")?;
    put_number(time, out)
}

// A message's number and the way that it goes, up to the space behind its receiver.
fn put_way(number: u64, from: Actor, to: Actor, out: &mut Text) -> Result<(), NoMemory>
    ensures { OnOk result (out.new ≡ out.old ++ (codes "send " ++ (decimal number
        ++ (codes " " ++ (actor_text from ++ (codes " " ++ (actor_text to ++ codes " "))))))) }
{
    out.extend(b"send ")?;
    put_number(number, out)?;
    out.extend(b" ")?;
    put_actor(from, out)?;
    out.extend(b" ")?;
    put_actor(to, out)?;
    out.extend(b" ")
}

fn put_sent(replicas: u8, what: &Sent, out: &mut Text) -> Result<(), NoMemory>
    ensures { OnOk result (out.new ≡ out.old ++ sent_text replicas what.now) }
{
    match what {
        Sent::Update { cid, time } => put_with_time(b"update ", *cid, *time, out),
        Sent::Query { cid } => put_with_call(b"query ", *cid, out),
        Sent::Ack { cid, time } => put_with_time(b"ack ", *cid, *time, out),
        Sent::Done { cid, spot } => {
            put_with_call(b"done ", *cid, out)?;
            put_with_spot(b" as ", replicas, *spot, out)
        }
        Sent::Answer { cid, text } => {
            put_with_call(b"answer ", *cid, out)?;
            out.extend(b" ")?;
            out.extend(text.as_slice())
        }
        Sent::Gossip => out.extend(b"gossip"),
    }
}

fn put_refusal(replicas: u8, why: Refusal, out: &mut Text) -> Result<(), NoMemory>
    ensures { OnOk result (out.new ≡ out.old ++ refusal_text replicas why) }
{
    match why {
        Refusal::Late { time, clock } => {
            put_with_number(b"late ", time, out)?;
            put_with_number(b" ", clock, out)
        }
        Refusal::Again { spot } => put_with_spot(b"again ", replicas, spot, out),
        Refusal::Settled => out.extend(b"settled"),
        Refusal::Noted { spot } => put_with_spot(b"noted ", replicas, spot, out),
        Refusal::FullLog => out.extend(b"full log"),
        Refusal::FullHeld => out.extend(b"full held"),
        Refusal::Worn => out.extend(b"worn"),
        Refusal::Unfinished { cid } => put_with_call(b"open ", cid, out),
        Refusal::Idle => out.extend(b"idle"),
        Refusal::Nothing => out.extend(b"nothing"),
    }
}
