//! What a replica does with messages, worked out by hand.
ghost use Rattle.std.specs.Prelude.{◌≡◌, true};
ghost use Rattle.lr_world.specs.Shapes.{IsShaped, is_actor};

use crate::outbox::Outbox;
use crate::replica::Replica;
use crate::task::Task;
use lr_base::lr_service::{Kind, Operation, Service};
use lr_base::{Actor, Call, Cid, Config, LAST_NUMBER, Message, NoMemory, Outcome, Stamp};
use std::alloc::Global;
use std::process::Abort;
use std::test::Fail;
use svc_tally::{Tally, TallyOp};

const THREE_REPLICAS: Config = Config {
    replicas: 3,
    clients: 1,
    delta: 10,
};

// A stamp for three replicas.
fn stamp(rt: &impl Abort, parts: &[u64; 4]) -> Stamp {
    let [first, second, third, order] = *parts;
    assert!(rt; first.max(second).max(third).max(order) <= LAST_NUMBER);
    let mut stamp = Stamp::zero(4);
    stamp.set_part(0, first);
    stamp.set_part(1, second);
    stamp.set_part(2, third);
    stamp.set_part(3, order);
    stamp
}

// The text of a stamp for three replicas.
fn stamp_text(alloc: Global, stamp: &Stamp) -> Result<String, Fail> {
    let mut text = String::new(alloc);
    for place in 0..stamp.parts() {
        let part = stamp.part(place);
        text.push_str(format!(in alloc; ".{part}")?.as_str())?;
    }
    Ok(text)
}

// The client's message is taken, to the end of the step.
fn whole_step(
    alloc: Global,
    replica: &mut Replica<Tally>,
    message: &Message<TallyOp>,
) -> Result<Outbox<TallyOp>, NoMemory>
    requires shaped { IsShaped ⟦<TallyOp as Operation>⟧.kind_of replica.old.config message.now }
    requires client { is_actor replica.old.config (Actor.Client 0) ≡ true }
    ensures { replica.new.config ≡ replica.old.config }
{
    let mut out = Outbox::new(alloc);
    out.open(Actor::Replica(0), 0);
    let from = Actor::Client(0);
    let point = replica.begin(Task::Take { from, message }, &mut out)?;
    replica.finish(point);
    Ok(out)
}

// One of the three replicas takes the call of this number.
fn call(
    rt: &impl Abort,
    alloc: Global,
    replica: &mut Replica<Tally>,
    seq: u64,
    label: &[u64; 4],
    op: &str,
) -> Result<Outbox<TallyOp>, Fail>
    requires { replica.old.config ≡ THREE_REPLICAS }
    ensures { replica.new.config ≡ THREE_REPLICAS }
{
    let op = Tally::read_op(alloc, op.as_bytes())?;
    let prev = stamp(rt, label);
    assert!(rt; prev.parts() == 4);
    let kind = Tally::kind(&op);
    let cid = Cid { client: 0, seq };
    let call = Call { cid, prev, op };
    match kind {
        Kind::Query => Ok(whole_step(alloc, replica, &Message::Query { call })?),
        Kind::Causal | Kind::Forced | Kind::Immediate => {
            Ok(whole_step(alloc, replica, &Message::Update { call, time: 0 })?)
        }
    }
}

// One line for each act.
fn text_of(alloc: Global, mut out: Outbox<TallyOp>) -> Result<String, Fail> {
    let mut text = String::new(alloc);
    let mut posted = Vec::new(alloc);
    out.post(&mut posted)?;
    let mut posted = posted.into_iter();
    for outcome in out.lines() {
        let line = match outcome {
            Outcome::Send { .. } => {
                let post = posted.next().ok_or("no message")?;
                sent_text(alloc, post.to, post.message)?
            }
            _ => said_text(alloc, outcome)?,
        };
        text.push_str(line.as_str())?;
    }
    Ok(text)
}

fn said_text(alloc: Global, outcome: &Outcome) -> Result<String, Fail> {
    match outcome {
        Outcome::Accept { spot, cid } => Ok(format!(in alloc;
            "accept {}:{} {}.{}\n",
            spot.place, spot.number, cid.client, cid.seq
        )?),
        Outcome::Hold { cid } => Ok(format!(in alloc; "hold {}.{}\n", cid.client, cid.seq)?),
        _ => Err("another line")?,
    }
}

fn sent_text(alloc: Global, to: Actor, message: Message<TallyOp>) -> Result<String, Fail> {
    let Actor::Client(client) = to else {
        return Err("not to a client")?;
    };
    match message {
        Message::Done { cid, spot, stamp } => {
            let stamp = stamp_text(alloc, &stamp)?;
            Ok(format!(in alloc;
                "to c{client} done {}.{} as {}:{} {stamp}\n",
                cid.client, cid.seq, spot.place, spot.number
            )?)
        }
        Message::Answer { cid, text, stamp } => {
            let stamp = stamp_text(alloc, &stamp)?;
            let text = text.as_slice();
            Ok(format!(in alloc;
                "to c{client} answer {}.{} {text:?} {stamp}\n",
                cid.client, cid.seq
            )?)
        }
        _ => Err("another message")?,
    }
}

#[test]
fn held_queries_are_answered_behind_an_update(rt: HostRuntime) -> Result<(), Fail> {
    let mut replica = Replica::new(rt.alloc(), THREE_REPLICAS, 0)?;
    // (number, label, operation, what the replica does); an answer stands there as bytes: 48 is that of `0`
    let calls = [
        (1, [1, 0, 0, 0], "read x", "hold 0.1\n"),
        (2, [2, 0, 0, 0], "read x", "hold 0.2\n"),
        (
            3,
            [0, 0, 0, 0],
            "read x",
            "to c0 answer 0.3 [48] .0.0.0.0\n",
        ),
        (4, [1, 0, 0, 0], "read y", "hold 0.4\n"),
        (5, [1, 0, 0, 1], "read x", "hold 0.5\n"),
        (
            6,
            [0, 0, 0, 0],
            "add x 3",
            "accept 0:1 0.6\nto c0 done 0.6 as 0:1 .1.0.0.0\n\
             to c0 answer 0.1 [51] .1.0.0.0\nto c0 answer 0.4 [48] .1.0.0.0\n",
        ),
        (
            7,
            [1, 0, 0, 0],
            "add x 4",
            "accept 0:2 0.7\nto c0 done 0.7 as 0:2 .2.0.0.0\nto c0 answer 0.2 [55] .2.0.0.0\n",
        ),
        (
            8,
            [0, 0, 0, 0],
            "add x 1",
            "accept 0:3 0.8\nto c0 done 0.8 as 0:3 .3.0.0.0\n",
        ),
    ];
    for (seq, label, op, want) in calls {
        let out = call(&rt, rt.alloc(), &mut replica, seq, &label, op)?;
        let did = text_of(rt.alloc(), out)?;
        assert_eq!(rt; did.as_str(), want, "call {seq}");
    }
    Ok(())
}
