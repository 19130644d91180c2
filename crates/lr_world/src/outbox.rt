//! The lines and the messages of one step.
ghost use Rattle.std.specs.Prelude.{◌≡◌, ◌<◌, ◌^◌, ◌++◌, [], ◌∷◌, IfOk, OnOk, OnErr};
ghost use Rattle.lr_graph.specs.Runs.{sent_of_message};
ghost use Rattle.lr_world.specs.Outboxes.{Outboxed, after_acts, opened};

use lr_base::lr_service::Operation;
use lr_base::{
    Act, Actor, Cid, Message, NoMemory, Outcome, Posted, Refusal, Rows, Sent, Spot, Stamp,
};
use std::alloc::Global;
use std::marker::Model;

/// What an actor says and sends in a step. A run keeps one, and its room, and empties it for each step.
#[derive(Drop)]
pub struct Outbox<O: Drop> {
    from: Actor,
    // How many messages were sent before the step.
    sent: usize,
    lines: Rows<Outcome>,
    posts: Vec<Posted<O>>,
}

impl<O: Drop> Model for Outbox<O> {
    ghost use Rattle.std.specs.Prelude.{◌<◌, ◌^◌};
    ghost use Rattle.lr_world.specs.Outboxes.{Outboxed};

    ghost Value = { Outboxed O };

    ghost view = { λ it. record { from = it.from; sent = it.sent; lines = it.lines; posts = it.posts.items } };

    ghost invariant = { λ it. it.sent < 2 ^ 63 };
}

impl<O: Operation> Outbox<O> {
    /// An outbox of no step yet.
    pub fn new(alloc: Global) -> Self
        ensures { result ≡ opened (Actor.Client 0) 0 }
    {
        Outbox {
            from: Actor::Client(0),
            sent: 0,
            lines: Rows::new(alloc),
            posts: Vec::new(alloc),
        }
    }

    /// What makes room for more.
    pub fn allocator(&self) -> Global {
        self.lines.allocator()
    }

    /// Begins a step of this actor, where so many messages were sent before.
    pub fn open(&mut self, from: Actor, sent: usize)
        requires { sent < 2 ^ 63 }
        ensures { self.new ≡ opened from sent }
    {
        self.from = from;
        self.sent = sent;
        self.lines.clear();
        self.posts.clear();
    }

    /// What is printed of the step.
    pub fn lines(&self) -> &[Outcome]
        ensures { result.now ≡ self.now.lines }
    {
        self.lines.as_slice()
    }

    /// Says a line behind the others.
    pub fn say(&mut self, line: Outcome) -> Result<(), NoMemory>
        ensures { OnOk result (self.new ≡ after_acts self.old (Act.Say line ∷ [])) }
    {
        self.lines.push(line)
    }

    /// Sends a message behind the others: it gets the next number. What is kept of an answer is as long as the answer.
    pub fn send(&mut self, to: Actor, message: Message<O>) -> Result<(), NoMemory>
        ensures { OnOk result (self.new ≡ after_acts self.old (Act.Send to message ∷ [])) }
    {
        let number = self.sent as u64 + self.posts.len() as u64 + 1;
        let from = self.from;
        let (what, message) = told(message)?;
        self.posts.push(Posted { from, to, message })?;
        self.lines.push(Outcome::Send {
            number,
            from,
            to,
            what,
        })
    }

    /// Moves the messages behind those that were sent before.
    pub fn post(&mut self, posted: &mut Vec<Posted<O>>) -> Result<(), NoMemory>
        ensures ok { OnOk result (posted.new.items ≡ posted.old.items ++ self.old.posts) }
        ensures err { OnErr result (posted.new.items ≡ posted.old.items) }
        ensures lines { self.new.lines ≡ self.old.lines }
    {
        posted.append(&mut self.posts)?;
        Ok(())
    }
}

/// Nothing is done, and this is why.
pub fn refuse<O: Operation>(why: Refusal, out: &mut Outbox<O>) -> Result<(), NoMemory>
    ensures { OnOk result (out.new ≡ after_acts out.old (Act.Say (Outcome.Refuse why) ∷ [])) }
{
    out.say(Outcome::Refuse { why })
}

/// A line, and then the reply to an update.
pub fn reply<O: Operation>(
    line: Outcome,
    cid: Cid,
    spot: Spot,
    stamp: Stamp,
    out: &mut Outbox<O>,
) -> Result<(), NoMemory>
    ensures { let done = Message.Done cid spot stamp in
        OnOk result (out.new ≡ after_acts out.old (Act.Say line ∷ Act.Send (Actor.Client cid.client) done ∷ [])) }
{
    out.say(line)?;
    out.send(
        Actor::Client(cid.client),
        Message::Done { cid, spot, stamp },
    )
}

// What is printed of a message, and the message, with a text that takes no more room than it needs.
fn told<O: Drop>(message: Message<O>) -> Result<(Sent, Message<O>), NoMemory>
    ensures sent { IfOk result (λ both. both.0 ≡ sent_of_message message) }
    ensures same { IfOk result (λ both. both.1 ≡ message) }
{
    Ok(match message {
        Message::Update { call, time } => {
            let cid = call.cid;
            (Sent::Update { cid, time }, Message::Update { call, time })
        }
        Message::Query { call } => {
            let cid = call.cid;
            (Sent::Query { cid }, Message::Query { call })
        }
        Message::Ack { cid, time } => (Sent::Ack { cid, time }, Message::Ack { cid, time }),
        Message::Done { cid, spot, stamp } => {
            (Sent::Done { cid, spot }, Message::Done { cid, spot, stamp })
        }
        Message::Answer { cid, text, stamp } => {
            let kept = text.copy()?;
            let message = Message::Answer {
                cid,
                text: kept,
                stamp,
            };
            (Sent::Answer { cid, text }, message)
        }
        Message::Gossip { gossip } => (Sent::Gossip, Message::Gossip { gossip }),
    })
}
