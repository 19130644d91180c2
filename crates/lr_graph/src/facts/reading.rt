//! Reading a history: how its facts change by each event, and by each line that is printed of it.
ghost use Rattle.std.specs.Prelude.{◌≡◌, ◌==◌, Some, None, IfOk, OnOk, find};
ghost use Rattle.std.specs.Option.{option_copied, option_map};
ghost use Rattle.lr_graph.specs.After.{after, delivery_of, event_read, handling, line_read, lines_read};
ghost use Rattle.lr_graph.specs.After.{clock_read, with_front};
ghost use Rattle.lr_graph.specs.After.{accept_read, acting, got_read, note_read, receiver, take_read};
ghost use Rattle.lr_graph.specs.Central.{facts_after};
ghost use Rattle.lr_graph.specs.Graph.{Facts, first_facts};
ghost use Rattle.lr_graph.specs.Told.{bare, handling_of, load_of, sent_message_of, gathered_facts};

use crate::facts::fronts::{after_call, after_reading};
use crate::facts::items::{Gathered, Handled, Load, SentCopy};
use lr_base::lr_service::{Operation, Service};
use lr_base::{Actor, Config, Event, NoMemory, Outcome, Spot, Step};
use std::alloc::Global;

impl<O: Operation> Gathered<O> {
    // A call is made, if the event is one.
    fn read_event(&mut self, alloc: Global, event: &Event<O>) -> Result<(), NoMemory>
        ensures { OnOk result (gathered_facts self.new ≡ event_read (gathered_facts self.old) event.now) }
    {
        match event {
            Event::Call {
                client,
                replica: _replica,
                reading,
                op,
            } => {
                let front = self.front_at(alloc, *client)?;
                let front = after_call(*client, *reading, op, front)?;
                self.set_front(*client, front)
            }
            Event::Resend {
                client,
                replica: _replica,
                reading,
            } => self.read_clock(alloc, *client, *reading),
            Event::Ack {
                client,
                replica: _replica,
                reading,
            } => self.read_clock(alloc, *client, *reading),
            _ => Ok(()),
        }
    }

    // A front end reads its clock.
    fn read_clock(&mut self, alloc: Global, client: u32, reading: u64) -> Result<(), NoMemory>
        ensures { let w = gathered_facts self.old in
            OnOk result (gathered_facts self.new ≡ with_front w client (clock_read reading (w.front client))) }
    {
        let front = self.front_at(alloc, client)?;
        self.set_front(client, after_reading(front, reading))
    }

    // The message that an event delivers, if there is one.
    fn delivery_of(&self, event: &Event<O>) -> Result<Option<SentCopy<O>>, NoMemory>
        ensures { IfOk result (λ came.
            option_map sent_message_of came ≡ delivery_of (gathered_facts self.now) event.now) }
    {
        match event {
            Event::Deliver { message } => copy_numbered(self.messages.as_slice(), *message),
            _ => Ok(None),
        }
    }

    // Whose step an event is, and the message that it delivers.
    fn handling_of(&self, event: &Event<O>) -> Result<Handled<O>, NoMemory>
        ensures { IfOk result (λ x. handling_of x ≡ handling (gathered_facts self.now) event.now) }
    {
        let came = self.delivery_of(event)?;
        let actor = actor_of(event, &came);
        Ok(Handled { actor, came })
    }

    // `accept`: a replica that an update came to accepts its call.
    fn read_accept(&mut self, alloc: Global, spot: Spot, came: &SentCopy<O>) -> Result<(), NoMemory>
        ensures { OnOk result (gathered_facts self.new
            ≡ accept_read (gathered_facts self.old) spot came.now.to (load_of came.now.load)) }
    {
        let Actor::Replica(replica) = came.to else {
            return Ok(());
        };
        match &came.load {
            Load::Update { call, time: _time } => self.accept(alloc, replica, spot, call),
            _ => Ok(()),
        }
    }

    // `note`: a replica that an acknowledgement came to notes it.
    fn read_note(&mut self, alloc: Global, spot: Spot, came: &SentCopy<O>) -> Result<(), NoMemory>
        ensures { OnOk result (gathered_facts self.new
            ≡ bare (note_read (gathered_facts self.old) spot came.now.to (load_of came.now.load))) }
    {
        let Actor::Replica(replica) = came.to else {
            return Ok(());
        };
        match &came.load {
            Load::Ack {
                cid: _cid,
                time: _time,
            } => self.receive(alloc, replica, spot),
            _ => Ok(()),
        }
    }

    // `take`: a replica that gossip came to receives what it carries.
    fn read_take(&mut self, alloc: Global, came: &SentCopy<O>) -> Result<(), NoMemory>
        ensures { OnOk result (gathered_facts self.new
            ≡ bare (take_read (gathered_facts self.old) came.now.from came.now.to (load_of came.now.load))) }
    {
        let Actor::Replica(replica) = came.to else {
            return Ok(());
        };
        match &came.load {
            Load::Gossip { names } => self.take(alloc, replica, names),
            _ => Ok(()),
        }
    }

    // `got`: a front end that a reply came to takes it.
    fn read_got(&mut self, alloc: Global, came: &SentCopy<O>) -> Result<(), NoMemory>
        ensures { OnOk result (gathered_facts self.new
            ≡ got_read (gathered_facts self.old) came.now.to (load_of came.now.load)) }
    {
        let Actor::Client(client) = came.to else {
            return Ok(());
        };
        match &came.load {
            Load::Done { cid, names } => self.take_reply(alloc, client, names, Some(*cid)),
            Load::Answer { cid: _cid, names } => self.take_reply(alloc, client, names, None),
            _ => Ok(()),
        }
    }
}

// A line that says what became of a message that came.
fn read_of_message<S: Service>(
    facts: &mut Gathered<S::Op>,
    alloc: Global,
    config: Config,
    actor: Option<Actor>,
    came: &SentCopy<S::Op>,
    line: &Outcome,
) -> Result<(), NoMemory>
    ensures { OnOk result (gathered_facts facts.new
        ≡ bare (line_read S.meaning config (record { actor = actor; came = Some (sent_message_of came.now) })
        (gathered_facts facts.old) line.now)) }
{
    match line {
        Outcome::Send {
            number,
            from,
            to,
            what,
        } => facts.send(alloc, *number, *from, *to, what),
        Outcome::Accept { spot, cid: _cid } => facts.read_accept(alloc, *spot, came),
        Outcome::Take { count: _count } => facts.read_take(alloc, came),
        Outcome::Got { cid: _cid } => facts.read_got(alloc, came),
        Outcome::Note { spot, cid: _cid } => facts.read_note(alloc, *spot, came),
        _ => Ok(()),
    }
}

// A line where no message came.
fn read_alone<S: Service>(
    facts: &mut Gathered<S::Op>,
    alloc: Global,
    config: Config,
    actor: Option<Actor>,
    line: &Outcome,
) -> Result<(), NoMemory>
    ensures { OnOk result (gathered_facts facts.new
        ≡ bare (line_read S.meaning config (record { actor = actor; came = None })
        (gathered_facts facts.old) line.now)) }
{
    match line {
        Outcome::Send {
            number,
            from,
            to,
            what,
        } => facts.send(alloc, *number, *from, *to, what),
        _ => Ok(()),
    }
}

// A printed line.
fn read_line<S: Service>(
    facts: &mut Gathered<S::Op>,
    alloc: Global,
    config: Config,
    handled: &Handled<S::Op>,
    line: &Outcome,
) -> Result<(), NoMemory>
    ensures { OnOk result (gathered_facts facts.new
        ≡ bare (line_read S.meaning config (handling_of handled.now) (gathered_facts facts.old) line.now)) }
{
    match &handled.came {
        Some(message) => {
            read_of_message::<S>(facts, alloc, config, handled.actor, message, line)
        }
        None => read_alone::<S>(facts, alloc, config, handled.actor, line),
    }
}

// The first of these messages that has this number.
fn numbered<O>(messages: &[SentCopy<O>], number: u64) -> Option<&SentCopy<O>>
    ensures { option_copied result ≡ find (λ x. x.number == number) messages.now }
{
    messages.iter().find(|message| message.number == number)
}

// A copy of it, if there is one.
fn copy_numbered<O: Operation>(
    messages: &[SentCopy<O>],
    number: u64,
) -> Result<Option<SentCopy<O>>, NoMemory>
    ensures { IfOk result (λ came. came ≡ find (λ x. x.number == number) messages.now) }
{
    match numbered(messages, number) {
        Some(message) => {
            let message = message.copy()?;
            Ok(Some(message))
        }
        None => Ok(None),
    }
}

// The actor whose step an event is, with the message that it delivers.
fn actor_of<O>(event: &Event<O>, came: &Option<SentCopy<O>>) -> Option<Actor>
    ensures { (w : Facts O) → option_map sent_message_of came.now ≡ delivery_of w event.now
        → result ≡ acting w event.now }
{
    match event {
        Event::Call {
            client,
            replica: _replica,
            reading: _reading,
            op: _op,
        } => Some(Actor::Client(*client)),
        Event::Resend {
            client,
            replica: _replica,
            reading: _reading,
        } => Some(Actor::Client(*client)),
        Event::Ack {
            client,
            replica: _replica,
            reading: _reading,
        } => Some(Actor::Client(*client)),
        Event::Deliver { message: _message } => receiver_of(came),
        Event::Tick {
            replica,
            reading: _reading,
        } => Some(Actor::Replica(*replica)),
        Event::Gossip { from, to: _to } => Some(Actor::Replica(*from)),
        Event::Show { replica: _replica } => None,
    }
}

// Whom a message comes to, if one came.
fn receiver_of<O>(came: &Option<SentCopy<O>>) -> Option<Actor>
    ensures { result ≡ receiver (option_map sent_message_of came.now) }
{
    match came {
        Some(message) => Some(message.to),
        None => None,
    }
}

// The lines of one event, in order.
fn read_lines<S: Service>(
    facts: &mut Gathered<S::Op>,
    alloc: Global,
    config: Config,
    handled: &Handled<S::Op>,
    lines: &[Outcome],
) -> Result<(), NoMemory>
    ensures { OnOk result (gathered_facts facts.new
        ≡ bare (lines_read S.meaning config (handling_of handled.now) (gathered_facts facts.old) lines.now)) }
{
    for line in lines {
        read_line::<S>(facts, alloc, config, handled, line)?;
    }
    Ok(())
}

// One step: its event, and then its lines.
fn read_step<S: Service>(
    facts: &mut Gathered<S::Op>,
    alloc: Global,
    config: Config,
    step: &Step<S::Op>,
) -> Result<(), NoMemory>
    ensures { OnOk result (gathered_facts facts.new
        ≡ bare (after S.meaning config (gathered_facts facts.old) step.now)) }
{
    let handled = facts.handling_of(&step.event)?;
    facts.read_event(alloc, &step.event)?;
    read_lines::<S>(facts, alloc, config, &handled, step.outcomes.as_slice())
}

/// The facts after a history.
pub fn facts_of<S: Service>(
    alloc: Global,
    config: Config,
    history: &[Step<S::Op>],
) -> Result<Gathered<S::Op>, NoMemory>
    ensures { IfOk result (λ facts.
        gathered_facts facts ≡ bare (facts_after S.meaning config first_facts history.now)) }
{
    let mut facts = Gathered::new(alloc);
    for step in history {
        read_step::<S>(&mut facts, alloc, config, step)?;
    }
    Ok(facts)
}
