//! Events and outcomes equal to others.
ghost use Rattle.std.specs.Prelude.{◌≡◌, IfOk};

use lr_base::lr_service::Operation;
use lr_base::{Event, NoMemory, Outcome, Rows, Sent, StateLine};
use std::alloc::Global;

/// An event equal to this one.
pub fn copy_event<O: Operation>(event: &Event<O>) -> Result<Event<O>, NoMemory>
    ensures { IfOk result (λ copied. copied ≡ event.now) }
{
    Ok(match event {
        Event::Call {
            client,
            replica,
            reading,
            op,
        } => Event::Call {
            client: *client,
            replica: *replica,
            reading: *reading,
            op: op.copy()?,
        },
        Event::Resend {
            client,
            replica,
            reading,
        } => Event::Resend {
            client: *client,
            replica: *replica,
            reading: *reading,
        },
        Event::Ack {
            client,
            replica,
            reading,
        } => Event::Ack {
            client: *client,
            replica: *replica,
            reading: *reading,
        },
        Event::Deliver { message } => Event::Deliver { message: *message },
        Event::Tick { replica, reading } => Event::Tick {
            replica: *replica,
            reading: *reading,
        },
        Event::Gossip { from, to } => Event::Gossip {
            from: *from,
            to: *to,
        },
        Event::Show { replica } => Event::Show { replica: *replica },
    })
}

/// Outcomes equal to these, in their order.
pub fn copy_outcomes(alloc: Global, outcomes: &[Outcome]) -> Result<Rows<Outcome>, NoMemory>
    ensures { IfOk result (λ copied. copied ≡ outcomes.now) }
{
    let mut copied = Rows::new(alloc);
    for outcome in outcomes {
        copied.push(copy_outcome(outcome)?)?;
    }
    Ok(copied)
}

fn copy_outcome(outcome: &Outcome) -> Result<Outcome, NoMemory>
    ensures { IfOk result (λ copied. copied ≡ outcome.now) }
{
    Ok(match outcome {
        Outcome::Send {
            number,
            from,
            to,
            what,
        } => Outcome::Send {
            number: *number,
            from: *from,
            to: *to,
            what: copy_sent(what)?,
        },
        Outcome::Accept { spot, cid } => Outcome::Accept {
            spot: *spot,
            cid: *cid,
        },
        Outcome::Note { spot, cid } => Outcome::Note {
            spot: *spot,
            cid: *cid,
        },
        Outcome::Hold { cid } => Outcome::Hold { cid: *cid },
        Outcome::Take { count } => Outcome::Take { count: *count },
        Outcome::Got { cid } => Outcome::Got { cid: *cid },
        Outcome::Stale { cid } => Outcome::Stale { cid: *cid },
        Outcome::ClockAt { reading } => Outcome::ClockAt { reading: *reading },
        Outcome::NoMessage { message } => Outcome::NoMessage { message: *message },
        Outcome::Refuse { why } => Outcome::Refuse { why: *why },
        Outcome::State { line } => Outcome::State {
            line: copy_line(line)?,
        },
    })
}

fn copy_sent(sent: &Sent) -> Result<Sent, NoMemory>
    ensures { IfOk result (λ copied. copied ≡ sent.now) }
{
    Ok(match sent {
        Sent::Update { cid, time } => Sent::Update {
            cid: *cid,
            time: *time,
        },
        Sent::Query { cid } => Sent::Query { cid: *cid },
        Sent::Ack { cid, time } => Sent::Ack {
            cid: *cid,
            time: *time,
        },
        Sent::Done { cid, spot } => Sent::Done {
            cid: *cid,
            spot: *spot,
        },
        Sent::Answer { cid, text } => Sent::Answer {
            cid: *cid,
            text: text.copy()?,
        },
        Sent::Gossip => Sent::Gossip,
    })
}

fn copy_line(line: &StateLine) -> Result<StateLine, NoMemory>
    ensures { IfOk result (λ copied. copied ≡ line.now) }
{
    Ok(StateLine {
        replica: line.replica,
        view: line.view,
        clock: line.clock,
        received: line.received.copy(),
        log: line.log.copy()?,
        acks: line.acks.copy()?,
        calls: line.calls.copy()?,
        held: line.held.copy()?,
        marks: line.marks.copy()?,
    })
}
