//! What a front end does: with a command of its client, and with a message.
ghost use Rattle.std.specs.Prelude.{◌≡◌, ◌+◌, IfOk, OnOk, OnErr};
ghost use Rattle.lr_causal.specs.Causal.{AllStamps};
ghost use Rattle.lr_base.specs.Fronts.FrontEvent.{AckTo, CallTo, ResendTo, TakeMessage};
ghost use Rattle.lr_front.specs.Undoing.{saved, restored};
ghost use Rattle.lr_world.specs.Parts.{HasFrontDone, IsFrontTask, event_of};
ghost use Rattle.lr_world.specs.Shapes.{stamps_in};

use crate::front_task::FrontTask;
use crate::outbox::Outbox;
use lr_base::lr_service::{Operation, Service};
use lr_base::{Actor, Message, NoMemory, Outcome, Refusal};
use lr_front::{
    AckFault, CallFault, Front, FrontSavepoint, ResendFault, Taken, commands_can_be_undone,
};

/// Makes a step of a front end, or nothing at all, and answers what undoes it.
#[inline(always)]
pub fn make<S: Service>(
    front: &mut Front<S::Op>,
    task: FrontTask<'_, S::Op>,
    out: &mut Outbox<S::Op>,
) -> Result<FrontSavepoint<S::Op>, NoMemory>
    requires { IsFrontTask front.old.replicas task }
    ensures did { IfOk result (λ point.
        HasFrontDone S.Op.kind_of (event_of task.entry) front.old front.new out.old out.new) }
    ensures undo { IfOk result (λ point. restored point front.new ≡ front.old) }
    ensures err { OnErr result (front.new ≡ front.old) }
{
    front.keeps();
    let mut point = front.save();
    let Ok(()) = act::<S>(front, task, &mut point, out) else {
        front.restore(point);
        return Err(NoMemory);
    };
    Ok(point)
}

// What a task does.
#[inline(always)]
fn act<S: Service>(
    front: &mut Front<S::Op>,
    task: FrontTask<'_, S::Op>,
    point: &mut FrontSavepoint<S::Op>,
    out: &mut Outbox<S::Op>,
) -> Result<(), NoMemory>
    requires task { IsFrontTask front.old.replicas task }
    requires point { point.old ≡ saved front.old }
    ensures did { OnOk result (
        HasFrontDone S.Op.kind_of (event_of task.entry) front.old front.new out.old out.new) }
    ensures undo { restored point.new front.new ≡ front.old }
{
    match task {
        FrontTask::Call {
            replica,
            reading,
            op,
        } => on_call::<S>(front, replica, reading, op, out),
        FrontTask::Resend { replica, reading } => on_resend(front, replica, reading, out),
        FrontTask::Acknowledge { replica, reading } => on_ack(front, replica, reading, out),
        FrontTask::Take { message } => on_message(front, message, point, out),
    }
}

// A client calls through a replica.
fn on_call<S: Service>(
    front: &mut Front<S::Op>,
    replica: u8,
    reading: u64,
    op: &S::Op,
    out: &mut Outbox<S::Op>,
) -> Result<(), NoMemory>
    ensures did { let event = CallTo replica reading op.now in
        OnOk result (HasFrontDone S.Op.kind_of event front.old front.new out.old out.new) }
    ensures undo { restored (saved front.old) front.new ≡ front.old }
{
    commands_can_be_undone::<S::Op>();
    match front.call(reading, S::kind(op), op) {
        Ok(message) => out.send(Actor::Replica(replica), message),
        Err(CallFault::Unfinished(cid)) => out.say(Outcome::Refuse {
            why: Refusal::Unfinished { cid },
        }),
        Err(CallFault::Worn) => out.say(Outcome::Refuse { why: Refusal::Worn }),
        Err(CallFault::NoMemory) => Err(NoMemory),
    }
}

// A client sends its open call again, through a replica.
fn on_resend<O: Operation>(
    front: &mut Front<O>,
    replica: u8,
    reading: u64,
    out: &mut Outbox<O>,
) -> Result<(), NoMemory>
    ensures did { let event = ResendTo replica reading in
        OnOk result (HasFrontDone O.kind_of event front.old front.new out.old out.new) }
    ensures undo { restored (saved front.old) front.new ≡ front.old }
{
    commands_can_be_undone::<O>();
    match front.resend(reading) {
        Ok(message) => out.send(Actor::Replica(replica), message),
        Err(ResendFault::Idle) => out.say(Outcome::Refuse { why: Refusal::Idle }),
        Err(ResendFault::NoMemory) => Err(NoMemory),
    }
}

// A client acknowledges its last answered update to a replica.
fn on_ack<O: Operation>(
    front: &mut Front<O>,
    replica: u8,
    reading: u64,
    out: &mut Outbox<O>,
) -> Result<(), NoMemory>
    ensures did { let event = AckTo replica reading in
        OnOk result (HasFrontDone O.kind_of event front.old front.new out.old out.new) }
    ensures undo { restored (saved front.old) front.new ≡ front.old }
{
    commands_can_be_undone::<O>();
    match front.ack(reading) {
        Ok(message) => out.send(Actor::Replica(replica), message),
        Err(AckFault::Nothing) => out.say(Outcome::Refuse {
            why: Refusal::Nothing,
        }),
    }
}

// A message comes to a front end: what is no reply has no rule there.
fn on_message<O: Operation>(
    front: &mut Front<O>,
    message: &Message<O>,
    point: &mut FrontSavepoint<O>,
    out: &mut Outbox<O>,
) -> Result<(), NoMemory>
    requires stamps { AllStamps (front.old.replicas + 1) (stamps_in message.now) }
    requires point { point.old ≡ saved front.old }
    ensures did { let event = TakeMessage message.now in
        OnOk result (HasFrontDone O.kind_of event front.old front.new out.old out.new) }
    ensures undo { restored point.new front.new ≡ front.old }
{
    match message {
        Message::Done { .. } | Message::Answer { .. } => {
            let line = match front.take_off(message, point) {
                Taken::Got(cid) => Outcome::Got { cid },
                Taken::Stale(cid) => Outcome::Stale { cid },
            };
            out.say(line)
        }
        _ => Ok(()),
    }
}
