//! A client's side of its calls.
ghost use Rattle.std.specs.Prelude.{◌≡◌, ◌≤◌, ◌+◌, ◌%◌, length, IfOk};
ghost use Rattle.lr_base.specs.Config.{IsValid};
ghost use Rattle.lr_base.specs.Fronts.{is_open, message_of, new_front, reply_taken};
ghost use Rattle.lr_base.specs.Limits.{last_number};
ghost use Rattle.lr_front.specs.Done.{HasAcknowledged, HasCalled, HasResent, HasTaken};
ghost use Rattle.lr_front.specs.Replies.{IsReplyTo, IsStampOf, taken_as};
ghost use Rattle.lr_front.specs.Undoing.{restored, saved};

use crate::savepoint::FrontSavepoint;
use lr_base::lr_service::{Kind, Operation};
use lr_base::{Call, Cid, Config, LAST_NUMBER, Message, NoMemory, Stamp};
use std::marker::Model;

/// Why a call wasn't made.
#[derive(Clone, Copy, PartialEq, Eq)]
pub enum CallFault {
    /// The front end has this call open.
    Unfinished(Cid),
    /// The client's count of calls has reached its greatest number.
    Worn,
    NoMemory,
}

/// Why no call was sent again.
#[derive(Clone, Copy, PartialEq, Eq)]
pub enum ResendFault {
    /// The front end has no call open.
    Idle,
    NoMemory,
}

/// Why nothing was acknowledged.
#[derive(Clone, Copy, PartialEq, Eq)]
pub enum AckFault {
    /// No update of the client was answered yet.
    Nothing,
}

/// What became of a reply.
#[derive(Clone, Copy, PartialEq, Eq)]
pub enum Taken {
    /// It was the reply to the open call.
    Got(Cid),
    /// It was the reply to another call.
    Stale(Cid),
}

/// A front end: the client's label, its clock, its open call, and the last of its updates that was answered.
#[derive(Drop)]
pub struct Front<O: Operation> {
    replicas: u8,
    client: u32,
    clock: u64,
    label: Stamp,
    calls: u64,
    open_call: Option<Call<O>>,
    // How the open call's operation is ordered.
    kind: Kind,
    answered: Option<Cid>,
}

impl<O: Operation> Model for Front<O> {
    ghost use Rattle.lr_base.specs.Fronts.{FrontState};
    ghost use Rattle.lr_front.specs.Kept.{IsKept};

    ghost Value = { FrontState O };

    ghost view = { λ it. record {
      replicas = it.replicas;
      client = it.client;
      clock = it.clock;
      label = it.label;
      calls = it.calls;
      open_call = it.open_call;
      answered = it.answered;
    } };

    ghost invariant = { λ it. IsKept O.kind_of it.replicas it.label it.calls it.open_call it.kind };
}

impl<O: Operation> Front<O> {
    /// A front end that has made no call. It takes no memory.
    pub fn new(config: Config, me: u32) -> Self
        requires { IsValid config }
        ensures { result ≡ new_front config me }
    {
        Front {
            replicas: config.replicas,
            client: me,
            clock: 0,
            label: Stamp::zero(config.replicas + 1),
            calls: 0,
            open_call: None,
            kind: Kind::Query,
            answered: None,
        }
    }

    /// The law that the label has a part for each replica and one for the order, and that the calls can be numbered.
    pub fn keeps(&self)
        ensures parts { length self.now.label ≡ self.now.replicas + 1 }
        ensures calls { self.now.calls ≤ last_number }
    {
        let _ = &self.label;
    }

    /// A front end equal to this one. It takes memory only for the open call.
    pub fn copy(&self) -> Result<Self, NoMemory>
        ensures { IfOk result (λ copied. copied ≡ self.now) }
    {
        let open_call = match &self.open_call {
            Some(call) => Some(call.copy()?),
            None => None,
        };
        Ok(Front {
            replicas: self.replicas,
            client: self.client,
            clock: self.clock,
            label: self.label.copy(),
            calls: self.calls,
            open_call,
            kind: self.kind,
            answered: self.answered,
        })
    }

    /// Makes a call at a clock reading, and gives the message for whatever replica it goes through. One copy of the
    /// operation stays, to be sent again. The reading counts also where the call is refused.
    pub fn call(&mut self, reading: u64, kind: Kind, op: &O) -> Result<Message<O>, CallFault>
        requires { kind ≡ O.kind_of op.now }
        ensures { HasCalled O.kind_of reading op.now self.old self.new result }
    {
        if let Some(call) = &self.open_call {
            let cid = call.cid;
            self.clock = self.clock.max(reading);
            return Err(CallFault::Unfinished(cid));
        }
        if self.calls == LAST_NUMBER {
            self.clock = self.clock.max(reading);
            return Err(CallFault::Worn);
        }
        let (Ok(kept), Ok(op)) = (op.copy(), op.copy()) else {
            return Err(CallFault::NoMemory);
        };
        self.clock = self.clock.max(reading);
        let cid = Cid {
            client: self.client,
            seq: self.calls + 1,
        };
        let prev = self.label.copy();
        self.calls += 1;
        self.open_call = Some(Call {
            cid,
            prev: self.label.copy(),
            op: kept,
        });
        self.kind = kind;
        Ok(call_message(kind, self.clock, Call { cid, prev, op }))
    }

    /// Sends the open call again, at a clock reading, which counts also where no call is open.
    pub fn resend(&mut self, reading: u64) -> Result<Message<O>, ResendFault>
        ensures { HasResent O.kind_of reading self.old self.new result }
    {
        let Some(call) = &self.open_call else {
            self.clock = self.clock.max(reading);
            return Err(ResendFault::Idle);
        };
        let Ok(call) = call.copy() else {
            return Err(ResendFault::NoMemory);
        };
        self.clock = self.clock.max(reading);
        Ok(call_message(self.kind, self.clock, call))
    }

    /// Acknowledges the last answered update, at a clock reading, which counts also where there is none. It takes no
    /// memory.
    pub fn ack(&mut self, reading: u64) -> Result<Message<O>, AckFault>
        ensures { HasAcknowledged O.kind_of reading self.old self.new result }
    {
        self.clock = self.clock.max(reading);
        let Some(cid) = self.answered else {
            return Err(AckFault::Nothing);
        };
        Ok(Message::Ack {
            cid,
            time: self.clock,
        })
    }

    /// Takes a reply. Only that to the open call changes anything. It takes no memory.
    pub fn take_reply(&mut self, reply: &Message<O>) -> Taken
        requires { IsReplyTo self.old reply.now }
        ensures { HasTaken O.kind_of reply.now self.old self.new result }
    {
        let mut point = self.save();
        self.take_off(reply, &mut point)
    }

    /// Takes a reply, as `take_reply`, and moves the call that it ends to a savepoint that was just made, so that it
    /// can be undone. It takes no memory.
    pub fn take_off(&mut self, reply: &Message<O>, point: &mut FrontSavepoint<O>) -> Taken
        requires reply { IsReplyTo self.old reply.now }
        requires point { point.old ≡ saved self.old }
        ensures taken { HasTaken O.kind_of reply.now self.old self.new result }
        ensures undo { restored point.new self.new ≡ self.old }
    {
        match reply {
            Message::Done {
                cid,
                spot: _spot,
                stamp,
            } => self.end_call(*cid, stamp, Some(*cid), point),
            Message::Answer {
                cid,
                text: _text,
                stamp,
            } => self.end_call(*cid, stamp, self.answered, point),
            // None of these is asked for.
            _ => Taken::Stale(Cid {
                client: self.client,
                seq: self.calls,
            }),
        }
    }

    // The reply to a call ends it where it is open, and the last answered update is then this one.
    fn end_call(
        &mut self,
        cid: Cid,
        stamp: &Stamp,
        answered: Option<Cid>,
        point: &mut FrontSavepoint<O>,
    ) -> Taken
        requires stamp { IsStampOf self.old stamp.now }
        requires point { point.old ≡ saved self.old }
        ensures state { self.new ≡ reply_taken cid stamp.now answered self.old }
        ensures taken { result ≡ taken_as cid (is_open self.old.open_call cid) }
        ensures undo { restored point.new self.new ≡ self.old }
    {
        if !self.expects(cid) {
            return Taken::Stale(cid);
        }
        self.label.join(stamp);
        point.ended = self.open_call.take();
        point.kind = self.kind;
        self.answered = answered;
        Taken::Got(cid)
    }

    // Whether this call is open.
    fn expects(&self, cid: Cid) -> bool
        ensures { result ≡ is_open self.now.open_call cid }
    {
        match &self.open_call {
            Some(call) => call.cid == cid,
            None => false,
        }
    }

    /// The replica that a turn goes through. It takes no memory.
    pub fn choice(&self, turn: u64) -> u8
        ensures { result ≡ (self.now.client + turn) % self.now.replicas }
    {
        let replicas = self.replicas as u64;
        ((self.client as u64 % replicas + turn % replicas) % replicas) as u8
    }

    /// What it takes to undo the next step. It takes no memory.
    pub fn save(&self) -> FrontSavepoint<O>
        ensures { result ≡ saved self.now }
    {
        FrontSavepoint {
            clock: self.clock,
            label: self.label.copy(),
            calls: self.calls,
            answered: self.answered,
            is_open: self.open_call.is_some(),
            ended: None,
            kind: self.kind,
        }
    }

    /// Undoes a step: a command of the client, or a reply that `take_off` took. It takes no memory.
    pub fn restore(&mut self, point: FrontSavepoint<O>)
        requires { IsStampOf self.old point.label }
        ensures { self.new ≡ restored point self.old }
    {
        let FrontSavepoint {
            clock,
            label,
            calls,
            answered,
            is_open,
            ended,
            kind,
        } = point;
        self.clock = clock;
        self.label = label;
        self.calls = calls;
        self.answered = answered;
        if let Some(call) = ended {
            self.open_call = Some(call);
            self.kind = kind;
        } else if !is_open {
            self.open_call = None;
        }
    }
}

// The message of a call.
fn call_message<O: Operation>(kind: Kind, time: u64, call: Call<O>) -> Message<O>
    ensures { result ≡ message_of kind time call }
{
    match kind {
        Kind::Query => Message::Query { call },
        _ => Message::Update { call, time },
    }
}

#[cfg(test)]
mod tests;
