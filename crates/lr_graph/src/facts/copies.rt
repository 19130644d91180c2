//! Copies of calls, messages and front ends.
ghost use Rattle.std.specs.Prelude.{◌≡◌, IfOk};

use crate::facts::items::{CallCopy, FrontNow, Load, SentCopy};
use lr_base::NoMemory;
use lr_base::lr_service::Operation;

impl<O: Operation> CallCopy<O> {
    /// A call equal to this one.
    pub fn copy(&self) -> Result<Self, NoMemory>
        ensures { IfOk result (λ copied. copied ≡ self.now) }
    {
        let op = self.op.copy()?;
        let label = self.label.copy()?;
        Ok(CallCopy {
            cid: self.cid,
            op,
            label,
        })
    }
}

impl<O: Operation> Load<O> {
    /// A load equal to this one.
    pub fn copy(&self) -> Result<Self, NoMemory>
        ensures { IfOk result (λ copied. copied ≡ self.now) }
    {
        match self {
            Load::Update { call, time } => {
                let call = call.copy()?;
                Ok(Load::Update { call, time: *time })
            }
            Load::Query { call } => {
                let call = call.copy()?;
                Ok(Load::Query { call })
            }
            Load::Ack { cid, time } => Ok(Load::Ack {
                cid: *cid,
                time: *time,
            }),
            Load::Done { cid, names } => {
                let names = names.copy()?;
                Ok(Load::Done { cid: *cid, names })
            }
            Load::Answer { cid, names } => {
                let names = names.copy()?;
                Ok(Load::Answer { cid: *cid, names })
            }
            Load::Gossip { names } => {
                let names = names.copy()?;
                Ok(Load::Gossip { names })
            }
            Load::Nothing => Ok(Load::Nothing),
        }
    }
}

impl<O: Operation> SentCopy<O> {
    /// A message equal to this one.
    pub fn copy(&self) -> Result<Self, NoMemory>
        ensures { IfOk result (λ copied. copied ≡ self.now) }
    {
        let load = self.load.copy()?;
        Ok(SentCopy {
            number: self.number,
            from: self.from,
            to: self.to,
            load,
        })
    }
}

/// The open call, if there is one.
pub fn copy_open<O: Operation>(call: &Option<CallCopy<O>>) -> Result<Option<CallCopy<O>>, NoMemory>
    ensures { IfOk result (λ copied. copied ≡ call.now) }
{
    match call {
        Some(call) => {
            let call = call.copy()?;
            Ok(Some(call))
        }
        None => Ok(None),
    }
}

impl<O: Operation> FrontNow<O> {
    /// A front end equal to this one.
    pub fn copy(&self) -> Result<Self, NoMemory>
        ensures { IfOk result (λ copied. copied ≡ self.now) }
    {
        let label = self.label.copy()?;
        let open_call = copy_open(&self.open_call)?;
        Ok(FrontNow {
            label,
            calls: self.calls,
            clock: self.clock,
            open_call,
            answered: self.answered,
        })
    }
}
