//! Why a command has no answer.
use lr_base::NoMemory;
use lr_base::lr_service::OpFault;
use std::alloc::{AllocError, AllocFailed};

/// What stands in place of a command's answer.
#[derive(Clone, Copy)]
pub enum Fault {
    /// The line is no command.
    Unread,
    /// No replica has this number.
    NoReplica,
    /// A run has no such number of replicas.
    BadCount,
    /// The stamp has not one part for each replica and one for the order.
    BadStamp,
    /// The operation is none of a tally, or not of the kind that the command takes.
    BadOperation,
    /// The replica accepted as many updates as it may.
    Worn,
    /// An acknowledgement is new where the gossip's own stamp says what was received.
    Unreceived,
    /// An acknowledgement's number isn't past the one before it.
    OutOfOrder,
    /// The replicas are of two runs.
    TwoRuns,
    NoMemory,
}

impl Fault {
    /// What is printed of it.
    pub fn text(self) -> &'static str {
        match self {
            Fault::Unread => "not a command",
            Fault::NoReplica => "no such replica",
            Fault::BadCount => "no such run",
            Fault::BadStamp => "not a stamp of this run",
            Fault::BadOperation => "not such an operation",
            Fault::Worn => "no number is left",
            Fault::Unreceived => "an acknowledgement is past the stamp",
            Fault::OutOfOrder => "acknowledgements out of order",
            Fault::TwoRuns => "replicas of two runs",
            Fault::NoMemory => "no memory",
        }
    }
}

impl From<NoMemory> for Fault {
    fn from(_fault: NoMemory) -> Fault {
        Fault::NoMemory
    }
}

impl From<AllocError> for Fault {
    fn from(_fault: AllocError) -> Fault {
        Fault::NoMemory
    }
}

impl<T: Drop> From<AllocFailed<T>> for Fault {
    fn from(_failed: AllocFailed<T>) -> Fault {
        Fault::NoMemory
    }
}

impl From<OpFault> for Fault {
    fn from(fault: OpFault) -> Fault {
        match fault {
            OpFault::NotAnOp => Fault::BadOperation,
            OpFault::NoMemory => Fault::NoMemory,
        }
    }
}
