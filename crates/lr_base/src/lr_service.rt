//! What a service is: a value, operations on it, and the law that lets replicas apply them in different orders.
ghost use Rattle.std.specs.Prelude.{ℕ, ◌≡◌, ◌++◌, true, Some, None, IfOk, OnOk, OnErr, IsErrOf};
ghost use Rattle.lr_base.specs.Bytes.{Decodes};
ghost use Rattle.lr_base.specs.Kinds.{IsQuery, IsUpdate};
ghost use Rattle.lr_base.specs.Meaning.{Encoding, Meaning, Lawful, is_printable};

use crate::bytes::GetFault;
pub use crate::orders::agreeing_orders_give_one_value;
use crate::rows::{NoMemory, Rows, Text};
use std::alloc::Global;

/// How an operation is ordered against the others.
#[derive(Clone, Copy, PartialEq, Eq)]
pub enum Kind {
    /// It reads the value and changes nothing.
    Query,
    /// An update that is ordered by its label alone.
    Causal,
    /// An update that has one order among all forced ones.
    Forced,
    /// An update that has one order against all updates.
    Immediate,
}

/// Why a text was not read as an operation.
#[derive(Clone, Copy, Debug, PartialEq, Eq)]
pub enum OpFault {
    /// The text is no operation of this service.
    NotAnOp,
    NoMemory,
}

/// An operation of some service.
pub trait Operation: Sized + Drop {
    /// The kind that the service gives it.
    ghost use Rattle.lr_base.specs.declared.lr_service.Kind.{Kind};

    ghost kind_of: { Self → Kind };

    /// An operation equal to this one.
    fn copy(&self) -> Result<Self, NoMemory>
        ensures { IfOk result (λ copied. copied ≡ self.now) };
}

/// A value with its operations. Two updates commute unless one is immediate or both are forced.
pub trait Service: Sized + Drop {
    type Op: Operation;

    /// What the operations mean, and how they are written.
    ghost meaning: { Meaning Self Self.Op };

    /// How values stand in bytes.
    ghost encoding: { Encoding Self };

    ghost NUMBER: { ℕ };

    /// The service's number in stable bytes.
    const NUMBER: u8;

    /// The value before any update.
    fn start(alloc: Global) -> Result<Self, NoMemory>
        ensures { IfOk result (λ value. value ≡ meaning.start) };

    /// How the operation is ordered.
    fn kind(op: &Self::Op) -> Kind
        ensures meaning { result ≡ meaning.kind op.now }
        ensures same { result ≡ Self.Op.kind_of op.now };

    /// Changes the value as an update says.
    fn apply(&mut self, op: &Self::Op) -> Result<(), NoMemory>
        requires { IsUpdate (Self.Op.kind_of op.now) }
        ensures ok { OnOk result (self.new ≡ meaning.apply self.old op.now) }
        ensures err { OnErr result (self.new ≡ self.old) };

    /// What a query answers: printable bytes.
    fn read(&self, op: &Self::Op) -> Result<Text, NoMemory>
        requires { IsQuery (Self.Op.kind_of op.now) }
        ensures answer { IfOk result (λ answer. answer ≡ meaning.read self.now op.now) }
        ensures printable { IfOk result (λ answer. is_printable answer ≡ true) };

    /// The operation that is written so.
    fn read_op(alloc: Global, text: &[u8]) -> Result<Self::Op, OpFault>
        ensures found { IfOk result (λ op. meaning.op_of text.now ≡ Some op) }
        ensures refused { IsErrOf result OpFault.NotAnOp → meaning.op_of text.now ≡ None };

    /// Each operation that a program holds is the service's own. This function does nothing.
    fn own_op(op: &Self::Op)
        ensures { meaning.is_op op.now ≡ true };

    /// Adds the operation's one text behind `out`.
    fn print_op(op: &Self::Op, out: &mut Text) -> Result<(), NoMemory>
        ensures { OnOk result (out.new ≡ out.old ++ meaning.text op.now) };

    /// A value equal to this one.
    fn copy(&self) -> Result<Self, NoMemory>
        ensures { IfOk result (λ copied. copied ≡ self.now) };

    /// Adds the value's one spelling behind `out`. Where there is no memory, part of it may stand there.
    fn put(&self, out: &mut Rows<u8>) -> Result<(), NoMemory>
        ensures ok { OnOk result (out.new ≡ out.old ++ encoding.spelling self.now) }
        ensures real { OnOk result (encoding.is_value self.now ≡ true) };

    /// The value that is spelled so. Other bytes are refused at the first wrong field.
    fn get(alloc: Global, bytes: &[u8]) -> Result<Self, GetFault>
        ensures { Decodes (encoding.decoded bytes.now) result };

    ghost lawful: { Lawful meaning encoding Self.Op.kind_of };
}
