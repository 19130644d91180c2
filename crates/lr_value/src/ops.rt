//! Operations that were executed on a value, in their order.
ghost use Rattle.std.specs.Prelude.{◌≡◌, [], ◌∷◌, ◌++◌, fold, IfOk, OnOk, OnErr};
ghost use Rattle.lr_base.specs.Kinds.{IsUpdate};
ghost use Rattle.lr_value.specs.Executing.{AllUpdates};

use lr_base::NoMemory;
use lr_base::lr_service::{Operation, Service};
use std::alloc::Global;
use std::marker::Model;

/// Updates of a value, in the order in which they are executed.
#[derive(Drop)]
pub(crate) struct Ops<O: Operation> {
    items: Vec<O>,
}

impl<O: Operation> Model for Ops<O> {
    ghost use Rattle.std.specs.Prelude.{List};
    ghost use Rattle.std.specs.Coded.{coded_list};
    ghost use Rattle.lr_value.specs.Executing.{AllUpdates};

    ghost Value = { List O };

    ghost coded = { coded_list O.code };

    ghost view = { λ ops. ops.items.items };

    ghost invariant = { λ ops. AllUpdates O.kind_of ops.items.items };
}

impl<O: Operation> Ops<O> {
    pub(crate) fn new(alloc: Global) -> Self
        ensures { result ≡ [] }
    {
        Ops {
            items: Vec::new(alloc),
        }
    }

    pub(crate) fn as_slice(&self) -> &[O]
        ensures all { result.now ≡ self.now }
        ensures updates { AllUpdates O.kind_of result.now }
    {
        self.items.as_slice()
    }

    /// Notes an operation equal to this one behind the others.
    pub(crate) fn note(&mut self, op: &O) -> Result<(), NoMemory>
        requires { IsUpdate (O.kind_of op.now) }
        ensures ok { OnOk result (self.new ≡ self.old ++ op.now ∷ []) }
        ensures err { OnErr result (self.new ≡ self.old) }
    {
        let copied = op.copy()?;
        self.items.push(copied)?;
        Ok(())
    }

    /// Drops all of them, and keeps their room.
    pub(crate) fn clear(&mut self)
        ensures { self.new ≡ [] }
    {
        self.items.clear();
    }
}

/// The value with these operations executed on it.
pub(crate) fn caught_up<S: Service>(mut value: S, ops: &[S::Op]) -> Result<S, NoMemory>
    requires { AllUpdates S.Op.kind_of ops.now }
    ensures { IfOk result (λ next. next ≡ fold S.meaning.apply value ops.now) }
{
    for op in ops {
        value.apply(op)?;
    }
    Ok(value)
}
