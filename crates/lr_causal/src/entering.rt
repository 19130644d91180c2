//! Calls that are being entered in a table of executed calls.
ghost use Rattle.std.specs.Prelude.{◌≡◌, ◌≤◌, drop, length, take};
ghost use Rattle.lr_calls.specs.Tables.{without};

use lr_base::{Cid, Executed, Known, NoMemory};
use lr_calls::CallTable;

/// A table of executed calls that are being entered, so that they can be taken out again.
#[derive(Drop)]
pub(crate) struct Entering {
    pub(crate) table: CallTable,
    /// The calls that were entered: those of before, and behind them the new ones.
    pub(crate) entered: Vec<Cid>,
    pub(crate) before: usize,
    ghost within: { before ≤ length entered.items },
}

impl Entering {
    pub(crate) fn new(table: CallTable, entered: Vec<Cid>) -> Self
        ensures table { result.table ≡ table }
        ensures entered { result.entered.items ≡ entered.items }
        ensures before { result.before ≡ length entered.items }
    {
        let before = entered.len();
        Entering {
            table,
            entered,
            before,
        }
    }

    /// Takes out what is new. It takes no memory.
    pub(crate) fn undo(&mut self)
        ensures table { self.new.table ≡ without (drop self.old.before self.old.entered.items) self.old.table }
        ensures entered { self.new.entered.items ≡ take self.old.before self.old.entered.items }
    {
        self.table.leave(&self.entered[self.before..]);
        self.entered.truncate(self.before);
    }

    /// Gives the table and the calls that were entered.
    pub(crate) fn end(self, table: &mut CallTable, entered: &mut Vec<Cid>)
        ensures table { table.new ≡ self.table }
        ensures entered { entered.new.items ≡ self.entered.items }
    {
        *table = self.table;
        *entered = self.entered;
    }
}

impl Executed for Entering {
    ghost use Rattle.std.specs.Prelude.{List};
    ghost use Rattle.lr_base.specs.declared.names.Cid.{Cid};
    ghost use Rattle.lr_base.specs.declared.messages.Known.{Known};

    ghost known = { λ it. it.table };

    ghost Kept = { List Cid × List (Cid × Known) };

    ghost kept = { λ it. (take it.before it.entered.items, without (drop it.before it.entered.items) it.table) };

    fn has(&self, cid: Cid) -> bool {
        self.table.has(cid)
    }

    fn enter(&mut self, cid: Cid, entry: Known) -> Result<(), NoMemory> {
        self.entered.push(cid)?;
        self.table.enter(cid, entry)?;
        Ok(())
    }
}
