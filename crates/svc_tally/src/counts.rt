//! The tally's counters.
ghost use Rattle.std.specs.Prelude.{◌≡◌, OnOk, OnErr};
ghost use Rattle.lr_base.specs.Bytes.{Reads};
ghost use Rattle.svc_tally.specs.declared.op.TallyOp.TheVariants as operation;
ghost use Rattle.svc_tally.specs.Tally.{count_of, tally_apply, tally_format};

use crate::op::TallyOp;
use crate::texts::{op_of, own_op, put_op};
use lr_base::lr_service::{Kind, OpFault, Service};
use lr_base::{FieldFault, GetFault, NoMemory, Rows, Text, decoded, put_number};
use lr_words::{Table, Word};
use std::alloc::Global;
use std::marker::Model;

/// Counters by name. A counter is there once it was added to, also where it is 0.
#[derive(Drop)]
pub struct Tally {
    counts: Table<u64>,
    // What makes room for answers.
    alloc: Global,
}

impl Model for Tally {
    ghost use Rattle.svc_tally.specs.Tally.{Counts, counts_code};

    ghost Value = { Counts };

    ghost coded = { counts_code };

    ghost view = { λ tally. tally.counts };
}

impl Tally {
    // The counter of this name, or 0 where nothing was added to it.
    fn count(&self, name: &Word) -> u64
        ensures { result ≡ count_of self.now name.now }
    {
        self.counts.get(name).copied().unwrap_or(0)
    }

    // Adds to the counter of this name, modulo 2^64.
    fn add(&mut self, name: &Word, amount: u64) -> Result<(), NoMemory>
        ensures ok { OnOk result (self.new ≡ tally_apply self.old (operation.Add name.now amount)) }
        ensures err { OnErr result (self.new ≡ self.old) }
    {
        self.counts.add(name, amount)
    }

    // The counters that the bytes begin with, and the bytes behind them.
    fn field(alloc: Global, bytes: &[u8]) -> Result<(Tally, &[u8]), FieldFault>
        ensures { Reads (tally_format.field bytes.now) result }
    {
        let (counts, end) = Table::<u64>::field(alloc, bytes)?;
        Ok((Tally { counts, alloc }, end))
    }
}

impl Service for Tally {
    ghost use Rattle.svc_tally.specs.Tally.{tally, tally_encoding};
    ghost use Rattle.svc_tally.specs.TallyLaw.{tally_lawful};

    type Op = TallyOp;

    ghost meaning = { tally };

    ghost encoding = { tally_encoding };

    ghost NUMBER = { 1 };

    const NUMBER: u8 = 1;

    fn start(alloc: Global) -> Result<Tally, NoMemory> {
        Ok(Tally {
            counts: Table::new(alloc),
            alloc,
        })
    }

    fn kind(op: &TallyOp) -> Kind {
        match op {
            TallyOp::Add {
                name: _name,
                amount: _amount,
            } => Kind::Causal,
            TallyOp::Read { name: _name } => Kind::Query,
        }
    }

    fn apply(&mut self, op: &TallyOp) -> Result<(), NoMemory> {
        match op {
            TallyOp::Add { name, amount } => self.add(name, *amount),
            TallyOp::Read { name: _name } => Ok(()),
        }
    }

    fn read(&self, op: &TallyOp) -> Result<Text, NoMemory> {
        let mut answer = Rows::new(self.alloc);
        if let TallyOp::Read { name } = op {
            put_number(self.count(name), &mut answer)?;
        }
        Ok(answer)
    }

    fn read_op(_alloc: Global, text: &[u8]) -> Result<TallyOp, OpFault> {
        match op_of(text) {
            Some(op) => Ok(op),
            None => Err(OpFault::NotAnOp),
        }
    }

    fn own_op(op: &TallyOp) {
        own_op(op)
    }

    fn print_op(op: &TallyOp, out: &mut Text) -> Result<(), NoMemory> {
        put_op(op, out)
    }

    fn copy(&self) -> Result<Tally, NoMemory> {
        let counts = self.counts.copy()?;
        let alloc = self.alloc;
        Ok(Tally { counts, alloc })
    }

    fn put(&self, out: &mut Rows<u8>) -> Result<(), NoMemory> {
        self.counts.put(out)
    }

    fn get(alloc: Global, bytes: &[u8]) -> Result<Tally, GetFault> {
        decoded(bytes, Tally::field(alloc, bytes))
    }

    ghost lawful = { tally_lawful };
}
