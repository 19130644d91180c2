//! Names with their owners and notes.
ghost use Rattle.std.specs.Prelude.{◌≡◌, ◌++◌, true, OnOk, OnErr, unwrap_or, codes};
ghost use Rattle.std.specs.FinMap as map;
ghost use Rattle.lr_base.specs.Bytes.{Reads};
ghost use Rattle.lr_base.specs.Meaning.{is_printable};
ghost use Rattle.svc_claims.specs.declared.op.ClaimsOp.TheVariants as operation;
ghost use Rattle.svc_claims.specs.Claims.{claims_apply, claims_format, claims_read};

use crate::op::ClaimsOp;
use crate::texts::{op_of, own_op, put_op};
use lr_base::lr_service::{Kind, OpFault, Service};
use lr_base::{FieldFault, GetFault, NoMemory, Rows, Text, decoded};
use lr_words::{Table, Word, WordList, put_word};
use std::alloc::Global;
use std::marker::Model;

/// The owner of each name that was claimed, and the notes of each name that has some.
#[derive(Drop)]
pub struct Claims {
    owners: Table<Word>,
    notes: Table<WordList>,
    // What makes room for answers.
    alloc: Global,
}

impl Model for Claims {
    ghost use Rattle.svc_claims.specs.Claims.{ClaimsValue, claims_code};

    ghost Value = { ClaimsValue };

    ghost coded = { claims_code };

    ghost view = { λ claims. record { owners = claims.owners; notes = claims.notes } };
}

impl Claims {
    fn note(&mut self, name: &Word, word: &Word) -> Result<(), NoMemory>
        ensures ok { OnOk result (self.new ≡ claims_apply self.old (operation.Note name.now word.now)) }
        ensures err { OnErr result (self.new ≡ self.old) }
    {
        self.notes.add_word(name, word.copy())
    }

    fn claim(&mut self, name: &Word, who: &Word) -> Result<(), NoMemory>
        ensures ok { OnOk result (self.new ≡ claims_apply self.old (operation.Claim name.now who.now)) }
        ensures err { OnErr result (self.new ≡ self.old) }
    {
        match self.owners.get(name) {
            Some(_owner) => Ok(()),
            None => self.owners.insert(name.copy(), who.copy()),
        }
    }

    fn clear(&mut self, name: &Word)
        ensures { self.new ≡ claims_apply self.old (operation.Clear name.now) }
    {
        self.owners.remove(name);
        self.notes.remove(name);
    }

    // Adds the owner's name, or a dash, behind `out`.
    fn put_owner(&self, name: &Word, out: &mut Text) -> Result<(), NoMemory>
        ensures ok { OnOk result (out.new ≡ out.old ++ unwrap_or (map.get self.now.owners name.now) (codes "-")) }
        ensures printable { OnOk result (
            is_printable (unwrap_or (map.get self.now.owners name.now) (codes "-")) ≡ true) }
    {
        match self.owners.get(name) {
            Some(owner) => put_word(owner, out),
            None => out.extend(b"-"),
        }
    }

    // Adds the owner and the notes of the name behind `out`.
    fn put_answer(&self, name: &Word, out: &mut Text) -> Result<(), NoMemory>
        ensures ok { OnOk result (out.new ≡ out.old ++ claims_read self.now (operation.Who name.now)) }
        ensures printable { OnOk result (is_printable (claims_read self.now (operation.Who name.now)) ≡ true) }
    {
        self.put_owner(name, out)?;
        out.extend(b" ")?;
        self.notes.put_words(name, out)
    }

    // The value that the bytes begin with, and the bytes behind it.
    fn field(alloc: Global, bytes: &[u8]) -> Result<(Claims, &[u8]), FieldFault>
        ensures { Reads (claims_format.field bytes.now) result }
    {
        let (owners, rest) = Table::<Word>::field(alloc, bytes)?;
        let (notes, end) = Table::<WordList>::field(alloc, rest)?;
        let claims = Claims {
            owners,
            notes,
            alloc,
        };
        Ok((claims, end))
    }
}

impl Service for Claims {
    ghost use Rattle.svc_claims.specs.Claims.{claims, claims_encoding};
    ghost use Rattle.svc_claims.specs.ClaimsLaw.{claims_lawful};

    type Op = ClaimsOp;

    ghost meaning = { claims };

    ghost encoding = { claims_encoding };

    ghost NUMBER = { 3 };

    const NUMBER: u8 = 3;

    fn start(alloc: Global) -> Result<Claims, NoMemory> {
        Ok(Claims {
            owners: Table::new(alloc),
            notes: Table::new(alloc),
            alloc,
        })
    }

    fn kind(op: &ClaimsOp) -> Kind {
        match op {
            ClaimsOp::Note {
                name: _name,
                word: _word,
            } => Kind::Causal,
            ClaimsOp::Claim {
                name: _name,
                who: _who,
            } => Kind::Forced,
            ClaimsOp::Clear { name: _name } => Kind::Immediate,
            ClaimsOp::Who { name: _name } => Kind::Query,
        }
    }

    fn apply(&mut self, op: &ClaimsOp) -> Result<(), NoMemory> {
        match op {
            ClaimsOp::Note { name, word } => self.note(name, word),
            ClaimsOp::Claim { name, who } => self.claim(name, who),
            ClaimsOp::Clear { name } => {
                self.clear(name);
                Ok(())
            }
            ClaimsOp::Who { name: _name } => Ok(()),
        }
    }

    fn read(&self, op: &ClaimsOp) -> Result<Text, NoMemory> {
        let mut answer = Rows::new(self.alloc);
        if let ClaimsOp::Who { name } = op {
            self.put_answer(name, &mut answer)?;
        }
        Ok(answer)
    }

    fn read_op(_alloc: Global, text: &[u8]) -> Result<ClaimsOp, OpFault> {
        match op_of(text) {
            Some(op) => Ok(op),
            None => Err(OpFault::NotAnOp),
        }
    }

    fn own_op(op: &ClaimsOp) {
        own_op(op)
    }

    fn print_op(op: &ClaimsOp, out: &mut Text) -> Result<(), NoMemory> {
        put_op(op, out)
    }

    fn copy(&self) -> Result<Claims, NoMemory> {
        let owners = self.owners.copy()?;
        let notes = self.notes.copy()?;
        let alloc = self.alloc;
        Ok(Claims {
            owners,
            notes,
            alloc,
        })
    }

    fn put(&self, out: &mut Rows<u8>) -> Result<(), NoMemory> {
        self.owners.put(out)?;
        self.notes.put(out)
    }

    fn get(alloc: Global, bytes: &[u8]) -> Result<Claims, GetFault> {
        decoded(bytes, Claims::field(alloc, bytes))
    }

    ghost lawful = { claims_lawful };
}
