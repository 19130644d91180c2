//! Users with their numbers, and boxes of words.
ghost use Rattle.std.specs.Prelude.{◌≡◌, ◌++◌, true, OnOk, OnErr};
ghost use Rattle.std.specs.FinMap as map;
ghost use Rattle.lr_base.specs.Bytes.{Reads};
ghost use Rattle.lr_base.specs.Meaning.{is_printable};
ghost use Rattle.svc_mail.specs.declared.op.MailOp.TheVariants as operation;
ghost use Rattle.svc_mail.specs.Mail.{mail_apply, mail_format, mail_read, number_text};

use crate::op::MailOp;
use crate::texts::{op_of, own_op, put_op};
use lr_base::lr_service::{Kind, OpFault, Service};
use lr_base::{
    FieldFault, GetFault, NoMemory, Rows, Text, decoded, number_field, put_number, put_number_field,
};
use lr_words::{Table, Word, WordList};
use std::alloc::Global;
use std::marker::Model;

/// The number of each user, and the words sent to each name that has some.
#[derive(Drop)]
pub struct Mail {
    // The last number that was given.
    last: u64,
    users: Table<u64>,
    boxes: Table<WordList>,
    // What makes room for answers.
    alloc: Global,
}

impl Model for Mail {
    ghost use Rattle.svc_mail.specs.Mail.{MailValue, mail_code};

    ghost Value = { MailValue };

    ghost coded = { mail_code };

    ghost view = { λ mail. record { last = mail.last; users = mail.users; boxes = mail.boxes } };
}

impl Mail {
    fn send(&mut self, user: &Word, word: &Word) -> Result<(), NoMemory>
        ensures ok { OnOk result (self.new ≡ mail_apply self.old (operation.Send user.now word.now)) }
        ensures err { OnErr result (self.new ≡ self.old) }
    {
        self.boxes.add_word(user, word.copy())
    }

    fn add(&mut self, user: &Word) -> Result<(), NoMemory>
        ensures ok { OnOk result (self.new ≡ mail_apply self.old (operation.Add user.now)) }
        ensures err { OnErr result (self.new ≡ self.old) }
    {
        match self.users.get(user) {
            Some(_number) => Ok(()),
            None => {
                let next = self.last.wrapping_add(1);
                self.users.insert(user.copy(), next)?;
                self.last = next;
                Ok(())
            }
        }
    }

    fn delete(&mut self, user: &Word)
        ensures { self.new ≡ mail_apply self.old (operation.Delete user.now) }
    {
        self.users.remove(user);
        self.boxes.remove(user);
    }

    // Adds the user's number, or a dash, behind `out`.
    fn put_user(&self, user: &Word, out: &mut Text) -> Result<(), NoMemory>
        ensures { OnOk result (out.new ≡ out.old ++ number_text (map.get self.now.users user.now)) }
    {
        match self.users.get(user) {
            Some(number) => put_number(*number, out),
            None => out.extend(b"-"),
        }
    }

    // Adds the number and the words of the user behind `out`.
    fn put_answer(&self, user: &Word, out: &mut Text) -> Result<(), NoMemory>
        ensures ok { OnOk result (out.new ≡ out.old ++ mail_read self.now (operation.Read user.now)) }
        ensures printable { OnOk result (is_printable (mail_read self.now (operation.Read user.now)) ≡ true) }
    {
        self.put_user(user, out)?;
        out.extend(b" ")?;
        self.boxes.put_words(user, out)
    }

    // The value that the bytes begin with, and the bytes behind it.
    fn field(alloc: Global, bytes: &[u8]) -> Result<(Mail, &[u8]), FieldFault>
        ensures { Reads (mail_format.field bytes.now) result }
    {
        let (last, rest) = number_field(bytes)?;
        let (users, rest) = Table::<u64>::field(alloc, rest)?;
        let (boxes, end) = Table::<WordList>::field(alloc, rest)?;
        let mail = Mail {
            last,
            users,
            boxes,
            alloc,
        };
        Ok((mail, end))
    }
}

impl Service for Mail {
    ghost use Rattle.svc_mail.specs.Mail.{mail, mail_encoding};
    ghost use Rattle.svc_mail.specs.MailLaw.{mail_lawful};

    type Op = MailOp;

    ghost meaning = { mail };

    ghost encoding = { mail_encoding };

    ghost NUMBER = { 2 };

    const NUMBER: u8 = 2;

    fn start(alloc: Global) -> Result<Mail, NoMemory> {
        Ok(Mail {
            last: 0,
            users: Table::new(alloc),
            boxes: Table::new(alloc),
            alloc,
        })
    }

    fn kind(op: &MailOp) -> Kind {
        match op {
            MailOp::Send {
                user: _user,
                word: _word,
            } => Kind::Causal,
            MailOp::Add { user: _user } => Kind::Forced,
            MailOp::Delete { user: _user } => Kind::Immediate,
            MailOp::Read { user: _user } => Kind::Query,
        }
    }

    fn apply(&mut self, op: &MailOp) -> Result<(), NoMemory> {
        match op {
            MailOp::Send { user, word } => self.send(user, word),
            MailOp::Add { user } => self.add(user),
            MailOp::Delete { user } => {
                self.delete(user);
                Ok(())
            }
            MailOp::Read { user: _user } => Ok(()),
        }
    }

    fn read(&self, op: &MailOp) -> Result<Text, NoMemory> {
        let mut answer = Rows::new(self.alloc);
        if let MailOp::Read { user } = op {
            self.put_answer(user, &mut answer)?;
        }
        Ok(answer)
    }

    fn read_op(_alloc: Global, text: &[u8]) -> Result<MailOp, OpFault> {
        match op_of(text) {
            Some(op) => Ok(op),
            None => Err(OpFault::NotAnOp),
        }
    }

    fn own_op(op: &MailOp) {
        own_op(op)
    }

    fn print_op(op: &MailOp, out: &mut Text) -> Result<(), NoMemory> {
        put_op(op, out)
    }

    fn copy(&self) -> Result<Mail, NoMemory> {
        let last = self.last;
        let users = self.users.copy()?;
        let boxes = self.boxes.copy()?;
        let alloc = self.alloc;
        Ok(Mail {
            last,
            users,
            boxes,
            alloc,
        })
    }

    fn put(&self, out: &mut Rows<u8>) -> Result<(), NoMemory> {
        put_number_field(self.last, out)?;
        self.users.put(out)?;
        self.boxes.put(out)
    }

    fn get(alloc: Global, bytes: &[u8]) -> Result<Mail, GetFault> {
        decoded(bytes, Mail::field(alloc, bytes))
    }

    ghost lawful = { mail_lawful };
}
