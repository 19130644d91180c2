//! How the operations of mail are written.
ghost use Rattle.std.specs.Prelude.{◌≡◌, ◌≢◌, true, ◌&&◌, List, ℕ, ◌++◌, IfSome, IsNone, OnOk, codes};
ghost use Rattle.lr_words.specs.Word.{is_word};
ghost use Rattle.svc_mail.specs.declared.op.MailOp.{MailOp};
ghost use Rattle.svc_mail.specs.Mail.{mail_kind, mail_is_op, mail_text};

use crate::op::MailOp;
use lr_base::lr_service::Operation;
use lr_base::{NoMemory, Text};
use lr_words::{Word, behind, put_two_words, put_word, read_two_words};

impl Operation for MailOp {
    ghost kind_of = { mail_kind };

    fn copy(&self) -> Result<MailOp, NoMemory> {
        match self {
            MailOp::Send { user, word } => Ok(MailOp::Send {
                user: user.copy(),
                word: word.copy(),
            }),
            MailOp::Add { user } => Ok(MailOp::Add { user: user.copy() }),
            MailOp::Delete { user } => Ok(MailOp::Delete { user: user.copy() }),
            MailOp::Read { user } => Ok(MailOp::Read { user: user.copy() }),
        }
    }
}

// The operation that is written so. Takes no memory.
pub(crate) fn op_of(text: &[u8]) -> Option<MailOp>
    ensures written { IfSome result (λ op. mail_text op ≡ text.now) }
    ensures real { IfSome result (λ op. mail_is_op op ≡ true) }
    ensures none { IsNone result → (op : MailOp) → mail_is_op op ≡ true → mail_text op ≢ text.now }
{
    if let Some(rest) = behind(text, b"send ") {
        return send_of(rest);
    }
    if let Some(rest) = behind(text, b"add ") {
        return add_of(rest);
    }
    if let Some(rest) = behind(text, b"delete ") {
        return delete_of(rest);
    }
    read_of(behind(text, b"read ")?)
}

fn send_of(rest: &[u8]) -> Option<MailOp>
    ensures written { IfSome result (λ op. mail_text op ≡ codes "send " ++ rest.now) }
    ensures real { IfSome result (λ op. mail_is_op op ≡ true) }
    ensures none { IsNone result → (user word : List ℕ) → (is_word user && is_word word) ≡ true
        → user ++ (codes " " ++ word) ≢ rest.now }
{
    let (user, word) = read_two_words(rest)?;
    Some(MailOp::Send { user, word })
}

fn add_of(rest: &[u8]) -> Option<MailOp>
    ensures written { IfSome result (λ op. mail_text op ≡ codes "add " ++ rest.now) }
    ensures real { IfSome result (λ op. mail_is_op op ≡ true) }
    ensures none { IsNone result → (user : List ℕ) → is_word user ≡ true → user ≢ rest.now }
{
    let user = Word::read(rest)?;
    Some(MailOp::Add { user })
}

fn delete_of(rest: &[u8]) -> Option<MailOp>
    ensures written { IfSome result (λ op. mail_text op ≡ codes "delete " ++ rest.now) }
    ensures real { IfSome result (λ op. mail_is_op op ≡ true) }
    ensures none { IsNone result → (user : List ℕ) → is_word user ≡ true → user ≢ rest.now }
{
    let user = Word::read(rest)?;
    Some(MailOp::Delete { user })
}

fn read_of(rest: &[u8]) -> Option<MailOp>
    ensures written { IfSome result (λ op. mail_text op ≡ codes "read " ++ rest.now) }
    ensures real { IfSome result (λ op. mail_is_op op ≡ true) }
    ensures none { IsNone result → (user : List ℕ) → is_word user ≡ true → user ≢ rest.now }
{
    let user = Word::read(rest)?;
    Some(MailOp::Read { user })
}

// Adds the operation's text behind `out`.
pub(crate) fn put_op(op: &MailOp, out: &mut Text) -> Result<(), NoMemory>
    ensures { OnOk result (out.new ≡ out.old ++ mail_text op.now) }
{
    match op {
        MailOp::Send { user, word } => {
            out.extend(b"send ")?;
            put_two_words(user, word, out)
        }
        MailOp::Add { user } => {
            out.extend(b"add ")?;
            put_word(user, out)
        }
        MailOp::Delete { user } => {
            out.extend(b"delete ")?;
            put_word(user, out)
        }
        MailOp::Read { user } => {
            out.extend(b"read ")?;
            put_word(user, out)
        }
    }
}

// Users and what is sent are words. This function does nothing.
pub(crate) fn own_op(op: &MailOp)
    ensures { mail_is_op op.now ≡ true }
{
    match op {
        MailOp::Send { user, word } => {
            let _user = user.as_slice();
            let _word = word.as_slice();
        }
        MailOp::Add { user } => {
            let _user = user.as_slice();
        }
        MailOp::Delete { user } => {
            let _user = user.as_slice();
        }
        MailOp::Read { user } => {
            let _user = user.as_slice();
        }
    }
}
