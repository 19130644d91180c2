//! How the tally's operations are written.
ghost use Rattle.std.specs.Prelude.{◌≡◌, ◌≢◌, ◌<◌, ◌^◌, ℕ, true, List, ◌++◌, IfSome, IsNone, OnOk, codes};
ghost use Rattle.std.specs.Fmt.{decimal};
ghost use Rattle.lr_words.specs.Word.{is_word};
ghost use Rattle.svc_tally.specs.declared.op.TallyOp.{TallyOp};
ghost use Rattle.svc_tally.specs.Tally.{tally_kind, tally_is_op, tally_text};

use crate::op::TallyOp;
use lr_base::lr_service::Operation;
use lr_base::{NoMemory, Text, put_number, read_number};
use lr_words::{Word, put_word};

impl Operation for TallyOp {
    ghost kind_of = { tally_kind };

    fn copy(&self) -> Result<TallyOp, NoMemory> {
        match self {
            TallyOp::Add { name, amount } => Ok(TallyOp::Add {
                name: name.copy(),
                amount: *amount,
            }),
            TallyOp::Read { name } => Ok(TallyOp::Read { name: name.copy() }),
        }
    }
}

// The operation that is written so. Takes no memory.
pub(crate) fn op_of(text: &[u8]) -> Option<TallyOp>
    ensures written { IfSome result (λ op. tally_text op ≡ text.now) }
    ensures real { IfSome result (λ op. tally_is_op op ≡ true) }
    ensures none { IsNone result → (op : TallyOp) → tally_is_op op ≡ true → tally_text op ≢ text.now }
{
    match text.strip_prefix(b"add ") {
        Some(rest) => add_of(rest),
        None => read_of(text.strip_prefix(b"read ")?),
    }
}

fn add_of(rest: &[u8]) -> Option<TallyOp>
    ensures written { IfSome result (λ op. tally_text op ≡ codes "add " ++ rest.now) }
    ensures real { IfSome result (λ op. tally_is_op op ≡ true) }
    ensures none { IsNone result → (name : List ℕ) (amount : ℕ) → is_word name ≡ true → amount < 2 ^ 64
        → rest.now ≢ name ++ (codes " " ++ decimal amount) }
{
    let (name, number) = Word::read_front(rest)?;
    let amount = read_number(number)?;
    Some(TallyOp::Add { name, amount })
}

fn read_of(rest: &[u8]) -> Option<TallyOp>
    ensures written { IfSome result (λ op. tally_text op ≡ codes "read " ++ rest.now) }
    ensures real { IfSome result (λ op. tally_is_op op ≡ true) }
    ensures none { IsNone result → (name : List ℕ) → is_word name ≡ true → rest.now ≢ name }
{
    let name = Word::read(rest)?;
    Some(TallyOp::Read { name })
}

// Adds the operation's text behind `out`.
pub(crate) fn put_op(op: &TallyOp, out: &mut Text) -> Result<(), NoMemory>
    ensures { OnOk result (out.new ≡ out.old ++ tally_text op.now) }
{
    match op {
        TallyOp::Add { name, amount } => {
            out.extend(b"add ")?;
            put_word(name, out)?;
            out.extend(b" ")?;
            put_number(*amount, out)
        }
        TallyOp::Read { name } => {
            out.extend(b"read ")?;
            put_word(name, out)
        }
    }
}

// A name is a word, and an amount is below 2^64. This function does nothing.
pub(crate) fn own_op(op: &TallyOp)
    ensures { tally_is_op op.now ≡ true }
{
    match op {
        TallyOp::Add { name, amount } => {
            let _word = name.as_slice();
            let _number = *amount;
        }
        TallyOp::Read { name } => {
            let _word = name.as_slice();
        }
    }
}
