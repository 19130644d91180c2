//! How the operations of claims are written.
ghost use Rattle.std.specs.Prelude.{◌≡◌, ◌≢◌, true, ◌&&◌, List, ℕ, ◌++◌, IfSome, IsNone, OnOk, codes};
ghost use Rattle.lr_words.specs.Word.{is_word};
ghost use Rattle.svc_claims.specs.declared.op.ClaimsOp.{ClaimsOp};
ghost use Rattle.svc_claims.specs.Claims.{claims_kind, claims_is_op, claims_text};

use crate::op::ClaimsOp;
use lr_base::lr_service::Operation;
use lr_base::{NoMemory, Text};
use lr_words::{Word, behind, put_two_words, put_word, read_two_words};

impl Operation for ClaimsOp {
    ghost kind_of = { claims_kind };

    fn copy(&self) -> Result<ClaimsOp, NoMemory> {
        match self {
            ClaimsOp::Note { name, word } => Ok(ClaimsOp::Note {
                name: name.copy(),
                word: word.copy(),
            }),
            ClaimsOp::Claim { name, who } => Ok(ClaimsOp::Claim {
                name: name.copy(),
                who: who.copy(),
            }),
            ClaimsOp::Clear { name } => Ok(ClaimsOp::Clear { name: name.copy() }),
            ClaimsOp::Who { name } => Ok(ClaimsOp::Who { name: name.copy() }),
        }
    }
}

// The operation that is written so. Takes no memory.
pub(crate) fn op_of(text: &[u8]) -> Option<ClaimsOp>
    ensures written { IfSome result (λ op. claims_text op ≡ text.now) }
    ensures real { IfSome result (λ op. claims_is_op op ≡ true) }
    ensures none { IsNone result → (op : ClaimsOp) → claims_is_op op ≡ true → claims_text op ≢ text.now }
{
    if let Some(rest) = behind(text, b"note ") {
        return note_of(rest);
    }
    if let Some(rest) = behind(text, b"claim ") {
        return claim_of(rest);
    }
    if let Some(rest) = behind(text, b"clear ") {
        return clear_of(rest);
    }
    who_of(behind(text, b"who ")?)
}

fn note_of(rest: &[u8]) -> Option<ClaimsOp>
    ensures written { IfSome result (λ op. claims_text op ≡ codes "note " ++ rest.now) }
    ensures real { IfSome result (λ op. claims_is_op op ≡ true) }
    ensures none { IsNone result → (name word : List ℕ) → (is_word name && is_word word) ≡ true
        → name ++ (codes " " ++ word) ≢ rest.now }
{
    let (name, word) = read_two_words(rest)?;
    Some(ClaimsOp::Note { name, word })
}

fn claim_of(rest: &[u8]) -> Option<ClaimsOp>
    ensures written { IfSome result (λ op. claims_text op ≡ codes "claim " ++ rest.now) }
    ensures real { IfSome result (λ op. claims_is_op op ≡ true) }
    ensures none { IsNone result → (name who : List ℕ) → (is_word name && is_word who) ≡ true
        → name ++ (codes " " ++ who) ≢ rest.now }
{
    let (name, who) = read_two_words(rest)?;
    Some(ClaimsOp::Claim { name, who })
}

fn clear_of(rest: &[u8]) -> Option<ClaimsOp>
    ensures written { IfSome result (λ op. claims_text op ≡ codes "clear " ++ rest.now) }
    ensures real { IfSome result (λ op. claims_is_op op ≡ true) }
    ensures none { IsNone result → (name : List ℕ) → is_word name ≡ true → name ≢ rest.now }
{
    let name = Word::read(rest)?;
    Some(ClaimsOp::Clear { name })
}

fn who_of(rest: &[u8]) -> Option<ClaimsOp>
    ensures written { IfSome result (λ op. claims_text op ≡ codes "who " ++ rest.now) }
    ensures real { IfSome result (λ op. claims_is_op op ≡ true) }
    ensures none { IsNone result → (name : List ℕ) → is_word name ≡ true → name ≢ rest.now }
{
    let name = Word::read(rest)?;
    Some(ClaimsOp::Who { name })
}

// Adds the operation's text behind `out`.
pub(crate) fn put_op(op: &ClaimsOp, out: &mut Text) -> Result<(), NoMemory>
    ensures { OnOk result (out.new ≡ out.old ++ claims_text op.now) }
{
    match op {
        ClaimsOp::Note { name, word } => {
            out.extend(b"note ")?;
            put_two_words(name, word, out)
        }
        ClaimsOp::Claim { name, who } => {
            out.extend(b"claim ")?;
            put_two_words(name, who, out)
        }
        ClaimsOp::Clear { name } => {
            out.extend(b"clear ")?;
            put_word(name, out)
        }
        ClaimsOp::Who { name } => {
            out.extend(b"who ")?;
            put_word(name, out)
        }
    }
}

// Names, notes and owners are words. This function does nothing.
pub(crate) fn own_op(op: &ClaimsOp)
    ensures { claims_is_op op.now ≡ true }
{
    match op {
        ClaimsOp::Note { name, word } => {
            let _name = name.as_slice();
            let _word = word.as_slice();
        }
        ClaimsOp::Claim { name, who } => {
            let _name = name.as_slice();
            let _who = who.as_slice();
        }
        ClaimsOp::Clear { name } => {
            let _name = name.as_slice();
        }
        ClaimsOp::Who { name } => {
            let _name = name.as_slice();
        }
    }
}
