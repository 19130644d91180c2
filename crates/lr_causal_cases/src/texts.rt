//! Numbers, stamps, calls and operations as commands name them.
ghost use Rattle.std.specs.Prelude.{◌≡◌, length, IfOk};

use crate::faults::Fault;
use lr_base::lr_service::Service;
use lr_base::{Call, Cid, LAST_NUMBER, Stamp, read_number};
use std::alloc::Global;
use svc_tally::{Tally, TallyOp};

/// The number that is written so.
pub fn number_of(text: &str) -> Result<u64, Fault> {
    match read_number(text.as_bytes()) {
        Some(number) => Ok(number),
        None => Err(Fault::Unread),
    }
}

/// The number of a replica that is written so.
pub fn small_number_of(text: &str) -> Result<u8, Fault> {
    let number = number_of(text)?;
    if number < 256 {
        Ok(number as u8)
    } else {
        Err(Fault::Unread)
    }
}

/// The client's call of this number.
pub fn cid(seq: u64) -> Cid {
    Cid { client: 0, seq }
}

/// The stamp that is written so: its parts, with dots between them.
pub fn stamp_of(parts: u8, text: &str) -> Result<Stamp, Fault>
    ensures { IfOk result (λ stamp. length stamp ≡ parts) }
{
    if parts < 2 || 10 < parts {
        return Err(Fault::BadStamp);
    }
    let mut stamp = Stamp::zero(parts);
    let mut place = 0;
    for part in text.split('.') {
        if stamp.parts() <= place {
            return Err(Fault::BadStamp);
        }
        let number = number_of(part)?;
        if number > LAST_NUMBER {
            return Err(Fault::BadStamp);
        }
        stamp.set_part(place, number);
        place += 1;
    }
    if place == parts && stamp.parts() == parts {
        Ok(stamp)
    } else {
        Err(Fault::BadStamp)
    }
}

/// The operation that these words are.
pub fn op_of(alloc: Global, words: &[&str]) -> Result<TallyOp, Fault> {
    let mut text = String::new(alloc);
    for word in words {
        if !text.is_empty() {
            text.push_str(" ")?;
        }
        text.push_str(word)?;
    }
    Ok(Tally::read_op(alloc, text.as_bytes())?)
}

/// The client's call that these words are: its number, its label, and its operation.
pub fn call_of(alloc: Global, parts: u8, words: &[&str]) -> Result<Call<TallyOp>, Fault>
    ensures { IfOk result (λ call. length call.prev ≡ parts) }
{
    let [seq, label, op @ ..] = words else {
        return Err(Fault::Unread);
    };
    let seq = number_of(seq)?;
    let prev = stamp_of(parts, label)?;
    let op = op_of(alloc, op)?;
    Ok(Call {
        cid: cid(seq),
        prev,
        op,
    })
}

/// The words before the first stroke, and those behind it.
pub fn cut<'a>(words: &'a [&'a str]) -> Option<(&'a [&'a str], &'a [&'a str])> {
    let at = words.iter().position(|word| *word == "/")?;
    Some((&words[..at], &words[at + 1..]))
}
