//! The small parts of stable bytes, read.
ghost use Rattle.std.specs.Prelude.{◌≡◌, ◌≤◌, IfOk, length};
ghost use Rattle.lr_base.specs.Bytes.{Reads, count_field, number_field};
ghost use Rattle.lr_base.specs.Limits.{most_parts};
ghost use Rattle.lr_codec.specs.Parts.{cid_format, item_number_format, op_format, op_found, part_format};
ghost use Rattle.lr_codec.specs.Parts.{sized, stamp_format, value_format, value_found};
ghost use Rattle.lr_codec.specs.Wanted.{passes};

use byteorder::{BigEndian, ByteOrder};
use lr_base::lr_service::{Kind, OpFault, Service};
use lr_base::{
    BadWhat, Cid, FieldFault, GetFault, LAST_NUMBER, NoMemory, Stamp, count_field, fault_at,
    number_field, short_field,
};
use std::alloc::Global;

/// Which operations may stand somewhere.
#[derive(Clone, Copy)]
pub(crate) enum Wanted {
    Update,
    Immediate,
}

impl Wanted {
    // Whether an operation of this kind may stand there.
    fn takes(self, kind: Kind) -> bool
        ensures { result ≡ passes self kind }
    {
        match self {
            Wanted::Update => kind != Kind::Query,
            Wanted::Immediate => kind == Kind::Immediate,
        }
    }
}

// A number that is at most the last one.
pub(crate) fn part_field(bytes: &[u8]) -> Result<(u64, &[u8]), FieldFault>
    ensures { Reads (part_format.field bytes.now) result }
{
    let (number, rest) = number_field(bytes)?;
    if number > LAST_NUMBER {
        return Err(fault_at(bytes, BadWhat::Range));
    }
    Ok((number, rest))
}

// A number from 1 that is at most the last one.
pub(crate) fn item_number_field(bytes: &[u8]) -> Result<(u64, &[u8]), FieldFault>
    ensures { Reads (item_number_format.field bytes.now) result }
{
    let (number, rest) = number_field(bytes)?;
    if number < 1 || number > LAST_NUMBER {
        return Err(fault_at(bytes, BadWhat::Range));
    }
    Ok((number, rest))
}

// A stamp of this many parts.
pub(crate) fn stamp_field(parts: u8, bytes: &[u8]) -> Result<(Stamp, &[u8]), FieldFault>
    requires { parts ≤ most_parts }
    ensures { Reads ((stamp_format parts).field bytes.now) result }
{
    let mut stamp = Stamp::none();
    let mut rest = bytes;
    for _ in 0..parts {
        let (number, end) = part_field(rest)?;
        stamp.push(number);
        rest = end;
    }
    Ok((stamp, rest))
}

// A call's name.
pub(crate) fn cid_field(bytes: &[u8]) -> Result<(Cid, &[u8]), FieldFault>
    ensures { Reads (cid_format.field bytes.now) result }
{
    let (client, rest) = short_field(bytes)?;
    let (seq, end) = part_field(rest)?;
    Ok((Cid { client, seq }, end))
}

// The number in the first 2 bytes.
fn pair_field(bytes: &[u8]) -> Result<(u16, &[u8]), FieldFault>
    ensures { Reads (number_field 2 bytes.now) result }
{
    if bytes.len() < 2 {
        return Err(fault_at(bytes, BadWhat::Short));
    }
    Ok((BigEndian::read_u16(bytes), &bytes[2..]))
}

// The operation that is written so, if there is one.
fn op_of<S: Service>(alloc: Global, text: &[u8]) -> Result<Option<S::Op>, NoMemory>
    ensures { IfOk result (λ found. found ≡ S.meaning.op_of text.now) }
{
    match S::read_op(alloc, text) {
        Ok(op) => Ok(Some(op)),
        Err(OpFault::NotAnOp) => Ok(None),
        Err(OpFault::NoMemory) => Err(NoMemory),
    }
}

// An operation that may stand there: its length, and its text.
pub(crate) fn op_field<S: Service>(
    alloc: Global,
    wanted: Wanted,
    bytes: &[u8],
) -> Result<(S::Op, &[u8]), FieldFault>
    ensures { Reads ((op_format S.meaning (passes wanted)).field bytes.now) result }
{
    let (size, rest) = pair_field(bytes)?;
    text_field::<S>(alloc, wanted, usize::from(size), rest)
}

// The text of an operation.
fn text_field<S: Service>(
    alloc: Global,
    wanted: Wanted,
    size: usize,
    bytes: &[u8],
) -> Result<(S::Op, &[u8]), FieldFault>
    ensures { Reads (sized (λ bytes text rest. op_found S.meaning (passes wanted) bytes rest (S.meaning.op_of text))
        size bytes.now) result }
{
    if bytes.len() < size {
        return Err(fault_at(bytes, BadWhat::Short));
    }
    match op_of::<S>(alloc, &bytes[..size])? {
        Some(op) => {
            if wanted.takes(S::kind(&op)) {
                Ok((op, &bytes[size..]))
            } else {
                Err(fault_at(bytes, BadWhat::Value))
            }
        }
        None => Err(fault_at(bytes, BadWhat::Value)),
    }
}

// The service's value: the length of its bytes, and these.
pub(crate) fn value_field<S: Service>(alloc: Global, bytes: &[u8]) -> Result<(S, &[u8]), FieldFault>
    ensures { Reads ((value_format S.encoding).field bytes.now) result }
{
    let (size, rest) = count_field(bytes)?;
    spelling_field::<S>(alloc, size, rest)
}

// So many bytes of a value.
fn spelling_field<S: Service>(
    alloc: Global,
    size: u64,
    bytes: &[u8],
) -> Result<(S, &[u8]), FieldFault>
    ensures { Reads
        (sized (λ bytes text rest. value_found bytes rest (S.encoding.decoded text)) size bytes.now) result }
{
    if (bytes.len() as u64) < size {
        return Err(fault_at(bytes, BadWhat::Short));
    }
    let size = size as usize;
    match S::get(alloc, &bytes[..size]) {
        Ok(value) => Ok((value, &bytes[size..])),
        Err(GetFault::Bad { at, what }) => Err(FieldFault::Bad {
            left: bytes.len().saturating_sub(at as usize),
            what,
        }),
        Err(GetFault::NoMemory) => Err(FieldFault::NoMemory),
    }
}
