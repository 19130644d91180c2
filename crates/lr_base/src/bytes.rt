//! Values in bytes: the fields that stable bytes are made of. Numbers have the highest byte first.
ghost use Rattle.std.specs.Prelude.{◌≡◌, ◌≢◌, ◌-◌, ◌++◌, length, OnOk};
ghost use Rattle.byteorder.specs.Endian.{big_bytes};
ghost use Rattle.lr_base.specs.Bytes.{Reading, Reads, Decodes, count_bytes, count_field, number_field, whole};

use crate::rows::{NoMemory, Text};
use byteorder::{BigEndian, ByteOrder};

/// What is wrong at the first wrong field of bytes.
#[derive(Clone, Copy, Debug, PartialEq, Eq)]
pub enum BadWhat {
    /// Other bytes than those that a format begins with.
    Magic,
    /// The field runs past the end.
    Short,
    /// A number outside its range.
    Range,
    /// An element that doesn't come behind the one before it.
    Order,
    /// A byte that isn't allowed in a text, or a text that is no operation.
    Value,
    /// A byte behind the last field.
    Trailing,
}

/// Why a field wasn't read.
#[derive(Clone, Copy, Debug, PartialEq, Eq)]
pub enum FieldFault {
    /// So many bytes are left from the first wrong field on.
    Bad { left: usize, what: BadWhat },
    NoMemory,
}

/// Why bytes weren't read as a value.
#[derive(Clone, Copy, Debug, PartialEq, Eq)]
pub enum GetFault {
    /// The offset of the first wrong field, from 0.
    Bad { at: u64, what: BadWhat },
    NoMemory,
}

impl From<NoMemory> for FieldFault {
    ghost use Rattle.lr_base.specs.declared.bytes.FieldFault.TheVariants as fault;

    ghost from_gives = { λ none given. given ≡ fault.NoMemory };

    fn from(_none: NoMemory) -> FieldFault {
        FieldFault::NoMemory
    }
}

/// The fault at a field that begins here.
pub fn fault_at(bytes: &[u8], what: BadWhat) -> FieldFault
    ensures { result ≡ FieldFault.Bad (length bytes.now) what }
{
    FieldFault::Bad {
        left: bytes.len(),
        what,
    }
}

/// The number in the first byte, and the bytes behind it.
pub fn byte_field(bytes: &[u8]) -> Result<(u8, &[u8]), FieldFault>
    ensures reads { Reads (number_field 1 bytes.now) result }
    ensures memory { result ≢ Err FieldFault.NoMemory }
{
    match bytes.split_first() {
        Some((first, rest)) => Ok((*first, rest)),
        None => Err(fault_at(bytes, BadWhat::Short)),
    }
}

/// The number in the first 8 bytes, and the bytes behind them.
pub fn number_field(bytes: &[u8]) -> Result<(u64, &[u8]), FieldFault>
    ensures reads { Reads (number_field 8 bytes.now) result }
    ensures memory { result ≢ Err FieldFault.NoMemory }
{
    if bytes.len() < 8 {
        return Err(fault_at(bytes, BadWhat::Short));
    }
    Ok((BigEndian::read_u64(bytes), &bytes[8..]))
}

/// The number in the first 4 bytes, and the bytes behind them.
pub fn short_field(bytes: &[u8]) -> Result<(u32, &[u8]), FieldFault>
    ensures reads { Reads (number_field 4 bytes.now) result }
    ensures memory { result ≢ Err FieldFault.NoMemory }
{
    if bytes.len() < 4 {
        return Err(fault_at(bytes, BadWhat::Short));
    }
    Ok((BigEndian::read_u32(bytes), &bytes[4..]))
}

/// The count that the bytes begin with, and the bytes behind it.
pub fn count_field(bytes: &[u8]) -> Result<(u64, &[u8]), FieldFault>
    ensures reads { Reads (count_field bytes.now) result }
    ensures memory { result ≢ Err FieldFault.NoMemory }
{
    let (count, rest) = short_field(bytes)?;
    if count != u32::MAX {
        return Ok((u64::from(count), rest));
    }
    let (count, behind) = number_field(rest)?;
    if count < u64::from(u32::MAX) {
        return Err(fault_at(rest, BadWhat::Range));
    }
    Ok((count, behind))
}

/// Adds a number's one byte behind `out`.
pub fn put_byte_field(number: u8, out: &mut Text) -> Result<(), NoMemory>
    ensures { OnOk result (out.new ≡ out.old ++ big_bytes 1 number) }
{
    out.push(number)
}

/// Adds a number's 8 bytes behind `out`.
pub fn put_number_field(number: u64, out: &mut Text) -> Result<(), NoMemory>
    ensures { OnOk result (out.new ≡ out.old ++ big_bytes 8 number) }
{
    let mut bytes = [0u8; 8];
    BigEndian::write_u64(&mut bytes, number);
    out.extend(&bytes)
}

/// Adds a number's 4 bytes behind `out`.
pub fn put_short_field(number: u32, out: &mut Text) -> Result<(), NoMemory>
    ensures { OnOk result (out.new ≡ out.old ++ big_bytes 4 number) }
{
    let mut bytes = [0u8; 4];
    BigEndian::write_u32(&mut bytes, number);
    out.extend(&bytes)
}

/// Adds a count's bytes behind `out`.
pub fn put_count_field(count: u64, out: &mut Text) -> Result<(), NoMemory>
    ensures { OnOk result (out.new ≡ out.old ++ count_bytes count) }
{
    if count < u64::from(u32::MAX) {
        return put_short_field(count as u32, out);
    }
    put_short_field(u32::MAX, out)?;
    put_number_field(count, out)
}

/// What whole bytes are, once their last field was read.
pub fn decoded<A: Drop>(bytes: &[u8], read: Result<(A, &[u8]), FieldFault>) -> Result<A, GetFault>
    ensures { (reading : Reading A) → Reads reading read.entry → Decodes (whole bytes.now reading) result }
{
    match read {
        Ok((value, rest)) => {
            if rest.is_empty() {
                Ok(value)
            } else {
                Err(refusal(bytes, rest.len(), BadWhat::Trailing))
            }
        }
        Err(FieldFault::Bad { left, what }) => Err(refusal(bytes, left, what)),
        Err(FieldFault::NoMemory) => Err(GetFault::NoMemory),
    }
}

// The refusal of bytes that are wrong where so many are left.
fn refusal(bytes: &[u8], left: usize, what: BadWhat) -> GetFault
    ensures { result ≡ GetFault.Bad (length bytes.now - left) what }
{
    GetFault::Bad {
        at: bytes.len().saturating_sub(left) as u64,
        what,
    }
}
