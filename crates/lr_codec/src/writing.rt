//! The small parts of stable bytes, written.
ghost use Rattle.std.specs.Prelude.{◌≡◌, ◌++◌, ◌+◌, ◌≤◌, true, IfOk, OnOk, flat_map, length, take, drop};
ghost use Rattle.byteorder.specs.Endian.{big_bytes};
ghost use Rattle.lr_base.specs.Bytes.{count_bytes};
ghost use Rattle.lr_codec.specs.Parts.{cid_format, is_update, op_format, value_format};

use byteorder::{BigEndian, ByteOrder};
use lr_base::lr_service::Service;
use lr_base::{
    Cid, NoMemory, Rows, Stamp, Text, put_count_field, put_number_field, put_short_field,
};

// Adds each part of a stamp behind `out`.
pub(crate) fn put_stamp(stamp: &Stamp, out: &mut Text) -> Result<(), NoMemory>
    ensures { OnOk result (out.new ≡ out.old ++ flat_map (big_bytes 8) stamp.now) }
{
    for part in stamp.as_slice() {
        put_number_field(*part, out)?;
    }
    Ok(())
}

// Adds a call's name behind `out`.
pub(crate) fn put_cid(cid: Cid, out: &mut Text) -> Result<(), NoMemory>
    ensures { OnOk result (out.new ≡ out.old ++ cid_format.written cid) }
{
    put_short_field(cid.client, out)?;
    put_number_field(cid.seq, out)
}

// Adds the text of an operation behind `out`, and answers its length, which 2 bytes have room to count.
fn put_text<S: Service>(op: &S::Op, out: &mut Text) -> Result<u16, NoMemory>
    ensures ok { OnOk result (out.new ≡ out.old ++ S.meaning.text op.now) }
    ensures size { IfOk result (λ size. size ≡ length (S.meaning.text op.now)) }
    ensures real { OnOk result (S.meaning.is_op op.now ≡ true) }
{
    S::own_op(op);
    let from = out.len();
    S::print_op(op, out)?;
    Ok(out.len().saturating_sub(from) as u16)
}

// Adds the length and the text of an operation behind `out`. The length stands in its place once the text is there.
pub(crate) fn put_op<S: Service>(op: &S::Op, out: &mut Text) -> Result<(), NoMemory>
    ensures ok { OnOk result (out.new ≡ out.old ++ (op_format S.meaning is_update).written op.now) }
    ensures real { OnOk result (S.meaning.is_op op.now ≡ true) }
{
    let from = out.len();
    out.extend(&[0u8; 2])?;
    let size = put_text::<S>(op, out)?;
    let mut length = [0u8; 2];
    BigEndian::write_u16(&mut length, size);
    out.overwrite(from, &length);
    Ok(())
}

// Puts the length of the bytes behind the first `from` and 4 more in place of these 4. Where it needs more room, the
// bytes are moved.
fn set_count(from: usize, out: &mut Text) -> Result<(), NoMemory>
    requires { from + 4 ≤ length out.old }
    ensures { OnOk result (out.new ≡ take from out.old
        ++ (count_bytes (length (drop (from + 4) out.old)) ++ drop (from + 4) out.old)) }
{
    let size = out.len() - (from + 4);
    if (size as u64) < u64::from(u32::MAX) {
        let mut length = [0u8; 4];
        BigEndian::write_u32(&mut length, size as u32);
        out.overwrite(from, &length);
        return Ok(());
    }
    let text = Rows::from_slice(out.allocator(), &out.as_slice()[from + 4..])?;
    out.truncate(from);
    put_count_field(size as u64, out)?;
    out.extend(text.as_slice())
}

// Adds the length of a value's bytes behind `out`, and these. The length stands in its place once the bytes are there.
pub(crate) fn put_value<S: Service>(value: &S, out: &mut Text) -> Result<(), NoMemory>
    ensures ok { OnOk result (out.new ≡ out.old ++ (value_format S.encoding).written value.now) }
    ensures real { OnOk result (S.encoding.is_value value.now ≡ true) }
{
    let from = out.len();
    out.extend(&[0u8; 4])?;
    value.put(out)?;
    set_count(from, out)
}
