//! The elements of lists, written.
ghost use Rattle.std.specs.Prelude.{◌≡◌, ◌++◌, Bool, true, None, OnOk, flat_map};
ghost use Rattle.std.specs.List.{list_all};
ghost use Rattle.lr_codec.specs.Lists.{known_format};
ghost use Rattle.lr_codec.specs.Ranges.{is_own_entry};

use crate::readers::{CallRows, EntryRows, MarkRows, StampRows};
use crate::rows::ReadRow;
use crate::writing::{put_cid, put_op, put_stamp};
use lr_base::lr_service::Service;
use lr_base::{Cid, Entry, Known, NoMemory, Stamp, Text, put_byte_field, put_number_field};

/// What also writes the elements of a list.
pub(crate) trait PutRow: ReadRow {
    /// Whether an element's operation, if it has one, is the service's own.
    ghost is_own: { Self → Self.Row → Bool };

    /// Adds the bytes of an element behind `out`.
    fn put_row(&self, row: &Self::Row, out: &mut Text) -> Result<(), NoMemory>
        ensures ok { OnOk result (out.new ≡ out.old ++ (Self.format self.now None).written row.now) }
        ensures real { OnOk result (is_own self.now row.now ≡ true) };
}

// Adds the bytes of each element behind `out`.
pub(crate) fn put_rows<R: PutRow>(
    writer: &R,
    rows: &[R::Row],
    out: &mut Text,
) -> Result<(), NoMemory>
    ensures ok { OnOk result (out.new ≡ out.old ++ flat_map (R.format writer.now None).written rows.now) }
    ensures real { OnOk result (list_all (R.is_own writer.now) rows.now ≡ true) }
{
    for row in rows {
        writer.put_row(row, out)?;
    }
    Ok(())
}

impl PutRow for StampRows {
    ghost is_own = { λ it row. true };

    fn put_row(&self, row: &Stamp, out: &mut Text) -> Result<(), NoMemory> {
        put_stamp(row, out)
    }
}

impl PutRow for MarkRows {
    ghost is_own = { λ it row. true };

    fn put_row(&self, row: &(u64, u64), out: &mut Text) -> Result<(), NoMemory> {
        put_number_field(row.0, out)?;
        put_number_field(row.1, out)
    }
}

impl PutRow for CallRows {
    ghost is_own = { λ it row. true };

    fn put_row(&self, row: &(Cid, Known), out: &mut Text) -> Result<(), NoMemory> {
        put_cid(row.0, out)?;
        put_known(&row.1, out)
    }
}

// Adds what is known of a call behind `out`.
fn put_known(known: &Known, out: &mut Text) -> Result<(), NoMemory>
    ensures { OnOk result (out.new ≡ out.old ++ (known_format 0).written known.now) }
{
    put_byte_field(known.spot.place, out)?;
    put_number_field(known.spot.number, out)?;
    put_stamp(&known.stamp, out)
}

impl<S: Service> PutRow for EntryRows<S> {
    ghost is_own = { λ it row. is_own_entry S.meaning row };

    fn put_row(&self, row: &Entry<S::Op>, out: &mut Text) -> Result<(), NoMemory> {
        put_number_field(row.birth, out)?;
        put_cid(row.call.cid, out)?;
        put_stamp(&row.call.prev, out)?;
        put_stamp(&row.extra, out)?;
        put_op::<S>(&row.call.op, out)
    }
}
