//! Lists in bytes: elements one behind the other, each read knowing the one before it.
ghost use Rattle.std.specs.Prelude.{Option};
ghost use Rattle.lr_base.specs.Bytes.{Reads};
ghost use Rattle.lr_base.specs.Formats.{Format, repeated};
ghost use Rattle.lr_base.specs.Lasts.{last_of};

use lr_base::{FieldFault, Rows};
use std::alloc::Global;

/// What reads the elements of a list, with all that their format depends on.
pub(crate) trait ReadRow {
    type Row: Drop;

    /// The format of an element, by the one before it.
    ghost format: { Self → Option Self.Row → Format Self.Row };

    /// The element that the bytes begin with, behind those that were read before.
    fn row_field<'a>(
        &self,
        before: &[Self::Row],
        bytes: &'a [u8],
    ) -> Result<(Self::Row, &'a [u8]), FieldFault>
        ensures { Reads ((format self.now (last_of before.now)).field bytes.now) result };
}

// So many elements.
pub(crate) fn rows_field<'a, R: ReadRow>(
    alloc: Global,
    reader: &R,
    count: u64,
    bytes: &'a [u8],
) -> Result<(Rows<R::Row>, &'a [u8]), FieldFault>
    ensures { Reads ((repeated (R.format reader.now) count).field bytes.now) result }
{
    let mut rows = Rows::new(alloc);
    let mut rest = bytes;
    for _ in 0..count {
        let (row, end) = reader.row_field(rows.as_slice(), rest)?;
        rows.push(row)?;
        rest = end;
    }
    Ok((rows, rest))
}
