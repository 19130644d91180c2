//! What stands in a table behind each name: numbers and words, and how each stands in bytes.
ghost use Rattle.std.specs.Prelude.{◌≡◌, ◌≤◌, ◌++◌, ◌∷◌, true, IfOk, OnOk};
ghost use Rattle.lr_base.specs.Bytes.{IsExact, Reads};
ghost use Rattle.lr_base.specs.Formats.{Format, number_format};
ghost use Rattle.lr_base.specs.FormatLaws.{number_format-exact};
ghost use Rattle.lr_words.specs.Tables.{word_text_field};
ghost use Rattle.lr_words.specs.Formats.{word_format};
ghost use Rattle.lr_words.specs.TableLaws.{word-exact};

use crate::word::Word;
use lr_base::{
    BadWhat, FieldFault, NoMemory, Text, byte_field, fault_at, number_field, put_number_field,
};
use std::alloc::Global;

/// What stands in a table behind each name.
pub trait Stored: Sized + Drop + Clone {
    ghost format: { Format Self };

    /// Adds its bytes behind `out`.
    fn put(&self, out: &mut Text) -> Result<(), NoMemory>
        ensures ok { OnOk result (out.new ≡ out.old ++ format.written self.now) }
        ensures real { OnOk result (format.is_value self.now ≡ true) };

    /// The value that the bytes begin with, and the bytes behind it.
    fn field(alloc: Global, bytes: &[u8]) -> Result<(Self, &[u8]), FieldFault>
        ensures { Reads (format.field bytes.now) result };

    ghost exact: { IsExact format.is_value format.written format.field };

    // A clone is equal to its source.
    ghost cloned: { (value copied : Self) → Self.is_clone value copied → copied ≡ value };
}

impl Stored for u64 {
    ghost format = { number_format };

    fn put(&self, out: &mut Text) -> Result<(), NoMemory> {
        put_number_field(*self, out)
    }

    fn field(_alloc: Global, bytes: &[u8]) -> Result<(u64, &[u8]), FieldFault> {
        number_field(bytes)
    }

    ghost exact = { number_format-exact };

    ghost cloned = { λ value copied same. same };
}

impl Stored for Word {
    ghost format = { word_format };

    fn put(&self, out: &mut Text) -> Result<(), NoMemory> {
        out.push(self.size())?;
        out.extend(self.as_slice())
    }

    fn field(_alloc: Global, bytes: &[u8]) -> Result<(Word, &[u8]), FieldFault> {
        let (size, rest) = byte_field(bytes)?;
        if size < 1 {
            return Err(fault_at(bytes, BadWhat::Range));
        }
        if size > 16 {
            return Err(fault_at(bytes, BadWhat::Range));
        }
        text_field(size, rest)
    }

    ghost exact = { word-exact };

    ghost cloned = { λ value copied same. same };
}

// The word of this length that the bytes begin with, and the bytes behind it.
fn text_field(size: u8, bytes: &[u8]) -> Result<(Word, &[u8]), FieldFault>
    ensures { Reads (word_text_field size bytes.now) result }
{
    let size = usize::from(size);
    if bytes.len() < size {
        return Err(fault_at(bytes, BadWhat::Short));
    }
    match Word::read(&bytes[..size]) {
        Some(word) => Ok((word, &bytes[size..])),
        None => Err(fault_at(bytes, BadWhat::Value)),
    }
}
