//! The law of tables in bytes. This function does nothing: its contract is the law.
ghost use Rattle.lr_base.specs.Bytes.{IsExact};
ghost use Rattle.lr_words.specs.Tables.{is_table, table_bytes, table_field};

use crate::stored::Stored;

/// What is written of a table is read as it, and what is read of bytes is written as they are.
pub fn tables_are_exact<V: Stored>()
    ensures { IsExact (is_table V.format) (table_bytes V.format) (table_field V.format) }
{}
