//! Tables: values by word.
ghost use Rattle.std.specs.Prelude.{◌≡◌, ◌+◌, ◌%◌, ◌^◌, ◌++◌, true, option_copied, unwrap_or};
ghost use Rattle.std.specs.Prelude.{IfOk, OnOk, OnErr, IsOk, IsSome};
ghost use Rattle.std.specs.FinMap as map;
ghost use Rattle.std.specs.List.{list_all};
ghost use Rattle.lr_base.specs.Bytes.{Reads};
ghost use Rattle.lr_words.specs.Tables.{is_table, table_bytes, table_field};
ghost use Rattle.lr_words.specs.Word.{is_word};
ghost use Rattle.lr_words.specs.Formats.{with_word, words_of, words_text};

use crate::entries;
use crate::lists::WordList;
use crate::stored::Stored;
use crate::word::Word;
use lr_base::{FieldFault, NoMemory, Text, count_field, put_count_field, put_number};
use std::alloc::Global;
use std::collections::BTreeMap;
use std::marker::Model;

/// Values by word.
#[derive(Drop)]
pub struct Table<V> {
    entries: BTreeMap<Word, V>,
    // What makes room for copies.
    alloc: Global,
}

impl<V> Model for Table<V> {
    ghost use Rattle.std.specs.Ordering.{nat_cmp};
    ghost use Rattle.std.specs.Cmp.Lexicographic.{slice_cmp};
    ghost use Rattle.std.specs.Coded.{coded_ℕ, coded_list};
    ghost use Rattle.std.specs.FinMap as map;
    ghost use Rattle.std.specs.List.{list_all};

    ghost Value = { map.FinMap (slice_cmp nat_cmp) V };

    ghost coded = { map.code (coded_list coded_ℕ) V.code };

    ghost view = { λ table. map.from_entries table.entries.entries };
}

impl<V> Table<V> {
    /// A table with no names.
    pub fn new(alloc: Global) -> Self
        ensures { result ≡ map.empty }
    {
        Table {
            entries: BTreeMap::new(alloc),
            alloc,
        }
    }

    /// The value of a name, if it has one.
    pub fn get(&self, name: &Word) -> Option<&V>
        ensures { option_copied result ≡ map.get self.now name.now }
    {
        self.entries.get(name)
    }
}

impl<V: Drop> Table<V> {
    /// Sets the value of a name.
    pub fn insert(&mut self, name: Word, value: V) -> Result<(), NoMemory>
        ensures ok { OnOk result (self.new ≡ map.insert self.old name value) }
        ensures err { OnErr result (self.new ≡ self.old) }
    {
        entries::insert(&mut self.entries, name, value)
    }

    /// Takes a name and its value out.
    pub fn remove(&mut self, name: &Word)
        ensures { self.new ≡ map.remove self.old name.now }
    {
        self.entries.remove(name);
    }
}

impl<V: Stored> Table<V> {
    /// A table equal to this one.
    pub fn copy(&self) -> Result<Self, NoMemory>
        ensures { IfOk result (λ copied. copied ≡ self.now) }
    {
        let alloc = self.alloc;
        let entries = entries::copied(&self.entries)?;
        Ok(Table { entries, alloc })
    }

    /// Adds the table's bytes behind `out`.
    pub fn put(&self, out: &mut Text) -> Result<(), NoMemory>
        ensures ok { OnOk result (out.new ≡ out.old ++ table_bytes V.format self.now) }
        ensures real { OnOk result (is_table V.format self.now ≡ true) }
    {
        put_count_field(self.entries.len() as u64, out)?;
        entries::put_entries(&self.entries, out)
    }

    /// The table that the bytes begin with, and the bytes behind it.
    pub fn field(alloc: Global, bytes: &[u8]) -> Result<(Self, &[u8]), FieldFault>
        ensures { Reads (table_field V.format bytes.now) result }
    {
        let (count, rest) = count_field(bytes)?;
        match entries::entries_field(alloc, count, rest) {
            Ok((entries, end)) => Ok((Table { entries, alloc }, end)),
            Err(fault) => Err(fault),
        }
    }
}

impl Table<u64> {
    /// Adds to the number of a name, modulo 2^64, where a name without one counts as 0.
    pub fn add(&mut self, name: &Word, amount: u64) -> Result<(), NoMemory>
        ensures ok { OnOk result (self.new
            ≡ map.insert self.old name.now ((unwrap_or (map.get self.old name.now) 0 + amount) % 2 ^ 64)) }
        ensures known { IsSome (map.get self.old name.now) → IsOk result }
        ensures err { OnErr result (self.new ≡ self.old) }
    {
        match self.entries.get_mut(name) {
            Some(number) => {
                *number = number.wrapping_add(amount);
                Ok(())
            }
            None => entries::insert(&mut self.entries, name.copy(), amount),
        }
    }
}

impl Table<WordList> {
    /// Adds a word to those of a name.
    pub fn add_word(&mut self, name: &Word, word: Word) -> Result<(), NoMemory>
        ensures ok { OnOk result (self.new ≡ with_word self.old name.now word) }
        ensures err { OnErr result (self.new ≡ self.old) }
    {
        match self.entries.get_mut(name) {
            Some(words) => words.add(word),
            None => {
                let words = WordList::of(self.alloc, word)?;
                entries::insert(&mut self.entries, name.copy(), words)
            }
        }
    }

    /// Adds the count of a name's words behind `out`, and then each with a space before it.
    pub fn put_words(&self, name: &Word, out: &mut Text) -> Result<(), NoMemory>
        ensures ok { OnOk result (out.new ≡ out.old ++ words_text (words_of self.now name.now)) }
        ensures real { OnOk result (list_all is_word (words_of self.now name.now) ≡ true) }
    {
        match self.get(name) {
            Some(words) => words.put_text(out),
            None => put_number(0, out),
        }
    }
}
