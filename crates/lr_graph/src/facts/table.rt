//! What is kept by number.
ghost use Rattle.std.specs.Prelude.{◌≡◌, [], Some, OnOk};
ghost use Rattle.std.specs.Option.{option_copied};
ghost use Rattle.lr_graph.specs.Sets.{put_at};
ghost use Rattle.lr_graph.specs.Tables.{entry_at};

use crate::facts::entry::Entry;
use lr_base::NoMemory;
use std::alloc::Global;
use std::marker::Model;

/// A value for each of some numbers.
#[derive(Drop)]
pub struct Table<T: Drop> {
    entries: Vec<Entry<T>>,
}

impl<T: Drop> Model for Table<T> {
    ghost use Rattle.std.specs.Prelude.{List};
    ghost use Rattle.lr_graph.specs.declared.facts.entry.Entry.{Entry};

    ghost Value = { List (Entry T) };

    ghost view = { λ table. table.entries.items };
}

impl<T: Drop> Table<T> {
    /// A table with no value.
    pub fn new(alloc: Global) -> Self
        ensures { result ≡ [] }
    {
        Table {
            entries: Vec::new(alloc),
        }
    }

    /// The value of a number, if it has one.
    pub fn get(&self, key: u32) -> Option<&T>
        ensures { option_copied result ≡ entry_at self.now key }
    {
        let entry = self
            .entries
            .as_slice()
            .iter()
            .find(|entry| entry.key == key)?;
        Some(&entry.value)
    }

    /// Gives a number a value, in the place of the one that it had.
    pub fn put(&mut self, key: u32, value: T) -> Result<(), NoMemory>
        ensures { OnOk result (entry_at self.new ≡ put_at key (Some value) (entry_at self.old)) }
    {
        self.entries.retain(|entry| entry.key != key);
        self.entries.insert(0, Entry { key, value })?;
        Ok(())
    }
}
