//! A vector that contracts see as the list of its elements.
ghost use Rattle.std.specs.Prelude.{◌≡◌, ◌≤◌, ◌+◌, [], ◌∷◌, ◌++◌, ◌↔◌, length, take, drop, IsTrue, IfOk, OnOk, OnErr};
ghost use Rattle.std.specs.Prelude.{slice_get};

use std::alloc::{AllocError, AllocFailed, Global};
use std::marker::Model;

/// There was no memory for what a call had to make.
#[derive(Clone, Copy, Debug, PartialEq, Eq)]
pub struct NoMemory;

impl From<AllocError> for NoMemory {
    fn from(_error: AllocError) -> NoMemory {
        NoMemory
    }
}

impl<T: Drop> From<AllocFailed<T>> for NoMemory {
    fn from(_failed: AllocFailed<T>) -> NoMemory {
        NoMemory
    }
}

/// A vector whose contracts speak of its elements alone, in order.
#[derive(Debug, Drop)]
pub struct Rows<T> {
    items: Vec<T>,
}

/// Bytes, mostly of text.
pub type Text = Rows<u8>;

impl<T> Model for Rows<T> {
    ghost use Rattle.std.specs.Prelude.{List};
    ghost use Rattle.std.specs.Coded.{coded_list};

    ghost Value = { List T };

    ghost coded = { coded_list T.code };

    ghost view = { λ rows. rows.items.items };
}

impl<T> Rows<T> {
    /// No rows. It takes memory when the first one comes.
    pub fn new(alloc: Global) -> Self
        ensures { result ≡ [] }
    {
        Rows {
            items: Vec::new(alloc),
        }
    }

    /// The rows, as a slice.
    pub fn as_slice(&self) -> &[T]
        ensures { result.now ≡ self.now }
    {
        self.items.as_slice()
    }

    /// How many there are.
    pub fn len(&self) -> usize
        ensures { result ≡ length self.now }
    {
        self.items.len()
    }

    /// Whether there is none.
    pub fn is_empty(&self) -> bool
        ensures { IsTrue result ↔ (self.now ≡ []) }
    {
        self.items.is_empty()
    }

    /// The rows, as a vector.
    pub fn into_vec(self) -> Vec<T>
        ensures { result.items ≡ self }
    {
        self.items
    }

    /// What makes room for more rows.
    pub fn allocator(&self) -> Global {
        *self.items.allocator()
    }
}

impl<T: Drop> Rows<T> {
    /// Adds a row behind the others.
    pub fn push(&mut self, item: T) -> Result<(), NoMemory>
        ensures ok { OnOk result (self.new ≡ self.old ++ item ∷ []) }
        ensures err { OnErr result (self.new ≡ self.old) }
    {
        self.items.push(item)?;
        Ok(())
    }

    /// Drops the rows behind the first so many, and keeps their room.
    pub fn truncate(&mut self, count: usize)
        ensures { self.new ≡ take count self.old }
    {
        self.items.truncate(count);
    }

    /// Drops all rows, and keeps their room.
    pub fn clear(&mut self)
        ensures { self.new ≡ [] }
    {
        self.items.clear();
    }
}

impl<T: Copy> Rows<T> {
    /// Rows equal to the slice's elements.
    pub fn from_slice(alloc: Global, items: &[T]) -> Result<Self, NoMemory>
        ensures { IfOk result (λ rows. rows ≡ items.now) }
    {
        let items = Vec::from_slice(alloc, items)?;
        Ok(Rows { items })
    }

    /// Adds the slice's elements behind the others.
    pub fn extend(&mut self, items: &[T]) -> Result<(), NoMemory>
        ensures ok { OnOk result (self.new ≡ self.old ++ items.now) }
        ensures err { OnErr result (self.new ≡ self.old) }
    {
        self.items.extend_from_slice(items)?;
        Ok(())
    }

    /// Puts the slice's elements in the place of as many, from an index on.
    pub fn overwrite(&mut self, at: usize, items: &[T])
        requires { at + length items.now ≤ length self.old }
        ensures { self.new ≡ take at self.old ++ (items.now ++ drop (at + length items.now) self.old) }
    {
        self.items.as_mut_slice()[at..at + items.len()].copy_from_slice(items);
    }

    /// The row at an index, from 0.
    pub fn get(&self, at: usize) -> Option<T>
        ensures { result ≡ slice_get self.now at }
    {
        self.items.as_slice().get(at).copied()
    }

    /// Rows equal to these.
    pub fn copy(&self) -> Result<Self, NoMemory>
        ensures { IfOk result (λ rows. rows ≡ self.now) }
    {
        Rows::from_slice(self.allocator(), self.as_slice())
    }
}
