//! Lists that keep the newest first.
ghost use Rattle.std.specs.Prelude.{◌≡◌, [], ◌∷◌, OnOk};

use lr_base::NoMemory;
use std::alloc::Global;
use std::marker::Model;

/// What came, the newest first.
#[derive(Drop)]
pub struct Newest<T> {
    items: Vec<T>,
}

impl<T> Model for Newest<T> {
    ghost use Rattle.std.specs.Prelude.{List};
    ghost use Rattle.std.specs.Coded.{coded_list};

    ghost Value = { List T };

    ghost coded = { coded_list T.code };

    ghost view = { λ newest. newest.items.items };
}

impl<T> Newest<T> {
    /// Nothing came yet.
    pub fn new(alloc: Global) -> Self
        ensures { result ≡ [] }
    {
        Newest {
            items: Vec::new(alloc),
        }
    }

    /// What came, as a slice.
    pub fn as_slice(&self) -> &[T]
        ensures { result.now ≡ self.now }
    {
        self.items.as_slice()
    }
}

impl<T: Drop> Newest<T> {
    /// Puts what came now before all others.
    pub fn put(&mut self, item: T) -> Result<(), NoMemory>
        ensures { OnOk result (self.new ≡ item ∷ self.old) }
    {
        self.items.insert(0, item)?;
        Ok(())
    }
}
