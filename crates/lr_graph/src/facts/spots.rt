//! Sets of spots, as lists.
ghost use Rattle.std.specs.Prelude.{◌≡◌, [], IfOk, OnOk};
ghost use Rattle.lr_graph.specs.Sets.{only, ◌∪◌};
ghost use Rattle.lr_graph.specs.Told.{set_of};

use lr_base::{NoMemory, Rows, Spot};
use std::alloc::Global;
use std::marker::Model;

/// A set of spots.
#[derive(Drop)]
pub struct SpotList {
    spots: Rows<Spot>,
}

impl Model for SpotList {
    ghost use Rattle.std.specs.Prelude.{List};
    ghost use Rattle.lr_base.specs.declared.names.Spot.{Spot};

    ghost Value = { List Spot };

    ghost view = { λ list. list.spots };
}

impl SpotList {
    /// The set of no spot.
    pub fn new(alloc: Global) -> Self
        ensures { result ≡ [] }
    {
        SpotList {
            spots: Rows::new(alloc),
        }
    }

    /// The spots, in some order.
    pub fn as_slice(&self) -> &[Spot]
        ensures { result.now ≡ self.now }
    {
        self.spots.as_slice()
    }

    /// Whether a spot is in the set.
    pub fn has(&self, spot: Spot) -> bool
        ensures { result ≡ set_of self.now spot }
    {
        self.spots.as_slice().iter().any(|known| spot == *known)
    }

    /// Puts a spot into the set, where it isn't there.
    pub fn add(&mut self, spot: Spot) -> Result<(), NoMemory>
        ensures { OnOk result (set_of self.new ≡ set_of self.old ∪ only spot) }
    {
        if self.has(spot) {
            return Ok(());
        }
        self.spots.push(spot)
    }

    /// A set equal to this one.
    pub fn copy(&self) -> Result<Self, NoMemory>
        ensures { IfOk result (λ copied. copied ≡ self.now) }
    {
        let spots = self.spots.copy()?;
        Ok(SpotList { spots })
    }
}

/// Puts the spots of another set into a set.
pub fn add_all(set: &mut SpotList, other: &SpotList) -> Result<(), NoMemory>
    ensures { OnOk result (set_of set.new ≡ set_of set.old ∪ set_of other.now) }
{
    for spot in other.as_slice() {
        set.add(*spot)?;
    }
    Ok(())
}
