//! The items of one place.
ghost use Rattle.std.specs.Prelude.{ℕ, ◌≡◌, ◌≤◌, ◌++◌, [], not, filter, find, map, length, false, true};
ghost use Rattle.std.specs.Prelude.{OnOk, OnErr, IfOk};
ghost use Rattle.std.specs.List.Sorted.{IsPartitionPoint};
ghost use Rattle.std.specs.Option.{option_copied, option_map};
ghost use Rattle.lr_base.specs.Ascending.{is_before as spot_is_before};
ghost use Rattle.lr_base.specs.Places.{AreInOrder};
ghost use Rattle.lr_base.specs.Rules.{is_new as is_new_at};
ghost use Rattle.lr_log.specs.Items.{NoneAt};
ghost use Rattle.lr_log.specs.Rows.{IsRow, insert_item, same_spot};
ghost use Rattle.std.specs.List.{AllByRecursion};

use crate::received::is_new;
use crate::spent::Test;
use crate::spotted::{AtSpot, Copied};
use lr_base::{NoMemory, Rows, Spot, Stamp};
use std::alloc::Global;
use std::marker::Model;

/// Items, seen as their list.
#[derive(Drop)]
pub struct Row<T> {
    items: Vec<T>,
}

impl<T> Model for Row<T> {
    ghost use Rattle.std.specs.Prelude.{List};
    ghost use Rattle.std.specs.Coded.{coded_list};

    ghost Value = { List T };

    ghost coded = { coded_list T.code };

    ghost view = { λ row. row.items.items };
}

impl<T: AtSpot> Row<T> {
    /// No items. It takes memory when the first one comes.
    pub fn new(alloc: Global) -> Self
        ensures { result ≡ [] }
    {
        Row {
            items: Vec::new(alloc),
        }
    }

    /// The items, as a slice.
    pub fn as_slice(&self) -> &[T]
        ensures { result.now ≡ self.now }
    {
        self.items.as_slice()
    }

    /// Puts an item at its place in the order of spots.
    pub fn insert(&mut self, item: T) -> Result<(), NoMemory>
        requires in_order { AreInOrder T.spot_of self.old }
        requires free { NoneAt T.spot_of (T.spot_of item) self.old }
        ensures ok { OnOk result (self.new ≡ insert_item T.spot_of item self.old) }
        ensures err { OnErr result (self.new ≡ self.old) }
    {
        let at = count_before(self.items.as_slice(), item.spot());
        self.items.insert(at, item)?;
        Ok(())
    }

    /// Takes out what stands at a spot.
    pub fn remove(&mut self, spot: Spot)
        ensures { self.new ≡ filter (λ x. not (same_spot (T.spot_of x) spot)) self.old }
    {
        self.items.retain(|item| item.spot() != spot);
    }

    /// Drops the items that are new where so many were received of each place.
    pub fn drop_new(&mut self, rep_ts: &Stamp)
        ensures { self.new ≡ filter (λ x. not (is_new_at rep_ts.now (T.spot_of x))) self.old }
    {
        self.items.retain(|item| !is_new(rep_ts, item.spot()));
    }

    /// The spot of the first item that passes a test.
    pub fn first_that<P: Test<T>>(&self, test: &P) -> Option<Spot>
        ensures { result ≡ option_map T.spot_of (find (P.passes test.now) self.now) }
    {
        for item in self.as_slice() {
            if test.passes(item) {
                return Some(item.spot());
            }
        }
        None
    }

    /// Drops the items that aren't new where so many were received of each place.
    pub fn drop_known(&mut self, floor: &Stamp)
        ensures { self.new ≡ filter (λ x. is_new_at floor.now (T.spot_of x)) self.old }
    {
        self.items.retain(|item| is_new(floor, item.spot()));
    }

    /// Whether the first item isn't new where so many were received of each place. Where it is, all are.
    pub fn begins_known(&self, floor: &Stamp) -> bool
        requires { (place : ℕ) × IsRow T.spot_of place self.now }
        ensures { result ≡ false → AllByRecursion (λ x. is_new_at floor.now (T.spot_of x) ≡ true) self.now }
    {
        let items = self.items.as_slice();
        if items.is_empty() {
            return false;
        }
        !is_new(floor, items[0].spot())
    }

    /// What stands at a spot.
    pub fn at(&self, spot: Spot) -> Option<&T>
        requires { AreInOrder T.spot_of self.now }
        ensures { option_copied result ≡ find (λ x. same_spot (T.spot_of x) spot) self.now }
    {
        let items = self.items.as_slice();
        let at = count_before(items, spot);
        if at == items.len() {
            return None;
        }
        if items[at].spot() != spot {
            return None;
        }
        Some(&items[at])
    }

    /// Adds the items' spots behind others.
    pub fn list_spots(&self, spots: &mut Rows<Spot>) -> Result<(), NoMemory>
        ensures { OnOk result (spots.new ≡ spots.old ++ map T.spot_of self.now) }
    {
        for item in self.as_slice() {
            spots.push(item.spot())?;
        }
        Ok(())
    }
}

impl<T: Copied> Row<T> {
    /// A row equal to this one.
    pub fn copy(&self, alloc: Global) -> Result<Self, NoMemory>
        ensures { IfOk result (λ copied. copied ≡ self.now) }
    {
        let mut items = Vec::with_capacity(alloc, self.items.len())?;
        for item in self.as_slice() {
            items.push(item.copied()?)?;
        }
        Ok(Row { items })
    }

    /// Adds copies of the items behind others.
    pub fn list_items(&self, items: &mut Rows<T>) -> Result<(), NoMemory>
        ensures { OnOk result (items.new ≡ items.old ++ self.now) }
    {
        for item in self.as_slice() {
            items.push(item.copied()?)?;
        }
        Ok(())
    }

    /// Adds copies of the items behind others that are new where so many were received of each place.
    pub fn list_new(&self, theirs: &Stamp, items: &mut Rows<T>) -> Result<(), NoMemory>
        ensures { OnOk result (items.new
            ≡ items.old ++ filter (λ x. is_new_at theirs.now (T.spot_of x)) self.now) }
    {
        for item in self.as_slice() {
            if is_new(theirs, item.spot()) {
                items.push(item.copied()?)?;
            }
        }
        Ok(())
    }
}

// How many items stand before a spot.
fn count_before<T: AtSpot>(items: &[T], spot: Spot) -> usize
    requires { AreInOrder T.spot_of items.now }
    ensures most { result ≤ length items.now }
    ensures point { IsPartitionPoint (λ x. spot_is_before (T.spot_of x) spot ≡ true)
        (λ x. spot_is_before (T.spot_of x) spot ≡ false) items.now result }
{
    items.partition_point(|item| item.spot().is_before(spot))
}
