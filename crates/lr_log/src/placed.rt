//! Items that are kept place by place.
ghost use Rattle.std.specs.Prelude.{◌≡◌, ◌<◌, ◌≤◌, ◌^◌, false, true, List, [], not, filter, find, map, take, length};
ghost use Rattle.std.specs.Prelude.{OnOk, OnErr, IfOk};
ghost use Rattle.std.specs.Option.{option_copied, option_map};
ghost use Rattle.std.specs.List.{AllByRecursion, list_any};
ghost use Rattle.lr_base.specs.Ascending.{same_cid};
ghost use Rattle.lr_base.specs.Places.{AreInOrder, items_at};
ghost use Rattle.lr_base.specs.Rules.{is_new as is_new_at};
ghost use Rattle.lr_log.specs.Items.{NoneAt};
ghost use Rattle.lr_log.specs.Rows.{AreFree, AreRows, insert_item, insert_items, same_spot, together};

use crate::calls::{CallIndex, CallSpot};
use crate::row::Row;
use crate::spent::Test;
use crate::spotted::{AtSpot, Copied, Lends};
use lr_base::{Cid, NoMemory, Rows, Spot, Stamp};
use std::alloc::Global;
use std::marker::Model;

/// Items in the order of their spots, kept in a row for each place.
#[derive(Drop)]
pub struct Placed<T: AtSpot> {
    rows: Vec<Row<T>>,
    index: CallIndex,
}

impl<T: AtSpot> Model for Placed<T> {
    ghost use Rattle.std.specs.Prelude.{List};
    ghost use Rattle.std.specs.Coded.{coded_list};
    ghost use Rattle.lr_log.specs.Calls.{IsPlaced};
    ghost use Rattle.lr_log.specs.Rows.{together};

    ghost Value = { List T };

    ghost coded = { coded_list T.code };

    ghost view = { λ placed. together placed.rows.items };

    ghost invariant = { λ placed. IsPlaced T.spot_of T.cid_of placed.rows.items placed.index };
}

impl<T: AtSpot> Placed<T> {
    /// No items. It takes memory when the first one comes.
    pub fn new(alloc: Global) -> Self
        ensures { result ≡ [] }
    {
        Placed {
            rows: Vec::new(alloc),
            index: CallIndex::new(alloc),
        }
    }

    /// What makes room for more items.
    pub fn allocator(&self) -> Global {
        *self.rows.allocator()
    }

    /// The law that the items stand in the order of their spots.
    pub fn keeps(&self)
        ensures { AreInOrder T.spot_of self.now }
    {
        let _ = &self.rows;
    }

    /// How many there are.
    pub fn len(&self) -> usize
        ensures count { result ≡ length self.now }
        ensures most { result < 2 ^ 63 }
    {
        self.index.len()
    }

    /// A number that is above each item's place.
    pub fn places(&self) -> usize
        ensures { AllByRecursion (λ x. (T.spot_of x).place < result) self.now }
    {
        self.rows.len()
    }

    /// The items of a place.
    pub fn at_place(&self, place: usize) -> &[T]
        ensures { result.now ≡ items_at T.spot_of place self.now }
    {
        if place < self.rows.len() {
            return self.rows[place].as_slice();
        }
        &[]
    }

    /// The first item of a call.
    pub fn first_of(&self, cid: Cid) -> Option<&T>
        ensures { option_copied result ≡ find (λ x. same_cid (T.cid_of x) cid) self.now }
    {
        let spot = self.index.first_of(cid)?;
        let place = spot.place as usize;
        if place < self.rows.len() {
            return self.rows[place].at(spot);
        }
        None
    }

    /// Whether there is an item of a call.
    pub fn has(&self, cid: Cid) -> bool
        ensures { result ≡ list_any (λ x. same_cid (T.cid_of x) cid) self.now }
    {
        self.first_of(cid).is_some()
    }

    /// Puts an item at its place in the order of spots.
    pub fn insert(&mut self, item: T) -> Result<(), NoMemory>
        requires { NoneAt T.spot_of (T.spot_of item) self.old }
        ensures ok { OnOk result (self.new ≡ insert_item T.spot_of item self.old) }
        ensures err { OnErr result (self.new ≡ self.old) }
    {
        let entry = CallSpot {
            cid: item.cid(),
            spot: item.spot(),
        };
        self.index.insert(entry)?;
        let Ok(()) = put(&mut self.rows, item) else {
            self.index.remove(entry.spot);
            return Err(NoMemory);
        };
        Ok(())
    }

    /// Takes out what stands at a spot.
    pub fn remove(&mut self, spot: Spot)
        ensures { self.new ≡ filter (λ x. not (same_spot (T.spot_of x) spot)) self.old }
    {
        remove_at(&mut self.rows, spot);
        self.index.remove(spot);
    }

    /// Drops the items that are new where so many were received of each place.
    pub fn drop_new(&mut self, rep_ts: &Stamp)
        ensures { self.new ≡ filter (λ x. not (is_new_at rep_ts.now (T.spot_of x))) self.old }
    {
        drop_new_of(&mut self.rows, rep_ts);
        self.index.drop_new(rep_ts);
    }

    /// Drops the items that pass a test. Where none does, it only looks at them.
    pub fn drop_that<P: Test<T>>(&mut self, test: &P)
        ensures { self.new ≡ filter (λ x. not (P.passes test.now x)) self.old }
    {
        while let Some(spot) = first_that(self.rows.as_slice(), test) {
            self.remove(spot);
        }
    }

    /// Drops the items that aren't new where so many were received of each place: those at the front of each row. Where
    /// there are none, it looks at one item a place.
    pub fn drop_known(&mut self, floor: &Stamp)
        ensures { self.new ≡ filter (λ x. is_new_at floor.now (T.spot_of x)) self.old }
    {
        if !has_known(self.rows.as_slice(), floor) {
            return;
        }
        drop_known_of(&mut self.rows, floor);
        self.index.drop_known(floor);
    }

    /// The items' spots, in their order.
    pub fn spots(&self) -> Result<Rows<Spot>, NoMemory>
        ensures { IfOk result (λ spots. spots ≡ map T.spot_of self.now) }
    {
        let mut spots = Rows::new(self.allocator());
        for row in &self.rows {
            row.list_spots(&mut spots)?;
        }
        Ok(spots)
    }
}

impl<T: Copied> Placed<T> {
    /// The same items.
    pub fn copy(&self) -> Result<Self, NoMemory>
        ensures { IfOk result (λ copied. copied ≡ self.now) }
    {
        let rows = copy_rows(self.rows.as_slice(), self.allocator())?;
        let index = self.index.copy(self.allocator())?;
        Ok(Placed { rows, index })
    }

    /// Copies of the items, in their order.
    pub fn copy_items(&self) -> Result<Rows<T>, NoMemory>
        ensures { IfOk result (λ items. items ≡ self.now) }
    {
        let mut items = Rows::new(self.allocator());
        for row in &self.rows {
            row.list_items(&mut items)?;
        }
        Ok(items)
    }

    /// Copies of the items that are new where so many were received of each place, in their order.
    pub fn copy_new(&self, theirs: &Stamp) -> Result<Rows<T>, NoMemory>
        ensures { IfOk result (λ items. items ≡ filter (λ x. is_new_at theirs.now (T.spot_of x)) self.now) }
    {
        let mut items = Rows::new(self.allocator());
        for row in &self.rows {
            row.list_new(theirs, &mut items)?;
        }
        Ok(items)
    }
}

impl<T: Copied> Placed<T> {
    /// Puts copies of these items in, or none of them.
    pub fn insert_all<R: Lends<T>>(&mut self, items: &[R]) -> Result<(), NoMemory>
        requires in_order { AreInOrder T.spot_of (map R.lent items.now) }
        requires free { AreFree T.spot_of (map R.lent items.now) self.old }
        ensures ok { OnOk result (self.new ≡ insert_items T.spot_of (map R.lent items.now) self.old) }
        ensures err { OnErr result (self.new ≡ self.old) }
    {
        for at in 0..items.len() {
            let Ok(()) = self.insert_copy(items[at].lend()) else {
                self.take_back(items, at);
                return Err(NoMemory);
            };
        }
        Ok(())
    }

    fn insert_copy(&mut self, item: &T) -> Result<(), NoMemory>
        requires { NoneAt T.spot_of (T.spot_of item.now) self.old }
        ensures ok { OnOk result (self.new ≡ insert_item T.spot_of item.now self.old) }
        ensures err { OnErr result (self.new ≡ self.old) }
    {
        let copy = item.copied()?;
        self.insert(copy)
    }

    /// Takes out the first so many of these items, which were put in one by one.
    pub fn take_back<R: Lends<T>>(&mut self, items: &[R], mut count: usize)
        requires within { count ≤ length items.now }
        requires in_order { AreInOrder T.spot_of (map R.lent items.now) }
        ensures { (first : List T) → AreFree T.spot_of (map R.lent items.now) first
            → self.old ≡ insert_items T.spot_of (take count (map R.lent items.now)) first → self.new ≡ first }
    {
        while count > 0 {
            count -= 1;
            self.remove(items[count].lend().spot());
        }
    }
}

// Makes empty rows, up to that of this place.
fn make_row<T: AtSpot>(rows: &mut Vec<Row<T>>, place: usize) -> Result<(), NoMemory>
    requires { AreRows T.spot_of 0 rows.old.items }
    ensures ok { OnOk result (place < length rows.new.items) }
    ensures rows { AreRows T.spot_of 0 rows.new.items }
    ensures same { together rows.new.items ≡ together rows.old.items }
{
    let alloc = *rows.allocator();
    while rows.len() <= place {
        rows.push(Row::new(alloc))?;
    }
    Ok(())
}

// Puts an item into the row of its place.
fn put<T: AtSpot>(rows: &mut Vec<Row<T>>, item: T) -> Result<(), NoMemory>
    requires rows { AreRows T.spot_of 0 rows.old.items }
    requires free { NoneAt T.spot_of (T.spot_of item) (together rows.old.items) }
    ensures ok { OnOk result (together rows.new.items ≡ insert_item T.spot_of item (together rows.old.items)) }
    ensures err { OnErr result (together rows.new.items ≡ together rows.old.items) }
    ensures rows { AreRows T.spot_of 0 rows.new.items }
{
    let place = item.spot().place as usize;
    make_row(rows, place)?;
    let row = &mut rows[place];
    row.insert(item)?;
    Ok(())
}

fn remove_at<T: AtSpot>(rows: &mut Vec<Row<T>>, spot: Spot)
    ensures { rows.new.items ≡ map (λ row. filter (λ x. not (same_spot (T.spot_of x) spot)) row) rows.old.items }
{
    for row in rows.iter_mut() {
        row.remove(spot);
    }
}

fn drop_new_of<T: AtSpot>(rows: &mut Vec<Row<T>>, rep_ts: &Stamp)
    ensures { rows.new.items
        ≡ map (λ row. filter (λ x. not (is_new_at rep_ts.now (T.spot_of x))) row) rows.old.items }
{
    for row in rows.iter_mut() {
        row.drop_new(rep_ts);
    }
}

// The spot of the first item that passes a test.
fn first_that<T: AtSpot, P: Test<T>>(rows: &[Row<T>], test: &P) -> Option<Spot>
    ensures { result ≡ option_map T.spot_of (find (P.passes test.now) (together rows.now)) }
{
    for row in rows {
        if let Some(spot) = row.first_that(test) {
            return Some(spot);
        }
    }
    None
}

// Whether a row begins with an item that isn't new where so many were received of each place.
fn has_known<T: AtSpot>(rows: &[Row<T>], floor: &Stamp) -> bool
    requires { AreRows T.spot_of 0 rows.now }
    ensures { result ≡ false → AllByRecursion (λ x. is_new_at floor.now (T.spot_of x) ≡ true) (together rows.now) }
{
    for row in rows {
        if row.begins_known(floor) {
            return true;
        }
    }
    false
}

fn drop_known_of<T: AtSpot>(rows: &mut Vec<Row<T>>, floor: &Stamp)
    ensures { rows.new.items ≡ map (λ row. filter (λ x. is_new_at floor.now (T.spot_of x)) row) rows.old.items }
{
    for row in rows.iter_mut() {
        row.drop_known(floor);
    }
}

fn copy_rows<T: Copied>(rows: &[Row<T>], alloc: Global) -> Result<Vec<Row<T>>, NoMemory>
    ensures { IfOk result (λ copied. copied.items ≡ rows.now) }
{
    let mut copied = Vec::with_capacity(alloc, rows.len())?;
    for row in rows {
        copied.push(row.copy(alloc)?)?;
    }
    Ok(copied)
}
