//! What each replica told that it has received.
ghost use Rattle.std.specs.Prelude.{◌≡◌, ◌<◌, ◌≤◌, ◌+◌, get_or, length, not, replicate, set, []};
ghost use Rattle.lr_base.specs.Config.{IsValid};
ghost use Rattle.lr_base.specs.Rules.{is_new as is_new_at, known_in};
ghost use Rattle.lr_base.specs.Stamps.{join};

use crate::received::is_new;
use arrayvec::ArrayVec;
use lr_base::{Config, MOST_PARTS, Spot, Stamp};
use std::marker::Model;

/// One stamp for each replica: what it told last that it has received, and of the replica itself what was received
/// there. No call takes memory.
#[derive(Drop)]
pub struct Table {
    me: u8,
    rows: ArrayVec<Stamp, MOST_PARTS>,
}

impl Model for Table {
    ghost use Rattle.std.specs.Prelude.{get_or, []};
    ghost use Rattle.lr_log.specs.Tables.{IsTold, Told};

    ghost Value = { Told };

    ghost view = { λ it. record { me = it.me; own = get_or it.rows.items it.me []; rows = it.rows.items } };

    ghost invariant = { λ it. IsTold (record {
      me = it.me;
      own = get_or it.rows.items it.me [];
      rows = it.rows.items;
    }) };
}

impl Table {
    ghost use Rattle.lr_base.specs.declared.names.Spot.{Spot};
    ghost use Rattle.lr_log.specs.Tables.{IsTold};

    /// The table of a replica at which nothing has happened.
    pub fn new(config: Config, me: u8) -> Table
        requires valid { IsValid config }
        requires own_place { me < config.replicas }
        ensures me { result.me ≡ me }
        ensures own { result.own ≡ replicate (config.replicas + 1) 0 }
        ensures rows { result.rows ≡ replicate config.replicas (replicate (config.replicas + 1) 0) }
    {
        let mut rows = ArrayVec::new();
        for _ in 0..config.replicas {
            rows.push(Stamp::zero(config.replicas + 1));
        }
        Table { me, rows }
    }

    /// The law that the replica's own row is among the rows, and that each has a part for each replica and one more.
    pub fn keeps(&self)
        ensures { IsTold self.now }
    {
        let _ = &self.rows;
    }

    /// What was received at the replica itself.
    pub fn own(&self) -> &Stamp
        ensures own { result.now ≡ self.now.own }
        ensures parts { length result.now ≡ length self.now.rows + 1 }
    {
        &self.rows[self.me as usize]
    }

    /// What a replica told.
    pub fn row(&self, replica: u8) -> &Stamp
        requires { replica < length self.now.rows }
        ensures { result.now ≡ get_or self.now.rows replica [] }
    {
        &self.rows[replica as usize]
    }

    /// What each replica told.
    pub fn rows(&self) -> &[Stamp]
        ensures { result.now ≡ self.now.rows }
    {
        self.rows.as_slice()
    }

    /// Joins a stamp to what a replica told.
    pub fn merge(&mut self, replica: u8, stamp: &Stamp)
        requires within { replica < length self.old.rows }
        requires parts { length stamp.now ≡ length self.old.rows + 1 }
        ensures rows { self.new.rows
            ≡ set self.old.rows replica (join (get_or self.old.rows replica []) stamp.now) }
        ensures me { self.new.me ≡ self.old.me }
    {
        self.rows[replica as usize].join(stamp);
    }

    /// Puts a stamp in the place of what a replica told.
    pub fn put(&mut self, replica: u8, row: Stamp)
        requires within { replica < length self.old.rows }
        requires parts { length row ≡ length self.old.rows + 1 }
        ensures rows { self.new.rows ≡ set self.old.rows replica row }
        ensures me { self.new.me ≡ self.old.me }
    {
        self.rows[replica as usize] = row;
    }

    /// Puts a stamp in the place of what was received at the replica itself.
    pub fn put_own(&mut self, row: Stamp)
        requires { length row ≡ length self.old.rows + 1 }
        ensures { self.new ≡ record self.old { own = row; rows = set self.old.rows self.old.me row } }
    {
        self.rows[self.me as usize] = row;
    }

    /// Whether each replica has the item of this spot, by what it told.
    pub fn known_everywhere(&self, spot: Spot) -> bool
        ensures { result ≡ known_in self.now.rows spot }
    {
        for row in self.rows.as_slice() {
            if is_new(row, spot) {
                return false;
            }
        }
        true
    }

    /// The least part of each place over the rows: an item is new by it where it is new for some replica.
    pub fn floor(&self) -> Stamp
        ensures floor { (spot : Spot) → is_new_at result spot ≡ not (known_in self.now.rows spot) }
        ensures parts { length result ≡ length self.now.rows + 1 }
    {
        let mut floor = self.rows[0].copy();
        for row in self.rows.as_slice() {
            floor.meet(row);
        }
        floor
    }

    /// An equal table.
    pub fn copy(&self) -> Table
        ensures { result ≡ self.now }
    {
        let mut rows = ArrayVec::new();
        for row in self.rows.as_slice() {
            rows.push(row.copy());
        }
        Table { me: self.me, rows }
    }
}
