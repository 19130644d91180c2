//! An index from calls to the spots of their items.
ghost use Rattle.std.specs.Prelude.{◌≡◌, ◌<◌, ◌≤◌, ◌^◌, [], not, filter, find, length, true, false, OnOk, OnErr, IfOk};
ghost use Rattle.std.specs.List.Sorted.{IsPartitionPoint};
ghost use Rattle.std.specs.Option.{option_map};
ghost use Rattle.lr_base.specs.Ascending.{cid_before, is_before as spot_is_before, same_cid};
ghost use Rattle.lr_base.specs.Insertion.{Ascends};
ghost use Rattle.lr_base.specs.Rules.{is_new as is_new_at};
ghost use Rattle.lr_log.specs.Calls.{entry_before, insert_entry};
ghost use Rattle.lr_log.specs.Items.{NoneAt};
ghost use Rattle.lr_log.specs.Rows.{same_spot};

use crate::received::is_new;
use lr_base::{Cid, NoMemory, Spot, Stamp};
use std::alloc::Global;
use std::marker::Model;

/// A call, and the spot of an item of it.
#[derive(Clone, Copy)]
pub struct CallSpot {
    pub cid: Cid,
    pub spot: Spot,
}

/// Calls with the spots of their items, seen as the list of these.
#[derive(Drop)]
pub struct CallIndex {
    entries: Vec<CallSpot>,
}

impl Model for CallIndex {
    ghost use Rattle.std.specs.Prelude.{List};
    ghost use Rattle.lr_log.specs.declared.calls.CallSpot.{CallSpot};

    ghost Value = { List CallSpot };

    ghost view = { λ index. index.entries.items };
}

impl CallIndex {
    /// No entries. It takes memory when the first one comes.
    pub fn new(alloc: Global) -> Self
        ensures { result ≡ [] }
    {
        CallIndex {
            entries: Vec::new(alloc),
        }
    }

    /// How many entries there are.
    pub fn len(&self) -> usize
        ensures count { result ≡ length self.now }
        ensures most { result < 2 ^ 63 }
    {
        self.entries.len()
    }

    /// The least spot of a call.
    pub fn first_of(&self, cid: Cid) -> Option<Spot>
        requires { Ascends entry_before self.now }
        ensures { result ≡ option_map (λ e. e.spot) (find (λ e. same_cid e.cid cid) self.now) }
    {
        let entries = self.entries.as_slice();
        let at = count_of_earlier(entries, cid);
        if at == entries.len() {
            return None;
        }
        if entries[at].cid != cid {
            return None;
        }
        Some(entries[at].spot)
    }

    /// Puts an entry at its place in the order of calls and then spots.
    pub fn insert(&mut self, entry: CallSpot) -> Result<(), NoMemory>
        requires in_order { Ascends entry_before self.old }
        requires free { NoneAt (λ e. e.spot) entry.spot self.old }
        ensures ok { OnOk result (self.new ≡ insert_entry entry self.old) }
        ensures err { OnErr result (self.new ≡ self.old) }
    {
        let at = count_before(self.entries.as_slice(), entry);
        self.entries.insert(at, entry)?;
        Ok(())
    }

    /// Takes out the entry of a spot.
    pub fn remove(&mut self, spot: Spot)
        ensures { self.new ≡ filter (λ e. not (same_spot e.spot spot)) self.old }
    {
        self.entries.retain(|entry| entry.spot != spot);
    }

    /// Drops the entries of items that are new where so many were received of each place.
    pub fn drop_new(&mut self, rep_ts: &Stamp)
        ensures { self.new ≡ filter (λ e. not (is_new_at rep_ts.now e.spot)) self.old }
    {
        self.entries.retain(|entry| !is_new(rep_ts, entry.spot));
    }

    /// Drops the entries of items that aren't new where so many were received of each place.
    pub fn drop_known(&mut self, floor: &Stamp)
        ensures { self.new ≡ filter (λ e. is_new_at floor.now e.spot) self.old }
    {
        self.entries.retain(|entry| is_new(floor, entry.spot));
    }

    /// The same entries.
    pub fn copy(&self, alloc: Global) -> Result<Self, NoMemory>
        ensures { IfOk result (λ copied. copied ≡ self.now) }
    {
        let entries = Vec::from_slice(alloc, self.entries.as_slice())?;
        Ok(CallIndex { entries })
    }
}

fn is_entry_before(first: CallSpot, second: CallSpot) -> bool
    ensures { result ≡ entry_before first second }
{
    first.cid.is_before(second.cid) || first.cid == second.cid && first.spot.is_before(second.spot)
}

// How many entries come before this one.
fn count_before(entries: &[CallSpot], entry: CallSpot) -> usize
    requires { Ascends entry_before entries.now }
    ensures most { result ≤ length entries.now }
    ensures point { IsPartitionPoint (λ e. entry_before e entry ≡ true) (λ e. entry_before e entry ≡ false)
        entries.now result }
{
    entries.partition_point(|other| is_entry_before(*other, entry))
}

// How many entries are of calls before this one.
fn count_of_earlier(entries: &[CallSpot], cid: Cid) -> usize
    requires { Ascends entry_before entries.now }
    ensures most { result ≤ length entries.now }
    ensures point { IsPartitionPoint (λ e. cid_before e.cid cid ≡ true) (λ e. cid_before e.cid cid ≡ false)
        entries.now result }
{
    entries.partition_point(|entry| entry.cid.is_before(cid))
}
