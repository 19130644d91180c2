//! What a replica received and keeps: updates and acknowledgements.
ghost use Rattle.std.specs.Prelude.{◌≡◌, ◌↔◌, ◌<◌, ◌+◌, not, IsTrue, IfOk, OnOk, OnErr};
ghost use Rattle.std.specs.Prelude.{[], length, filter, find, map};
ghost use Rattle.std.specs.List.{AllByRecursion};
ghost use Rattle.std.specs.Option.{option_map, option_copied};
ghost use Rattle.lr_base.specs.Ascending.{same_cid};
ghost use Rattle.lr_base.specs.Limits.{log_room};
ghost use Rattle.lr_base.specs.Places.{items_at};
ghost use Rattle.lr_base.specs.Rules.{is_new as is_new_at, is_spent, new_acks, new_updates, unknown_updates};
ghost use Rattle.lr_base.specs.Rules.{insert_ack, insert_acks as all_acks_inserted};
ghost use Rattle.lr_base.specs.Rules.{insert_update, insert_updates as all_updates_inserted};
ghost use Rattle.lr_log.specs.Items.{CanTake, IsFree, IsOrdered, Items, item_count, items_of};

use crate::placed::Placed;
use crate::spent::Spent;
use crate::table::Table;
use lr_base::lr_service::Operation;
use lr_base::{Cid, LOG_ROOM, LogAck, LogUpdate, NoMemory, Places, Rows, Spot, Stamp};
use std::alloc::Global;
use std::marker::Model;

/// The logged updates and acknowledgements, each list in order of place and then number.
#[derive(Drop)]
pub struct Log<O: Drop> {
    updates: Placed<LogUpdate<O>>,
    acks: Placed<LogAck>,
}

impl<O: Drop> Model for Log<O> {
    ghost use Rattle.lr_log.specs.Items.{IsOrdered, Items, items_of};

    ghost Value = { Items O };

    ghost view = { λ log. items_of log.updates log.acks };

    ghost invariant = { λ log. IsOrdered (items_of log.updates log.acks) };
}

impl<O: Drop> Log<O> {
    /// Nothing logged.
    pub fn new(alloc: Global) -> Self
        ensures updates { result.updates ≡ [] }
        ensures acks { result.acks ≡ [] }
    {
        Log {
            updates: Placed::new(alloc),
            acks: Placed::new(alloc),
        }
    }

    /// The law that the items stand in their order.
    pub fn keeps(&self)
        ensures { IsOrdered self.now }
    {
        let _ = &self.updates;
    }

    /// What makes room for more items.
    pub fn allocator(&self) -> Global {
        self.updates.allocator()
    }

    /// A number that is above the place of each acknowledgement.
    pub fn ack_places(&self) -> usize
        ensures { AllByRecursion (λ a. a.spot.place < result) self.now.acks }
    {
        self.acks.places()
    }

    /// The acknowledgements of one place, in the order of their numbers.
    pub fn acks_of(&self, place: usize) -> &[LogAck]
        ensures { result.now ≡ items_at (λ a. a.spot) place self.now.acks }
    {
        self.acks.at_place(place)
    }

    /// The spots of the logged updates, in their order.
    pub fn update_spots(&self) -> Result<Rows<Spot>, NoMemory>
        ensures { IfOk result (λ spots. spots ≡ map (λ u. u.spot) self.now.updates) }
    {
        self.updates.spots()
    }

    /// The spots of the logged acknowledgements, in their order.
    pub fn ack_spots(&self) -> Result<Rows<Spot>, NoMemory>
        ensures { IfOk result (λ spots. spots ≡ map (λ a. a.spot) self.now.acks) }
    {
        self.acks.spots()
    }

    /// Copies of the logged acknowledgements, in the order of their spots.
    pub fn copy_acks(&self) -> Result<Rows<LogAck>, NoMemory>
        ensures { IfOk result (λ copied. copied ≡ self.now.acks) }
    {
        self.acks.copy_items()
    }

    /// Copies of the logged acknowledgements that are new where so many were received of each place, in the order of
    /// their spots.
    pub fn copy_new_acks(&self, theirs: &Stamp) -> Result<Rows<LogAck>, NoMemory>
        ensures { IfOk result (λ copied. copied ≡ new_acks theirs.now self.now.acks) }
    {
        self.acks.copy_new(theirs)
    }

    /// How many items are logged.
    pub fn len(&self) -> usize
        ensures { result ≡ item_count self.now }
    {
        self.updates.len() + self.acks.len()
    }

    /// Whether one more item may be logged.
    pub fn has_room(&self) -> bool
        ensures { IsTrue result ↔ (item_count self.now < log_room) }
    {
        let updates = self.updates.len();
        updates < LOG_ROOM && self.acks.len() < LOG_ROOM - updates
    }

    /// The logged update of this call with the least spot.
    pub fn first_update(&self, cid: Cid) -> Option<&LogUpdate<O>>
        ensures { option_copied result ≡ find (λ u. same_cid u.cid cid) self.now.updates }
    {
        self.updates.first_of(cid)
    }

    /// The least spot of a logged update of this call.
    pub fn update_of(&self, cid: Cid) -> Option<Spot>
        ensures { result ≡ option_map (λ u. u.spot) (find (λ u. same_cid u.cid cid) self.now.updates) }
    {
        let update = self.first_update(cid)?;
        Some(update.spot)
    }

    /// The least spot of a logged acknowledgement of this call.
    pub fn ack_of(&self, cid: Cid) -> Option<Spot>
        ensures { result ≡ option_map (λ a. a.spot) (find (λ a. same_cid a.cid cid) self.now.acks) }
    {
        let ack = self.acks.first_of(cid)?;
        Some(ack.spot)
    }

    /// Logs an update, at its place in the order of spots.
    pub fn add_update(&mut self, update: LogUpdate<O>) -> Result<(), NoMemory>
        requires free { IsFree self.old update.spot }
        ensures ok { OnOk result (self.new ≡ record self.old { updates = insert_update update self.old.updates }) }
        ensures err { OnErr result (self.new ≡ self.old) }
    {
        self.updates.insert(update)?;
        Ok(())
    }

    /// Logs an acknowledgement, at its place in the order of spots.
    pub fn add_ack(&mut self, ack: LogAck) -> Result<(), NoMemory>
        requires free { IsFree self.old ack.spot }
        ensures ok { OnOk result (self.new ≡ record self.old { acks = insert_ack ack self.old.acks }) }
        ensures err { OnErr result (self.new ≡ self.old) }
    {
        self.acks.insert(ack)?;
        Ok(())
    }

    /// Drops the updates that each replica has, by what it told. It takes no memory, and where there are none it looks
    /// at one update a place.
    pub fn retain_unknown(&mut self, table: &Table)
        ensures { self.new ≡ record self.old { updates = unknown_updates table.now.rows self.old.updates } }
    {
        let floor = table.floor();
        self.updates.drop_known(&floor);
    }

    /// Drops the acknowledgements that are of no use any more: each replica has them, by what it told, they are late,
    /// and no update of their call is logged. It takes no memory.
    pub fn drop_acks(&mut self, table: &Table, clock: u64, delta: u64)
        ensures { self.new ≡ record self.old {
          acks = filter (λ a. not (is_spent delta clock table.now.rows self.old.updates a)) self.old.acks;
        } }
    {
        let floor = table.floor();
        let spent = Spent {
            floor: &floor,
            clock,
            delta,
            updates: &self.updates,
        };
        self.acks.drop_that(&spent);
    }

    /// Drops the items that are new where so many were received of each place. It takes no memory.
    pub fn drop_new(&mut self, rep_ts: &Stamp)
        ensures updates { self.new.updates ≡ filter (λ u. not (is_new_at rep_ts.now u.spot)) self.old.updates }
        ensures acks { self.new.acks ≡ filter (λ a. not (is_new_at rep_ts.now a.spot)) self.old.acks }
    {
        self.updates.drop_new(rep_ts);
        self.acks.drop_new(rep_ts);
    }
}

impl<O: Operation> Log<O> {
    /// A log equal to this one.
    pub fn copy(&self) -> Result<Self, NoMemory>
        ensures { IfOk result (λ copied. copied ≡ self.now) }
    {
        let updates = self.updates.copy()?;
        let acks = self.acks.copy()?;
        Ok(Log { updates, acks })
    }

    /// Copies of the logged updates, in the order of their spots.
    pub fn copy_updates(&self) -> Result<Rows<LogUpdate<O>>, NoMemory>
        ensures { IfOk result (λ copied. copied ≡ self.now.updates) }
    {
        self.updates.copy_items()
    }

    /// Copies of the logged updates that are new where so many were received of each place, in the order of their
    /// spots.
    pub fn copy_new_updates(&self, theirs: &Stamp) -> Result<Rows<LogUpdate<O>>, NoMemory>
        ensures { IfOk result (λ copied. copied ≡ new_updates theirs.now self.now.updates) }
    {
        self.updates.copy_new(theirs)
    }

    /// Logs these items, or none of them. The log isn't copied, and where there are no items it takes no memory.
    pub fn add_all(&mut self, updates: &[&LogUpdate<O>], acks: &[LogAck]) -> Result<(), NoMemory>
        requires ordered { IsOrdered (items_of (map (λ u. u.now) updates.now) acks.now) }
        requires free { CanTake self.old (items_of (map (λ u. u.now) updates.now) acks.now) }
        ensures ok { OnOk result (self.new ≡ record self.old {
          updates = all_updates_inserted (map (λ u. u.now) updates.now) self.old.updates;
          acks = all_acks_inserted acks.now self.old.acks;
        }) }
        ensures err { OnErr result (self.new ≡ self.old) }
        ensures none { OnErr result (¬ ((updates.now ≡ []) × (acks.now ≡ []))) }
    {
        if updates.is_empty() && acks.is_empty() {
            return Ok(());
        }
        self.updates.insert_all(updates)?;
        let Ok(()) = self.acks.insert_all(acks) else {
            self.updates.take_back(updates, updates.len());
            return Err(NoMemory);
        };
        Ok(())
    }
}

impl<O: Drop> Places<O> for Log<O> {
    ghost updates = { λ log. log.updates };

    fn updates_of(&self, place: u8) -> &[LogUpdate<O>] {
        self.updates.at_place(place as usize)
    }

    fn has_update(&self, cid: Cid) -> bool {
        self.updates.has(cid)
    }
}
