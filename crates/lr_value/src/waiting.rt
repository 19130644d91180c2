//! Updates that wait, each under what it waits for.
ghost use Rattle.std.specs.Prelude.{ℕ, ◌≡◌, ◌∷◌, ◌+◌, ◌<◌, ◌≤◌, ◌⊎◌, ◌↔◌, ◌==◌, ◌&&◌, [], true, length, slice_get};
ghost use Rattle.std.specs.Prelude.{IsNone, IfSome, IfOk, OnOk, Some, false, insert, nat_le, ◌≢◌};
ghost use Rattle.lr_base.specs.Ascending.{is_before as spot_is_before};
ghost use Rattle.lr_base.specs.Logged.{AllFit, Fits};
ghost use Rattle.lr_base.specs.Orders.{IsAmong};
ghost use Rattle.lr_base.specs.Places.{AreInOrder};
ghost use Rattle.lr_base.specs.Stamps.{part, stamp_le};
ghost use Rattle.lr_value.specs.Table.{AreByNeed, Has, IsHeld, IsPlaceFor, IsPut, IsTable, IsTableBut};
ghost use Rattle.lr_value.specs.Table.{Lacks, StandsAt, count_met, is_met as is_met_at};
ghost use Rattle.lr_value.specs.Waiting.{behind};

use lr_base::{LogUpdate, NoMemory, Spot, Stamp};
use std::alloc::Global;

/// An update whose causes aren't applied: the first place that lacks some of them, with the number needed there.
#[derive(Drop)]
pub(crate) struct Blocked<'a, O> {
    needs: Spot,
    update: &'a LogUpdate<O>,
}

/// Updates that wait: those whose causes are applied in the order of their spots, and the others in the order of what
/// they need.
#[derive(Drop)]
pub(crate) struct Table<'a, O> {
    ready: Vec<&'a LogUpdate<O>>,
    blocked: Vec<Blocked<'a, O>>,
}

// The first place at which a value lacks some of these causes, with the number that they need there.
fn first_lack(prev: &Stamp, val_ts: &Stamp) -> Option<Spot>
    requires { length prev.now ≡ length val_ts.now }
    ensures none { IsNone result → stamp_le prev.now val_ts.now ≡ true }
    ensures lacks { IfSome result (Lacks val_ts.now) }
    ensures stands { IfSome result (StandsAt val_ts.now prev.now) }
{
    for place in 0..prev.parts() {
        let number = prev.part(place);
        if val_ts.part(place) < number {
            return Some(Spot { place, number });
        }
    }
    None
}

// Whether what is needed is there, once this place has this number.
fn is_met(needs: Spot, place: u8, number: u64) -> bool
    ensures { result ≡ is_met_at place number needs }
{
    needs.place == place && needs.number <= number
}

// How many of the updates come before a spot.
fn place_by_spot<O>(ready: &[&LogUpdate<O>], spot: Spot) -> usize
    requires { AreInOrder (λ r. r.now.spot) ready.now }
    ensures { IsPlaceFor (λ r. r.now.spot) spot ready.now result }
{
    ready.partition_point(|other| other.spot.is_before(spot))
}

// How many need what comes before this.
fn place_by_need<O>(blocked: &[Blocked<O>], needs: Spot) -> usize
    requires { AreByNeed blocked.now }
    ensures { IsPlaceFor (λ b. b.needs) needs blocked.now result }
{
    blocked.partition_point(|other| other.needs.is_before(needs))
}

// Where an update of this spot goes among those whose causes are applied, unless one is there.
fn place_for<O>(ready: &[&LogUpdate<O>], spot: Spot) -> Option<usize>
    requires { AreInOrder (λ r. r.now.spot) ready.now }
    ensures none { IsNone result → Has (λ r. r.now.spot) spot ready.now }
    ensures place { IfSome result (IsPlaceFor (λ r. r.now.spot) spot ready.now) }
    ensures new { IfSome result (λ at. (r : _) → slice_get ready.now at ≡ Some r → r.now.spot ≢ spot) }
{
    let at = place_by_spot(ready, spot);
    if at < ready.len() && ready[at].spot == spot {
        return None;
    }
    Some(at)
}

// The first that waits at this place for this number or a lesser one, if one does.
fn first_met<O>(blocked: &[Blocked<O>], place: u8, number: u64) -> Option<usize>
    requires { AreByNeed blocked.now }
    ensures none { IsNone result → (b : _) → IsAmong b blocked.now → is_met_at place number b.needs ≡ false }
    ensures within { IfSome result (λ at. at < length blocked.now) }
    ensures met { IfSome result (λ at. (b : _) → slice_get blocked.now at ≡ Some b
        → is_met_at place number b.needs ≡ true) }
{
    let at = place_by_need(blocked, Spot { place, number: 0 });
    if at < blocked.len() && is_met(blocked[at].needs, place, number) {
        return Some(at);
    }
    None
}

impl<'a, O: Drop> Table<'a, O> {
    /// The table of these updates.
    pub(crate) fn of(
        alloc: Global,
        waiting: Vec<&'a LogUpdate<O>>,
        val_ts: &Stamp,
    ) -> Result<Self, NoMemory>
        requires fit { AllFit (length val_ts.now) (behind waiting.items) }
        requires in_order { AreInOrder (λ u. u.spot) (behind waiting.items) }
        ensures table { IfOk result (λ made.
            IsTable val_ts.now (behind waiting.entry.items) made.ready.items made.blocked.items) }
        ensures whole { IfOk result (λ made. (u : _) → IsAmong u (behind waiting.entry.items)
            → IsHeld u made.ready.items made.blocked.items) }
    {
        let mut table = Table {
            ready: waiting,
            blocked: Vec::new(alloc),
        };
        let mut at = 0;
        while at < table.ready.len() {
            match first_lack(&table.ready[at].prev, val_ts) {
                None => at += 1,
                Some(needs) => {
                    let update = table.ready.remove(at);
                    table.block(needs, update)?;
                }
            }
        }
        Ok(table)
    }

    // Puts an update among those whose causes are applied, unless it is there.
    fn make_ready(&mut self, update: &'a LogUpdate<O>) -> Result<(), NoMemory>
        requires in_order { AreInOrder (λ r. r.now.spot) self.old.ready.items }
        requires one { (r : _) → IsAmong r self.old.ready.items → r.now.spot ≡ update.now.spot → r.now ≡ update.now }
        ensures blocked { self.new.blocked ≡ self.old.blocked }
        ensures in_order { OnOk result (AreInOrder (λ r. r.now.spot) self.new.ready.items) }
        ensures ready { OnOk result (IsPut update.now self.old.ready.items self.new.ready.items) }
    {
        if let Some(at) = place_for(self.ready.as_slice(), update.spot) {
            self.ready.insert(at, update)?;
        }
        Ok(())
    }

    // Puts an update among those that need something, by what it needs.
    fn block(&mut self, needs: Spot, update: &'a LogUpdate<O>) -> Result<(), NoMemory>
        requires { AreByNeed self.old.blocked.items }
        ensures ready { self.new.ready ≡ self.old.ready }
        ensures by_need { OnOk result (AreByNeed self.new.blocked.items) }
        ensures blocked { OnOk result ((at : ℕ) × (self.new.blocked.items
            ≡ insert self.old.blocked.items at (record { needs = needs; update = update.entry }))) }
    {
        let at = place_by_need(self.blocked.as_slice(), needs);
        self.blocked.insert(at, Blocked { needs, update })?;
        Ok(())
    }

    // Puts an update where it belongs, by what its causes lack.
    fn file(&mut self, update: &'a LogUpdate<O>, val_ts: &Stamp) -> Result<(), NoMemory>
        requires { (raised : ℕ) × (left : _)
            × IsTableBut raised val_ts.now left self.old.ready.items self.old.blocked.items
            × IsAmong update.now left }
        ensures table { OnOk result ((raised : ℕ) (left : _) → IsAmong update.now left
            → IsTableBut raised val_ts.now left self.old.ready.items self.old.blocked.items
            → IsTableBut raised val_ts.now left self.new.ready.items self.new.blocked.items) }
        ensures held { OnOk result ((u : _) → IsHeld u self.new.ready.items self.new.blocked.items
            ↔ ((u ≡ update.now) ⊎ IsHeld u self.old.ready.items self.old.blocked.items)) }
        ensures count { OnOk result (length self.new.ready.items + length self.new.blocked.items
            ≤ length self.old.ready.items + length self.old.blocked.items + 1) }
        ensures met { OnOk result ((place : ℕ) → count_met place (part val_ts.now place) self.new.blocked.items
            ≤ count_met place (part val_ts.now place) self.old.blocked.items) }
    {
        match first_lack(&update.prev, val_ts) {
            None => self.make_ready(update),
            Some(needs) => self.block(needs, update),
        }
    }

    /// Looks again at the updates that wait for this place, as far as it has what they need there.
    pub(crate) fn wake(&mut self, place: u8, val_ts: &Stamp) -> Result<(), NoMemory>
        requires table { (left : _) × IsTableBut place val_ts.now left self.old.ready.items self.old.blocked.items }
        requires within { place < length val_ts.now }
        ensures table { OnOk result ((left : _)
            → IsTableBut place val_ts.now left self.old.ready.items self.old.blocked.items
            → IsTable val_ts.now left self.new.ready.items self.new.blocked.items) }
        ensures held { OnOk result ((u : _) → IsHeld u self.new.ready.items self.new.blocked.items
            ↔ IsHeld u self.old.ready.items self.old.blocked.items) }
        ensures count { OnOk result (length self.new.ready.items + length self.new.blocked.items
            ≤ length self.old.ready.items + length self.old.blocked.items) }
    {
        while let Some(at) = first_met(self.blocked.as_slice(), place, val_ts.part(place)) {
            let met = self.blocked.remove(at);
            self.file(met.update, val_ts)?;
        }
        Ok(())
    }

    /// Takes out the first update whose causes are applied.
    pub(crate) fn take_first(&mut self) -> Option<&'a LogUpdate<O>>
        ensures none { IsNone result → self.old.ready.items ≡ [] }
        ensures unchanged { IsNone result → self.new ≡ self.old }
        ensures some { IfSome result (λ r. self.old.ready.items ≡ r ∷ self.new.ready.items) }
        ensures blocked { self.new.blocked ≡ self.old.blocked }
    {
        if self.ready.is_empty() {
            return None;
        }
        Some(self.ready.remove(0))
    }

    /// All updates of a table in the order of their spots, where no causes are applied.
    pub(crate) fn rest(mut self) -> Result<Vec<&'a LogUpdate<O>>, NoMemory>
        requires { (val_ts : _) × (left : _) × IsTable val_ts left self.ready.items self.blocked.items }
        ensures in_order { IfOk result (λ rest. AreInOrder (λ u. u.spot) (behind rest.items)) }
        ensures held { IfOk result (λ rest. (u : _) → IsAmong u (behind rest.items)
            ↔ IsHeld u self.entry.ready.items self.entry.blocked.items) }
    {
        while let Some(met) = self.blocked.pop() {
            self.make_ready(met.update)?;
        }
        Ok(self.ready)
    }
}
