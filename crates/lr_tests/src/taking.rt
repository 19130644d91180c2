//! Additions to a log, which are tested to be at free spots.
ghost use Rattle.std.specs.Prelude.{◌≡◌, find, map, IsTrue, IfOk};
ghost use Rattle.std.specs.List.{AllByRecursion};
ghost use Rattle.std.specs.Option.{option_copied};
ghost use Rattle.lr_base.specs.Places.{items_at};
ghost use Rattle.lr_log.specs.Items.{IsFree};
ghost use Rattle.lr_log.specs.Rows.{same_spot};

use lr_base::lr_service::Operation;
use lr_base::{LogAck, LogUpdate, NoMemory, Places, Spot};
use lr_log::Log;
use std::alloc::Global;
use std::process::Abort;
use std::test::Fail;

// The update at a spot.
fn update_at<O: Drop>(log: &Log<O>, spot: Spot) -> Option<&LogUpdate<O>>
    ensures { option_copied result
        ≡ find (λ u. same_spot u.spot spot) (items_at (λ u. u.spot) spot.place log.now.updates) }
{
    log.updates_of(spot.place)
        .iter()
        .find(|update| update.spot == spot)
}

// The acknowledgement at a spot.
fn ack_at<O: Drop>(log: &Log<O>, spot: Spot) -> Option<&LogAck>
    ensures { option_copied result
        ≡ find (λ a. same_spot a.spot spot) (items_at (λ a. a.spot) spot.place log.now.acks) }
{
    log.acks_of(spot.place as usize)
        .iter()
        .find(|ack| ack.spot == spot)
}

/// Whether no item of the log stands at a spot.
pub fn is_free<O: Drop>(log: &Log<O>, spot: Spot) -> bool
    ensures { IsTrue result → IsFree log.now spot }
{
    if update_at(log, spot).is_some() {
        return false;
    }
    if ack_at(log, spot).is_some() {
        return false;
    }
    true
}

// Whether the spot of each of these updates is free in the log.
fn are_free<O: Drop>(log: &Log<O>, updates: &[LogUpdate<O>]) -> bool
    ensures { IsTrue result → AllByRecursion (λ u. IsFree log.now u.spot) updates.now }
{
    for update in updates {
        if !is_free(log, update.spot) {
            return false;
        }
    }
    true
}

// Whether the spot of each of these acknowledgements is free in the log.
fn are_acks_free<O: Drop>(log: &Log<O>, acks: &[LogAck]) -> bool
    ensures { IsTrue result → AllByRecursion (λ a. IsFree log.now a.spot) acks.now }
{
    for ack in acks {
        if !is_free(log, ack.spot) {
            return false;
        }
    }
    true
}

// A reference to each of these.
fn references<'a, O: Drop>(
    alloc: Global,
    updates: &'a [LogUpdate<O>],
) -> Result<Vec<&'a LogUpdate<O>>, NoMemory>
    ensures { IfOk result (λ found. map (λ u. u.now) found.items ≡ updates.now) }
{
    let mut found = Vec::new(alloc);
    for update in updates {
        found.push(update)?;
    }
    Ok(found)
}

/// Adds all items of another log at once.
pub fn take<O: Operation>(
    rt: &impl Abort,
    log: &mut Log<O>,
    more: &Log<O>,
) -> Result<(), NoMemory> {
    more.keeps();
    let updates = more.copy_updates()?;
    let acks = more.copy_acks()?;
    let found = references(log.allocator(), updates.as_slice())?;
    assert!(rt; are_free(log, updates.as_slice()));
    assert!(rt; are_acks_free(log, acks.as_slice()));
    log.add_all(found.as_slice(), acks.as_slice())
}

/// Adds an update.
pub fn add_update<O: Drop>(
    rt: &impl Abort,
    log: &mut Log<O>,
    update: LogUpdate<O>,
) -> Result<(), Fail> {
    assert!(rt; is_free(log, update.spot));
    log.add_update(update)?;
    Ok(())
}

/// Adds an acknowledgement.
pub fn add_ack<O: Drop>(rt: &impl Abort, log: &mut Log<O>, ack: LogAck) -> Result<(), Fail> {
    assert!(rt; is_free(log, ack.spot));
    log.add_ack(ack)?;
    Ok(())
}
