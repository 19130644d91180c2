//! The logged updates that aren't applied yet, found by what is remembered of the log.
ghost use Rattle.std.specs.Prelude.{ℕ, ◌≡◌, ◌<◌, ◌≤◌, ◌==◌, ◌++◌, not, drop, filter, length, nat_le, nat_lt, take};
ghost use Rattle.std.specs.Prelude.{IfOk, OnOk, is_some};
ghost use Rattle.std.specs.Option.{ForSome};
ghost use Rattle.lr_base.specs.Logged.{AllFit, Fits};
ghost use Rattle.lr_base.specs.Places.{AreInOrder};
ghost use Rattle.lr_base.specs.Rules.{is_covered, take_ready, waiting as waiting_of};
ghost use Rattle.lr_value.specs.Remembered.{IsMemoryOf};
ghost use Rattle.lr_value.specs.Waiting.{AreOfPlace, at_spot, behind, picked};

use crate::memory::Memory;
use lr_base::{LogUpdate, NoMemory, Places, Spot, Stamp};
use std::alloc::Global;

// Whether an update doesn't count as applied to a value with this stamp.
fn is_waiting<O: Drop>(update: &LogUpdate<O>, val_ts: &Stamp) -> bool
    requires { Fits (length val_ts.now) update.now }
    ensures { result ≡ not (is_covered val_ts.now update.now) }
{
    !update.stamp().le(val_ts)
}

// Adds those of these updates that don't count as applied, in their order.
fn add_waiting<'a, O: Drop>(
    found: &mut Vec<&'a LogUpdate<O>>,
    updates: &'a [LogUpdate<O>],
    val_ts: &Stamp,
) -> Result<(), NoMemory>
    requires { AllFit (length val_ts.now) updates.now }
    ensures { OnOk result (behind found.new.items
        ≡ behind found.old.items ++ waiting_of val_ts.now updates.now) }
{
    for update in updates {
        if is_waiting(update, val_ts) {
            found.push(update)?;
        }
    }
    Ok(())
}

// Where the updates of a place with a greater number than this begin.
fn first_past<O: Drop>(updates: &[LogUpdate<O>], number: u64) -> usize
    requires { (place : ℕ) × AreOfPlace place updates.now }
    ensures within { result ≤ length updates.now }
    ensures up_to { take result updates.now ≡ filter (λ u. nat_le u.spot.number number) updates.now }
    ensures past { drop result updates.now ≡ filter (λ u. not (nat_le u.spot.number number)) updates.now }
{
    updates.partition_point(|update| update.spot.number <= number)
}

// Where the updates of a place with this number or a greater one begin.
fn first_from<O: Drop>(updates: &[LogUpdate<O>], number: u64) -> usize
    requires { (place : ℕ) × AreOfPlace place updates.now }
    ensures within { result ≤ length updates.now }
    ensures from { drop result updates.now ≡ filter (λ u. not (nat_lt u.spot.number number)) updates.now }
{
    updates.partition_point(|update| update.spot.number < number)
}

// The update of a place with this number, if it is there.
fn numbered<O: Drop>(updates: &[LogUpdate<O>], number: u64) -> &[LogUpdate<O>]
    requires { (place : ℕ) × AreOfPlace place updates.now }
    ensures { result.now ≡ filter (λ u. u.spot.number == number) updates.now }
{
    let up_to = &updates[..first_past(updates, number)];
    &up_to[first_from(up_to, number)..]
}

// Adds what waited at a spot, if it is of this place and doesn't count as applied.
fn add_at<'a, O: Drop>(
    found: &mut Vec<&'a LogUpdate<O>>,
    updates: &'a [LogUpdate<O>],
    spot: &Spot,
    place: u8,
    val_ts: &Stamp,
) -> Result<(), NoMemory>
    requires fit { AllFit (length val_ts.now) updates.now }
    requires of_place { AreOfPlace place updates.now }
    ensures { OnOk result (behind found.new.items
        ≡ behind found.old.items ++ waiting_of val_ts.now (at_spot place spot.now updates.now)) }
{
    if spot.place != place {
        return Ok(());
    }
    add_waiting(found, numbered(updates, spot.number), val_ts)
}

// Adds what waited of one place, as far as it doesn't count as applied.
fn add_remembered<'a, O: Drop>(
    found: &mut Vec<&'a LogUpdate<O>>,
    updates: &'a [LogUpdate<O>],
    waits: &[Spot],
    place: u8,
    val_ts: &Stamp,
) -> Result<(), NoMemory>
    requires fit { AllFit (length val_ts.now) updates.now }
    requires of_place { AreOfPlace place updates.now }
    ensures { OnOk result (behind found.new.items
        ≡ behind found.old.items ++ waiting_of val_ts.now (picked place waits.now updates.now)) }
{
    for at in 0..waits.len() {
        add_at(found, updates, &waits[at], place, val_ts)?;
    }
    Ok(())
}

// Adds the updates of one place that don't count as applied: what waited, and what is new since.
fn add_place<'a, O: Drop>(
    found: &mut Vec<&'a LogUpdate<O>>,
    updates: &'a [LogUpdate<O>],
    place: u8,
    val_ts: &Stamp,
    memory: &Option<Memory>,
) -> Result<(), NoMemory>
    requires fit { AllFit (length val_ts.now) updates.now }
    requires of_place { AreOfPlace place updates.now }
    requires within { place < length val_ts.now }
    requires memory { ForSome memory.now (IsMemoryOf val_ts.now updates.now) }
    ensures { OnOk result (behind found.new.items
        ≡ behind found.old.items ++ waiting_of val_ts.now updates.now) }
{
    let Some(memory) = memory else {
        return add_waiting(found, updates, val_ts);
    };
    add_remembered(found, updates, memory.waits(), place, val_ts)?;
    let new = first_past(updates, memory.seen().part(place));
    add_waiting(found, &updates[new..], val_ts)
}

/// The updates that don't count as applied, in their order.
pub(crate) fn gathered<'a, O: Drop, L: Places<O>>(
    alloc: Global,
    log: &'a L,
    val_ts: &Stamp,
    memory: &Option<Memory>,
) -> Result<Vec<&'a LogUpdate<O>>, NoMemory>
    requires fit { AllFit (length val_ts.now) (L.updates log.now) }
    requires memory { ForSome memory.now (IsMemoryOf val_ts.now (L.updates log.now)) }
    ensures waiting { IfOk result (λ found. behind found.items ≡ waiting_of val_ts.now (L.updates log.now)) }
    ensures in_order { IfOk result (λ found. AreInOrder (λ u. u.spot) (behind found.items)) }
{
    let mut found = Vec::new(alloc);
    for place in 0..val_ts.parts() {
        add_place(&mut found, log.updates_of(place), place, val_ts, memory)?;
    }
    Ok(found)
}

/// Whether the causes of a waiting update are applied.
pub(crate) fn is_one_ready<O>(waiting: &[&LogUpdate<O>], val_ts: &Stamp) -> bool
    requires { AllFit (length val_ts.now) (behind waiting.now) }
    ensures { result ≡ is_some (take_ready val_ts.now (behind waiting.now)) }
{
    for at in 0..waiting.len() {
        if waiting[at].prev.le(val_ts) {
            return true;
        }
    }
    false
}
