//! What follows from the acceptances: causes, and what is ready.
ghost use Rattle.std.specs.Prelude.{◌≡◌, ◌||◌, find, map, not, IfOk};
ghost use Rattle.std.specs.List.{list_all};
ghost use Rattle.std.specs.Option.{option_copied};
ghost use Rattle.lr_graph.specs.Sets.{same_spot};
ghost use Rattle.lr_graph.specs.Graph.{below_of as causes_below, is_within as all_within, ready};
ghost use Rattle.lr_graph.specs.Told.{acceptance_of, is_ready_among, set_of};

use crate::facts::items::AcceptedUpdate;
use crate::facts::spots::SpotList;
use lr_base::{NoMemory, Spot};
use std::alloc::Global;

// Whether each acceptance of one set is in the other, over what is told.
fn all_in<O>(accepted: &[AcceptedUpdate<O>], set: &SpotList, other: &SpotList) -> bool
    ensures { result ≡ list_all (λ a. not (set_of set.now a.spot) || set_of other.now a.spot) accepted.now }
{
    accepted
        .iter()
        .all(|update| !set.has(update.spot) || other.has(update.spot))
}

/// Whether each acceptance of one set is in the other.
pub fn is_within<O>(accepted: &[AcceptedUpdate<O>], set: &SpotList, other: &SpotList) -> bool
    ensures { result ≡ all_within (map acceptance_of accepted.now) (set_of set.now) (set_of other.now) }
{
    all_in(accepted, set, other)
}

// The newest acceptance at a spot.
fn accepted_at<O>(accepted: &[AcceptedUpdate<O>], spot: Spot) -> Option<&AcceptedUpdate<O>>
    ensures { option_copied result ≡ find (λ a. same_spot spot a.spot) accepted.now }
{
    accepted.iter().find(|update| spot == update.spot)
}

/// The causes of the acceptance at a spot, and itself: nothing where none is there.
pub fn below_of<O>(
    alloc: Global,
    accepted: &[AcceptedUpdate<O>],
    spot: Spot,
) -> Result<SpotList, NoMemory>
    ensures { IfOk result (λ below. set_of below ≡ causes_below (map acceptance_of accepted.now) spot) }
{
    match accepted_at(accepted, spot) {
        Some(update) => update.below.copy(),
        None => Ok(SpotList::new(alloc)),
    }
}

// Whether an acceptance is received with all its causes.
fn is_ready<O>(
    accepted: &[AcceptedUpdate<O>],
    received: &SpotList,
    update: &AcceptedUpdate<O>,
) -> bool
    ensures { result
        ≡ is_ready_among (map acceptance_of accepted.now) (set_of received.now) (acceptance_of update.now) }
{
    received.has(update.spot) && is_within(accepted, &update.below, received)
}

/// The acceptances that are received with all their causes.
pub fn ready_spots<O>(
    alloc: Global,
    accepted: &[AcceptedUpdate<O>],
    received: &SpotList,
) -> Result<SpotList, NoMemory>
    ensures { IfOk result (λ spots. set_of spots ≡ ready (map acceptance_of accepted.now) (set_of received.now)) }
{
    let mut spots = SpotList::new(alloc);
    for update in accepted {
        if !is_ready(accepted, received, update) {
            continue;
        }
        spots.add(update.spot)?;
    }
    Ok(spots)
}
