//! What was received of each place, and whether an item is new there.
ghost use Rattle.std.specs.Prelude.{◌≡◌};
ghost use Rattle.lr_base.specs.Rules.{is_new as is_new_at};
ghost use Rattle.lr_base.specs.Stamps.{part};

use lr_base::{Spot, Stamp};

/// The part at a place, where one past the end is 0.
pub fn part_or_zero(stamp: &Stamp, place: u8) -> u64
    ensures { result ≡ part stamp.now place }
{
    if place < stamp.parts() {
        return stamp.part(place);
    }
    0
}

/// Whether an item at this spot is new where so many items were received of each place.
pub fn is_new(rep_ts: &Stamp, spot: Spot) -> bool
    ensures { result ≡ is_new_at rep_ts.now spot }
{
    part_or_zero(rep_ts, spot.place) < spot.number
}
