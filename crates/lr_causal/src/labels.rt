//! Labels against stamps.
ghost use Rattle.std.specs.Prelude.{◌≡◌, ◌↔◌, IsTrue};
ghost use Rattle.lr_base.specs.Stamps.{stamp_le};
ghost use Rattle.lr_causal.specs.Causal.{NoneApplied};

use lr_base::{Call, Stamp};
use lr_log::part_or_zero;

/// Whether all that a label names is applied to a value with this stamp.
pub fn is_applied(label: &Stamp, val_ts: &Stamp) -> bool
    ensures { result ≡ stamp_le label.now val_ts.now }
{
    for place in 0..label.parts() {
        if label.part(place) > part_or_zero(val_ts, place) {
            return false;
        }
    }
    true
}

/// Whether no label of these queries is applied to a value with this stamp.
pub fn none_applied<O: Drop>(calls: &[Call<O>], val_ts: &Stamp) -> bool
    ensures { IsTrue result ↔ NoneApplied val_ts.now calls.now }
{
    for call in calls {
        if is_applied(&call.prev, val_ts) {
            return false;
        }
    }
    true
}
