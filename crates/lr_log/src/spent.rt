//! Which acknowledgements are of no use any more.
ghost use Rattle.std.specs.Prelude.{◌≡◌, ◌&&◌, not, Bool};
ghost use Rattle.lr_base.specs.Config.{is_late};
ghost use Rattle.lr_base.specs.Rules.{is_new as is_new_at, logs_update};

use crate::placed::Placed;
use crate::received::is_new;
use lr_base::{LogAck, LogUpdate, Stamp, late};

/// A test of items.
pub trait Test<T> {
    ghost passes: { Self → T → Bool };

    /// Whether an item passes.
    fn passes(&self, item: &T) -> bool
        ensures { result ≡ passes self.now item.now };
}

/// Whether an acknowledgement isn't new where so many items were received of each place, is late, and no update of its
/// call is logged.
#[derive(Drop)]
pub struct Spent<'a, O: Drop> {
    pub floor: &'a Stamp,
    pub clock: u64,
    pub delta: u64,
    pub updates: &'a Placed<LogUpdate<O>>,
}

impl<'a, O: Drop> Test<LogAck> for Spent<'a, O> {
    ghost passes = { λ it ack. not (is_new_at it.floor.now ack.spot)
        && (is_late ack.time it.delta it.clock && not (logs_update it.updates.now ack.cid)) };

    fn passes(&self, item: &LogAck) -> bool {
        if is_new(self.floor, item.spot) || !late(item.time, self.delta, self.clock) {
            return false;
        }
        !self.updates.has(item.cid)
    }
}
