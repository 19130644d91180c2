//! What a value's applying asks of a log.
ghost use Rattle.std.specs.Prelude.{List, ◌≡◌};
ghost use Rattle.lr_base.specs.Places.{AreInOrder, items_at};
ghost use Rattle.lr_base.specs.Rules.{logs_update};
ghost use Rattle.lr_base.specs.declared.messages.LogUpdate.{LogUpdate};

use crate::messages::LogUpdate;
use crate::names::Cid;

/// Logged updates, which are found place by place.
pub trait Places<O> {
    /// All of them, in the order of their spots.
    ghost updates: { Self → List (LogUpdate O) };

    /// The updates of one place, in the order of their numbers.
    fn updates_of(&self, place: u8) -> &[LogUpdate<O>]
        ensures updates { result.now ≡ items_at (λ u. u.spot) place (updates self.now) }
        ensures in_order { AreInOrder (λ u. u.spot) (updates self.now) };

    /// Whether an update of this call is among them.
    fn has_update(&self, cid: Cid) -> bool
        ensures { result ≡ logs_update (updates self.now) cid };
}
