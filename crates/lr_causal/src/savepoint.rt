//! What a step may change, kept so that the step can be undone.
ghost use Rattle.std.specs.Prelude.{◌≡◌, Some, None};
ghost use Rattle.lr_causal.specs.Savepoint.{kept_first, put_back_in};

use lr_base::lr_service::Service;
use lr_base::{Cid, Stamp};
use lr_value::{Older, Value};
use std::marker::Model;

/// A replica's state before a step, as far as a step may overwrite it: its clock, what it had received, its last
/// number, one row of its table, which calls were entered since, how many queries were held, and its value once
/// that is changed.
#[derive(Drop)]
pub struct Savepoint<S: Service> {
    // Whose state it is.
    pub(crate) me: u8,
    pub(crate) clock: u64,
    pub(crate) rep_ts: Stamp,
    pub(crate) top: u64,
    // A replica, and what it was last heard to have received.
    pub(crate) heard: u8,
    pub(crate) row: Stamp,
    // The calls that were entered since.
    pub(crate) entered: Vec<Cid>,
    // How many queries were held.
    pub(crate) held: usize,
    // The value, where the step has changed it.
    pub(crate) applied: Option<Older<S>>,
}

impl<S: Service> Model for Savepoint<S> {
    ghost use Rattle.lr_causal.specs.Savepoint.{Saved};

    ghost Value = { Saved S };

    ghost view = { λ it. record {
      me = it.me;
      clock = it.clock;
      rep_ts = it.rep_ts;
      top = it.top;
      heard = it.heard;
      row = it.row;
      entered = it.entered.items;
      held = it.held;
      applied = it.applied;
    } };
}

impl<S: Service> Savepoint<S> {
    /// Keeps the value of before the step, which is the first one that it is given. Once it is given another, the first
    /// can't be caught up any more.
    pub(crate) fn keep(&mut self, older: Older<S>)
        ensures { self.new ≡ record self.old { applied = Some (kept_first self.old.applied older) } }
    {
        match &mut self.applied {
            Some(first) => first.unlink(),
            None => self.applied = Some(older),
        }
    }
}

/// Puts back the value of before the step, where the step changed it. What was remembered of the log is forgotten.
pub fn put_back<S: Service>(value: &mut Value<S>, before: Option<Older<S>>)
    ensures { value.new ≡ put_back_in before value.old }
{
    match before {
        Some(older) => value.put_back(older),
        None => value.forget(),
    }
}
