//! What a step may change of a front end, kept so that the step can be undone.
use lr_base::lr_service::{Kind, Operation};
use lr_base::{Call, Cid, Stamp};
use std::marker::Model;

/// A front end's state before a step, as far as a step may change it. The open call isn't copied: where a reply ends
/// it, it moves here.
#[derive(Drop)]
pub struct FrontSavepoint<O: Operation> {
    pub(crate) clock: u64,
    pub(crate) label: Stamp,
    pub(crate) calls: u64,
    pub(crate) answered: Option<Cid>,
    pub(crate) is_open: bool,
    pub(crate) ended: Option<Call<O>>,
    // How the ended call's operation is ordered.
    pub(crate) kind: Kind,
}

impl<O: Operation> Model for FrontSavepoint<O> {
    ghost use Rattle.std.specs.Prelude.{◌≡◌, ◌≤◌};
    ghost use Rattle.lr_base.specs.Limits.{last_number};
    ghost use Rattle.lr_front.specs.Kept.{IsOfKind};
    ghost use Rattle.lr_front.specs.Undoing.{Saved};

    ghost Value = { Saved O };

    ghost view = { λ it. record {
      clock = it.clock;
      label = it.label;
      calls = it.calls;
      answered = it.answered;
      is_open = it.is_open;
      ended = it.ended;
    } };

    ghost invariant = { λ it. (it.calls ≤ last_number) × IsOfKind O.kind_of it.kind it.ended };
}
