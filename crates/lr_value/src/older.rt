//! A value of before, which may lag behind the one that it became.
ghost use Rattle.std.specs.Prelude.{◌≡◌, None};

use crate::ops::Ops;
use lr_base::Stamp;
use lr_base::lr_service::Service;
use std::marker::Model;

/// A value of before with its stamp, and the operations that were executed since, where these were kept.
#[derive(Drop)]
pub struct Older<S: Service> {
    pub(crate) value: S,
    pub(crate) val_ts: Stamp,
    pub(crate) since: Option<Ops<S::Op>>,
}

impl<S: Service> Model for Older<S> {
    ghost use Rattle.std.specs.Prelude.{fold};
    ghost use Rattle.std.specs.Option.{option_map};
    ghost use Rattle.lr_value.specs.Applied.{Lagging};

    ghost Value = { Lagging S };

    ghost view = { λ it. record {
      value = it.value;
      val_ts = it.val_ts;
      newer = option_map (λ ops. fold S.meaning.apply it.value ops) it.since;
    } };
}

impl<S: Service> Older<S> {
    /// Drops the operations that were executed since.
    pub fn unlink(&mut self)
        ensures { self.new ≡ record self.old { newer = None } }
    {
        self.since = None;
    }
}
