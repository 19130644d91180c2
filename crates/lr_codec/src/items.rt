//! Logged items of both kinds, as they stand in the bytes of a log.
ghost use Rattle.std.specs.Prelude.{◌≡◌};
ghost use Rattle.lr_codec.specs.Lists.{spot_of};

use lr_base::{LogAck, LogUpdate, Spot};

/// An update or an acknowledgement.
#[derive(Drop)]
pub enum Item<O> {
    Update(LogUpdate<O>),
    Ack(LogAck),
}

impl<O> Item<O> {
    /// Its spot.
    pub(crate) fn spot(&self) -> Spot
        ensures { result ≡ spot_of self.now }
    {
        match self {
            Item::Update(update) => update.spot,
            Item::Ack(ack) => ack.spot,
        }
    }
}
