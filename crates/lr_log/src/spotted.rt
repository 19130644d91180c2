//! What stands at spots: logged updates and acknowledgements.
ghost use Rattle.std.specs.Prelude.{◌≡◌, IfOk};
ghost use Rattle.lr_base.specs.declared.names.Cid.{Cid};
ghost use Rattle.lr_base.specs.declared.names.Spot.{Spot};

use lr_base::lr_service::Operation;
use lr_base::{Cid, LogAck, LogUpdate, NoMemory, Spot};

/// What stands at a spot and is of a call.
pub trait AtSpot: Sized + Drop {
    ghost spot_of: { Self → Spot };

    ghost cid_of: { Self → Cid };

    /// The spot at which it stands.
    fn spot(&self) -> Spot
        ensures { result ≡ spot_of self.now };

    /// The call that it is of.
    fn cid(&self) -> Cid
        ensures { result ≡ cid_of self.now };
}

/// What stands at a spot and can be copied.
pub trait Copied: AtSpot {
    /// An item equal to this one.
    fn copied(&self) -> Result<Self, NoMemory>
        ensures { IfOk result (λ item. item ≡ self.now) };
}

/// An item, or a reference to one.
pub trait Lends<T> {
    ghost lent: { Self → T };

    /// The item.
    fn lend(&self) -> &T
        ensures { result.now ≡ lent self.now };
}

impl<O: Drop> AtSpot for LogUpdate<O> {
    ghost spot_of = { λ update. update.spot };

    ghost cid_of = { λ update. update.cid };

    fn spot(&self) -> Spot {
        self.spot
    }

    fn cid(&self) -> Cid {
        self.cid
    }
}

impl<O: Operation> Copied for LogUpdate<O> {
    fn copied(&self) -> Result<Self, NoMemory> {
        self.copy()
    }
}

impl<'a, O: Drop> Lends<LogUpdate<O>> for &'a LogUpdate<O> {
    ghost lent = { λ update. update.now };

    fn lend(&self) -> &LogUpdate<O> {
        *self
    }
}

impl AtSpot for LogAck {
    ghost spot_of = { λ ack. ack.spot };

    ghost cid_of = { λ ack. ack.cid };

    fn spot(&self) -> Spot {
        self.spot
    }

    fn cid(&self) -> Cid {
        self.cid
    }
}

impl Copied for LogAck {
    fn copied(&self) -> Result<Self, NoMemory> {
        Ok(*self)
    }
}

impl Lends<LogAck> for LogAck {
    ghost lent = { λ ack. ack };

    fn lend(&self) -> &LogAck {
        self
    }
}
