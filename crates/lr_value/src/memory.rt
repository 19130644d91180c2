//! What of a log was looked at, and what waits in it.
ghost use Rattle.std.specs.Prelude.{◌≡◌, ◌↔◌, length, IsTrue, IfOk, map};
ghost use Rattle.lr_base.specs.Insertion.{Ascends};
ghost use Rattle.lr_base.specs.Logged.{AllReceived};
ghost use Rattle.lr_base.specs.Places.{AreInOrder};
ghost use Rattle.lr_value.specs.Remembered.{AreSeen};
ghost use Rattle.lr_value.specs.Waiting.{behind};

use lr_base::{LogUpdate, NoMemory, Spot, Stamp};
use std::alloc::Global;
use std::marker::Model;

/// How many items of each place were seen, and the spots of the updates that waited among them.
#[derive(Drop)]
pub(crate) struct Memory {
    seen: Stamp,
    waits: Vec<Spot>,
}

impl Model for Memory {
    ghost use Rattle.lr_value.specs.Applied.{Memory as Remembered};
    ghost use Rattle.lr_value.specs.Remembered.{AreSeen};

    ghost Value = { Remembered };

    ghost view = { λ it. record { seen = it.seen; waits = it.waits.items } };

    ghost invariant = { λ it. AreSeen (record { seen = it.seen; waits = it.waits.items }) };
}

impl Memory {
    /// What is remembered where these updates wait.
    pub(crate) fn of<O: Drop>(
        alloc: Global,
        seen: &Stamp,
        waiting: &[&LogUpdate<O>],
    ) -> Result<Self, NoMemory>
        requires in_order { AreInOrder (λ u. u.spot) (behind waiting.now) }
        requires received { AllReceived seen.now (behind waiting.now) }
        ensures seen { IfOk result (λ made. made.seen ≡ seen.now) }
        ensures waits { IfOk result (λ made. made.waits ≡ map (λ u. u.spot) (behind waiting.now)) }
    {
        let mut waits = Vec::new(alloc);
        for update in waiting {
            waits.push(update.spot)?;
        }
        Ok(Memory {
            seen: seen.copy(),
            waits,
        })
    }

    /// Whether it is of a log from which so many items were received of each place.
    pub(crate) fn is_of(&self, received: &Stamp) -> bool
        requires { length self.now.seen ≡ length received.now }
        ensures { IsTrue result ↔ (self.now.seen ≡ received.now) }
    {
        self.seen.le(received) && received.le(&self.seen)
    }

    /// How many items of each place were seen.
    pub(crate) fn seen(&self) -> &Stamp
        ensures { result.now ≡ self.now.seen }
    {
        &self.seen
    }

    /// The spots of what waited, in their order.
    pub(crate) fn waits(&self) -> &[Spot]
        ensures waits { result.now ≡ self.now.waits }
        ensures seen { AreSeen self.now }
    {
        self.waits.as_slice()
    }
}
