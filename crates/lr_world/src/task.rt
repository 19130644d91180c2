//! What a replica is given to do.
use lr_base::{Actor, Message};

/// A replica's part of an event.
pub enum Task<'a, O: Drop> {
    /// It takes a message that was sent to it.
    Take {
        from: Actor,
        message: &'a Message<O>,
    },
    /// It reads its clock.
    Read {
        reading: u64,
    },
    /// It sends gossip to another replica.
    Tell {
        to: u8,
    },
}
