//! What a front end is given to do.
use lr_base::Message;

/// A front end's part of an event.
pub enum FrontTask<'a, O: Drop> {
    /// Its client calls an operation through a replica, at a clock reading.
    Call {
        replica: u8,
        reading: u64,
        op: &'a O,
    },
    /// Its client has its open call sent again.
    Resend {
        replica: u8,
        reading: u64,
    },
    /// Its client has its last answered update acknowledged.
    Acknowledge {
        replica: u8,
        reading: u64,
    },
    /// It takes a message that was sent to it.
    Take {
        message: &'a Message<O>,
    },
}
