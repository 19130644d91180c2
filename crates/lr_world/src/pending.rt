//! A step that is made up to what can't fail.
use lr_base::lr_service::Service;
use lr_causal::Savepoint;
use lr_front::FrontSavepoint;

/// What a replica is ordered to do.
#[derive(Clone, Copy)]
pub enum Order {
    /// It takes the message at an index.
    Take { at: usize },
    /// It reads its clock.
    Read { reading: u64 },
    /// It sends gossip to another replica.
    Tell { to: u8 },
}

/// Who makes a step, with what gives back the state of before.
#[derive(Drop)]
pub enum Acting<S: Service> {
    /// A line is all that comes of the event.
    Nobody,
    AtFront {
        client: u32,
        point: FrontSavepoint<S::Op>,
    },
    AtReplica {
        me: u8,
        point: Savepoint<S>,
    },
}

/// A step that can be finished or undone without memory.
#[derive(Drop)]
pub struct Pending<S: Service> {
    // How many messages were sent before the step.
    pub(crate) sent: usize,
    pub(crate) who: Acting<S>,
}
