//! One client's front end: the label of its calls, its clock, its open call, and what it sends.
#![tactic(auto)]

mod front;
mod laws;
mod savepoint;

pub use front::{AckFault, CallFault, Front, ResendFault, Taken};
pub use laws::{commands_can_be_undone, label_joins_the_replies_taken};
pub use savepoint::FrontSavepoint;
