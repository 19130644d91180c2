//! The causal part of a replica: what it accepted, what it applied, and what it answers.
#![tactic(auto)]

mod applying;
mod causal;
mod entering;
mod forgetting;
mod gossip;
mod labels;
mod savepoint;

pub use causal::{AckEnd, Causal};
pub use savepoint::Savepoint;
