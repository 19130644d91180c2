//! The value of a replica: which logged updates are applied to it, and in which order.
#![tactic(auto)]

mod applying;
mod gathering;
mod memory;
mod older;
mod ops;
mod value;
mod waiting;

pub use older::Older;
pub use value::Value;
