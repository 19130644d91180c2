//! The log of a replica: which updates and acknowledgements it received and keeps.
#![tactic(auto)]

mod calls;
mod log;
mod placed;
mod received;
mod row;
mod spent;
mod spotted;
mod table;

pub use log::Log;
pub use received::{is_new, part_or_zero};
pub use table::Table;
