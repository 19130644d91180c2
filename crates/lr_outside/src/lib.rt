//! The outside: what is read, written and kept, and how that fails.
#![tactic(auto)]

mod adapters;
mod fixed_sink;
mod keeper;
mod mem_keeper;
mod mem_sink;
mod mem_source;
mod sink;
mod source;
mod sure_keeper;
#[cfg(test)]
mod tests;
mod whole;

pub use adapters::{Reading, Writing};
pub use fixed_sink::FixedSink;
pub use keeper::{KeepFault, Keeper};
pub use mem_keeper::MemKeeper;
pub use mem_sink::MemSink;
pub use mem_source::MemSource;
pub use sink::Sink;
pub use source::{Failed, Source};
pub use sure_keeper::SureKeeper;
pub use whole::{ReadEnd, read_up_to, write_whole};
