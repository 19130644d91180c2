//! The tally: a service of counters by name, to which operations add modulo 2^64.
#![tactic(auto)]

mod counts;
mod op;
mod texts;

pub use counts::Tally;
pub use op::TallyOp;

#[cfg(test)]
mod tests;
