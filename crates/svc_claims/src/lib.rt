//! Claims: a service of names, each with an owner, the first that claimed it, and notes.
#![tactic(auto)]

mod op;
mod texts;
mod value;

pub use op::ClaimsOp;
pub use value::Claims;

#[cfg(test)]
mod tests;
