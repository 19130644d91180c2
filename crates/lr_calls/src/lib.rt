//! Which calls were executed, and which copies are late.
#![tactic(auto)]

mod calls;
#[cfg(test)]
mod tests;

pub use calls::CallTable;
pub use lr_base::late;
