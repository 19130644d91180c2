//! All actors of a run, and the legal history that they make.
#![tactic(auto)]

mod copies;
mod front_steps;
mod front_task;
mod outbox;
mod pending;
mod replica;
mod run;
mod task;
#[cfg(test)]
mod tests;
mod world;

pub use run::Run;
pub use world::World;
