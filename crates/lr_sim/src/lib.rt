//! The run of one script: its bytes are read as events, and what they do is printed.
#![tactic(auto)]

mod command;

pub use command::{SimEnd, sim_command};
