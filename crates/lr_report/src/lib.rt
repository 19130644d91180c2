//! How a history is printed: the header's line, and each event's lines.
#![tactic(auto)]

mod laws;
mod names;
mod outcome_lines;
mod rendering;
mod state_lines;

pub use laws::{histories_of_scripts_fit, printed_tells_histories_apart};
pub use rendering::{render_header, render_printed_step, render_step};
