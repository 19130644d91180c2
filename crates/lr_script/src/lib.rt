//! Scripts: which bytes mean a header and events, and why others don't.
#![tactic(auto)]

mod event_lines;
mod fields;
mod heading;
mod laws;
mod lines;
mod reading;
mod refusals;

pub use event_lines::print_event;
pub use heading::{Header, Name};
pub use laws::{
    a_bad_byte_is_an_unprintable_one, an_event_has_one_line, every_input_has_a_meaning,
    scripts_have_one_meaning, what_is_refused_means_nothing,
};
pub use lines::split_event_line;
pub use reading::{is_for, read_header, read_script};
pub use refusals::{Cause, ScriptFault};
