//! A replica's stable state in bytes: each state in the ranges has one spelling.
#![tactic(auto)]

mod codec;
mod frozen;
mod heads;
mod item_rows;
mod items;
mod laws;
mod lists;
mod parts;
mod readers;
mod rows;
mod state;
mod states;
mod writing;
mod writing_log;
mod writing_rows;
mod writing_states;

pub use codec::{CodecFault, decode, decode_own, encode};
pub use laws::states_have_one_spelling;
pub use lr_base::BadWhat;
pub use state::StableState;
