//! What every crate speaks of: stamps, calls, messages, events, outcomes, and what a service is.
#![tactic(auto)]

mod acts;
mod bytes;
mod events;
mod executed;
mod lateness;
mod laws;
mod limits;
pub mod lr_service;
mod messages;
mod names;
mod numbers;
mod orders;
mod places;
mod rows;
mod stamp;

pub use acts::{Act, NodeEvent, Posted};
pub use bytes::{
    BadWhat, FieldFault, GetFault, byte_field, count_field, decoded, fault_at, number_field,
    put_byte_field, put_count_field, put_number_field, put_short_field, short_field,
};
pub use events::{Event, Outcome, Refusal, Sent, StateLine, Step};
pub use executed::Executed;
pub use lateness::late;
pub use laws::{join_is_least, order_of_stamps, set_part_changes_one};
pub use limits::{
    HELD_ROOM, LAST_NUMBER, LOG_ROOM, MOST_CLIENTS, MOST_PARTS, MOST_REPLICAS, MOST_SCRIPT_BYTES,
    ORDER_ROOM,
};
pub use messages::{Call, Entry, Fresh, Gossip, Known, LogAck, LogUpdate, Message};
pub use names::{Actor, Cid, Config, Spot};
pub use numbers::{put_number, read_number};
pub use places::Places;
pub use rows::{NoMemory, Rows, Text};
pub use stamp::Stamp;
