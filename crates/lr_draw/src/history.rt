//! What is read of a printed history: its events and its messages.
use crate::acts::Act;
use crate::kinds::Kind;
use lr_base::{Actor, Rows};

/// Some bytes of the input, from one place up to another.
#[derive(Clone, Copy)]
pub struct Span {
    pub start: usize,
    pub end: usize,
}

/// An event: its number, from 1, whom its text names, and where its line begins.
#[derive(Clone, Copy)]
pub struct Event {
    pub number: u32,
    pub act: Act,
    pub start: usize,
}

/// A message: the event that sent it, its way, its kind, and where its line stands.
#[derive(Clone, Copy)]
pub struct Message {
    pub event: u32,
    pub from: Actor,
    pub to: Actor,
    pub kind: Kind,
    pub line: Span,
}

/// The events in order, and the messages in the order in which they were sent, which are numbered from 1.
#[derive(Drop)]
pub struct History {
    pub events: Rows<Event>,
    pub messages: Rows<Message>,
}

/// The numbers of the events that are drawn: the first, from 1, and the last.
#[derive(Clone, Copy)]
pub struct Range {
    pub first: u64,
    pub last: u64,
}

/// Why there is no picture.
#[derive(Clone, Copy)]
pub enum DrawFault {
    /// The line of this number, from 1, isn't one of a history.
    Line(u64),
    /// There are too many bytes, or too many events in one picture.
    TooLong,
    NoMemory,
}
