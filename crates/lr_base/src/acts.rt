//! What an actor does in a step, and messages with their ways.
use crate::events::Outcome;
use crate::messages::Message;
use crate::names::Actor;

/// One thing that a step does.
#[derive(Drop)]
pub enum Act<O: Drop> {
    /// A line is printed.
    Say(Outcome),
    /// A message is sent. Its number comes behind those of the messages that were sent before.
    Send { to: Actor, message: Message<O> },
}

/// A message with its sender and its receiver. Its number is its place among all, from 1.
#[derive(Drop)]
pub struct Posted<O: Drop> {
    pub from: Actor,
    pub to: Actor,
    pub message: Message<O>,
}

/// What comes to a replica.
#[derive(Drop)]
pub enum NodeEvent<O: Drop> {
    /// It takes a message.
    Take { from: Actor, message: Message<O> },
    /// It reads its clock.
    Tick { reading: u64 },
    /// It sends gossip to another replica.
    Gossip { to: u8 },
}
