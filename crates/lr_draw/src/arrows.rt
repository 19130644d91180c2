//! The arrows of a picture: one for each delivery that is drawn.
ghost use Rattle.std.specs.Prelude.{◌≡◌, ◌++◌, OnOk, IfOk, IsTrue, ◌↔◌, ◌≤◌};
ghost use Rattle.std.specs.List.{flat_map};
ghost use Rattle.lr_draw.specs.Arrows.{arrow_of, arrows_at, is_drawn, sent_as};

use crate::acts::Act;
use crate::history::{Event, Message, Range};
use lr_base::{NoMemory, Rows};
use std::alloc::Global;

/// A delivery: the message's number, the event that delivers it, and the message.
#[derive(Clone, Copy)]
pub struct Arrow {
    pub number: u64,
    pub ends: u32,
    pub sent: Message,
}

/// Whether the event of this number is drawn.
pub fn is_in(range: Range, number: u32) -> bool
    ensures { result ≡ is_drawn range number }
{
    range.first <= number as u64 && number as u64 <= range.last
}

/// The message of this number, if it was sent before the event of that number.
pub fn sent_before(messages: &[Message], number: u64, event: u32) -> Option<Message>
    ensures { result ≡ sent_as messages.now number event }
{
    if number == 0 {
        return None;
    }
    let message = messages.get((number - 1) as usize).copied()?;
    if message.event < event {
        Some(message)
    } else {
        None
    }
}

/// The arrow that ends at this event, if it delivers a message that was sent before it.
pub fn arrow_to(messages: &[Message], event: Event) -> Option<Arrow>
    ensures { result ≡ arrow_of messages.now event }
{
    match event.act {
        Act::Deliver { message: number } => match sent_before(messages, number, event.number) {
            Some(sent) => Some(Arrow {
                number,
                ends: event.number,
                sent,
            }),
            None => None,
        },
        Act::At { .. } | Act::Restart { .. } | Act::Gossip { .. } | Act::Elsewhere => None,
    }
}

fn put_arrow(
    range: Range,
    messages: &[Message],
    event: Event,
    arrows: &mut Rows<Arrow>,
) -> Result<(), NoMemory>
    ensures { OnOk result (arrows.new ≡ arrows.old ++ arrows_at range messages.now event) }
{
    if !is_in(range, event.number) {
        return Ok(());
    }
    match arrow_to(messages, event) {
        Some(arrow) => arrows.push(arrow),
        None => Ok(()),
    }
}

/// The arrows of all events that are drawn, in their order.
pub fn arrows_of(
    alloc: Global,
    range: Range,
    events: &[Event],
    messages: &[Message],
) -> Result<Rows<Arrow>, NoMemory>
    ensures { IfOk result (λ arrows. arrows ≡ flat_map (arrows_at range messages.now) events.now) }
{
    let mut arrows = Rows::new(alloc);
    for event in events {
        put_arrow(range, messages, *event, &mut arrows)?;
    }
    Ok(arrows)
}
