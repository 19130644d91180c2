//! The bars of a picture: a query that a replica holds.
use crate::acts::Act;
use crate::fields::{behind, behind_first, first_of};
use crate::history::{Event, Message, Span};
use crate::kinds::Kind;
use crate::lines::{first_line, shown};
use crate::marks::{Class, Mark, Point, column, height, is_same};
use crate::steps::{Scene, lane_of, outcomes_of};
use lr_base::{Actor, NoMemory, Rows};

/// Adds a bar for each query that is held while something is drawn.
pub fn put_bars(scene: &Scene<'_>, under: &mut Rows<Mark>) -> Result<(), NoMemory> {
    for (at, event) in scene.events.iter().enumerate() {
        if event.number as u64 <= scene.range.last {
            if let Some(lane) = lane_of(scene.messages, *event) {
                put_bars_of(scene, *event, lane, scene.block(at), under)?;
            }
        }
    }
    Ok(())
}

// The queries that are held from this event on.
fn put_bars_of(
    scene: &Scene<'_>,
    event: Event,
    lane: Actor,
    block: Span,
    under: &mut Rows<Mark>,
) -> Result<(), NoMemory> {
    let mut rest = outcomes_of(scene.bytes, block);
    while let Some(cut) = first_line(rest) {
        if let Some(call) = behind(cut.line, b"  hold ") {
            put_bar(scene, event, lane, call, block, under)?;
        }
        rest = cut.later;
    }
    Ok(())
}

fn put_bar(
    scene: &Scene<'_>,
    event: Event,
    lane: Actor,
    call: &[u8],
    block: Span,
    under: &mut Rows<Mark>,
) -> Result<(), NoMemory> {
    let end = end_of_hold(scene, event.number, lane, call);
    if (end as u64) < scene.range.first {
        return Ok(());
    }
    let to = if end as u64 <= scene.range.last {
        column(scene.range.first, end)
    } else {
        scene.right
    };
    let y = height(scene.lanes, lane);
    under.push(Mark::Line {
        class: Class::Bar,
        from: Point {
            x: column(scene.range.first, event.number),
            y,
        },
        to: Point { x: to, y },
        title: block,
    })
}

// The first event behind this one that answers the call or restarts its replica; the greatest number if there is none.
fn end_of_hold(scene: &Scene<'_>, after: u32, lane: Actor, call: &[u8]) -> u32 {
    let is_answer = |message: &&Message| {
        message.event > after && is_same(message.from, lane) && answers(scene.bytes, message, call)
    };
    let is_restart = |event: &&Event| event.number > after && restarts(event.act, lane);
    let answered = match scene.messages.iter().find(is_answer) {
        Some(message) => message.event,
        None => u32::MAX,
    };
    match scene.events.iter().find(is_restart) {
        Some(event) => answered.min(event.number),
        None => answered,
    }
}

fn restarts(act: Act, lane: Actor) -> bool {
    match act {
        Act::Restart { replica } => is_same(Actor::Replica(replica), lane),
        Act::Deliver { .. } | Act::At { .. } | Act::Gossip { .. } | Act::Elsewhere => false,
    }
}

// Whether a message is the answer to the call: its line has the call behind five fields.
fn answers(bytes: &[u8], message: &Message, call: &[u8]) -> bool {
    if message.kind != Kind::Answer {
        return false;
    }
    let Some(line) = behind(shown(bytes, message.line), b"  send ") else {
        return false;
    };
    let what = behind_first(behind_first(behind_first(line)));
    first_of(behind_first(what)) == call
}
