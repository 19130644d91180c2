//! The lanes of a picture.
use crate::acts::{Act, MOST_REPLICAS};
use crate::fields::behind;
use crate::history::{Event, Message, Span};
use crate::lines::first_line;
use crate::marks::{Class, EDGE, Mark, Point, column, height, is_same};
use crate::steps::{Scene, lane_of, outcomes_of};
use lr_base::{Actor, MOST_CLIENTS, NoMemory, Rows};
use std::alloc::Global;

// What has no text of the input.
const NOTHING: Span = Span { start: 0, end: 0 };

/// The actors that the events or messages name: clients and then replicas, each ascending.
pub fn lanes_of(
    alloc: Global,
    events: &[Event],
    messages: &[Message],
) -> Result<Rows<Actor>, NoMemory> {
    let mut lanes = Rows::new(alloc);
    for number in 0..MOST_CLIENTS {
        put_named(Actor::Client(number), events, messages, &mut lanes)?;
    }
    for number in 0..MOST_REPLICAS {
        put_named(Actor::Replica(number), events, messages, &mut lanes)?;
    }
    Ok(lanes)
}

fn put_named(
    actor: Actor,
    events: &[Event],
    messages: &[Message],
    lanes: &mut Rows<Actor>,
) -> Result<(), NoMemory> {
    let is_party = |message: &Message| is_same(message.from, actor) || is_same(message.to, actor);
    if messages.iter().any(is_party) {
        return lanes.push(actor);
    }
    if events.iter().any(|event| names(event.act, actor)) {
        return lanes.push(actor);
    }
    Ok(())
}

fn names(act: Act, actor: Actor) -> bool {
    match act {
        Act::At { actor: named } => is_same(named, actor),
        Act::Restart { replica } => is_same(Actor::Replica(replica), actor),
        Act::Gossip { from, to } => {
            is_same(Actor::Replica(from), actor) || is_same(Actor::Replica(to), actor)
        }
        Act::Deliver { .. } | Act::Elsewhere => false,
    }
}

/// Adds each lane and its name.
pub fn put_lanes(scene: &Scene<'_>, under: &mut Rows<Mark>) -> Result<(), NoMemory> {
    for actor in scene.lanes {
        put_lane(scene, *actor, under)?;
    }
    Ok(())
}

// A lane is broken where its replica is down: from a save that failed to the restart.
fn put_lane(scene: &Scene<'_>, actor: Actor, under: &mut Rows<Mark>) -> Result<(), NoMemory> {
    let y = height(scene.lanes, actor);
    let name = Point {
        x: 12,
        y: y.saturating_add(4),
    };
    under.push(Mark::Name { at: name, actor })?;
    let mut from = EDGE;
    let mut is_down = false;
    for (at, event) in scene.events.iter().enumerate() {
        if event.number as u64 <= scene.range.last {
            if is_down != is_down_after(scene, at, *event, actor, is_down) {
                let x = column(scene.range.first, event.number);
                put_part(is_down, y, from, x, under)?;
                from = x;
                is_down = !is_down;
            }
        }
    }
    put_part(is_down, y, from, scene.right, under)
}

// Whether the actor is down after an event.
fn is_down_after(scene: &Scene<'_>, at: usize, event: Event, actor: Actor, was_down: bool) -> bool {
    match lane_of(scene.messages, event) {
        Some(lane) => {
            if !is_same(lane, actor) {
                return was_down;
            }
        }
        None => return was_down,
    }
    match event.act {
        Act::Restart { .. } => false,
        Act::Deliver { .. } | Act::At { .. } | Act::Gossip { .. } | Act::Elsewhere => {
            was_down || has_failed(outcomes_of(scene.bytes, scene.block(at)))
        }
    }
}

// Whether one of the lines says that a save failed.
fn has_failed(lines: &[u8]) -> bool {
    let mut rest = lines;
    while let Some(cut) = first_line(rest) {
        if behind(cut.line, b"  savefail").is_some() {
            return true;
        }
        rest = cut.later;
    }
    false
}

fn put_part(
    is_down: bool,
    y: u64,
    from: u64,
    to: u64,
    under: &mut Rows<Mark>,
) -> Result<(), NoMemory> {
    if to <= from {
        return Ok(());
    }
    let class = if is_down { Class::Broken } else { Class::Lane };
    under.push(Mark::Line {
        class,
        from: Point { x: from, y },
        to: Point { x: to, y },
        title: NOTHING,
    })
}
