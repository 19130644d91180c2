//! The picture of a history.
ghost use Rattle.std.specs.Prelude.{◌≡◌, ◌≢◌, ◌<◌, ℕ, IfOk};
ghost use Rattle.std.specs.List.{flat_map};
ghost use Rattle.lr_draw.specs.Arrows.{arrows_at};
ghost use Rattle.lr_draw.specs.Drawings.{drawn_count, IsPicture};

use crate::arrows::{Arrow, arrow_to, arrows_of, is_in};
use crate::bars::put_bars;
use crate::history::{DrawFault, Event, History, Message, Range, Span};
use crate::kinds::Kind;
use crate::lanes::{lanes_of, put_lanes};
use crate::legend::put_legend;
use crate::marks::{Class, GAP, LEFT, Mark, Picture, Point, Side, TOP, column};
use crate::steps::{Scene, put_steps};
use lr_base::{NoMemory, Rows};
use std::alloc::Global;

// How many events a picture has at most.
const MOST_EVENTS: usize = 10_000;

fn count_drawn(range: Range, events: &[Event]) -> usize
    ensures { result ≡ drawn_count range events.now }
{
    events
        .iter()
        .filter(|event| is_in(range, event.number))
        .count()
}

/// The picture of these events of a history.
pub fn draw_history(
    alloc: Global,
    bytes: &[u8],
    history: &History,
    range: Range,
) -> Result<Picture, DrawFault>
    ensures ok { IfOk result (IsPicture range history.now) }
    ensures long { result ≡ Err DrawFault.TooLong → 10000 < drawn_count range history.now.events }
    ensures line { (number : ℕ) → result ≢ Err (DrawFault.Line number) }
{
    let events = history.events.as_slice();
    let messages = history.messages.as_slice();
    if MOST_EVENTS < count_drawn(range, events) {
        return Err(DrawFault::TooLong);
    }
    match draw_marks(alloc, bytes, events, messages, range) {
        Ok(picture) => Ok(picture),
        Err(_) => Err(DrawFault::NoMemory),
    }
}

fn draw_marks(
    alloc: Global,
    bytes: &[u8],
    events: &[Event],
    messages: &[Message],
    range: Range,
) -> Result<Picture, NoMemory>
    ensures first { IfOk result (λ picture. picture.first ≡ range.first) }
    ensures arrows { IfOk result (λ picture.
        picture.arrows ≡ flat_map (arrows_at range messages.now) events.now) }
{
    let lanes = lanes_of(alloc, events, messages)?;
    let arrows = arrows_of(alloc, range, events, messages)?;
    let mut under = Rows::new(alloc);
    let mut over = Rows::new(alloc);
    let scene = Scene {
        bytes,
        events,
        messages,
        range,
        lanes: lanes.as_slice(),
        right: right_edge(range, events),
    };
    put_bars(&scene, &mut under)?;
    put_lanes(&scene, &mut under)?;
    put_undelivered(alloc, &scene, &mut under, &mut over)?;
    put_tags(&scene, arrows.as_slice(), &mut over)?;
    put_steps(&scene, &mut over)?;
    let size = put_foot(&scene, arrows.as_slice(), &mut over)?;
    Ok(Picture {
        first: range.first,
        lanes,
        size,
        under,
        arrows,
        over,
    })
}

// Where the lanes end.
fn right_edge(range: Range, events: &[Event]) -> u64 {
    let last = match events.iter().rev().find(|event| is_in(range, event.number)) {
        Some(event) => column(range.first, event.number),
        None => LEFT,
    };
    last.saturating_add(34)
}

// Adds the legend below the lanes, and answers the picture's size.
fn put_foot(scene: &Scene<'_>, arrows: &[Arrow], over: &mut Rows<Mark>) -> Result<Point, NoMemory> {
    let below = GAP.saturating_mul(scene.lanes.len() as u64);
    let start = Point {
        x: 12,
        y: TOP.saturating_add(below),
    };
    let last = put_legend(scene, arrows, start, over)?;
    Ok(Point {
        x: scene.right.saturating_add(28).max(160),
        y: last.saturating_add(14),
    })
}

// Adds the number and the kind of each arrow's message, beside it.
fn put_tags(scene: &Scene<'_>, arrows: &[Arrow], over: &mut Rows<Mark>) -> Result<(), NoMemory> {
    for (at, arrow) in arrows.iter().enumerate() {
        let number = arrow.number;
        let is_repeated = arrows[..at].iter().any(|other| other.number == number);
        let from = scene.place(arrow.sent.event, arrow.sent.from);
        let to = scene.place(arrow.ends, arrow.sent.to);
        let tag = Tag {
            number,
            kind: arrow.sent.kind,
            is_repeated,
        };
        put_tag(from, to, tag, over)?;
    }
    Ok(())
}

// What stands beside an arrow, and whether it stands beside an earlier one too.
#[derive(Clone, Copy)]
struct Tag {
    number: u64,
    kind: Kind,
    is_repeated: bool,
}

// The text of an arrow that falls stands on its left, and that of one that rises on its right, both nearer to its
// begin: so those of a message and of its reply don't meet. That of a message delivered again is nearer to the end,
// where its arrows are further apart.
fn put_tag(from: Point, to: Point, tag: Tag, over: &mut Rows<Mark>) -> Result<(), NoMemory> {
    let falls = from.y < to.y;
    let part = if tag.is_repeated { 7 } else { 3 };
    let x = part_way(from.x, to.x, part);
    let y = part_way(from.y, to.y, part).saturating_add(7);
    let (x, side) = if falls {
        (x.saturating_sub(3), Side::Left)
    } else {
        (x.saturating_add(4), Side::Right)
    };
    over.push(Mark::Tag {
        at: Point { x, y },
        side,
        number: tag.number,
        kind: tag.kind,
    })
}

// What is so many tenths of the way from one number to another.
fn part_way(from: u64, to: u64, part: u64) -> u64 {
    let kept = from.saturating_mul(10u64.saturating_sub(part));
    kept.saturating_add(to.saturating_mul(part)) / 10
}

// For each message the number of the last event that delivers it, or 0.
fn last_deliveries(
    alloc: Global,
    events: &[Event],
    messages: &[Message],
) -> Result<Vec<u32>, NoMemory> {
    let mut last = vec![in alloc; 0; messages.len()]?;
    for event in events {
        if let Some(arrow) = arrow_to(messages, *event) {
            let at = arrow.number.saturating_sub(1) as usize;
            if let Some(delivery) = last.get_mut(at) {
                *delivery = arrow.ends;
            }
        }
    }
    Ok(last)
}

// Adds the messages sent by drawn events that were never delivered, or behind what is drawn.
fn put_undelivered(
    alloc: Global,
    scene: &Scene<'_>,
    under: &mut Rows<Mark>,
    over: &mut Rows<Mark>,
) -> Result<(), NoMemory> {
    let deliveries = last_deliveries(alloc, scene.events, scene.messages)?;
    let all = scene.messages.iter().zip(deliveries.as_slice());
    for (at, (message, delivery)) in all.enumerate() {
        if is_in(scene.range, message.event) {
            let number = (at as u64).saturating_add(1);
            if *delivery == 0 {
                put_lost(scene, *message, number, under, over)?;
            } else if *delivery as u64 > scene.range.last {
                put_beyond(scene, *message, number, under, over)?;
            }
        }
    }
    Ok(())
}

fn tag_of(message: Message, number: u64) -> Tag {
    Tag {
        number,
        kind: message.kind,
        is_repeated: false,
    }
}

// A message that goes beyond what is drawn ends at the edge.
fn put_beyond(
    scene: &Scene<'_>,
    message: Message,
    number: u64,
    under: &mut Rows<Mark>,
    over: &mut Rows<Mark>,
) -> Result<(), NoMemory> {
    let from = scene.place(message.event, message.from);
    let to = Point {
        x: scene.right,
        y: scene.place(message.event, message.to).y,
    };
    under.push(Mark::Line {
        class: Class::Of(message.kind),
        from,
        to,
        title: message.line,
    })?;
    put_tag(from, to, tag_of(message, number), over)
}

// A message that was never delivered ends in a small cross.
fn put_lost(
    scene: &Scene<'_>,
    message: Message,
    number: u64,
    under: &mut Rows<Mark>,
    over: &mut Rows<Mark>,
) -> Result<(), NoMemory> {
    let from = scene.place(message.event, message.from);
    let goal = scene.place(message.event, message.to).y;
    let y = if from.y < goal {
        from.y.saturating_add(28)
    } else {
        from.y.saturating_sub(28)
    };
    let to = Point {
        x: from.x.saturating_add(16),
        y,
    };
    under.push(Mark::Line {
        class: Class::Of(message.kind),
        from,
        to,
        title: message.line,
    })?;
    put_cross(to, message.line, over)?;
    let side = Point {
        x: to.x.saturating_add(3),
        y: to.y.saturating_sub(3),
    };
    put_tag(side, side, tag_of(message, number), over)
}

fn put_cross(at: Point, title: Span, over: &mut Rows<Mark>) -> Result<(), NoMemory> {
    let left = at.x.saturating_sub(4);
    let right = at.x.saturating_add(4);
    let above = at.y.saturating_sub(4);
    let below = at.y.saturating_add(4);
    let class = Class::Cross;
    over.push(Mark::Line {
        class,
        from: Point { x: left, y: above },
        to: Point { x: right, y: below },
        title,
    })?;
    over.push(Mark::Line {
        class,
        from: Point { x: left, y: below },
        to: Point { x: right, y: above },
        title,
    })
}
