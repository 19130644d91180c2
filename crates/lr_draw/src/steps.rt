//! The columns of a picture: an event's number, its dot, and short texts of what it did.
use crate::acts::Act;
use crate::arrows::{is_in, sent_before};
use crate::fields::{behind, behind_first, first_of};
use crate::history::{Event, Message, Range, Span};
use crate::lines::{first_line, shown};
use crate::marks::{Class, Mark, Point, column, height};
use lr_base::{Actor, NoMemory, Rows};

// Where an event's number stands, and what it did where it has no lane, in pixels from the top.
const NUMBER_HEIGHT: u64 = 16;

const LANELESS_HEIGHT: u64 = 46;

// How far apart the short texts of one event are.
const TEXT_GAP: u64 = 11;

// How long two fields of a short text are together at most.
const MOST_SHORT: usize = 12;

/// What a picture is made from: the input's bytes and what was read of them, which events are drawn, the actors of the
/// lanes, and where they end at the right.
#[derive(Clone, Copy)]
pub struct Scene<'a> {
    pub bytes: &'a [u8],
    pub events: &'a [Event],
    pub messages: &'a [Message],
    pub range: Range,
    pub lanes: &'a [Actor],
    pub right: u64,
}

impl Scene<'_> {
    /// Where an event stands on an actor's lane.
    pub fn place(&self, event: u32, actor: Actor) -> Point {
        Point {
            x: column(self.range.first, event),
            y: height(self.lanes, actor),
        }
    }

    /// The lines of the event at an index of the events, without the last line feed.
    pub fn block(&self, at: usize) -> Span {
        let start = match self.events.get(at) {
            Some(event) => event.start,
            None => self.bytes.len(),
        };
        let end = match self.events.get(at.saturating_add(1)) {
            Some(event) => event.start,
            None => self.bytes.len(),
        };
        Span {
            start,
            end: end.saturating_sub(1),
        }
    }
}

/// The lane that an event stands on. A message that wasn't sent before is delivered to nobody.
pub fn lane_of(messages: &[Message], event: Event) -> Option<Actor> {
    match event.act {
        Act::Deliver { message } => match sent_before(messages, message, event.number) {
            Some(sent) => Some(sent.to),
            None => None,
        },
        Act::At { actor } => Some(actor),
        Act::Restart { replica } => Some(Actor::Replica(replica)),
        Act::Gossip { from, .. } => Some(Actor::Replica(from)),
        Act::Elsewhere => None,
    }
}

/// The lines of an event behind its own, each with its line feed.
pub fn outcomes_of<'a>(bytes: &'a [u8], block: Span) -> &'a [u8] {
    let whole = Span {
        start: block.start,
        end: block.end.saturating_add(1),
    };
    match first_line(shown(bytes, whole)) {
        Some(cut) => cut.later,
        None => &bytes[bytes.len()..],
    }
}

/// Adds the columns of all events that are drawn.
pub fn put_steps(scene: &Scene<'_>, over: &mut Rows<Mark>) -> Result<(), NoMemory> {
    for (at, event) in scene.events.iter().enumerate() {
        if is_in(scene.range, event.number) {
            put_step(scene, *event, scene.block(at), over)?;
        }
    }
    Ok(())
}

fn put_step(
    scene: &Scene<'_>,
    event: Event,
    block: Span,
    over: &mut Rows<Mark>,
) -> Result<(), NoMemory> {
    let x = column(scene.range.first, event.number);
    let at = Point {
        x,
        y: NUMBER_HEIGHT,
    };
    let number = event.number;
    over.push(Mark::Number { at, number })?;
    put_ring(scene, event, block, over)?;
    let lane = lane_of(scene.messages, event);
    let at = match lane {
        Some(actor) => {
            let at = scene.place(number, actor);
            let class = Class::Dot;
            over.push(Mark::Dot {
                class,
                at,
                title: block,
            })?;
            at
        }
        None => Point {
            x,
            y: LANELESS_HEIGHT,
        },
    };
    put_texts(scene, beside_of(at, lane), block, over)
}

// The other replica that gossip names has a ring.
fn put_ring(
    scene: &Scene<'_>,
    event: Event,
    block: Span,
    over: &mut Rows<Mark>,
) -> Result<(), NoMemory> {
    match event.act {
        Act::Gossip { to, .. } => over.push(Mark::Dot {
            class: Class::Ring,
            at: scene.place(event.number, Actor::Replica(to)),
            title: block,
        }),
        Act::Deliver { .. } | Act::At { .. } | Act::Restart { .. } | Act::Elsewhere => Ok(()),
    }
}

// Where the short texts of an event begin, and whether they rise: those of a replica fall below its lane, so that they
// don't meet its replies.
#[derive(Clone, Copy)]
struct Beside {
    at: Point,
    rises: bool,
}

// The place for one text more, above or below this one.
fn next_beside(beside: Beside) -> Beside {
    let Beside { at, rises } = beside;
    let y = if rises {
        at.y.saturating_sub(TEXT_GAP)
    } else {
        at.y.saturating_add(TEXT_GAP)
    };
    Beside {
        at: Point { x: at.x, y },
        rises,
    }
}

fn beside_of(at: Point, lane: Option<Actor>) -> Beside {
    match lane {
        Some(Actor::Replica(_)) => Beside {
            at: Point {
                x: at.x.saturating_add(1),
                y: at.y.saturating_add(14),
            },
            rises: false,
        },
        Some(Actor::Client(_)) | None => Beside {
            at: Point {
                x: at.x.saturating_add(4),
                y: at.y.saturating_sub(7),
            },
            rises: true,
        },
    }
}

// Adds a short text for each outcome that isn't a message, one beyond the other.
fn put_texts(
    scene: &Scene<'_>,
    first: Beside,
    block: Span,
    over: &mut Rows<Mark>,
) -> Result<(), NoMemory> {
    let mut rest = outcomes_of(scene.bytes, block);
    let mut beside = first;
    while let Some(cut) = first_line(rest) {
        if let Some(text) = text_of(cut.line) {
            let start = block.end.saturating_add(1).saturating_sub(rest.len());
            let start = start.saturating_add(2);
            let end = start.saturating_add(short_len(text));
            let Beside { at, rises } = beside;
            over.push(Mark::Words {
                at,
                rises,
                text: Span { start, end },
            })?;
            beside = next_beside(beside);
        }
        rest = cut.later;
    }
    Ok(())
}

// What an outcome line says, unless it is that a message was sent.
fn text_of(line: &[u8]) -> Option<&[u8]> {
    let Some(text) = behind(line, b"  ") else {
        return None;
    };
    match behind(text, b"send ") {
        Some(_) => None,
        None => Some(text),
    }
}

// How much of a text is shown: two fields where they are short, or else one.
fn short_len(text: &[u8]) -> usize {
    let one = first_of(text).len();
    let later = behind_first(text);
    if later.is_empty() {
        return one;
    }
    let two = one.saturating_add(1).saturating_add(first_of(later).len());
    if two <= MOST_SHORT { two } else { one }
}
