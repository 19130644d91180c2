//! What a picture has besides its arrows, and where things stand in it.
ghost use Rattle.std.specs.Prelude.{◌≡◌, ◌==◌, position};
ghost use Rattle.lr_draw.specs.Places.{same_actor, x_of, y_of};

use crate::arrows::Arrow;
use crate::history::Span;
use crate::kinds::Kind;
use lr_base::{Actor, Rows};

/// Where a drawn event's column is, in pixels from the left: the first one, and the distance of two.
pub const LEFT: u64 = 72;

pub const STEP: u64 = 30;

/// Where what comes from before the drawn events begins.
pub const EDGE: u64 = 44;

/// Where a lane is, in pixels from the top: the first one, and the distance of two.
pub const TOP: u64 = 84;

pub const GAP: u64 = 68;

/// A place in the picture, in pixels from its upper left corner.
#[derive(Clone, Copy)]
pub struct Point {
    pub x: u64,
    pub y: u64,
}

/// How a line or a dot looks.
#[derive(Clone, Copy)]
pub enum Class {
    /// The lane of a client, or of a replica that is up.
    Lane,
    /// The lane of a replica that is down.
    Broken,
    /// A query is held.
    Bar,
    /// A message was never delivered.
    Cross,
    /// An event of an actor.
    Dot,
    /// The other replica that an event names.
    Ring,
    /// As the messages of this kind.
    Of(Kind),
}

/// Whether a text ends or begins at its place.
#[derive(Clone, Copy)]
pub enum Side {
    Left,
    Right,
}

/// What is drawn. Spans are of the input's bytes.
#[derive(Clone, Copy)]
pub enum Mark {
    Line {
        class: Class,
        from: Point,
        to: Point,
        title: Span,
    },
    Dot {
        class: Class,
        at: Point,
        title: Span,
    },
    /// A short text, which rises or falls to the right.
    Words {
        at: Point,
        rises: bool,
        text: Span,
    },
    /// An event's number.
    Number {
        at: Point,
        number: u32,
    },
    /// A lane's name.
    Name {
        at: Point,
        actor: Actor,
    },
    /// A message's number and kind, on one side of the place.
    Tag {
        at: Point,
        side: Side,
        number: u64,
        kind: Kind,
    },
    /// A kind's name in the legend.
    Key {
        at: Point,
        kind: Kind,
    },
}

/// A picture: the number of its first event, the actors of its lanes from top to bottom, its size, and what is drawn,
/// in three layers.
#[derive(Drop)]
pub struct Picture {
    pub first: u64,
    pub lanes: Rows<Actor>,
    pub size: Point,
    pub under: Rows<Mark>,
    pub arrows: Rows<Arrow>,
    pub over: Rows<Mark>,
}

/// The column of an event, where the first drawn one has this number.
pub fn column(first: u64, event: u32) -> u64
    ensures { result ≡ x_of first event }
{
    let event = event as u64;
    if event < first {
        return EDGE;
    }
    LEFT + STEP * (event - first)
}

/// Whether the two are one.
pub fn is_same(a: Actor, b: Actor) -> bool
    ensures { result ≡ same_actor a b }
{
    match a {
        Actor::Client(number) => match b {
            Actor::Client(other) => number == other,
            Actor::Replica(_) => false,
        },
        Actor::Replica(number) => match b {
            Actor::Client(_) => false,
            Actor::Replica(other) => number == other,
        },
    }
}

fn row_of(lanes: &[Actor], actor: Actor) -> Option<usize>
    ensures { result ≡ position (λ lane. same_actor lane actor) lanes.now }
{
    lanes.iter().position(|lane| is_same(*lane, actor))
}

/// The height of an actor's lane.
pub fn height(lanes: &[Actor], actor: Actor) -> u64
    ensures { result ≡ y_of lanes.now actor }
{
    let row = row_of(lanes, actor).unwrap_or(0).min(127);
    TOP + GAP * row as u64
}
