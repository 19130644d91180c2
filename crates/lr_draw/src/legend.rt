//! The legend of a picture: a line and a name for each kind that it shows.
use crate::arrows::{Arrow, is_in};
use crate::history::Span;
use crate::kinds::{KINDS, Kind};
use crate::marks::{Class, Mark, Point};
use crate::steps::Scene;
use lr_base::{NoMemory, Rows};

// How wide and how high an entry is.
const WIDTH: u64 = 104;

const HEIGHT: u64 = 18;

/// Adds the entries of the kinds that occur, from this place on, and answers where the last row of them is.
pub fn put_legend(
    scene: &Scene<'_>,
    arrows: &[Arrow],
    start: Point,
    over: &mut Rows<Mark>,
) -> Result<u64, NoMemory> {
    let mut at = start;
    for kind in KINDS {
        if occurs(scene, arrows, kind) {
            if at.x > start.x && at.x.saturating_add(WIDTH) > scene.right {
                at = Point {
                    x: start.x,
                    y: at.y.saturating_add(HEIGHT),
                };
            }
            put_entry(at, kind, over)?;
            at.x = at.x.saturating_add(WIDTH);
        }
    }
    Ok(at.y)
}

// Whether a message of this kind is drawn.
fn occurs(scene: &Scene<'_>, arrows: &[Arrow], kind: Kind) -> bool {
    if arrows.iter().any(|arrow| arrow.sent.kind == kind) {
        return true;
    }
    let range = scene.range;
    scene.messages.iter().any(|message| is_in(range, message.event) && message.kind == kind)
}

fn put_entry(at: Point, kind: Kind, over: &mut Rows<Mark>) -> Result<(), NoMemory> {
    let y = at.y.saturating_sub(4);
    over.push(Mark::Line {
        class: Class::Of(kind),
        from: Point { x: at.x, y },
        to: Point {
            x: at.x.saturating_add(36),
            y,
        },
        title: Span { start: 0, end: 0 },
    })?;
    over.push(Mark::Key {
        at: Point {
            x: at.x.saturating_add(42),
            y: at.y,
        },
        kind,
    })
}
