//! The picture's text.
ghost use Rattle.std.specs.Prelude.{◌≡◌, ◌++◌, OnOk};
ghost use Rattle.std.specs.List.{flat_map};
ghost use Rattle.lr_draw.specs.Svg.{actor_name, arrow_text, begin_of, center_text, class_name, dot_text, end_of};
ghost use Rattle.lr_draw.specs.Svg.{field_text, line_text, mark_text, message_name};
ghost use Rattle.lr_draw.specs.Svg.{opening_text, picture_text, shift_text, side_text, size_text, spot_text};
ghost use Rattle.lr_draw.specs.Svg.{tilt_text, title_text, view_text, way_text, words_text};

use crate::arrows::Arrow;
use crate::escapes::put_escaped;
use crate::history::Span;
use crate::kinds::Kind;
use crate::lines::shown;
use crate::marks::{Class, Mark, Picture, Point, Side, column, height};
use lr_base::{Actor, NoMemory, Text, put_number};

/// How everything looks, and the head of an arrow.
pub const STYLE: &[u8] = b"<style>\ntext{font:10px sans-serif;fill:#222}\n\
line,path{stroke:#888;stroke-width:1.3;fill:none}\n.n{fill:#777;text-anchor:middle}\n\
.l{font:bold 13px monospace}\n.o{font:9px monospace;fill:#555}\n.k{font:11px sans-serif}\n\
.lane{stroke:#bbb;stroke-width:1}\n.broken{stroke:#c00;stroke-width:1;stroke-dasharray:2 6}\n\
.bar{stroke:#f2c14e;stroke-width:9;stroke-opacity:.7}\n.cross{stroke:#c00;stroke-width:2}\n\
circle{fill:#222;stroke:#fff;stroke-width:1}\n.ring{fill:#fff;stroke:#222}\n\
.a{marker-end:url(#head)}\n.t,.s{font:9px sans-serif;stroke:none}\n.s{text-anchor:end}\n\
.update{stroke:#1f5fbf}\n.query{stroke:#2a8f3c;stroke-dasharray:7 3}\n\
.ack{stroke:#7a5230;stroke-dasharray:2 3}\n.done{stroke:#1f5fbf;stroke-width:2.2;stroke-dasharray:12 3}\n\
.answer{stroke:#2a8f3c;stroke-width:2.2;stroke-dasharray:7 3}\n\
.gossip{stroke:#b8418f;stroke-dasharray:10 3 2 3}\n.ask{stroke:#c46a00;stroke-dasharray:1 3}\n\
.give{stroke:#c46a00;stroke-width:2.2;stroke-dasharray:1 4}\n.prepare{stroke:#5b3fb0;stroke-dasharray:14 2 2 2 2 2}\n\
.prepared{stroke:#5b3fb0;stroke-width:2.2;stroke-dasharray:14 2 2 2}\n\
.freeze{stroke:#0a8a99;stroke-dasharray:5 5}\n.frozen{stroke:#0a8a99;stroke-width:2.2;stroke-dasharray:5 5}\n\
.other{stroke:#444;stroke-dasharray:3 2}\n</style>\n\
<defs><marker id='head' markerWidth='11' markerHeight='8' refX='14' refY='4' orient='auto' \
markerUnits='userSpaceOnUse'><path d='M0 0L10 4L0 8z' style='fill:#444;stroke:none'/></marker></defs>\n\
<rect width='100%' height='100%' fill='#fff'/>\n";

/// The opening tag up to the picture's size.
pub const OPENING: &[u8] = b"<svg xmlns='http://www.w3.org/2000/svg' version='1.1";

/// The tag of a dot up to its class.
pub const DOT: &[u8] = b"<circle r='4' class='";

/// How a text's tag says where it begins, if it rises or falls.
pub const SHIFT: &[u8] = b"' transform='translate(";

#[tactic(auto, unfolding(crate::specs::Svg::field_text))]
fn put_field(before: &[u8], number: u64, out: &mut Text) -> Result<(), NoMemory>
    ensures { OnOk result (out.new ≡ out.old ++ field_text before.now number) }
{
    out.extend(before)?;
    put_number(number, out)
}

// A straight way from one place to another, which ends its element's tag.
#[tactic(auto, unfolding(crate::specs::Svg::way_text))]
fn put_way(from: Point, to: Point, out: &mut Text) -> Result<(), NoMemory>
    ensures { OnOk result (out.new ≡ out.old ++ way_text from to) }
{
    put_field(b"' d='M", from.x, out)?;
    put_field(b" ", from.y, out)?;
    put_field(b"L", to.x, out)?;
    put_field(b" ", to.y, out)?;
    out.extend(b"'>")
}

#[tactic(auto, unfolding(crate::specs::Svg::title_text))]
fn put_title(text: &[u8], out: &mut Text) -> Result<(), NoMemory>
    ensures { OnOk result (out.new ≡ out.old ++ title_text text.now) }
{
    out.extend(b"<title>")?;
    put_escaped(text, out)?;
    out.extend(b"</title>")
}

fn put_class(class: Class, out: &mut Text) -> Result<(), NoMemory>
    ensures { OnOk result (out.new ≡ out.old ++ class_name class) }
{
    match class {
        Class::Lane => out.extend(b"lane"),
        Class::Broken => out.extend(b"broken"),
        Class::Bar => out.extend(b"bar"),
        Class::Cross => out.extend(b"cross"),
        Class::Dot => out.extend(b"dot"),
        Class::Ring => out.extend(b"ring"),
        Class::Of(kind) => out.extend(kind.name().as_bytes()),
    }
}

fn put_line(
    class: Class,
    from: Point,
    to: Point,
    title: &[u8],
    out: &mut Text,
) -> Result<(), NoMemory>
    ensures { OnOk result (out.new ≡ out.old ++ line_text class from to title.now) }
{
    out.extend(b"<path class='")?;
    put_class(class, out)?;
    put_way(from, to, out)?;
    put_title(title, out)?;
    out.extend(b"</path>\n")
}

// Where a circle's centre is, which ends its element's tag.
#[tactic(auto, unfolding(crate::specs::Svg::center_text))]
fn put_center(at: Point, out: &mut Text) -> Result<(), NoMemory>
    ensures { OnOk result (out.new ≡ out.old ++ center_text at) }
{
    put_field(b"' cx='", at.x, out)?;
    put_field(b"' cy='", at.y, out)?;
    out.extend(b"'>")
}

fn put_dot(class: Class, at: Point, title: &[u8], out: &mut Text) -> Result<(), NoMemory>
    ensures { OnOk result (out.new ≡ out.old ++ dot_text class at title.now) }
{
    out.extend(DOT)?;
    put_class(class, out)?;
    put_center(at, out)?;
    put_title(title, out)?;
    out.extend(b"</circle>\n")
}

// Where a text begins that rises or falls to the right, which ends its element's tag.
#[tactic(auto, unfolding(crate::specs::Svg::shift_text))]
fn put_shift(at: Point, rises: bool, out: &mut Text) -> Result<(), NoMemory>
    ensures { OnOk result (out.new ≡ out.old ++ shift_text at rises) }
{
    put_field(SHIFT, at.x, out)?;
    put_field(b" ", at.y, out)?;
    put_tilt(rises, out)
}

fn put_tilt(rises: bool, out: &mut Text) -> Result<(), NoMemory>
    ensures { OnOk result (out.new ≡ out.old ++ tilt_text rises) }
{
    if rises {
        return out.extend(b") rotate(-30)'>");
    }
    out.extend(b") rotate(30)'>")
}

fn put_words(at: Point, rises: bool, text: &[u8], out: &mut Text) -> Result<(), NoMemory>
    ensures { OnOk result (out.new ≡ out.old ++ words_text at rises text.now) }
{
    out.extend(b"<text class='o")?;
    put_shift(at, rises, out)?;
    put_escaped(text, out)?;
    out.extend(b"</text>\n")
}

// Where a text stands, which ends its element's tag.
#[tactic(auto, unfolding(crate::specs::Svg::spot_text))]
fn put_spot(at: Point, out: &mut Text) -> Result<(), NoMemory>
    ensures { OnOk result (out.new ≡ out.old ++ spot_text at) }
{
    put_field(b"' x='", at.x, out)?;
    put_field(b"' y='", at.y, out)?;
    out.extend(b"'>")
}

fn put_actor(actor: Actor, out: &mut Text) -> Result<(), NoMemory>
    ensures { OnOk result (out.new ≡ out.old ++ actor_name actor) }
{
    match actor {
        Actor::Client(number) => put_field(b"c", number as u64, out),
        Actor::Replica(number) => put_field(b"r", number as u64, out),
    }
}

// The tag of a message's text up to its place.
fn put_side(side: Side, out: &mut Text) -> Result<(), NoMemory>
    ensures { OnOk result (out.new ≡ out.old ++ side_text side) }
{
    match side {
        Side::Left => out.extend(b"<text class='s"),
        Side::Right => out.extend(b"<text class='t"),
    }
}

fn put_message(number: u64, kind: Kind, out: &mut Text) -> Result<(), NoMemory>
    ensures { OnOk result (out.new ≡ out.old ++ message_name number kind) }
{
    put_number(number, out)?;
    out.extend(b" ")?;
    out.extend(kind.name().as_bytes())
}

#[tactic(auto, unfolding(crate::specs::Svg::mark_text))]
fn put_mark(bytes: &[u8], mark: Mark, out: &mut Text) -> Result<(), NoMemory>
    ensures { OnOk result (out.new ≡ out.old ++ mark_text bytes.now mark) }
{
    match mark {
        Mark::Line {
            class,
            from,
            to,
            title,
        } => put_line(class, from, to, shown(bytes, title), out),
        Mark::Dot { class, at, title } => put_dot(class, at, shown(bytes, title), out),
        Mark::Words { at, rises, text } => put_words(at, rises, shown(bytes, text), out),
        Mark::Number { at, number } => {
            out.extend(b"<text class='n")?;
            put_spot(at, out)?;
            put_number(number as u64, out)?;
            out.extend(b"</text>\n")
        }
        Mark::Name { at, actor } => {
            out.extend(b"<text class='l")?;
            put_spot(at, out)?;
            put_actor(actor, out)?;
            out.extend(b"</text>\n")
        }
        Mark::Tag {
            at,
            side,
            number,
            kind,
        } => {
            put_side(side, out)?;
            put_spot(at, out)?;
            put_message(number, kind, out)?;
            out.extend(b"</text>\n")
        }
        Mark::Key { at, kind } => {
            out.extend(b"<text class='k")?;
            put_spot(at, out)?;
            out.extend(kind.name().as_bytes())?;
            out.extend(b"</text>\n")
        }
    }
}

// Where an arrow begins and where it ends.
fn ends_of(picture: &Picture, arrow: Arrow) -> (Point, Point)
    ensures begins { result.0 ≡ begin_of picture.now arrow }
    ensures ends { result.1 ≡ end_of picture.now arrow }
{
    let lanes = picture.lanes.as_slice();
    let from = Point {
        x: column(picture.first, arrow.sent.event),
        y: height(lanes, arrow.sent.from),
    };
    let to = Point {
        x: column(picture.first, arrow.ends),
        y: height(lanes, arrow.sent.to),
    };
    (from, to)
}

// An arrow from the event that sent the message to the one that it ends at.
#[tactic(auto, unfolding(crate::specs::Svg::arrow_text))]
fn put_arrow(bytes: &[u8], picture: &Picture, arrow: Arrow, out: &mut Text) -> Result<(), NoMemory>
    ensures { OnOk result (out.new ≡ out.old ++ arrow_text bytes.now picture.now arrow) }
{
    let (from, to) = ends_of(picture, arrow);
    out.extend(b"<path class='a ")?;
    out.extend(arrow.sent.kind.name().as_bytes())?;
    put_way(from, to, out)?;
    put_title(shown(bytes, arrow.sent.line), out)?;
    out.extend(b"</path>\n")
}

fn put_marks(bytes: &[u8], marks: &[Mark], out: &mut Text) -> Result<(), NoMemory>
    ensures { OnOk result (out.new ≡ out.old ++ flat_map (mark_text bytes.now) marks.now) }
{
    for mark in marks {
        put_mark(bytes, *mark, out)?;
    }
    Ok(())
}

fn put_arrows(bytes: &[u8], picture: &Picture, out: &mut Text) -> Result<(), NoMemory>
    ensures { OnOk result (out.new ≡ out.old ++ flat_map (arrow_text bytes.now picture.now) picture.now.arrows) }
{
    for arrow in picture.arrows.as_slice() {
        put_arrow(bytes, picture, *arrow, out)?;
    }
    Ok(())
}

#[tactic(auto, unfolding(crate::specs::Svg::size_text))]
fn put_size(size: Point, out: &mut Text) -> Result<(), NoMemory>
    ensures { OnOk result (out.new ≡ out.old ++ size_text size) }
{
    put_field(b"' width='", size.x, out)?;
    put_field(b"' height='", size.y, out)
}

#[tactic(auto, unfolding(crate::specs::Svg::view_text))]
fn put_view(size: Point, out: &mut Text) -> Result<(), NoMemory>
    ensures { OnOk result (out.new ≡ out.old ++ view_text size) }
{
    put_field(b"' viewBox='0 0 ", size.x, out)?;
    put_field(b" ", size.y, out)?;
    out.extend(b"'>\n")
}

#[tactic(auto, unfolding(crate::specs::Svg::opening_text))]
fn put_opening(size: Point, out: &mut Text) -> Result<(), NoMemory>
    ensures { OnOk result (out.new ≡ out.old ++ opening_text size) }
{
    out.extend(OPENING)?;
    put_size(size, out)?;
    put_view(size, out)?;
    out.extend(STYLE)
}

/// Adds the picture's text behind `out`. What it shows of the input is taken from the bytes.
pub fn put_picture(bytes: &[u8], picture: &Picture, out: &mut Text) -> Result<(), NoMemory>
    ensures { OnOk result (out.new ≡ out.old ++ picture_text bytes.now picture.now) }
{
    put_opening(picture.size, out)?;
    put_marks(bytes, picture.under.as_slice(), out)?;
    put_arrows(bytes, picture, out)?;
    put_marks(bytes, picture.over.as_slice(), out)?;
    out.extend(b"</svg>\n")
}
