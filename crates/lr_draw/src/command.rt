//! Reads a history to its end, and writes its picture.
ghost use Rattle.std.specs.Prelude.{◌≡◌, IfOk, IfErr};
ghost use Rattle.lr_draw.specs.Drawings.{IsDrawing, IsUndrawn};
ghost use Rattle.lr_draw.specs.Ends.{EndMeans, HasReadInput, refused_end};
ghost use Rattle.lr_outside.specs.Seen.{sink_change, source_change, SourceChange};

use crate::history::{DrawFault, Range};
use crate::picture::draw_history;
use crate::printing::put_picture;
use crate::reading::read_history;
use lr_base::Text;
use lr_outside::{ReadEnd, Sink, Source, read_up_to, write_whole};
use std::alloc::Global;

// How many bytes a history has at most.
const MOST_INPUT: usize = 67_108_864;

/// How a drawing ended.
#[derive(Clone, Copy)]
pub enum DrawEnd {
    /// The picture was written.
    Ok,
    /// The line of this number isn't one of a history.
    Line { line: u64 },
    /// There are too many bytes, or too many events for one picture.
    TooLong,
    /// Reading failed.
    ReadFault,
    /// Writing failed.
    WriteFault,
    NoMemory,
}

/// Reads a history to its end, and writes the picture of these events.
pub fn draw_command<R: Source, W: Sink>(
    alloc: Global,
    range: Range,
    input: &mut R,
    out: &mut W,
) -> DrawEnd
    ensures { EndMeans range
        (source_change R.seen input.old input.new) (sink_change W.seen out.old out.new) result }
{
    let bytes = match read_up_to(alloc, input, MOST_INPUT + 1) {
        Ok(bytes) => bytes,
        Err(ReadEnd::Failed) => return DrawEnd::ReadFault,
        Err(ReadEnd::NoMemory) => return DrawEnd::NoMemory,
    };
    draw_bytes(alloc, bytes.as_slice(), range, out)
}

// Writes the picture of these events of the history that the bytes are, whatever they were read from.
fn draw_bytes<W: Sink>(alloc: Global, bytes: &[u8], range: Range, out: &mut W) -> DrawEnd
    ensures { (source : SourceChange) → HasReadInput source bytes.now
        → EndMeans range source (sink_change W.seen out.old out.new) result }
{
    match drawn(alloc, bytes, range) {
        Ok(text) => match write_whole(out, text.as_slice()) {
            Ok(()) => DrawEnd::Ok,
            Err(_) => DrawEnd::WriteFault,
        },
        Err(refused) => ended_by(refused),
    }
}

fn ended_by(refused: DrawFault) -> DrawEnd
    ensures { result ≡ refused_end refused }
{
    match refused {
        DrawFault::Line(line) => DrawEnd::Line { line },
        DrawFault::TooLong => DrawEnd::TooLong,
        DrawFault::NoMemory => DrawEnd::NoMemory,
    }
}

// The text of the picture of the history that the bytes are.
fn drawn(alloc: Global, bytes: &[u8], range: Range) -> Result<Text, DrawFault>
    ensures ok { IfOk result (IsDrawing range bytes.now) }
    ensures err { IfErr result (IsUndrawn range bytes.now) }
{
    if MOST_INPUT < bytes.len() {
        return Err(DrawFault::TooLong);
    }
    let history = match read_history(alloc, bytes) {
        Ok(history) => history,
        Err(refused) => return Err(refused),
    };
    let picture = match draw_history(alloc, bytes, &history, range) {
        Ok(picture) => picture,
        Err(refused) => return Err(refused),
    };
    let mut text = Text::new(alloc);
    match put_picture(bytes, &picture, &mut text) {
        Ok(()) => Ok(text),
        Err(_) => Err(DrawFault::NoMemory),
    }
}
