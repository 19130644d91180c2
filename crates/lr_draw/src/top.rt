//! The top call: which events the words ask for, what is told on standard error, and the exit status.
ghost use Rattle.std.specs.Prelude.{◌≡◌, ◌↔◌, ◌≤◌, ◌-◌, ◌^◌, IfOk, IfSome, IsNone, string_bytes};
ghost use Rattle.lr_outside.specs.Seen.{HasTold, sink_change, source_change};
ghost use Rattle.lr_draw.specs.Top.{AreNumbers, DrawStatus, IsAsked, IsCode, IsRange, text_of, Told, usage_text};
ghost use Rattle.lr_draw.specs.declared.history.Range.{Range};

#[cfg(test)]
mod tests;

use crate::command::{DrawEnd, draw_command};
use crate::history::Range;
use lr_base::read_number;
use lr_outside::{Sink, Source, write_whole};
use std::alloc::{AllocError, Global};

const USAGE: &[u8] = b"usage: draw [FIRST LAST]\n";

const TOO_LONG: &[u8] = b"draw: too long\n";

const READ_FAULT: &[u8] = b"draw: read fault\n";

const WRITE_FAULT: &[u8] = b"draw: write fault\n";

const NO_MEMORY: &[u8] = b"draw: no memory\n";

/// How the program ended, as its exit status.
#[derive(Clone, Copy, PartialEq, Eq)]
pub struct Status {
    /// 0: done; 2: other words; 3: no history, or too long; 4: a read fault; 5: a write fault; 6: no memory.
    pub code: u8,
}

/// Does all that the program does. The first of the words is the program's name.
pub fn draw_top<R: Source, W: Sink, E: Sink>(
    alloc: Global,
    words: &[String],
    input: &mut R,
    out: &mut W,
    err: &mut E,
) -> Status
    ensures code { IsCode result.code }
    ensures usage { (result.code ≡ 2) ↔ ¬ (IsAsked words.now) }
    ensures unread { result.code ≡ 2 → input.new ≡ input.old }
    ensures unwritten { result.code ≡ 2 → out.new ≡ out.old }
    ensures usage_told { result.code ≡ 2 → HasTold (sink_change E.seen err.old err.new) usage_text }
    ensures drawn { IsAsked words.now → DrawStatus words.now (source_change R.seen input.old input.new)
        (sink_change W.seen out.old out.new) (sink_change E.seen err.old err.new) result.code }
{
    let Some(range) = range_of(words) else {
        return tell(err, USAGE, 2);
    };
    let end = draw_command(alloc, range, input, out);
    tell_end(alloc, end, err)
}

// The events that the words ask for: all, or those from one number to another.
fn range_of(words: &[String]) -> Option<Range>
    ensures some { IfSome result (IsRange words.now) }
    ensures none { IsNone result → ¬ (IsAsked words.now) }
{
    match words {
        [_program] => Some(Range {
            first: 1,
            last: u64::MAX,
        }),
        [_program, first, last] => numbered(first.as_bytes(), last.as_bytes()),
        _ => None,
    }
}

fn numbered(first: &[u8], last: &[u8]) -> Option<Range>
    ensures some { IfSome result (AreNumbers first.now last.now) }
    ensures none { IsNone result → (range : Range) → range.last ≤ 2 ^ 64 - 1
        → ¬ (AreNumbers first.now last.now range) }
{
    let Some(first) = read_number(first) else {
        return None;
    };
    let Some(last) = read_number(last) else {
        return None;
    };
    if first == 0 {
        return None;
    }
    if last < first {
        return None;
    }
    Some(Range { first, last })
}

// Tells an end on standard error, and answers its status. Where there is no memory for the text, that is told instead.
fn tell_end<E: Sink>(alloc: Global, end: DrawEnd, err: &mut E) -> Status
    ensures { Told (sink_change E.seen err.old err.new) end result.code }
{
    match end {
        DrawEnd::Ok => Status { code: 0 },
        DrawEnd::Line { line } => match fault_line(alloc, line) {
            Ok(text) => tell(err, text.as_bytes(), 3),
            Err(_) => tell(err, NO_MEMORY, 6),
        },
        DrawEnd::TooLong => tell(err, TOO_LONG, 3),
        DrawEnd::ReadFault => tell(err, READ_FAULT, 4),
        DrawEnd::WriteFault => tell(err, WRITE_FAULT, 5),
        DrawEnd::NoMemory => tell(err, NO_MEMORY, 6),
    }
}

// Writes a text to standard error. A failing one changes nothing.
fn tell<E: Sink>(err: &mut E, text: &[u8], code: u8) -> Status
    ensures code { result.code ≡ code }
    ensures told { HasTold (sink_change E.seen err.old err.new) text.now }
{
    let _ = write_whole(err, text);
    Status { code }
}

fn fault_line(alloc: Global, line: u64) -> Result<String, AllocError>
    ensures { IfOk result (λ text. string_bytes text ≡ text_of (DrawEnd.Line line)) }
{
    format!(in alloc; "draw: line {line}\n")
}
