//! The top call: which command the words name, what is told on standard error, and the exit status.
ghost use Rattle.std.specs.Prelude.{◌≡◌, ◌↔◌, IsTrue, IfOk, string_bytes};
ghost use Rattle.lr_outside.specs.Seen.{HasTold, sink_change, source_change};
ghost use Rattle.lazyrep.specs.Top.{cause_text, IsCode, IsSim, SimStatus, text_of, Told, usage_text};

#[cfg(test)]
mod tests;

use lr_outside::{Sink, Source, write_whole};
use lr_script::Cause;
use lr_sim::{SimEnd, sim_command};
use std::alloc::{AllocError, Global};

const USAGE: &[u8] = b"usage: lazyrep sim | run | gen NUMBER\n";

const READ_FAULT: &[u8] = b"lazyrep: read fault\n";

const WRITE_FAULT: &[u8] = b"lazyrep: write fault\n";

const NO_MEMORY: &[u8] = b"lazyrep: no memory\n";

/// How the program ended, as its exit status.
#[derive(Clone, Copy, PartialEq, Eq)]
pub struct Status {
    /// 0: done; 2: other words; 3: no script; 4: a read fault; 5: a write fault; 6: no memory.
    pub code: u8,
}

/// Does all that the program does. The first of the words is the program's name.
pub fn lazyrep_top<R: Source, W: Sink, E: Sink>(
    alloc: Global,
    words: &[String],
    input: &mut R,
    out: &mut W,
    err: &mut E,
) -> Status
    ensures code { IsCode result.code }
    ensures usage { (result.code ≡ 2) ↔ ¬ (IsSim words.now) }
    ensures unread { result.code ≡ 2 → input.new ≡ input.old }
    ensures unwritten { result.code ≡ 2 → out.new ≡ out.old }
    ensures usage_told { result.code ≡ 2 → HasTold (sink_change E.seen err.old err.new) usage_text }
    ensures sim { IsSim words.now → SimStatus (source_change R.seen input.old input.new)
        (sink_change W.seen out.old out.new) (sink_change E.seen err.old err.new) result.code }
{
    if !is_sim(words) {
        return tell(err, USAGE, 2);
    }
    let end = sim_command(alloc, input, out);
    tell_end(alloc, end, err)
}

// Whether the words ask for the simulator.
fn is_sim(words: &[String]) -> bool
    ensures { IsTrue result ↔ IsSim words.now }
{
    match words {
        [_program, word] => word.as_str() == "sim",
        _ => false,
    }
}

// Tells an end on standard error, and answers its status. Where there is no memory for the text, that is told instead.
fn tell_end<E: Sink>(alloc: Global, end: SimEnd, err: &mut E) -> Status
    ensures { Told (sink_change E.seen err.old err.new) end result.code }
{
    match end {
        SimEnd::Ok => Status { code: 0 },
        SimEnd::Script { line, cause } => match fault_line(alloc, line, cause) {
            Ok(text) => tell(err, text.as_bytes(), 3),
            Err(_) => tell(err, NO_MEMORY, 6),
        },
        SimEnd::ReadFault => tell(err, READ_FAULT, 4),
        SimEnd::WriteFault => tell(err, WRITE_FAULT, 5),
        SimEnd::NoMemory => tell(err, NO_MEMORY, 6),
    }
}

// Writes a text to standard error. A failing one changes nothing.
fn tell<E: Sink>(err: &mut E, text: &[u8], code: u8) -> Status
    ensures code { result.code ≡ code }
    ensures told { HasTold (sink_change E.seen err.old err.new) text.now }
{
    let _ = write_whole(err, text);
    Status { code }
}

fn fault_line(alloc: Global, line: u64, cause: Cause) -> Result<String, AllocError>
    ensures { IfOk result (λ text. string_bytes text ≡ text_of (SimEnd.Script line cause)) }
{
    let word = word_of(cause);
    format!(in alloc; "lazyrep: line {line}: {word}\n")
}

fn word_of(cause: Cause) -> &'static str
    ensures { result.now ≡ cause_text cause }
{
    match cause {
        Cause::TooLong => "too long",
        Cause::Unended => "unended",
        Cause::Byte => "byte",
        Cause::Header => "header",
        Cause::Event => "event",
        Cause::Fields => "fields",
        Cause::Number => "number",
        Cause::Range => "range",
        Cause::Op => "op",
    }
}
