//! Reading up to a limit, and writing a piece whole.
ghost use Rattle.std.specs.Prelude.{◌≡◌, ◌≢◌, ◌<◌, ℕ, List, length, take, IfOk, OnOk};
ghost use Rattle.std.specs.Io.KnownBytes.{Consumes};
ghost use Rattle.lr_outside.specs.Calls.{faults_read, HasRead, HasReadMore};
ghost use Rattle.lr_outside.specs.Faults.{faults_after};
ghost use Rattle.lr_outside.specs.Seen.{HasWritten, sink_change, source_change};

use crate::sink::Sink;
use crate::source::{Failed, Source};
use lr_base::Rows;
use std::alloc::Global;

// How many bytes are read at once.
const PIECE: usize = 8192;

/// Why `read_up_to` gave up.
#[derive(Clone, Copy, Debug, PartialEq, Eq)]
pub enum ReadEnd {
    /// A read failed.
    Failed,
    /// There was no memory for the bytes.
    NoMemory,
}

/// Reads the bytes left, up to so many. On an error the bytes that were read are lost.
pub fn read_up_to<R: Source>(alloc: Global, input: &mut R, most: usize) -> Result<Rows<u8>, ReadEnd>
    ensures read { IfOk result (HasRead most (source_change R.seen input.old input.new)) }
    ensures prefix { (taken : List ℕ) × Consumes (R.seen input.old).left (R.seen input.new).left taken }
    ensures counted { (R.seen input.new).faults ≡ faults_read (R.seen input.old).faults result }
{
    let mut bytes = Rows::new(alloc);
    let mut buffer = make_buffer(alloc)?;
    while bytes.len() < most {
        let room = most - bytes.len();
        let count = read_piece(input, buffer.as_mut_slice(), room, &mut bytes)?;
        if count == 0 {
            return Ok(bytes);
        }
    }
    Ok(bytes)
}

fn make_buffer(alloc: Global) -> Result<Vec<u8>, ReadEnd>
    ensures some { IfOk result (λ buffer. 0 < length buffer.items) }
    ensures err { result ≢ Err ReadEnd.Failed }
{
    vec![in alloc; 0; PIECE].map_err(|_| ReadEnd::NoMemory)
}

// Reads once, through the buffer, at most so many bytes behind those that are there, and answers how many.
fn read_piece<R: Source>(
    input: &mut R,
    buffer: &mut [u8],
    most: usize,
    bytes: &mut Rows<u8>,
) -> Result<usize, ReadEnd>
    requires { 0 < length buffer.old }
    ensures more { IfOk result (HasReadMore most (source_change R.seen input.old input.new) bytes.old bytes.new) }
    ensures prefix { (piece : List ℕ) × Consumes (R.seen input.old).left (R.seen input.new).left piece }
    ensures counted { (R.seen input.new).faults ≡ faults_read (R.seen input.old).faults result }
{
    let room = buffer.len().min(most);
    let window = &mut buffer[..room];
    let Ok(count) = input.read(window) else {
        return Err(ReadEnd::Failed);
    };
    let Ok(()) = bytes.extend(&window[..count]) else {
        return Err(ReadEnd::NoMemory);
    };
    Ok(count)
}

/// Writes all bytes of the piece, in as many writes as it takes. On an error some first bytes of it may be written.
pub fn write_whole<W: Sink>(out: &mut W, piece: &[u8]) -> Result<(), Failed>
    ensures whole { OnOk result (HasWritten (sink_change W.seen out.old out.new) piece.now) }
    ensures prefix { (n : ℕ) × HasWritten (sink_change W.seen out.old out.new) (take n piece.now) }
    ensures counted { (W.seen out.new).faults ≡ faults_after (W.seen out.old).faults result }
{
    let mut at = 0;
    while at < piece.len() {
        let count = out.write(&piece[at..])?;
        at += count;
    }
    Ok(())
}
