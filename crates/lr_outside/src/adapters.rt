//! Sources and sinks over std's readers and writers, as standard input and output.
ghost use Rattle.std.specs.Prelude.{◌≡◌};

use crate::sink::Sink;
use crate::source::{Failed, Source};
use std::io::{Read, Write};

/// A source over a reader, whose failures it counts. It tells the bytes left where the reader does; standard input
/// doesn't.
#[derive(Drop)]
pub struct Reading<R> {
    inner: R,
    faults: u64,
}

impl<R: Read> Reading<R> {
    /// A source over this reader, with no fault counted.
    pub fn new(inner: R) -> Self
        ensures { ⟦<Reading<R> as Source>⟧.seen result ≡ record { left = R.remaining inner; faults = 0 } }
    {
        Reading { inner, faults: 0 }
    }
}

impl<R: Read> Source for Reading<R> {
    ghost seen = { λ reading. record { left = R.remaining reading.inner; faults = reading.faults } };

    fn read(&mut self, into: &mut [u8]) -> Result<usize, Failed> {
        let Ok(count) = self.inner.read(into) else {
            self.faults = self.faults.saturating_add(1);
            return Err(Failed);
        };
        Ok(count)
    }
}

/// A sink over a writer, whose failures it counts. It tells the bytes held where the writer does; standard output and
/// standard error don't. It never flushes: these two pass on each write at once, and a full device fails that write.
#[derive(Drop)]
pub struct Writing<W> {
    inner: W,
    faults: u64,
}

impl<W: Write> Writing<W> {
    /// A sink over this writer, with no fault counted.
    pub fn new(inner: W) -> Self
        ensures { ⟦<Writing<W> as Sink>⟧.seen result ≡ record { held = W.contents inner; faults = 0 } }
    {
        Writing { inner, faults: 0 }
    }
}

impl<W: Write> Sink for Writing<W> {
    ghost seen = { λ writing. record { held = W.contents writing.inner; faults = writing.faults } };

    fn write(&mut self, piece: &[u8]) -> Result<usize, Failed> {
        if piece.is_empty() {
            return Ok(0);
        }
        match self.inner.write(piece) {
            // A writer that takes nothing of a piece has failed too.
            Ok(0) | Err(_) => {
                self.faults = self.faults.saturating_add(1);
                Err(Failed)
            }
            Ok(count) => Ok(count),
        }
    }
}
