//! Why bytes are no script.
use thiserror::Error;

/// What is wrong with a line, in the order of the checks.
#[derive(Clone, Copy, Debug, PartialEq, Eq)]
pub enum Cause {
    /// The whole input has too many bytes. Its line is 0.
    TooLong,
    /// There is no LF behind it.
    Unended,
    /// A byte is outside the printable ones, from the space to the tilde.
    Byte,
    /// The first line is no header.
    Header,
    /// The first field is no event's word.
    Event,
    /// There are too few fields or too many.
    Fields,
    /// A field that has to be a number isn't one.
    Number,
    /// There is no such replica or client.
    Range,
    /// The rest of the line is no operation of the service.
    Op,
}

/// Why a script was not read.
#[derive(Debug, Drop, Error)]
pub enum ScriptFault {
    /// The first bad line, from 1, and the first cause at it.
    #[error("line {line}: {cause:?}")]
    Line { line: u64, cause: Cause },
    #[error("no memory")]
    NoMemory,
}
