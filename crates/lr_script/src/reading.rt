//! The whole script, read from its bytes.
ghost use Rattle.std.specs.Prelude.{◌≡◌, ◌≢◌, ℕ, ◌+◌, ◌<◌, ◌≤◌, ◌++◌, ◌↔◌, ◌⊎◌, List, length, IsTrue, IfOk, IfErr};
ghost use Rattle.std.specs.List.{All};
ghost use Rattle.lr_base.specs.Limits.{most_script_bytes};
ghost use Rattle.lr_base.specs.declared.events.Event.{Event};
ghost use Rattle.lr_script.specs.declared.heading.Header.{Header};
ghost use Rattle.lr_script.specs.declared.refusals.Cause.{Cause};
ghost use Rattle.lr_script.specs.Faults.{IsBadHead, IsFaultAt, IsBadLine, IsHeadFault, IsLineFault};
ghost use Rattle.lr_script.specs.Faults.{IsRefused, IsScriptFault};
ghost use Rattle.lr_script.specs.Script.{AreEventsOf, Fits, IsNamed, IsSetUp, IsScript, HasHeader};
ghost use Rattle.lr_script.specs.Script.{line_of, events_text};
ghost use Rattle.lr_script.specs.Texts.{event_text, header_text};

use crate::event_lines::{EventFault, read_event};
use crate::heading::header_of;
use crate::lines::first_line;
use crate::{Cause, Header, ScriptFault};
use lr_base::lr_service::Service;
use lr_base::{Config, Event, MOST_SCRIPT_BYTES, Rows};
use std::alloc::Global;

/// The header that the bytes begin with. Nothing is asked of the lines behind it.
pub fn read_header(bytes: &[u8]) -> Result<Header, ScriptFault>
    ensures ok { IfOk result (λ header. HasHeader header bytes.now) }
    ensures long { (result ≡ Err (ScriptFault.Line 0 Cause.TooLong)) ↔ (most_script_bytes < length bytes.now) }
    ensures err { IfErr result (IsHeadFault bytes.now) }

    // No memory is taken, and the answer is the one that the bytes allow.
    ensures memory { result ≢ Err ScriptFault.NoMemory }
    ensures header { (header : Header)
        → (result ≡ Ok header) ↔ (HasHeader header bytes.now × (length bytes.now ≤ most_script_bytes)) }
    ensures fault { (line : ℕ) (cause : Cause)
        → (result ≡ Err (ScriptFault.Line line cause)) ↔ IsBadHead bytes.now line cause }
{
    let (header, _lines) = split_header(bytes)?;
    Ok(header)
}

/// Whether a header that is read of the bytes names the service `S`, so that they may be read as its script.
pub fn is_for<S: Service>(bytes: &[u8]) -> bool
    ensures { IsTrue result ↔ IsNamed S.NUMBER bytes.now }
{
    match read_header(bytes) {
        Ok(header) => header.service.number() == S::NUMBER,
        Err(_) => true,
    }
}

/// The events of a script, in the order of their lines. A header that is read of the bytes has to name the service
/// `S`, which `is_for` tests.
pub fn read_script<S: Service>(
    alloc: Global,
    bytes: &[u8],
) -> Result<Rows<Event<S::Op>>, ScriptFault>
    requires { IsNamed S.NUMBER bytes.now }
    ensures ok { IfOk result (AreEventsOf S.meaning bytes.now) }
    ensures err { IfErr result (IsRefused S.meaning bytes.now) }

    // Where there is memory, the answer is the one that the bytes allow. A bad header is told without any.
    ensures head { (line : ℕ) (cause : Cause)
        → IsBadHead bytes.now line cause → result ≡ Err (ScriptFault.Line line cause) }
    ensures whole { (header : Header) (events : List (Event S.Op))
        → IsScript S.meaning header events bytes.now
        → (result ≡ Ok events) ⊎ (result ≡ Err ScriptFault.NoMemory) }
    ensures exact { (line : ℕ) (cause : Cause)
        → IsScriptFault S.meaning bytes.now (ScriptFault.Line line cause)
        → (result ≡ Err (ScriptFault.Line line cause)) ⊎ (result ≡ Err ScriptFault.NoMemory) }
{
    match split_header(bytes) {
        Ok((header, lines)) => read_events::<S>(alloc, header.config, lines),
        Err(fault) => Err(fault),
    }
}

// The header, and the lines behind it.
fn split_header(bytes: &[u8]) -> Result<(Header, &[u8]), ScriptFault>
    ensures valid { IfOk result (λ parts. IsSetUp parts.0.config) }
    ensures text { IfOk result (λ parts. bytes.now ≡ line_of (header_text parts.0) ++ parts.1.now) }
    ensures short { IfOk result (λ parts. length bytes.now ≤ most_script_bytes) }
    ensures long { (result ≡ Err (ScriptFault.Line 0 Cause.TooLong)) ↔ (most_script_bytes < length bytes.now) }
    ensures err { IfErr result (IsHeadFault bytes.now) }
    ensures memory { result ≢ Err ScriptFault.NoMemory }
{
    if MOST_SCRIPT_BYTES < bytes.len() {
        return Err(ScriptFault::Line {
            line: 0,
            cause: Cause::TooLong,
        });
    }
    if bytes.is_empty() {
        return Err(ScriptFault::Line {
            line: 1,
            cause: Cause::Header,
        });
    }
    match first_line(bytes) {
        Ok((text, lines)) => match header_of(text) {
            Some(header) => Ok((header, lines)),
            None => Err(ScriptFault::Line {
                line: 1,
                cause: Cause::Header,
            }),
        },
        Err(cause) => Err(ScriptFault::Line { line: 1, cause }),
    }
}

// The events of the lines, of which the first is line 2.
fn read_events<S: Service>(
    alloc: Global,
    config: Config,
    lines: &[u8],
) -> Result<Rows<Event<S::Op>>, ScriptFault>
    requires { length lines.now ≤ most_script_bytes }
    ensures fit { IfOk result (All (Fits S.meaning config)) }
    ensures text { IfOk result (λ events. lines.now ≡ events_text S.meaning events) }
    ensures err { IfErr result (IsLineFault S.meaning config lines.now) }
{
    let mut events = Rows::new(alloc);
    let mut rest = lines;
    let mut line = 1;
    while !rest.is_empty() {
        line += 1;
        let (event, later) = next_event::<S>(alloc, config, line, rest)?;
        let Ok(()) = events.push(event) else {
            return Err(ScriptFault::NoMemory);
        };
        rest = later;
    }
    Ok(events)
}

// The event of the first line, and the lines behind it.
fn next_event<S: Service>(
    alloc: Global,
    config: Config,
    line: u64,
    lines: &[u8],
) -> Result<(Event<S::Op>, &[u8]), ScriptFault>
    ensures fits { IfOk result (λ next. Fits S.meaning config next.0) }
    ensures text { IfOk result (λ next. lines.now ≡ line_of (event_text S.meaning next.0) ++ next.1.now) }
    ensures err { IfErr result (IsFaultAt line (IsBadLine S.meaning config lines.now)) }
{
    match first_line(lines) {
        Ok((text, later)) => match read_event::<S>(alloc, config, text) {
            Ok(event) => Ok((event, later)),
            Err(fault) => match fault {
                EventFault::Bad(cause) => Err(ScriptFault::Line { line, cause }),
                EventFault::NoMemory => Err(ScriptFault::NoMemory),
            },
        },
        Err(cause) => Err(ScriptFault::Line { line, cause }),
    }
}
