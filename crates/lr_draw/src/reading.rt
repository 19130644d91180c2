//! A printed history, read from its bytes.
ghost use Rattle.std.specs.Prelude.{◌≡◌, ◌≢◌, ◌≤◌, ◌<◌, ◌+◌, ◌++◌, ◌^◌, ℕ, List, codes, length, IfOk, IfErr};
ghost use Rattle.std.specs.Prelude.{IfSome, IsNone, OnOk};
ghost use Rattle.std.specs.Fmt.{decimal};
ghost use Rattle.lr_draw.specs.Histories.{event_front, events_in, IsBadLine, IsLine, messages_in, send_front};
ghost use Rattle.lr_draw.specs.Histories.{BeginsWithHeader, IsHistory, IsNoHeader, IsReadUpTo, IsRefusal};

use crate::acts::act_of;
use crate::fields::behind;
use crate::history::{DrawFault, Event, History, Message, Span};
use crate::lines::{Cut, first_line};
use crate::sends::way_of;
use lr_base::{NoMemory, Rows, Text, put_number};
use std::alloc::Global;

// What a line behind the header adds.
#[derive(Clone, Copy)]
pub enum Line {
    Event(Event),
    Send(Message),
    // Something else that the last event did.
    Said,
}

// Why a line was not read.
#[derive(Clone, Copy)]
pub enum LineFault {
    Bad,
    NoMemory,
}

// How many events and messages the lines so far have, and where the next one stands.
#[derive(Clone, Copy)]
pub struct Place {
    pub events: u32,
    pub messages: u64,
    pub line: Span,
}

fn front_of_event(alloc: Global, number: u64) -> Result<Text, NoMemory>
    ensures { IfOk result (λ front. front ≡ event_front number) }
{
    let mut front = Text::new(alloc);
    put_number(number, &mut front)?;
    front.extend(b": ")?;
    Ok(front)
}

fn front_of_send(alloc: Global, number: u64) -> Result<Text, NoMemory>
    ensures { IfOk result (λ front. front ≡ send_front number) }
{
    let mut front = Text::new(alloc);
    front.extend(b"  send ")?;
    put_number(number, &mut front)?;
    front.extend(b" ")?;
    Ok(front)
}

// The event whose line this is, if it has the next number.
fn read_event(alloc: Global, place: Place, line: &[u8]) -> Result<Line, LineFault>
    requires { place.events < 2 ^ 31 }
    ensures ok { IfOk result (IsLine place line.now) }
    ensures bad { result ≡ Err LineFault.Bad → ((rest : List ℕ) → line.now ≢ codes "  " ++ rest)
        → IsBadLine place line.now }
{
    let number = place.events + 1;
    let Ok(front) = front_of_event(alloc, number as u64) else {
        return Err(LineFault::NoMemory);
    };
    let Some(text) = behind(line, front.as_slice()) else {
        return Err(LineFault::Bad);
    };
    let Some(act) = act_of(text) else {
        return Err(LineFault::Bad);
    };
    Ok(Line::Event(Event {
        number,
        act,
        start: place.line.start,
    }))
}

// The message that this line tells of, if it has the next number.
fn read_send(alloc: Global, place: Place, line: &[u8]) -> Result<Line, LineFault>
    requires fits { place.messages < 2 ^ 63 }
    requires some_event { 0 < place.events }
    ensures ok { IfOk result (IsLine place line.now) }
    ensures bad { result ≡ Err LineFault.Bad → (rest : List ℕ) → line.now ≡ codes "  send " ++ rest
        → IsBadLine place line.now }
{
    let Ok(front) = front_of_send(alloc, place.messages + 1) else {
        return Err(LineFault::NoMemory);
    };
    let Some(fields) = behind(line, front.as_slice()) else {
        return Err(LineFault::Bad);
    };
    let Some(way) = way_of(fields) else {
        return Err(LineFault::Bad);
    };
    Ok(Line::Send(Message {
        event: place.events,
        from: way.from,
        to: way.to,
        kind: way.kind,
        line: place.line,
    }))
}

// A line behind the header. Where it begins with two spaces it tells what the last event did.
fn read_line(alloc: Global, place: Place, line: &[u8]) -> Result<Line, LineFault>
    requires few { place.events < 2 ^ 31 }
    requires fits { place.messages < 2 ^ 63 }
    ensures ok { IfOk result (IsLine place line.now) }
    ensures bad { result ≡ Err LineFault.Bad → IsBadLine place line.now }
{
    let Some(_outcome) = behind(line, b"  ") else {
        return read_event(alloc, place, line);
    };
    if place.events == 0 {
        return Err(LineFault::Bad);
    }
    if let Some(_sent) = behind(line, b"  send ") {
        return read_send(alloc, place, line);
    }
    Ok(Line::Said)
}

fn add_line(history: &mut History, line: Line) -> Result<(), NoMemory>
    ensures events { OnOk result (history.new.events ≡ history.old.events ++ events_in line) }
    ensures messages { OnOk result (history.new.messages ≡ history.old.messages ++ messages_in line) }
{
    match line {
        Line::Event(event) => history.events.push(event),
        Line::Send(message) => history.messages.push(message),
        Line::Said => Ok(()),
    }
}

/// The history that the bytes are.
pub fn read_history(alloc: Global, bytes: &[u8]) -> Result<History, DrawFault>
    requires { length bytes.now ≤ 67108864 }
    ensures ok { IfOk result (IsHistory bytes.now) }
    ensures err { IfErr result (IsRefusal bytes.now) }
{
    let mut rest = match header_lines(bytes) {
        Some(lines) => lines,
        None => return Err(DrawFault::Line(1)),
    };
    let mut history = History {
        events: Rows::new(alloc),
        messages: Rows::new(alloc),
    };
    let mut count = 1;
    while !rest.is_empty() {
        rest = match read_next(alloc, bytes, rest, count, &mut history) {
            Ok(later) => later,
            Err(refused) => return Err(refused),
        };
        count += 1;
    }
    Ok(history)
}

// What follows the header's line.
fn header_lines(bytes: &[u8]) -> Option<&[u8]>
    ensures some { IfSome result (λ lines. BeginsWithHeader bytes.now lines.now) }
    ensures none { IsNone result → IsNoHeader bytes.now }
{
    let Some(cut) = first_line(bytes) else {
        return None;
    };
    match behind(cut.line, b"lazyrep 1 ") {
        Some(_fields) => Some(cut.later),
        None => None,
    }
}

// Reads the first of the lines, where so many were read before it, and answers those behind it.
fn read_next<'a>(
    alloc: Global,
    bytes: &[u8],
    lines: &'a [u8],
    count: u64,
    history: &mut History,
) -> Result<&'a [u8], DrawFault>
    requires short { length bytes.now ≤ 67108864 }
    requires read { IsReadUpTo bytes.now lines.now count history.old }
    ensures ok { IfOk result (λ later. IsReadUpTo bytes.now later.now (count + 1) history.new) }
    ensures shorter { IfOk result (λ later. length later.now < length lines.now) }
    ensures err { IfErr result (IsRefusal bytes.now) }
{
    let number = count + 1;
    let Some(cut) = first_line(lines) else {
        return Err(DrawFault::Line(number));
    };
    let Cut { line, later } = cut;
    let start = bytes.len() - lines.len();
    let place = Place {
        events: history.events.len() as u32,
        messages: history.messages.len() as u64,
        line: Span {
            start,
            end: start + line.len(),
        },
    };
    let read = match read_line(alloc, place, line) {
        Ok(read) => read,
        Err(LineFault::Bad) => return Err(DrawFault::Line(number)),
        Err(LineFault::NoMemory) => return Err(DrawFault::NoMemory),
    };
    match add_line(history, read) {
        Ok(()) => Ok(later),
        Err(_) => Err(DrawFault::NoMemory),
    }
}
