//! Reads the texts of each table that standard input names, and says whether each row has what was found.
#![tactic(auto)]

use lr_base::lr_service::Service;
use lr_base::{Event, NoMemory, Rows, Text};
use lr_script::{Header, Name, is_for, print_event, read_header, read_script, split_event_line};
use std::alloc::Global;
use std::{fs, io};
use svc_claims::Claims;
use svc_mail::Mail;
use svc_tally::Tally;

fn main(rt: HostRuntime) -> io::Result<()> {
    let alloc = rt.alloc();
    for name in rt.lines(alloc) {
        let name = name?;
        let table = fs::read_to_string(&rt, name.as_str())?;
        let mut rows = 0u64;
        let mut wrong = 0u64;
        for row in table.lines() {
            rows = rows.saturating_add(1);
            if !is_as_wanted(alloc, row) {
                wrong = wrong.saturating_add(1);
                println!(rt; "{name}: {row}")?;
            }
        }
        println!(rt; "{name}: {rows} rows, {wrong} wrong")?;
    }
    for spaces in [8_388_608, 8_388_609] {
        let bytes = vec![in alloc; b' '; spaces]?;
        let found = found_of(alloc, bytes.as_slice())?;
        println!(rt; "{spaces} spaces: {found}")?;
    }
    Ok(())
}

// Whether what stands before the bar of a row was found of the bytes behind it.
fn is_as_wanted(alloc: Global, row: &str) -> bool {
    let Some((wanted, text)) = row.split_once(" | ") else {
        return false;
    };
    let Ok(bytes) = unescaped(alloc, text.as_bytes()) else {
        return false;
    };
    match found_of(alloc, bytes.as_slice()) {
        Ok(found) => found.as_str() == wanted,
        Err(_) => false,
    }
}

// The bytes that a text with escapes stands for.
fn unescaped(alloc: Global, text: &[u8]) -> Result<Text, NoMemory> {
    let mut bytes = Rows::new(alloc);
    let mut is_escape = false;
    for byte in text {
        if is_escape {
            bytes.push(escaped(*byte))?;
            is_escape = false;
        } else if *byte == b'\\' {
            is_escape = true;
        } else {
            bytes.push(*byte)?;
        }
    }
    Ok(bytes)
}

fn escaped(letter: u8) -> u8 {
    match letter {
        b'n' => b'\n',
        b'r' => b'\r',
        b't' => b'\t',
        b'0' => 0,
        b'u' => 0x1f,
        b'd' => 0x7f,
        other => other,
    }
}

// The count of clients of a script whose events are printed as they were written; of other bytes their fault.
fn found_of(alloc: Global, bytes: &[u8]) -> io::Result<String> {
    match read_header(bytes) {
        Ok(header) => match header.service {
            Name::Tally => found_for::<Tally>(alloc, &header, bytes),
            Name::Mail => found_for::<Mail>(alloc, &header, bytes),
            Name::Claims => found_for::<Claims>(alloc, &header, bytes),
        },
        Err(fault) => {
            let found = format!(in alloc; "{fault}")?;
            if !is_fault_for::<Tally>(alloc, bytes, found.as_str())? {
                return Ok(format!(in alloc; "another fault for the tally")?);
            }
            if !is_fault_for::<Mail>(alloc, bytes, found.as_str())? {
                return Ok(format!(in alloc; "another fault for mail")?);
            }
            if !is_fault_for::<Claims>(alloc, bytes, found.as_str())? {
                return Ok(format!(in alloc; "another fault for claims")?);
            }
            Ok(found)
        }
    }
}

// Whether the bytes are refused as a script of the service for this fault.
fn is_fault_for<S: Service>(alloc: Global, bytes: &[u8], fault: &str) -> io::Result<bool> {
    if !is_for::<S>(bytes) {
        return Ok(false);
    }
    match read_script::<S>(alloc, bytes) {
        Ok(_events) => Ok(false),
        Err(found) => Ok(format!(in alloc; "{found}")?.as_str() == fault),
    }
}

// The same of bytes whose header names the service `S`.
fn found_for<S: Service>(alloc: Global, header: &Header, bytes: &[u8]) -> io::Result<String> {
    if !is_for::<S>(bytes) {
        return Ok(format!(in alloc; "of another service")?);
    }
    if services_of(bytes) != 1 {
        return Ok(format!(in alloc; "of several services")?);
    }
    match read_script::<S>(alloc, bytes) {
        Ok(events) => {
            if are_printed_so::<S>(alloc, events.as_slice(), behind_first_line(bytes))? {
                let clients = header.config.clients;
                Ok(format!(in alloc; "{clients} clients")?)
            } else {
                Ok(format!(in alloc; "printed otherwise")?)
            }
        }
        Err(fault) => Ok(format!(in alloc; "{fault}")?),
    }
}

// As scripts of how many services the bytes may be read.
fn services_of(bytes: &[u8]) -> u8 {
    let mut services = 0u8;
    for is_one in [
        is_for::<Tally>(bytes),
        is_for::<Mail>(bytes),
        is_for::<Claims>(bytes),
    ] {
        if is_one {
            services = services.saturating_add(1);
        }
    }
    services
}

fn behind_first_line(bytes: &[u8]) -> &[u8] {
    match bytes.iter().position(|byte| *byte == b'\n') {
        Some(end) => &bytes[end + 1..],
        None => bytes,
    }
}

// Whether the lines are the events', one after another, as each is printed.
fn are_printed_so<S: Service>(
    alloc: Global,
    events: &[Event<S::Op>],
    lines: &[u8],
) -> io::Result<bool> {
    let mut rest = lines;
    let mut text = Text::new(alloc);
    for event in events {
        let (line, later) = split_event_line::<S>(rest);
        text.clear();
        let Ok(()) = print_event::<S>(event, &mut text) else {
            return Ok(false);
        };
        if text.as_slice() != line {
            return Ok(false);
        }
        rest = later;
    }
    Ok(rest.is_empty())
}
