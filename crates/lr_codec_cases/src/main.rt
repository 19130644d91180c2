//! Reads the bytes of each table that standard input names as states, and says whether each row has what was found.
#![tactic(auto)]

use lr_base::lr_service::Service;
use lr_base::{Rows, Text, read_number};
use lr_codec::{CodecFault, decode, encode};
use std::alloc::Global;
use std::{fs, io};
use svc_claims::Claims;
use svc_mail::Mail;
use svc_tally::Tally;

/// How many rows a table has, and how many of them have something else than what was found.
#[derive(Clone, Copy)]
struct Count {
    rows: u64,
    wrong: u64,
}

impl Count {
    fn add(&mut self, is_right: bool) {
        self.rows = self.rows.saturating_add(1);
        if !is_right {
            self.wrong = self.wrong.saturating_add(1);
        }
    }
}

fn main(rt: HostRuntime) -> io::Result<()> {
    let alloc = rt.alloc();
    for name in rt.lines(alloc) {
        let name = name?;
        let table = fs::read_to_string(&rt, name.as_str())?;
        let count = match name.as_str() {
            "answers" => count_answers(&rt, alloc, table.as_str())?,
            "cuts" => count_cuts(&rt, alloc, table.as_str())?,
            _ => count_states(&rt, alloc, table.as_str())?,
        };
        let Count { rows, wrong } = count;
        println!(rt; "{name}: {rows} rows, {wrong} wrong")?;
    }
    Ok(())
}

// Each row is a service, bytes in hexadecimal or `-` for none, and what is found of them.
fn count_answers(rt: &HostRuntime, alloc: Global, table: &str) -> io::Result<Count> {
    let mut count = Count { rows: 0, wrong: 0 };
    for row in table.lines() {
        let is_right = is_answered(alloc, row)?;
        count.add(is_right);
        if !is_right {
            println!(rt; "{row}")?;
        }
    }
    Ok(count)
}

fn is_answered(alloc: Global, row: &str) -> io::Result<bool> {
    let Some((service, rest)) = row.split_once(" ") else {
        return Ok(false);
    };
    let Some((hex, wanted)) = rest.split_once(" ") else {
        return Ok(false);
    };
    let mut bytes = Rows::new(alloc);
    if hex != "-" && !add_hex(hex.as_bytes(), &mut bytes) {
        return Ok(false);
    }
    Ok(found_of(alloc, service, bytes.as_slice())?.as_str() == wanted)
}

// Each row is a service, the bytes of a state, and where its fields begin: cut to so many bytes, it is too short at the
// last field that begins there or before.
fn count_cuts(rt: &HostRuntime, alloc: Global, table: &str) -> io::Result<Count> {
    let mut count = Count { rows: 0, wrong: 0 };
    for row in table.lines() {
        let Some((service, rest)) = row.split_once(" ") else {
            return Ok(count);
        };
        let Some((hex, begins)) = rest.split_once(" ") else {
            return Ok(count);
        };
        let mut bytes = Rows::new(alloc);
        if !add_hex(hex.as_bytes(), &mut bytes) {
            return Ok(count);
        }
        for left in 0..bytes.len() {
            let wanted = format!(in alloc; "bad {} Short", last_begin(begins, left))?;
            let found = found_of(alloc, service, &bytes.as_slice()[..left])?;
            let is_right = found.as_str() == wanted.as_str();
            count.add(is_right);
            if !is_right {
                println!(rt; "{service} cut to {left}: {found}")?;
            }
        }
    }
    Ok(count)
}

// The last of these numbers that is at most this.
fn last_begin(begins: &str, left: usize) -> u64 {
    let mut last = 0u64;
    for begin in begins.split(' ') {
        if let Some(begin) = read_number(begin.as_bytes()) {
            if begin <= left as u64 {
                last = begin;
            }
        }
    }
    last
}

// The lines of a state are its fields, each in hexadecimal with words behind it. Before them stands `# `, the service,
// and a colon.
fn count_states(rt: &HostRuntime, alloc: Global, table: &str) -> io::Result<Count> {
    let mut count = Count { rows: 0, wrong: 0 };
    for state in table.split("# ") {
        let Some((service, rest)) = state.split_once(":") else {
            continue;
        };
        let mut bytes = Rows::new(alloc);
        let is_read = add_fields(rest, &mut bytes);
        let found = found_of(alloc, service, bytes.as_slice())?;
        let is_right = is_read && found.as_str() == "ok";
        count.add(is_right);
        if !is_right {
            println!(rt; "{service}: {found}")?;
        }
    }
    Ok(count)
}

// Adds the fields of all lines but the first, and says whether each is one.
fn add_fields(lines: &str, bytes: &mut Text) -> bool {
    let mut is_first = true;
    for line in lines.lines() {
        if !is_first {
            let Some((hex, _words)) = line.split_once(" ") else {
                return false;
            };
            if !add_hex(hex.as_bytes(), bytes) {
                return false;
            }
        }
        is_first = false;
    }
    true
}

// Adds the bytes that hexadecimal digits spell, and says whether they spell bytes and there was memory.
fn add_hex(digits: &[u8], bytes: &mut Text) -> bool {
    let mut high: Option<u8> = None;
    for digit in digits {
        let Some(value) = value_of(*digit) else {
            return false;
        };
        match high {
            None => high = Some(value),
            Some(sixteens) => {
                let Ok(()) = bytes.push(sixteens << 4 | value) else {
                    return false;
                };
                high = None;
            }
        }
    }
    high.is_none()
}

fn value_of(digit: u8) -> Option<u8> {
    match digit {
        b'0'..=b'9' => Some(digit - b'0'),
        b'a'..=b'f' => Some(digit - b'a' + 10),
        _ => None,
    }
}

fn found_of(alloc: Global, service: &str, bytes: &[u8]) -> io::Result<String> {
    match service {
        "tally" => found_for::<Tally>(alloc, bytes),
        "mail" => found_for::<Mail>(alloc, bytes),
        "claims" => found_for::<Claims>(alloc, bytes),
        _ => Ok(format!(in alloc; "no service")?),
    }
}

// What the bytes are as a state of the service: `ok` where it is written as it was.
fn found_for<S: Service>(alloc: Global, bytes: &[u8]) -> io::Result<String> {
    match decode::<S>(alloc, bytes) {
        Ok(state) => {
            let Ok(written) = encode::<S>(alloc, &state) else {
                return Ok(format!(in alloc; "no memory")?);
            };
            if written.as_slice() == bytes {
                Ok(format!(in alloc; "ok")?)
            } else {
                Ok(format!(in alloc; "written otherwise")?)
            }
        }
        Err(CodecFault::Bad { at, what }) => Ok(format!(in alloc; "bad {at} {what:?}")?),
        Err(CodecFault::NoMemory) => Ok(format!(in alloc; "no memory")?),
    }
}
