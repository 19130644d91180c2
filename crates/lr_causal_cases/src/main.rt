//! Reads commands on the replicas of a tally, one a line, and prints what each answers behind it.
#![tactic(auto)]

mod commands;
mod faults;
mod printed;
mod steps;
mod texts;
mod undone;

use commands::answer;
use lr_causal::Causal;
use std::alloc::{AllocError, Global};
use std::io;
use svc_tally::Tally;

fn main(rt: HostRuntime) -> io::Result<()> {
    let alloc = rt.alloc();
    let mut replicas = Vec::new(alloc);
    for line in rt.lines(alloc) {
        let line = line?;
        let answered = answered(alloc, &mut replicas, line.as_str())?;
        println!(rt; "{line}{answered}")?;
    }
    Ok(())
}

// What stands behind a line: nothing behind a comment, and else a colon and the answer, or a dash for none.
fn answered(
    alloc: Global,
    replicas: &mut Vec<Causal<Tally>>,
    line: &str,
) -> Result<String, AllocError> {
    let mut out = String::new(alloc);
    if line.is_empty() || line.starts_with("#") {
        return Ok(out);
    }
    if let Err(fault) = answer(alloc, replicas, line, &mut out) {
        out.push_str(fault.text())?;
    }
    if out.is_empty() {
        out.push_str("-")?;
    }
    format!(in alloc; ": {out}")
}
