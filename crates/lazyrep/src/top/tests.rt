//! What the program answers to words, bad scripts and faults.
use crate::top::lazyrep_top;
use lr_base::Rows;
use lr_outside::{FixedSink, MemSink, MemSource};
use std::alloc::Global;
use std::test::Fail;

// The smallest whole script: an update, its reply, a query, its answer and the state.
const SCRIPT: &str = "lazyrep 1 tally 1 1 10\ncall 0 0 5 add x 3\ndeliver 1\ndeliver 2\n\
    call 0 0 6 read x\ndeliver 3\ndeliver 4\nshow 0\n";

const USAGE: &str = "usage: lazyrep sim | run | gen NUMBER\n";

// (words, script, what is told on standard error, status); none of them writes anything
const REFUSED: [(&[&str], &str, &str, u8); 17] = [
    (&[], SCRIPT, USAGE, 2),
    (&["lazyrep"], SCRIPT, USAGE, 2),
    (&["lazyrep", "fly"], SCRIPT, USAGE, 2),
    (&["lazyrep", "gen"], SCRIPT, USAGE, 2),
    (&["lazyrep", "sim", "sim"], SCRIPT, USAGE, 2),
    (&["lazyrep", "Sim"], SCRIPT, USAGE, 2),
    (&["lazyrep", "sim"], "", "lazyrep: line 1: header\n", 3),
    (
        &["lazyrep", "sim"],
        "lazyrep 1 tally 1 1 10",
        "lazyrep: line 1: unended\n",
        3,
    ),
    (
        &["lazyrep", "sim"],
        "lazyrep 1 tally 10 1 10\n",
        "lazyrep: line 1: header\n",
        3,
    ),
    (
        &["lazyrep", "sim"],
        "lazyrep 1 tally 1 1 10\n\tdeliver 1\n",
        "lazyrep: line 2: byte\n",
        3,
    ),
    (
        &["lazyrep", "sim"],
        "lazyrep 1 tally 1 1 10\ndeliver 1\ndelivers 1\n",
        "lazyrep: line 3: event\n",
        3,
    ),
    (
        &["lazyrep", "sim"],
        "lazyrep 1 tally 1 1 10\ndeliver\n",
        "lazyrep: line 2: fields\n",
        3,
    ),
    (
        &["lazyrep", "sim"],
        "lazyrep 1 tally 1 1 10\ncall 0 0 01 add x 1\n",
        "lazyrep: line 2: number\n",
        3,
    ),
    (
        &["lazyrep", "sim"],
        "lazyrep 1 tally 1 1 10\nshow 1\n",
        "lazyrep: line 2: range\n",
        3,
    ),
    (
        &["lazyrep", "sim"],
        "lazyrep 1 tally 1 1 10\ncall 0 0 1 sub x 1\n",
        "lazyrep: line 2: op\n",
        3,
    ),
    (
        &["lazyrep", "sim"],
        "lazyrep 1 tally 1 1 10\ndeliver 1",
        "lazyrep: line 2: unended\n",
        3,
    ),
    (
        &["lazyrep", "sim"],
        "lazyrep 1 tally 1 1 10\nresends 0 0 9\n",
        "lazyrep: line 2: event\n",
        3,
    ),
];

fn words_of(alloc: Global, words: &[&str]) -> Result<Vec<String>, Fail> {
    let mut all = Vec::new(alloc);
    for word in words {
        all.push(String::from_str(alloc, word)?)?;
    }
    Ok(all)
}

fn source(alloc: Global, script: &str, failing: &[u64]) -> Result<MemSource, Fail> {
    let bytes = Rows::from_slice(alloc, script.as_bytes())?;
    Ok(MemSource::new(bytes, Rows::from_slice(alloc, failing)?))
}

fn sink(alloc: Global, failing: &[u64]) -> Result<MemSink, Fail> {
    Ok(MemSink::new(alloc, Rows::from_slice(alloc, failing)?))
}

#[test]
fn other_words_and_bad_scripts_are_refused(rt: HostRuntime) -> Result<(), Fail> {
    let alloc = rt.alloc();
    for (words, script, told, code) in REFUSED {
        let words = words_of(alloc, words)?;
        let mut input = source(alloc, script, &[])?;
        let mut out = sink(alloc, &[])?;
        let mut err = sink(alloc, &[])?;
        let status = lazyrep_top(alloc, words.as_slice(), &mut input, &mut out, &mut err);
        assert_eq!(rt; status.code, code, "for {script:?}");
        assert_eq!(rt; err.bytes(), told.as_bytes(), "for {script:?}");
        assert_eq!(rt; out.bytes(), b"".as_slice(), "for {script:?}");
    }
    Ok(())
}

#[test]
fn a_script_ends_well_and_tells_nothing(rt: HostRuntime) -> Result<(), Fail> {
    let alloc = rt.alloc();
    let words = words_of(alloc, &["lazyrep", "sim"])?;
    let mut input = source(alloc, "lazyrep 1 tally 1 1 10\ndeliver 1\n", &[])?;
    let mut out = sink(alloc, &[])?;
    let mut err = sink(alloc, &[])?;
    let status = lazyrep_top(alloc, words.as_slice(), &mut input, &mut out, &mut err);
    assert_eq!(rt; status.code, 0);
    assert_eq!(rt; err.bytes(), b"".as_slice());
    assert_eq!(rt;
        out.bytes(),
        b"lazyrep 1 tally 1 1 10\n1: deliver 1\n  none 1\n".as_slice()
    );
    Ok(())
}

#[test]
fn a_read_that_fails_leaves_the_output_empty(rt: HostRuntime) -> Result<(), Fail> {
    let alloc = rt.alloc();
    let words = words_of(alloc, &["lazyrep", "sim"])?;
    let mut input = source(alloc, SCRIPT, &[2])?;
    let mut out = sink(alloc, &[])?;
    let mut err = sink(alloc, &[])?;
    let status = lazyrep_top(alloc, words.as_slice(), &mut input, &mut out, &mut err);
    assert_eq!(rt; status.code, 4);
    assert_eq!(rt; out.bytes(), b"".as_slice());
    assert_eq!(rt; err.bytes(), b"lazyrep: read fault\n".as_slice());
    Ok(())
}

#[test]
fn a_full_output_holds_the_first_bytes(rt: HostRuntime) -> Result<(), Fail> {
    let alloc = rt.alloc();
    let words = words_of(alloc, &["lazyrep", "sim"])?;
    let mut input = source(alloc, SCRIPT, &[])?;
    let mut out = FixedSink::new(alloc, 20)?;
    let mut err = sink(alloc, &[])?;
    let status = lazyrep_top(alloc, words.as_slice(), &mut input, &mut out, &mut err);
    assert_eq!(rt; status.code, 5);
    assert_eq!(rt; out.bytes(), b"lazyrep 1 tally 1 1 ".as_slice());
    assert_eq!(rt; err.bytes(), b"lazyrep: write fault\n".as_slice());
    Ok(())
}

#[test]
fn a_failing_standard_error_changes_no_status(rt: HostRuntime) -> Result<(), Fail> {
    let alloc = rt.alloc();
    for (word, code) in [("fly", 2), ("sim", 3)] {
        let words = words_of(alloc, &["lazyrep", word])?;
        let mut input = source(alloc, "", &[])?;
        let mut out = sink(alloc, &[])?;
        let mut err = sink(alloc, &[1])?;
        let status = lazyrep_top(alloc, words.as_slice(), &mut input, &mut out, &mut err);
        assert_eq!(rt; status.code, code, "for {word}");
        assert_eq!(rt; err.bytes(), b"".as_slice());
    }
    Ok(())
}
