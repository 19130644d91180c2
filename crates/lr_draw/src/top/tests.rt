//! What the program answers to words, histories, bad lines and faults.
use crate::escapes::put_escaped;
use crate::top::draw_top;
use lr_base::{Rows, Text};
use lr_outside::{FixedSink, MemSink, MemSource};
use std::alloc::Global;
use std::test::Fail;

const USAGE: &str = "usage: draw [FIRST LAST]\n";

// (words, input, what is told on standard error, status); none of them writes anything
const REFUSED: [(&[&str], &str, &str, u8); 8] = [
    (&["draw", "fly"], "", USAGE, 2),
    (&["draw", "0", "3"], "", USAGE, 2),
    (&["draw", "3", "2"], "", USAGE, 2),
    (&["draw"], "", "draw: line 1\n", 3),
    (&["draw"], "lazyrep 2 x\n", "draw: line 1\n", 3),
    (&["draw"], "lazyrep 1 x\n2: show 0\n", "draw: line 2\n", 3),
    (&["draw"], "lazyrep 1 x\n  got 0.1\n", "draw: line 2\n", 3),
    (&["draw"], "lazyrep 1 x\n1: show 0\n\n", "draw: line 3\n", 3),
];

fn words_of(alloc: Global, words: &[&str]) -> Result<Vec<String>, Fail> {
    let mut all = Vec::new(alloc);
    for word in words {
        all.push(String::from_str(alloc, word)?)?;
    }
    Ok(all)
}

fn source(alloc: Global, bytes: &[u8], failing: &[u64]) -> Result<MemSource, Fail> {
    let bytes = Rows::from_slice(alloc, bytes)?;
    Ok(MemSource::new(bytes, Rows::from_slice(alloc, failing)?))
}

fn sink(alloc: Global, failing: &[u64]) -> Result<MemSink, Fail> {
    Ok(MemSink::new(alloc, Rows::from_slice(alloc, failing)?))
}

#[test]
fn other_words_and_bad_lines_are_refused(rt: HostRuntime) -> Result<(), Fail> {
    let alloc = rt.alloc();
    for (words, bytes, told, code) in REFUSED {
        let words = words_of(alloc, words)?;
        let mut input = source(alloc, bytes.as_bytes(), &[])?;
        let mut out = sink(alloc, &[])?;
        let mut err = sink(alloc, &[])?;
        let status = draw_top(alloc, words.as_slice(), &mut input, &mut out, &mut err);
        assert_eq!(rt; status.code, code, "for {bytes:?}");
        assert_eq!(rt; err.bytes(), told.as_bytes(), "for {bytes:?}");
        assert_eq!(rt; out.bytes().len(), 0, "for {bytes:?}");
    }
    Ok(())
}

#[test]
fn a_read_that_fails_leaves_the_output_empty(rt: HostRuntime) -> Result<(), Fail> {
    let alloc = rt.alloc();
    let words = words_of(alloc, &["draw"])?;
    let mut input = source(alloc, b"lazyrep 1 tally 2 1 10\n", &[2])?;
    let mut out = sink(alloc, &[])?;
    let mut err = sink(alloc, &[])?;
    let status = draw_top(alloc, words.as_slice(), &mut input, &mut out, &mut err);
    assert_eq!(rt; status.code, 4);
    assert_eq!(rt; out.bytes(), b"".as_slice());
    assert_eq!(rt; err.bytes(), b"draw: read fault\n".as_slice());
    Ok(())
}

#[test]
fn a_full_output_holds_the_first_bytes(rt: HostRuntime) -> Result<(), Fail> {
    let alloc = rt.alloc();
    let words = words_of(alloc, &["draw"])?;
    let mut input = source(alloc, b"lazyrep 1 tally 2 1 10\n", &[])?;
    let mut out = FixedSink::new(alloc, 20)?;
    let mut err = sink(alloc, &[])?;
    let status = draw_top(alloc, words.as_slice(), &mut input, &mut out, &mut err);
    assert_eq!(rt; status.code, 5);
    assert_eq!(rt; out.bytes(), b"<svg xmlns='http://w".as_slice());
    assert_eq!(rt; err.bytes(), b"draw: write fault\n".as_slice());
    Ok(())
}

#[test]
fn text_is_escaped(rt: HostRuntime) -> Result<(), Fail> {
    let mut out = Text::new(rt.alloc());
    put_escaped(b"a<b>&\"c'~", &mut out)?;
    assert_eq!(rt; out.as_slice(), b"a&lt;b&gt;&amp;&quot;c&#39;~".as_slice());
    Ok(())
}
