//! The calls once each, and what fails in between.
use crate::{
    FixedSink, MemSink, MemSource, ReadEnd, Reading, Sink, Source, Writing, read_up_to, write_whole,
};
use lr_base::Rows;
use std::alloc::Global;
use std::test::Fail;

fn rows(alloc: Global, bytes: &[u8]) -> Result<Rows<u8>, Fail> {
    Ok(Rows::from_slice(alloc, bytes)?)
}

fn numbers(alloc: Global, failing: &[u64]) -> Result<Rows<u64>, Fail> {
    Ok(Rows::from_slice(alloc, failing)?)
}

#[test]
fn a_source_fails_at_its_listed_read_alone(rt: HostRuntime) -> Result<(), Fail> {
    let mut source = MemSource::new(rows(rt.alloc(), b"abcde")?, numbers(rt.alloc(), &[2])?);
    // (what the read answers, what the buffer then holds)
    let reads: [(Option<usize>, &[u8]); 4] = [
        (Some(3), b"abc"),
        (None, b"abc"),
        (Some(2), b"dec"),
        (Some(0), b"dec"),
    ];
    let mut buffer = [0; 3];
    for (want, held) in reads {
        assert_eq!(rt; source.read(&mut buffer).ok(), want);
        assert_eq!(rt; buffer.as_slice(), held);
    }
    Ok(())
}

#[test]
fn a_sink_fails_at_its_listed_write_alone(rt: HostRuntime) -> Result<(), Fail> {
    let mut sink = MemSink::new(rt.alloc(), numbers(rt.alloc(), &[2])?);
    let writes: [(&[u8], Option<usize>, &[u8]); 3] = [
        (b"ab", Some(2), b"ab"),
        (b"cd", None, b"ab"),
        (b"ef", Some(2), b"abef"),
    ];
    for (piece, want, held) in writes {
        assert_eq!(rt; sink.write(piece).ok(), want);
        assert_eq!(rt; sink.bytes(), held);
    }
    Ok(())
}

#[test]
fn a_sink_with_room_for_twenty_takes_twenty_of_twenty_five(rt: HostRuntime) -> Result<(), Fail> {
    let mut sink = FixedSink::new(rt.alloc(), 20)?;
    write_whole(&mut sink, b"lazyrep ")?;
    assert_eq!(rt;
        write_whole(&mut sink, b"1 tally 1 1 10\n1:").is_err(),
        true
    );
    assert_eq!(rt; sink.bytes(), b"lazyrep 1 tally 1 1 ".as_slice());
    assert_eq!(rt; sink.write(b"").ok(), Some(0));
    assert_eq!(rt; sink.write(b"x").ok(), None);
    Ok(())
}

#[test]
fn reading_stops_at_the_limit_or_the_end(rt: HostRuntime) -> Result<(), Fail> {
    // (most, what is read, what is left)
    let rows_of: [(usize, &[u8], &[u8]); 4] = [
        (0, b"", b"abcde"),
        (3, b"abc", b"de"),
        (5, b"abcde", b""),
        (9, b"abcde", b""),
    ];
    for (most, want, left) in rows_of {
        let mut source = MemSource::new(rows(rt.alloc(), b"abcde")?, numbers(rt.alloc(), &[])?);
        let read = read_up_to(rt.alloc(), &mut source, most)
            .ok()
            .ok_or("read")?;
        assert_eq!(rt; read.as_slice(), want, "at most {most}");
        let rest = read_up_to(rt.alloc(), &mut source, 9).ok().ok_or("rest")?;
        assert_eq!(rt; rest.as_slice(), left, "after at most {most}");
    }
    Ok(())
}

#[test]
fn a_failing_read_ends_the_reading(rt: HostRuntime) -> Result<(), Fail> {
    let mut source = MemSource::new(rows(rt.alloc(), b"abcde")?, numbers(rt.alloc(), &[2])?);
    let read = read_up_to(rt.alloc(), &mut source, 9);
    assert_eq!(rt; read.err(), Some(ReadEnd::Failed));
    Ok(())
}

#[test]
fn adapters_pass_on_what_std_reads_and_writes(rt: HostRuntime) -> Result<(), Fail> {
    let bytes: &[u8] = b"abcde";
    let mut source = Reading::new(bytes);
    let read = read_up_to(rt.alloc(), &mut source, 9).ok().ok_or("read")?;
    assert_eq!(rt; read.as_slice(), bytes);

    let mut page = [0; 4];
    {
        let mut sink = Writing::new(page.as_mut_slice());
        assert_eq!(rt; sink.write(b"abc").ok(), Some(3));
        assert_eq!(rt; sink.write(b"de").ok(), Some(1));
        assert_eq!(rt;
            sink.write(b"e").ok(),
            None,
            "a writer that takes nothing has failed"
        );
    }
    assert_eq!(rt; page.as_slice(), b"abcd".as_slice());
    Ok(())
}
