//! Reports of parts, read from a source in memory and combined on a sink: worked out by hand.

use outer_world::{MemSink, MemSource, read_all};
use plane_schedule::Nearness;
use report_parts::Until;
use report_stream::{LineRefusal, StreamFault, combine_reports};
use std::alloc::{AllocError, Global};
use std::test::Fail;

const BEGUN: [&[u8]; 6] = [
    b"b\tquery SELECT COUNT(*) FROM t",
    b"a\tquery SELECT COUNT(*) FROM t",
    b"b\tround 0",
    b"b\t1 [0, 4]",
    b"a\tround 0",
    b"a\t1 [1, 2]",
];

const ENDED: [&[u8]; 6] = [
    b"b\tround 1 price 1/3",
    b"a\tround 1 price 1/3",
    b"b\t1 3",
    b"a\t1 2",
    b"a\tend narrow",
    b"b\tend narrow",
];

const FIRST: &[u8] = b"query SELECT COUNT(*) FROM t\nparts 2\nround 0\n1 [1, 6]\n";

const WHOLE: &[u8] =
    b"query SELECT COUNT(*) FROM t\nparts 2\nround 0\n1 [1, 6]\nround 1\n1 5\nend narrow\n";

// How a run ended, what it left unread, and what it wrote.
#[derive(Drop)]
struct Run {
    done: Result<(), StreamFault>,
    left: Vec<u8>,
    sink: MemSink,
}

fn add_lines(text: &mut Vec<u8>, lines: &[&[u8]]) -> Result<(), AllocError> {
    for line in lines {
        text.extend_from_slice(line)?;
        text.extend_from_slice(b"\n")?;
    }
    Ok(())
}

// Combines two parts. The source gives a byte a call, of which these fail; the sink has so much room.
fn combined(alloc: Global, bytes: Vec<u8>, fails: Vec<u64>, room: usize) -> Result<Run, Fail> {
    let mut source = MemSource::new(bytes, 1, fails);
    let mut sink = MemSink::with_room(alloc, room, 5, Vec::new(alloc))?;
    let until = Until {
        near: Nearness::exact(),
        rounds: None,
    };
    let done = combine_reports(alloc, 2, until, &mut source, &mut sink);
    let left = read_all(alloc, &mut source, 1000)?;
    Ok(Run { done, left, sink })
}

#[test]
fn nothing_is_read_behind_the_end_of_the_report(rt: HostRuntime) -> Result<(), Fail> {
    let alloc = rt.alloc();
    let mut text = Vec::new(alloc);
    add_lines(&mut text, &BEGUN)?;
    add_lines(&mut text, &ENDED)?;
    let run = combined(alloc, text, Vec::new(alloc), 200)?;
    assert!(rt; run.done.is_ok());
    assert!(rt; run.sink.contents() == WHOLE);
    assert!(rt; run.left.as_slice() == b"a\tend narrow\nb\tend narrow\n".as_slice());
    Ok(())
}

#[test]
fn a_read_fails_in_mid_stream(rt: HostRuntime) -> Result<(), Fail> {
    let alloc = rt.alloc();
    let mut text = Vec::new(alloc);
    add_lines(&mut text, &BEGUN)?;
    let call = text.len() as u64;
    add_lines(&mut text, &ENDED)?;
    let run = combined(alloc, text, [call].to_vec(alloc)?, 200)?;
    assert!(rt; matches!(&run.done, Err(StreamFault::ReadFault)));
    assert!(rt; run.sink.contents() == FIRST);
    Ok(())
}

#[test]
fn a_write_fails_in_mid_stream(rt: HostRuntime) -> Result<(), Fail> {
    let alloc = rt.alloc();
    let mut text = Vec::new(alloc);
    add_lines(&mut text, &BEGUN)?;
    let run = combined(alloc, text, Vec::new(alloc), 40)?;
    assert!(rt; matches!(&run.done, Err(StreamFault::WriteFault)));
    assert!(rt; run.sink.contents() == b"query SELECT COUNT(*) FROM t\nparts 2\nrou".as_slice());
    Ok(())
}

#[test]
fn a_line_out_of_place_stops_the_stream(rt: HostRuntime) -> Result<(), Fail> {
    let alloc = rt.alloc();
    let mut text = Vec::new(alloc);
    add_lines(&mut text, &BEGUN)?;
    text.extend_from_slice(b"a\tround 2\n")?;
    let run = combined(alloc, text, Vec::new(alloc), 200)?;
    let Err(StreamFault::Line { line, why }) = run.done else {
        panic!(rt; "the line is taken");
    };
    assert_eq!(rt; line, 7);
    assert_eq!(rt; why, LineRefusal::OtherLine);
    assert!(rt; run.sink.contents() == FIRST);
    Ok(())
}

#[test]
fn the_input_ends_before_the_report(rt: HostRuntime) -> Result<(), Fail> {
    let alloc = rt.alloc();
    let mut text = Vec::new(alloc);
    add_lines(&mut text, &BEGUN)?;
    let Run {
        done,
        left: _left,
        sink,
    } = combined(alloc, text, Vec::new(alloc), 200)?;
    assert!(rt; sink.contents() == FIRST);
    let Err(StreamFault::EndsEarly { tag }) = done else {
        panic!(rt; "the report ends");
    };
    assert!(rt; tag.bytes() == b"a".as_slice());
    let none = combined(alloc, Vec::new(alloc), Vec::new(alloc), 200)?;
    assert!(rt; matches!(&none.done, Err(StreamFault::OtherCount { count: 0 })));
    assert!(rt; none.sink.contents().is_empty());
    Ok(())
}
