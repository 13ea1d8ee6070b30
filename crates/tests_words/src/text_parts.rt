//! The least and the greatest text over three parts, from the lines of their reports: worked out by hand.

use daq_table::Listed;
use query_model::ItemKind;
use report_parts::{BlockFault, LineFault, Part, Shape, written_block};
use std::alloc::Global;
use std::test::Fail;

const QUERY: &[u8] = b"query SELECT MIN(name) FROM t";

// Which text is asked for, the line of each part, and the line over all.
#[derive(Drop)]
struct Case {
    kind: ItemKind,
    parts: [&'static [u8]; 3],
    over_all: &'static [u8],
}

const CASES: [Case; 5] = [
    // A part that may have no text does not move the far end.
    Case {
        kind: ItemKind::Min,
        parts: [
            b"1 ['Bern', 'Oslo']",
            b"1 ['Aarau', 'Basel'] or null",
            b"1 null",
        ],
        over_all: b"1 ['Aarau', 'Oslo']",
    },
    Case {
        kind: ItemKind::Max,
        parts: [
            b"1 ['Bern', 'Oslo']",
            b"1 ['Aarau', 'Rome'] or null",
            b"1 'Chur'",
        ],
        over_all: b"1 ['Chur', 'Rome']",
    },
    // Where none has one for certain, each may be alone.
    Case {
        kind: ItemKind::Min,
        parts: [b"1 'd' or null", b"1 ['a', 'c'] or null", b"1 - or null"],
        over_all: b"1 ['a', 'd'] or null",
    },
    // Texts go by their bytes, and a quote is doubled.
    Case {
        kind: ItemKind::Min,
        parts: [b"1 'aarau'", b"1 'Zug'", b"1 'it''s'"],
        over_all: b"1 'Zug'",
    },
    Case {
        kind: ItemKind::Max,
        parts: [b"1 - or null", b"1 null", b"1 null"],
        over_all: b"1 null",
    },
];

// The report of a part whose only block has that line.
fn part_of(alloc: Global, shape: &Shape, line: &[u8]) -> Result<Part, LineFault> {
    let mut part = Part::new(alloc, Vec::new(alloc));
    for line in [QUERY, b"round 0", line, b"end rounds"].iter() {
        part.take(alloc, QUERY, shape, line)?;
    }
    Ok(part)
}

fn parts_of(alloc: Global, case: &Case) -> Result<Vec<Part>, LineFault> {
    let shape = Shape {
        kinds: Listed::new(Vec::from_slice(alloc, &[case.kind])?),
        columns: 0,
        besides: Listed::new(Vec::new(alloc)),
        rows: None,
    };
    let mut parts = Vec::with_capacity(alloc, case.parts.len())?;
    for line in case.parts.iter() {
        parts.push(part_of(alloc, &shape, line)?)?;
    }
    Ok(parts)
}

#[test]
fn texts_of_several_parts_are_combined(rt: HostRuntime) -> Result<(), Fail> {
    let alloc = rt.alloc();
    for case in CASES.iter() {
        let Ok(parts) = parts_of(alloc, case) else {
            panic!(rt; "a line is refused");
        };
        let Ok(text) = written_block(alloc, 0, &[case.kind], &parts) else {
            panic!(rt; "a block is not written");
        };
        let mut wanted = Vec::from_slice(alloc, b"round 0\n")?;
        wanted.extend_from_slice(case.over_all)?;
        wanted.extend_from_slice(b"\n")?;
        assert!(rt; text.as_slice() == wanted.as_slice());
    }
    Ok(())
}

#[test]
fn a_text_beside_a_number_is_refused(rt: HostRuntime) {
    let alloc = rt.alloc();
    let case = Case {
        kind: ItemKind::Min,
        parts: [b"1 'Bern'", b"1 7", b"1 null"],
        over_all: b"",
    };
    let Ok(parts) = parts_of(alloc, &case) else {
        panic!(rt; "a line is refused");
    };
    let Err(why) = written_block(alloc, 0, &[ItemKind::Min], &parts) else {
        panic!(rt; "a block is written");
    };
    assert_eq!(rt; why, BlockFault::OtherItem(0));
}
