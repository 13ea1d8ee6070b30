//! The reports of a table's parts, read line by line and combined: worked out by hand.

use daq_table::Listed;
use plane_schedule::Nearness;
use query_model::{Bound, ItemKind, Nullity};
use report_parts::{
    Asked, BlockFault, Combination, CombineFault, EndFault, InputFault, LineFault, Part, Parts,
    Shape, Until, all_have_block, combine_item, end_behind, have_all_ended, is_narrow, may_end,
    written_block, written_opening,
};
use report_text::{Answer, Form, Number, Ratio, ReportEnd, ShownAverage, ShownBound};
use std::alloc::{AllocError, Global};

const QUERY: &[u8] = b"query SELECT SUM(price), COUNT(*) FROM t";

const KINDS: [ItemKind; 2] = [ItemKind::Sum, ItemKind::Count];

// Blocks of items of these kinds, by so many group columns.
fn shape(alloc: Global, columns: usize) -> Result<Shape, AllocError> {
    Ok(Shape {
        kinds: Listed::new(Vec::from_slice(alloc, &KINDS)?),
        columns,
        besides: Listed::new(Vec::new(alloc)),
        rows: None,
    })
}

// The report of these lines, by so many group columns.
fn part_by(alloc: Global, columns: usize, lines: &[&[u8]]) -> Result<Part, LineFault> {
    let shape = shape(alloc, columns)?;
    let mut part = Part::new(alloc, Vec::new(alloc));
    for line in lines {
        part.take(alloc, QUERY, &shape, line)?;
    }
    Ok(part)
}

fn part_of(alloc: Global, lines: &[&[u8]]) -> Result<Part, LineFault> {
    part_by(alloc, 0, lines)
}

fn value_within(null: Nullity, lo: i128, hi: i128) -> Answer {
    Answer::Value(ShownBound {
        form: Form::Decimals(0),
        bound: Bound { null, lo, hi },
    })
}

fn value(null: Nullity, lo: i128, hi: i128) -> Result<Answer, CombineFault> {
    Ok(value_within(null, lo, hi))
}

// The answer of an item over all parts.
fn answer_over(
    alloc: Global,
    kind: ItemKind,
    round: usize,
    item: usize,
    parts: &[Part],
) -> Result<Answer, CombineFault> {
    Ok(combine_item(alloc, kind, round, item, parts)?.answer)
}

/// A part that ends behind its second block, and one that ends behind its first.
fn two_ended_parts(alloc: Global) -> Result<[Part; 2], LineFault> {
    let first = part_of(
        alloc,
        &[
            QUERY,
            b"round 0",
            b"1 [3, 24]",
            b"2 2",
            b"round 1 price 1/3",
            b"1 [14, 17]",
            b"2 2",
            b"end rounds",
        ],
    )?;
    let second = part_of(
        alloc,
        &[
            QUERY,
            b"parts 2",
            b"round 0",
            b"1 5 or null",
            b"2 [0, 1]",
            b"end reads",
        ],
    )?;
    Ok([first, second])
}

#[test]
fn a_part_that_has_ended_stands_by_its_last_block(rt: HostRuntime) {
    let alloc = rt.alloc();
    let Ok(parts) = two_ended_parts(alloc) else {
        panic!(rt; "a line is refused");
    };
    assert!(rt; all_have_block(1, &parts));
    assert_eq!(rt;
        answer_over(alloc, ItemKind::Sum, 0, 0, &parts),
        value(Nullity::Never, 3, 29)
    );
    assert_eq!(rt;
        answer_over(alloc, ItemKind::Sum, 1, 0, &parts),
        value(Nullity::Never, 14, 22)
    );
    assert_eq!(rt;
        answer_over(alloc, ItemKind::Count, 1, 1, &parts),
        value(Nullity::Never, 2, 3)
    );
}

#[test]
fn a_combination_ends_where_all_parts_have(rt: HostRuntime) {
    let alloc = rt.alloc();
    let Ok(parts) = two_ended_parts(alloc) else {
        panic!(rt; "a line is refused");
    };
    assert!(rt; !have_all_ended(0, &parts));
    assert!(rt; have_all_ended(1, &parts));
    assert_eq!(rt; may_end(2, &parts), Ok(()));
    assert_eq!(rt; may_end(3, &parts), Err(EndFault::OtherCount(2)));
    assert_eq!(rt; end_behind(false, false, 0, &parts), None);
    assert_eq!(rt; end_behind(false, true, 0, &parts), Some(ReportEnd::Rounds));
    assert_eq!(rt; end_behind(true, true, 0, &parts), Some(ReportEnd::Narrow));
    assert_eq!(rt;
        end_behind(false, false, 1, &parts),
        Some(ReportEnd::Rounds)
    );
}

#[test]
fn lines_out_of_place_are_refused(rt: HostRuntime) {
    let alloc = rt.alloc();
    let wrong: [&[&[u8]]; 9] = [
        &[b"round 0"],
        &[b"query SELECT COUNT(*) FROM t"],
        &[QUERY, b"round 1"],
        &[QUERY, b"end narrow"],
        &[QUERY, b"round 0", b"2 1"],
        &[QUERY, b"round 0", b"1 1", b"2 1", b"round 2"],
        &[QUERY, b"round 0", b"1 1", b"2 1.0"],
        &[QUERY, b"round 0", b"1 1", b"end narrow"],
        &[
            QUERY,
            b"round 0",
            b"1 1",
            b"2 1",
            b"end narrow",
            b"end narrow",
        ],
    ];
    for lines in wrong {
        assert!(rt; part_of(alloc, lines).is_err());
    }
}

#[test]
fn a_report_by_groups_is_taken(rt: HostRuntime) {
    let alloc = rt.alloc();
    let lines: [&[u8]; 13] = [
        QUERY,
        b"parts 2",
        b"round 0",
        b"group 'Bern'..'Rome', 3 or null possible",
        b"1 [3, 24] or null",
        b"2 [0, 2]",
        b"group null, 4..7 present",
        b"1 7",
        b"2 1",
        b"round 1 city 1/2",
        b"round 2 city 2/2",
        b"group 'a, b', 3 present",
        b"1 7",
    ];
    let Ok(part) = part_by(alloc, 2, &lines) else {
        panic!(rt; "a line is refused");
    };
    assert_eq!(rt; part.count(), 2);
    assert!(rt; part_by(alloc, 2, &[QUERY, b"round 0", b"end rounds"]).is_ok());
}

#[test]
fn lines_of_groups_out_of_place_are_refused(rt: HostRuntime) {
    let alloc = rt.alloc();
    let wrong: [&[&[u8]]; 6] = [
        &[QUERY, b"round 0", b"1 3"],
        &[QUERY, b"parts 2", b"group 'Rome' present"],
        &[QUERY, b"round 0", b"group 'Rome', 3 present"],
        &[QUERY, b"round 0", b"group 'Rome' present", b"round 1"],
        &[
            QUERY,
            b"round 0",
            b"group 'Rome' present",
            b"1 7",
            b"2 1",
            b"round 2",
        ],
        &[
            QUERY,
            b"round 0",
            b"group 'Rome' present",
            b"1 7",
            b"2 1",
            b"3 1",
        ],
    ];
    for lines in wrong {
        assert!(rt; part_by(alloc, 1, lines).is_err());
    }
    let grouped: [&[u8]; 3] = [QUERY, b"round 0", b"group 'Rome' present"];
    assert!(rt; part_of(alloc, &grouped).is_err());
    assert!(rt; part_by(alloc, 1, &grouped).is_ok());
}

#[test]
fn other_decimals_are_refused(rt: HostRuntime) {
    let alloc = rt.alloc();
    let whole = part_of(alloc, &[QUERY, b"round 0", b"1 3", b"2 1"]);
    let tenths = part_of(alloc, &[QUERY, b"round 0", b"1 3.5", b"2 1"]);
    let (Ok(whole), Ok(tenths)) = (whole, tenths) else {
        panic!(rt; "a line is refused");
    };
    let parts = [whole, tenths];
    assert_eq!(rt;
        answer_over(alloc, ItemKind::Sum, 0, 0, &parts),
        Err(CombineFault::OtherForm)
    );
    assert_eq!(rt;
        answer_over(alloc, ItemKind::Count, 0, 1, &parts),
        value(Nullity::Never, 2, 2)
    );
    let Err(why) = written_block(alloc, 0, &KINDS, &parts) else {
        panic!(rt; "a block is written");
    };
    assert_eq!(rt; why, BlockFault::OtherItem(0));
    assert_eq!(rt; may_end(2, &parts), Err(EndFault::EndsEarly(0)));
}

fn ratio(end: (i128, u64)) -> Ratio {
    Ratio {
        sum: Number {
            decimals: 0,
            units: end.0,
        },
        rows: end.1,
    }
}

fn average(low: (i128, u64), high: (i128, u64)) -> Answer {
    Answer::Average(ShownAverage {
        null: Nullity::Never,
        low: ratio(low),
        high: ratio(high),
    })
}

#[test]
fn an_answer_is_narrow_by_its_width(rt: HostRuntime) {
    let near = [
        value_within(Nullity::Never, 3, 5),
        value_within(Nullity::Always, 0, 0),
        average((7, 2), (11, 2)),
        average((1, 2), (2, 4)),
        average((i128::MIN, 1), (i128::MIN, 1)),
        average((i128::MAX, u64::MAX), (i128::MAX, u64::MAX)),
    ];
    for answer in near {
        assert!(rt; is_narrow(2, &answer));
    }
    let far = [
        value_within(Nullity::Never, 3, 6),
        value_within(Nullity::Possibly, 3, 3),
        value_within(Nullity::Never, i128::MIN, i128::MAX),
        average((7, 2), (12, 2)),
        average((i128::MIN, 1), (i128::MAX, 1)),
    ];
    for answer in far {
        assert!(rt; !is_narrow(2, &answer));
    }
}

fn asked(alloc: Global) -> Result<Asked, AllocError> {
    Ok(Asked {
        query: Vec::from_slice(alloc, QUERY)?,
        shape: shape(alloc, 0)?,
    })
}

// The parts after these lines of the input, of at most two parts.
fn parts_of(alloc: Global, lines: &[&[u8]]) -> Result<Parts, InputFault> {
    let asked = asked(alloc)?;
    let mut parts = Parts::new(alloc);
    for line in lines {
        parts.take(alloc, &asked, 2, line)?;
    }
    Ok(parts)
}

#[test]
fn parts_stand_in_the_order_of_their_tags(rt: HostRuntime) {
    let alloc = rt.alloc();
    let orders: [[&[u8]; 8]; 2] = [
        [
            b"b\tquery SELECT SUM(price), COUNT(*) FROM t",
            b"b\tround 0",
            b"b\t1 [3, 24]",
            b"a\tquery SELECT SUM(price), COUNT(*) FROM t",
            b"b\t2 2",
            b"a\tround 0",
            b"a\t1 5 or null",
            b"a\t2 [0, 1]",
        ],
        [
            b"a\tquery SELECT SUM(price), COUNT(*) FROM t",
            b"a\tround 0",
            b"a\t1 5 or null",
            b"a\t2 [0, 1]",
            b"b\tquery SELECT SUM(price), COUNT(*) FROM t",
            b"b\tround 0",
            b"b\t1 [3, 24]",
            b"b\t2 2",
        ],
    ];
    for lines in &orders {
        let Ok(parts) = parts_of(alloc, lines) else {
            panic!(rt; "a line is refused");
        };
        let parts = parts.as_slice();
        assert_eq!(rt; parts.len(), 2);
        assert!(rt; parts[0].tag() == b"a".as_slice());
        assert!(rt; parts[1].tag() == b"b".as_slice());
        let Ok(text) = written_block(alloc, 0, &KINDS, parts) else {
            panic!(rt; "no block");
        };
        assert!(rt; text.as_slice() == b"round 0\n1 [3, 29]\n2 [2, 3]\n".as_slice());
    }
}

// Why the last of the lines is refused.
fn refusal(alloc: Global, lines: &[&[u8]]) -> Option<InputFault> {
    match parts_of(alloc, lines) {
        Ok(_) => None,
        Err(why) => Some(why),
    }
}

#[test]
fn each_refusal_of_a_line(rt: HostRuntime) {
    let alloc = rt.alloc();
    let opened: &[u8] = b"a\tquery SELECT SUM(price), COUNT(*) FROM t";
    let second: &[u8] = b"b\tquery SELECT SUM(price), COUNT(*) FROM t";
    let third: &[u8] = b"c\tquery SELECT SUM(price), COUNT(*) FROM t";
    let other = Some(InputFault::Line(LineFault::OtherQuery));
    assert_eq!(rt; refusal(alloc, &[b"round 0"]), Some(InputFault::NoTab));
    assert_eq!(rt; refusal(alloc, &[b"\tround 0"]), Some(InputFault::NoTag));
    assert_eq!(rt;
        refusal(alloc, &[opened, second, third]),
        Some(InputFault::OtherPart)
    );
    assert_eq!(rt;
        refusal(alloc, &[opened, b"b\tquery SELECT COUNT(*) FROM t"]),
        other
    );
    assert_eq!(rt;
        refusal(alloc, &[opened, second, b"a\tround 1"]),
        Some(InputFault::Line(LineFault::OtherLine))
    );
    assert_eq!(rt; refusal(alloc, &[opened, second, b"a\tround 0"]), None);
}

// What is written of the lines of two parts, as far as they are taken, behind the first lines.
fn written(rt: HostRuntime, until: Until, lines: &[&[u8]]) -> Option<Vec<u8>> {
    let alloc = rt.alloc();
    let Ok(asked) = asked(alloc) else {
        return None;
    };
    let mut combination = Combination::new(alloc, asked, 2, until);
    let mut text = Vec::new(alloc);
    for line in lines {
        if combination.has_ended() {
            return Some(text);
        }
        if combination.take(alloc, line, &mut text).is_err() {
            return None;
        }
    }
    if combination.has_ended() {
        Some(text)
    } else {
        None
    }
}

const IN_TURN: [&[u8]; 14] = [
    b"b\tquery SELECT SUM(price), COUNT(*) FROM t",
    b"b\tround 0",
    b"b\t1 [3, 24]",
    b"b\t2 2",
    b"b\tround 1 price 1/3",
    b"b\t1 [14, 17]",
    b"b\t2 2",
    b"b\tend rounds",
    b"a\tquery SELECT SUM(price), COUNT(*) FROM t",
    b"a\tparts 2",
    b"a\tround 0",
    b"a\t1 5 or null",
    b"a\t2 [0, 1]",
    b"a\tend reads",
];

const INTERLEAVED: [&[u8]; 14] = [
    b"a\tquery SELECT SUM(price), COUNT(*) FROM t",
    b"b\tquery SELECT SUM(price), COUNT(*) FROM t",
    b"b\tround 0",
    b"a\tparts 2",
    b"a\tround 0",
    b"b\t1 [3, 24]",
    b"a\t1 5 or null",
    b"b\t2 2",
    b"a\t2 [0, 1]",
    b"b\tround 1 price 1/3",
    b"a\tend reads",
    b"b\t1 [14, 17]",
    b"b\t2 2",
    b"b\tend rounds",
];

fn until(width: u64, rounds: Option<u32>) -> Until {
    let near = Nearness { width, keys: false };
    Until { near, rounds }
}

#[test]
fn a_combined_report_is_the_same_in_each_order_of_lines(rt: HostRuntime) {
    let whole: &[u8] = b"round 0\n1 [3, 29]\n2 [2, 3]\nround 1\n1 [14, 22]\n2 [2, 3]\nend rounds\n";
    let first: &[u8] = b"round 0\n1 [3, 29]\n2 [2, 3]\nend rounds\n";
    let narrow: &[u8] = b"round 0\n1 [3, 29]\n2 [2, 3]\nend narrow\n";
    for lines in [&IN_TURN, &INTERLEAVED] {
        assert!(rt;
            written(rt, until(7, None), lines).is_some_and(|text| text.as_slice() == whole)
        );
        assert!(rt;
            written(rt, until(0, Some(0)), lines).is_some_and(|text| text.as_slice() == first)
        );
        assert!(rt;
            written(rt, until(26, Some(0)), lines).is_some_and(|text| text.as_slice() == narrow)
        );
    }
}

#[test]
fn the_opening_names_the_query_and_the_parts(rt: HostRuntime) {
    let Ok(text) = written_opening(rt.alloc(), b"query SELECT COUNT(*) FROM t", 12) else {
        panic!(rt; "no memory");
    };
    assert!(rt; text.as_slice() == b"query SELECT COUNT(*) FROM t\nparts 12\n".as_slice());
}
