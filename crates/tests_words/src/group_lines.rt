//! What the lines of groups say, read back.

use report_text::{Form, ShownEnds, ShownSpan, read_group};
use std::alloc::{AllocError, Global};
use std::test::Fail;

// Lines as reports write them.
const LINES: [&[u8]; 13] = [
    b"group 7 present",
    b"group -7..12 possible",
    b"group 1.5..2.5 possible",
    b"group -0.05..-0.01 or null possible",
    b"group null present",
    b"group 2024-02-29, 5 present",
    b"group 1969-12-31..1970-01-02 or null, null possible",
    b"group 'it''s' present",
    b"group '' present",
    b"group 'a, b or null'..'c..d', 1 possible",
    b"group ''''..'''''', null present",
    b"group 1, 'x present', 0.0 or null possible",
    b"group - or null possible",
];

// Lines that no report writes.
const OTHERS: [&[u8]; 16] = [
    b"group present",
    b"group  present",
    b"group 7",
    b"group 7 absent",
    b"group 7  present",
    b"group 7..7 present",
    b"group 8..7 present",
    b"group 'b'..'a' present",
    b"group 1..2.5 present",
    b"group 1..2..3 present",
    b"group 07 present",
    b"group 'it's' present",
    b"group 'open present",
    b"group 7, present",
    b"group 7,8 present",
    b"group -..- present",
];

// Whether the line says something.
fn is_read(alloc: Global, line: &[u8]) -> Result<bool, AllocError> {
    Ok(read_group(alloc, line)?.is_some())
}

#[test]
fn lines_of_reports_are_read(rt: HostRuntime) -> Result<(), Fail> {
    let alloc = rt.alloc();
    for line in LINES.iter() {
        assert!(rt; is_read(alloc, line)?);
    }
    Ok(())
}

#[test]
fn other_lines_are_not(rt: HostRuntime) -> Result<(), Fail> {
    let alloc = rt.alloc();
    for line in OTHERS.iter() {
        assert!(rt; !is_read(alloc, line)?);
    }
    Ok(())
}

// Whether it is just these numbers, in their form.
fn are_numbers(span: Option<&ShownSpan>, null: bool, form: Form, low: i128, high: i128) -> bool {
    let Some(span) = span else {
        return false;
    };
    match &span.ends {
        Some(ShownEnds::Values(ends)) => {
            span.null == null && ends.form == form && ends.low == low && ends.high == high
        }
        _ => false,
    }
}

// Whether it is just these texts.
fn are_texts(span: Option<&ShownSpan>, low: &[u8], high: &[u8]) -> bool {
    let Some(span) = span else {
        return false;
    };
    match &span.ends {
        Some(ShownEnds::Texts(ends)) => {
            !span.null && ends.low.as_slice() == low && ends.high.as_slice() == high
        }
        _ => false,
    }
}

// Whether it is null alone.
fn is_null(span: Option<&ShownSpan>) -> bool {
    match span {
        Some(span) => span.null && span.ends.is_none(),
        None => false,
    }
}

#[test]
fn each_column_is_read(rt: HostRuntime) -> Result<(), Fail> {
    let alloc = rt.alloc();
    let line = b"group -1.50..2.25 or null, 'it''s'..'no, not', null, 1970-01-02 possible";
    match read_group(alloc, line)? {
        Some(group) => {
            let keys = group.keys.as_slice();
            assert!(rt; !group.present);
            assert_eq!(rt; keys.len(), 4);
            assert!(rt; are_numbers(keys.first(), true, Form::Decimals(2), -150, 225));
            assert!(rt; are_texts(keys.get(1), b"it's", b"no, not"));
            assert!(rt; is_null(keys.get(2)));
            assert!(rt; are_numbers(keys.get(3), false, Form::Date, 1, 1));
        }
        None => assert!(rt; false),
    }
    Ok(())
}
