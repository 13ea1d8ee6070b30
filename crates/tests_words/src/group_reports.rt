//! The reports by groups of a table's parts, combined: worked out by hand.

ghost use Rattle.std.specs.List.{All};
ghost use Rattle.part_groups.specs.Combined.{IsShown};

use daq_table::Listed;
use part_groups::{CombineFault, Group, combine};
use query_model::ItemKind;
use report_text::{read_group, read_item, written_group, written_item};
use std::alloc::{AllocError, Global};
use std::test::Fail;

const KINDS: [ItemKind; 2] = [ItemKind::Count, ItemKind::Sum];

// The line of a group, and those of its two items.
type Lines = [&'static [u8]; 3];

// The reports of two parts, by so many group columns, and that over both.
struct Case {
    columns: usize,
    parts: [&'static [Lines]; 2],
    whole: &'static [u8],
}

const CASES: [Case; 4] = [
    // A key of one part alone.
    Case {
        columns: 1,
        parts: [
            &[
                [b"group 1 present", b"1 3", b"2 10"],
                [b"group 2 present", b"1 1", b"2 5"],
            ],
            &[[b"group 2 present", b"1 2", b"2 -4"]],
        ],
        whole: b"group 1 present\n1 3\n2 10\ngroup 2 present\n1 3\n2 1\n",
    },
    // Ranges that overlap.
    Case {
        columns: 1,
        parts: [
            &[
                [b"group 0..3 possible", b"1 [0, 2]", b"2 [1, 5] or null"],
                [b"group 4..7 possible", b"1 [0, 2]", b"2 [2, 8] or null"],
            ],
            &[[b"group 2..5 possible", b"1 [1, 4]", b"2 7"]],
        ],
        whole: b"group 0..7 possible\n1 [0, 6]\n2 [1, 15] or null\n",
    },
    // Two columns, nulls and a text with a comma.
    Case {
        columns: 2,
        parts: [
            &[[
                b"group 'a, b'..'c' or null, 2024-01-01 possible",
                b"1 [0, 4]",
                b"2 1.5 or null",
            ]],
            &[[b"group 'b', 2024-01-01 present", b"1 1", b"2 2.5"]],
        ],
        whole: b"group 'a, b'..'c' or null, 2024-01-01 possible\n1 [0, 5]\n2 [1.5, 4.0] or null\n",
    },
    // Null alone, and a column without texts.
    Case {
        columns: 1,
        parts: [
            &[[b"group null present", b"1 1", b"2 null"]],
            &[[b"group - or null possible", b"1 [0, 2]", b"2 null"]],
        ],
        whole: b"group null present\n1 [1, 3]\n2 null\n",
    },
];

// The groups that these lines say.
fn groups_of(alloc: Global, parts: &[Lines]) -> Result<Vec<Group>, AllocError> {
    let mut groups = Vec::new(alloc);
    for lines in parts {
        let line = read_group(alloc, lines[0])?;
        let count = read_item(ItemKind::Count, 1, lines[1]);
        let sum = read_item(ItemKind::Sum, 2, lines[2]);
        if let (Some(line), Some(count), Some(sum)) = (line, count, sum) {
            let mut answers = Vec::new(alloc);
            answers.push(count)?;
            answers.push(sum)?;
            groups.push(Group {
                line,
                answers: Listed::new(answers),
                texts: Listed::new(Vec::new(alloc)),
            })?;
        }
    }
    Ok(groups)
}

// The lines of the groups.
fn written(alloc: Global, groups: &[Group]) -> Result<Vec<u8>, AllocError>
    requires { All IsShown groups.now }
{
    let mut text = Vec::new(alloc);
    for group in groups {
        text.extend_from_slice(written_group(alloc, &group.line)?.as_slice())?;
        text.push(b'\n')?;
        let mut number = 1;
        for answer in group.answers.as_slice() {
            text.extend_from_slice(written_item(number, answer).bytes())?;
            text.push(b'\n')?;
            number = number.saturating_add(1);
        }
    }
    Ok(text)
}

fn whole(alloc: Global, case: &Case) -> Result<Vec<u8>, CombineFault> {
    if case.columns == 0 {
        return Err(CombineFault::NoMemory);
    }
    let first = groups_of(alloc, case.parts[0])?;
    let second = groups_of(alloc, case.parts[1])?;
    let groups = combine(alloc, case.columns, &KINDS, &[&first, &second])?;
    Ok(written(alloc, &groups)?)
}

#[test]
fn reports_of_two_parts_are_combined(rt: HostRuntime) -> Result<(), Fail> {
    let alloc = rt.alloc();
    for case in CASES.iter() {
        match whole(alloc, case) {
            Ok(text) => assert_eq!(rt; text.as_slice(), case.whole),
            Err(_) => assert!(rt; false),
        }
    }
    Ok(())
}

const OTHERS: [Case; 2] = [
    Case {
        columns: 1,
        parts: [
            &[[b"group 1 present", b"1 1", b"2 1.5"]],
            &[[b"group 2 present", b"1 1", b"2 2"]],
        ],
        whole: b"",
    },
    Case {
        columns: 1,
        parts: [
            &[[b"group 1 present", b"1 1", b"2 1"]],
            &[[b"group 2.0 present", b"1 1", b"2 1.5"]],
        ],
        whole: b"",
    },
];

#[test]
fn other_forms_are_refused(rt: HostRuntime) -> Result<(), Fail> {
    let alloc = rt.alloc();
    assert!(rt; whole(alloc, &OTHERS[0]) == Err(CombineFault::OtherItem(1)));
    assert!(rt; whole(alloc, &OTHERS[1]) == Err(CombineFault::OtherColumn(0)));
    Ok(())
}
