//! The first rows of several parts, judged by what the parts list: worked out by hand.

use daq_table::Text;
use part_rows::{PartRow, RowName, judge};
use query_kinds::FirstRows;
use query_model::Standing;
use shard_groups::{Ends, KeyValue, Span};
use std::alloc::{AllocError, Global};
use std::test::Fail;

// A row by part and number: whether it is certain, whether its key may be null, and the numbers between which it lies.
struct Listed {
    part: usize,
    number: u64,
    certain: bool,
    null: bool,
    ends: Option<(i128, i128)>,
}

struct Case {
    asked: FirstRows,
    rows: &'static [Listed],
    known: &'static [Standing],
}

const CASES: [Case; 3] = [
    // Of equal keys that of the earlier part comes first.
    Case {
        asked: FirstRows {
            limit: 3,
            down: true,
        },
        rows: &[
            Listed {
                part: 0,
                number: 1,
                certain: true,
                null: false,
                ends: Some((10, 10)),
            },
            Listed {
                part: 1,
                number: 4,
                certain: true,
                null: false,
                ends: Some((8, 8)),
            },
            Listed {
                part: 0,
                number: 2,
                certain: true,
                null: false,
                ends: Some((8, 8)),
            },
            Listed {
                part: 1,
                number: 1,
                certain: true,
                null: false,
                ends: Some((9, 9)),
            },
        ],
        known: &[
            Standing::Certain,
            Standing::Excluded,
            Standing::Certain,
            Standing::Certain,
        ],
    },
    // A row that may come first leaves a certain one open, and does not push it out.
    Case {
        asked: FirstRows {
            limit: 1,
            down: false,
        },
        rows: &[
            Listed {
                part: 0,
                number: 1,
                certain: false,
                null: false,
                ends: Some((3, 5)),
            },
            Listed {
                part: 1,
                number: 1,
                certain: true,
                null: false,
                ends: Some((6, 7)),
            },
            Listed {
                part: 2,
                number: 1,
                certain: true,
                null: false,
                ends: Some((8, 9)),
            },
        ],
        known: &[Standing::Possible, Standing::Possible, Standing::Excluded],
    },
    // Null comes last, downwards too.
    Case {
        asked: FirstRows {
            limit: 1,
            down: true,
        },
        rows: &[
            Listed {
                part: 0,
                number: 1,
                certain: true,
                null: true,
                ends: None,
            },
            Listed {
                part: 1,
                number: 1,
                certain: true,
                null: false,
                ends: Some((1, 2)),
            },
        ],
        known: &[Standing::Excluded, Standing::Certain],
    },
];

fn ends_of(ends: Option<(i128, i128)>) -> Option<Ends> {
    let (low, high) = ends?;
    Some(Ends {
        low: KeyValue::Number(low),
        high: KeyValue::Number(high),
    })
}

fn rows_of(alloc: Global, listed: &[Listed]) -> Result<Vec<PartRow>, AllocError> {
    let mut rows = Vec::with_capacity(alloc, listed.len())?;
    for row in listed {
        rows.push(PartRow {
            name: RowName {
                part: row.part,
                tag: Text::new(Vec::new(alloc)),
                number: row.number,
            },
            certain: row.certain,
            key: Span {
                null: row.null,
                ends: ends_of(row.ends),
            },
        })?;
    }
    Ok(rows)
}

#[test]
fn rows_of_several_parts_are_judged(rt: HostRuntime) -> Result<(), Fail> {
    let alloc = rt.alloc();
    for case in CASES.iter() {
        let rows = rows_of(alloc, case.rows)?;
        let known = judge(alloc, case.asked, &rows)?;
        assert!(rt; known.as_slice() == case.known);
    }
    Ok(())
}
