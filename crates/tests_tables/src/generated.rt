//! The table of seed 1 with the most rows: its last row, by numbers that were computed apart.

use daq_table::Table;
use std::test::Fail;
use table_gen::{MOST_ROWS, make};

// The value in the last row, if there is a row.
fn last_value(table: &Table, place: usize) -> Option<i64> {
    let rows = table.head().rows;
    let columns = table.head().columns.as_slice().len();
    if rows == 0 || place >= columns {
        return None;
    }
    let last = rows as usize - 1;
    if table.is_null(last, place) {
        None
    } else {
        Some(table.cell(last, place))
    }
}

#[test]
fn most_rows(rt: HostRuntime) -> Result<(), Fail> {
    let table = make(rt.alloc(), 1, MOST_ROWS)?;
    assert_eq!(rt; table.head().rows, 16_777_216);
    assert_eq!(rt; last_value(&table, 0), Some(-307_857_406));
    assert_eq!(rt; last_value(&table, 1), Some(9_118));
    assert_eq!(rt; last_value(&table, 2), Some(13_566));
    assert_eq!(rt; last_value(&table, 3), Some(0));
    Ok(())
}
