//! The planes of a table in memory.

ghost use Rattle.std.specs.Prelude.{◌≡◌, ◌<◌, length};
ghost use Rattle.daq_table.specs.Tables.{ends_at, frame_of, planes};
ghost use Rattle.query_model.specs.Knowledge.{plane_of};

use daq_table::{Table, width};
use plane_kernels::{Plane, transpose, validity};

/// A plane of a column of a table, by its number from 0, the highest: of a nullable column first the rows that are not null, then the
/// binary digits of the numbers, each counted from the column's base.
pub fn cut(table: &Table, column: usize, number: u8, into: &mut Plane)
    requires column { column < length table.now.head.columns }
    requires number { number < planes (ends_at (frame_of table.now.head) column) }
    requires rows { length into.old ≡ table.now.head.rows }
    ensures bits { into.new ≡ plane_of (frame_of table.now.head) table.now.cells column number }
    ensures rows { length into.new ≡ length into.old }
{
    let head = &table.head().columns.as_slice()[column];
    let digits = width(head);
    if !head.nullable {
        transpose(table.column(column), digits, number, into);
    } else if number == 0 {
        validity(table.nulls(column), into);
    } else {
        transpose(table.column(column), digits, number - 1, into);
    }
}
