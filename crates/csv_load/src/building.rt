//! The table of the columns that were read.

ghost use Rattle.std.specs.Prelude.{◌≡◌, ◌≤◌, length, map, IfOk, OnOk};
ghost use Rattle.csv_load.specs.States.{AreComplete, AreStored, emptied};

use crate::column::Column;
use daq_table::{ColumnHeads, Head, Name, Schema, Table};
use std::alloc::{AllocError, Global};

/// The table of the columns, under the schema's names. At Ok the columns are left without their cells.
pub(crate) fn table_of(
    alloc: Global,
    schema: &Schema,
    rows: usize,
    columns: &mut [Column],
) -> Result<Table, AllocError>
    requires wide { length columns.old ≡ length schema.now.columns }
    requires few { rows ≤ 16777216 }
    requires complete { AreComplete rows columns.old }
    ensures rows { IfOk result (λ table. table.head.rows ≡ rows) }
    ensures columns { IfOk result (λ table. AreStored schema.now.columns columns.old table.head.columns table.cells) }
    ensures left { OnOk result (columns.new ≡ map emptied columns.old) }
{
    let mut heads = Vec::new(alloc);
    let mut lists = Vec::new(alloc);
    let mut marks = Vec::new(alloc);
    for (place, declared) in schema.columns.as_slice().iter().enumerate() {
        let name = Name::new(Vec::from_slice(alloc, declared.name.as_slice())?);
        let (head, cells, nulls) = columns[place].finish(alloc, name)?;
        heads.push(head)?;
        lists.push(cells)?;
        marks.push(nulls)?;
    }
    let head = Head {
        rows: rows as u64,
        columns: ColumnHeads::new(heads),
    };
    Ok(Table::new(head, lists, marks))
}
