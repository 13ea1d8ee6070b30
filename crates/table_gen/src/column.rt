//! A column of the table, from its numbers.

ghost use Rattle.std.specs.Prelude.{◌≡◌, IfOk, IsTrue, [], map};
ghost use Rattle.daq_table.specs.Tables.{column_from};
ghost use Rattle.daq_table.specs.ColumnFacts.{fits_names, is_ascending};
ghost use Rattle.daq_table.specs.Extremes.{greatest, least};
ghost use Rattle.daq_table.specs.Raised.{lowered};
ghost use Rattle.table_gen.specs.Columns.{Stores};

use daq_table::{
    ColumnHead, Dictionary, Kind, Name, become_distances, greatest_number, least_number, raise,
};
use std::alloc::{AllocError, Global};

// The numbers, raised.
fn raised(alloc: Global, numbers: &[i64]) -> Result<Vec<u64>, AllocError>
    ensures { IfOk result (λ cells. map lowered cells.items ≡ numbers.now) }
{
    let mut cells = Vec::with_capacity(alloc, numbers.len())?;
    for number in numbers {
        cells.push(raise(*number))?;
    }
    Ok(cells)
}

/// The head of the column of these numbers, and the numbers of its cells, none of which is null.
pub(crate) fn column_of(
    alloc: Global,
    name: Name,
    kind: Kind,
    names: Dictionary,
    numbers: Vec<i64>,
) -> Result<(ColumnHead, Vec<u64>), AllocError>
    requires ascending { IsTrue (is_ascending names) }
    requires fits { IsTrue (fits_names kind (least numbers.items) (greatest numbers.items) names) }
    ensures { IfOk result (λ column. Stores name kind names numbers.items column.0 (column_from column.1.items [])) }
{
    let mut cells = raised(alloc, &numbers)?;
    let base = least_number(&cells);
    let top = greatest_number(&cells);
    become_distances(&mut cells, base);
    let head = ColumnHead {
        name,
        kind,
        nullable: false,
        base,
        top,
        names,
    };
    Ok((head, cells))
}
