//! What planes are cut from: cells of 32 binary digits, and their column, of which nothing is read.

ghost use Rattle.std.specs.Prelude.{◌≡◌, ◌≤◌, [], ◌∷◌, IfOk};
ghost use Rattle.daq_table.specs.Tables.{ends_at};
ghost use Rattle.known_column.specs.KnownTables.{unread_table};
ghost use Rattle.plane_bench.specs.Planes.{cell_of, cells_of, AreWide};

use daq_table::{ColumnHead, ColumnHeads, Dictionary, Head, Kind, Name};
use known_column::KnownColumns;
use std::alloc::{AllocError, Global};

// The cell of a row: multiples of an odd number of 32 digits, which lie about evenly.
fn make_cell(row: usize) -> u64
    requires { row ≤ 16777216 }
    ensures { result ≡ cell_of row }
{
    row as u64 * 2_654_435_761 % (1 << 32)
}

// The cells of so many rows.
pub(crate) fn make_cells(alloc: Global, rows: usize) -> Result<Vec<u64>, AllocError>
    requires { rows ≤ 16777216 }
    ensures { IfOk result (λ cells. cells.items ≡ cells_of rows) }
{
    let mut cells = Vec::with_capacity(alloc, rows)?;
    for row in 0..rows {
        cells.push(make_cell(row))?;
    }
    Ok(cells)
}

// A column of whole numbers of 32 digits in a table of so many rows, of which nothing is read.
pub(crate) fn open_column(alloc: Global, rows: usize) -> Result<KnownColumns, AllocError>
    requires { rows ≤ 16777216 }
    ensures unread { IfOk result (λ columns. columns ≡ unread_table columns.frame) }
    ensures rows { IfOk result (λ columns. columns.frame.rows ≡ rows) }
    ensures one { IfOk result (λ columns. columns.frame.columns ≡ ends_at columns.frame 0 ∷ []) }
    ensures wide { IfOk result (λ columns. AreWide (ends_at columns.frame 0)) }
{
    let column = ColumnHead {
        name: Name::new(b"v".to_vec(alloc)?),
        kind: Kind::Int,
        nullable: false,
        base: 0,
        top: i64::from(u32::MAX),
        names: Dictionary::new(Vec::new(alloc)),
    };
    let head = Head {
        rows: rows as u64,
        columns: ColumnHeads::new(vec![in alloc; column]?),
    };
    KnownColumns::open(alloc, &[0], &head)
}
