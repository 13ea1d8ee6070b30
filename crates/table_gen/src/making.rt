//! From a seed to its table.

ghost use Rattle.std.specs.Prelude.{◌≡◌, ◌≤◌, ◌<◌, ◌↔◌, ◌≢◌, All, IfOk, Err, [], ◌∷◌, map, vec_items};
ghost use Rattle.daq_table.specs.Tables.{column_from};
ghost use Rattle.daq_table.specs.declared.head.Kind.TheVariants.{Text};
ghost use Rattle.daq_table.specs.Dictionaries.{distinct};
ghost use Rattle.table_gen.specs.Columns.{Stores, ranks_of};
ghost use Rattle.table_gen.specs.Draws.{text_of};
ghost use Rattle.table_gen.specs.TableOf.{IsTableOfSeed};

use crate::column::column_of;
use crate::fault::GenFault;
use crate::names::{dictionary, ranks};
use crate::rows::draw_rows;
use daq_table::{ColumnHead, ColumnHeads, Dictionary, Head, Kind, Name, Table};
use std::alloc::{AllocError, Global};

/// The greatest number of rows of a table, 2^24.
pub const MOST_ROWS: u64 = 16_777_216;

// A column of numbers that are no ranks.
fn plain_column(
    alloc: Global,
    letter: u8,
    kind: Kind,
    numbers: Vec<i64>,
) -> Result<(ColumnHead, Vec<u64>), AllocError>
    requires { kind ≢ Text }
    ensures { IfOk result (λ column. Stores (letter ∷ []) kind [] numbers.items column.0 (column_from column.1.items [])) }
{
    let name = Name::new(Vec::from_slice(alloc, &[letter])?);
    column_of(alloc, name, kind, Dictionary::new(Vec::new(alloc)), numbers)
}

// The column of the texts of these numbers.
fn text_column(
    alloc: Global,
    letter: u8,
    codes: &[u8],
) -> Result<(ColumnHead, Vec<u64>), AllocError>
    requires { All (λ code. code < 16) codes.now }
    ensures { IfOk result (λ column. Stores (letter ∷ []) Text
        (distinct (map text_of codes.now)) (ranks_of (map text_of codes.now)) column.0 (column_from column.1.items [])) }
{
    let names = dictionary(alloc, codes)?;
    let ranks = ranks(alloc, codes, names.as_slice())?;
    let name = Name::new(Vec::from_slice(alloc, &[letter])?);
    column_of(alloc, name, Kind::Text, names, ranks)
}

// The marks of null in the four columns: none.
fn no_marks(alloc: Global) -> Result<Vec<Vec<bool>>, AllocError>
    ensures { IfOk result (λ marks. map vec_items marks.items ≡ [] ∷ [] ∷ [] ∷ [] ∷ []) }
{
    let a = Vec::new(alloc);
    let b = Vec::new(alloc);
    let d = Vec::new(alloc);
    let g = Vec::new(alloc);
    Ok(Vec::from_array(alloc, [a, b, d, g])?)
}

// The table of so many rows.
fn table_of(alloc: Global, seed: u64, rows: usize) -> Result<Table, AllocError>
    requires { rows ≤ MOST_ROWS }
    ensures { IfOk result (IsTableOfSeed seed rows) }
{
    let drawn = draw_rows(alloc, seed, rows)?;
    let g = text_column(alloc, b'g', &drawn.codes)?;
    let a = plain_column(alloc, b'a', Kind::Int, drawn.a)?;
    let b = plain_column(alloc, b'b', Kind::Dec(2), drawn.b)?;
    let d = plain_column(alloc, b'd', Kind::Date, drawn.d)?;
    let nulls = no_marks(alloc)?;
    let head = Head {
        rows: rows as u64,
        columns: ColumnHeads::new(Vec::from_array(alloc, [a.0, b.0, d.0, g.0])?),
    };
    let cells = Vec::from_array(alloc, [a.1, b.1, d.1, g.1])?;
    Ok(Table::new(head, cells, nulls))
}

/// The table of so many rows that the seed stands for: columns `a:int`, `b:dec2`, `d:date` and `g:text`, stored as a CSV's
/// would be. More than `MOST_ROWS` are refused before any memory is taken.
pub fn make(alloc: Global, seed: u64, rows: u64) -> Result<Table, GenFault>
    ensures table { IfOk result (IsTableOfSeed seed rows) }
    ensures many { (result ≡ Err GenFault.TooMany) ↔ (MOST_ROWS < rows) }
{
    if rows > MOST_ROWS {
        return Err(GenFault::TooMany);
    }
    let table = table_of(alloc, seed, rows as usize)?;
    Ok(table)
}
