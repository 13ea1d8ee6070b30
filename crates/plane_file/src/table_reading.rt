//! From a store to the table whose file it holds.

ghost use Rattle.std.specs.Prelude.{map, vec_items, IfErr, IfOk};
ghost use Rattle.outer_world.specs.Whole.{HoldsSame};
ghost use Rattle.plane_file.specs.ColumnReading.{HoldsFile, ReadsColumns, StopsInColumns};
ghost use Rattle.plane_file.specs.TableReading.{ReadsTable, RefusesTable};

use crate::column_reading::read_column;
use crate::opening::open;
use crate::plane_file::PlaneFile;
use crate::table_fault::TableReadFault;
use daq_table::Table;
use outer_world::Store;
use plane_kernels::Plane;
use std::alloc::Global;

// The numbers of all columns, and the marks of their nulls.
fn read_columns<P: Store>(
    alloc: Global,
    file: &PlaneFile,
    store: &mut P,
) -> Result<(Vec<Vec<u64>>, Vec<Vec<bool>>), TableReadFault>
    requires holds { HoldsFile (P.state store.old) file.now.head }
    ensures read { IfOk result (λ read. ReadsColumns file.now.head (P.state store.old) (P.state store.new)
        (map vec_items read.0.items) (map vec_items read.1.items)) }
    ensures stopped { IfErr result (StopsInColumns file.now.head (P.state store.old) (P.state store.new)) }
    ensures same { HoldsSame (P.state store.old) (P.state store.new) }
{
    let head = file.head();
    let mut plane = Plane::blank(alloc, head.rows as usize)?;
    let mut numbers = Vec::new(alloc);
    let mut nulls = Vec::new(alloc);
    for column in 0..head.columns.as_slice().len() {
        let (cells, marks) = read_column(alloc, file, store, column, &mut plane)?;
        numbers.push(cells)?;
        nulls.push(marks)?;
    }
    Ok((numbers, nulls))
}

/// Reads the table whose file a store holds, or refuses the file for the first fault of its bytes: it is opened, and then its
/// planes are read in their order, each byte of the file once. A refused file is read no further. `Fault` comes only where the
/// store failed, `WentShort` only where it had no byte before its size.
pub fn read_table<P: Store>(alloc: Global, store: &mut P) -> Result<Table, TableReadFault>
    ensures read { IfOk result (ReadsTable (P.state store.old) (P.state store.new)) }
    ensures refused { IfErr result (RefusesTable (P.state store.old) (P.state store.new)) }
    ensures same { HoldsSame (P.state store.old) (P.state store.new) }
{
    let file = open(alloc, store)?;
    let (numbers, nulls) = read_columns(alloc, &file, store)?;
    Ok(Table::new(file.into_head(), numbers, nulls))
}
