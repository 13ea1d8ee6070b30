//! From a store to the cells of a column, through its planes.

ghost use Rattle.std.specs.Prelude.{◌≡◌, ◌<◌, length, IfErr, IfOk, OnOk};
ghost use Rattle.daq_table.specs.Tables.{ends_at, frame_of, planes};
ghost use Rattle.outer_world.specs.Whole.{HoldsSame};
ghost use Rattle.plane_file.specs.ColumnReading.{HoldsFile, IsReadInto, ReadsCells, ReadsPlanes, StopsAtNext, StopsInColumn, TakesPlane};

use crate::column_cells::{marks_of, numbers_of};
use crate::plane_file::PlaneFile;
use crate::table_fault::TableReadFault;
use daq_table::planes;
use known_column::{Known, OverTop};
use outer_world::Store;
use plane_kernels::Plane;
use std::alloc::Global;

// Reads the next plane of a column, by a plane that is lent.
fn read_next<P: Store>(
    file: &PlaneFile,
    store: &mut P,
    column: usize,
    number: u8,
    plane: &mut Plane,
    known: &mut Known,
) -> Result<(), TableReadFault>
    requires column { column < length file.now.head.columns }
    requires number { number < planes (ends_at (frame_of file.now.head) column) }
    requires rows { length plane.old ≡ file.now.head.rows }
    requires known { IsReadInto file.now.head column number known.old }
    requires holds { HoldsFile (P.state store.old) file.now.head }
    ensures rows { length plane.new ≡ length plane.old }
    ensures read { OnOk result (TakesPlane file.now.head column number (P.state store.old) (P.state store.new) known.old known.new) }
    ensures stopped { IfErr result (StopsAtNext file.now.head column number (P.state store.old) (P.state store.new) known.old) }
    ensures same { HoldsSame (P.state store.old) (P.state store.new) }
{
    file.read_plane(store, column, number, plane)?;
    match known.take(plane) {
        Ok(()) => Ok(()),
        Err(OverTop { row }) => Err(TableReadFault::OverTop {
            column,
            plane: number,
            row,
        }),
    }
}

// Reads all planes of a column, by a plane that is lent.
fn read_known<P: Store>(
    alloc: Global,
    file: &PlaneFile,
    store: &mut P,
    column: usize,
    plane: &mut Plane,
) -> Result<Known, TableReadFault>
    requires column { column < length file.now.head.columns }
    requires rows { length plane.old ≡ file.now.head.rows }
    requires holds { HoldsFile (P.state store.old) file.now.head }
    ensures rows { length plane.new ≡ length plane.old }
    ensures read { IfOk result
        (ReadsPlanes file.now.head column (planes (ends_at (frame_of file.now.head) column)) (P.state store.old) (P.state store.new)) }
    ensures stopped { IfErr result (StopsInColumn file.now.head column (P.state store.old) (P.state store.new)) }
    ensures same { HoldsSame (P.state store.old) (P.state store.new) }
{
    let head = &file.head().columns.as_slice()[column];
    let mut known = Known::open(alloc, head, plane.rows())?;
    for number in 0..planes(head) {
        read_next(file, store, column, number, plane, &mut known)?;
    }
    Ok(known)
}

/// The numbers of a column, 0 for null, and where it is nullable which of its cells are null. A plane is lent.
pub(crate) fn read_column<P: Store>(
    alloc: Global,
    file: &PlaneFile,
    store: &mut P,
    column: usize,
    plane: &mut Plane,
) -> Result<(Vec<u64>, Vec<bool>), TableReadFault>
    requires column { column < length file.now.head.columns }
    requires rows { length plane.old ≡ file.now.head.rows }
    requires holds { HoldsFile (P.state store.old) file.now.head }
    ensures rows { length plane.new ≡ length plane.old }
    ensures read { IfOk result (λ read. ReadsCells file.now.head column (P.state store.old) (P.state store.new) read.0.items read.1.items) }
    ensures stopped { IfErr result (StopsInColumn file.now.head column (P.state store.old) (P.state store.new)) }
    ensures same { HoldsSame (P.state store.old) (P.state store.new) }
{
    let known = read_known(alloc, file, store, column, plane)?;
    Ok((numbers_of(alloc, &known)?, marks_of(alloc, &known)?))
}
