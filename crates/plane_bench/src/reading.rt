//! Planes of a column, read one after the other, with or without a filter that follows.

ghost use Rattle.std.specs.Prelude.{◌≡◌, ◌≤◌, ◌<◌, ◌+◌, length, IfOk, IsFalse};
ghost use Rattle.std.specs.List.{All};
ghost use Rattle.daq_table.specs.Tables.{ends_at, planes, spread};
ghost use Rattle.query_model.specs.Knowledge.{known_at, CanTake};
ghost use Rattle.query_model.specs.Meaning.{PredReadsBelow};
ghost use Rattle.query_model.specs.Queries.{condition_of};
ghost use Rattle.known_column.specs.KnownTables.{read_column, unread_table};
ghost use Rattle.plane_bench.specs.Planes.{alone, table_after, truths_after};

use kleene_filter::Filter;
use known_column::{KnownColumns, RowBlock};
use plane_kernels::{Plane, transpose};
use query_model::{Pred, planes_are_taken, start_is_known};
use std::alloc::{AllocError, Global};

// Cuts the next plane of the one column from its cells, and takes it.
fn read_next(columns: &mut KnownColumns, cells: &[u64], plane: &mut Plane)
    requires plain { IsFalse (ends_at columns.old.frame 0).nullable }
    requires unread { (known_at columns.old.known 0).read < planes (ends_at columns.old.frame 0) }
    requires cells { All (λ cell. cell ≤ spread (ends_at columns.old.frame 0)) cells.now }
    requires stands { columns.old ≡ table_after (ends_at columns.old.frame 0) cells.now (known_at columns.old.known 0).read }
    requires rows { length plane.old ≡ length cells.now }
    ensures further { columns.new ≡ table_after (ends_at columns.old.frame 0) cells.now ((known_at columns.old.known 0).read + 1) }
    ensures taken { columns.new ≡ read_column columns.old 0 plane.new }
    ensures legal { CanTake columns.old.frame columns.old.known 0 plane.new }
    ensures rows { length plane.new ≡ length cells.now }
{
    planes_are_taken();
    let width = columns.column(0).width();
    transpose(cells, width, width - columns.unread(0), plane);
    columns.take(0, plane).unwrap();
}

// Reads so many planes of a column of which nothing is read.
pub(crate) fn read_planes(
    alloc: Global,
    mut columns: KnownColumns,
    cells: &[u64],
    rounds: u8,
) -> Result<KnownColumns, AllocError>
    requires plain { IsFalse (ends_at columns.frame 0).nullable }
    requires few { rounds ≤ planes (ends_at columns.frame 0) }
    requires cells { All (λ cell. cell ≤ spread (ends_at columns.frame 0)) cells.now }
    requires start { columns ≡ unread_table (alone (ends_at columns.frame 0) cells.now) }
    ensures { IfOk result (λ read. read ≡ table_after (ends_at columns.frame 0) cells.now rounds) }
{
    start_is_known();
    let mut plane = Plane::blank(alloc, cells.len())?;
    for _ in 0..rounds {
        read_next(&mut columns, cells, &mut plane);
    }
    Ok(columns)
}

// The same with a filter that follows each plane.
pub(crate) fn follow_planes(
    alloc: Global,
    pred: &Pred,
    mut columns: KnownColumns,
    cells: &[u64],
    rounds: u8,
) -> Result<Filter, AllocError>
    requires condition { PredReadsBelow 1 (condition_of pred.now) }
    requires plain { IsFalse (ends_at columns.frame 0).nullable }
    requires few { rounds ≤ planes (ends_at columns.frame 0) }
    requires cells { All (λ cell. cell ≤ spread (ends_at columns.frame 0)) cells.now }
    requires start { columns ≡ unread_table (alone (ends_at columns.frame 0) cells.now) }
    ensures { IfOk result (λ filter. filter.truths ≡ truths_after (condition_of pred.now) (ends_at columns.frame 0) cells.now rounds) }
{
    start_is_known();
    let mut plane = Plane::blank(alloc, cells.len())?;
    let lent = columns.lend();
    let mut block = RowBlock::open(alloc, &lent)?;
    let mut filter = Filter::open(alloc, pred, &lent, &mut block, 64)?;
    for _ in 0..rounds {
        read_next(&mut columns, cells, &mut plane);
        filter.refresh(pred, &columns.lend(), 0, &plane, &mut block);
    }
    Ok(filter)
}
