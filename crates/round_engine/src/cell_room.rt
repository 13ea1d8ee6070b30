//! Room for the cells of a query, of whose columns nothing is read.

ghost use Rattle.std.specs.Prelude.{◌≡◌, IfOk};
ghost use Rattle.daq_table.specs.Tables.{planes};
ghost use Rattle.query_model.specs.Answers.{every_row, groups_of};
ghost use Rattle.row_groups.specs.Partition.{unread_cells};
ghost use Rattle.round_engine.specs.CellAnswers.{HaveCells, most_cells};
ghost use Rattle.round_engine.specs.Engines.{stage_of};
ghost use Rattle.round_engine.specs.Stages.{IsOpenStage};

use crate::group_columns::group_columns;
use crate::progress::plane_count;
use aggregates::Running;
use daq_table::Ends;
use known_column::LentColumns;
use query_model::{Expr, Face, Item, ItemKind, TypedQuery};
use row_groups::Cells;
use std::alloc::{AllocError, Global};

// The item COUNT(*).
pub(crate) fn every_row() -> Item
    ensures { result ≡ every_row }
{
    Item {
        kind: ItemKind::Count,
        arg: Expr::Literal(0),
        face: Face::Number(0),
    }
}

// How many cells there are where all planes of the group columns are read.
pub(crate) fn most_cells(query: &TypedQuery, columns: &LentColumns<'_>) -> usize
    requires { IsOpenStage (stage_of query.now columns.now) }
    ensures { result ≡ most_cells (stage_of query.now columns.now) }
{
    let mut digits = 0u8;
    for column in group_columns(query) {
        digits += plane_count(columns.column(usize::from(*column)));
    }
    1 << digits
}

// What is declared of each column.
fn declared_ends(alloc: Global, columns: &LentColumns<'_>) -> Result<Vec<Ends>, AllocError>
    ensures { IfOk result (λ ends. ends.items ≡ columns.now.frame.columns) }
{
    let mut ends = Vec::with_capacity(alloc, columns.len())?;
    for column in 0..columns.len() {
        ends.push(columns.column(column).declared())?;
    }
    Ok(ends)
}

// The rows, all in one cell.
pub(crate) fn open_cells(
    alloc: Global,
    query: &TypedQuery,
    columns: &LentColumns<'_>,
) -> Result<Cells, AllocError>
    requires { IsOpenStage (stage_of query.now columns.now) }
    ensures { IfOk result (λ cells. cells ≡ unread_cells (groups_of query.now.shape) columns.now.frame.columns columns.now.frame.rows) }
{
    let ends = declared_ends(alloc, columns)?;
    Cells::open(alloc, group_columns(query), &ends, columns.rows())
}

// Room for so many cells of each item.
pub(crate) fn open_each(
    alloc: Global,
    query: &TypedQuery,
    most: usize,
) -> Result<Vec<Running>, AllocError>
    ensures { IfOk result (λ runnings. HaveCells query.now.items most runnings.items) }
{
    let items = query.items.as_slice();
    let mut runnings = Vec::with_capacity(alloc, items.len())?;
    for item in items {
        runnings.push(Running::open(alloc, item.kind, most)?)?;
    }
    Ok(runnings)
}
