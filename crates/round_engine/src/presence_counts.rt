//! Items of groups that are told by the counts of rows that say which keys there are.

ghost use Rattle.query_model.specs.Answers.{every_row, groups_of};
ghost use Rattle.row_groups.specs.Partition.{AreCells};
ghost use Rattle.round_engine.specs.CellAnswers.{HasRoom, HaveCells, StandForCells, StandForOthers, most_cells};
ghost use Rattle.round_engine.specs.Counts.{IsToldByCounts, range_of_unread};
ghost use Rattle.round_engine.specs.Engines.{stage_of};
ghost use Rattle.round_engine.specs.Stages.{IsOpenStage};

use crate::unread_values::{UnreadValues, tally_in_span, told_values};
use aggregates::Running;
use known_column::LentColumns;
use query_model::{Item, TypedQuery, pairs_are_few};
use row_groups::{Cells, cells_tell_keys};

// Makes the cells of an item stand for its values at the rows that are counted of each.
pub(crate) fn copy_counts(
    query: &TypedQuery,
    item: &Item,
    columns: &LentColumns<'_>,
    cells: &Cells,
    presence: &Running,
    values: UnreadValues,
    running: &mut Running,
)
    requires open_stage { IsOpenStage (stage_of query.now columns.now) }
    requires told { IsToldByCounts columns.now item.now (range_of_unread values) }
    requires cells { AreCells columns.now.frame columns.now.known (groups_of query.now.shape) cells.now }
    requires presence { StandForCells (stage_of query.now columns.now) every_row presence.now }
    requires room { HasRoom (stage_of query.now columns.now) item.now running.old }
    ensures stand { StandForCells (stage_of query.now columns.now) item.now running.new }
{
    cells_tell_keys();
    pairs_are_few();
    running.begin(cells.count() as usize);
    for cell in 0..cells.count() {
        let rows = presence.tally(cell);
        let count = values.of_rows(rows);
        running.set(cell, tally_in_span(item.kind, count, values.span));
    }
}

// The same for each item that counts of rows tell, and says which they do not: for these there is room.
pub(crate) fn copy_each(
    query: &TypedQuery,
    columns: &LentColumns<'_>,
    cells: &Cells,
    presence: &Running,
    runnings: &mut [Running],
) -> [bool; 16]
    requires open_stage { IsOpenStage (stage_of query.now columns.now) }
    requires cells { AreCells columns.now.frame columns.now.known (groups_of query.now.shape) cells.now }
    requires presence { StandForCells (stage_of query.now columns.now) every_row presence.now }
    requires room { HaveCells query.now.items (most_cells (stage_of query.now columns.now)) runnings.old }
    ensures others { StandForOthers (stage_of query.now columns.now) result runnings.new }
{
    let mut others = [true; 16];
    for i in 0..runnings.len() {
        let item = &query.items.as_slice()[i];
        if let Some(values) = told_values(item, columns) {
            copy_counts(
                query,
                item,
                columns,
                cells,
                presence,
                values,
                &mut runnings[i],
            );
            others[i] = false;
        }
    }
    others
}
