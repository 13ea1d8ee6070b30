//! What each cell of many keeps behind a plane that the condition reads and by which no rows are grouped.

ghost use Rattle.std.specs.Prelude.{◌≡◌};
ghost use Rattle.kleene_filter.specs.Filters.{truths_under};
ghost use Rattle.query_model.specs.Answers.{every_row};
ghost use Rattle.round_engine.specs.CellAnswers.{IsParted, StandForCells, StandForEach};
ghost use Rattle.round_engine.specs.Engines.{stage_of};
ghost use Rattle.round_engine.specs.KeptCells.{AreKeptParts, HaveKeptParts};
ghost use Rattle.round_engine.specs.MovedCells.{WereBefore, WereEachBefore};
ghost use Rattle.round_engine.specs.OneCell.{HoldMasks};
ghost use Rattle.round_engine.specs.SeenRows.{HoldSeen};
ghost use Rattle.round_engine.specs.Stages.{IsOpenItem, IsOpenStage};

use crate::cell_room::every_row;
use crate::groups::fill_item;
use crate::kept_cells::KeptParts;
use crate::moved::expr_reads;
use crate::one_cell::CellMasks;
use crate::presence_counts::copy_counts;
use crate::read_cells::ReadRows;
use crate::seen_rows::SeenRows;
use crate::unread_values::told_values;
use aggregates::Running;
use known_column::{LentColumns, RowBlock};
use query_model::{Item, TypedQuery};

// Follows the plane with the count of each cell's rows: by the rows that moved, else by adding all rows anew.
pub(crate) fn follow_presence(
    query: &TypedQuery,
    columns: &LentColumns<'_>,
    rows: ReadRows<'_>,
    seen: &SeenRows,
    block: &mut RowBlock,
    masks: &mut CellMasks,
    presence: &mut Running,
)
    requires open_stage { IsOpenStage (stage_of query.now columns.now) }
    requires judged { rows.filter.now.truths ≡ truths_under query.now.pred columns.now }
    requires same { block.old.frame.columns ≡ columns.now.frame.columns }
    requires parted { IsParted (stage_of query.now columns.now) rows.cells.now rows.single.now }
    requires masks { HoldMasks columns.now.frame.rows masks.old }
    requires seen { HoldSeen columns.now.frame.rows seen.now }
    requires before { WereBefore (stage_of query.now columns.now) every_row rows.column seen.now.must seen.now.may presence.old }
    ensures same { block.new.frame.columns ≡ columns.now.frame.columns }
    ensures masks { HoldMasks columns.now.frame.rows masks.new }
    ensures stand { StandForCells (stage_of query.now columns.now) every_row presence.new }
{
    let item = every_row();
    if !masks.move_item(query, &item, columns, rows, seen, presence) {
        let mut kept = KeptParts::none();
        fill_item(
            query,
            &item,
            columns,
            rows.filter,
            block,
            rows.cells,
            rows.single,
            masks,
            presence,
            &mut kept,
        );
    }
}

// Follows it with an item: by the rows that moved where these tell it, else by adding all rows anew.
fn move_or_fill(
    query: &TypedQuery,
    item: &Item,
    columns: &LentColumns<'_>,
    rows: ReadRows<'_>,
    seen: &SeenRows,
    block: &mut RowBlock,
    masks: &mut CellMasks,
    running: &mut Running,
    kept: &mut KeptParts,
)
    requires open_stage { IsOpenStage (stage_of query.now columns.now) }
    requires open_item { IsOpenItem columns.now.frame item.now }
    requires judged { rows.filter.now.truths ≡ truths_under query.now.pred columns.now }
    requires same { block.old.frame.columns ≡ columns.now.frame.columns }
    requires parted { IsParted (stage_of query.now columns.now) rows.cells.now rows.single.now }
    requires masks { HoldMasks columns.now.frame.rows masks.old }
    requires seen { HoldSeen columns.now.frame.rows seen.now }
    requires before { WereBefore (stage_of query.now columns.now) item.now rows.column seen.now.must seen.now.may running.old }
    requires kept { AreKeptParts columns.now item.now kept.old }
    ensures kept { AreKeptParts columns.now item.now kept.new }
    ensures same { block.new.frame.columns ≡ columns.now.frame.columns }
    ensures masks { HoldMasks columns.now.frame.rows masks.new }
    ensures stand { StandForCells (stage_of query.now columns.now) item.now running.new }
{
    if expr_reads(&item.arg, rows.column)
        || !masks.move_item(query, item, columns, rows, seen, running)
    {
        fill_item(
            query,
            item,
            columns,
            rows.filter,
            block,
            rows.cells,
            rows.single,
            masks,
            running,
            kept,
        );
    }
}

// The same; a count of what is never null, or an item over unread columns, is told by the rows that were counted of each cell.
fn follow_item(
    query: &TypedQuery,
    item: &Item,
    columns: &LentColumns<'_>,
    rows: ReadRows<'_>,
    seen: &SeenRows,
    presence: &Running,
    block: &mut RowBlock,
    masks: &mut CellMasks,
    running: &mut Running,
    kept: &mut KeptParts,
)
    requires open_stage { IsOpenStage (stage_of query.now columns.now) }
    requires open_item { IsOpenItem columns.now.frame item.now }
    requires judged { rows.filter.now.truths ≡ truths_under query.now.pred columns.now }
    requires same { block.old.frame.columns ≡ columns.now.frame.columns }
    requires parted { IsParted (stage_of query.now columns.now) rows.cells.now rows.single.now }
    requires masks { HoldMasks columns.now.frame.rows masks.old }
    requires seen { HoldSeen columns.now.frame.rows seen.now }
    requires presence { StandForCells (stage_of query.now columns.now) every_row presence.now }
    requires before { WereBefore (stage_of query.now columns.now) item.now rows.column seen.now.must seen.now.may running.old }
    requires kept { AreKeptParts columns.now item.now kept.old }
    ensures kept { AreKeptParts columns.now item.now kept.new }
    ensures same { block.new.frame.columns ≡ columns.now.frame.columns }
    ensures masks { HoldMasks columns.now.frame.rows masks.new }
    ensures stand { StandForCells (stage_of query.now columns.now) item.now running.new }
{
    if let Some(values) = told_values(item, columns) {
        copy_counts(query, item, columns, rows.cells, presence, values, running);
    } else {
        move_or_fill(
            query, item, columns, rows, seen, block, masks, running, kept,
        );
    }
}

// The same with each item.
pub(crate) fn follow_each(
    query: &TypedQuery,
    columns: &LentColumns<'_>,
    rows: ReadRows<'_>,
    seen: &SeenRows,
    presence: &Running,
    block: &mut RowBlock,
    masks: &mut CellMasks,
    runnings: &mut [Running],
    kept: &mut [KeptParts],
)
    requires open_stage { IsOpenStage (stage_of query.now columns.now) }
    requires judged { rows.filter.now.truths ≡ truths_under query.now.pred columns.now }
    requires same { block.old.frame.columns ≡ columns.now.frame.columns }
    requires parted { IsParted (stage_of query.now columns.now) rows.cells.now rows.single.now }
    requires masks { HoldMasks columns.now.frame.rows masks.old }
    requires seen { HoldSeen columns.now.frame.rows seen.now }
    requires presence { StandForCells (stage_of query.now columns.now) every_row presence.now }
    requires before { WereEachBefore (stage_of query.now columns.now) rows.column seen.now.must seen.now.may runnings.old }
    requires kept { HaveKeptParts columns.now query.now.items kept.old }
    ensures kept { HaveKeptParts columns.now query.now.items kept.new }
    ensures same { block.new.frame.columns ≡ columns.now.frame.columns }
    ensures masks { HoldMasks columns.now.frame.rows masks.new }
    ensures stand { StandForEach (stage_of query.now columns.now) runnings.new }
{
    for i in 0..runnings.len() {
        let item = &query.items.as_slice()[i];
        follow_item(
            query,
            item,
            columns,
            rows,
            seen,
            presence,
            block,
            masks,
            &mut runnings[i],
            &mut kept[i],
        );
    }
}
