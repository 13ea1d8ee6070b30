//! Items of many cells behind a plane that the condition reads, told by the rows that it moved.

ghost use Rattle.std.specs.Prelude.{◌≡◌, ◌<◌, ◌+◌, ◌*◌, ◌≤◌, min, IsTrue, length};
ghost use Rattle.aggregates.specs.SumsOfCells.{FitsCell};
ghost use Rattle.kleene_filter.specs.Filters.{truths_under};
ghost use Rattle.query_model.specs.Validity.{declared_ranges};
ghost use Rattle.row_values.specs.ShortSpans.{FitsCells};
ghost use Rattle.round_engine.specs.CellAnswers.{HasRoom, IsParted, StandForCells};
ghost use Rattle.round_engine.specs.Cells.{cells_in};
ghost use Rattle.round_engine.specs.Engines.{stage_of};
ghost use Rattle.round_engine.specs.MovedCells.{AreMovedBelow, IsMovedFrom, IsRowMoved, WereMoved};
ghost use Rattle.round_engine.specs.OneCell.{HoldMasks};
ghost use Rattle.round_engine.specs.SeenRows.{WereRows};
ghost use Rattle.round_engine.specs.Stages.{IsOpenItem, IsOpenStage, Stage};

use crate::one_cell::CellMasks;
use crate::read_cells::{ReadRows, first_bits};
use crate::seen_rows::SeenRows;
use aggregates::{Running, has_bit};
use digit_sums::CellMoves;
use known_column::LentColumns;
use query_model::{Item, ItemKind, TypedQuery, pairs_are_few};
use row_groups::{FEW_CELLS, cells_tell_keys};
use row_values::{ShortValues, fits_cells};

// Counts a row in its cell, with the ends of its value: as one that now surely counts, as one that does not count now, or not at all.
fn add_row(moves: &mut CellMoves, cell: u32, came: bool, left: bool, low: i64, high: i64)
    requires cell { cell < length moves.old.cells }
    requires fits { FitsCell low high }
    ensures { IsRowMoved moves.old moves.new cell came left low high }
{
    if came {
        moves.come(cell, low, high);
    } else if left {
        moves.leave(cell, low, high);
    }
}

// Counts the rows of a block that moved, each in the cell that it is in.
fn sum_block(
    query: &TypedQuery,
    item: &Item,
    columns: &LentColumns<'_>,
    rows: ReadRows<'_>,
    seen: &SeenRows,
    number: usize,
    moves: &mut CellMoves,
)
    requires open_stage { IsOpenStage (stage_of query.now columns.now) }
    requires open_item { IsOpenItem columns.now.frame item.now }
    requires fits { FitsCells item.now.arg (declared_ranges columns.now.frame) }
    requires judged { rows.filter.now.truths ≡ truths_under query.now.pred columns.now }
    requires parted { IsParted (stage_of query.now columns.now) rows.cells.now rows.single.now }
    requires must { length seen.now.must ≡ columns.now.frame.rows }
    requires may { length seen.now.may ≡ columns.now.frame.rows }
    requires number { 64 * number < columns.now.frame.rows }
    requires cells { length moves.old.cells ≡ cells_in (stage_of query.now columns.now) }
    ensures room { moves.new.room ≡ moves.old.room }
    ensures cells { length moves.new.cells ≡ length moves.old.cells }
    ensures counted { (before : Stage) → IsMovedFrom (stage_of query.now columns.now) item.now before
        → WereRows before seen.now.must seen.now.may
        → AreMovedBelow before (stage_of query.now columns.now) item.now (64 * number) moves.old
        → AreMovedBelow before (stage_of query.now columns.now) item.now (min (64 * number + 64) columns.now.frame.rows) moves.new }
{
    cells_tell_keys();
    pairs_are_few();
    let may = rows.filter.may().word(number);
    let must = rows.filter.must().word(number);
    let came = must & !seen.must.word(number);
    let left = seen.may.word(number) & !may;
    let count = (columns.rows() - 64 * number).min(64);
    let moved = first_bits(came | left, count);
    if moved == 0 {
        return;
    }
    let values = ShortValues::read(&item.arg, columns, number);
    let mut rest = moved;
    while rest != 0 {
        let row = rest.trailing_zeros() as usize;
        let cell = rows.cells.cell_of(64 * number + row);
        let comes = has_bit(came & values.sure, row) & rows.single[cell as usize];
        let leaves = has_bit(left & values.possible, row);
        let span = values.spans[row];
        add_row(moves, cell, comes, leaves, span.lo, span.hi);
        rest &= rest - 1;
    }
}

// Counts all rows that moved, each in the cell that it is in.
fn sum_rows(
    query: &TypedQuery,
    item: &Item,
    columns: &LentColumns<'_>,
    rows: ReadRows<'_>,
    seen: &SeenRows,
    moves: &mut CellMoves,
)
    requires open_stage { IsOpenStage (stage_of query.now columns.now) }
    requires open_item { IsOpenItem columns.now.frame item.now }
    requires fits { FitsCells item.now.arg (declared_ranges columns.now.frame) }
    requires judged { rows.filter.now.truths ≡ truths_under query.now.pred columns.now }
    requires parted { IsParted (stage_of query.now columns.now) rows.cells.now rows.single.now }
    requires must { length seen.now.must ≡ columns.now.frame.rows }
    requires may { length seen.now.may ≡ columns.now.frame.rows }
    requires room { cells_in (stage_of query.now columns.now) ≤ moves.old.room }
    ensures room { moves.new.room ≡ moves.old.room }
    ensures cells { length moves.new.cells ≡ cells_in (stage_of query.now columns.now) }
    ensures counted { (before : Stage) → IsMovedFrom (stage_of query.now columns.now) item.now before
        → WereRows before seen.now.must seen.now.may
        → AreMovedBelow before (stage_of query.now columns.now) item.now columns.now.frame.rows moves.new }
{
    cells_tell_keys();
    moves.begin(rows.cells.count());
    for number in 0..columns.rows().div_ceil(64) {
        sum_block(query, item, columns, rows, seen, number, moves);
    }
}

// Makes each cell of an item stand for its rows behind the plane, if it stood for them before it. Where it is not told, the cells stand for
// nothing.
fn move_tallies(
    query: &TypedQuery,
    item: &Item,
    columns: &LentColumns<'_>,
    rows: ReadRows<'_>,
    moves: &CellMoves,
    running: &mut Running,
) -> bool
    requires open_stage { IsOpenStage (stage_of query.now columns.now) }
    requires parted { IsParted (stage_of query.now columns.now) rows.cells.now rows.single.now }
    requires cells { length moves.now.cells ≡ cells_in (stage_of query.now columns.now) }
    requires room { HasRoom (stage_of query.now columns.now) item.now running.old }
    requires count { length running.old.cells ≡ cells_in (stage_of query.now columns.now) }
    ensures room { HasRoom (stage_of query.now columns.now) item.now running.new }
    ensures stand { IsTrue result → (before : Stage) → before.frame.rows ≡ columns.now.frame.rows
        → StandForCells before item.now running.old
        → AreMovedBelow before (stage_of query.now columns.now) item.now columns.now.frame.rows moves.now
        → StandForCells (stage_of query.now columns.now) item.now running.new }
{
    cells_tell_keys();
    for cell in 0..rows.cells.count() {
        let Some(tally) = moves.tally(cell, item.kind, &running.tally(cell)) else {
            return false;
        };
        running.set(cell, tally);
    }
    true
}

// Whether a row of each cell surely counts that has any. It affects speed alone, here and below.
pub(crate) fn has_sure_rows(cells: u32, running: &Running) -> bool
    requires { cells ≤ length running.now.cells }
{
    for cell in 0..cells {
        let tally = running.tally(cell);
        if tally.certain == 0 && tally.all > 0 {
            return false;
        }
    }
    true
}

// Whether rows that move may tell an item of this kind: a count, or a sum or an average of whose cells each has a sure row.
fn may_be_told(kind: ItemKind, cells: u32, running: &Running) -> bool
    requires { cells ≤ length running.now.cells }
{
    match kind {
        ItemKind::Count => true,
        ItemKind::Sum | ItemKind::Avg => has_sure_rows(cells, running),
        ItemKind::Min | ItemKind::Max => false,
    }
}

impl CellMasks {
    // Makes the cells of a count, a sum or an average stand for their rows behind a plane that the condition reads, if they are many and
    // short numbers tell each value. Else they stand for nothing.
    pub(crate) fn move_item(
        &mut self,
        query: &TypedQuery,
        item: &Item,
        columns: &LentColumns<'_>,
        rows: ReadRows<'_>,
        seen: &SeenRows,
        running: &mut Running,
    ) -> bool
        requires open_stage { IsOpenStage (stage_of query.now columns.now) }
        requires open_item { IsOpenItem columns.now.frame item.now }
        requires judged { rows.filter.now.truths ≡ truths_under query.now.pred columns.now }
        requires parted { IsParted (stage_of query.now columns.now) rows.cells.now rows.single.now }
        requires must { length seen.now.must ≡ columns.now.frame.rows }
        requires may { length seen.now.may ≡ columns.now.frame.rows }
        requires masks { HoldMasks columns.now.frame.rows self.old }
        requires room { HasRoom (stage_of query.now columns.now) item.now running.old }
        requires count { length running.old.cells ≡ cells_in (stage_of query.now columns.now) }
        requires before { WereMoved (stage_of query.now columns.now) item.now seen.now.must seen.now.may running.old }
        ensures masks { HoldMasks columns.now.frame.rows self.new }
        ensures room { HasRoom (stage_of query.now columns.now) item.now running.new }
        ensures stand { IsTrue result → StandForCells (stage_of query.now columns.now) item.now running.new }
    {
        let cells = rows.cells.count();
        if cells <= FEW_CELLS || !fits_cells(&item.arg, columns) {
            return false;
        }
        cells_tell_keys();
        if self.moves.room() < cells as usize || !may_be_told(item.kind, cells, running) {
            return false;
        }
        sum_rows(query, item, columns, rows, seen, &mut self.moves);
        move_tallies(query, item, columns, rows, &self.moves, running)
    }
}
