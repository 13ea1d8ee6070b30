//! Sums of many cells over a bare column, to which rows are added by the digits of their numbers.

ghost use Rattle.std.specs.Prelude.{◌≡◌, ◌<◌, ◌+◌, ◌*◌, length, min, IfSome, IsTrue};
ghost use Rattle.kleene_filter.specs.Filters.{truths_under};
ghost use Rattle.query_model.specs.Answers.{every_row, groups_of};
ghost use Rattle.query_model.specs.Validity.{IsSumKind};
ghost use Rattle.digit_sums.specs.Digits.{AreEndsOf};
ghost use Rattle.row_groups.specs.Partition.{AreCells};
ghost use Rattle.round_engine.specs.CellAnswers.{HasRoom, IsParted, StandForCells};
ghost use Rattle.round_engine.specs.DigitCells.{AreDigitSums, AreSomeTold, AreToldByDigits, IsOverColumn, IsTold};
ghost use Rattle.round_engine.specs.Engines.{stage_of};
ghost use Rattle.round_engine.specs.OneCell.{HoldMasks};
ghost use Rattle.round_engine.specs.Stages.{IsOpenItem, IsOpenStage};

use crate::compact_cells::is_summed;
use crate::one_cell::CellMasks;
use crate::totals::is_column;
use crate::unread_values::told_values;
use aggregates::{Running, has_bit};
use digit_sums::{DigitEnds, DigitSums, digit_ends};
use kleene_filter::Filter;
use known_column::{Known, LentColumns};
use query_model::{Expr, Item, TypedQuery, pairs_are_few};
use row_groups::{Cells, FEW_CELLS, cells_tell_keys};

// What is known of a column, its ends, what is known of a condition, the cells that the rows are in, and of each cell whether it holds one
// key.
#[derive(Clone, Copy)]
pub(crate) struct ColumnRows<'a> {
    pub(crate) known: &'a Known,
    pub(crate) ends: DigitEnds,
    pub(crate) filter: &'a Filter,
    pub(crate) cells: &'a Cells,
    pub(crate) single: &'a [bool],
}

// Adds the rows of a block at which the condition holds to a sum over the column, each to the cell that it is in, if it is decided at each
// of them.
fn sum_block(
    query: &TypedQuery,
    item: &Item,
    columns: &LentColumns<'_>,
    rows: ColumnRows<'_>,
    number: usize,
    sums: &mut DigitSums,
) -> bool
    requires open_stage { IsOpenStage (stage_of query.now columns.now) }
    requires over { IsOverColumn item.now columns.now rows.known.now }
    requires judged { rows.filter.now.truths ≡ truths_under query.now.pred columns.now }
    requires parted { IsParted (stage_of query.now columns.now) rows.cells.now rows.single.now }
    requires number { 64 * number < columns.now.frame.rows }
    requires before { AreDigitSums (stage_of query.now columns.now) item.now rows.known.now rows.single.now (64 * number) sums.old }
    ensures added { IsTrue result → AreDigitSums (stage_of query.now columns.now) item.now rows.entry.known.now rows.entry.single.now
        (min (64 * number + 64) columns.now.frame.rows) sums.new }
{
    cells_tell_keys();
    pairs_are_few();
    let may = rows.filter.may().word(number);
    let must = rows.filter.must().word(number);
    if may != must {
        return false;
    }
    let mut digits = [0; 64];
    rows.known.numbers(number, &mut digits);
    let mut cells = [0; 64];
    rows.cells.read_block(number, &mut cells);
    for row in 64 * number..(64 * number + 64).min(rows.known.rows()) {
        if has_bit(may, row % 64) {
            let cell = u32::from(cells[row % 64]);
            sums.add(cell, digits[row % 64] as u32);
        }
    }
    true
}

// Adds all rows so, if the condition is decided at each. A block of whose rows none may pass is not read.
fn sum_rows(
    query: &TypedQuery,
    item: &Item,
    columns: &LentColumns<'_>,
    rows: ColumnRows<'_>,
    sums: &mut DigitSums,
) -> bool
    requires open_stage { IsOpenStage (stage_of query.now columns.now) }
    requires over { IsOverColumn item.now columns.now rows.known.now }
    requires judged { rows.filter.now.truths ≡ truths_under query.now.pred columns.now }
    requires parted { IsParted (stage_of query.now columns.now) rows.cells.now rows.single.now }
    requires before { AreDigitSums (stage_of query.now columns.now) item.now rows.known.now rows.single.now 0 sums.old }
    ensures added { IsTrue result → AreDigitSums (stage_of query.now columns.now) item.now rows.entry.known.now rows.entry.single.now
        columns.now.frame.rows sums.new }
{
    for number in 0..columns.rows().div_ceil(64) {
        if rows.filter.may().word(number) != 0 {
            if !sum_block(query, item, columns, rows, number, sums) {
                return false;
            }
        }
    }
    true
}

// Adds all rows anew, and says whether that tells each cell. Where it does not, the next time it does.
fn tell_once(
    query: &TypedQuery,
    item: &Item,
    columns: &LentColumns<'_>,
    rows: ColumnRows<'_>,
    sums: &mut DigitSums,
) -> bool
    requires open_stage { IsOpenStage (stage_of query.now columns.now) }
    requires kind { IsSumKind item.now.kind }
    requires over { IsOverColumn item.now columns.now rows.known.now }
    requires ends { AreEndsOf rows.known.now rows.ends }
    requires judged { rows.filter.now.truths ≡ truths_under query.now.pred columns.now }
    requires parted { IsParted (stage_of query.now columns.now) rows.cells.now rows.single.now }
    ensures told { IsTrue result → AreToldByDigits (stage_of query.now columns.now) item.now sums.new }
{
    if sums.room() != rows.single.len() {
        return false;
    }
    cells_tell_keys();
    let cells = rows.cells.count();
    sums.begin(item.kind, rows.ends, cells, rows.single, columns.rows());
    sum_rows(query, item, columns, rows, sums) && sums.settle()
}

// The first item that is a sum or an average over a bare column, but for those that counts of rows tell. It affects speed alone which is
// taken.
fn first_sum(query: &TypedQuery, columns: &LentColumns<'_>) -> Option<usize>
    requires { IsOpenStage (stage_of query.now columns.now) }
    ensures { IfSome result (λ item. item < length query.now.items) }
{
    for (i, item) in query.items.as_slice().iter().enumerate() {
        if is_summed(item.kind) && is_column(&item.arg) && told_values(item, columns).is_none() {
            return Some(i);
        }
    }
    None
}

impl CellMasks {
    // Adds each row to its cell by the digits of a column's numbers, where these tell what the item keeps of it, the condition is decided
    // at each row, and there is room for all cells.
    fn tell_digits(
        &mut self,
        query: &TypedQuery,
        item: &Item,
        columns: &LentColumns<'_>,
        filter: &Filter,
        cells: &Cells,
        single: &[bool],
    ) -> bool
        requires open_stage { IsOpenStage (stage_of query.now columns.now) }
        requires open_item { IsOpenItem columns.now.frame item.now }
        requires judged { filter.now.truths ≡ truths_under query.now.pred columns.now }
        requires parted { IsParted (stage_of query.now columns.now) cells.now single.now }
        requires masks { HoldMasks columns.now.frame.rows self.old }
        ensures masks { HoldMasks columns.now.frame.rows self.new }
        ensures told { IsTrue result → AreToldByDigits (stage_of query.now columns.now) item.now self.new.digits }
    {
        let Expr::Column(column) = &item.arg else {
            return false;
        };
        if !is_summed(item.kind) || filter.unknown() > 0 {
            return false;
        }
        let known = columns.column(*column as usize);
        let Some(ends) = digit_ends(known) else {
            return false;
        };
        let rows = ColumnRows {
            known,
            ends,
            filter,
            cells,
            single,
        };
        tell_once(query, item, columns, rows, &mut self.digits)
            || tell_once(query, item, columns, rows, &mut self.digits)
    }

    // Makes each cell stand for its rows, where digits tell what the item keeps of them.
    pub(crate) fn fill_digits(
        &mut self,
        query: &TypedQuery,
        item: &Item,
        columns: &LentColumns<'_>,
        filter: &Filter,
        cells: &Cells,
        single: &[bool],
        running: &mut Running,
    ) -> bool
        requires open_stage { IsOpenStage (stage_of query.now columns.now) }
        requires open_item { IsOpenItem columns.now.frame item.now }
        requires judged { filter.now.truths ≡ truths_under query.now.pred columns.now }
        requires parted { IsParted (stage_of query.now columns.now) cells.now single.now }
        requires masks { HoldMasks columns.now.frame.rows self.old }
        requires room { HasRoom (stage_of query.now columns.now) item.now running.old }
        ensures masks { HoldMasks columns.now.frame.rows self.new }
        ensures room { HasRoom (stage_of query.now columns.now) item.now running.new }
        ensures stand { IsTrue result → StandForCells (stage_of query.now columns.now) item.now running.new }
    {
        let told = self.tell_digits(query, item, columns, filter, cells, single);
        if told {
            self.digits.copy_to(running);
        }
        told
    }

    // Makes the cells of a count stand for the rows that were added by digits.
    fn count_digits(
        &self,
        query: &TypedQuery,
        columns: &LentColumns<'_>,
        cells: &Cells,
        presence: &mut Running,
    )
        requires open_stage { IsOpenStage (stage_of query.now columns.now) }
        requires cells { AreCells columns.now.frame columns.now.known (groups_of query.now.shape) cells.now }
        requires told { AreSomeTold (stage_of query.now columns.now) self.now.digits }
        requires room { HasRoom (stage_of query.now columns.now) every_row presence.old }
        ensures stand { StandForCells (stage_of query.now columns.now) every_row presence.new }
    {
        cells_tell_keys();
        presence.begin(cells.count() as usize);
        for cell in 0..cells.count() {
            presence.set(cell, self.digits.count(cell));
        }
    }

    // Adds all rows to a sum over a bare column by digits, where these tell it and there are more cells than masks tell, and makes the
    // cells of a count stand for these rows. Says which item that is.
    pub(crate) fn tell_presence(
        &mut self,
        query: &TypedQuery,
        columns: &LentColumns<'_>,
        filter: &Filter,
        cells: &Cells,
        single: &[bool],
        presence: &mut Running,
    ) -> Option<usize>
        requires open_stage { IsOpenStage (stage_of query.now columns.now) }
        requires judged { filter.now.truths ≡ truths_under query.now.pred columns.now }
        requires parted { IsParted (stage_of query.now columns.now) cells.now single.now }
        requires masks { HoldMasks columns.now.frame.rows self.old }
        requires room { HasRoom (stage_of query.now columns.now) every_row presence.old }
        ensures masks { HoldMasks columns.now.frame.rows self.new }
        ensures room { HasRoom (stage_of query.now columns.now) every_row presence.new }
        ensures told { IfSome result (λ item. IsTold (stage_of query.now columns.now) item self.new.digits) }
        ensures presence { IfSome result (λ item. StandForCells (stage_of query.now columns.now) every_row presence.new) }
    {
        if cells.count() <= FEW_CELLS {
            return None;
        }
        let told = first_sum(query, columns)?;
        let item = &query.items.as_slice()[told];
        if !self.tell_digits(query, item, columns, filter, cells, single) {
            return None;
        }
        self.count_digits(query, columns, cells, presence);
        Some(told)
    }
}
