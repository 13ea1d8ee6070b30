//! Sums of many cells behind the next plane of their column, told by its bits of 1 at rows that surely count and by the ends of the others.

ghost use Rattle.std.specs.Prelude.{◌≡◌, ◌≤◌, ◌<◌, ◌+◌, ◌*◌, ◌%◌, ◌^◌, length, min, IsTrue};
ghost use Rattle.std.specs.Int.{bit_not, w64};
ghost use Rattle.std.specs.Int.Bits.{bit_and, bit_or};
ghost use Rattle.kleene_filter.specs.Filters.{truths_under};
ghost use Rattle.known_column.specs.Columns.{rows_of_column};
ghost use Rattle.query_model.specs.Validity.{IsSumKind, declared_ranges};
ghost use Rattle.row_values.specs.ShortSpans.{FitsCells};
ghost use Rattle.digit_sums.specs.Digits.{AreEndsOf};
ghost use Rattle.round_engine.specs.CellAnswers.{HasRoom, IsParted, StandForCells};
ghost use Rattle.round_engine.specs.Cells.{cells_in};
ghost use Rattle.round_engine.specs.DigitCells.{IsOverColumn};
ghost use Rattle.round_engine.specs.Engines.{stage_of};
ghost use Rattle.round_engine.specs.OneCell.{HoldMasks};
ghost use Rattle.round_engine.specs.ReadCells.{AreBlockCells, AreBlockWords, AreReadBelow, IsBefore, IsRowAdded, WereCells};
ghost use Rattle.round_engine.specs.Stages.{IsOpenItem, IsOpenStage, Stage};

use crate::compact_cells::is_summed;
use crate::digit_cells::ColumnRows;
use crate::moved_cells::has_sure_rows;
use crate::one_cell::CellMasks;
use aggregates::{Running, has_bit};
use digit_sums::{CellOnes, digit_ends};
use kleene_filter::Filter;
use known_column::LentColumns;
use plane_kernels::Plane;
use query_model::{Expr, Item, TypedQuery, pairs_are_few};
use row_groups::{Cells, FEW_CELLS, cells_tell_keys};
use row_values::{ShortValues, fits_cells};

// The last plane that was read and the number of its column, what is known of a condition, the cells that the rows are in, and of each cell
// whether it holds one key.
#[derive(Clone, Copy)]
pub(crate) struct ReadRows<'a> {
    pub(crate) column: usize,
    pub(crate) plane: &'a Plane,
    pub(crate) filter: &'a Filter,
    pub(crate) cells: &'a Cells,
    pub(crate) single: &'a [bool],
}

// The first so many bits of a word.
pub(crate) fn first_bits(word: u64, count: usize) -> u64
    requires some { 0 < count }
    requires fits { count ≤ 64 }
    ensures { result ≡ word % 2 ^ count }
{
    word & (u64::MAX >> (64 - count))
}

// The words of a block: its rows at which the condition may hold and surely holds, those with the bit of 1, and those that now are at top.
#[derive(Clone, Copy)]
pub(crate) struct BlockWords {
    pub(crate) may: u64,
    pub(crate) must: u64,
    pub(crate) ones: u64,
    pub(crate) top: u64,
}

impl BlockWords {
    // The sure rows that are counted: those with the bit of 1, and those at top.
    fn counted(self) -> u64
        ensures { result ≡ bit_and self.must (bit_or self.ones self.top) }
    {
        self.must & (self.ones | self.top)
    }

    // The rows that may count and need not.
    fn unsure(self) -> u64
        ensures { result ≡ bit_and self.may (bit_not w64 self.must) }
    {
        self.may & !self.must
    }
}

// Reads the words of a block.
fn read_words(
    query: &TypedQuery,
    columns: &LentColumns<'_>,
    rows: ColumnRows<'_>,
    plane: &Plane,
    number: usize,
) -> BlockWords
    requires judged { rows.filter.now.truths ≡ truths_under query.now.pred columns.now }
    requires known { rows_of_column rows.known.now ≡ columns.now.frame.rows }
    requires plane { length plane.now ≡ columns.now.frame.rows }
    requires number { 64 * number < columns.now.frame.rows }
    ensures { AreBlockWords (stage_of query.now columns.now) rows.entry.known.now plane.now number result }
{
    let count = (rows.known.rows() - 64 * number).min(64);
    BlockWords {
        may: first_bits(rows.filter.may().word(number), count),
        must: first_bits(rows.filter.must().word(number), count),
        ones: plane.word(number),
        top: rows.known.at_top().word(number),
    }
}

// Counts the rows of a block of which each that may count surely does, each in the cell that it is in.
fn count_sure(
    query: &TypedQuery,
    item: &Item,
    columns: &LentColumns<'_>,
    rows: ColumnRows<'_>,
    plane: &Plane,
    number: usize,
    words: BlockWords,
    cells: &[u16; 64],
    ones: &mut CellOnes,
)
    requires open_stage { IsOpenStage (stage_of query.now columns.now) }
    requires over { IsOverColumn item.now columns.now rows.known.now }
    requires ends { AreEndsOf rows.known.now rows.ends }
    requires plane { length plane.now ≡ columns.now.frame.rows }
    requires number { 64 * number < columns.now.frame.rows }
    requires words { AreBlockWords (stage_of query.now columns.now) rows.known.now plane.now number words }
    requires sure { bit_and words.may (bit_not w64 words.must) ≡ 0 }
    requires own { AreBlockCells (stage_of query.now columns.now) rows.single.now number cells.now }
    requires cells { length ones.old.cells ≡ cells_in (stage_of query.now columns.now) }
    ensures room { ones.new.room ≡ ones.old.room }
    ensures cells { length ones.new.cells ≡ length ones.old.cells }
    ensures highs { length ones.new.highs ≡ length ones.old.highs }
    ensures counted { (before : Stage) → IsBefore (stage_of query.now columns.now) item.now plane.now before
        → AreReadBelow before (stage_of query.now columns.now) item.now rows.entry.ends rows.entry.single.now (64 * number) ones.old
        → AreReadBelow before (stage_of query.now columns.now) item.now rows.entry.ends rows.entry.single.now
        (min (64 * number + 64) columns.now.frame.rows) ones.new }
{
    pairs_are_few();
    let counted = words.counted();
    let mut rest = counted;
    while rest != 0 {
        let row = rest.trailing_zeros() as usize;
        let one = has_bit(words.ones, row);
        ones.add(u32::from(cells[row]), one, has_bit(words.top, row));
        rest &= rest - 1;
    }
}

// Counts a row in its cell: one that surely counts by its bit and by whether it is at top, another by where its value ends.
fn add_row(ones: &mut CellOnes, cell: u32, sure: bool, one: bool, at_top: bool, high: u64)
    requires cell { cell < length ones.old.cells }
    requires highs { cell < length ones.old.highs }
    ensures { IsRowAdded ones.old ones.new cell sure one at_top high }
{
    if sure {
        ones.add(cell, one, at_top);
    } else {
        ones.add_high(cell, high);
    }
}

// Counts the rows of a block, each in the cell that it is in.
fn count_unsure(
    query: &TypedQuery,
    item: &Item,
    columns: &LentColumns<'_>,
    rows: ColumnRows<'_>,
    plane: &Plane,
    number: usize,
    words: BlockWords,
    cells: &[u16; 64],
    ones: &mut CellOnes,
)
    requires open_stage { IsOpenStage (stage_of query.now columns.now) }
    requires open_item { IsOpenItem columns.now.frame item.now }
    requires fits { FitsCells item.now.arg (declared_ranges columns.now.frame) }
    requires over { IsOverColumn item.now columns.now rows.known.now }
    requires ends { AreEndsOf rows.known.now rows.ends }
    requires plane { length plane.now ≡ columns.now.frame.rows }
    requires number { 64 * number < columns.now.frame.rows }
    requires words { AreBlockWords (stage_of query.now columns.now) rows.known.now plane.now number words }
    requires own { AreBlockCells (stage_of query.now columns.now) rows.single.now number cells.now }
    requires cells { length ones.old.cells ≡ cells_in (stage_of query.now columns.now) }
    requires highs { length ones.old.highs ≡ cells_in (stage_of query.now columns.now) }
    ensures room { ones.new.room ≡ ones.old.room }
    ensures cells { length ones.new.cells ≡ length ones.old.cells }
    ensures highs { length ones.new.highs ≡ length ones.old.highs }
    ensures counted { (before : Stage) → IsBefore (stage_of query.now columns.now) item.now plane.now before
        → AreReadBelow before (stage_of query.now columns.now) item.now rows.entry.ends rows.entry.single.now (64 * number) ones.old
        → AreReadBelow before (stage_of query.now columns.now) item.now rows.entry.ends rows.entry.single.now
        (min (64 * number + 64) columns.now.frame.rows) ones.new }
{
    pairs_are_few();
    let values = ShortValues::read(&item.arg, columns, number);
    let counted = words.counted() | words.unsure();
    let mut rest = counted;
    while rest != 0 {
        let row = rest.trailing_zeros() as usize;
        let sure = has_bit(words.must, row);
        let one = has_bit(words.ones, row);
        let at_top = has_bit(words.top, row);
        let high = values.spans[row].hi.unsigned_abs();
        add_row(ones, u32::from(cells[row]), sure, one, at_top, high);
        rest &= rest - 1;
    }
}

// Counts the rows of a block at which the condition may hold, each in the cell that it is in: of those that surely count those with the bit
// of 1 in the plane and those that now are at top, and all others by where their values end.
fn count_block(
    query: &TypedQuery,
    item: &Item,
    columns: &LentColumns<'_>,
    rows: ColumnRows<'_>,
    plane: &Plane,
    number: usize,
    ones: &mut CellOnes,
)
    requires open_stage { IsOpenStage (stage_of query.now columns.now) }
    requires open_item { IsOpenItem columns.now.frame item.now }
    requires fits { FitsCells item.now.arg (declared_ranges columns.now.frame) }
    requires over { IsOverColumn item.now columns.now rows.known.now }
    requires ends { AreEndsOf rows.known.now rows.ends }
    requires judged { rows.filter.now.truths ≡ truths_under query.now.pred columns.now }
    requires parted { IsParted (stage_of query.now columns.now) rows.cells.now rows.single.now }
    requires plane { length plane.now ≡ columns.now.frame.rows }
    requires number { 64 * number < columns.now.frame.rows }
    requires cells { length ones.old.cells ≡ cells_in (stage_of query.now columns.now) }
    requires highs { length ones.old.highs ≡ cells_in (stage_of query.now columns.now) }
    ensures room { ones.new.room ≡ ones.old.room }
    ensures cells { length ones.new.cells ≡ length ones.old.cells }
    ensures highs { length ones.new.highs ≡ length ones.old.highs }
    ensures counted { (before : Stage) → IsBefore (stage_of query.now columns.now) item.now plane.now before
        → AreReadBelow before (stage_of query.now columns.now) item.now rows.entry.ends rows.entry.single.now (64 * number) ones.old
        → AreReadBelow before (stage_of query.now columns.now) item.now rows.entry.ends rows.entry.single.now
        (min (64 * number + 64) columns.now.frame.rows) ones.new }
{
    cells_tell_keys();
    let words = read_words(query, columns, rows, plane, number);
    let mut cells = [0; 64];
    rows.cells.read_block(number, &mut cells);
    if words.unsure() == 0 {
        count_sure(
            query, item, columns, rows, plane, number, words, &cells, ones,
        );
    } else {
        count_unsure(
            query, item, columns, rows, plane, number, words, &cells, ones,
        );
    }
}

// Counts all rows so.
fn count_rows(
    query: &TypedQuery,
    item: &Item,
    columns: &LentColumns<'_>,
    rows: ColumnRows<'_>,
    plane: &Plane,
    ones: &mut CellOnes,
)
    requires open_stage { IsOpenStage (stage_of query.now columns.now) }
    requires open_item { IsOpenItem columns.now.frame item.now }
    requires fits { FitsCells item.now.arg (declared_ranges columns.now.frame) }
    requires over { IsOverColumn item.now columns.now rows.known.now }
    requires ends { AreEndsOf rows.known.now rows.ends }
    requires judged { rows.filter.now.truths ≡ truths_under query.now.pred columns.now }
    requires parted { IsParted (stage_of query.now columns.now) rows.cells.now rows.single.now }
    requires plane { length plane.now ≡ columns.now.frame.rows }
    requires room { cells_in (stage_of query.now columns.now) ≤ ones.old.room }
    ensures room { ones.new.room ≡ ones.old.room }
    ensures cells { length ones.new.cells ≡ cells_in (stage_of query.now columns.now) }
    ensures highs { length ones.new.highs ≡ cells_in (stage_of query.now columns.now) }
    ensures counted { (before : Stage) → IsBefore (stage_of query.now columns.now) item.now plane.now before
        → AreReadBelow before (stage_of query.now columns.now) item.now rows.entry.ends rows.entry.single.now
        columns.now.frame.rows ones.new }
{
    cells_tell_keys();
    ones.begin(rows.cells.count());
    for number in 0..columns.rows().div_ceil(64) {
        count_block(query, item, columns, rows, plane, number, ones);
    }
}

// Makes each cell of a sum stand for its rows behind the plane, if one of them surely counts or there is none, and the sum stood for them
// before it. Where it does not, the cells stand for nothing.
fn read_sums(
    query: &TypedQuery,
    item: &Item,
    columns: &LentColumns<'_>,
    rows: ColumnRows<'_>,
    ones: &CellOnes,
    running: &mut Running,
) -> bool
    requires open_stage { IsOpenStage (stage_of query.now columns.now) }
    requires kind { IsSumKind item.now.kind }
    requires parted { IsParted (stage_of query.now columns.now) rows.cells.now rows.single.now }
    requires cells { length ones.now.cells ≡ cells_in (stage_of query.now columns.now) }
    requires highs { length ones.now.highs ≡ cells_in (stage_of query.now columns.now) }
    requires room { HasRoom (stage_of query.now columns.now) item.now running.old }
    requires count { length running.old.cells ≡ cells_in (stage_of query.now columns.now) }
    ensures room { HasRoom (stage_of query.now columns.now) item.now running.new }
    ensures stand { IsTrue result → (before : Stage) → before.frame.rows ≡ columns.now.frame.rows
        → StandForCells before item.now running.old
        → AreReadBelow before (stage_of query.now columns.now) item.now rows.entry.ends rows.entry.single.now
        columns.now.frame.rows ones.now
        → StandForCells (stage_of query.now columns.now) item.now running.new }
{
    cells_tell_keys();
    for cell in 0..rows.cells.count() {
        let alone = rows.single[cell as usize];
        let Some(tally) = ones.tally(cell, alone, rows.ends, &running.tally(cell)) else {
            return false;
        };
        running.set(cell, tally);
    }
    true
}

impl CellMasks {
    // Makes the cells of a sum stand for their rows behind a plane of its column, if they are many and one row of each surely counts that
    // has any. Else they stand for nothing.
    pub(crate) fn read_sum(
        &mut self,
        query: &TypedQuery,
        item: &Item,
        columns: &LentColumns<'_>,
        rows: ReadRows<'_>,
        running: &mut Running,
    ) -> bool
        requires open_stage { IsOpenStage (stage_of query.now columns.now) }
        requires open_item { IsOpenItem columns.now.frame item.now }
        requires judged { rows.filter.now.truths ≡ truths_under query.now.pred columns.now }
        requires parted { IsParted (stage_of query.now columns.now) rows.cells.now rows.single.now }
        requires plane { length rows.plane.now ≡ columns.now.frame.rows }
        requires masks { HoldMasks columns.now.frame.rows self.old }
        requires room { HasRoom (stage_of query.now columns.now) item.now running.old }
        requires count { length running.old.cells ≡ cells_in (stage_of query.now columns.now) }
        requires before { WereCells (stage_of query.now columns.now) item.now rows.column rows.plane.now running.old }
        ensures masks { HoldMasks columns.now.frame.rows self.new }
        ensures room { HasRoom (stage_of query.now columns.now) item.now running.new }
        ensures stand { IsTrue result → StandForCells (stage_of query.now columns.now) item.now running.new }
    {
        let Expr::Column(column) = &item.arg else {
            return false;
        };
        let column = *column as usize;
        let cells = rows.cells.count();
        if column != rows.column || !is_summed(item.kind) || cells <= FEW_CELLS {
            return false;
        }
        let known = columns.column(column);
        let Some(ends) = digit_ends(known) else {
            return false;
        };
        cells_tell_keys();
        if self.ones.room() < cells as usize || !has_sure_rows(cells, running) {
            return false;
        }
        if !fits_cells(&item.arg, columns) {
            return false;
        }
        let column_rows = ColumnRows {
            known,
            ends,
            filter: rows.filter,
            cells: rows.cells,
            single: rows.single,
        };
        count_rows(
            query,
            item,
            columns,
            column_rows,
            rows.plane,
            &mut self.ones,
        );
        read_sums(query, item, columns, column_rows, &self.ones, running)
    }
}
