//! Counts and sums of many cells, to which rows are added by compact tallies.

ghost use Rattle.std.specs.Prelude.{◌≡◌, ◌<◌, ◌+◌, ◌*◌, min, true, IsTrue};
ghost use Rattle.kleene_filter.specs.Filters.{truths_under};
ghost use Rattle.query_model.specs.Validity.{declared_ranges, IsSumKind};
ghost use Rattle.row_values.specs.ShortSpans.{FitsCells};
ghost use Rattle.round_engine.specs.CellAnswers.{HasRoom, IsParted, StandBelow, StandForCells};
ghost use Rattle.round_engine.specs.Counts.{is_counted};
ghost use Rattle.round_engine.specs.Engines.{stage_of};
ghost use Rattle.round_engine.specs.OneCell.{HoldMasks};
ghost use Rattle.round_engine.specs.Stages.{IsOpenItem, IsOpenStage};

use crate::counts::is_counted;
use crate::one_cell::CellMasks;
use aggregates::{CellCounts, CellSums, Running, has_bit};
use kleene_filter::Filter;
use known_column::LentColumns;
use query_model::{Item, ItemKind, TypedQuery, pairs_are_few};
use row_groups::{Cells, cells_tell_keys};
use row_values::{ShortValues, fits_cells};

// Adds the rows of a block to a count whose argument is never null, each to the cell that it is in: each at which the condition may hold.
// It counts for certain where the condition surely holds and the cell holds one key.
fn count_block(
    query: &TypedQuery,
    item: &Item,
    columns: &LentColumns<'_>,
    filter: &Filter,
    number: usize,
    cells: &Cells,
    single: &[bool],
    counts: &mut CellCounts,
)
    requires open_stage { IsOpenStage (stage_of query.now columns.now) }
    requires counted { is_counted columns.now.frame item.now ≡ true }
    requires judged { filter.now.truths ≡ truths_under query.now.pred columns.now }
    requires rows { 64 * number < columns.now.frame.rows }
    requires parted { IsParted (stage_of query.now columns.now) cells.now single.now }
    requires stand { StandBelow (stage_of query.now columns.now) item.now (64 * number) counts.old }
    ensures stand { StandBelow (stage_of query.now columns.now) item.now (min (64 * number + 64) columns.now.frame.rows) counts.new }
{
    cells_tell_keys();
    pairs_are_few();
    let may = filter.may().word(number);
    let must = filter.must().word(number);
    let mut block = [0; 64];
    cells.read_block(number, &mut block);
    for row in 64 * number..(64 * number + 64).min(columns.rows()) {
        let cell = u32::from(block[row % 64]);
        let perhaps = has_bit(may, row % 64);
        let surely = has_bit(must, row % 64);
        let alone = single[cell as usize];
        counts.add(cell, perhaps, surely & alone);
    }
}

// Adds the rows of a block to a sum, each to the cell that it is in: each at which the condition may hold and the item's argument is not
// surely null. It counts for certain where both are sure and the cell holds one key.
fn sum_block(
    query: &TypedQuery,
    item: &Item,
    columns: &LentColumns<'_>,
    filter: &Filter,
    number: usize,
    cells: &Cells,
    single: &[bool],
    sums: &mut CellSums,
)
    requires open_stage { IsOpenStage (stage_of query.now columns.now) }
    requires open_item { IsOpenItem columns.now.frame item.now }
    requires fits { FitsCells item.now.arg (declared_ranges columns.now.frame) }
    requires judged { filter.now.truths ≡ truths_under query.now.pred columns.now }
    requires rows { 64 * number < columns.now.frame.rows }
    requires parted { IsParted (stage_of query.now columns.now) cells.now single.now }
    requires stand { StandBelow (stage_of query.now columns.now) item.now (64 * number) sums.old }
    ensures stand { StandBelow (stage_of query.now columns.now) item.now (min (64 * number + 64) columns.now.frame.rows) sums.new }
{
    cells_tell_keys();
    pairs_are_few();
    let values = ShortValues::read(&item.arg, columns, number);
    let may = filter.may().word(number) & values.possible;
    let must = filter.must().word(number) & values.sure;
    let end = (64 * number + 64).min(columns.rows());
    for row in 64 * number..end {
        let cell = cells.cell_of(row);
        let perhaps = has_bit(may, row % 64);
        let surely = has_bit(must, row % 64);
        let alone = single[cell as usize];
        let span = values.spans[row % 64];
        sums.add(cell, perhaps, surely & alone, span.lo, span.hi);
    }
}

// Adds all rows to such a count. A block of whose rows none may pass is not read.
fn count_rows(
    query: &TypedQuery,
    item: &Item,
    columns: &LentColumns<'_>,
    filter: &Filter,
    cells: &Cells,
    single: &[bool],
    counts: &mut CellCounts,
)
    requires open_stage { IsOpenStage (stage_of query.now columns.now) }
    requires counted { is_counted columns.now.frame item.now ≡ true }
    requires judged { filter.now.truths ≡ truths_under query.now.pred columns.now }
    requires parted { IsParted (stage_of query.now columns.now) cells.now single.now }
    requires stand { StandBelow (stage_of query.now columns.now) item.now 0 counts.old }
    ensures stand { StandForCells (stage_of query.now columns.now) item.now counts.new }
{
    for number in 0..columns.rows().div_ceil(64) {
        if filter.may().word(number) != 0 {
            count_block(query, item, columns, filter, number, cells, single, counts);
        }
    }
}

// Adds all rows to such a sum.
fn sum_rows(
    query: &TypedQuery,
    item: &Item,
    columns: &LentColumns<'_>,
    filter: &Filter,
    cells: &Cells,
    single: &[bool],
    sums: &mut CellSums,
)
    requires open_stage { IsOpenStage (stage_of query.now columns.now) }
    requires open_item { IsOpenItem columns.now.frame item.now }
    requires fits { FitsCells item.now.arg (declared_ranges columns.now.frame) }
    requires judged { filter.now.truths ≡ truths_under query.now.pred columns.now }
    requires parted { IsParted (stage_of query.now columns.now) cells.now single.now }
    requires stand { StandBelow (stage_of query.now columns.now) item.now 0 sums.old }
    ensures stand { StandForCells (stage_of query.now columns.now) item.now sums.new }
{
    for number in 0..columns.rows().div_ceil(64) {
        if filter.may().word(number) != 0 {
            sum_block(query, item, columns, filter, number, cells, single, sums);
        }
    }
}

// Whether a sum is kept for an item of this kind.
pub(crate) fn is_summed(kind: ItemKind) -> bool
    ensures { IsTrue result → IsSumKind kind }
{
    match kind {
        ItemKind::Sum | ItemKind::Avg => true,
        ItemKind::Count | ItemKind::Min | ItemKind::Max => false,
    }
}

impl CellMasks {
    // Makes each cell stand for its rows, where a compact tally tells what the item keeps of them and there is room for all cells.
    pub(crate) fn fill_compact(
        &mut self,
        query: &TypedQuery,
        item: &Item,
        columns: &LentColumns<'_>,
        filter: &Filter,
        cells: &Cells,
        single: &[bool],
        running: &mut Running,
    ) -> bool
        requires open_stage { IsOpenStage (stage_of query.now columns.now) }
        requires open_item { IsOpenItem columns.now.frame item.now }
        requires judged { filter.now.truths ≡ truths_under query.now.pred columns.now }
        requires parted { IsParted (stage_of query.now columns.now) cells.now single.now }
        requires masks { HoldMasks columns.now.frame.rows self.old }
        requires room { HasRoom (stage_of query.now columns.now) item.now running.old }
        ensures masks { HoldMasks columns.now.frame.rows self.new }
        ensures room { HasRoom (stage_of query.now columns.now) item.now running.new }
        ensures stand { IsTrue result → StandForCells (stage_of query.now columns.now) item.now running.new }
    {
        cells_tell_keys();
        let total = cells.count() as usize;
        if is_counted(item, columns) && self.counts.room() == single.len() {
            self.counts.begin(total);
            count_rows(
                query,
                item,
                columns,
                filter,
                cells,
                single,
                &mut self.counts,
            );
            running.copy_counts(&self.counts);
            true
        } else if is_summed(item.kind)
            && fits_cells(&item.arg, columns)
            && self.sums.room() == single.len()
        {
            self.sums.begin(item.kind, total);
            sum_rows(query, item, columns, filter, cells, single, &mut self.sums);
            running.copy_sums(&self.sums);
            true
        } else {
            false
        }
    }
}
