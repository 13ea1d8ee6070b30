//! An item's pairs, added block by block to the cells that the rows are in.

ghost use Rattle.std.specs.Prelude.{◌≡◌, ◌<◌, ◌+◌, ◌*◌, min};
ghost use Rattle.kleene_filter.specs.Filters.{truths_under};
ghost use Rattle.round_engine.specs.CellAnswers.{HasRoom, IsParted, StandBelow, StandForCells};
ghost use Rattle.round_engine.specs.Engines.{stage_of};
ghost use Rattle.round_engine.specs.Stages.{IsOpenItem, IsOpenStage};

use aggregates::{Running, has_bit};
use kleene_filter::Filter;
use known_column::{LentColumns, RowBlock};
use query_model::{Item, TypedQuery, pairs_are_few, sums_of_items_fit};
use row_groups::{Cells, cells_tell_keys};
use row_values::BlockValues;

// Adds the rows of a block to an item, each to the cell that it is in: each at which the condition may hold and the item's argument
// is not surely null. It counts for certain where both are sure and the cell holds one key.
fn add_block(
    query: &TypedQuery,
    item: &Item,
    columns: &LentColumns<'_>,
    filter: &Filter,
    number: usize,
    cells: &Cells,
    single: &[bool],
    block: &mut RowBlock,
    values: &mut BlockValues,
    running: &mut Running,
)
    requires open_stage { IsOpenStage (stage_of query.now columns.now) }
    requires open_item { IsOpenItem columns.now.frame item.now }
    requires judged { filter.now.truths ≡ truths_under query.now.pred columns.now }
    requires rows { 64 * number < columns.now.frame.rows }
    requires same { block.old.frame.columns ≡ columns.now.frame.columns }
    requires parted { IsParted (stage_of query.now columns.now) cells.now single.now }
    requires stand { StandBelow (stage_of query.now columns.now) item.now (64 * number) running.old }
    ensures same { block.new.frame.columns ≡ columns.now.frame.columns }
    ensures stand { StandBelow (stage_of query.now columns.now) item.now (min (64 * number + 64) columns.now.frame.rows) running.new }
{
    cells_tell_keys();
    sums_of_items_fit();
    pairs_are_few();
    values.read(&item.arg, columns, number, block);
    let may = filter.may().word(number) & values.possible;
    let must = filter.must().word(number) & values.sure;
    for row in 64 * number..(64 * number + 64).min(columns.rows()) {
        if has_bit(may, row % 64) {
            let cell = cells.cell_of(row);
            let certain = has_bit(must, row % 64) & single[cell as usize];
            running.add(cell, certain, values.spans[row % 64]);
        }
    }
}

// Adds all rows to an item, each to the cell that it is in. A block of whose rows none may pass is not read.
pub(crate) fn fill_cells(
    query: &TypedQuery,
    item: &Item,
    columns: &LentColumns<'_>,
    filter: &Filter,
    block: &mut RowBlock,
    cells: &Cells,
    single: &[bool],
    running: &mut Running,
)
    requires open_stage { IsOpenStage (stage_of query.now columns.now) }
    requires open_item { IsOpenItem columns.now.frame item.now }
    requires judged { filter.now.truths ≡ truths_under query.now.pred columns.now }
    requires same { block.old.frame.columns ≡ columns.now.frame.columns }
    requires parted { IsParted (stage_of query.now columns.now) cells.now single.now }
    requires room { HasRoom (stage_of query.now columns.now) item.now running.old }
    ensures same { block.new.frame.columns ≡ columns.now.frame.columns }
    ensures stand { StandForCells (stage_of query.now columns.now) item.now running.new }
{
    cells_tell_keys();
    running.begin(cells.count() as usize);
    let mut values = BlockValues::room();
    for number in 0..columns.rows().div_ceil(64) {
        if filter.may().word(number) != 0 {
            add_block(
                query,
                item,
                columns,
                filter,
                number,
                cells,
                single,
                block,
                &mut values,
                running,
            );
        }
    }
}
