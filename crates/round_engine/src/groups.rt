//! The answers of a query with groups: for each cell of keys one for each item, and whether the keys are in the result.

ghost use Rattle.std.specs.Prelude.{◌≡◌, ◌≢◌, ◌<◌, false, length, slice_get, IfOk, IfSome, IsSome, IsTrue, ◌↔◌};
ghost use Rattle.kleene_filter.specs.Filters.{truths_under};
ghost use Rattle.known_column.specs.KnownTables.{unread_table};
ghost use Rattle.query_model.specs.declared.query.ItemKind.TheVariants.{Avg};
ghost use Rattle.query_model.specs.Answers.{every_row, groups_of};
ghost use Rattle.query_model.specs.Bounds.{fractions_of};
ghost use Rattle.round_engine.specs.CellAnswers.{AreGroups, HasCell, HasItem, HasRoom, HaveCells, HoldGroups, most_cells};
ghost use Rattle.round_engine.specs.CellAnswers.{IsParted, StandForCells, StandForEach, StandForOthers, WereGroups};
ghost use Rattle.row_groups.specs.Partition.{is_group, is_legal_cell, ranges_in, ranges_of_cell};
ghost use Rattle.round_engine.specs.DigitCells.{IsTold};
ghost use Rattle.round_engine.specs.Cells.{absence_in_cell, average_in_cell, bound_in_cell, cells_in, parts_in};
ghost use Rattle.round_engine.specs.Engines.{stage_of};
ghost use Rattle.round_engine.specs.KeptCells.{AreKeptParts, HaveKeptParts};
ghost use Rattle.round_engine.specs.OneCell.{HoldMasks};
ghost use Rattle.round_engine.specs.ReadCells.{WereCells, WereEach};
ghost use Rattle.round_engine.specs.Stages.{IsGrouped, IsOpenItem, IsOpenStage, Stage};

use crate::cell_filling::fill_cells;
use crate::cell_room::{every_row, most_cells, open_cells, open_each};
use crate::condition_rounds::{follow_each, follow_presence};
use crate::group_columns::{is_group, part_cells};
use crate::kept_cells::{KeptParts, open_parts};
use crate::moved::{moved_items, moves_rows};
use crate::one_cell::CellMasks;
use crate::one_key::tell_single;
use crate::presence_counts::copy_each;
use crate::read_cells::ReadRows;
use crate::seen_rows::SeenRows;
use crate::totals::is_by_masks;
use aggregates::Running;
use kleene_filter::Filter;
use known_column::{LentColumns, RowBlock};
use plane_kernels::Plane;
use query_model::{AverageBound, Bound, Item, ItemKind, Nullity, TypedQuery};
use row_groups::{
    CellKeys, Cells, FEW_CELLS, cells_tell_keys, opening_stands, others_leave_cells,
    refining_stands,
};
use std::alloc::{AllocError, Global};

// Which cell each row is in, which cells hold one key, and what is added up of each cell: its rows, and each item's values. Of sums
// what planes gave is kept cell by cell, where there are few.
#[derive(Drop)]
pub(crate) struct Groups {
    cells: Cells,
    single: Vec<bool>,
    presence: Running,
    pub(crate) runnings: Vec<Running>,
    masks: CellMasks,
    seen: SeenRows,
    kept: Vec<KeptParts>,
}

// Adds all rows to an item: by masks where these tell it of one cell that has all rows, or of each of few, by counts of rows where these
// tell each cell, else each row to the cell that it is in.
pub(crate) fn fill_item(
    query: &TypedQuery,
    item: &Item,
    columns: &LentColumns<'_>,
    filter: &Filter,
    block: &mut RowBlock,
    cells: &Cells,
    single: &[bool],
    masks: &mut CellMasks,
    running: &mut Running,
    kept: &mut KeptParts,
)
    requires open_stage { IsOpenStage (stage_of query.now columns.now) }
    requires open_item { IsOpenItem columns.now.frame item.now }
    requires judged { filter.now.truths ≡ truths_under query.now.pred columns.now }
    requires same { block.old.frame.columns ≡ columns.now.frame.columns }
    requires parted { IsParted (stage_of query.now columns.now) cells.now single.now }
    requires masks { HoldMasks columns.now.frame.rows masks.old }
    requires room { HasRoom (stage_of query.now columns.now) item.now running.old }
    requires kept { AreKeptParts columns.now item.now kept.old }
    ensures kept { AreKeptParts columns.now item.now kept.new }
    ensures same { block.new.frame.columns ≡ columns.now.frame.columns }
    ensures masks { HoldMasks columns.now.frame.rows masks.new }
    ensures stand { StandForCells (stage_of query.now columns.now) item.now running.new }
{
    cells_tell_keys();
    if cells.count() == 1 && is_by_masks(item, columns) {
        masks.fill(
            query,
            item,
            columns,
            filter,
            single[0],
            running,
            &mut kept.sums,
        );
    } else if cells.count() <= FEW_CELLS && is_by_masks(item, columns) {
        masks.fill_parts(
            query,
            item,
            columns,
            filter,
            cells,
            single,
            running,
            &mut kept.sums,
        );
    } else if !masks.fill_counted(
        query,
        item,
        columns,
        filter,
        cells,
        single,
        running,
        &mut kept.product,
    ) && !masks.fill_digits(query, item, columns, filter, cells, single, running)
        && !masks.fill_compact(query, item, columns, filter, cells, single, running)
    {
        fill_cells(query, item, columns, filter, block, cells, single, running);
    }
}

// Adds all rows to the count of each cell's rows, of which nothing is kept. Where digits tell a sum, its rows are those of the count: says
// which item that is.
fn fill_presence(
    query: &TypedQuery,
    columns: &LentColumns<'_>,
    filter: &Filter,
    block: &mut RowBlock,
    cells: &Cells,
    single: &[bool],
    masks: &mut CellMasks,
    presence: &mut Running,
) -> Option<usize>
    requires open_stage { IsOpenStage (stage_of query.now columns.now) }
    requires judged { filter.now.truths ≡ truths_under query.now.pred columns.now }
    requires same { block.old.frame.columns ≡ columns.now.frame.columns }
    requires parted { IsParted (stage_of query.now columns.now) cells.now single.now }
    requires masks { HoldMasks columns.now.frame.rows masks.old }
    requires room { HasRoom (stage_of query.now columns.now) every_row presence.old }
    ensures same { block.new.frame.columns ≡ columns.now.frame.columns }
    ensures masks { HoldMasks columns.now.frame.rows masks.new }
    ensures told { IfSome result (λ item. IsTold (stage_of query.now columns.now) item masks.new.digits) }
    ensures stand { StandForCells (stage_of query.now columns.now) every_row presence.new }
{
    if let Some(told) = masks.tell_presence(query, columns, filter, cells, single, presence) {
        return Some(told);
    }
    let mut kept = KeptParts::none();
    fill_item(
        query,
        &every_row(),
        columns,
        filter,
        block,
        cells,
        single,
        masks,
        presence,
        &mut kept,
    );
    None
}

// Makes the cells of an item stand for its rows, where digits told it. It is marked no more.
fn copy_told(
    query: &TypedQuery,
    columns: &LentColumns<'_>,
    told: Option<usize>,
    masks: &CellMasks,
    marks: &mut [bool; 16],
    runnings: &mut [Running],
)
    requires open_stage { IsOpenStage (stage_of query.now columns.now) }
    requires told { IfSome told (λ item. IsTold (stage_of query.now columns.now) item masks.now.digits) }
    requires others { StandForOthers (stage_of query.now columns.now) marks.old runnings.old }
    ensures others { StandForOthers (stage_of query.now columns.now) marks.new runnings.new }
{
    if let Some(told) = told {
        masks.digits.copy_to(&mut runnings[told]);
        marks[told] = false;
    }
}

// Adds all rows of each marked item anew.
fn fill_each(
    query: &TypedQuery,
    columns: &LentColumns<'_>,
    filter: &Filter,
    block: &mut RowBlock,
    cells: &Cells,
    single: &[bool],
    marks: &[bool; 16],
    masks: &mut CellMasks,
    runnings: &mut [Running],
    kept: &mut [KeptParts],
)
    requires open_stage { IsOpenStage (stage_of query.now columns.now) }
    requires judged { filter.now.truths ≡ truths_under query.now.pred columns.now }
    requires same { block.old.frame.columns ≡ columns.now.frame.columns }
    requires parted { IsParted (stage_of query.now columns.now) cells.now single.now }
    requires masks { HoldMasks columns.now.frame.rows masks.old }
    requires others { StandForOthers (stage_of query.now columns.now) marks.now runnings.old }
    requires kept { HaveKeptParts columns.now query.now.items kept.old }
    ensures kept { HaveKeptParts columns.now query.now.items kept.new }
    ensures same { block.new.frame.columns ≡ columns.now.frame.columns }
    ensures masks { HoldMasks columns.now.frame.rows masks.new }
    ensures stand { StandForEach (stage_of query.now columns.now) runnings.new }
{
    for i in 0..runnings.len() {
        if marks[i] {
            let item = &query.items.as_slice()[i];
            fill_item(
                query,
                item,
                columns,
                filter,
                block,
                cells,
                single,
                masks,
                &mut runnings[i],
                &mut kept[i],
            );
        }
    }
}

// Follows a plane that moves no rows: by what its bits add to a sum where these tell each of many cells, else by adding all rows anew.
fn read_item(
    query: &TypedQuery,
    item: &Item,
    columns: &LentColumns<'_>,
    rows: ReadRows<'_>,
    block: &mut RowBlock,
    masks: &mut CellMasks,
    running: &mut Running,
    kept: &mut KeptParts,
)
    requires open_stage { IsOpenStage (stage_of query.now columns.now) }
    requires open_item { IsOpenItem columns.now.frame item.now }
    requires judged { rows.filter.now.truths ≡ truths_under query.now.pred columns.now }
    requires same { block.old.frame.columns ≡ columns.now.frame.columns }
    requires parted { IsParted (stage_of query.now columns.now) rows.cells.now rows.single.now }
    requires plane { length rows.plane.now ≡ columns.now.frame.rows }
    requires masks { HoldMasks columns.now.frame.rows masks.old }
    requires room { HasRoom (stage_of query.now columns.now) item.now running.old }
    requires count { length running.old.cells ≡ cells_in (stage_of query.now columns.now) }
    requires before { WereCells (stage_of query.now columns.now) item.now rows.column rows.plane.now running.old }
    requires kept { AreKeptParts columns.now item.now kept.old }
    ensures kept { AreKeptParts columns.now item.now kept.new }
    ensures same { block.new.frame.columns ≡ columns.now.frame.columns }
    ensures masks { HoldMasks columns.now.frame.rows masks.new }
    ensures stand { StandForCells (stage_of query.now columns.now) item.now running.new }
{
    if !masks.read_sum(query, item, columns, rows, running) {
        fill_item(
            query,
            item,
            columns,
            rows.filter,
            block,
            rows.cells,
            rows.single,
            masks,
            running,
            kept,
        );
    }
}

// Follows such a plane with each marked item.
fn read_each(
    query: &TypedQuery,
    columns: &LentColumns<'_>,
    rows: ReadRows<'_>,
    block: &mut RowBlock,
    marks: &[bool; 16],
    masks: &mut CellMasks,
    runnings: &mut [Running],
    kept: &mut [KeptParts],
)
    requires open_stage { IsOpenStage (stage_of query.now columns.now) }
    requires judged { rows.filter.now.truths ≡ truths_under query.now.pred columns.now }
    requires same { block.old.frame.columns ≡ columns.now.frame.columns }
    requires parted { IsParted (stage_of query.now columns.now) rows.cells.now rows.single.now }
    requires plane { length rows.plane.now ≡ columns.now.frame.rows }
    requires masks { HoldMasks columns.now.frame.rows masks.old }
    requires others { StandForOthers (stage_of query.now columns.now) marks.now runnings.old }
    requires before { WereEach (stage_of query.now columns.now) rows.column rows.plane.now runnings.old }
    requires kept { HaveKeptParts columns.now query.now.items kept.old }
    ensures kept { HaveKeptParts columns.now query.now.items kept.new }
    ensures same { block.new.frame.columns ≡ columns.now.frame.columns }
    ensures masks { HoldMasks columns.now.frame.rows masks.new }
    ensures stand { StandForEach (stage_of query.now columns.now) runnings.new }
{
    for i in 0..runnings.len() {
        if marks[i] {
            let item = &query.items.as_slice()[i];
            read_item(
                query,
                item,
                columns,
                rows,
                block,
                masks,
                &mut runnings[i],
                &mut kept[i],
            );
        }
    }
}

// What was counted of the rows of each cell, and the item that digits told with it.
#[derive(Clone, Copy)]
struct Counted<'a> {
    presence: &'a Running,
    told: Option<usize>,
}

// Adds all rows of each item anew. Counts of what is never null, and items over unread columns, are told by the rows that were counted of
// each cell.
fn fill_all(
    query: &TypedQuery,
    columns: &LentColumns<'_>,
    filter: &Filter,
    block: &mut RowBlock,
    cells: &Cells,
    single: &[bool],
    counted: Counted<'_>,
    masks: &mut CellMasks,
    runnings: &mut [Running],
    kept: &mut [KeptParts],
)
    requires open_stage { IsOpenStage (stage_of query.now columns.now) }
    requires judged { filter.now.truths ≡ truths_under query.now.pred columns.now }
    requires same { block.old.frame.columns ≡ columns.now.frame.columns }
    requires parted { IsParted (stage_of query.now columns.now) cells.now single.now }
    requires presence { StandForCells (stage_of query.now columns.now) every_row counted.presence.now }
    requires told { IfSome counted.told (λ item. IsTold (stage_of query.now columns.now) item masks.old.digits) }
    requires masks { HoldMasks columns.now.frame.rows masks.old }
    requires room { HaveCells query.now.items (most_cells (stage_of query.now columns.now)) runnings.old }
    requires kept { HaveKeptParts columns.now query.now.items kept.old }
    ensures kept { HaveKeptParts columns.now query.now.items kept.new }
    ensures same { block.new.frame.columns ≡ columns.now.frame.columns }
    ensures masks { HoldMasks columns.now.frame.rows masks.new }
    ensures stand { StandForEach (stage_of query.now columns.now) runnings.new }
{
    let mut marks = copy_each(query, columns, cells, counted.presence, runnings);
    copy_told(query, columns, counted.told, masks, &mut marks, runnings);
    fill_each(
        query, columns, filter, block, cells, single, &marks, masks, runnings, kept,
    );
}

impl Groups {
    // Room for the cells of a query of whose columns nothing is read. All of it is taken here.
    pub(crate) fn open(
        alloc: Global,
        query: &TypedQuery,
        columns: &LentColumns<'_>,
    ) -> Result<Groups, AllocError>
        requires open_stage { IsOpenStage (stage_of query.now columns.now) }
        requires grouped { IsGrouped query.now.shape }
        requires unread { columns.now ≡ unread_table columns.now.frame }
        ensures { IfOk result (HoldGroups (stage_of query.now columns.now)) }
    {
        opening_stands();
        cells_tell_keys();
        let most = most_cells(query, columns);
        let cells = open_cells(alloc, query, columns)?;
        let mut single = vec![in alloc; false; most]?;
        tell_single(&cells, &mut single);
        let presence = Running::open(alloc, ItemKind::Count, most)?;
        let runnings = open_each(alloc, query, most)?;
        let masks = CellMasks::open(alloc, columns.rows(), most)?;
        let seen = SeenRows::open(alloc, columns.rows())?;
        let kept = open_parts(alloc, query, columns, most.min(FEW_CELLS as usize))?;
        Ok(Groups {
            cells,
            single,
            presence,
            runnings,
            masks,
            seen,
            kept,
        })
    }

    // Adds all rows of each item anew.
    pub(crate) fn fill(
        &mut self,
        query: &TypedQuery,
        columns: &LentColumns<'_>,
        filter: &Filter,
        block: &mut RowBlock,
    )
        requires open_stage { IsOpenStage (stage_of query.now columns.now) }
        requires judged { filter.now.truths ≡ truths_under query.now.pred columns.now }
        requires room { HoldGroups (stage_of query.now columns.now) self.old }
        requires same { block.old.frame.columns ≡ columns.now.frame.columns }
        ensures same { block.new.frame.columns ≡ columns.now.frame.columns }
        ensures answers { AreGroups (stage_of query.now columns.now) self.new }
    {
        let told = fill_presence(
            query,
            columns,
            filter,
            block,
            &self.cells,
            &self.single,
            &mut self.masks,
            &mut self.presence,
        );
        let counted = Counted {
            presence: &self.presence,
            told,
        };
        fill_all(
            query,
            columns,
            filter,
            block,
            &self.cells,
            &self.single,
            counted,
            &mut self.masks,
            &mut self.runnings,
            &mut self.kept,
        );
        self.seen.take(query, columns, filter);
    }

    // Parts the rows where the column whose plane was read is a group column.
    fn refine(
        &mut self,
        query: &TypedQuery,
        columns: &LentColumns<'_>,
        column: usize,
        plane: &Plane,
    )
        requires open_stage { IsOpenStage (stage_of query.now columns.now) }
        requires before { WereGroups (stage_of query.now columns.now) column plane.now self.old }
        requires rows { length plane.now ≡ columns.now.frame.rows }
        ensures { HoldGroups (stage_of query.now columns.now) self.new }
    {
        cells_tell_keys();
        others_leave_cells();
        refining_stands();
        if is_group(query, column) {
            part_cells(query, &mut self.cells, column as u8, plane);
            tell_single(&self.cells, &mut self.single);
        }
    }

    // Follows a plane of a column by which no rows are grouped, by the rows that it moved.
    fn follow_condition(
        &mut self,
        query: &TypedQuery,
        columns: &LentColumns<'_>,
        filter: &Filter,
        column: usize,
        plane: &Plane,
        block: &mut RowBlock,
    )
        requires open_stage { IsOpenStage (stage_of query.now columns.now) }
        requires judged { filter.now.truths ≡ truths_under query.now.pred columns.now }
        requires before { WereGroups (stage_of query.now columns.now) column plane.now self.old }
        requires rows { length plane.now ≡ columns.now.frame.rows }
        requires cells_stay { is_group (groups_of query.now.shape) column ≡ false }
        requires same { block.old.frame.columns ≡ columns.now.frame.columns }
        ensures same { block.new.frame.columns ≡ columns.now.frame.columns }
        ensures answers { AreGroups (stage_of query.now columns.now) self.new }
    {
        others_leave_cells();
        let rows = ReadRows {
            column,
            plane,
            filter,
            cells: &self.cells,
            single: &self.single,
        };
        follow_presence(
            query,
            columns,
            rows,
            &self.seen,
            block,
            &mut self.masks,
            &mut self.presence,
        );
        follow_each(
            query,
            columns,
            rows,
            &self.seen,
            &self.presence,
            block,
            &mut self.masks,
            &mut self.runnings,
            &mut self.kept,
        );
        self.seen.take(query, columns, filter);
    }

    // Follows a plane by which rows are parted, or which the condition reads.
    fn follow_rows(
        &mut self,
        query: &TypedQuery,
        columns: &LentColumns<'_>,
        filter: &Filter,
        column: usize,
        plane: &Plane,
        block: &mut RowBlock,
    )
        requires open_stage { IsOpenStage (stage_of query.now columns.now) }
        requires judged { filter.now.truths ≡ truths_under query.now.pred columns.now }
        requires before { WereGroups (stage_of query.now columns.now) column plane.now self.old }
        requires rows { length plane.now ≡ columns.now.frame.rows }
        requires same { block.old.frame.columns ≡ columns.now.frame.columns }
        ensures same { block.new.frame.columns ≡ columns.now.frame.columns }
        ensures answers { AreGroups (stage_of query.now columns.now) self.new }
    {
        if is_group(query, column) || self.cells.count() <= FEW_CELLS {
            self.refine(query, columns, column, plane);
            self.fill(query, columns, filter, block);
        } else {
            self.follow_condition(query, columns, filter, column, plane, block);
        }
    }

    // Follows the columns after a plane of one of them: by the rows that it moves, or by its bits.
    pub(crate) fn refresh(
        &mut self,
        query: &TypedQuery,
        columns: &LentColumns<'_>,
        filter: &Filter,
        column: usize,
        plane: &Plane,
        block: &mut RowBlock,
    )
        requires open_stage { IsOpenStage (stage_of query.now columns.now) }
        requires judged { filter.now.truths ≡ truths_under query.now.pred columns.now }
        requires before { WereGroups (stage_of query.now columns.now) column plane.now self.old }
        requires rows { length plane.now ≡ columns.now.frame.rows }
        requires same { block.old.frame.columns ≡ columns.now.frame.columns }
        ensures same { block.new.frame.columns ≡ columns.now.frame.columns }
        ensures answers { AreGroups (stage_of query.now columns.now) self.new }
    {
        if moves_rows(query, column) {
            self.follow_rows(query, columns, filter, column, plane, block);
        } else {
            others_leave_cells();
            let moved = moved_items(query, column);
            let rows = ReadRows {
                column,
                plane,
                filter,
                cells: &self.cells,
                single: &self.single,
            };
            read_each(
                query,
                columns,
                rows,
                block,
                &moved,
                &mut self.masks,
                &mut self.runnings,
                &mut self.kept,
            );
        }
    }

    // How many cells there are.
    pub(crate) fn count(&self) -> u32
        ensures { (stage : Stage) → AreGroups stage self.now → result ≡ cells_in stage }
    {
        cells_tell_keys();
        self.cells.count()
    }

    // What the keys of a cell may be, or none where it has no keys.
    pub(crate) fn keys(&self, cell: u32) -> Option<CellKeys>
        ensures legal { (stage : Stage) → AreGroups stage self.now → IsSome result ↔ IsTrue (is_legal_cell (parts_in stage) cell) }
        ensures keys { (stage : Stage) → AreGroups stage self.now
            → IfSome result (λ keys. ranges_in keys ≡ ranges_of_cell (parts_in stage) cell) }
    {
        self.cells.keys_of(cell)
    }

    // Whether the keys of a cell are missing in the result.
    pub(crate) fn absence(&self, cell: u32) -> Nullity
        requires { HasCell self.now cell }
        ensures { (stage : Stage) → AreGroups stage self.now → result ≡ absence_in_cell stage cell }
    {
        let count = self.presence.bound(cell);
        if count.hi == 0 {
            Nullity::Always
        } else if count.lo > 0 {
            Nullity::Never
        } else {
            Nullity::Possibly
        }
    }

    // The bound of an item that is no average, in a cell.
    pub(crate) fn bound(&self, cell: u32, item: usize) -> Bound
        requires { HasItem self.now cell item (λ aggregate. aggregate.kind ≢ Avg) }
        ensures { (stage : Stage) → AreGroups stage self.now → IfSome (slice_get stage.query.items item) (λ i.
            result ≡ bound_in_cell stage i cell) }
    {
        self.runnings[item].bound(cell)
    }

    // The bound of an average.
    pub(crate) fn average(&self, cell: u32, item: usize) -> AverageBound
        requires { HasItem self.now cell item (λ aggregate. aggregate.kind ≡ Avg) }
        ensures { (stage : Stage) → AreGroups stage self.now → IfSome (slice_get stage.query.items item) (λ i.
            fractions_of result ≡ average_in_cell stage i cell) }
    {
        self.runnings[item].average(cell)
    }
}
