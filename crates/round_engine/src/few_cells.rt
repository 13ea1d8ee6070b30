//! Items of groups of few cells, told cell by cell by masks.

ghost use Rattle.std.specs.Prelude.{◌≡◌, ◌≤◌, ◌^◌, ◌&&◌, true, if◌then◌else◌, count_by, length, map};
ghost use Rattle.std.specs.Simd.Lanes.{zip2};
ghost use Rattle.aggregates.specs.Tallies.{tally_of};
ghost use Rattle.kleene_filter.specs.Filters.{is_certain, truths_under};
ghost use Rattle.query_model.specs.Groups.{pairs_in_cell};
ghost use Rattle.query_model.specs.Queries.{Column};
ghost use Rattle.row_groups.specs.Partition.{digits_of};
ghost use Rattle.round_engine.specs.CellAnswers.{HasRoom, IsParted, StandForCells};
ghost use Rattle.round_engine.specs.Counts.{is_counted};
ghost use Rattle.round_engine.specs.Engines.{stage_of};
ghost use Rattle.round_engine.specs.KeptCells.{AreSumsOf};
ghost use Rattle.round_engine.specs.OneCell.{HoldMasks, IsPart};
ghost use Rattle.round_engine.specs.Selected.{is_by_masks};
ghost use Rattle.round_engine.specs.Stages.{IsOpenItem, IsOpenStage};

use crate::kept_cells::KeptCells;
use crate::one_cell::CellMasks;
use crate::selection::{leaves_out, select_part};
use aggregates::{Running, Tally};
use kleene_filter::Filter;
use known_column::LentColumns;
use plane_kernels::Mask;
use query_model::{Expr, Item, TypedQuery};
use row_groups::{Cells, cells_tell_keys};

// How many of some rows surely count: where their cell holds one key, those at which the condition surely holds.
fn count_sure_within(within: &Mask, filter: &Filter, certain: bool) -> u64
    requires { length within.now ≡ length filter.now.truths }
    ensures { result ≡ (if certain then count_by (λ b. b) (zip2 (λ a b. a && b) within.now (map is_certain filter.now.truths)) else 0) }
{
    if certain {
        within.count_and(filter.must())
    } else {
        0
    }
}

impl CellMasks {
    // What a count keeps of the cell's rows.
    fn count_part(
        &self,
        query: &TypedQuery,
        item: &Item,
        columns: &LentColumns<'_>,
        filter: &Filter,
        cell: u32,
        within: &Mask,
        certain: bool,
    ) -> Tally
        requires open_stage { IsOpenStage (stage_of query.now columns.now) }
        requires judged { filter.now.truths ≡ truths_under query.now.pred columns.now }
        requires counted { is_counted columns.now.frame item.now ≡ true }
        requires part { IsPart (stage_of query.now columns.now) cell certain within.now }
        ensures { result ≡ tally_of item.now.kind (pairs_in_cell query.now item.now cell columns.now.frame columns.now.known) }
    {
        Tally {
            certain: count_sure_within(within, filter, certain),
            all: within.count_and(filter.may()),
            ..Tally::none()
        }
    }

    // What an item over a bare column keeps of them.
    fn column_part(
        &mut self,
        query: &TypedQuery,
        item: &Item,
        column: u8,
        columns: &LentColumns<'_>,
        filter: &Filter,
        cell: u32,
        within: &Mask,
        certain: bool,
        kept: &mut Option<KeptCells>,
    ) -> Tally
        requires open_stage { IsOpenStage (stage_of query.now columns.now) }
        requires open_item { IsOpenItem columns.now.frame item.now }
        requires judged { filter.now.truths ≡ truths_under query.now.pred columns.now }
        requires within { length within.now ≡ columns.now.frame.rows }
        requires column { item.now.arg ≡ Column column }
        requires part { IsPart (stage_of query.now columns.now) cell certain within.now }
        requires masks { HoldMasks columns.now.frame.rows self.old }
        requires kept { AreSumsOf columns.now item.now kept.old }
        ensures kept { AreSumsOf columns.now item.now kept.new }
        ensures masks { HoldMasks columns.now.frame.rows self.new }
        ensures tally { result ≡ tally_of item.now.kind (pairs_in_cell query.now item.now cell columns.now.frame columns.now.known) }
    {
        let known = columns.column(column as usize);
        if leaves_out(filter, known) {
            self.selection.select_within(within, filter, known);
            self.selection
                .lend()
                .certain_if(certain, &self.none)
                .tally(item.kind, known, cell, kept, &mut self.added)
        } else {
            select_part(within, filter, known)
                .certain_if(certain, &self.none)
                .tally(item.kind, known, cell, kept, &mut self.added)
        }
    }

    // Makes each cell stand for its rows.
    pub(crate) fn fill_parts(
        &mut self,
        query: &TypedQuery,
        item: &Item,
        columns: &LentColumns<'_>,
        filter: &Filter,
        cells: &Cells,
        single: &[bool],
        running: &mut Running,
        kept: &mut Option<KeptCells>,
    )
        requires open_stage { IsOpenStage (stage_of query.now columns.now) }
        requires open_item { IsOpenItem columns.now.frame item.now }
        requires judged { filter.now.truths ≡ truths_under query.now.pred columns.now }
        requires by_masks { is_by_masks columns.now.frame item.now ≡ true }
        requires few { 2 ^ digits_of cells.now.parts ≤ 16 }
        requires parted { IsParted (stage_of query.now columns.now) cells.now single.now }
        requires masks { HoldMasks columns.now.frame.rows self.old }
        requires room { HasRoom (stage_of query.now columns.now) item.now running.old }
        requires kept { AreSumsOf columns.now item.now kept.old }
        ensures kept { AreSumsOf columns.now item.now kept.new }
        ensures masks { HoldMasks columns.now.frame.rows self.new }
        ensures stand { StandForCells (stage_of query.now columns.now) item.now running.new }
    {
        cells_tell_keys();
        running.begin(cells.count() as usize);
        for cell in 0..cells.count() {
            let within = cells.rows_of(cell);
            let certain = single[cell as usize];
            let tally = match &item.arg {
                Expr::Column(column) => self.column_part(
                    query, item, *column, columns, filter, cell, within, certain, kept,
                ),
                _ => self.count_part(query, item, columns, filter, cell, within, certain),
            };
            running.set(cell, tally);
        }
    }
}
