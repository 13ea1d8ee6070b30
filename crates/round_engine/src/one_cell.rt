//! Items of groups of which all rows are in one cell, told by masks.

ghost use Rattle.std.specs.Prelude.{◌≡◌, true, if◌then◌else◌, count_by, map, IfOk};
ghost use Rattle.aggregates.specs.Tallies.{tally_of};
ghost use Rattle.kleene_filter.specs.Filters.{is_certain, truths_under};
ghost use Rattle.query_model.specs.Groups.{pairs_in_cell};
ghost use Rattle.query_model.specs.Queries.{Column};
ghost use Rattle.round_engine.specs.CellAnswers.{HasRoom, StandForCells};
ghost use Rattle.round_engine.specs.Counts.{is_counted};
ghost use Rattle.round_engine.specs.Engines.{stage_of};
ghost use Rattle.round_engine.specs.KeptCells.{AreSumsOf};
ghost use Rattle.round_engine.specs.OneCell.{HoldMasks, IsAlone};
ghost use Rattle.round_engine.specs.Selected.{is_by_masks};
ghost use Rattle.round_engine.specs.Stages.{IsOpenItem, IsOpenStage};

use crate::kept_cells::KeptCells;
use crate::selection::{Selected, Selection, select_all};
use aggregates::{CellCounts, CellSums, Running, Tally};
use digit_sums::{CellMoves, CellOnes, DigitSums};
use kleene_filter::Filter;
use known_column::LentColumns;
use plane_kernels::Mask;
use query_model::{Expr, Item, TypedQuery};
use std::alloc::{AllocError, Global};

// Room for the rows of a cell that give a value, and for those whose ends are added up; and a mask of no row. Beside it
// room for the counts and the sums of many cells.
#[derive(Drop)]
pub(crate) struct CellMasks {
    pub(crate) selection: Selection,
    pub(crate) added: Mask,
    pub(crate) none: Mask,
    pub(crate) counts: CellCounts,
    pub(crate) sums: CellSums,
    pub(crate) digits: DigitSums,
    pub(crate) ones: CellOnes,
    pub(crate) moves: CellMoves,
}

impl<'a> Selected<'a> {
    // The same rows; where `certain` is false, none of them surely counts.
    pub(crate) fn certain_if(self, certain: bool, none: &'a Mask) -> Selected<'a>
        ensures may { result.may ≡ self.entry.may }
        ensures must { result.must ≡ (if certain then self.entry.must else none.now) }
    {
        Selected {
            may: self.may,
            must: if certain { self.must } else { none },
        }
    }
}

// How many rows surely count: where the cell holds one key, those at which the condition surely holds.
fn count_sure(filter: &Filter, certain: bool) -> u64
    ensures { result ≡ (if certain then count_by (λ b. b) (map is_certain filter.now.truths) else 0) }
{
    if certain { filter.must().count() } else { 0 }
}

// What a count keeps of the rows at which the condition holds.
fn count_rows(
    query: &TypedQuery,
    item: &Item,
    columns: &LentColumns<'_>,
    filter: &Filter,
    certain: bool,
) -> Tally
    requires open_stage { IsOpenStage (stage_of query.now columns.now) }
    requires judged { filter.now.truths ≡ truths_under query.now.pred columns.now }
    requires counted { is_counted columns.now.frame item.now ≡ true }
    requires alone { IsAlone (stage_of query.now columns.now) certain }
    ensures { result ≡ tally_of item.now.kind (pairs_in_cell query.now item.now 0 columns.now.frame columns.now.known) }
{
    Tally {
        certain: count_sure(filter, certain),
        all: filter.may().count(),
        ..Tally::none()
    }
}

impl CellMasks {
    // Room for so many rows, and for so many cells.
    pub(crate) fn open(alloc: Global, rows: usize, cells: usize) -> Result<CellMasks, AllocError>
        ensures { IfOk result (HoldMasks rows) }
    {
        Ok(CellMasks {
            selection: Selection::open(alloc, rows)?,
            added: Mask::none(alloc, rows)?,
            none: Mask::none(alloc, rows)?,
            counts: CellCounts::open(alloc, cells)?,
            sums: CellSums::open(alloc, cells)?,
            digits: DigitSums::open(alloc, cells)?,
            ones: CellOnes::open(alloc, cells)?,
            moves: CellMoves::open(alloc, cells)?,
        })
    }

    // What an item over a bare column keeps of the rows. They count for certain only where the cell holds one key.
    fn tally_column(
        &mut self,
        query: &TypedQuery,
        item: &Item,
        column: u8,
        columns: &LentColumns<'_>,
        filter: &Filter,
        certain: bool,
        kept: &mut Option<KeptCells>,
    ) -> Tally
        requires open_stage { IsOpenStage (stage_of query.now columns.now) }
        requires open_item { IsOpenItem columns.now.frame item.now }
        requires judged { filter.now.truths ≡ truths_under query.now.pred columns.now }
        requires column { item.now.arg ≡ Column column }
        requires alone { IsAlone (stage_of query.now columns.now) certain }
        requires masks { HoldMasks columns.now.frame.rows self.old }
        requires kept { AreSumsOf columns.now item.now kept.old }
        ensures kept { AreSumsOf columns.now item.now kept.new }
        ensures masks { HoldMasks columns.now.frame.rows self.new }
        ensures tally { result ≡ tally_of item.now.kind (pairs_in_cell query.now item.now 0 columns.now.frame columns.now.known) }
    {
        let known = columns.column(column as usize);
        if known.nullable() {
            self.selection.select(filter, known);
            self.selection
                .lend()
                .certain_if(certain, &self.none)
                .tally(item.kind, known, 0, kept, &mut self.added)
        } else {
            select_all(filter, known)
                .certain_if(certain, &self.none)
                .tally(item.kind, known, 0, kept, &mut self.added)
        }
    }

    // Makes the one cell stand for all rows.
    pub(crate) fn fill(
        &mut self,
        query: &TypedQuery,
        item: &Item,
        columns: &LentColumns<'_>,
        filter: &Filter,
        certain: bool,
        running: &mut Running,
        kept: &mut Option<KeptCells>,
    )
        requires open_stage { IsOpenStage (stage_of query.now columns.now) }
        requires open_item { IsOpenItem columns.now.frame item.now }
        requires judged { filter.now.truths ≡ truths_under query.now.pred columns.now }
        requires by_masks { is_by_masks columns.now.frame item.now ≡ true }
        requires alone { IsAlone (stage_of query.now columns.now) certain }
        requires masks { HoldMasks columns.now.frame.rows self.old }
        requires room { HasRoom (stage_of query.now columns.now) item.now running.old }
        requires kept { AreSumsOf columns.now item.now kept.old }
        ensures kept { AreSumsOf columns.now item.now kept.new }
        ensures masks { HoldMasks columns.now.frame.rows self.new }
        ensures stand { StandForCells (stage_of query.now columns.now) item.now running.new }
    {
        running.begin(1);
        let tally = match &item.arg {
            Expr::Column(column) => {
                self.tally_column(query, item, *column, columns, filter, certain, kept)
            }
            _ => count_rows(query, item, columns, filter, certain),
        };
        running.set(0, tally);
    }
}
