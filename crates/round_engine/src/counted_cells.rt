//! Sums and averages of groups of few cells, told cell by cell by counts of rows.

ghost use Rattle.std.specs.Prelude.{◌≡◌, ◌&&◌, if◌then◌else◌, length, map, IfSome, IsTrue};
ghost use Rattle.std.specs.Simd.Lanes.{zip2};
ghost use Rattle.aggregates.specs.Tallies.{tally_of};
ghost use Rattle.kleene_filter.specs.Filters.{is_certain, is_possible, truths_under};
ghost use Rattle.product_sums.specs.KeptProducts.{IsKeptProduct};
ghost use Rattle.query_model.specs.Groups.{pairs_in_cell};
ghost use Rattle.round_engine.specs.CellAnswers.{HasRoom, IsParted, StandForCells};
ghost use Rattle.round_engine.specs.CountedSums.{IsByCounts};
ghost use Rattle.round_engine.specs.Engines.{stage_of};
ghost use Rattle.round_engine.specs.OneCell.{HoldMasks, IsPart};
ghost use Rattle.round_engine.specs.Selected.{HasRows};
ghost use Rattle.round_engine.specs.Stages.{IsOpenItem, IsOpenStage};

use crate::counted_sums::is_by_counts;
use crate::one_cell::CellMasks;
use crate::selection::Selection;
use aggregates::{Running, Tally};
use kleene_filter::Filter;
use known_column::LentColumns;
use plane_kernels::Mask;
use product_sums::{CellOf, CountedRows, KeptProduct, kept_tally};
use query_model::{Item, TypedQuery};
use row_groups::{Cells, FEW_CELLS, cells_tell_keys};

// A cell among others, its rows, and whether those that count do so for certain.
#[derive(Clone, Copy)]
struct CellRows<'a> {
    place: CellOf,
    within: &'a Mask,
    certain: bool,
}

impl Selection {
    // Selects those of some rows at which a condition holds. Where `certain` is false, none of them surely counts.
    fn select_passing_within(&mut self, within: &Mask, filter: &Filter, certain: bool, none: &Mask)
        requires within { length within.now ≡ length filter.now.truths }
        requires none { length none.now ≡ length filter.now.truths }
        requires room { HasRows (length filter.now.truths) self.old }
        ensures may { self.new.may ≡ zip2 (λ a b. a && b) within.now (map is_possible filter.now.truths) }
        ensures must { self.new.must
            ≡ (if certain then zip2 (λ a b. a && b) within.now (map is_certain filter.now.truths) else none.now) }
    {
        self.may.copy_from(within);
        self.may.and_into(filter.may());
        if certain {
            self.must.copy_from(within);
            self.must.and_into(filter.must());
        } else {
            self.must.copy_from(none);
        }
    }
}

impl CellMasks {
    // What an item keeps of the cell's rows, where counts tell it, by what is kept of them from round to round.
    fn counted_part(
        &mut self,
        query: &TypedQuery,
        item: &Item,
        columns: &LentColumns<'_>,
        filter: &Filter,
        part: CellRows<'_>,
        kept: &mut Option<KeptProduct>,
    ) -> Option<Tally>
        requires open_stage { IsOpenStage (stage_of query.now columns.now) }
        requires open_item { IsOpenItem columns.now.frame item.now }
        requires judged { filter.now.truths ≡ truths_under query.now.pred columns.now }
        requires within { length part.within.now ≡ columns.now.frame.rows }
        requires by_counts { IsByCounts columns.now.frame item.now }
        requires part { IsPart (stage_of query.now columns.now) part.place.cell part.certain part.within.now }
        requires masks { HoldMasks columns.now.frame.rows self.old }
        requires kept { IfSome kept.old (IsKeptProduct columns.now item.now.arg) }
        ensures masks { HoldMasks columns.now.frame.rows self.new }
        ensures kept { IfSome kept.new (IsKeptProduct columns.now item.now.arg) }
        ensures tally { IfSome result (λ tally.
            tally ≡ tally_of item.now.kind (pairs_in_cell query.now item.now part.entry.place.cell columns.now.frame columns.now.known)) }
    {
        self.selection
            .select_passing_within(part.within, filter, part.certain, &self.none);
        self.selection.keep_valued(&item.arg, columns);
        let rows = CountedRows {
            may: &self.selection.may,
            must: &self.selection.must,
        };
        kept_tally(item.kind, &item.arg, columns, rows, kept, part.place)
    }

    // Makes each cell stand for its rows, where there are few cells and counts tell each.
    pub(crate) fn fill_counted(
        &mut self,
        query: &TypedQuery,
        item: &Item,
        columns: &LentColumns<'_>,
        filter: &Filter,
        cells: &Cells,
        single: &[bool],
        running: &mut Running,
        kept: &mut Option<KeptProduct>,
    ) -> bool
        requires open_stage { IsOpenStage (stage_of query.now columns.now) }
        requires open_item { IsOpenItem columns.now.frame item.now }
        requires judged { filter.now.truths ≡ truths_under query.now.pred columns.now }
        requires parted { IsParted (stage_of query.now columns.now) cells.now single.now }
        requires masks { HoldMasks columns.now.frame.rows self.old }
        requires room { HasRoom (stage_of query.now columns.now) item.now running.old }
        requires kept { IfSome kept.old (IsKeptProduct columns.now item.now.arg) }
        ensures kept { IfSome kept.new (IsKeptProduct columns.now item.now.arg) }
        ensures masks { HoldMasks columns.now.frame.rows self.new }
        ensures room { HasRoom (stage_of query.now columns.now) item.now running.new }
        ensures stand { IsTrue result → StandForCells (stage_of query.now columns.now) item.now running.new }
    {
        let total = cells.count();
        if total > FEW_CELLS {
            return false;
        }
        if !is_by_counts(item, columns, total, kept) {
            return false;
        }
        cells_tell_keys();
        running.begin(total as usize);
        for cell in 0..total {
            let within = cells.rows_of(cell);
            let certain = single[cell as usize];
            let part = CellRows {
                place: CellOf { cell, cells: total },
                within,
                certain,
            };
            match self.counted_part(query, item, columns, filter, part, kept) {
                Some(tally) => running.set(cell, tally),
                None => return false,
            }
        }
        true
    }
}
