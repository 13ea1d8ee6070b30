//! What an engine tells of the cells of groups.

ghost use Rattle.std.specs.Prelude.{◌≡◌, ◌≢◌, ◌<◌, ◌↔◌, length, slice_get, IfSome, IsSome, IsTrue};
ghost use Rattle.daq_table.specs.declared.table_head.Head.{Head};
ghost use Rattle.daq_table.specs.Tables.{frame_of};
ghost use Rattle.query_model.specs.declared.query.ItemKind.TheVariants.{Avg};
ghost use Rattle.query_model.specs.Answers.{groups_of};
ghost use Rattle.query_model.specs.Bounds.{fractions_of};
ghost use Rattle.query_model.specs.Validity.{FitsHead};
ghost use Rattle.row_groups.specs.Partition.{is_legal_cell, ranges_in, ranges_of_cell};
ghost use Rattle.round_engine.specs.Cells.{AreDeclared, IsInCell, SpeaksFor, absence_in_cell};
ghost use Rattle.round_engine.specs.Cells.{average_in_cell, bound_in_cell, cells_in, parts_in};
ghost use Rattle.round_engine.specs.Promises.{IsCertainAverage, IsCertainBound, IsCertainKey, IsShownWithin};
ghost use Rattle.round_engine.specs.Stages.{IsGrouped};

use crate::engine_view::EngineView;
use query_model::{
    AverageBound, Bound, Nullity, average_bounds_become_exact_on_tables,
    average_bounds_contain_on_tables, bounds_are_extremes_on_tables, bounds_become_exact_on_tables,
    bounds_contain_on_tables, fitting_heads_have_parts, keys_have_ranges, legal_cells_have_keys,
    pairs_go_by_cells, results_are_told_on_tables, words_become_exact,
};
use row_groups::{CellKeys, cells_tell_keys};

impl EngineView<'_> {
    /// How many cells the keys are in: each has the keys whose parts share the digits that were read.
    pub fn cells(&self) -> u32
        requires grouped { IsGrouped self.now.query.shape }
        ensures cells { result ≡ cells_in self.now }
    {
        self.follower.state.answers.groups().count()
    }

    /// What the keys of a cell may be, or none where it has no keys.
    pub fn cell_keys(&self, cell: u32) -> Option<CellKeys>
        requires grouped { IsGrouped self.now.query.shape }
        requires cell { cell < cells_in self.now }
        ensures legal { IsSome result ↔ IsTrue (is_legal_cell (parts_in self.now) cell) }
        ensures keys { IfSome result (λ keys. ranges_in keys ≡ ranges_of_cell (parts_in self.now) cell) }
        ensures declared { IfSome result (λ keys. AreDeclared self.now.frame (groups_of self.now.query.shape) (ranges_in keys)) }
        ensures speaks { (key : _) → IsInCell self.now cell key → SpeaksFor self.now cell key }
    {
        legal_cells_have_keys();
        keys_have_ranges();
        pairs_go_by_cells();
        cells_tell_keys();
        self.follower.state.answers.groups().keys(cell)
    }

    /// Whether the keys of a cell are missing in the result: never where a row surely counts for its one key, always where no row
    /// may count for any of its keys.
    pub fn cell_absence(&self, cell: u32) -> Nullity
        requires grouped { IsGrouped self.now.query.shape }
        requires cell { cell < cells_in self.now }
        ensures absence { result ≡ absence_in_cell self.now cell }
        ensures certain { (key : _) → IsInCell self.now cell key → (head : Head) → FitsHead self.now.query self.now.frame head →
            IsCertainKey self.now key (frame_of head) }
    {
        results_are_told_on_tables();
        words_become_exact();
        fitting_heads_have_parts();
        self.follower.state.answers.groups().absence(cell)
    }

    /// The bound of an item that is no average, for each key of a cell.
    pub fn cell_bound(&self, cell: u32, item: usize) -> Bound
        requires grouped { IsGrouped self.now.query.shape }
        requires cell { cell < cells_in self.now }
        requires item { item < length self.now.query.items }
        requires kind { IfSome (slice_get self.now.query.items item) (λ i. i.kind ≢ Avg) }
        ensures bound { IfSome (slice_get self.now.query.items item) (λ i. result ≡ bound_in_cell self.now i cell) }
        ensures certain { IfSome (slice_get self.now.query.items item) (λ i.
            (key : _) → IsInCell self.now cell key → (head : Head) → FitsHead self.now.query self.now.frame head →
            IsCertainBound self.now i key (frame_of head)) }
        ensures shown { IfSome (slice_get self.now.query.items item) (λ i. IsShownWithin self.now.frame i.face result) }
    {
        bounds_contain_on_tables();
        bounds_are_extremes_on_tables();
        bounds_become_exact_on_tables();
        words_become_exact();
        fitting_heads_have_parts();
        self.follower.state.answers.groups().bound(cell, item)
    }

    /// The bound of an average, for each key of a cell.
    pub fn cell_average(&self, cell: u32, item: usize) -> AverageBound
        requires grouped { IsGrouped self.now.query.shape }
        requires cell { cell < cells_in self.now }
        requires item { item < length self.now.query.items }
        requires kind { IfSome (slice_get self.now.query.items item) (λ i. i.kind ≡ Avg) }
        ensures bound { IfSome (slice_get self.now.query.items item) (λ i. fractions_of result ≡ average_in_cell self.now i cell) }
        ensures certain { IfSome (slice_get self.now.query.items item) (λ i.
            (key : _) → IsInCell self.now cell key → (head : Head) → FitsHead self.now.query self.now.frame head →
            IsCertainAverage self.now i key (frame_of head)) }
    {
        average_bounds_contain_on_tables();
        average_bounds_become_exact_on_tables();
        words_become_exact();
        fitting_heads_have_parts();
        self.follower.state.answers.groups().average(cell, item)
    }
}
