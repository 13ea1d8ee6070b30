//! What an engine tells of rows, of items, and of how far it has come.

ghost use Rattle.std.specs.Prelude.{◌≡◌, ◌≢◌, ◌<◌, ◌^◌, [], length, slice_get, IfSome};
ghost use Rattle.interval_calc.specs.Intervals.{Within, interval_of};
ghost use Rattle.daq_table.specs.declared.table_head.Head.{Head};
ghost use Rattle.daq_table.specs.Tables.{ends_at, frame_of};
ghost use Rattle.query_model.specs.declared.query.ItemKind.TheVariants.{Avg};
ghost use Rattle.query_model.specs.declared.query.Shape.TheVariants.{Plain};
ghost use Rattle.query_model.specs.Bounds.{average_under, bound_under, fractions_of};
ghost use Rattle.query_model.specs.Knowledge.{ranges_of};
ghost use Rattle.query_model.specs.Truths.{null_of, span_of, truth_of};
ghost use Rattle.query_model.specs.Validity.{FitsHead, declared_range};
ghost use Rattle.round_engine.specs.Narrowness.{is_narrow};
ghost use Rattle.round_engine.specs.Progresses.{IsProgress};
ghost use Rattle.round_engine.specs.Promises.{IsCertainAverage, IsCertainBound, IsShownWithin};

use crate::engine_view::EngineView;
use interval_calc::Interval;
use plane_schedule::{Nearness, Progress};
use query_model::{
    AverageBound, Bound, Nullity, Truth, average_bounds_become_exact_on_tables,
    average_bounds_contain_on_tables, bounds_are_extremes_on_tables, bounds_become_exact_on_tables,
    bounds_contain_on_tables, fitting_heads_have_parts, words_become_exact,
};
use row_values::{null_of, span_of};

impl EngineView<'_> {
    /// The bound of an item that is no average: what is computed from the prefixes alone, and what it says of the answer.
    pub fn plain(&self, item: usize) -> Bound
        requires plain { self.now.query.shape ≡ Plain }
        requires item { item < length self.now.query.items }
        requires kind { IfSome (slice_get self.now.query.items item) (λ i. i.kind ≢ Avg) }
        ensures bound { IfSome (slice_get self.now.query.items item) (λ i.
            result ≡ bound_under self.now.query i [] self.now.frame self.now.known) }
        ensures certain { IfSome (slice_get self.now.query.items item) (λ i.
            (head : Head) → FitsHead self.now.query self.now.frame head → IsCertainBound self.now i [] (frame_of head)) }
        ensures shown { IfSome (slice_get self.now.query.items item) (λ i. IsShownWithin self.now.frame i.face result) }
    {
        bounds_contain_on_tables();
        bounds_are_extremes_on_tables();
        bounds_become_exact_on_tables();
        words_become_exact();
        fitting_heads_have_parts();
        self.follower.state.answers.totals().bound(item)
    }

    /// The bound of an average.
    pub fn average(&self, item: usize) -> AverageBound
        requires plain { self.now.query.shape ≡ Plain }
        requires item { item < length self.now.query.items }
        requires kind { IfSome (slice_get self.now.query.items item) (λ i. i.kind ≡ Avg) }
        ensures bound { IfSome (slice_get self.now.query.items item) (λ i.
            fractions_of result ≡ average_under self.now.query i [] self.now.frame self.now.known) }
        ensures certain { IfSome (slice_get self.now.query.items item) (λ i.
            (head : Head) → FitsHead self.now.query self.now.frame head → IsCertainAverage self.now i [] (frame_of head)) }
    {
        average_bounds_contain_on_tables();
        average_bounds_become_exact_on_tables();
        words_become_exact();
        fitting_heads_have_parts();
        self.follower.state.answers.totals().average(item)
    }

    /// Whether each answer is known to be there or not, and where it is there, the ends of its bound are at most so far apart.
    pub fn narrow(&self, near: Nearness) -> bool
        requires { near.width < 2 ^ 63 }
        ensures { result ≡ is_narrow near self.now }
    {
        self.follower
            .state
            .answers
            .is_narrow(near, &self.follower.query, &self.columns)
    }

    /// How far the query has come.
    pub fn progress(&self) -> Progress
        ensures { IsProgress self.now result }
    {
        self.follower
            .state
            .progress(&self.follower.query, &self.columns)
    }

    /// What is known of the condition at a row.
    pub fn truth(&self, row: usize) -> Truth
        requires { row < self.now.frame.rows }
        ensures { result ≡ truth_of self.now.query.pred (ranges_of self.now.frame self.now.known row) }
    {
        if self.follower.state.filter.must().get(row) {
            Truth::True
        } else if self.follower.state.filter.may().get(row) {
            Truth::Unknown
        } else {
            Truth::False
        }
    }

    /// Where the argument of an item lies at a row, if it is not null.
    pub fn span(&self, item: usize, row: usize) -> Interval
        requires item { item < length self.now.query.items }
        requires row { row < self.now.frame.rows }
        ensures { IfSome (slice_get self.now.query.items item) (λ i.
            interval_of result ≡ span_of i.arg (ranges_of self.now.frame self.now.known row)) }
    {
        let query = &self.follower.query;
        let item = &query.items.as_slice()[item];
        span_of(&item.arg, row, &self.columns)
    }

    /// Whether the argument of an item is null at a row.
    pub fn missing(&self, item: usize, row: usize) -> Nullity
        requires item { item < length self.now.query.items }
        requires row { row < self.now.frame.rows }
        ensures { IfSome (slice_get self.now.query.items item) (λ i.
            result ≡ null_of i.arg (ranges_of self.now.frame self.now.known row)) }
    {
        let query = &self.follower.query;
        let item = &query.items.as_slice()[item];
        null_of(&item.arg, row, &self.columns)
    }

    /// Where the value of a column lies at a row, if it is not null.
    pub fn range(&self, column: usize, row: usize) -> Interval
        requires column { column < length self.now.query.columns }
        requires row { row < self.now.frame.rows }
        ensures range { interval_of result ≡ (ranges_of self.now.frame self.now.known row column).numbers }
        ensures declared { Within (declared_range (ends_at self.now.frame column)).numbers (interval_of result).low
            × Within (declared_range (ends_at self.now.frame column)).numbers (interval_of result).high }
    {
        self.columns.range(column, row)
    }

    /// Whether the value of a column is null at a row.
    pub fn null_at(&self, column: usize, row: usize) -> Nullity
        requires column { column < length self.now.query.columns }
        requires row { row < self.now.frame.rows }
        ensures { result ≡ (ranges_of self.now.frame self.now.known row column).null }
    {
        self.columns.missing(column, row)
    }
}
