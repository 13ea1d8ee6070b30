//! Sums and averages of expressions that counts of rows tell.

ghost use Rattle.std.specs.Prelude.{◌≡◌, ◌<◌, ◌≤◌, ◌&&◌, ℕ, not, length, map, IfSome, IsTrue};
ghost use Rattle.aggregates.specs.Selections.{has_row};
ghost use Rattle.kleene_filter.specs.Filters.{is_certain, is_possible, truths_under};
ghost use Rattle.product_sums.specs.KeptProducts.{IsKeptProduct};
ghost use Rattle.query_model.specs.declared.query.Shape.TheVariants.{Plain};
ghost use Rattle.query_model.specs.Knowledge.{ranges_of};
ghost use Rattle.query_model.specs.Meaning.{ReadsBelow};
ghost use Rattle.query_model.specs.Queries.{term_of};
ghost use Rattle.query_model.specs.Truths.{may_be_null, may_be_number, null_of};
ghost use Rattle.round_engine.specs.CountedSums.{is_untold, AreTold, IsByCounts, IsSetTo, IsTold};
ghost use Rattle.round_engine.specs.Engines.{stage_of};
ghost use Rattle.round_engine.specs.KeptProducts.{AreKeptProducts};
ghost use Rattle.round_engine.specs.Selected.{HasRows};
ghost use Rattle.round_engine.specs.Stages.{IsOpenItem, IsOpenStage};

use crate::row_sums::row_sum;
use crate::selection::Selection;
use aggregates::{Running, Tally};
use kleene_filter::Filter;
use known_column::LentColumns;
use product_sums::{
    CellOf, CountedRows, KeptProduct, count_of_counts, is_product_sum, keeps_sign, kept_tally,
};
use query_model::{Expr, Item, ItemKind, TypedQuery};

// So many counts of rows a block of 512 cost about what its rows cost one by one. It affects speed alone.
const MOST_COUNTS: u64 = 800;

// Whether few counts of a block tell the item in so many cells. Of sums that are kept a round makes a part of them alone, and each cell
// says whether that is soon done.
fn takes_few_counts(
    item: &Item,
    columns: &LentColumns<'_>,
    cells: u32,
    kept: &Option<KeptProduct>,
) -> bool {
    match kept {
        Some(_) => true,
        None => {
            let counts = count_of_counts(&item.arg, columns);
            counts.saturating_mul(u64::from(cells)) <= MOST_COUNTS
        }
    }
}

// Whether counts of rows may tell the item in so many cells: a sum or an average of a sum of products that keeps its sign.
pub(crate) fn is_by_counts(
    item: &Item,
    columns: &LentColumns<'_>,
    cells: u32,
    kept: &Option<KeptProduct>,
) -> bool
    requires { IsOpenItem columns.now.frame item.now }
    ensures { IsTrue result → IsByCounts columns.now.frame item.now }
{
    match item.kind {
        ItemKind::Sum | ItemKind::Avg => {
            takes_few_counts(item, columns, cells, kept)
                && is_product_sum(&item.arg, columns)
                && keeps_sign(&item.arg, columns)
        }
        ItemKind::Count | ItemKind::Min | ItemKind::Max => false,
    }
}

impl Selection {
    // Keeps the rows at which the expression may have a value, and of those that surely count the ones at which it surely has.
    pub(crate) fn keep_valued(&mut self, expr: &Expr, columns: &LentColumns<'_>)
        requires columns { ReadsBelow (length columns.now.frame.columns) (term_of expr.now) }
        requires room { HasRows columns.now.frame.rows self.old }
        ensures room { HasRows columns.now.frame.rows self.new }
        ensures may { (row : ℕ) → row < columns.now.frame.rows → has_row self.new.may row
            ≡ (has_row self.old.may row && may_be_number (null_of (term_of expr.now) (ranges_of columns.now.frame columns.now.known row))) }
        ensures must { (row : ℕ) → row < columns.now.frame.rows → has_row self.new.must row
            ≡ (has_row self.old.must row
            && not (may_be_null (null_of (term_of expr.now) (ranges_of columns.now.frame columns.now.known row)))) }
    {
        match expr {
            Expr::Column(column) => {
                let known = columns.column(*column as usize);
                self.may.and_into(known.possible());
                self.must.and_into(known.sure());
            }
            Expr::Literal(_) => {}
            Expr::Add(a, b) | Expr::Sub(a, b) | Expr::Mul(a, b) => {
                self.keep_valued(a, columns);
                self.keep_valued(b, columns);
            }
        }
    }

    // Selects the rows at which a condition holds.
    fn select_passing(&mut self, filter: &Filter)
        requires room { HasRows (length filter.now.truths) self.old }
        ensures may { self.new.may ≡ map is_possible filter.now.truths }
        ensures must { self.new.must ≡ map is_certain filter.now.truths }
    {
        self.may.copy_from(filter.may());
        self.must.copy_from(filter.must());
    }

    // What the item keeps of its rows, where counts tell it.
    pub(crate) fn counted(
        &mut self,
        query: &TypedQuery,
        item: &Item,
        columns: &LentColumns<'_>,
        filter: &Filter,
        kept: &mut Option<KeptProduct>,
    ) -> Option<Tally>
        requires open_stage { IsOpenStage (stage_of query.now columns.now) }
        requires plain { query.now.shape ≡ Plain }
        requires open_item { IsOpenItem columns.now.frame item.now }
        requires judged { filter.now.truths ≡ truths_under query.now.pred columns.now }
        requires room { HasRows columns.now.frame.rows self.old }
        requires kept { IfSome kept.old (IsKeptProduct columns.now item.now.arg) }
        ensures room { HasRows columns.now.frame.rows self.new }
        ensures kept { IfSome kept.new (IsKeptProduct columns.now item.now.arg) }
        ensures told { IsTold (stage_of query.now columns.now) item.now result }
    {
        if !is_by_counts(item, columns, 1, kept) {
            return None;
        }
        self.select_passing(filter);
        self.keep_valued(&item.arg, columns);
        let rows = CountedRows {
            may: &self.may,
            must: &self.must,
        };
        let place = CellOf { cell: 0, cells: 1 };
        kept_tally(item.kind, &item.arg, columns, rows, kept, place)
    }
}

// Whether no tally is told.
pub(crate) fn is_untold(told: &Option<Tally>) -> bool
    ensures { result ≡ is_untold told.now }
{
    match told {
        None => true,
        Some(_) => false,
    }
}

// What an item keeps of its rows, where counts or numbers of 64 bits tell it.
fn told_sum(
    query: &TypedQuery,
    item: &Item,
    columns: &LentColumns<'_>,
    filter: &Filter,
    selection: &mut Selection,
    kept: &mut Option<KeptProduct>,
) -> Option<Tally>
    requires open_stage { IsOpenStage (stage_of query.now columns.now) }
    requires plain { query.now.shape ≡ Plain }
    requires open_item { IsOpenItem columns.now.frame item.now }
    requires judged { filter.now.truths ≡ truths_under query.now.pred columns.now }
    requires room { HasRows columns.now.frame.rows selection.old }
    requires kept { IfSome kept.old (IsKeptProduct columns.now item.now.arg) }
    ensures room { HasRows columns.now.frame.rows selection.new }
    ensures kept { IfSome kept.new (IsKeptProduct columns.now item.now.arg) }
    ensures told { IsTold (stage_of query.now columns.now) item.now result }
{
    let counted = selection.counted(query, item, columns, filter, kept);
    if is_untold(&counted) {
        row_sum(query, item, columns, filter)
    } else {
        counted
    }
}

// The tally of each marked item that is told.
pub(crate) fn told_sums(
    query: &TypedQuery,
    columns: &LentColumns<'_>,
    filter: &Filter,
    marks: &[bool; 16],
    selection: &mut Selection,
    kept: &mut [Option<KeptProduct>],
) -> [Option<Tally>; 16]
    requires open_stage { IsOpenStage (stage_of query.now columns.now) }
    requires plain { query.now.shape ≡ Plain }
    requires judged { filter.now.truths ≡ truths_under query.now.pred columns.now }
    requires room { HasRows columns.now.frame.rows selection.old }
    requires kept { AreKeptProducts columns.now query.now.items kept.old }
    ensures room { HasRows columns.now.frame.rows selection.new }
    ensures kept { AreKeptProducts columns.now query.now.items kept.new }
    ensures told { AreTold (stage_of query.now columns.now) result }
{
    let items = query.items.as_slice();
    let mut told = [None; 16];
    for i in 0..items.len() {
        if marks[i] {
            told[i] = told_sum(query, &items[i], columns, filter, selection, &mut kept[i]);
        }
    }
    told
}

// Makes the one cell keep the tally that is told.
pub(crate) fn set_told(told: Option<Tally>, running: &mut Running)
    requires { 1 ≤ running.old.room }
    ensures { IsSetTo told running.old running.new }
{
    if let Some(tally) = told {
        running.begin(1);
        running.set(0, tally);
    }
}
