//! The answers of a query without groups and order.

ghost use Rattle.std.specs.Prelude.{◌≡◌, ◌<◌, ◌+◌, ◌*◌, ◌^◌, ℕ, min, false, List, length, slice_get, Some, IfOk};
ghost use Rattle.aggregates.specs.Runnings.{StandsFor};
ghost use Rattle.kleene_filter.specs.Filters.{truths_under};
ghost use Rattle.query_model.specs.declared.query.Shape.TheVariants.{Plain};
ghost use Rattle.query_model.specs.Bounds.{Pair};
ghost use Rattle.query_model.specs.Queries.{term_of};
ghost use Rattle.round_engine.specs.declared.item_bound.ItemBound.TheVariants.{Fractions, Numbers};
ghost use Rattle.round_engine.specs.CountedSums.{AreTold};
ghost use Rattle.round_engine.specs.Engines.{stage_of};
ghost use Rattle.round_engine.specs.KeptProducts.{AreKeptProducts};
ghost use Rattle.round_engine.specs.KeptItems.{AreKept, HoldItems, IsKeptOf};
ghost use Rattle.round_engine.specs.Narrowness.{is_narrow};
ghost use Rattle.round_engine.specs.Moves.{is_marked};
ghost use Rattle.round_engine.specs.Selected.{HaveRows, is_by_masks, is_column};
ghost use Rattle.round_engine.specs.Stages.{IsOpenItem, IsOpenStage, Stage};
ghost use Rattle.round_engine.specs.Totals.{AreBlank, AreFilled, AreFilledBelow, AreSomeTotals, AreTotals, AreTotalsBeside};
ghost use Rattle.round_engine.specs.Totals.{HasFractions, HasNumbers, HaveRoom, IsBoundOf, IsFilledBelow, IsTotal, AreAdded};

use crate::counted_sums::{is_untold, set_told, told_sums};
use crate::counts::{bound_of_counts, is_counted};
use crate::filling::fill_block;
use crate::item_bound::ItemBound;
use crate::kept_items::{KeptItem, open_items};
use crate::row_masks::RowMasks;
use aggregates::{Running, Tally};
use kleene_filter::Filter;
use known_column::{LentColumns, RowBlock};
use plane_schedule::Nearness;
use product_sums::KeptProduct;
use query_model::{AverageBound, Bound, Expr, Item, ItemKind, Nullity, TypedQuery, pairs_are_few};
use row_values::BlockValues;
use std::alloc::{AllocError, Global};

// The bound of each item, room to add its rows one by one or to tell it by masks, and what is kept of it: of its sum or its extreme over a
// bare column, or of the sum of a product.
#[derive(Drop)]
pub(crate) struct Totals {
    bounds: Vec<ItemBound>,
    runnings: Vec<Running>,
    masks: RowMasks,
    kept: Vec<KeptItem>,
    products: Vec<Option<KeptProduct>>,
}

// Leaves room for the rows of each item, of which none is added.
fn begin_each(query: &TypedQuery, runnings: &mut [Running])
    requires { HaveRoom query.now.items runnings.old }
    ensures { AreBlank query.now.items runnings.new }
{
    for i in 0..runnings.len() {
        runnings[i].begin(1);
    }
}

// Whether an expression is a bare column.
pub(crate) fn is_column(expr: &Expr) -> bool
    ensures { result ≡ is_column (term_of expr.now) }
{
    match expr {
        Expr::Column(_) => true,
        Expr::Literal(_) | Expr::Add(_, _) | Expr::Sub(_, _) | Expr::Mul(_, _) => false,
    }
}

// Whether masks tell the bound of an item.
pub(crate) fn is_by_masks(item: &Item, columns: &LentColumns<'_>) -> bool
    requires { IsOpenItem columns.now.frame item.now }
    ensures { result ≡ is_by_masks columns.now.frame item.now }
{
    is_column(&item.arg) || is_counted(item, columns)
}

// The marked items whose bound no masks tell: of these alone a tally is asked for.
fn asked_items(query: &TypedQuery, columns: &LentColumns<'_>, marks: &[bool; 16]) -> [bool; 16]
    requires { IsOpenStage (stage_of query.now columns.now) }
{
    let items = query.items.as_slice();
    let mut asked = [false; 16];
    for i in 0..items.len() {
        asked[i] = marks[i] & !is_by_masks(&items[i], columns);
    }
    asked
}

// The marked items whose rows are added one by one: those whose bound no masks tell, and of which no tally is told.
fn added_items(
    query: &TypedQuery,
    columns: &LentColumns<'_>,
    marks: &[bool; 16],
    told: &[Option<Tally>; 16],
) -> [bool; 16]
    requires { IsOpenStage (stage_of query.now columns.now) }
    ensures { AreAdded columns.now.frame query.now.items marks.now told.now result }
{
    let items = query.items.as_slice();
    let mut added = [false; 16];
    for i in 0..items.len() {
        let item = &items[i];
        added[i] = marks[i] & (!is_by_masks(item, columns) & is_untold(&told[i]));
    }
    added
}

// Adds the rows of a block to each marked item.
fn add_block(
    query: &TypedQuery,
    columns: &LentColumns<'_>,
    filter: &Filter,
    number: usize,
    marks: &[bool; 16],
    block: &mut RowBlock,
    values: &mut BlockValues,
    runnings: &mut [Running],
)
    requires open_stage { IsOpenStage (stage_of query.now columns.now) }
    requires plain { query.now.shape ≡ Plain }
    requires judged { filter.now.truths ≡ truths_under query.now.pred columns.now }
    requires rows { 64 * number < columns.now.frame.rows }
    requires same { block.old.frame.columns ≡ columns.now.frame.columns }
    requires filled { AreFilledBelow (stage_of query.now columns.now) marks.now (64 * number) runnings.old }
    ensures same { block.new.frame.columns ≡ columns.now.frame.columns }
    ensures filled { AreFilledBelow (stage_of query.now columns.now) marks.now
        (min (64 * number + 64) columns.now.frame.rows) runnings.new }
{
    for i in 0..runnings.len() {
        if marks[i] {
            let item = &query.items.as_slice()[i];
            fill_block(
                query,
                item,
                columns,
                filter,
                number,
                block,
                values,
                &mut runnings[i],
            );
        }
    }
}

// Whether an item is marked.
fn some_marked(marks: &[bool; 16]) -> bool
    ensures { result ≡ false → (item : ℕ) → is_marked marks.now item ≡ false }
{
    for item in 0..16 {
        if marks[item] {
            return true;
        }
    }
    false
}

// Adds all rows to each marked item of which none is added. A block of whose rows none may pass is not read.
fn fill_each(
    query: &TypedQuery,
    columns: &LentColumns<'_>,
    filter: &Filter,
    block: &mut RowBlock,
    marks: &[bool; 16],
    runnings: &mut [Running],
)
    requires open_stage { IsOpenStage (stage_of query.now columns.now) }
    requires plain { query.now.shape ≡ Plain }
    requires judged { filter.now.truths ≡ truths_under query.now.pred columns.now }
    requires blank { AreBlank query.now.items runnings.old }
    requires same { block.old.frame.columns ≡ columns.now.frame.columns }
    ensures same { block.new.frame.columns ≡ columns.now.frame.columns }
    ensures filled { AreFilledBelow (stage_of query.now columns.now) marks.now columns.now.frame.rows runnings.new }
{
    if !some_marked(marks) {
        return;
    }
    let mut values = BlockValues::room();
    for number in 0..columns.rows().div_ceil(64) {
        if filter.may().word(number) != 0 {
            add_block(
                query,
                columns,
                filter,
                number,
                marks,
                block,
                &mut values,
                runnings,
            );
        }
    }
}

// Makes the one cell of each item that is told stand for all rows.
fn set_each(
    query: &TypedQuery,
    columns: &LentColumns<'_>,
    marks: &[bool; 16],
    told: &[Option<Tally>; 16],
    added: &[bool; 16],
    runnings: &mut [Running],
)
    requires open_stage { IsOpenStage (stage_of query.now columns.now) }
    requires told { AreTold (stage_of query.now columns.now) told.now }
    requires added { AreAdded columns.now.frame query.now.items marks.now told.now added.now }
    requires filled { AreFilledBelow (stage_of query.now columns.now) added.now columns.now.frame.rows runnings.old }
    ensures filled { AreFilled (stage_of query.now columns.now) marks.now runnings.new }
    ensures room { HaveRoom query.now.items runnings.new }
{
    let items = query.items.as_slice();
    for i in 0..items.len() {
        set_told(told[i], &mut runnings[i]);
    }
}

// Adds all rows to each marked item that no masks tell: by the tally that is told of it, or one by one.
fn add_each(
    query: &TypedQuery,
    columns: &LentColumns<'_>,
    filter: &Filter,
    block: &mut RowBlock,
    marks: &[bool; 16],
    told: &[Option<Tally>; 16],
    runnings: &mut [Running],
)
    requires open_stage { IsOpenStage (stage_of query.now columns.now) }
    requires plain { query.now.shape ≡ Plain }
    requires judged { filter.now.truths ≡ truths_under query.now.pred columns.now }
    requires told { AreTold (stage_of query.now columns.now) told.now }
    requires blank { AreBlank query.now.items runnings.old }
    requires same { block.old.frame.columns ≡ columns.now.frame.columns }
    ensures same { block.new.frame.columns ≡ columns.now.frame.columns }
    ensures filled { AreFilled (stage_of query.now columns.now) marks.now runnings.new }
    ensures room { HaveRoom query.now.items runnings.new }
{
    let added = added_items(query, columns, marks, told);
    fill_each(query, columns, filter, block, &added, runnings);
    set_each(query, columns, marks, told, &added, runnings);
}

// The bound of an item all of whose rows are added.
fn bound_of_rows(item: &Item, running: &Running) -> ItemBound
    requires kind { running.now.kind ≡ item.now.kind }
    requires cell { length running.now.cells ≡ 1 }
    ensures { (ps : List Pair) → StandsFor running.now 0 ps → IsBoundOf item.now.kind ps result }
{
    match item.kind {
        ItemKind::Avg => ItemBound::Fractions(running.average(0)),
        _ => ItemBound::Numbers(running.bound(0)),
    }
}

// The bound of an item, by masks or from its rows.
fn bound_of_item(
    query: &TypedQuery,
    item: &Item,
    columns: &LentColumns<'_>,
    filter: &Filter,
    running: &Running,
    masks: &mut RowMasks,
    kept: &mut KeptItem,
) -> ItemBound
    requires open_stage { IsOpenStage (stage_of query.now columns.now) }
    requires plain { query.now.shape ≡ Plain }
    requires open_item { IsOpenItem columns.now.frame item.now }
    requires judged { filter.now.truths ≡ truths_under query.now.pred columns.now }
    requires filled { is_by_masks columns.now.frame item.now ≡ false
        → IsFilledBelow (stage_of query.now columns.now) item.now columns.now.frame.rows running.now }
    requires room { HaveRows columns.now.frame.rows masks.old }
    requires kept { IsKeptOf (stage_of query.now columns.now) item.now kept.old }
    ensures room { HaveRows columns.now.frame.rows masks.new }
    ensures kept { IsKeptOf (stage_of query.now columns.now) item.now kept.new }
    ensures bound { IsTotal (stage_of query.now columns.now) item.now result }
{
    match &item.arg {
        Expr::Column(column) => masks.bound(query, item, *column, columns, filter, kept),
        _ if is_counted(item, columns) => bound_of_counts(query, item, columns, filter),
        _ => bound_of_rows(item, running),
    }
}

// Computes the bound of each marked item.
fn tell_each(
    query: &TypedQuery,
    columns: &LentColumns<'_>,
    filter: &Filter,
    marks: &[bool; 16],
    runnings: &[Running],
    masks: &mut RowMasks,
    kept: &mut [KeptItem],
    bounds: &mut [ItemBound],
)
    requires open_stage { IsOpenStage (stage_of query.now columns.now) }
    requires plain { query.now.shape ≡ Plain }
    requires judged { filter.now.truths ≡ truths_under query.now.pred columns.now }
    requires filled { AreFilled (stage_of query.now columns.now) marks.now runnings.now }
    requires room { HaveRows columns.now.frame.rows masks.old }
    requires kept { AreKept (stage_of query.now columns.now) kept.old }
    requires beside { AreTotalsBeside (stage_of query.now columns.now) marks.now bounds.old }
    ensures room { HaveRows columns.now.frame.rows masks.new }
    ensures kept { AreKept (stage_of query.now columns.now) kept.new }
    ensures totals { AreTotals (stage_of query.now columns.now) bounds.new }
{
    for i in 0..bounds.len() {
        if marks[i] {
            let item = &query.items.as_slice()[i];
            bounds[i] = bound_of_item(
                query,
                item,
                columns,
                filter,
                &runnings[i],
                masks,
                &mut kept[i],
            );
        }
    }
}

impl Totals {
    // Room for a total of each item over so many rows. So far they are those of no rows.
    pub(crate) fn open(
        alloc: Global,
        items: &[Item],
        rows: usize,
        products: Vec<Option<KeptProduct>>,
    ) -> Result<Totals, AllocError>
        ensures count { IfOk result (λ totals. length totals.bounds.items ≡ length items.now) }
        ensures room { IfOk result (λ totals. HaveRoom items.now totals.runnings.items) }
        ensures masks { IfOk result (λ totals. HaveRows rows totals.masks) }
        ensures kept { IfOk result (λ totals. HoldItems rows items.now totals.kept.items) }
        ensures products { IfOk result (λ totals. totals.products ≡ products) }
    {
        let none = Bound {
            null: Nullity::Always,
            lo: 0,
            hi: 0,
        };
        let bounds = vec![in alloc; ItemBound::Numbers(none); items.len()]?;
        let mut runnings = Vec::with_capacity(alloc, items.len())?;
        for item in items {
            runnings.push(Running::open(alloc, item.kind, 1)?)?;
        }
        let masks = RowMasks::open(alloc, rows)?;
        let kept = open_items(alloc, items, rows)?;
        Ok(Totals {
            bounds,
            runnings,
            masks,
            kept,
            products,
        })
    }

    // Computes the total of each marked item anew.
    pub(crate) fn fill(
        &mut self,
        query: &TypedQuery,
        columns: &LentColumns<'_>,
        filter: &Filter,
        block: &mut RowBlock,
        marks: &[bool; 16],
    )
        requires open_stage { IsOpenStage (stage_of query.now columns.now) }
        requires plain { query.now.shape ≡ Plain }
        requires judged { filter.now.truths ≡ truths_under query.now.pred columns.now }
        requires beside { AreTotalsBeside (stage_of query.now columns.now) marks.now self.old.bounds.items }
        requires room { HaveRoom query.now.items self.old.runnings.items }
        requires masks { HaveRows columns.now.frame.rows self.old.masks }
        requires kept { AreKept (stage_of query.now columns.now) self.old.kept.items }
        requires products { AreKeptProducts columns.now query.now.items self.old.products.items }
        requires same { block.old.frame.columns ≡ columns.now.frame.columns }
        ensures same { block.new.frame.columns ≡ columns.now.frame.columns }
        ensures totals { AreTotals (stage_of query.now columns.now) self.new.bounds.items }
        ensures room { HaveRoom query.now.items self.new.runnings.items }
        ensures masks { HaveRows columns.now.frame.rows self.new.masks }
        ensures kept { AreKept (stage_of query.now columns.now) self.new.kept.items }
        ensures products { AreKeptProducts columns.now query.now.items self.new.products.items }
    {
        begin_each(query, &mut self.runnings);
        let asked = asked_items(query, columns, marks);
        let told = told_sums(
            query,
            columns,
            filter,
            &asked,
            &mut self.masks.selection,
            &mut self.products,
        );
        add_each(
            query,
            columns,
            filter,
            block,
            marks,
            &told,
            &mut self.runnings,
        );
        tell_each(
            query,
            columns,
            filter,
            marks,
            &self.runnings,
            &mut self.masks,
            &mut self.kept,
            &mut self.bounds,
        );
    }

    // The bound of an item that is no average.
    pub(crate) fn bound(&self, item: usize) -> Bound
        requires { HasNumbers self.now.bounds.items item }
        ensures { slice_get self.now.bounds.items item ≡ Some (Numbers result) }
    {
        match self.bounds[item] {
            ItemBound::Numbers(bound) => bound,
            ItemBound::Fractions(_) => unreachable!(),
        }
    }

    // The bound of an average.
    pub(crate) fn average(&self, item: usize) -> AverageBound
        requires { HasFractions self.now.bounds.items item }
        ensures { slice_get self.now.bounds.items item ≡ Some (Fractions result) }
    {
        match self.bounds[item] {
            ItemBound::Fractions(bound) => bound,
            ItemBound::Numbers(_) => unreachable!(),
        }
    }

    // Whether the bound of each item is narrow.
    pub(crate) fn is_narrow(&self, near: Nearness) -> bool
        requires totals { AreSomeTotals self.now.bounds.items }
        requires width { near.width < 2 ^ 63 }
        ensures { (stage : Stage) → stage.query.shape ≡ Plain → AreTotals stage self.now.bounds.items → result ≡ is_narrow near stage }
    {
        pairs_are_few();
        for bound in &self.bounds {
            if !bound.is_narrow(near.width) {
                return false;
            }
        }
        true
    }
}
