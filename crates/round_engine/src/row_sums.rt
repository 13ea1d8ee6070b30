//! Sums and averages of expressions whose rows are added by numbers of 64 bits.

ghost use Rattle.std.specs.Prelude.{◌≡◌, [], IsTrue};
ghost use Rattle.aggregates.specs.Tallies.{tally_of};
ghost use Rattle.kleene_filter.specs.Filters.{truths_under};
ghost use Rattle.query_model.specs.declared.query.ItemKind.TheVariants.{Sum};
ghost use Rattle.query_model.specs.declared.query.Shape.TheVariants.{Plain};
ghost use Rattle.query_model.specs.Bounds.{pairs};
ghost use Rattle.query_model.specs.Validity.{declared_ranges, IsSumKind};
ghost use Rattle.row_values.specs.BlockSums.{FitsSmall};
ghost use Rattle.round_engine.specs.CountedSums.{IsTold};
ghost use Rattle.round_engine.specs.Engines.{stage_of};
ghost use Rattle.round_engine.specs.Stages.{IsOpenItem, IsOpenStage};

use aggregates::Tally;
use kleene_filter::Filter;
use known_column::LentColumns;
use query_model::{Item, ItemKind, TypedQuery};
use row_values::{add_rows, fits_small};

// Whether the item is a sum or an average whose rows can be added so.
fn is_small_sum(item: &Item, columns: &LentColumns<'_>) -> bool
    requires { IsOpenItem columns.now.frame item.now }
    ensures kind { IsTrue result → IsSumKind item.now.kind }
    ensures small { IsTrue result → FitsSmall item.now.arg (declared_ranges columns.now.frame) }
{
    match item.kind {
        ItemKind::Sum | ItemKind::Avg => fits_small(&item.arg, columns),
        ItemKind::Count | ItemKind::Min | ItemKind::Max => false,
    }
}

// What a sum of the item's argument keeps of its rows. A block of whose rows none may pass is not read.
fn sum_rows(query: &TypedQuery, item: &Item, columns: &LentColumns<'_>, filter: &Filter) -> Tally
    requires open_stage { IsOpenStage (stage_of query.now columns.now) }
    requires plain { query.now.shape ≡ Plain }
    requires open_item { IsOpenItem columns.now.frame item.now }
    requires small { FitsSmall item.now.arg (declared_ranges columns.now.frame) }
    requires judged { filter.now.truths ≡ truths_under query.now.pred columns.now }
    ensures { result ≡ tally_of Sum (pairs query.now item.now [] columns.now.frame columns.now.known) }
{
    let mut tally = Tally::none();
    for number in 0..columns.rows().div_ceil(64) {
        let may = filter.may().word(number);
        if may != 0 {
            let must = filter.must().word(number);
            add_rows(&item.arg, columns, number, may, must, &mut tally);
        }
    }
    tally
}

// What the item keeps of its rows, where they can be added so.
pub(crate) fn row_sum(
    query: &TypedQuery,
    item: &Item,
    columns: &LentColumns<'_>,
    filter: &Filter,
) -> Option<Tally>
    requires open_stage { IsOpenStage (stage_of query.now columns.now) }
    requires plain { query.now.shape ≡ Plain }
    requires open_item { IsOpenItem columns.now.frame item.now }
    requires judged { filter.now.truths ≡ truths_under query.now.pred columns.now }
    ensures { IsTold (stage_of query.now columns.now) item.now result }
{
    if is_small_sum(item, columns) {
        Some(sum_rows(query, item, columns, filter))
    } else {
        None
    }
}
