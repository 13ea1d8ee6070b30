//! Counts of the rows that pass, which the filter keeps.

ghost use Rattle.std.specs.Prelude.{◌≡◌, true};
ghost use Rattle.query_model.specs.declared.query.Shape.TheVariants.{Plain};
ghost use Rattle.kleene_filter.specs.Filters.{truths_under};
ghost use Rattle.round_engine.specs.Counts.{is_counted};
ghost use Rattle.round_engine.specs.Engines.{stage_of};
ghost use Rattle.round_engine.specs.Stages.{IsOpenItem, IsOpenStage};
ghost use Rattle.round_engine.specs.Totals.{IsTotal};

use crate::filling::may_be_null;
use crate::item_bound::ItemBound;
use kleene_filter::Filter;
use known_column::LentColumns;
use query_model::{Bound, Item, ItemKind, Nullity, TypedQuery};

// Whether an item counts the rows that pass: it is a count whose argument may not be null.
pub(crate) fn is_counted(item: &Item, columns: &LentColumns<'_>) -> bool
    requires { IsOpenItem columns.now.frame item.now }
    ensures { result ≡ is_counted columns.now.frame item.now }
{
    match item.kind {
        ItemKind::Count => !may_be_null(&item.arg, columns),
        ItemKind::Sum | ItemKind::Min | ItemKind::Max | ItemKind::Avg => false,
    }
}

// The bound of such an item.
pub(crate) fn bound_of_counts(
    query: &TypedQuery,
    item: &Item,
    columns: &LentColumns<'_>,
    filter: &Filter,
) -> ItemBound
    requires open_stage { IsOpenStage (stage_of query.now columns.now) }
    requires plain { query.now.shape ≡ Plain }
    requires judged { filter.now.truths ≡ truths_under query.now.pred columns.now }
    requires counted { is_counted columns.now.frame item.now ≡ true }
    ensures { IsTotal (stage_of query.now columns.now) item.now result }
{
    let all = filter.possible();
    ItemBound::Numbers(Bound {
        null: Nullity::Never,
        lo: i128::from(all - filter.unknown()),
        hi: i128::from(all),
    })
}
