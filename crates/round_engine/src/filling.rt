//! An item's pairs, added block by block to what its bound is computed from.

ghost use Rattle.std.specs.Prelude.{◌≡◌, ◌<◌, ◌+◌, ◌*◌, min, length};
ghost use Rattle.query_model.specs.declared.query.Shape.TheVariants.{Plain};
ghost use Rattle.kleene_filter.specs.Filters.{truths_under};
ghost use Rattle.query_model.specs.Meaning.{ReadsBelow};
ghost use Rattle.query_model.specs.Queries.{term_of};
ghost use Rattle.query_model.specs.Truths.{may_be_null, null_of};
ghost use Rattle.query_model.specs.Validity.{declared_ranges};
ghost use Rattle.round_engine.specs.Engines.{stage_of};
ghost use Rattle.round_engine.specs.Stages.{IsOpenItem, IsOpenStage};
ghost use Rattle.round_engine.specs.Totals.{IsFilledBelow};

use aggregates::Running;
use kleene_filter::Filter;
use known_column::{LentColumns, RowBlock};
use query_model::{Expr, Item, TypedQuery, pairs_are_few, sums_of_items_fit};
use row_values::BlockValues;

// Whether an expression may be null, by what is declared of its columns.
pub(crate) fn may_be_null(expr: &Expr, columns: &LentColumns<'_>) -> bool
    requires { ReadsBelow (length columns.now.frame.columns) (term_of expr.now) }
    ensures { result ≡ may_be_null (null_of (term_of expr.now) (declared_ranges columns.now.frame)) }
{
    match expr {
        Expr::Column(column) => columns.column(*column as usize).nullable(),
        Expr::Literal(_) => false,
        Expr::Add(a, b) | Expr::Sub(a, b) | Expr::Mul(a, b) => {
            may_be_null(a, columns) || may_be_null(b, columns)
        }
    }
}

// Adds the rows of a block to an item: each at which the condition may hold and the item's argument is not surely null, with the span
// of the argument there. It counts for certain where the condition surely holds and the argument cannot be null.
pub(crate) fn fill_block(
    query: &TypedQuery,
    item: &Item,
    columns: &LentColumns<'_>,
    filter: &Filter,
    number: usize,
    block: &mut RowBlock,
    values: &mut BlockValues,
    running: &mut Running,
)
    requires open_stage { IsOpenStage (stage_of query.now columns.now) }
    requires plain { query.now.shape ≡ Plain }
    requires open_item { IsOpenItem columns.now.frame item.now }
    requires judged { filter.now.truths ≡ truths_under query.now.pred columns.now }
    requires rows { 64 * number < columns.now.frame.rows }
    requires same { block.old.frame.columns ≡ columns.now.frame.columns }
    requires filled { IsFilledBelow (stage_of query.now columns.now) item.now (64 * number) running.old }
    ensures same { block.new.frame.columns ≡ columns.now.frame.columns }
    ensures filled { IsFilledBelow (stage_of query.now columns.now) item.now (min (64 * number + 64) columns.now.frame.rows) running.new }
{
    sums_of_items_fit();
    pairs_are_few();
    values.read(&item.arg, columns, number, block);
    let may = filter.may().word(number) & values.possible;
    let must = filter.must().word(number) & values.sure;
    let count = (columns.rows() - 64 * number).min(64);
    running.add_block(0, may, must, &values.spans[..count]);
}
