//! What the high ends of a product with a column give less, where they are clipped by the column's top.

ghost use Rattle.std.specs.Prelude.{◌≡◌, ◌&&◌, ◌*ℤ◌, length};
ghost use Rattle.std.specs.Int.{int_wrap, w128};
ghost use Rattle.std.specs.Simd.Lanes.{zip2};
ghost use Rattle.known_column.specs.Columns.{is_at_top, rows_where};
ghost use Rattle.known_column.specs.KnownTables.{column_at};
ghost use Rattle.query_model.specs.Queries.{term_of};
ghost use Rattle.product_sums.specs.ColumnEnds.{weight_of_top};
ghost use Rattle.product_sums.specs.KeptProducts.{factor_end, CanFollow};
ghost use Rattle.product_sums.specs.Products.{sum_over};

use crate::column_ends::weight_of_top;
use crate::even_masks::has_all_rows;
use crate::factors::PartEnds;
use crate::some_rows::{PartRows, SomeRows};
use crate::sums::sum_wrapped;
use crate::wrapping::times;
use known_column::LentColumns;

// What the rows at the prefix of the column's top give less, where the high end is clipped by top. `whole` is what the other part gives
// over all of the rows: while the whole table is at that prefix, none is counted.
pub(crate) fn sum_clipped<'a>(
    columns: &LentColumns<'_>,
    rows: &PartRows<'_>,
    column: u8,
    parts: PartEnds<'a>,
    whole: i128,
) -> i128
    requires follow { CanFollow columns.now rows.now column (term_of parts.other.term.now) }
    requires whole { whole ≡ int_wrap w128 (sum_over rows.now (factor_end columns.now parts.other)) }
    ensures { result ≡ int_wrap w128 (weight_of_top parts.entry.column (column_at columns.now column)
        *ℤ sum_over (zip2 (λ a b. a && b) rows.now (rows_where is_at_top (column_at columns.now column)))
        (factor_end columns.now parts.entry.other)) }
{
    let _rows = columns.rows();
    let known = columns.column(usize::from(column));
    let weight = weight_of_top(parts.column, known);
    if weight == 0 {
        return 0;
    }
    if has_all_rows(known.at_top()) {
        return times(weight, whole);
    }
    let other = parts.other;
    let tops = SomeRows::within(rows, known.at_top());
    times(weight, sum_wrapped(other.end, other.term, columns, &tops))
}
