//! Ends of a column, added up over rows of a block by counts in words that are fetched.

ghost use Rattle.std.specs.Prelude.{◌≡◌, ◌<◌, ◌+◌, ◌*◌, [], ℕ, pos, ◌*ℤ◌, length, IsTrue};
ghost use Rattle.std.specs.Int.{int_wrap, w128};
ghost use Rattle.aggregates.specs.ExtremeRows.{number_at};
ghost use Rattle.aggregates.specs.Selections.{has_row};
ghost use Rattle.known_column.specs.KnownTables.{column_at};
ghost use Rattle.query_model.specs.Queries.{Column};
ghost use Rattle.product_sums.specs.Fetched.{IsFetched};
ghost use Rattle.product_sums.specs.Products.{product_at, sum_over, term_end, CanMultiply, HasValue};

use crate::column_ends::{weight_of_all, weight_of_digits, weight_of_top};
use crate::fetched::{Fetched, PlaneRoom};
use crate::rows::Rows;
use crate::wrapping::{minus, plus, times};
use aggregates::number_planes;
use known_column::LentColumns;

// The number that a column's digits make, added up.
pub(crate) fn sum_fetched_digits(
    columns: &LentColumns<'_>,
    block: usize,
    rows: &Rows,
    fetched: &Fetched,
    room: &PlaneRoom,
) -> i128
    requires column { fetched.now.column < length columns.now.frame.columns }
    requires rows { CanMultiply columns.now block rows.now [] }
    requires fetched { IsFetched (column_at columns.now fetched.now.column) block fetched.now room.now.planes }
    ensures { result ≡ int_wrap w128 (sum_over rows.now
        (λ i. pos (number_at (column_at columns.now fetched.now.column) (512 * block + i))
        *ℤ product_at columns.now [] (512 * block + i))) }
{
    let known = columns.column(usize::from(fetched.column));
    let (from, to) = number_planes(known);
    let mut sum: i128 = 0;
    for j in from..to {
        let ones = rows.count_words(&room.planes[usize::from(j - from)]);
        sum = plus(times(sum, 2), i128::from(ones));
    }
    sum
}

// The end of the column, added up.
pub(crate) fn sum_fetched(
    columns: &LentColumns<'_>,
    block: usize,
    rows: &Rows,
    fetched: &Fetched,
    room: &PlaneRoom,
) -> i128
    requires column { fetched.now.column < length columns.now.frame.columns }
    requires rows { CanMultiply columns.now block rows.now [] }
    requires fetched { IsFetched (column_at columns.now fetched.now.column) block fetched.now room.now.planes }
    requires values { (i : ℕ) → IsTrue (has_row rows.now i) → HasValue columns.now (Column fetched.now.column) (512 * block + i) }
    ensures { result ≡ int_wrap w128 (sum_over rows.now
        (λ i. term_end columns.now fetched.now.end (Column fetched.now.column) (512 * block + i)
        *ℤ product_at columns.now [] (512 * block + i))) }
{
    let known = columns.column(usize::from(fetched.column));
    let end = fetched.end;
    let digits = times(
        weight_of_digits(known),
        sum_fetched_digits(columns, block, rows, fetched, room),
    );
    let all = times(weight_of_all(end, known), i128::from(rows.count()));
    let tops = i128::from(rows.count_words(&fetched.tops));
    let less = times(weight_of_top(end, known), tops);
    minus(plus(digits, all), less)
}
