//! Products of ends, added up over rows of a block of 512 by counts of rows. An end of a column is a sum over the digits that were read, so
//! the sum of a product with it is one of products without it, each over the rows that have the digit; that of no factor is how many rows
//! there are. All of it is done in 128 bits that wrap around: only what the sum comes to has to fit.

ghost use Rattle.std.specs.Prelude.{◌≡◌, ◌<◌, ◌+◌, ◌*◌, ◌∷◌, ℕ, pos, ◌*ℤ◌, length, IfSome, IsTrue};
ghost use Rattle.std.specs.Int.{int_wrap, w128};
ghost use Rattle.aggregates.specs.ExtremeRows.{number_at};
ghost use Rattle.aggregates.specs.Selections.{has_row};
ghost use Rattle.known_column.specs.KnownTables.{column_at};
ghost use Rattle.query_model.specs.Queries.{Column, Mul};
ghost use Rattle.product_sums.specs.Fetched.{IsLone};
ghost use Rattle.product_sums.specs.Products.{sum_of_products, sum_over, product_at, term_end, CanMultiply, HasValue};

use crate::column_ends::{ColumnEnd, weight_of_all, weight_of_digits, weight_of_top};
use crate::factors::{Factor, Parts, is_longer, joined, subtrahend};
use crate::fetched::{Fetched, PlaneRoom, fetch_lone};
use crate::fetched_sums::sum_fetched;
use crate::rows::Rows;
use crate::signs::factor_beside;
use crate::wrapping::{minus, plus, times};
use aggregates::{End, number_planes};
use known_column::LentColumns;
use query_model::Expr;

// The product of some factors, added up over rows of a block.
#[cycle(sum)]
pub(crate) fn sum_products<'a>(
    columns: &LentColumns<'_>,
    block: usize,
    rows: &Rows,
    factors: &[Factor<'a>],
    room: &mut PlaneRoom,
) -> i128
    requires { CanMultiply columns.now block rows.now factors.now }
    ensures { result ≡ int_wrap w128 (sum_of_products columns.now block rows.now factors.now) }
{
    match factors {
        [] => i128::from(rows.count()),
        [first, rest @ ..] => sum_first(columns, block, rows, *first, rest, room),
    }
}

// The same times a number.
#[cycle(sum)]
fn sum_times<'a>(
    columns: &LentColumns<'_>,
    block: usize,
    rows: &Rows,
    factors: &[Factor<'a>],
    number: i128,
    room: &mut PlaneRoom,
) -> i128
    requires { CanMultiply columns.now block rows.now factors.now }
    ensures { result ≡ int_wrap w128 (number *ℤ sum_of_products columns.now block rows.now factors.now) }
{
    if number == 0 {
        return 0;
    }
    if rows.count() == 0 {
        return 0;
    }
    times(number, sum_products(columns, block, rows, factors, room))
}

// The product of some factors, added up: in words that are fetched, where these are of the only factor.
#[cycle(sum)]
fn sum_rest<'a>(
    columns: &LentColumns<'_>,
    block: usize,
    rows: &Rows,
    rest: &[Factor<'a>],
    fetched: &Option<Fetched>,
    room: &mut PlaneRoom,
) -> i128
    requires rest { CanMultiply columns.now block rows.now rest.now }
    requires fetched { IfSome fetched.now (λ words. IsLone columns.now block rest.now words room.old.planes) }
    ensures fetched { IfSome fetched.now (λ words. IsLone columns.now block rest.now words room.new.planes) }
    ensures sum { result ≡ int_wrap w128 (sum_of_products columns.now block rows.now rest.now) }
{
    match fetched {
        Some(words) => sum_fetched(columns, block, rows, words, room),
        None => sum_products(columns, block, rows, rest, room),
    }
}

// The product of the number that a column's digits make and of some factors, added up.
#[cycle(sum)]
pub(crate) fn sum_digits<'a>(
    columns: &LentColumns<'_>,
    block: usize,
    rows: &Rows,
    column: u8,
    rest: &[Factor<'a>],
    room: &mut PlaneRoom,
) -> i128
    requires column { column < length columns.now.frame.columns }
    requires rest { CanMultiply columns.now block rows.now rest.now }
    ensures { result ≡ int_wrap w128 (sum_over rows.now (λ i. pos (number_at (column_at columns.now column) (512 * block + i))
        *ℤ product_at columns.now rest.now (512 * block + i))) }
{
    let known = columns.column(usize::from(column));
    let (from, to) = number_planes(known);
    let fetched = fetch_lone(columns, block, rest, to - from, room);
    let mut sum: i128 = 0;
    for j in from..to {
        let ones = rows.and(&Rows::of_plane(known.plane(j), block));
        sum = plus(
            times(sum, 2),
            sum_rest(columns, block, &ones, rest, &fetched, room),
        );
    }
    sum
}

// The product of an end of a column and of some factors, added up.
#[cycle(sum)]
fn sum_column<'a>(
    columns: &LentColumns<'_>,
    block: usize,
    rows: &Rows,
    first: ColumnEnd,
    rest: &[Factor<'a>],
    room: &mut PlaneRoom,
) -> i128
    requires column { first.column < length columns.now.frame.columns }
    requires rest { CanMultiply columns.now block rows.now rest.now }
    requires values { (i : ℕ) → IsTrue (has_row rows.now i) → HasValue columns.now (Column first.column) (512 * block + i) }
    ensures { result ≡ int_wrap w128 (sum_over rows.now (λ i. term_end columns.now first.end (Column first.column) (512 * block + i)
        *ℤ product_at columns.now rest.now (512 * block + i))) }
{
    let known = columns.column(usize::from(first.column));
    let digits = times(
        weight_of_digits(known),
        sum_digits(columns, block, rows, first.column, rest, room),
    );
    let all = sum_times(
        columns,
        block,
        rows,
        rest,
        weight_of_all(first.end, known),
        room,
    );
    let tops = rows.and(&Rows::of_mask(known.at_top(), block));
    let less = sum_times(
        columns,
        block,
        &tops,
        rest,
        weight_of_top(first.end, known),
        room,
    );
    minus(plus(digits, all), less)
}

// The product of two parts and of some factors, added up. Which of the two comes first only decides how fast that is.
#[cycle(sum)]
fn sum_both<'a>(
    columns: &LentColumns<'_>,
    block: usize,
    rows: &Rows,
    parts: Parts<'a>,
    rest: &[Factor<'a>],
    room: &mut PlaneRoom,
) -> i128
    requires { CanMultiply columns.now block rows.now (parts.first ∷ parts.second ∷ rest.now) }
    ensures { result ≡ int_wrap w128 (sum_of_products columns.now block rows.now (parts.entry.first ∷ parts.entry.second ∷ rest.now)) }
{
    let factors = joined(parts.second, rest);
    sum_first(
        columns,
        block,
        rows,
        parts.first,
        &factors[..rest.len() + 1],
        room,
    )
}

// The product of a factor and others, added up.
#[cycle(sum)]
fn sum_first<'a>(
    columns: &LentColumns<'_>,
    block: usize,
    rows: &Rows,
    first: Factor<'a>,
    rest: &[Factor<'a>],
    room: &mut PlaneRoom,
) -> i128
    requires { CanMultiply columns.now block rows.now (first ∷ rest.now) }
    ensures { result ≡ int_wrap w128 (sum_of_products columns.now block rows.now (first.entry ∷ rest.now)) }
{
    let end = first.end;
    match first.term {
        Expr::Column(column) => {
            let first = ColumnEnd {
                column: *column,
                end,
            };
            sum_column(columns, block, rows, first, rest, room)
        }
        Expr::Literal(number) => sum_times(columns, block, rows, rest, *number, room),
        Expr::Add(a, b) => plus(
            sum_first(columns, block, rows, Factor { term: a, end }, rest, room),
            sum_first(columns, block, rows, Factor { term: b, end }, rest, room),
        ),
        Expr::Sub(a, b) => minus(
            sum_first(columns, block, rows, Factor { term: a, end }, rest, room),
            sum_first(columns, block, rows, subtrahend(b, end), rest, room),
        ),
        Expr::Mul(a, b) => {
            let left = factor_beside(a, b, end, columns);
            let right = factor_beside(b, a, end, columns);
            if is_longer(a, b, columns) {
                let parts = Parts {
                    first: right,
                    second: left,
                };
                sum_both(columns, block, rows, parts, rest, room)
            } else {
                let parts = Parts {
                    first: left,
                    second: right,
                };
                sum_both(columns, block, rows, parts, rest, room)
            }
        }
    }
}
