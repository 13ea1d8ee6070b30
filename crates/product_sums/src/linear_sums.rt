//! The ends of an expression that adds and takes off numbers and one column, each times a number of its row, added up over a mask's rows.

ghost use Rattle.std.specs.Prelude.{◌≡◌, ◌<◌, ℕ, ℤ, ◌*ℤ◌, Bool, List, length};
ghost use Rattle.std.specs.Int.{int_wrap, w128};
ghost use Rattle.query_model.specs.Queries.{Column, term_of};
ghost use Rattle.product_sums.specs.KeptProducts.{is_clipped, is_high, AreColumnSums, IsLinear};
ghost use Rattle.product_sums.specs.Products.{sum_over, term_end, HasValues};

use crate::column_ends::{weight_of_all, weight_of_digits};
use crate::factors::other;
use crate::wrapping::{minus, plus, times};
use aggregates::End;
use known_column::LentColumns;
use query_model::Expr;

// A number of each row, added up; the same times the number that the column's digits make; and what it gives less at the column's high end,
// which is clipped at top, where an end takes that.
#[derive(Drop)]
pub(crate) struct ColumnSums {
    pub(crate) all: i128,
    pub(crate) numbers: i128,
    pub(crate) clipped: i128,
}

// Whether an end of an expression takes the high end of a column.
pub(crate) fn is_clipped(expr: &Expr, end: End) -> bool
    ensures { result ≡ is_clipped end (term_of expr.now) }
{
    match expr {
        Expr::Column(_) => match end {
            End::Low => false,
            End::High => true,
        },
        Expr::Literal(_) => false,
        Expr::Add(a, b) | Expr::Mul(a, b) => is_clipped(a, end) || is_clipped(b, end),
        Expr::Sub(a, b) => is_clipped(a, end) || is_clipped(b, other(end)),
    }
}

// An end of the column.
fn sum_column(columns: &LentColumns<'_>, column: u8, sums: &ColumnSums, end: End) -> i128
    requires column { column < length columns.now.frame.columns }
    ensures { (mask : List Bool) (f : ℕ → ℤ) → AreColumnSums columns.now mask column f (is_high end) sums.now
        → HasValues columns.now (Column column) mask
        → result ≡ int_wrap w128 (sum_over mask (λ r. term_end columns.now end (Column column) r *ℤ f r)) }
{
    let _rows = columns.rows();
    let known = columns.column(usize::from(column));
    let digits = times(weight_of_digits(known), sums.numbers);
    let all = times(weight_of_all(end, known), sums.all);
    match end {
        End::Low => plus(digits, all),
        End::High => minus(plus(digits, all), sums.clipped),
    }
}

// An end of the expression.
pub(crate) fn sum_linear(
    columns: &LentColumns<'_>,
    column: u8,
    sums: &ColumnSums,
    expr: &Expr,
    end: End,
) -> i128
    requires column { column < length columns.now.frame.columns }
    requires linear { IsLinear column (term_of expr.now) }
    ensures { (mask : List Bool) (f : ℕ → ℤ) → AreColumnSums columns.now mask column f (is_clipped end (term_of expr.now)) sums.now
        → HasValues columns.now (term_of expr.now) mask
        → result ≡ int_wrap w128 (sum_over mask (λ r. term_end columns.now end (term_of expr.now) r *ℤ f r)) }
{
    match expr {
        Expr::Column(_there) => sum_column(columns, column, sums, end),
        Expr::Literal(number) => times(*number, sums.all),
        Expr::Add(a, b) => plus(
            sum_linear(columns, column, sums, a, end),
            sum_linear(columns, column, sums, b, end),
        ),
        Expr::Sub(a, b) => minus(
            sum_linear(columns, column, sums, a, end),
            sum_linear(columns, column, sums, b, other(end)),
        ),
        Expr::Mul(_, _) => 0,
    }
}
