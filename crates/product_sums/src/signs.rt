//! Which expressions are sums of products whose ends are sums of products of ends.

ghost use Rattle.std.specs.Prelude.{◌≡◌, ◌<◌, ◌^◌, ◌-◌, ◌↔◌, min, length, IsTrue};
ghost use Rattle.interval_calc.specs.Intervals.{interval_of};
ghost use Rattle.query_model.specs.Meaning.{ReadsBelow};
ghost use Rattle.query_model.specs.Queries.{term_of, Column};
ghost use Rattle.query_model.specs.Truths.{span_of};
ghost use Rattle.query_model.specs.Validity.{declared_ranges, FitsWide};
ghost use Rattle.product_sums.specs.Products.{degree, end_beside, has_signs, is_never_negative, keeps_sign, IsProductSum};

use crate::factors::{Factor, other};
use aggregates::{End, number_planes};
use interval_calc::{Interval, exactly};
use known_column::{Known, LentColumns};
use query_model::Expr;
use row_values::{difference, product, sum};

// Where the expression lies by what is declared of its columns.
fn declared_span(expr: &Expr, columns: &LentColumns<'_>) -> Interval
    requires columns { ReadsBelow (length columns.now.frame.columns) (term_of expr.now) }
    requires fits { FitsWide (term_of expr.now) (declared_ranges columns.now.frame) }
    ensures { interval_of result ≡ span_of (term_of expr.now) (declared_ranges columns.now.frame) }
{
    match expr {
        Expr::Column(column) => {
            let ends = columns.column(*column as usize).declared();
            Interval {
                lo: i128::from(ends.base),
                hi: i128::from(ends.top),
            }
        }
        Expr::Literal(value) => exactly(*value),
        Expr::Add(a, b) => sum(declared_span(a, columns), declared_span(b, columns)),
        Expr::Sub(a, b) => difference(declared_span(a, columns), declared_span(b, columns)),
        Expr::Mul(a, b) => product(declared_span(a, columns), declared_span(b, columns)),
    }
}

// Whether the expression is never below 0, by what is declared of its columns.
pub(crate) fn is_never_negative(expr: &Expr, columns: &LentColumns<'_>) -> bool
    requires columns { ReadsBelow (length columns.now.frame.columns) (term_of expr.now) }
    requires fits { FitsWide (term_of expr.now) (declared_ranges columns.now.frame) }
    ensures { result ≡ is_never_negative columns.now.frame (term_of expr.now) }
{
    declared_span(expr, columns).lo >= 0
}

/// Whether the expression keeps one sign, by what is declared of its columns.
pub fn keeps_sign(expr: &Expr, columns: &LentColumns<'_>) -> bool
    requires columns { ReadsBelow (length columns.now.frame.columns) (term_of expr.now) }
    requires fits { FitsWide (term_of expr.now) (declared_ranges columns.now.frame) }
    ensures { result ≡ keeps_sign columns.now.frame (term_of expr.now) }
{
    let span = declared_span(expr, columns);
    span.lo >= 0 || span.hi <= 0
}

// The end of a factor that gives this end of its product with another.
pub(crate) fn end_beside(factor: &Expr, end: End, columns: &LentColumns<'_>) -> End
    requires columns { ReadsBelow (length columns.now.frame.columns) (term_of factor.now) }
    requires fits { FitsWide (term_of factor.now) (declared_ranges columns.now.frame) }
    ensures { result ≡ end_beside (is_never_negative columns.now.frame (term_of factor.now)) end }
{
    if is_never_negative(factor, columns) {
        end
    } else {
        other(end)
    }
}

// A factor at the end that gives this end of its product with another.
pub(crate) fn factor_beside<'a>(
    term: &'a Expr,
    factor: &Expr,
    end: End,
    columns: &LentColumns<'_>,
) -> Factor<'a>
    requires columns { ReadsBelow (length columns.now.frame.columns) (term_of factor.now) }
    requires fits { FitsWide (term_of factor.now) (declared_ranges columns.now.frame) }
    ensures term { result.term.now ≡ term.now }
    ensures end { result.end ≡ end_beside (is_never_negative columns.now.frame (term_of factor.now)) end }
{
    Factor {
        term,
        end: end_beside(factor, end, columns),
    }
}

// The same of a column.
pub(crate) fn end_beside_column(column: u8, end: End, columns: &LentColumns<'_>) -> End
    requires { column < length columns.now.frame.columns }
    ensures { result ≡ end_beside (is_never_negative columns.now.frame (Column column)) end }
{
    let ends = columns.column(usize::from(column)).declared();
    if ends.base >= 0 { end } else { other(end) }
}

// Whether each product is one of two parts that keep their signs.
fn has_signs(expr: &Expr, columns: &LentColumns<'_>) -> bool
    requires columns { ReadsBelow (length columns.now.frame.columns) (term_of expr.now) }
    requires fits { FitsWide (term_of expr.now) (declared_ranges columns.now.frame) }
    ensures { result ≡ has_signs columns.now.frame (term_of expr.now) }
{
    match expr {
        Expr::Column(_) | Expr::Literal(_) => true,
        Expr::Add(a, b) | Expr::Sub(a, b) => has_signs(a, columns) && has_signs(b, columns),
        Expr::Mul(a, b) => {
            (has_signs(a, columns) && has_signs(b, columns))
                && (keeps_sign(a, columns) && keeps_sign(b, columns))
        }
    }
}

// Of how many factors the longest product is, multiplied out, or the greatest number of 64 bits.
fn degree(expr: &Expr) -> u64
    ensures { result ≡ min (degree (term_of expr.now)) (2 ^ 64 - 1) }
{
    match expr {
        Expr::Column(_) | Expr::Literal(_) => 1,
        Expr::Add(a, b) | Expr::Sub(a, b) => degree(a).max(degree(b)),
        Expr::Mul(a, b) => degree(a).saturating_add(degree(b)),
    }
}

/// Whether the expression is a sum of products of at most four factors, in each of which all parts keep their signs.
pub fn is_product_sum(expr: &Expr, columns: &LentColumns<'_>) -> bool
    requires columns { ReadsBelow (length columns.now.frame.columns) (term_of expr.now) }
    requires fits { FitsWide (term_of expr.now) (declared_ranges columns.now.frame) }
    ensures { IsTrue result ↔ IsProductSum columns.now.frame (term_of expr.now) }
{
    has_signs(expr, columns) && degree(expr) <= 4
}

// One for all rows, one for each plane that was read, and while some are unread one for the rows at top's prefix.
fn counts_of_column(known: &Known) -> u64 {
    let (from, to) = number_planes(known);
    1 + u64::from(to - from) + u64::from(known.unread().min(1))
}

/// How many counts of rows a block takes. It affects speed alone.
pub fn count_of_counts(expr: &Expr, columns: &LentColumns<'_>) -> u64 {
    match expr {
        Expr::Column(column) => {
            let column = usize::from(*column);
            if column < columns.len() {
                counts_of_column(columns.column(column))
            } else {
                1
            }
        }
        Expr::Literal(_) => 1,
        Expr::Add(a, b) | Expr::Sub(a, b) => {
            count_of_counts(a, columns).saturating_add(count_of_counts(b, columns))
        }
        Expr::Mul(a, b) => {
            count_of_counts(a, columns).saturating_mul(count_of_counts(b, columns))
        }
    }
}
