//! Where the number of an expression lies at a row, by interval arithmetic over the ranges of its columns.

ghost use Rattle.std.specs.Prelude.{◌≡◌, ◌<◌, length};
ghost use Rattle.interval_calc.specs.Intervals.{difference_of, interval_of, product_of, sum_of, FitsInterval};
ghost use Rattle.query_model.specs.Knowledge.{ranges_of};
ghost use Rattle.query_model.specs.Meaning.{ReadsBelow};
ghost use Rattle.query_model.specs.Queries.{term_of};
ghost use Rattle.query_model.specs.Truths.{span_of, IsInside};
ghost use Rattle.query_model.specs.Validity.{declared_ranges, FitsWide};

use interval_calc::{Interval, add, exactly, mul, sub};
use known_column::KnownRows;
use query_model::Expr;

/// The sum of two spans, which is known to fit.
pub fn sum(a: Interval, b: Interval) -> Interval
    requires { FitsInterval (sum_of (interval_of a) (interval_of b)) }
    ensures { interval_of result ≡ sum_of (interval_of a) (interval_of b) }
{
    add(a, b).unwrap()
}

/// The difference of two spans, which is known to fit.
pub fn difference(a: Interval, b: Interval) -> Interval
    requires { FitsInterval (difference_of (interval_of a) (interval_of b)) }
    ensures { interval_of result ≡ difference_of (interval_of a) (interval_of b) }
{
    sub(a, b).unwrap()
}

/// The product of two spans, which is known to fit.
pub fn product(a: Interval, b: Interval) -> Interval
    requires { FitsInterval (product_of (interval_of a) (interval_of b)) }
    ensures { interval_of result ≡ product_of (interval_of a) (interval_of b) }
{
    mul(a, b).unwrap()
}

/// Where the expression's value lies at a row if it is not null, by what is known of the columns.
pub fn span_of<R: KnownRows>(expr: &Expr, row: usize, rows: &R) -> Interval
    requires columns { ReadsBelow (length (R.table rows.now).frame.columns) (term_of expr.now) }
    requires row { row < (R.table rows.now).frame.rows }
    requires fits { FitsWide (term_of expr.now) (declared_ranges (R.table rows.now).frame) }
    ensures span { interval_of result ≡ span_of (term_of expr.now) (ranges_of (R.table rows.now).frame (R.table rows.now).known row) }
    ensures inside { IsInside (interval_of result) (span_of (term_of expr.now) (declared_ranges (R.table rows.now).frame)) }
{
    match expr {
        Expr::Column(column) => rows.range(*column as usize, row),
        Expr::Literal(value) => exactly(*value),
        Expr::Add(a, b) => sum(span_of(a, row, rows), span_of(b, row, rows)),
        Expr::Sub(a, b) => difference(span_of(a, row, rows), span_of(b, row, rows)),
        Expr::Mul(a, b) => product(span_of(a, row, rows), span_of(b, row, rows)),
    }
}
