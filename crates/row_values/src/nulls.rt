//! Whether an expression is null at a row.

ghost use Rattle.std.specs.Prelude.{◌≡◌, ◌<◌, length};
ghost use Rattle.query_model.specs.Knowledge.{ranges_of};
ghost use Rattle.query_model.specs.Meaning.{ReadsBelow};
ghost use Rattle.query_model.specs.Queries.{term_of};
ghost use Rattle.query_model.specs.Truths.{null_of, one_null};

use known_column::KnownRows;
use query_model::{Expr, Nullity};

// Whether one of two values is null.
pub(crate) fn one_null(left: Nullity, right: Nullity) -> Nullity
    ensures { result ≡ one_null left right }
{
    match (left, right) {
        (Nullity::Always, _) => Nullity::Always,
        (Nullity::Never, right) => right,
        (Nullity::Possibly, Nullity::Always) => Nullity::Always,
        (Nullity::Possibly, _) => Nullity::Possibly,
    }
}

/// Whether the expression is null at a row, by what is known of the columns: it is where one of its columns is.
pub fn null_of<R: KnownRows>(expr: &Expr, row: usize, rows: &R) -> Nullity
    requires columns { ReadsBelow (length (R.table rows.now).frame.columns) (term_of expr.now) }
    requires row { row < (R.table rows.now).frame.rows }
    ensures { result ≡ null_of (term_of expr.now) (ranges_of (R.table rows.now).frame (R.table rows.now).known row) }
{
    match expr {
        Expr::Column(column) => rows.missing(*column as usize, row),
        Expr::Literal(_) => Nullity::Never,
        Expr::Add(a, b) | Expr::Sub(a, b) | Expr::Mul(a, b) => {
            one_null(null_of(a, row, rows), null_of(b, row, rows))
        }
    }
}
