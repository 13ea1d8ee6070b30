//! Factors of a product: ends of expressions.

ghost use Rattle.std.specs.Prelude.{◌≡◌, ◌≤◌, ◌+◌, ◌∷◌, length, take};
ghost use Rattle.product_sums.specs.Products.{other_end};

use aggregates::End;
use known_column::LentColumns;
use query_model::Expr;

// An end of an expression, as a factor.
#[derive(Clone, Copy)]
pub(crate) struct Factor<'a> {
    pub(crate) term: &'a Expr,
    pub(crate) end: End,
}

// Two factors, of which the first is gone through before the second.
#[derive(Clone, Copy)]
pub(crate) struct Parts<'a> {
    pub(crate) first: Factor<'a>,
    pub(crate) second: Factor<'a>,
}

// An end of a column and one of another part, which multiplied are an end of the product of both.
#[derive(Clone, Copy)]
pub(crate) struct PartEnds<'a> {
    pub(crate) column: End,
    pub(crate) other: Factor<'a>,
}

// The other end.
pub(crate) fn other(end: End) -> End
    ensures { result ≡ other_end end }
{
    match end {
        End::Low => End::High,
        End::High => End::Low,
    }
}

// What is taken off a factor at this end: the term at its other end.
pub(crate) fn subtrahend<'a>(term: &'a Expr, end: End) -> Factor<'a>
    ensures term { result.term.now ≡ term.now }
    ensures end { result.end ≡ other_end end }
{
    Factor {
        term,
        end: other(end),
    }
}

// A factor before others, of which there are few.
pub(crate) fn joined<'a>(first: Factor<'a>, rest: &[Factor<'a>]) -> [Factor<'a>; 4]
    requires { length rest.now ≤ 3 }
    ensures { take (length rest.now + 1) result ≡ first.entry ∷ rest.now }
{
    let mut factors = [first; 4];
    for i in 0..rest.len() {
        factors[i + 1] = rest[i];
    }
    factors
}

// The greatest number of planes read of any column in an expression. It affects speed alone.
fn most_read(expr: &Expr, columns: &LentColumns<'_>) -> u8 {
    match expr {
        Expr::Column(column) => {
            let column = usize::from(*column);
            if column < columns.len() {
                255 - columns.unread(column)
            } else {
                0
            }
        }
        Expr::Literal(_) => 0,
        Expr::Add(a, b) | Expr::Sub(a, b) | Expr::Mul(a, b) => {
            most_read(a, columns).max(most_read(b, columns))
        }
    }
}

// Whether the innermost loop should go through the planes of the first of two expressions.
pub(crate) fn is_longer(a: &Expr, b: &Expr, columns: &LentColumns<'_>) -> bool {
    most_read(a, columns) > most_read(b, columns)
}
