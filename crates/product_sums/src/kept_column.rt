//! Products of a column and another part, and of such a product and a third part: which columns are followed from plane to plane.

ghost use Rattle.std.specs.Prelude.{◌≡◌, ◌<◌, ◌*ℤ◌, ℕ, Some, length, IfSome, IsTrue};
ghost use Rattle.query_model.specs.Queries.{term_of};
ghost use Rattle.product_sums.specs.KeptProducts.{factor_end, inner_end, inner_part, is_column_at, other_part, outer_part};
ghost use Rattle.product_sums.specs.KeptProducts.{AreColumnsOf, IsLinear, IsPair, IsProductWith, IsThird};
ghost use Rattle.product_sums.specs.Products.{term_end, IsProductSum};

use crate::factors::{Factor, PartEnds};
use crate::pair_sums::Pair;
use crate::signs::{end_beside, end_beside_column};
use aggregates::End;
use known_column::LentColumns;
use query_model::Expr;

// A third column: that of a part that is linear in it. That is the second part of the whole product, or the first.
#[derive(Clone, Copy)]
pub(crate) struct Third {
    pub(crate) column: u8,
    pub(crate) is_second: bool,
}

// The columns whose planes are followed: two, and a third where there is one.
#[derive(Clone, Copy)]
pub(crate) struct KeptColumns {
    pub(crate) pair: Pair,
    pub(crate) third: Option<Third>,
}

// Whether the expression is this column.
fn is_column_at(expr: &Expr, column: u8) -> bool
    ensures { result ≡ is_column_at column (term_of expr.now) }
{
    match expr {
        Expr::Column(there) => *there == column,
        Expr::Literal(_) | Expr::Add(_, _) | Expr::Sub(_, _) | Expr::Mul(_, _) => false,
    }
}

// Whether the expression is a product, of which one part is this column.
fn is_product_with(expr: &Expr, column: u8) -> bool
    ensures { IsTrue result → IsProductWith column (term_of expr.now) }
{
    match expr {
        Expr::Mul(a, b) => is_column_at(a, column) || is_column_at(b, column),
        Expr::Column(_) | Expr::Literal(_) | Expr::Add(_, _) | Expr::Sub(_, _) => false,
    }
}

// The other part of a product with this column.
pub(crate) fn other_part(expr: &Expr, column: u8) -> &Expr
    ensures { term_of result.now ≡ other_part column (term_of expr.now) }
{
    match expr {
        Expr::Mul(a, b) => { if is_column_at(a, column) { b } else { a } }
        Expr::Column(_) | Expr::Literal(_) | Expr::Add(_, _) | Expr::Sub(_, _) => expr,
    }
}

// Whether the expression adds and takes off numbers and this column alone.
fn is_linear(expr: &Expr, column: u8) -> bool
    ensures { IsTrue result → IsLinear column (term_of expr.now) }
{
    match expr {
        Expr::Column(there) => *there == column,
        Expr::Literal(_) => true,
        Expr::Add(a, b) | Expr::Sub(a, b) => is_linear(a, column) && is_linear(b, column),
        Expr::Mul(_, _) => false,
    }
}

// The first column that stands in an expression.
fn first_column(expr: &Expr) -> Option<u8> {
    match expr {
        Expr::Column(column) => Some(*column),
        Expr::Literal(_) => None,
        Expr::Add(a, b) | Expr::Sub(a, b) | Expr::Mul(a, b) => {
            let first = first_column(a);
            if first.is_some() {
                first
            } else {
                first_column(b)
            }
        }
    }
}

// The column that a part of a product is, and the first one in its other part.
fn columns_of_parts(expr: &Expr) -> Option<Pair> {
    match expr {
        Expr::Mul(a, b) => match (&**a, &**b) {
            (Expr::Column(first), other) | (other, Expr::Column(first)) => Some(Pair {
                first: *first,
                second: first_column(other)?,
            }),
            _ => None,
        },
        Expr::Column(_) | Expr::Literal(_) | Expr::Add(_, _) | Expr::Sub(_, _) => None,
    }
}

// The columns of a product of one and a part that is linear in the other.
fn pair_to_keep(expr: &Expr, columns: &LentColumns<'_>) -> Option<Pair>
    ensures pair { IfSome result (IsPair columns.now) }
    ensures product { IfSome result (λ pair. IsProductWith pair.first (term_of expr.now)) }
    ensures linear { IfSome result (λ pair. IsLinear pair.second (other_part pair.first (term_of expr.now))) }
{
    let pair = columns_of_parts(expr)?;
    let other = other_part(expr, pair.first);
    if is_product_with(expr, pair.first)
        && is_linear(other, pair.second)
        && usize::from(pair.first) < columns.len()
        && usize::from(pair.second) < columns.len()
    {
        Some(pair)
    } else {
        None
    }
}

// The product of two columns in one that has a third part too.
pub(crate) fn inner_part(expr: &Expr, third: Option<Third>) -> &Expr
    ensures { term_of result.now ≡ inner_part third (term_of expr.now) }
{
    let Some(third) = third else {
        return expr;
    };
    match expr {
        Expr::Mul(a, b) => { if third.is_second { a } else { b } }
        Expr::Column(_) | Expr::Literal(_) | Expr::Add(_, _) | Expr::Sub(_, _) => expr,
    }
}

// The third part.
fn outer_part(expr: &Expr, third: Third) -> &Expr
    ensures { term_of result.now ≡ outer_part third (term_of expr.now) }
{
    match expr {
        Expr::Mul(a, b) => { if third.is_second { b } else { a } }
        Expr::Column(_) | Expr::Literal(_) | Expr::Add(_, _) | Expr::Sub(_, _) => expr,
    }
}

// The column in which an expression is linear.
fn linear_column(expr: &Expr, columns: &LentColumns<'_>) -> Option<u8>
    ensures linear { IfSome result (λ column. IsLinear column (term_of expr.now)) }
    ensures there { IfSome result (λ column. column < length columns.now.frame.columns) }
{
    let column = first_column(expr)?;
    if is_linear(expr, column) && usize::from(column) < columns.len() {
        Some(column)
    } else {
        None
    }
}

// The column of a part of a product that is linear in it.
fn third_column(expr: &Expr, columns: &LentColumns<'_>) -> Option<Third>
    ensures { IfSome result (λ third. IsThird columns.now third (term_of expr.now)) }
{
    match expr {
        Expr::Mul(a, b) => match linear_column(b, columns) {
            Some(column) => Some(Third {
                column,
                is_second: true,
            }),
            None => Some(Third {
                column: linear_column(a, columns)?,
                is_second: false,
            }),
        },
        Expr::Column(_) | Expr::Literal(_) | Expr::Add(_, _) | Expr::Sub(_, _) => None,
    }
}

// The columns whose planes are followed, where the expression is a product of a column and a part that is linear in another, or one of such
// a product and a part that is linear in a third.
pub(crate) fn columns_to_keep(expr: &Expr, columns: &LentColumns<'_>) -> Option<KeptColumns>
    ensures { IfSome result (AreColumnsOf columns.now (term_of expr.now)) }
{
    if let Some(pair) = pair_to_keep(expr, columns) {
        return Some(KeptColumns { pair, third: None });
    }
    let third = third_column(expr, columns)?;
    let pair = pair_to_keep(inner_part(expr, Some(third)), columns)?;
    Some(KeptColumns {
        pair,
        third: Some(third),
    })
}

// The ends of both parts of a product with a column that give this end of it.
pub(crate) fn part_ends<'a>(
    expr: &'a Expr,
    column: u8,
    end: End,
    columns: &LentColumns<'_>,
) -> PartEnds<'a>
    requires product { IsProductWith column (term_of expr.now) }
    requires sums { IsProductSum columns.now.frame (term_of expr.now) }
    ensures other { term_of result.other.term.now ≡ other_part column (term_of expr.now) }
    ensures product { (row : ℕ) → row < columns.now.frame.rows → term_end columns.now end (term_of expr.now) row
        ≡ inner_end columns.now column result row }
{
    let _rows = columns.rows();
    let other = other_part(expr, column);
    PartEnds {
        column: end_beside(other, end, columns),
        other: Factor {
            term: other,
            end: end_beside_column(column, end, columns),
        },
    }
}

// The ends of the inner product and of the third part that give this end of the whole.
pub(crate) fn outer_ends<'a>(
    expr: &'a Expr,
    third: Third,
    end: End,
    columns: &LentColumns<'_>,
) -> (End, Factor<'a>)
    requires third { IsThird columns.now third (term_of expr.now) }
    requires sums { IsProductSum columns.now.frame (term_of expr.now) }
    ensures part { term_of result.1.term.now ≡ outer_part third (term_of expr.now) }
    ensures product { (row : ℕ) → row < columns.now.frame.rows → term_end columns.now end (term_of expr.now) row
        ≡ factor_end columns.now result.1 row *ℤ term_end columns.now result.0 (inner_part (Some third) (term_of expr.now)) row }
{
    let _rows = columns.rows();
    let inner = inner_part(expr, Some(third));
    let outer = outer_part(expr, third);
    let factor = Factor {
        term: outer,
        end: end_beside(inner, end, columns),
    };
    (end_beside(outer, end, columns), factor)
}
