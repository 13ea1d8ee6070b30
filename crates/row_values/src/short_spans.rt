//! Where an expression lies at the rows of a block of 64, where no value of it or of a part of it can leave 64 bits.

ghost use Rattle.std.specs.Prelude.{◌≡◌, ◌<◌, ◌*◌, length, IfSome};
ghost use Rattle.query_model.specs.Meaning.{ReadsBelow};
ghost use Rattle.query_model.specs.Queries.{term_of};
ghost use Rattle.query_model.specs.Truths.{span_of};
ghost use Rattle.query_model.specs.Validity.{declared_ranges};
ghost use Rattle.row_values.specs.ShortSpans.{interval_of, term_with, AreEach, AreShortSpans, FitsShort};

use crate::short::{ShortInterval, ZERO};
use crate::short_arithmetic::{Operation, join_each, shortened, widened};
use crate::short_ranges::column_ranges;
use interval_calc::{add, exactly, mul, sub};
use known_column::LentColumns;
use query_model::Expr;

// Where the expression lies by what is declared of its columns, if no value of it or of a part of it can leave 64 bits.
pub(crate) fn declared_span(expr: &Expr, columns: &LentColumns<'_>) -> Option<ShortInterval>
    requires { ReadsBelow (length columns.now.frame.columns) (term_of expr.now) }
    ensures fits { IfSome result (λ s. FitsShort (term_of expr.now) (declared_ranges columns.now.frame)) }
    ensures span { IfSome result (λ s. interval_of s ≡ span_of (term_of expr.now) (declared_ranges columns.now.frame)) }
{
    match expr {
        Expr::Column(column) => {
            let known = columns.column(*column as usize);
            Some(ShortInterval {
                lo: known.base(),
                hi: known.top(),
            })
        }
        Expr::Literal(value) => shortened(exactly(*value)),
        Expr::Add(a, b) => {
            let left = widened(declared_span(a, columns)?);
            shortened(add(left, widened(declared_span(b, columns)?))?)
        }
        Expr::Sub(a, b) => {
            let left = widened(declared_span(a, columns)?);
            shortened(sub(left, widened(declared_span(b, columns)?))?)
        }
        Expr::Mul(a, b) => {
            let left = widened(declared_span(a, columns)?);
            shortened(mul(left, widened(declared_span(b, columns)?))?)
        }
    }
}

// Makes each span that of a number of 64 bits.
fn repeat(number: i64, spans: &mut [ShortInterval; 64])
    ensures { AreEach number spans.new }
{
    for i in 0..64 {
        spans[i] = ShortInterval {
            lo: number,
            hi: number,
        };
    }
}

// Where what an operation makes of two expressions lies at a block's rows. It is a call of its own, so that a level of the expression
// takes room for the spans of one part alone.
#[cycle(short_spans)]
#[inline(never)]
fn joined_spans(
    operation: Operation,
    left: &Expr,
    right: &Expr,
    columns: &LentColumns<'_>,
    block: usize,
    spans: &mut [ShortInterval; 64],
)
    requires left { ReadsBelow (length columns.now.frame.columns) (term_of left.now) }
    requires right { ReadsBelow (length columns.now.frame.columns) (term_of right.now) }
    requires fits { FitsShort (term_with operation (term_of left.now) (term_of right.now)) (declared_ranges columns.now.frame) }
    requires block { 64 * block < columns.now.frame.rows }
    ensures { AreShortSpans (term_with operation (term_of left.now) (term_of right.now)) columns.now block spans.new }
{
    let count = (columns.rows() - 64 * block).min(64);
    let mut others = [ZERO; 64];
    short_spans(left, columns, block, spans);
    short_spans(right, columns, block, &mut others);
    join_each(operation, count, spans, &others);
}

// Where the expression lies at a block's rows. At a row where it is surely null it is some span inside the declared one.
#[cycle(short_spans)]
pub(crate) fn short_spans(
    expr: &Expr,
    columns: &LentColumns<'_>,
    block: usize,
    spans: &mut [ShortInterval; 64],
)
    requires columns { ReadsBelow (length columns.now.frame.columns) (term_of expr.now) }
    requires fits { FitsShort (term_of expr.now) (declared_ranges columns.now.frame) }
    requires block { 64 * block < columns.now.frame.rows }
    ensures { AreShortSpans (term_of expr.now) columns.now block spans.new }
{
    match expr {
        Expr::Column(column) => column_ranges(columns.column(*column as usize), block, spans),
        Expr::Literal(value) => repeat(*value as i64, spans),
        Expr::Add(a, b) => joined_spans(Operation::Sum, a, b, columns, block, spans),
        Expr::Sub(a, b) => joined_spans(Operation::Difference, a, b, columns, block, spans),
        Expr::Mul(a, b) => joined_spans(Operation::Product, a, b, columns, block, spans),
    }
}
