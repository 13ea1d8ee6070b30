//! What an expression may be at the rows of a block of 64, by numbers of 64 bits.

ghost use Rattle.std.specs.Prelude.{◌<◌, ◌*◌, length, IsTrue};
ghost use Rattle.query_model.specs.Meaning.{ReadsBelow};
ghost use Rattle.query_model.specs.Queries.{term_of};
ghost use Rattle.query_model.specs.Validity.{declared_ranges};
ghost use Rattle.row_values.specs.BlockValues.{AreShortValues};
ghost use Rattle.row_values.specs.ShortSpans.{FitsCells, FitsShort};

use crate::block_nulls::{possible_rows, sure_rows};
use crate::short::{ShortInterval, ZERO};
use crate::short_spans::{declared_span, short_spans};
use known_column::LentColumns;
use query_model::Expr;

// As many numbers up to this one as a table has rows can be added in 64 bits.
const MOST: i64 = 549755813887;

/// Whether the expression's values over all rows of a table can be added by numbers of 64 bits, by what is declared of its columns.
pub fn fits_cells(expr: &Expr, columns: &LentColumns<'_>) -> bool
    requires { ReadsBelow (length columns.now.frame.columns) (term_of expr.now) }
    ensures { IsTrue result → FitsCells (term_of expr.now) (declared_ranges columns.now.frame) }
{
    match declared_span(expr, columns) {
        Some(span) => -MOST <= span.lo && span.hi <= MOST,
        None => false,
    }
}

/// For each row of a block whether an expression may have a value there, whether it surely has one (bit r of a word is that of row r),
/// and where it lies. At a row where it is surely null the span is some one inside the declared one; what stands behind the last row is of
/// no meaning.
#[derive(Drop)]
pub struct ShortValues {
    pub possible: u64,
    pub sure: u64,
    pub spans: [ShortInterval; 64],
}

impl ShortValues {
    /// What is known of the rows of a block, from row 64 * number on.
    pub fn read(expr: &Expr, columns: &LentColumns<'_>, number: usize) -> ShortValues
        requires columns { ReadsBelow (length columns.now.frame.columns) (term_of expr.now) }
        requires fits { FitsShort (term_of expr.now) (declared_ranges columns.now.frame) }
        requires number { 64 * number < columns.now.frame.rows }
        ensures { AreShortValues (term_of expr.now) columns.now number result }
    {
        let mut spans = [ZERO; 64];
        short_spans(expr, columns, number, &mut spans);
        ShortValues {
            possible: possible_rows(expr, columns, number),
            sure: sure_rows(expr, columns, number),
            spans,
        }
    }
}
