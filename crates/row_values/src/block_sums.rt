//! What a sum keeps of rows, added block by block by numbers of 64 bits.

ghost use Rattle.std.specs.Prelude.{◌≡◌, ◌<◌, ◌+◌, ◌*◌, ◌++◌, List, length, IsTrue};
ghost use Rattle.aggregates.specs.Tallies.{tally_of};
ghost use Rattle.query_model.specs.declared.query.ItemKind.TheVariants.{Sum};
ghost use Rattle.query_model.specs.Bounds.{Pair};
ghost use Rattle.query_model.specs.Meaning.{ReadsBelow};
ghost use Rattle.query_model.specs.Queries.{term_of};
ghost use Rattle.query_model.specs.Validity.{declared_ranges};
ghost use Rattle.row_values.specs.BlockSums.{row_pairs, FitsSmall, HasBlocks};

use crate::block_nulls::{possible_rows, sure_rows};
use crate::row_ends::{greatest_high, least_low};
use crate::shares::shares_of;
use crate::short::ZERO;
use crate::short_spans::{declared_span, short_spans};
use aggregates::Tally;
use known_column::LentColumns;
use query_model::Expr;

// 64 numbers up to this one can be added in 64 bits.
const MOST: i64 = 144115188075855871;

/// Whether a sum of the expression can be added by numbers of 64 bits, by what is declared of its columns.
pub fn fits_small(expr: &Expr, columns: &LentColumns<'_>) -> bool
    requires { ReadsBelow (length columns.now.frame.columns) (term_of expr.now) }
    ensures { IsTrue result → FitsSmall (term_of expr.now) (declared_ranges columns.now.frame) }
{
    match declared_span(expr, columns) {
        Some(span) => -MOST <= span.lo && span.hi <= MOST,
        None => false,
    }
}

/// Adds the rows of a block, from row 64 * number on, to what a sum keeps of the rows before. Bit r of a word is that of row r of the
/// block: it may count where its bit in the first is 1 and the expression may have a value, and surely counts where besides its bit in the
/// second is 1 and the expression surely has one.
pub fn add_rows(
    expr: &Expr,
    columns: &LentColumns<'_>,
    number: usize,
    may: u64,
    must: u64,
    tally: &mut Tally,
)
    requires columns { ReadsBelow (length columns.now.frame.columns) (term_of expr.now) }
    requires small { FitsSmall (term_of expr.now) (declared_ranges columns.now.frame) }
    requires number { 64 * number < columns.now.frame.rows }
    requires held { HasBlocks number tally.old }
    ensures held { HasBlocks (number + 1) tally.new }
    ensures tally { (ps : List Pair) → tally.old ≡ tally_of Sum ps
        → tally.new ≡ tally_of Sum (ps ++ row_pairs (term_of expr.now) columns.now number may must) }
{
    let may = may & possible_rows(expr, columns, number);
    let must = must & sure_rows(expr, columns, number);
    let count = (columns.rows() - 64 * number).min(64);
    let mut spans = [ZERO; 64];
    short_spans(expr, columns, number, &mut spans);
    let shares = shares_of(may, must, count, &spans);
    tally.all += shares.all;
    tally.certain += shares.certain;
    let none = tally.certain == 0;
    tally.least_low = least_low(none, tally.least_low, may, count, &spans);
    tally.greatest_high = greatest_high(none, tally.greatest_high, may, count, &spans);
    tally.low_sum += i128::from(shares.low);
    tally.high_sum += i128::from(shares.high);
}
