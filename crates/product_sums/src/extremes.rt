//! The outermost ends of an expression at the rows of a mask, where they are quickly found: where each column has its own outermost end at
//! one row, the expression has its there.

ghost use Rattle.std.specs.Prelude.{◌≡◌, ◌<◌, ◌*◌, ℕ, length, map, IfSome, IsTrue, Some};
ghost use Rattle.interval_calc.specs.Intervals.{interval_of};
ghost use Rattle.aggregates.specs.declared.ends.End.TheVariants.{Low, High};
ghost use Rattle.aggregates.specs.Selections.{has_row, rows_in, MayHaveValues};
ghost use Rattle.known_column.specs.Columns.{numbers_at, rows_of_column};
ghost use Rattle.query_model.specs.declared.query.ItemKind.TheVariants.{Max, Min};
ghost use Rattle.query_model.specs.Answers.{answer};
ghost use Rattle.query_model.specs.Knowledge.{ranges_of};
ghost use Rattle.query_model.specs.Meaning.{ReadsBelow};
ghost use Rattle.query_model.specs.Queries.{term_of};
ghost use Rattle.query_model.specs.Truths.{span_of, IsInside};
ghost use Rattle.query_model.specs.Validity.{declared_ranges, FitsWide};
ghost use Rattle.product_sums.specs.Products.{term_end, HasValues};

use crate::factors::other;
use crate::signs::end_beside;
use aggregates::{End, first_place, greatest_high, is_empty, least_low, number_planes};
use interval_calc::{Interval, add, exactly, mul, sub};
use known_column::{Known, LentColumns};
use plane_kernels::Mask;
use query_model::Expr;
use row_values::span_of;

// Where a column's numbers lie at the rows of a mask.
fn column_hull(known: &Known, mask: &Mask) -> Option<Interval>
    requires rows { length mask.now ≡ rows_of_column known.now }
    requires values { MayHaveValues known.now mask.now }
    ensures { IfSome result (λ s. (row : ℕ) → IsTrue (has_row mask.now row) → IsInside (numbers_at known.now row) (interval_of s)) }
{
    let lo = least_low(known, mask)?;
    let hi = greatest_high(known, mask)?;
    if lo <= hi {
        Some(Interval { lo, hi })
    } else {
        None
    }
}

// Where the expression lies at the rows of a mask, by interval arithmetic, if that is a span of 128 bits.
fn hull(expr: &Expr, columns: &LentColumns<'_>, mask: &Mask) -> Option<Interval>
    requires columns { ReadsBelow (length columns.now.frame.columns) (term_of expr.now) }
    requires rows { length mask.now ≡ columns.now.frame.rows }
    requires values { HasValues columns.now (term_of expr.now) mask.now }
    ensures { IfSome result (λ s. (row : ℕ) → IsTrue (has_row mask.now row)
        → IsInside (span_of (term_of expr.now) (ranges_of columns.now.frame columns.now.known row)) (interval_of s)) }
{
    let _rows = columns.rows();
    match expr {
        Expr::Column(column) => column_hull(columns.column(usize::from(*column)), mask),
        Expr::Literal(value) => Some(exactly(*value)),
        Expr::Add(a, b) => add(hull(a, columns, mask)?, hull(b, columns, mask)?),
        Expr::Sub(a, b) => sub(hull(a, columns, mask)?, hull(b, columns, mask)?),
        Expr::Mul(a, b) => mul(hull(a, columns, mask)?, hull(b, columns, mask)?),
    }
}

// The digits that were read of a column's outermost numbers at the rows of a mask, for at most 16 columns.
#[derive(Clone, Copy)]
struct OuterNumbers {
    least: [u128; 16],
    greatest: [u128; 16],
}

// The digits that were read of a number of a column.
fn digits_read(known: &Known, number: i128) -> u128 {
    let unread = u32::from(known.unread());
    let above = number.wrapping_sub(i128::from(known.base()));
    if unread < 128 {
        above.unsigned_abs() >> unread
    } else {
        0
    }
}

impl OuterNumbers {
    // Finds those of the columns of an expression. They say only where a row is looked for.
    fn find(&mut self, expr: &Expr, columns: &LentColumns<'_>, mask: &Mask)
        requires columns { ReadsBelow (length columns.now.frame.columns) (term_of expr.now) }
        requires rows { length mask.now ≡ columns.now.frame.rows }
        requires values { HasValues columns.now (term_of expr.now) mask.now }
    {
        match expr {
            Expr::Column(column) => {
                let place = usize::from(*column);
                let known = columns.column(place);
                if place < 16 {
                    self.least[place] = digits_read(known, least_low(known, mask).unwrap_or(0));
                    self.greatest[place] = digits_read(
                        known,
                        greatest_high(known, mask).unwrap_or(0),
                    );
                }
            }
            Expr::Literal(_) => {}
            Expr::Add(a, b) | Expr::Sub(a, b) | Expr::Mul(a, b) => {
                self.find(a, columns, mask);
                self.find(b, columns, mask);
            }
        }
    }

    // The outermost number of a column.
    fn number(&self, column: usize, end: End) -> u128 {
        let numbers = match end {
            End::Low => &self.least,
            End::High => &self.greatest,
        };
        if column < 16 { numbers[column] } else { 0 }
    }

    // Keeps those rows of a block at which each column has its outermost end.
    fn keep(
        &self,
        end: End,
        expr: &Expr,
        columns: &LentColumns<'_>,
        block: usize,
        rows: &mut [u64; 8],
    )
        requires columns { ReadsBelow (length columns.now.frame.columns) (term_of expr.now) }
        requires wide { FitsWide (term_of expr.now) (declared_ranges columns.now.frame) }
        requires block { 512 * block < columns.now.frame.rows }
    {
        match expr {
            Expr::Column(column) => {
                let place = usize::from(*column);
                keep_number(columns.column(place), self.number(place, end), block, rows);
            }
            Expr::Literal(_) => {}
            Expr::Add(a, b) => {
                self.keep(end, a, columns, block, rows);
                self.keep(end, b, columns, block, rows);
            }
            Expr::Sub(a, b) => {
                self.keep(end, a, columns, block, rows);
                self.keep(other(end), b, columns, block, rows);
            }
            Expr::Mul(a, b) => {
                self.keep(end_beside(b, end, columns), a, columns, block, rows);
                self.keep(end_beside(a, end, columns), b, columns, block, rows);
            }
        }
    }

    // A row of a mask at which each column has its outermost end, if there is one.
    fn row(&self, end: End, arg: &Expr, columns: &LentColumns<'_>, mask: &Mask) -> Option<usize>
        requires columns { ReadsBelow (length columns.now.frame.columns) (term_of arg.now) }
        requires wide { FitsWide (term_of arg.now) (declared_ranges columns.now.frame) }
        requires rows { length mask.now ≡ columns.now.frame.rows }
        ensures { IfSome result (λ row. IsTrue (has_row mask.now row)) }
    {
        for block in 0..mask.rows().div_ceil(512) {
            let mut rows = mask.block(block);
            self.keep(end, arg, columns, block, &mut rows);
            if !is_empty(&rows) {
                let place = first_place(&rows);
                if place < mask.rows() - 512 * block && mask.get(512 * block + place) {
                    return Some(512 * block + place);
                }
            }
        }
        None
    }
}

// Keeps those rows of a block whose digits make this number.
fn keep_number(known: &Known, number: u128, block: usize, rows: &mut [u64; 8])
    requires { 512 * block < rows_of_column known.now }
{
    let (from, to) = number_planes(known);
    for j in from..to {
        let digits = known.plane(j).block(block);
        let one = number >> (to - 1 - j).min(127) & 1 == 1;
        for k in 0..8 {
            rows[k] &= if one { digits[k] } else { !digits[k] };
        }
    }
}

/// The least low end and the greatest high end of an expression at the mask's rows, where rows that have them are quickly found.
pub(crate) fn outer_ends(arg: &Expr, columns: &LentColumns<'_>, mask: &Mask) -> Option<Interval>
    requires columns { ReadsBelow (length columns.now.frame.columns) (term_of arg.now) }
    requires wide { FitsWide (term_of arg.now) (declared_ranges columns.now.frame) }
    requires rows { length mask.now ≡ columns.now.frame.rows }
    requires values { HasValues columns.now (term_of arg.now) mask.now }
    ensures low { IfSome result (λ s. answer Min (map (term_end columns.now Low (term_of arg.now)) (rows_in mask.now)) ≡ Some s.lo) }
    ensures high { IfSome result (λ s. answer Max (map (term_end columns.now High (term_of arg.now)) (rows_in mask.now)) ≡ Some s.hi) }
{
    let hull = hull(arg, columns, mask)?;
    let mut outer = OuterNumbers {
        least: [0; 16],
        greatest: [0; 16],
    };
    outer.find(arg, columns, mask);
    let low = outer.row(End::Low, arg, columns, mask)?;
    let high = outer.row(End::High, arg, columns, mask)?;
    if span_of(arg, low, columns).lo == hull.lo && span_of(arg, high, columns).hi == hull.hi {
        Some(hull)
    } else {
        None
    }
}
