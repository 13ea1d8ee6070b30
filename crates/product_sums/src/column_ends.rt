//! An end of a column as a sum: a number for every row, another for each digit that was read, and less at the prefix of top.

ghost use Rattle.std.specs.Prelude.{◌≡◌, ◌≤◌, ◌-◌, ◌^◌, ◌%◌, ◌-ℤ◌, nat_abs, pos};
ghost use Rattle.product_sums.specs.ColumnEnds.{weight_of_all, weight_of_top, weight_of_digits};

use aggregates::{End, block_span, number_planes, top_span};
use known_column::Known;

// An end of a column.
#[derive(Clone, Copy)]
pub(crate) struct ColumnEnd {
    pub(crate) column: u8,
    pub(crate) end: End,
}

// How far the range at top's prefix ends before the last number that has its digits.
fn clipped(base: i64, top: i64, unread: u8) -> i128
    requires { unread ≤ 65 }
    ensures { result ≡ pos (2 ^ unread - 1 - nat_abs (top -ℤ base) % 2 ^ unread) }
{
    (block_span(unread) - top_span(base, top, unread)) as i128
}

// What each row adds to the sum of an end.
pub(crate) fn weight_of_all(end: End, known: &Known) -> i128
    ensures { result ≡ weight_of_all end known.now }
{
    let _planes = number_planes(known);
    let base = i128::from(known.base());
    match end {
        End::Low => base,
        End::High => base + block_span(known.unread()) as i128,
    }
}

// What the number of the digits that were read is multiplied by.
pub(crate) fn weight_of_digits(known: &Known) -> i128
    ensures { result ≡ weight_of_digits known.now }
{
    let _planes = number_planes(known);
    block_span(known.unread()) as i128 + 1
}

// What a row at top's prefix adds less.
pub(crate) fn weight_of_top(end: End, known: &Known) -> i128
    ensures { result ≡ weight_of_top end known.now }
{
    let _planes = number_planes(known);
    match end {
        End::Low => 0,
        End::High => clipped(known.base(), known.top(), known.unread()),
    }
}
