//! Where the numbers of a column lie at the rows of a block of 64.

ghost use Rattle.std.specs.Prelude.{◌≡◌, ◌≤◌, ◌<◌, ◌+◌, ◌-◌, ◌*◌};
ghost use Rattle.std.specs.Prelude.{◌^◌, min, nat_abs, pos, ◌+ℤ◌, ◌-ℤ◌, ◌≤ℤ◌};
ghost use Rattle.daq_table.specs.Tables.{width};
ghost use Rattle.known_column.specs.Columns.{rows_of_column};
ghost use Rattle.row_values.specs.ShortSpans.{AreShortRanges};

use crate::short::ShortInterval;
use known_column::Known;

// The first number that begins with these digits and has so many more. Where it has 64 more there are no digits, so they are 0.
fn first_of(unread: u8, digits: u64) -> u64
    requires unread { unread ≤ 64 }
    requires digits { digits * 2 ^ unread < 2 ^ 64 }
    ensures { result ≡ digits * 2 ^ unread }
{
    digits << unread.min(63)
}

// The first and the last number that begin with these digits and have so many more, of those up to the greatest.
fn numbers_of(greatest: u64, unread: u8, digits: u64) -> (u64, u64)
    requires unread { unread ≤ 64 }
    requires digits { digits * 2 ^ unread ≤ greatest }
    ensures first { result.0 ≡ digits * 2 ^ unread }
    ensures last { result.1 ≡ min (digits * 2 ^ unread + (2 ^ unread - 1)) greatest }
{
    let first = first_of(unread, digits);
    let rest = ((1u128 << unread) - 1) as u64;
    (first, first + rest.min(greatest - first))
}

// Those numbers, counted from base.
fn range_of(base: i64, top: i64, unread: u8, digits: u64) -> ShortInterval
    requires ordered { base ≤ℤ top }
    requires unread { unread ≤ 64 }
    requires digits { digits * 2 ^ unread ≤ nat_abs (top -ℤ base) }
    ensures lo { result.lo ≡ base +ℤ pos (digits * 2 ^ unread) }
    ensures hi { result.hi ≡ base +ℤ pos (min (digits * 2 ^ unread + (2 ^ unread - 1)) (nat_abs (top -ℤ base))) }
{
    let (first, last) = numbers_of(top.abs_diff(base), unread, digits);
    ShortInterval {
        lo: (i128::from(base) + i128::from(first)) as i64,
        hi: (i128::from(base) + i128::from(last)) as i64,
    }
}

// The ranges of a column at a block's rows. At a row that is surely null it is some range inside the declared one. It is a call of its own:
// else each level of an expression takes room for its numbers.
#[inline(never)]
pub(crate) fn column_ranges(known: &Known, block: usize, spans: &mut [ShortInterval; 64])
    requires { 64 * block < rows_of_column known.now }
    ensures { AreShortRanges known.now block spans.new }
{
    let mut numbers = [0; 64];
    known.numbers(block, &mut numbers);
    let unread = known.unread().min(known.width());
    for i in 0..(known.rows() - 64 * block).min(64) {
        spans[i] = range_of(known.base(), known.top(), unread, numbers[i]);
    }
}
