//! The numbers that the first planes of a column make, added up over some rows.

ghost use Rattle.std.specs.Prelude.{◌≡◌, ◌<◌, ◌≤◌, ◌+◌, ◌*◌, [], pos, length};
ghost use Rattle.std.specs.Int.{int_wrap, w128};
ghost use Rattle.aggregates.specs.Selections.{block_of};
ghost use Rattle.query_model.specs.Knowledge.{known_at};
ghost use Rattle.product_sums.specs.KeptProducts.{first_number};
ghost use Rattle.product_sums.specs.Products.{sum_over, CanMultiply};

use crate::rows::Rows;
use crate::some_rows::SomeRows;
use crate::wrapping::{plus, times};
use aggregates::number_planes;
use known_column::LentColumns;

// These over rows of a block.
pub(crate) fn sum_first_digits(
    columns: &LentColumns<'_>,
    column: u8,
    read: u8,
    rows: &Rows,
    block: usize,
) -> i128
    requires column { column < length columns.now.frame.columns }
    requires read { read ≤ (known_at columns.now.known column).read }
    requires rows { CanMultiply columns.now block rows.now [] }
    ensures { result ≡ int_wrap w128 (sum_over rows.now (λ i. pos (first_number columns.now column read (512 * block + i)))) }
{
    let known = columns.column(usize::from(column));
    let from = number_planes(known).0;
    let mut sum: i128 = 0;
    for j in from..from.max(read) {
        let ones = rows.count_words(&known.plane(j).block(block));
        sum = plus(times(sum, 2), i128::from(ones));
    }
    sum
}

// How many rows there are, and the numbers at them, added up.
#[derive(Clone, Copy)]
pub(crate) struct RowNumbers {
    pub(crate) rows: i128,
    pub(crate) numbers: i128,
}

// These over the rows of a block.
fn sum_first_in_block(
    columns: &LentColumns<'_>,
    column: u8,
    read: u8,
    rows: &SomeRows<'_>,
    block: usize,
) -> RowNumbers
    requires column { column < length columns.now.frame.columns }
    requires read { read ≤ (known_at columns.now.known column).read }
    requires rows { length rows.now ≡ columns.now.frame.rows }
    requires block { 512 * block < columns.now.frame.rows }
    ensures rows { result.rows ≡ int_wrap w128 (sum_over (block_of block rows.now) (λ i. pos 1)) }
    ensures numbers { result.numbers ≡ int_wrap w128 (sum_over (block_of block rows.now)
        (λ i. pos (first_number columns.now column read (512 * block + i)))) }
{
    let _rows = columns.rows();
    let here = rows.block(block);
    let count = here.count();
    if count == 0 {
        return RowNumbers {
            rows: 0,
            numbers: 0,
        };
    }
    RowNumbers {
        rows: i128::from(count),
        numbers: sum_first_digits(columns, column, read, &here, block),
    }
}

// These over all of the rows.
pub(crate) fn sum_first(
    columns: &LentColumns<'_>,
    column: u8,
    read: u8,
    rows: &SomeRows<'_>,
) -> RowNumbers
    requires column { column < length columns.now.frame.columns }
    requires read { read ≤ (known_at columns.now.known column).read }
    requires rows { length rows.now ≡ columns.now.frame.rows }
    ensures rows { result.rows ≡ int_wrap w128 (sum_over rows.now (λ r. pos 1)) }
    ensures numbers { result.numbers ≡ int_wrap w128 (sum_over rows.now (λ r. pos (first_number columns.now column read r))) }
{
    let _rows = columns.rows();
    let mut count: i128 = 0;
    let mut numbers: i128 = 0;
    for block in 0..rows.rows().div_ceil(512) {
        let more = sum_first_in_block(columns, column, read, rows, block);
        count = plus(count, more.rows);
        numbers = plus(numbers, more.numbers);
    }
    RowNumbers {
        rows: count,
        numbers,
    }
}
