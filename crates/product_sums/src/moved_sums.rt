//! What rows that moved change of the sums of two columns, block by block of 512: what those give that came is added, and what those give
//! that left is taken off. The planes of one column are fetched once for a block, and counted in the rows of each plane of the other.

ghost use Rattle.std.specs.Prelude.{◌≡◌, ◌≤◌, ◌<◌, ◌+◌, ◌*◌, [], ◌*ℤ◌, false, length, IfSome};
ghost use Rattle.std.specs.Int.{int_wrap, w128};
ghost use Rattle.known_column.specs.KnownTables.{column_at};
ghost use Rattle.query_model.specs.Knowledge.{known_at};
ghost use Rattle.product_sums.specs.Fetched.{first_digit, IsFetchedColumn};
ghost use Rattle.product_sums.specs.KeptProducts.{whole_number, AreBlockSums, AreReadOn, IsPair};
ghost use Rattle.product_sums.specs.Products.{sum_over, CanMultiply};

use crate::fetched::{Fetched, PlaneRoom, fetch_column};
use crate::fetched_sums::sum_fetched_digits;
use crate::first_numbers::sum_first_digits;
use crate::pair_sums::{Pair, PairSums};
use crate::rows::Rows;
use crate::some_rows::PartRows;
use crate::wrapping::{plus, times};
use aggregates::number_planes;
use known_column::LentColumns;

// The numbers of a column at rows of a block, added up: in words that are fetched, where they are.
fn sum_numbers(
    columns: &LentColumns<'_>,
    column: u8,
    block: usize,
    rows: &Rows,
    fetched: &Option<Fetched>,
    room: &PlaneRoom,
) -> i128
    requires column { column < length columns.now.frame.columns }
    requires rows { CanMultiply columns.now block rows.now [] }
    requires fetched { IfSome fetched.now (λ words. IsFetchedColumn columns.now column block words room.now.planes) }
    ensures { result ≡ int_wrap w128 (sum_over rows.now (λ i. whole_number columns.now column (512 * block + i))) }
{
    if rows.count() == 0 {
        return 0;
    }
    match fetched {
        Some(words) => sum_fetched_digits(columns, block, rows, words, room),
        None => {
            let read = number_planes(columns.column(usize::from(column))).1;
            sum_first_digits(columns, column, read, rows, block)
        }
    }
}

// The numbers of the first column, each times that of the second, added up.
fn sum_both(
    columns: &LentColumns<'_>,
    pair: Pair,
    block: usize,
    rows: &Rows,
    fetched: &Option<Fetched>,
    room: &PlaneRoom,
) -> i128
    requires pair { IsPair columns.now pair }
    requires rows { CanMultiply columns.now block rows.now [] }
    requires fetched { IfSome fetched.now (λ words. IsFetchedColumn columns.now pair.first block words room.now.planes) }
    ensures { result ≡ int_wrap w128 (sum_over rows.now (λ i. whole_number columns.now pair.first (512 * block + i)
        *ℤ whole_number columns.now pair.second (512 * block + i))) }
{
    let known = columns.column(usize::from(pair.second));
    let (from, to) = number_planes(known);
    let mut sum: i128 = 0;
    for j in from..to {
        let ones = rows.and(&Rows::of_plane(known.plane(j), block));
        sum = plus(
            times(sum, 2),
            sum_numbers(columns, pair.first, block, &ones, fetched, room),
        );
    }
    sum
}

// What all planes of both columns give over rows of a block.
fn sums_in_block(
    columns: &LentColumns<'_>,
    pair: Pair,
    block: usize,
    rows: &Rows,
    room: &mut PlaneRoom,
) -> PairSums
    requires pair { IsPair columns.now pair }
    requires rows { CanMultiply columns.now block rows.now [] }
    ensures { AreBlockSums columns.now block rows.now pair result }
{
    let first_read = number_planes(columns.column(usize::from(pair.first))).1;
    let second_read = number_planes(columns.column(usize::from(pair.second))).1;
    if rows.count() == 0 {
        return PairSums {
            first_read,
            second_read,
            first: 0,
            second: 0,
            both: 0,
        };
    }
    let fetched = fetch_column(columns, pair.first, block, room);
    PairSums {
        first_read,
        second_read,
        first: sum_numbers(columns, pair.first, block, rows, &fetched, room),
        second: sum_first_digits(columns, pair.second, second_read, rows, block),
        both: sum_both(columns, pair, block, rows, &fetched, room),
    }
}

// Whether some plane that was read tells a digit of the column's numbers. Where none does, all of them are 0.
fn has_digits(columns: &LentColumns<'_>, column: u8) -> bool
    requires { column < length columns.now.frame.columns }
    ensures { result ≡ false → (known_at columns.now.known column).read ≤ first_digit (column_at columns.now column) }
{
    let (from, to) = number_planes(columns.column(usize::from(column)));
    from < to
}

// The sums over other rows, where these are all planes' over some. Blocks without a row that moved are passed over;
// while no plane tells a digit all sums stay 0, whatever moved.
pub(crate) fn move_sums(
    columns: &LentColumns<'_>,
    pair: Pair,
    sums: PairSums,
    old: &PartRows<'_>,
    new: &PartRows<'_>,
) -> PairSums
    requires pair { IsPair columns.now pair }
    requires sums { AreReadOn columns.now old.now pair sums }
    requires rows { length new.now ≡ columns.now.frame.rows }
    ensures { AreReadOn columns.now new.now pair result }
{
    let _rows = columns.rows();
    if !has_digits(columns, pair.first) && !has_digits(columns, pair.second) {
        return sums;
    }
    let mut room = PlaneRoom::new();
    let mut sums = sums;
    for block in 0..new.rows().div_ceil(512) {
        let before = old.block(block);
        let after = new.block(block);
        let came = sums_in_block(columns, pair, block, &after.and_not(&before), &mut room);
        let left = sums_in_block(columns, pair, block, &before.and_not(&after), &mut room);
        sums = sums.moved(came, left);
    }
    sums
}
