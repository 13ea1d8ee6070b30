//! Sums of the ends at some rows, by counts of rows, block by block and plane by plane.

ghost use Rattle.std.specs.Prelude.{◌≡◌, ◌≤◌, ◌<◌, ◌*◌, ◌^◌, ◌≤ℤ◌, negsuc, pos, length, map};
ghost use Rattle.query_model.specs.Answers.{total};
ghost use Rattle.known_column.specs.Columns.{number_of, rows_of_column};
ghost use Rattle.plane_kernels.specs.Rows.{block_rows, rows_of, IsPadded};
ghost use Rattle.aggregates.specs.Selections.{IsSmallSum, IsSumOfDigits, MayHaveValues, block_of};
ghost use Rattle.aggregates.specs.Selections.{early_number, highs_in, lows_in, sum_of_first, sum_where};

use crate::block_words::is_empty;
use crate::digits::number_planes;
use crate::row_sums::ends_of_mask;
use crate::spans::lows_of_rows;
use known_column::Known;
use plane_kernels::{Mask, count_both};

// The digits that the first planes gave of the numbers at some rows of a block of 512, added up as numbers. Where there is no row no
// plane is read.
pub(crate) fn sum_rows(known: &Known, block: usize, rows: &[u64; 8], read: u8) -> u128
    requires block { 512 * block < rows_of_column known.now }
    requires rows { IsPadded (block_rows (rows_of_column known.now) block) rows.now }
    requires read { read ≤ known.now.known.read }
    ensures sum { result ≡ sum_where (rows_of (block_rows (rows_of_column known.now) block) rows.now)
        (map (early_number known.now read) (block_of block known.now.known.prefixes)) }
    ensures few { result ≤ 2 ^ 88 }
{
    let (from, _) = number_planes(known);
    if is_empty(rows) {
        return 0;
    }
    let mut sum = 0;
    for j in from.min(read)..read {
        sum = 2 * sum + u128::from(count_both(rows, &known.plane(j).block(block)));
    }
    sum
}

// The digits that were read of the numbers at the mask's rows of a block of 512, added up as numbers.
fn sum_block(known: &Known, mask: &Mask, block: usize) -> u128
    requires rows { length mask.now ≡ rows_of_column known.now }
    requires block { 512 * block < rows_of_column known.now }
    ensures sum { result ≡ sum_where (block_of block mask.now)
        (map (number_of known.now.ends known.now.known.read) (block_of block known.now.known.prefixes)) }
    ensures few { result ≤ 2 ^ 88 }
{
    let rows = mask.block(block);
    let (_, read) = number_planes(known);
    sum_rows(known, block, &rows, read)
}

// The digits that were read of the numbers at the mask's rows, added up as numbers, block by block.
fn sum_by_blocks(known: &Known, mask: &Mask) -> u128
    requires rows { length mask.now ≡ rows_of_column known.now }
    ensures { IsSumOfDigits known.now mask.now result }
{
    let _planes = number_planes(known);
    let _rows = known.rows();
    let mut sum = 0;
    for block in 0..mask.rows().div_ceil(512) {
        sum += sum_block(known, mask, block);
    }
    sum
}

// The same, where the sum of what the first planes gave is known. Each other plane is read from its first row to its last.
pub(crate) fn sum_further(known: &Known, mask: &Mask, first: u128, read: u8) -> u128
    requires rows { length mask.now ≡ rows_of_column known.now }
    requires read { read ≤ known.now.known.read }
    requires first { first ≡ sum_of_first known.now read mask.now }
    ensures { IsSumOfDigits known.now mask.now result }
{
    let (from, to) = number_planes(known);
    let mut sum = first;
    for j in from.max(read)..to {
        sum = 2 * sum + u128::from(mask.count_plane(known.plane(j)));
    }
    sum
}

// The same, plane by plane.
fn sum_by_planes(known: &Known, mask: &Mask) -> u128
    requires rows { length mask.now ≡ rows_of_column known.now }
    ensures { IsSumOfDigits known.now mask.now result }
{
    let _planes = number_planes(known);
    sum_further(known, mask, 0, 0)
}

// Whether more than half of the blocks have rows. It affects speed alone.
fn is_dense(mask: &Mask) -> bool {
    let blocks = mask.rows().div_ceil(512);
    let mut used = 0;
    for block in 0..blocks {
        if !is_empty(&mask.block(block)) {
            used += 1;
        }
        if used > blocks / 2 {
            return true;
        }
    }
    false
}

// The same, in the way that is faster.
pub(crate) fn sum_numbers(known: &Known, mask: &Mask) -> u128
    requires rows { length mask.now ≡ rows_of_column known.now }
    ensures { IsSumOfDigits known.now mask.now result }
{
    let (from, to) = number_planes(known);
    if from == to || is_dense(mask) {
        sum_by_planes(known, mask)
    } else {
        sum_by_blocks(known, mask)
    }
}

// The low ends at the mask's rows, added up, where the sum of their digits is known.
fn lows_by_digits(known: &Known, mask: &Mask, numbers: u128) -> i128
    requires rows { length mask.now ≡ rows_of_column known.now }
    requires values { MayHaveValues known.now mask.now }
    requires numbers { IsSumOfDigits known.now mask.now numbers }
    ensures sum { result ≡ total (lows_in known.now mask.now) }
    ensures few { (negsuc 1237940039285380274899124224 ≤ℤ result) × (result ≤ℤ pos 1237940039285380274899124224) }
{
    let unread = known.unread();
    let _rows = known.rows();
    lows_of_rows(known.base(), mask.count(), numbers, unread)
}

// The low ends at the mask's rows, added up.
pub(crate) fn add_lows(known: &Known, mask: &Mask) -> i128
    requires rows { length mask.now ≡ rows_of_column known.now }
    requires values { MayHaveValues known.now mask.now }
    ensures sum { result ≡ total (lows_in known.now mask.now) }
    ensures few { (negsuc 1237940039285380274899124224 ≤ℤ result) × (result ≤ℤ pos 1237940039285380274899124224) }
{
    lows_by_digits(known, mask, sum_numbers(known, mask))
}

/// The ends at some rows, added up.
#[derive(Clone, Copy, Debug, PartialEq, Eq)]
pub struct SumSpan {
    pub low: i128,
    pub high: i128,
}

// Both ends at the mask's rows, added up. Their digits are added once.
pub(crate) fn add_ends(known: &Known, mask: &Mask) -> SumSpan
    requires rows { length mask.now ≡ rows_of_column known.now }
    requires values { MayHaveValues known.now mask.now }
    ensures low { result.low ≡ total (lows_in known.now mask.now) }
    ensures high { result.high ≡ total (highs_in known.now mask.now) }
    ensures few { IsSmallSum result.low × IsSmallSum result.high }
{
    ends_of_mask(known, mask, mask.count(), sum_numbers(known, mask))
}
