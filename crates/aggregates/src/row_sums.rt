//! Rows of a column, by how many they are and what the digits of their numbers come to.

ghost use Rattle.std.specs.Prelude.{◌≡◌, ◌≤◌, ◌<◌, ◌*◌, ◌^◌, List, Bool, length, count_by};
ghost use Rattle.plane_kernels.specs.Rows.{block_rows, rows_of, IsPadded};
ghost use Rattle.query_model.specs.Answers.{total};
ghost use Rattle.known_column.specs.Columns.{rows_of_column};
ghost use Rattle.aggregates.specs.RowSums.{AreSomeSums, AreSumsInBlock, AreSumsOf};
ghost use Rattle.aggregates.specs.Selections.{block_of, highs_in, lows_in, IsSmallSum, IsSumOfDigits, MayHaveValues};

use crate::digits::number_planes;
use crate::spans::{lows_of_rows, spans_of_rows};
use crate::sums::{SumSpan, sum_rows};
use known_column::Known;
use plane_kernels::{Mask, count_both, count_ones};

// How many rows they are, how many of them are at top's prefix, and the digits that were read of their numbers, added up as numbers.
#[derive(Clone, Copy)]
pub(crate) struct RowSums {
    pub(crate) rows: u64,
    pub(crate) at_top: u64,
    pub(crate) numbers: u128,
}

impl RowSums {
    // Those of no row.
    pub(crate) fn none() -> RowSums
        ensures rows { result.rows ≡ 0 }
        ensures at_top { result.at_top ≡ 0 }
        ensures numbers { result.numbers ≡ 0 }
    {
        RowSums {
            rows: 0,
            at_top: 0,
            numbers: 0,
        }
    }
}

// Those of rows of a block of 512.
pub(crate) fn sums_in_block(known: &Known, block: usize, rows: &[u64; 8]) -> RowSums
    requires block { 512 * block < rows_of_column known.now }
    requires rows { IsPadded (block_rows (rows_of_column known.now) block) rows.now }
    ensures sums { (mask : List Bool) → rows_of (block_rows (rows_of_column known.now) block) rows.now ≡ block_of block mask
        → AreSumsInBlock known.now block mask result }
    ensures few { result.numbers ≤ 2 ^ 88 }
{
    let _rows = known.rows();
    let (_, read) = number_planes(known);
    RowSums {
        rows: count_ones(rows),
        at_top: count_both(rows, &known.at_top().block(block)),
        numbers: sum_rows(known, block, rows, read),
    }
}

// The ends at the rows, added up: a high end lies above its low end by what is not read.
pub(crate) fn ends_of_sums(known: &Known, sums: RowSums) -> SumSpan
    requires sums { AreSomeSums known.now sums }
    ensures low { (mask : List Bool) → length mask ≡ rows_of_column known.now → MayHaveValues known.now mask → AreSumsOf known.now mask sums
        → result.low ≡ total (lows_in known.now mask) }
    ensures high { (mask : List Bool) → length mask ≡ rows_of_column known.now → MayHaveValues known.now mask
        → AreSumsOf known.now mask sums → result.high ≡ total (highs_in known.now mask) }
    ensures few { IsSmallSum result.low × IsSmallSum result.high }
{
    let _planes = number_planes(known);
    let _rows = known.rows();
    let unread = known.unread();
    let low = lows_of_rows(known.base(), sums.rows, sums.numbers, unread);
    let spans = spans_of_rows(known.base(), known.top(), unread, sums.rows, sums.at_top);
    SumSpan {
        low,
        high: low + spans as i128,
    }
}

// The same at the mask's rows, where it is known how many they are and what their digits come to.
pub(crate) fn ends_of_mask(known: &Known, mask: &Mask, rows: u64, numbers: u128) -> SumSpan
    requires long { length mask.now ≡ rows_of_column known.now }
    requires values { MayHaveValues known.now mask.now }
    requires rows { rows ≡ count_by (λ b. b) mask.now }
    requires numbers { IsSumOfDigits known.now mask.now numbers }
    ensures low { result.low ≡ total (lows_in known.now mask.now) }
    ensures high { result.high ≡ total (highs_in known.now mask.now) }
    ensures few { IsSmallSum result.low × IsSmallSum result.high }
{
    let _rows = known.rows();
    let at_top = mask.count_and(known.at_top());
    let sums = RowSums {
        rows,
        at_top,
        numbers,
    };
    ends_of_sums(known, sums)
}
