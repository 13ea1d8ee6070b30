//! What rows that may count and need not add to an end of a sum, block by block of 512.

ghost use Rattle.std.specs.Prelude.{◌≡◌, ◌<◌, ◌≤◌, ◌*◌, ◌^◌, ◌<ℤ◌, ◌≤ℤ◌, ◌&&◌, ◌||◌, if◌then◌else◌};
ghost use Rattle.std.specs.Prelude.{List, Bool, pos, int_lt, length, count_by, IsFalse, IsTrue};
ghost use Rattle.std.specs.Simd.Lanes.{zip2};
ghost use Rattle.plane_kernels.specs.Rows.{block_rows, rows_of, IsPadded};
ghost use Rattle.query_model.specs.Answers.{total};
ghost use Rattle.known_column.specs.Columns.{range_at, rows_of_column};
ghost use Rattle.aggregates.specs.Widening.{widening_rows, CanWiden, CoverOthers, NeverWidens};
ghost use Rattle.aggregates.specs.RowSums.{AreSomeSums, AreSumsOf, AreSumsInBlock};
ghost use Rattle.aggregates.specs.Selections.{block_of, ends_in, those_of, IsSmallSum, MayHaveValues};

use crate::block_words::{and_not_words, and_words, or_words};
use crate::digits::number_planes;
use crate::ends::End;
use crate::row_sums::{RowSums, ends_of_sums, sums_in_block};
use crate::signs::{begins_below, ends_above};
use known_column::Known;
use plane_kernels::Mask;

/// Rows that may count and need not, and that widen an end of a sum: how many they are, and what they add to it.
#[derive(Clone, Copy, Debug, PartialEq, Eq)]
pub struct OtherRows {
    pub rows: u64,
    pub sum: i128,
}

// The rows of a block that are in `beyond`, or, `with_level`, in `level`.
#[inline(always)]
fn marks_in(beyond: &Mask, level: &Mask, with_level: bool, block: usize) -> [u64; 8]
    requires level { length level.now ≡ length beyond.now }
    requires block { 512 * block < length beyond.now }
    ensures padded { IsPadded (block_rows (length beyond.now) block) result }
    ensures marks { rows_of (block_rows (length beyond.now) block) result
        ≡ block_of block (if with_level then zip2 (λ a b. a || b) beyond.now level.now else beyond.now) }
{
    if with_level {
        or_words(&beyond.block(block), &level.block(block))
    } else {
        beyond.block(block)
    }
}

// Those of them that are among these.
#[inline(always)]
fn marked_in(
    beyond: &Mask,
    level: &Mask,
    with_level: bool,
    block: usize,
    rows: &[u64; 8],
) -> [u64; 8]
    requires level { length level.now ≡ length beyond.now }
    requires block { 512 * block < length beyond.now }
    requires rows { IsPadded (block_rows (length beyond.now) block) rows.now }
    ensures padded { IsPadded (block_rows (length beyond.now) block) result }
    ensures marked { (within : List Bool) → rows_of (block_rows (length beyond.now) block) rows.now ≡ block_of block within
        → rows_of (block_rows (length beyond.now) block) result
        ≡ block_of block (zip2 (λ a b. a && b) (if with_level then zip2 (λ a b. a || b) beyond.now level.now else beyond.now) within) }
{
    and_words(&marks_in(beyond, level, with_level, block), rows)
}

// Those of a block's rows whose low end is below 0, in a column that may have such numbers.
fn negative_in(known: &Known, block: usize, rows: &[u64; 8]) -> [u64; 8]
    requires block { 512 * block < rows_of_column known.now }
    requires rows { IsPadded (block_rows (rows_of_column known.now) block) rows.now }
    requires base { known.now.ends.base <ℤ pos 0 }
    ensures padded { IsPadded (block_rows (rows_of_column known.now) block) result }
    ensures those { (within : List Bool) → length within ≡ rows_of_column known.now → MayHaveValues known.now within
        → rows_of (block_rows (rows_of_column known.now) block) rows.now ≡ block_of block within
        → rows_of (block_rows (rows_of_column known.now) block) result
        ≡ block_of block (those_of within (λ row. int_lt (range_at known.now row).numbers.low (pos 0))) }
{
    let _planes = number_planes(known);
    if known.top() < 0 {
        return *rows;
    }
    let with_level = begins_below(known.base(), known.unread());
    marked_in(known.below(), known.level(), with_level, block, rows)
}

// Whether each high end is above 0, in a column that may have such numbers: it begins above 0, or with 0 and a digit is unread.
fn all_positive(known: &Known) -> bool
    requires top { pos 0 <ℤ known.now.ends.top }
    ensures all { IsTrue result → (within : List Bool) → length within ≡ rows_of_column known.now → MayHaveValues known.now within
        → within ≡ those_of within (λ row. int_lt (pos 0) (range_at known.now row).numbers.high) }
    ensures some { IsFalse result → known.now.ends.base ≤ℤ pos 0 }
{
    let _planes = number_planes(known);
    let base = known.base();
    if base == 0 {
        known.unread() > 0
    } else {
        base > 0
    }
}

// Those of a block's rows whose high end is above 0, in such a column.
fn positive_in(known: &Known, block: usize, rows: &[u64; 8]) -> [u64; 8]
    requires block { 512 * block < rows_of_column known.now }
    requires rows { IsPadded (block_rows (rows_of_column known.now) block) rows.now }
    requires top { pos 0 <ℤ known.now.ends.top }
    ensures padded { IsPadded (block_rows (rows_of_column known.now) block) result }
    ensures those { (within : List Bool) → length within ≡ rows_of_column known.now → MayHaveValues known.now within
        → rows_of (block_rows (rows_of_column known.now) block) rows.now ≡ block_of block within
        → rows_of (block_rows (rows_of_column known.now) block) result
        ≡ block_of block (those_of within (λ row. int_lt (pos 0) (range_at known.now row).numbers.high)) }
{
    let _planes = number_planes(known);
    if all_positive(known) {
        return *rows;
    }
    let with_level = ends_above(known.base(), known.unread());
    marked_in(known.above(), known.level(), with_level, block, rows)
}

// The rows of a block that may count, need not, and widen the sum.
fn others_in(end: End, known: &Known, may: &Mask, must: &Mask, block: usize) -> [u64; 8]
    requires may { length may.now ≡ rows_of_column known.now }
    requires must { length must.now ≡ rows_of_column known.now }
    requires values { MayHaveValues known.now may.now }
    requires block { 512 * block < rows_of_column known.now }
    requires some { CanWiden end known.now.ends }
    ensures padded { IsPadded (block_rows (rows_of_column known.now) block) result }
    ensures rows { rows_of (block_rows (rows_of_column known.now) block) result
        ≡ block_of block (widening_rows end known.now may.now must.now) }
{
    let rows = and_not_words(&may.block(block), &must.block(block));
    match end {
        End::Low => negative_in(known, block, &rows),
        End::High => positive_in(known, block, &rows),
    }
}

// What the rows of a block come to, of those that widen the sum. A block without others is passed over.
fn sums_in(end: End, known: &Known, may: &Mask, must: &Mask, blocks: &Mask, block: usize) -> RowSums
    requires may { length may.now ≡ rows_of_column known.now }
    requires must { length must.now ≡ rows_of_column known.now }
    requires values { MayHaveValues known.now may.now }
    requires blocks { CoverOthers may.now must.now blocks.now }
    requires block { 512 * block < rows_of_column known.now }
    requires some { CanWiden end known.now.ends }
    ensures sums { AreSumsInBlock known.now block (widening_rows end known.now may.now must.now) result }
    ensures few { result.numbers ≤ 2 ^ 88 }
{
    if !blocks.get(block) {
        return RowSums::none();
    }
    let rows = others_in(end, known, may, must, block);
    sums_in_block(known, block, &rows)
}

// The same of all rows.
fn add_others(end: End, known: &Known, may: &Mask, must: &Mask, blocks: &Mask) -> RowSums
    requires may { length may.now ≡ rows_of_column known.now }
    requires must { length must.now ≡ rows_of_column known.now }
    requires values { MayHaveValues known.now may.now }
    requires blocks { CoverOthers may.now must.now blocks.now }
    requires some { CanWiden end known.now.ends }
    ensures { AreSumsOf known.now (widening_rows end known.now may.now must.now) result }
{
    let _planes = number_planes(known);
    let _rows = known.rows();
    let mut sums = RowSums::none();
    for block in 0..may.rows().div_ceil(512) {
        let more = sums_in(end, known, may, must, blocks, block);
        sums.rows += more.rows;
        sums.at_top += more.at_top;
        sums.numbers += more.numbers;
    }
    sums
}

// One of the ends at the rows, added up.
fn end_of_sums(end: End, known: &Known, sums: RowSums) -> i128
    requires sums { AreSomeSums known.now sums }
    ensures sum { (mask : List Bool) → length mask ≡ rows_of_column known.now → MayHaveValues known.now mask → AreSumsOf known.now mask sums
        → result ≡ total (ends_in end known.now mask) }
    ensures few { IsSmallSum result }
{
    let ends = ends_of_sums(known, sums);
    match end {
        End::Low => ends.low,
        End::High => ends.high,
    }
}

// Whether a number of the column may widen the sum at this end.
fn can_widen(end: End, known: &Known) -> bool
    ensures yes { IsTrue result → CanWiden end known.now.ends }
    ensures no { IsFalse result → NeverWidens end known.now.ends }
{
    match end {
        End::Low => known.base() < 0,
        End::High => known.top() > 0,
    }
}

/// The rows that widen an end of a sum, of those that may count and need not. They stand in these blocks of 512 rows alone, of which
/// there is a bit for each.
pub fn sum_others(end: End, known: &Known, may: &Mask, must: &Mask, blocks: &Mask) -> OtherRows
    requires may { length may.now ≡ rows_of_column known.now }
    requires must { length must.now ≡ rows_of_column known.now }
    requires values { MayHaveValues known.now may.now }
    requires blocks { CoverOthers may.now must.now blocks.now }
    ensures rows { result.rows ≡ count_by (λ b. b) (widening_rows end known.now may.now must.now) }
    ensures sum { result.sum ≡ total (ends_in end known.now (widening_rows end known.now may.now must.now)) }
    ensures few { IsSmallSum result.sum }
{
    if !can_widen(end, known) {
        return OtherRows { rows: 0, sum: 0 };
    }
    let sums = add_others(end, known, may, must, blocks);
    OtherRows {
        rows: sums.rows,
        sum: end_of_sums(end, known, sums),
    }
}
