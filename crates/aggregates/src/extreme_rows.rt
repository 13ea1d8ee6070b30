//! The row of a mask whose number is least or greatest, as far as its digits were read, by blocks of 512 rows.

ghost use Rattle.std.specs.Prelude.{◌≡◌, ◌<◌, ◌≤◌, ◌+◌, ◌*◌, ◌⊎◌, ℕ, true, length, IfSome, IsNone, IsTrue, Some};
ghost use Rattle.known_column.specs.Columns.{rows_of_column};
ghost use Rattle.aggregates.specs.ExtremeRows.{is_ahead, is_further, number_at, number_so_far, AreZero, IsAsFar, IsBehind};
ghost use Rattle.aggregates.specs.ExtremeRows.{IsBestAmong, IsBestOf, IsExtreme, IsExtremeDigit, IsExtremeRow, IsNarrowed, Reaches};
ghost use Rattle.aggregates.specs.Selections.{has_row, IsPartOf, IsSound, MayHaveValues};

use crate::block_words::{first_place, is_empty};
use crate::digits::number_planes;
use known_column::Known;
use plane_kernels::Mask;
use std::simd::prelude::*;

/// Which of some numbers is sought.
#[derive(Clone, Copy)]
pub enum Extreme {
    Least,
    Greatest,
}

// A row, and the digits of its number that were read, as one number.
#[derive(Clone, Copy)]
pub(crate) struct Candidate {
    pub(crate) row: usize,
    number: u64,
}

// The extreme digit of candidates, of which these have 0 and these have 1.
fn extreme_digit(extreme: Extreme, zeros: &[u64; 8], ones: &[u64; 8]) -> bool
    ensures { IsExtremeDigit extreme zeros.now ones.now result }
{
    match extreme {
        Extreme::Least => is_empty(zeros),
        Extreme::Greatest => !is_empty(ones),
    }
}

// Keeps the candidates that have their extreme digit, and tells that digit.
#[inline(always)]
fn narrow(extreme: Extreme, candidates: &[u64; 8], digits: &[u64; 8]) -> ([u64; 8], bool)
    requires { ¬ AreZero candidates.now }
    ensures { IsNarrowed extreme candidates.now digits.now result.0 result.1 }
{
    let all = u64x8::from_array(*candidates);
    let with_one = u64x8::from_array(*digits);
    let zeros = (all & !with_one).to_array();
    let ones = (all & with_one).to_array();
    let digit = extreme_digit(extreme, &zeros, &ones);
    (if digit { ones } else { zeros }, digit)
}

// Whether the first number lies further out.
fn is_further(extreme: Extreme, a: u64, b: u64) -> bool
    ensures { result ≡ is_further extreme a b }
{
    match extreme {
        Extreme::Least => a < b,
        Extreme::Greatest => a > b,
    }
}

// Whether the best so far lies further out than every number that begins with these digits and has so many more.
fn is_ahead(extreme: Extreme, best: Option<Candidate>, digits: u64, left: u8) -> bool
    requires { left < 64 }
    ensures { result ≡ is_ahead extreme best digits left }
{
    match best {
        Some(best) => is_further(extreme, best.number >> left, digits),
        None => false,
    }
}

// The extreme row of a block, or none where each of its rows lies behind the best so far. The block is left where its rows fall behind.
pub(crate) fn extreme_in_block(
    extreme: Extreme,
    known: &Known,
    mask: &Mask,
    block: usize,
    best: Option<Candidate>,
) -> Option<Candidate>
    requires rows { length mask.now ≡ rows_of_column known.now }
    requires values { MayHaveValues known.now mask.now }
    requires block { 512 * block < rows_of_column known.now }
    requires best { (to : ℕ) × IsBestAmong extreme known.now mask.now 0 to best }
    ensures behind { IsNone result → (r : ℕ) → 512 * block ≤ r → r < 512 * block + 512 → IsTrue (has_row mask.now r)
        → IsBehind extreme (number_so_far best) (number_at known.now r) }
    ensures found { IfSome result (IsBestOf extreme known.now mask.now (512 * block) (512 * block + 512)) }
{
    let mut candidates = mask.block(block);
    if is_empty(&candidates) {
        return None;
    }
    let (from, to) = number_planes(known);
    let mut number = 0;
    for j in from..to {
        let digits = known.plane(j).block(block);
        let (left, digit) = narrow(extreme, &candidates, &digits);
        candidates = left;
        number = 2 * number + u64::from(digit);
        if is_ahead(extreme, best, number, to - j - 1) {
            return None;
        }
    }
    Some(Candidate {
        row: 512 * block + first_place(&candidates),
        number,
    })
}

// The best of those so far and one more: the earlier one, where neither lies further out.
pub(crate) fn better(extreme: Extreme, best: Option<Candidate>, found: Candidate) -> Candidate
    ensures one { (result ≡ found) ⊎ (Some result ≡ best) }
    ensures far { IsAsFar extreme result.number found.number }
    ensures best { Reaches extreme (Some result.number) (number_so_far best) }
{
    match best {
        Some(best) if !is_further(extreme, found.number, best.number) => best,
        _ => found,
    }
}

// The extreme row of those before a block, which is known, and of the block.
pub(crate) fn extreme_so_far(
    extreme: Extreme,
    known: &Known,
    mask: &Mask,
    block: usize,
    best: Option<Candidate>,
) -> Option<Candidate>
    requires rows { length mask.now ≡ rows_of_column known.now }
    requires values { MayHaveValues known.now mask.now }
    requires block { 512 * block < rows_of_column known.now }
    requires best { IsBestAmong extreme known.now mask.now 0 (512 * block) best }
    ensures best { IsBestAmong extreme known.now mask.now 0 (512 * block + 512) result }
    ensures reaches { Reaches extreme (number_so_far result) (number_so_far best) }
{
    match extreme_in_block(extreme, known, mask, block, best) {
        Some(found) => Some(better(extreme, best, found)),
        None => best,
    }
}

// Whether no number lies further out: none is less than 0, and none lies beyond that of top.
fn is_outermost(extreme: Extreme, known: &Known, found: Candidate) -> bool
    requires row { found.row < rows_of_column known.now }
    requires number { found.number ≡ number_at known.now found.row }
    ensures { result ≡ true → (r : ℕ) → r < rows_of_column known.now → IsAsFar extreme found.number (number_at known.now r) }
{
    let _rows = known.rows();
    match extreme {
        Extreme::Least => found.number == 0,
        Extreme::Greatest => known.at_top().get(found.row),
    }
}

// The row of the best so far, where none of the mask can lie further out.
pub(crate) fn settled_row(
    extreme: Extreme,
    known: &Known,
    mask: &Mask,
    best: Option<Candidate>,
) -> Option<usize>
    requires rows { length mask.now ≡ rows_of_column known.now }
    requires best { (to : ℕ) × IsBestAmong extreme known.now mask.now 0 to best }
    ensures { IfSome result (IsExtreme extreme known.now mask.now) }
{
    match best {
        Some(found) if is_outermost(extreme, known, found) => Some(found.row),
        _ => None,
    }
}

// The row of a mask whose number is least or greatest, or none where it has no row. No block is searched behind a row than which none
// can lie further out.
pub(crate) fn extreme_row(extreme: Extreme, known: &Known, mask: &Mask) -> Option<usize>
    requires rows { length mask.now ≡ rows_of_column known.now }
    requires values { MayHaveValues known.now mask.now }
    ensures row { IsExtremeRow extreme known.now mask.now result }
    ensures sound { IsSound known.now }
{
    let (from, to) = number_planes(known);
    if from == to {
        return mask.first_one();
    }
    let mut best = None;
    for block in 0..mask.rows().div_ceil(512) {
        best = extreme_so_far(extreme, known, mask, block, best);
        if let Some(row) = settled_row(extreme, known, mask, best) {
            return Some(row);
        }
    }
    match best {
        Some(candidate) => Some(candidate.row),
        None => None,
    }
}

// The extreme row of a mask, and that of some of its rows.
#[derive(Clone, Copy)]
pub(crate) struct ExtremeRows {
    pub(crate) all: Option<usize>,
    pub(crate) some: Option<usize>,
}

// Both: one row, where the extreme row of all is among the some.
pub(crate) fn extreme_rows(extreme: Extreme, known: &Known, mask: &Mask, some: &Mask) -> ExtremeRows
    requires rows { length mask.now ≡ rows_of_column known.now }
    requires values { MayHaveValues known.now mask.now }
    requires some { IsPartOf some.now mask.now }
    ensures all { IsExtremeRow extreme known.now mask.now result.all }
    ensures some { IsExtremeRow extreme known.now some.now result.some }
{
    let all = extreme_row(extreme, known, mask);
    let some = match all {
        Some(row) if some.get(row) => all,
        Some(_) => extreme_row(extreme, known, some),
        None => None,
    };
    ExtremeRows { all, some }
}
