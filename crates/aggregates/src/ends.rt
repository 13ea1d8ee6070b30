//! Sums, extremes and signs of the ends between which the numbers of some rows of a column lie. No row of a mask is surely null.

ghost use Rattle.std.specs.Prelude.{◌≡◌, ◌<◌, ◌<ℤ◌, ◌↔◌, [], pos, int_lt, length, FitsSigned, IsNone};
ghost use Rattle.std.specs.Int.{w64};
ghost use Rattle.query_model.specs.declared.query.ItemKind.TheVariants.{Min, Max};
ghost use Rattle.query_model.specs.Answers.{answer, total};
ghost use Rattle.known_column.specs.Columns.{range_at, rows_of_column};
ghost use Rattle.aggregates.specs.declared.extreme_rows.Extreme.TheVariants.{Greatest, Least};
ghost use Rattle.aggregates.specs.ExtremeRows.{kind_of, IsExtremeRow};
ghost use Rattle.aggregates.specs.Selections.{end_at, ends_in, highs_in, lows_in, rows_in, those_of, IsPartOf, IsSmallSum, MayHaveValues};

use crate::digits::number_planes;
use crate::extreme_rows::{Extreme, ExtremeRows, extreme_row, extreme_rows};
use crate::signs::{highs_above_zero, lows_below_zero, select_none};
use crate::sums::{SumSpan, add_ends, add_lows};
use known_column::Known;
use plane_kernels::Mask;

/// One of the ends between which a row's number lies.
#[derive(Clone, Copy)]
pub enum End {
    Low,
    High,
}

// That end at a row, which is a number of 64 bits.
fn end_at(end: End, known: &Known, row: usize) -> i128
    requires { row < rows_of_column known.now }
    ensures end { result ≡ end_at end known.now row }
    ensures fits { FitsSigned w64 result }
{
    let _base = known.base();
    let _top = known.top();
    let range = known.range(row);
    match end {
        End::Low => range.lo,
        End::High => range.hi,
    }
}

// The end at an extreme row, if there is one.
fn end_if(
    end: End,
    extreme: Extreme,
    known: &Known,
    mask: &Mask,
    row: Option<usize>,
) -> Option<i128>
    requires rows { length mask.now ≡ rows_of_column known.now }
    requires values { MayHaveValues known.now mask.now }
    requires row { IsExtremeRow extreme known.now mask.now row }
    ensures { result ≡ answer (kind_of extreme) (ends_in end known.now mask.now) }
{
    let _planes = number_planes(known);
    match row {
        Some(row) => Some(end_at(end, known, row)),
        None => None,
    }
}

// The end at the row whose number is least or greatest, or none where the mask has no row.
fn extreme_end(end: End, extreme: Extreme, known: &Known, mask: &Mask) -> Option<i128>
    requires rows { length mask.now ≡ rows_of_column known.now }
    requires values { MayHaveValues known.now mask.now }
    ensures { result ≡ answer (kind_of extreme) (ends_in end known.now mask.now) }
{
    end_if(end, extreme, known, mask, extreme_row(extreme, known, mask))
}

/// The low ends at the mask's rows, added up.
pub fn sum_lows(known: &Known, mask: &Mask) -> i128
    requires rows { length mask.now ≡ rows_of_column known.now }
    requires values { MayHaveValues known.now mask.now }
    ensures sum { result ≡ total (lows_in known.now mask.now) }
    ensures few { IsSmallSum result }
{
    add_lows(known, mask)
}

/// The high ends at the mask's rows, added up.
pub fn sum_highs(known: &Known, mask: &Mask) -> i128
    requires rows { length mask.now ≡ rows_of_column known.now }
    requires values { MayHaveValues known.now mask.now }
    ensures sum { result ≡ total (highs_in known.now mask.now) }
    ensures few { IsSmallSum result }
{
    add_ends(known, mask).high
}

/// Both at once, which takes the time of one.
pub fn sum_ends(known: &Known, mask: &Mask) -> SumSpan
    requires rows { length mask.now ≡ rows_of_column known.now }
    requires values { MayHaveValues known.now mask.now }
    ensures low { result.low ≡ total (lows_in known.now mask.now) }
    ensures high { result.high ≡ total (highs_in known.now mask.now) }
    ensures few { IsSmallSum result.low × IsSmallSum result.high }
{
    add_ends(known, mask)
}

/// The least low end at the mask's rows, or none where it has no row.
pub fn least_low(known: &Known, mask: &Mask) -> Option<i128>
    requires rows { length mask.now ≡ rows_of_column known.now }
    requires values { MayHaveValues known.now mask.now }
    ensures least { result ≡ answer Min (lows_in known.now mask.now) }
    ensures none { IsNone result ↔ (rows_in mask.now ≡ []) }
{
    extreme_end(End::Low, Extreme::Least, known, mask)
}

/// The greatest high end at the mask's rows, or none where it has no row.
pub fn greatest_high(known: &Known, mask: &Mask) -> Option<i128>
    requires rows { length mask.now ≡ rows_of_column known.now }
    requires values { MayHaveValues known.now mask.now }
    ensures greatest { result ≡ answer Max (highs_in known.now mask.now) }
    ensures none { IsNone result ↔ (rows_in mask.now ≡ []) }
{
    extreme_end(End::High, Extreme::Greatest, known, mask)
}

/// A low end and a high end, each at an extreme row of some rows, or none where there is no row.
#[derive(Clone, Copy, Debug, PartialEq, Eq)]
pub struct ExtremeSpan {
    pub low: Option<i128>,
    pub high: Option<i128>,
}

// The least low end at the rows of a mask, and the least high end at some of its rows, by their least rows.
pub(crate) fn least_ends_at(
    rows: ExtremeRows,
    known: &Known,
    mask: &Mask,
    some: &Mask,
) -> ExtremeSpan
    requires rows { length mask.now ≡ rows_of_column known.now }
    requires values { MayHaveValues known.now mask.now }
    requires some { IsPartOf some.now mask.now }
    requires all_row { IsExtremeRow Least known.now mask.now rows.all }
    requires some_row { IsExtremeRow Least known.now some.now rows.some }
    ensures low { result.low ≡ answer Min (lows_in known.now mask.now) }
    ensures high { result.high ≡ answer Min (highs_in known.now some.now) }
{
    ExtremeSpan {
        low: end_if(End::Low, Extreme::Least, known, mask, rows.all),
        high: end_if(End::High, Extreme::Least, known, some, rows.some),
    }
}

// The greatest low end at some of the rows of a mask, and the greatest high end at all its rows, by their greatest rows.
pub(crate) fn greatest_ends_at(
    rows: ExtremeRows,
    known: &Known,
    mask: &Mask,
    some: &Mask,
) -> ExtremeSpan
    requires rows { length mask.now ≡ rows_of_column known.now }
    requires values { MayHaveValues known.now mask.now }
    requires some { IsPartOf some.now mask.now }
    requires all_row { IsExtremeRow Greatest known.now mask.now rows.all }
    requires some_row { IsExtremeRow Greatest known.now some.now rows.some }
    ensures low { result.low ≡ answer Max (lows_in known.now some.now) }
    ensures high { result.high ≡ answer Max (highs_in known.now mask.now) }
{
    ExtremeSpan {
        low: end_if(End::Low, Extreme::Greatest, known, some, rows.some),
        high: end_if(End::High, Extreme::Greatest, known, mask, rows.all),
    }
}

/// The least low end at the rows of a mask, and the least high end at some of its rows.
pub fn least_ends(known: &Known, mask: &Mask, some: &Mask) -> ExtremeSpan
    requires rows { length mask.now ≡ rows_of_column known.now }
    requires values { MayHaveValues known.now mask.now }
    requires some { IsPartOf some.now mask.now }
    ensures low { result.low ≡ answer Min (lows_in known.now mask.now) }
    ensures high { result.high ≡ answer Min (highs_in known.now some.now) }
{
    let rows = extreme_rows(Extreme::Least, known, mask, some);
    least_ends_at(rows, known, mask, some)
}

/// The greatest low end at some of the rows of a mask, and the greatest high end at all its rows.
pub fn greatest_ends(known: &Known, mask: &Mask, some: &Mask) -> ExtremeSpan
    requires rows { length mask.now ≡ rows_of_column known.now }
    requires values { MayHaveValues known.now mask.now }
    requires some { IsPartOf some.now mask.now }
    ensures low { result.low ≡ answer Max (lows_in known.now some.now) }
    ensures high { result.high ≡ answer Max (highs_in known.now mask.now) }
{
    let rows = extreme_rows(Extreme::Greatest, known, mask, some);
    greatest_ends_at(rows, known, mask, some)
}

/// Selects the rows of a mask whose low end is below 0.
pub fn negative_lows(known: &Known, within: &Mask, out: &mut Mask)
    requires within { length within.now ≡ rows_of_column known.now }
    requires values { MayHaveValues known.now within.now }
    requires out { length out.old ≡ rows_of_column known.now }
    ensures { out.new ≡ those_of within.now (λ row. int_lt (range_at known.now row).numbers.low (pos 0)) }
{
    if known.base() >= 0 {
        select_none(known, within, out);
    } else if known.top() < 0 {
        let _planes = number_planes(known);
        out.copy_from(within);
    } else {
        lows_below_zero(known, within, out);
    }
}

// Selects the rows of a mask whose high end is above 0, in a column that begins with 0: all of them while a digit is unread.
fn highs_from_zero(known: &Known, within: &Mask, out: &mut Mask)
    requires within { length within.now ≡ rows_of_column known.now }
    requires values { MayHaveValues known.now within.now }
    requires out { length out.old ≡ rows_of_column known.now }
    requires base { known.now.ends.base ≡ pos 0 }
    requires top { pos 0 <ℤ known.now.ends.top }
    ensures { out.new ≡ those_of within.now (λ row. int_lt (pos 0) (range_at known.now row).numbers.high) }
{
    if known.unread() > 0 {
        let _planes = number_planes(known);
        out.copy_from(within);
    } else {
        highs_above_zero(known, within, out);
    }
}

/// Selects the rows of a mask whose high end is above 0.
pub fn positive_highs(known: &Known, within: &Mask, out: &mut Mask)
    requires within { length within.now ≡ rows_of_column known.now }
    requires values { MayHaveValues known.now within.now }
    requires out { length out.old ≡ rows_of_column known.now }
    ensures { out.new ≡ those_of within.now (λ row. int_lt (pos 0) (range_at known.now row).numbers.high) }
{
    if known.top() <= 0 {
        select_none(known, within, out);
    } else if known.base() > 0 {
        out.copy_from(within);
    } else if known.base() == 0 {
        highs_from_zero(known, within, out);
    } else {
        highs_above_zero(known, within, out);
    }
}
