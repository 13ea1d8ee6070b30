//! What counts of rows tell: counts whose argument is never null, and items of whose columns no plane is read.

ghost use Rattle.std.specs.Prelude.{◌≡◌, ◌≢◌, ◌<◌, ◌≤◌, ◌==◌, ◌≤ℤ◌, ◌*ℤ◌, ◌+ℤ◌, if◌then◌else◌};
ghost use Rattle.std.specs.Prelude.{ℕ, List, length, pos, negsuc, IfSome, IsTrue};
ghost use Rattle.std.specs.declared.option.Option.TheVariants.{Some, None};
ghost use Rattle.query_model.specs.declared.query.ItemKind.TheVariants.{Count, Min, Sum};
ghost use Rattle.known_column.specs.Columns.{range_at, rows_of_column};
ghost use Rattle.query_model.specs.Bounds.{Pair};
ghost use Rattle.query_model.specs.Knowledge.{ranges_of};
ghost use Rattle.query_model.specs.Meaning.{ReadsBelow};
ghost use Rattle.query_model.specs.Queries.{term_of};
ghost use Rattle.query_model.specs.Truths.{null_of, span_of};
ghost use Rattle.aggregates.specs.Tallies.{tally_of};
ghost use Rattle.row_values.specs.ShortSpans.{interval_of};
ghost use Rattle.round_engine.specs.Counts.{AreAlike, AreValuesOf, HaveSpan, IsToldByCounts, range_of_unread};
ghost use Rattle.round_engine.specs.Stages.{IsOpenItem};

use crate::counts::is_counted;
use aggregates::Tally;
use known_column::{Known, LentColumns};
use query_model::{Expr, Item, ItemKind, Nullity};
use row_values::{ShortInterval, null_of, span_of};

// What is known of each value of an item that counts of rows tell: whether it may be null, and between which numbers it lies. Of a count
// the numbers say nothing.
#[derive(Clone, Copy)]
pub(crate) struct UnreadValues {
    pub(crate) nullable: bool,
    pub(crate) span: ShortInterval,
}

// Whether no plane of the column is read: then no more is known of one row than of another. A no affects speed alone, here and below.
fn is_unread_column(known: &Known) -> bool
    ensures { IsTrue result → (r q : ℕ) → r < rows_of_column known.now → q < rows_of_column known.now
        → range_at known.now r ≡ range_at known.now q }
{
    let ends = known.declared();
    let planes = known.width() + u8::from(ends.nullable);
    known.unread() >= planes
}

// Whether no plane of an expression's columns is read.
fn is_unread(expr: &Expr, columns: &LentColumns<'_>) -> bool
    requires { ReadsBelow (length columns.now.frame.columns) (term_of expr.now) }
    ensures { IsTrue result → AreAlike columns.now (term_of expr.now) }
{
    match expr {
        Expr::Column(column) => is_unread_column(columns.column(*column as usize)),
        Expr::Literal(_) => true,
        Expr::Add(a, b) | Expr::Sub(a, b) | Expr::Mul(a, b) => {
            is_unread(a, columns) && is_unread(b, columns)
        }
    }
}

// What is known of an item's value at the first row, unless it is null there or a number of more than 64 bits.
fn first_values(item: &Item, columns: &LentColumns<'_>) -> Option<UnreadValues>
    requires open_item { IsOpenItem columns.now.frame item.now }
    requires row { 0 < columns.now.frame.rows }
    ensures null { IfSome result (λ values. null_of item.now.arg (ranges_of columns.now.frame columns.now.known 0)
        ≡ (range_of_unread values).null) }
    ensures numbers { IfSome result (λ values. span_of item.now.arg (ranges_of columns.now.frame columns.now.known 0)
        ≡ (range_of_unread values).numbers) }
{
    let nullable = match null_of(&item.arg, 0, columns) {
        Nullity::Never => false,
        Nullity::Possibly => true,
        Nullity::Always => return None,
    };
    let span = span_of(&item.arg, 0, columns);
    let lo = i64::try_from(span.lo).ok()?;
    let hi = i64::try_from(span.hi).ok()?;
    Some(UnreadValues {
        nullable,
        span: ShortInterval { lo, hi },
    })
}

// What is known of the values of an item that counts of rows tell. Of a count both numbers are 0, since it does not look at them. Which
// items are told affects speed alone.
pub(crate) fn told_values(item: &Item, columns: &LentColumns<'_>) -> Option<UnreadValues>
    requires { IsOpenItem columns.now.frame item.now }
    ensures { IfSome result (λ values. IsToldByCounts columns.now item.now (range_of_unread values)) }
{
    if is_counted(item, columns) {
        Some(UnreadValues {
            nullable: false,
            span: ShortInterval { lo: 0, hi: 0 },
        })
    } else if columns.rows() > 0 && is_unread(&item.arg, columns) {
        first_values(item, columns)
    } else {
        None
    }
}

impl UnreadValues {
    // How many of the rows that are counted so have a value: where it may be null, none surely has.
    pub(crate) fn of_rows(self, count: Tally) -> Tally
        ensures { (values rows : List Pair) → AreValuesOf self.nullable values rows → count ≡ tally_of Count rows
            → result ≡ tally_of Count values }
    {
        Tally {
            certain: if self.nullable { 0 } else { count.certain },
            ..count
        }
    }
}

// An end of so many rows, where there are some.
fn end_of(rows: u64, end: i64) -> Option<i128>
    ensures { result ≡ if rows == 0 then None else Some end }
{
    if rows == 0 {
        None
    } else {
        Some(i128::from(end))
    }
}

// A number so many times.
fn times(number: i64, rows: u64) -> i128
    requires { rows ≤ 16777216 }
    ensures product { result ≡ number *ℤ pos rows }
    ensures few { (negsuc 309485009821345068724781056 ≤ℤ result) × (result ≤ℤ pos 309485009821345068724781056) }
{
    i128::from(number) * i128::from(rows)
}

// What rows add to a sum that surely count, each so much, and what others add.
fn share_sum(number: i64, rows: u64, other: i64, others: u64) -> i128
    requires rows { rows ≤ 16777216 }
    requires others { others ≤ 16777216 }
    ensures { result ≡ (number *ℤ pos rows) +ℤ (other *ℤ pos others) }
{
    times(number, rows) + times(other, others)
}

// What a sum keeps of so many rows whose values lie in this span: a row that need not count adds only what widens the sum.
fn sum_tally(count: Tally, span: ShortInterval) -> Tally
    requires few { count.all ≤ 16777216 }
    requires certain { count.certain ≤ count.all }
    ensures { (ps : List Pair) → count ≡ tally_of Count ps → HaveSpan (interval_of span) ps → result ≡ tally_of Sum ps }
{
    let others = count.all - count.certain;
    let ended = if count.certain == 0 { count.all } else { 0 };
    Tally {
        least_low: end_of(ended, span.lo),
        greatest_high: end_of(ended, span.hi),
        low_sum: share_sum(span.lo, count.certain, span.lo.min(0), others),
        high_sum: share_sum(span.hi, count.certain, span.hi.max(0), others),
        ..count
    }
}

// What a least or a greatest value keeps of them.
fn extreme_tally(count: Tally, span: ShortInterval) -> Tally
    ensures { (ps : List Pair) → count ≡ tally_of Count ps → HaveSpan (interval_of span) ps → result ≡ tally_of Min ps }
{
    Tally {
        least_low: end_of(count.all, span.lo),
        greatest_high: end_of(count.all, span.hi),
        least_certain_high: end_of(count.certain, span.hi),
        greatest_certain_low: end_of(count.certain, span.lo),
        ..count
    }
}

// What an item of this kind keeps of the rows that were counted so, if no more is known of their values than that they lie in this span.
pub(crate) fn tally_in_span(kind: ItemKind, count: Tally, span: ShortInterval) -> Tally
    requires few { count.all ≤ 16777216 }
    requires certain { count.certain ≤ count.all }
    ensures { (ps : List Pair) → count ≡ tally_of Count ps → (kind ≢ Count → HaveSpan (interval_of span) ps)
        → result ≡ tally_of kind ps }
{
    match kind {
        ItemKind::Count => count,
        ItemKind::Sum | ItemKind::Avg => sum_tally(count, span),
        ItemKind::Min | ItemKind::Max => extreme_tally(count, span),
    }
}
