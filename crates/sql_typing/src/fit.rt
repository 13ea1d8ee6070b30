//! Whether the numbers of a query stay within 128 bits.

ghost use Rattle.std.specs.Prelude.{◌≡◌, ◌↔◌, ◌≤◌, ◌*◌};
ghost use Rattle.std.specs.Prelude.{IsSome, IfSome, IsTrue, MatchOption, max};
ghost use Rattle.std.specs.List.{AllByRecursion};
ghost use Rattle.interval_calc.specs.Intervals.{interval_of};
ghost use Rattle.daq_table.specs.Tables.{no_ends};
ghost use Rattle.query_model.specs.Queries.{term_of};
ghost use Rattle.query_model.specs.Truths.{span_of};
ghost use Rattle.query_model.specs.Validity.{declared_range, declared_ranges, FitsAverage, FitsItem, FitsKind, FitsSum, FitsWide};
ghost use Rattle.sql_typing.specs.Refusals.{IsFirstUnfit};
ghost use Rattle.std.specs.Prelude.{slice_index_or};

use daq_table::Ends;
use interval_calc::{Interval, add, exactly, hull0, mul, sub, times};
use query_model::{Expr, Item, ItemKind};

/// The declared range of a column of the query.
fn range_of(ends: &[Ends], column: u8) -> Interval
    ensures { interval_of result ≡ (declared_range (slice_index_or ends.now column no_ends)).numbers }
{
    match ends.get(column as usize) {
        Some(ends) => Interval {
            lo: ends.base as i128,
            hi: ends.top as i128,
        },
        None => exactly(0),
    }
}

/// Where an expression lies over the declared ranges, if no part of it can leave 128 bits.
fn span_of(expr: &Expr, rows: u64, ends: &[Ends]) -> Option<Interval>
    ensures fits { IsSome result ↔ FitsWide (term_of expr.now) (declared_ranges (record { rows = rows; columns = ends.now })) }
    ensures value { IfSome result (λ s. interval_of s
        ≡ span_of (term_of expr.now) (declared_ranges (record { rows = rows; columns = ends.now }))) }
{
    match expr {
        Expr::Column(column) => Some(range_of(ends, *column)),
        Expr::Literal(number) => Some(exactly(*number)),
        Expr::Add(left, right) => add(span_of(left, rows, ends)?, span_of(right, rows, ends)?),
        Expr::Sub(left, right) => sub(span_of(left, rows, ends)?, span_of(right, rows, ends)?),
        Expr::Mul(left, right) => mul(span_of(left, rows, ends)?, span_of(right, rows, ends)?),
    }
}

fn fits_sum(rows: u64, span: Interval) -> bool
    ensures { IsTrue result ↔ FitsSum rows (interval_of span) }
{
    times(hull0(span), rows).is_some()
}

/// Whether the cross products of averages fit.
fn fits_average(rows: u64, span: Interval) -> bool
    requires { rows ≤ 16777216 }
    ensures { IsTrue result ↔ FitsAverage rows (interval_of span) }
{
    let greatest = span.lo.unsigned_abs().max(span.hi.unsigned_abs());
    match greatest.checked_mul(2 * rows as u128 * rows as u128) {
        Some(product) => product <= i128::MAX as u128,
        None => false,
    }
}

fn fits_kind(kind: ItemKind, rows: u64, span: Interval) -> bool
    requires { rows ≤ 16777216 }
    ensures { IsTrue result ↔ FitsKind kind rows (interval_of span) }
{
    match kind {
        ItemKind::Count | ItemKind::Min | ItemKind::Max => true,
        ItemKind::Sum => fits_sum(rows, span),
        ItemKind::Avg => fits_sum(rows, span) && fits_average(rows, span),
    }
}

fn fits(item: &Item, rows: u64, ends: &[Ends]) -> bool
    requires { rows ≤ 16777216 }
    ensures { IsTrue result ↔ FitsItem (record { rows = rows; columns = ends.now }) item.now }
{
    match span_of(&item.arg, rows, ends) {
        Some(span) => fits_kind(item.kind, rows, span),
        None => false,
    }
}

/// The first of the items of which a number can leave 128 bits.
pub(crate) fn first_unfit(items: &[Item], rows: u64, ends: &[Ends]) -> Option<usize>
    requires { rows ≤ 16777216 }
    ensures { MatchOption result (AllByRecursion (FitsItem (record { rows = rows; columns = ends.now })) items.now)
        (IsFirstUnfit (record { rows = rows; columns = ends.now }) items.now) }
{
    for (place, item) in items.iter().enumerate() {
        if !fits(item, rows, ends) {
            return Some(place);
        }
    }
    None
}
