//! Passes over the rows of an average, as one of its ends sees them.

ghost use Rattle.std.specs.Prelude.{◌≡◌, ◌≤◌, ◌<◌, ◌^◌, ◌*ℤ◌, pos, nat_abs, FitsSigned, IfSome};
ghost use Rattle.std.specs.Option.{option_map};
ghost use Rattle.std.specs.Int.{w128};
ghost use Rattle.interval_calc.specs.Intervals.{interval_of};
ghost use Rattle.avg_exact.specs.declared.passes.End.TheVariants.{High};
ghost use Rattle.query_model.specs.Truths.{and_of, truth_of_number};
ghost use Rattle.avg_exact.specs.Passes.{all_rows, certainty_of, end_value, greatest_high, greatest_of, is_uncertain};
ghost use Rattle.avg_exact.specs.Passes.{least_of, least_taken, seen_at, size_at, taken_value, takes_value, tally_of};
ghost use Rattle.avg_exact.specs.Passes.{uncertain_count, value_of, with_row, FitsProduct, FitsRow, IsAveraged};

use interval_calc::{Fraction, Interval};
use query_model::{Nullity, Truth};
use round_engine::EngineView;

/// An end of an average.
#[derive(Clone, Copy)]
pub(crate) enum End {
    Low,
    High,
}

/// A row that may give a value: whether it surely does, and its value at that end. From the low end values are negated.
#[derive(Clone, Copy)]
pub(crate) struct RowValue {
    pub(crate) certain: bool,
    pub(crate) value: i128,
}

/// The rows that are counted, the sum of their values, and how many of them are uncertain.
#[derive(Clone, Copy)]
pub(crate) struct Tally {
    pub(crate) sum: i128,
    pub(crate) rows: u64,
    pub(crate) taken: u64,
}

// Whether a row is taken: an uncertain one above the fraction.
fn takes(over: Option<Fraction>, row: RowValue) -> bool
    requires { FitsProduct over row }
    ensures { result ≡ takes_value over row }
{
    match over {
        None => false,
        Some(f) => !row.certain && f.num < row.value * i128::from(f.den),
    }
}

impl Tally {
    // With one more row.
    fn with_row(self, row: Option<RowValue>, over: Option<Fraction>) -> Tally
        requires { FitsRow over row self }
        ensures { result ≡ with_row over row self }
    {
        match row {
            None => self,
            Some(row) => {
                let taken = takes(over, row);
                let counted = row.certain || taken;
                Tally {
                    sum: self.sum + if counted { row.value } else { 0 },
                    rows: self.rows + u64::from(counted),
                    taken: self.taken + u64::from(taken),
                }
            }
        }
    }
}

// The value of a row that is taken.
fn taken_value(row: Option<RowValue>, over: Fraction) -> Option<i128>
    requires { IfSome row (λ v. FitsSigned w128 (v.value *ℤ pos over.den)) }
    ensures { result ≡ taken_value over row }
{
    match row {
        Some(row) if takes(Some(over), row) => Some(row.value),
        _ => None,
    }
}

// The value of a row that may give one.
fn value_of(row: Option<RowValue>) -> Option<i128>
    ensures { result ≡ option_map (λ v. v.value) row }
{
    row.map(|v| v.value)
}

// Whether a row may give a value and need not.
fn is_uncertain(row: Option<RowValue>) -> bool
    ensures { result ≡ is_uncertain row }
{
    match row {
        None => false,
        Some(row) => !row.certain,
    }
}

// The lesser of two numbers that may be there.
fn lesser(a: Option<i128>, b: Option<i128>) -> Option<i128>
    ensures { result ≡ least_of a b }
{
    match (a, b) {
        (None, b) => b,
        (a, None) => a,
        (Some(a), Some(b)) => Some(a.min(b)),
    }
}

fn greater(a: Option<i128>, b: Option<i128>) -> Option<i128>
    ensures { result ≡ greatest_of a b }
{
    match (a, b) {
        (None, b) => b,
        (a, None) => a,
        (Some(a), Some(b)) => Some(a.max(b)),
    }
}

// The value of a span at an end.
fn end_of(span: Interval, end: End) -> i128
    requires { nat_abs span.lo < 2 ^ 127 }
    ensures { result ≡ end_value end (interval_of span) }
{
    match end {
        End::Low => -span.lo,
        End::High => span.hi,
    }
}

// Whether a row surely gives a value, if it may.
fn certainty(truth: Truth, missing: Nullity) -> Option<bool>
    ensures { result ≡ certainty_of (and_of truth (truth_of_number missing)) }
{
    match (truth, missing) {
        (Truth::False, _) | (_, Nullity::Always) => None,
        (Truth::True, Nullity::Never) => Some(true),
        _ => Some(false),
    }
}

// A row, if it may give a value.
fn value_at(engine: &EngineView<'_>, item: usize, end: End, row: usize) -> Option<RowValue>
    requires averaged { IsAveraged engine.now item }
    requires row { row < engine.now.frame.rows }
    ensures value { result ≡ option_map value_of (seen_at engine.now item end row) }
    ensures small { IfSome result (λ v. nat_abs v.value ≤ size_at engine.now item) }
{
    let span = engine.span(item, row);
    match certainty(engine.truth(row), engine.missing(item, row)) {
        None => None,
        Some(certain) => Some(RowValue {
            certain,
            value: end_of(span, end),
        }),
    }
}

/// The certain rows, and the uncertain ones above a fraction.
pub(crate) fn count_above(
    engine: &EngineView<'_>,
    item: usize,
    end: End,
    over: Option<Fraction>,
) -> Tally
    requires averaged { IsAveraged engine.now item }
    requires small { IfSome over (λ f. f.den ≤ engine.now.frame.rows) }
    ensures tally { result ≡ tally_of over (all_rows engine.now item end) }
    ensures small { nat_abs result.sum < 2 ^ 127 }
{
    let mut tally = Tally {
        sum: 0,
        rows: 0,
        taken: 0,
    };
    for row in 0..engine.rows() {
        tally = tally.with_row(value_at(engine, item, end, row), over);
    }
    tally
}

/// How many rows are uncertain.
pub(crate) fn count_uncertain(engine: &EngineView<'_>, item: usize) -> u64
    requires averaged { IsAveraged engine.now item }
    ensures { result ≡ uncertain_count (all_rows engine.now item High) }
{
    let mut count = 0;
    for row in 0..engine.rows() {
        count += u64::from(is_uncertain(value_at(engine, item, End::High, row)));
    }
    count
}

/// The least value of an uncertain row above a fraction.
pub(crate) fn least_above(
    engine: &EngineView<'_>,
    item: usize,
    end: End,
    over: Fraction,
) -> Option<i128>
    requires averaged { IsAveraged engine.now item }
    requires small { over.den ≤ engine.now.frame.rows }
    ensures least { result ≡ least_taken over (all_rows engine.now item end) }
    ensures small { IfSome result (λ v. nat_abs v < 2 ^ 127) }
{
    let mut least = None;
    for row in 0..engine.rows() {
        least = lesser(least, taken_value(value_at(engine, item, end, row), over));
    }
    least
}

/// The greatest value of a row.
pub(crate) fn greatest(engine: &EngineView<'_>, item: usize, end: End) -> Option<i128>
    requires averaged { IsAveraged engine.now item }
    ensures greatest { result ≡ greatest_high (all_rows engine.now item end) }
    ensures small { IfSome result (λ v. nat_abs v < 2 ^ 127) }
{
    let mut found = None;
    for row in 0..engine.rows() {
        found = greater(found, value_of(value_at(engine, item, end, row)));
    }
    found
}
