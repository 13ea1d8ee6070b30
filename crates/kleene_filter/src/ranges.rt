//! What is known of a test of numbers that lie in ranges.

ghost use Rattle.std.specs.Prelude.{◌≡◌};
ghost use Rattle.std.specs.List.{list_all};
ghost use Rattle.interval_calc.specs.Intervals.{interval_of, numbers_in};
ghost use Rattle.query_model.specs.Meaning.{among, between, compares};
ghost use Rattle.query_model.specs.Truths.{truth_over, truth_over_both};
ghost use Rattle.kleene_filter.specs.ByEnds.{always_between, always_compares, are_one, meet};
ghost use Rattle.kleene_filter.specs.ByEnds.{some_within, sometimes_between, sometimes_compares};

use crate::truths::known_from;
use interval_calc::{Interval, exactly};
use query_model::{Comparison, Truth};

// Whether both are the one same number.
fn are_same_number(left: Interval, right: Interval) -> bool
    ensures { result ≡ are_one (interval_of left) (interval_of right) }
{
    left.lo == right.hi && left.hi == right.lo
}

// Whether they share a number.
fn share_a_number(left: Interval, right: Interval) -> bool
    ensures { result ≡ meet (interval_of left) (interval_of right) }
{
    left.lo <= right.hi && right.lo <= left.hi
}

// Whether each number of the first compares so with each of the second.
fn holds_always(op: Comparison, left: Interval, right: Interval) -> bool
    ensures { result ≡ always_compares op (interval_of left) (interval_of right) }
{
    match op {
        Comparison::Eq => are_same_number(left, right),
        Comparison::Ne => !share_a_number(left, right),
        Comparison::Lt => left.hi < right.lo,
        Comparison::Le => left.hi <= right.lo,
        Comparison::Gt => left.lo > right.hi,
        Comparison::Ge => left.lo >= right.hi,
    }
}

// Whether some number of the first compares so with some number of the second.
fn holds_sometimes(op: Comparison, left: Interval, right: Interval) -> bool
    ensures { result ≡ sometimes_compares op (interval_of left) (interval_of right) }
{
    match op {
        Comparison::Eq => share_a_number(left, right),
        Comparison::Ne => !are_same_number(left, right),
        Comparison::Lt => left.lo < right.hi,
        Comparison::Le => left.lo <= right.hi,
        Comparison::Gt => left.hi > right.lo,
        Comparison::Ge => left.hi >= right.lo,
    }
}

// What is known of a comparison of a number of the first with one of the second.
pub(crate) fn compared(op: Comparison, left: Interval, right: Interval) -> Truth
    ensures { result ≡ truth_over_both (interval_of left) (interval_of right) (compares op) }
{
    known_from(
        holds_always(op, left, right),
        holds_sometimes(op, left, right),
    )
}

// What is known of a comparison of a number of the range with another.
pub(crate) fn compared_with(op: Comparison, range: Interval, number: i128) -> Truth
    ensures { result ≡ truth_over (interval_of range) (λ x. compares op x number) }
{
    compared(op, range, exactly(number))
}

fn is_always_between(range: Interval, low: i128, high: i128) -> bool
    ensures { result ≡ always_between low high (interval_of range) }
{
    low <= range.lo && range.hi <= high
}

fn is_sometimes_between(range: Interval, low: i128, high: i128) -> bool
    ensures { result ≡ sometimes_between low high (interval_of range) }
{
    low <= high && low <= range.hi && range.lo <= high
}

// What is known of whether a number of the range lies between two others, which count as between.
pub(crate) fn lies_between(range: Interval, low: i128, high: i128) -> Truth
    ensures { result ≡ truth_over (interval_of range) (between low high) }
{
    known_from(
        is_always_between(range, low, high),
        is_sometimes_between(range, low, high),
    )
}

fn is_among(values: &[i128], number: i128) -> bool
    ensures { result ≡ among values.now number }
{
    values.iter().any(|value| number == *value)
}

// Whether each number of the range is one of the values: stops at the first that is not, so it looks at one number more
// than there are values at most.
fn are_all_among(range: Interval, values: &[i128]) -> bool
    ensures { result ≡ list_all (among values.now) (numbers_in (interval_of range)) }
{
    let mut number = range.lo;
    'numbers: while is_among(values, number) {
        if number >= range.hi {
            return true;
        }
        number += 1;
    }
    false
}

// Whether one of the values is in the range.
fn is_some_within(range: Interval, values: &[i128]) -> bool
    ensures { result ≡ some_within values.now (interval_of range) }
{
    values
        .iter()
        .any(|value| range.lo <= *value && *value <= range.hi)
}

// What is known of whether a number of the range is one of the values.
pub(crate) fn is_one_of(range: Interval, values: &[i128]) -> Truth
    ensures { result ≡ truth_over (interval_of range) (among values.now) }
{
    known_from(are_all_among(range, values), is_some_within(range, values))
}
