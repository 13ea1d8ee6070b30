//! Sums, differences and products of intervals of 64 bits.

ghost use Rattle.std.specs.Prelude.{◌≡◌, ◌≤◌, IfSome};
ghost use Rattle.interval_calc.specs.Intervals as wide;
ghost use Rattle.interval_calc.specs.Intervals.{difference_of, hull_of_four, product_of, sum_of};
ghost use Rattle.row_values.specs.ShortSpans.{interval_of, result_of, FitEach, AreResults, IsShort};

use crate::short::ShortInterval;
use interval_calc::Interval;

// What is computed of two intervals.
#[derive(Clone, Copy)]
pub(crate) enum Operation {
    Sum,
    Difference,
    Product,
}

// The sum of two intervals.
fn sum(a: ShortInterval, b: ShortInterval) -> ShortInterval
    requires { IsShort (sum_of (interval_of a) (interval_of b)) }
    ensures { interval_of result ≡ sum_of (interval_of a) (interval_of b) }
{
    ShortInterval {
        lo: a.lo + b.lo,
        hi: a.hi + b.hi,
    }
}

// The difference of two intervals.
fn difference(a: ShortInterval, b: ShortInterval) -> ShortInterval
    requires { IsShort (difference_of (interval_of a) (interval_of b)) }
    ensures { interval_of result ≡ difference_of (interval_of a) (interval_of b) }
{
    ShortInterval {
        lo: a.lo - b.hi,
        hi: a.hi - b.lo,
    }
}

// The least interval with these four numbers.
fn hull_of(a: i64, b: i64, c: i64, d: i64) -> ShortInterval
    ensures { interval_of result ≡ hull_of_four a b c d }
{
    ShortInterval {
        lo: a.min(b).min(c.min(d)),
        hi: a.max(b).max(c.max(d)),
    }
}

// The product of two intervals, without a branch: of numbers of both signs none is foreseen.
fn product(a: ShortInterval, b: ShortInterval) -> ShortInterval
    requires { IsShort (product_of (interval_of a) (interval_of b)) }
    ensures { interval_of result ≡ product_of (interval_of a) (interval_of b) }
{
    hull_of(a.lo * b.lo, a.lo * b.hi, a.hi * b.lo, a.hi * b.hi)
}

// What an operation makes of two intervals.
fn joined(operation: Operation, a: ShortInterval, b: ShortInterval) -> ShortInterval
    requires { IsShort (result_of operation (interval_of a) (interval_of b)) }
    ensures { interval_of result ≡ result_of operation (interval_of a) (interval_of b) }
{
    match operation {
        Operation::Sum => sum(a, b),
        Operation::Difference => difference(a, b),
        Operation::Product => product(a, b),
    }
}

// Joins the first intervals with those in the same places.
pub(crate) fn join_each(
    operation: Operation,
    count: usize,
    left: &mut [ShortInterval; 64],
    right: &[ShortInterval; 64],
)
    requires few { count ≤ 64 }
    requires fit { FitEach operation count left.old right.now }
    ensures { AreResults operation count left.old right.now left.new }
{
    for i in 0..count {
        left[i] = joined(operation, left[i], right[i]);
    }
}

// The interval with ends of 128 bits.
pub(crate) fn widened(span: ShortInterval) -> Interval
    ensures { wide.interval_of result ≡ interval_of span }
{
    Interval {
        lo: i128::from(span.lo),
        hi: i128::from(span.hi),
    }
}

// The interval with ends of 64 bits, where they have no more.
pub(crate) fn shortened(span: Interval) -> Option<ShortInterval>
    ensures value { IfSome result (λ s. interval_of s ≡ wide.interval_of span) }
{
    let lo = i64::try_from(span.lo).ok()?;
    let hi = i64::try_from(span.hi).ok()?;
    Some(ShortInterval { lo, hi })
}
