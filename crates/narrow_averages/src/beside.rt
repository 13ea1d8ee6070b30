//! The bound of an average beside those of the sum and of the number of its values.

ghost use Rattle.std.specs.Prelude.{◌≡◌};
ghost use Rattle.query_model.specs.Bounds.{fractions_of};
ghost use Rattle.shard_bounds.specs.Averages.{fraction_of};
ghost use Rattle.narrow_averages.specs.Beside.{apart_if_fit, average_beside, beside_from, can_double, is_counted};

use interval_calc::Fraction;
use query_model::{AverageBound, Bound};
use shard_bounds::{apart, average_from, is_exact, meet_of_two};

const LARGEST: i128 = 1 << 126;

// Whether twice the sum is an `i128`, and twice the number of values a `u64`.
fn can_double(fraction: Fraction) -> bool
    ensures { result ≡ can_double (fraction_of fraction) }
{
    -LARGEST <= fraction.num && fraction.num < LARGEST && fraction.den < 1 << 63
}

// The same bound, but it does not look exact where there is an average for certain, if the high end can be written otherwise.
fn apart_if_fit(bound: AverageBound) -> AverageBound
    ensures { fractions_of result ≡ apart_if_fit (fractions_of bound) }
{
    if can_double(bound.hi) {
        apart(bound).unwrap_or(bound)
    } else {
        bound
    }
}

// What lies in the bound from the sum and the number of values, and in another one.
fn beside_from(from: &AverageBound, other: &AverageBound) -> AverageBound
    ensures { fractions_of result ≡ beside_from (fractions_of from.now) (fractions_of other.now) }
{
    let meet = meet_of_two(from, other);
    if is_exact(from) {
        meet
    } else {
        apart_if_fit(meet)
    }
}

const MOST_VALUES: i128 = 1 << 64;

// Whether the numbers of values have 64 bits.
fn is_counted(count: &Bound) -> bool
    ensures { result ≡ is_counted count.now }
{
    count.lo < MOST_VALUES && count.hi < MOST_VALUES
}

/// Where an average lies of which the bounds of the sum and of the number of its values are told, and another bound of it: in the other
/// bound, and in what the sum and the number give where these numbers have 64 bits. Its ends are one fraction only where the sum and the
/// number are known, and then it is that fraction; where the ends are equal all the same, the high end is twice the sum over twice the
/// number.
pub fn average_beside(sum: &Bound, count: &Bound, other: &AverageBound) -> AverageBound
    ensures { fractions_of result ≡ average_beside sum.now count.now (fractions_of other.now) }
{
    // Both ends have 128 bits, and so have those of the average.
    let _ends = (sum.lo, sum.hi);
    if !is_counted(count) {
        return *other;
    }
    match average_from(sum, count) {
        Some(from) => beside_from(&from, other),
        None => *other,
    }
}
