//! From which number on an end reaches the rows above a fraction.

ghost use Rattle.std.specs.Prelude.{◌≡◌, ◌≤◌, ◌≤ℤ◌, ◌+ℤ◌, ◌-ℤ◌, ◌/◌, ◌^◌, pos};
ghost use Rattle.std.specs.Int.{int_div_euclid};
ghost use Rattle.avg_exact.specs.declared.passes.End.TheVariants.{High, Low};
ghost use Rattle.avg_exact.specs.Blocks.{IsDistance, IsThreshold};

use crate::passes::End;
use daq_table::Ends;
use interval_calc::Fraction;
use known_column::Known;

// How far one number lies below another.
fn apart(low: i128, high: i128) -> u64
    requires above { low ≤ℤ high }
    requires near { high ≤ℤ (low +ℤ pos 18446744073709551615) }
    ensures { pos result ≡ high -ℤ low }
{
    (high - low) as u64
}

// How far above base a high end lies that passes a whole number, at least.
fn high_distance(base: i64, top: i64, floor: i128) -> Option<u64>
    requires { base ≤ℤ top }
    ensures { IsDistance High base top floor result }
{
    if floor >= i128::from(top) {
        None
    } else if floor < i128::from(base) {
        Some(0)
    } else {
        Some(apart(i128::from(base) - 1, floor))
    }
}

// How far above base a low end lies that passes it negated, at most.
fn low_distance(base: i64, top: i64, floor: i128) -> Option<u64>
    requires { base ≤ℤ top }
    ensures { IsDistance Low base top floor result }
{
    let nearest = -i128::from(base);
    if floor >= nearest {
        None
    } else if floor < -i128::from(top) {
        Some(top.abs_diff(base))
    } else {
        Some(apart(floor + 1, nearest))
    }
}

// One of both.
fn distance(end: End, ends: Ends, floor: i128) -> Option<u64>
    ensures { IsDistance end ends.base ends.top floor result }
{
    match end {
        End::Low => low_distance(ends.base, ends.top, floor),
        End::High => high_distance(ends.base, ends.top, floor),
    }
}

// A number without so many digits at its end.
fn without_digits(number: u64, unread: u8) -> u64
    requires { unread ≤ 65 }
    ensures { result ≡ number / 2 ^ unread }
{
    (u128::from(number) >> unread) as u64
}

// The greatest whole number that a fraction is not less than.
fn floor_of(over: Fraction) -> i128
    ensures { result ≡ int_div_euclid over.num (pos over.den) }
{
    over.num.div_euclid(i128::from(over.den))
}

/// The number from which on, or up to which, an end reaches the rows above a fraction, or none where no row lies above it.
pub(crate) fn threshold(known: &Known, end: End, over: Fraction) -> Option<u64>
    ensures { IsThreshold known.now end over result }
{
    let unread = known.unread();
    let ends = known.declared();
    let _width = known.width();
    match distance(end, ends, floor_of(over)) {
        None => None,
        Some(distance) => Some(without_digits(distance, unread)),
    }
}
