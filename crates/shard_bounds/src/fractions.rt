//! Fractions in order.

ghost use Rattle.std.specs.Prelude.{◌≡◌, ◌+◌, ◌*◌, ◌^◌, ◌<◌, pos, ◌*ℤ◌, int_le, nat_le};
ghost use Rattle.shard_bounds.specs.Averages.{fraction_of, greater, lesser};

use interval_calc::Fraction;

// A product: so many times 2^64, and the rest.
#[derive(Clone, Copy)]
struct Wider {
    top: u128,
    rest: u128,
}

const BASE: u128 = 18_446_744_073_709_551_616;

fn product(number: u128, factor: u64) -> Wider
    ensures rest { result.rest < 2 ^ 64 }
    ensures product { result.top * 2 ^ 64 + result.rest ≡ number * factor }
{
    let factor = u128::from(factor);
    let low = (number % BASE) * factor;
    let high = (number / BASE) * factor;
    Wider {
        top: high + low / BASE,
        rest: low % BASE,
    }
}

// Whether the first product is at most the second.
fn in_order(a: Wider, b: Wider) -> bool
    requires first { a.rest < 2 ^ 64 }
    requires second { b.rest < 2 ^ 64 }
    ensures { result ≡ nat_le (a.top * 2 ^ 64 + a.rest) (b.top * 2 ^ 64 + b.rest) }
{
    a.top < b.top || (a.top == b.top && a.rest <= b.rest)
}

// Whether the first fraction is at most the second.
pub(crate) fn is_at_most(a: Fraction, b: Fraction) -> bool
    ensures { result ≡ int_le (a.num *ℤ pos b.den) (b.num *ℤ pos a.den) }
{
    let left = product(a.num.unsigned_abs(), b.den);
    let right = product(b.num.unsigned_abs(), a.den);
    if a.num < 0 {
        b.num >= 0 || in_order(right, left)
    } else {
        b.num >= 0 && in_order(left, right)
    }
}

pub(crate) fn lesser(a: Fraction, b: Fraction) -> Fraction
    ensures { fraction_of result ≡ lesser (fraction_of a) (fraction_of b) }
{
    if is_at_most(a, b) { a } else { b }
}

pub(crate) fn greater(a: Fraction, b: Fraction) -> Fraction
    ensures { fraction_of result ≡ greater (fraction_of a) (fraction_of b) }
{
    if is_at_most(a, b) { b } else { a }
}
