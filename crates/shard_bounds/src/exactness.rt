//! Bounds of averages that look exact, and bounds that must not.

ghost use Rattle.std.specs.Prelude.{◌≡◌, ◌↔◌, IsSome, IfSome};
ghost use Rattle.query_model.specs.Bounds.{fractions_of};
ghost use Rattle.shard_bounds.specs.Averages.{apart, doubled, fraction_of, is_exact, is_one_fraction, FitsAverage, FitsFraction};

use interval_calc::Fraction;
use query_model::{AverageBound, Nullity};

// Whether both ends are the same sum over the same number of values.
fn is_one_fraction(bound: &AverageBound) -> bool
    ensures { result ≡ is_one_fraction (fractions_of bound.now) }
{
    bound.lo.num == bound.hi.num && bound.lo.den == bound.hi.den
}

/// Whether a bound says the sum and the number of the values, or that there are none.
pub fn is_exact(bound: &AverageBound) -> bool
    ensures { result ≡ is_exact (fractions_of bound.now) }
{
    match bound.null {
        Nullity::Never => is_one_fraction(bound),
        Nullity::Possibly => false,
        Nullity::Always => true,
    }
}

// The same number, as twice the sum over twice the number of values; none where these are no `i128` and no `u64`.
fn doubled(fraction: Fraction) -> Option<Fraction>
    ensures fits { IsSome result ↔ FitsFraction (doubled (fraction_of fraction)) }
    ensures value { IfSome result (λ twice. fraction_of twice ≡ doubled (fraction_of fraction)) }
{
    let num = fraction.num.checked_add(fraction.num)?;
    let den = fraction.den.checked_add(fraction.den)?;
    Some(Fraction { num, den })
}

/// The same bound, but it does not look exact where there is an average for certain: of ends that are one fraction the high one becomes
/// twice the sum over twice the number of values. None where these are no `i128` and no `u64`.
pub fn apart(bound: AverageBound) -> Option<AverageBound>
    ensures fits { IsSome result ↔ FitsAverage (apart (fractions_of bound)) }
    ensures value { IfSome result (λ other. fractions_of other ≡ apart (fractions_of bound)) }
{
    match bound.null {
        Nullity::Never => {
            if is_one_fraction(&bound) {
                let hi = doubled(bound.hi)?;
                Some(AverageBound {
                    null: Nullity::Never,
                    lo: bound.lo,
                    hi,
                })
            } else {
                Some(bound)
            }
        }
        Nullity::Possibly | Nullity::Always => Some(bound),
    }
}
