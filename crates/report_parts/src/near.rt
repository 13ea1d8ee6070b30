//! Whether two fractions are near.

ghost use Rattle.std.specs.Prelude.{◌≡◌};
ghost use Rattle.report_parts.specs.Narrowness.{IsSplit, near_fractions};

use interval_calc::Fraction;

// The greatest whole number that is not above a fraction, and what is left of the numerator.
#[derive(Clone, Copy)]
struct Split {
    whole: i128,
    rest: u64,
}

fn whole_part(fraction: Fraction) -> Split
    ensures { IsSplit fraction.num result.whole fraction.den result.rest }
{
    let den = i128::from(fraction.den);
    Split {
        whole: fraction.num.div_euclid(den),
        rest: fraction.num.rem_euclid(den) as u64,
    }
}

// Whether the high fraction is above the low one by the width at most.
pub(crate) fn are_near(width: u64, low: Fraction, high: Fraction) -> bool
    ensures { result ≡ near_fractions width (record { num = low.num; den = low.den }) (record { num = high.num; den = high.den }) }
{
    let below = whole_part(low);
    let above = whole_part(high);
    if above.whole < below.whole {
        return true;
    }
    let apart = above.whole.abs_diff(below.whole);
    let width = u128::from(width);
    if apart < width {
        return true;
    }
    if apart > width {
        return false;
    }
    u128::from(above.rest) * u128::from(low.den) <= u128::from(below.rest) * u128::from(high.den)
}
