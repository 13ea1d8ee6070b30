//! Whether a bound is narrow.

ghost use Rattle.std.specs.Prelude.{◌≡◌};
ghost use Rattle.query_model.specs.Bounds.{fractions_of};
ghost use Rattle.round_engine.specs.Narrowness.{FitsNarrow, is_narrow_average, is_narrow_bound, is_told};

use interval_calc::narrow;
use query_model::{AverageBound, Bound, Nullity};

// Whether it is known that there is an answer, and its ends are near, or that there is none.
fn is_told(null: Nullity, near: bool) -> bool
    ensures { result ≡ is_told null near }
{
    match null {
        Nullity::Never => near,
        Nullity::Possibly => false,
        Nullity::Always => true,
    }
}

// Whether the ends of a bound are at most so far apart, or it is known that there is no answer.
pub(crate) fn is_narrow_bound(width: u64, bound: &Bound) -> bool
    ensures { result ≡ is_narrow_bound width bound.now }
{
    let near = bound.hi <= bound.lo || bound.hi.abs_diff(bound.lo) <= u128::from(width);
    is_told(bound.null, near)
}

// Whether two fractions are at most so far apart, or it is known that there is no answer.
pub(crate) fn is_narrow_average(width: u64, bound: &AverageBound) -> bool
    requires { FitsNarrow width (fractions_of bound.now) }
    ensures { result ≡ is_narrow_average width (fractions_of bound.now) }
{
    is_told(bound.null, narrow(bound.lo, bound.hi, width))
}
