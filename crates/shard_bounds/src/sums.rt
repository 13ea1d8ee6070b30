//! The bound of an average from those of the sum and of the number of values, and what lies in two bounds.

ghost use Rattle.std.specs.Prelude.{◌≡◌, ◌^◌, ◌<◌, ◌↔◌, IsSome, IfSome};
ghost use Rattle.query_model.specs.Bounds.{fractions_of};
ghost use Rattle.shard_bounds.specs.Averages.{average_from, divided, meet_of_two, values_at, within, FitsAverage};

use crate::averages::no_average;
use crate::fractions::{greater, lesser};
use interval_calc::Fraction;
use query_model::{AverageBound, Bound, Nullity};

// As many values as an end says, one at least; none where the number leaves 64 bits.
fn values_at(end: i128) -> Option<u64>
    ensures fits { IsSome result ↔ (values_at end < 2 ^ 64) }
    ensures value { IfSome result (λ n. n ≡ values_at end) }
{
    u64::try_from(end.max(1)).ok()
}

// The ends of a sum, divided.
fn divided(null: Nullity, sum: &Bound, count: &Bound) -> Option<AverageBound>
    ensures fits { IsSome result ↔ FitsAverage (divided null sum.now count.now) }
    ensures value { IfSome result (λ bound. fractions_of bound ≡ divided null sum.now count.now) }
{
    let low = values_at(if 0 <= sum.lo { count.hi } else { count.lo })?;
    let high = values_at(if 0 <= sum.hi { count.lo } else { count.hi })?;
    Some(AverageBound {
        null,
        lo: Fraction {
            num: sum.lo,
            den: low,
        },
        hi: Fraction {
            num: sum.hi,
            den: high,
        },
    })
}

/// The bound of an average that follows from the bounds of the sum and of the number of its values; none where a number of values is not a
/// `u64`. Over shards it is as narrow as that of all rows together.
pub fn average_from(sum: &Bound, count: &Bound) -> Option<AverageBound>
    ensures fits { IsSome result ↔ FitsAverage (average_from sum.now count.now) }
    ensures value { IfSome result (λ bound. fractions_of bound ≡ average_from sum.now count.now) }
{
    match sum.null {
        Nullity::Always => Some(no_average()),
        Nullity::Never | Nullity::Possibly => divided(sum.null, sum, count),
    }
}

fn within(null: Nullity, a: &AverageBound, b: &AverageBound) -> AverageBound
    ensures { fractions_of result ≡ within null (fractions_of a.now) (fractions_of b.now) }
{
    AverageBound {
        null,
        lo: greater(b.lo, a.lo),
        hi: lesser(a.hi, b.hi),
    }
}

/// Where an average lies that lies in both bounds. Of equal ends it has the first bound's.
pub fn meet_of_two(a: &AverageBound, b: &AverageBound) -> AverageBound
    ensures { fractions_of result ≡ meet_of_two (fractions_of a.now) (fractions_of b.now) }
{
    match (a.null, b.null) {
        (Nullity::Always, _) => *a,
        (Nullity::Never | Nullity::Possibly, Nullity::Always) => *b,
        (Nullity::Never, Nullity::Never | Nullity::Possibly) => within(Nullity::Never, a, b),
        (Nullity::Possibly, Nullity::Never) => within(Nullity::Never, a, b),
        (Nullity::Possibly, Nullity::Possibly) => within(Nullity::Possibly, a, b),
    }
}
