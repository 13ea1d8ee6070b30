//! The bound of an average over all shards.

ghost use Rattle.std.specs.Prelude.{◌≡◌, ◌<◌, ◌^◌, ◌↔◌, map, FitsSigned, IsSome, IfSome};
ghost use Rattle.std.specs.Int.{w128};
ghost use Rattle.std.specs.List.{list_all};
ghost use Rattle.query_model.specs.Bounds.{fractions_of};
ghost use Rattle.shard_bounds.specs.Averages.{added_up, combined_average, exactly, has_rows, hull_of_averages, hull_of_two};
ghost use Rattle.shard_bounds.specs.Averages.{is_exact, no_average, round, sums_of, FitsAverage};

use crate::exactness::{apart, is_exact};
use crate::fractions::{greater, lesser};
use crate::wide::Wide;
use interval_calc::Fraction;
use query_model::{AverageBound, Nullity};

pub(crate) fn no_average() -> AverageBound
    ensures { fractions_of result ≡ no_average }
{
    let zero = Fraction { num: 0, den: 1 };
    AverageBound {
        null: Nullity::Always,
        lo: zero,
        hi: zero,
    }
}

// A bound round two others.
fn round(null: Nullity, a: &AverageBound, b: &AverageBound) -> AverageBound
    ensures { fractions_of result ≡ round null (fractions_of a.now) (fractions_of b.now) }
{
    AverageBound {
        null,
        lo: lesser(a.lo, b.lo),
        hi: greater(a.hi, b.hi),
    }
}

fn hull_of_two(a: &AverageBound, b: &AverageBound) -> AverageBound
    ensures { fractions_of result ≡ hull_of_two (fractions_of a.now) (fractions_of b.now) }
{
    match (a.null, b.null) {
        (Nullity::Always, _) => *b,
        (Nullity::Never | Nullity::Possibly, Nullity::Always) => *a,
        (Nullity::Never, Nullity::Never | Nullity::Possibly) => round(Nullity::Never, a, b),
        (Nullity::Possibly, Nullity::Never) => round(Nullity::Never, a, b),
        (Nullity::Possibly, Nullity::Possibly) => round(Nullity::Possibly, a, b),
    }
}

/// From the least to the greatest of the shards' averages: there the average over all shards lies, whether or not a shard's is exact.
pub fn hull_of_averages(shards: &[AverageBound]) -> AverageBound
    ensures { fractions_of result ≡ hull_of_averages (map fractions_of shards.now) }
{
    let mut hull = no_average();
    let mut i = shards.len();
    while i > 0 {
        i -= 1;
        hull = hull_of_two(&shards[i], &hull);
    }
    hull
}

fn are_exact(shards: &[AverageBound]) -> bool
    ensures { result ≡ list_all is_exact (map fractions_of shards.now) }
{
    for shard in shards {
        if !is_exact(shard) {
            return false;
        }
    }
    true
}

// Whether a row of the shard may give a value.
fn has_rows(shard: &AverageBound) -> bool
    ensures { result ≡ has_rows shard.now.null }
{
    match shard.null {
        Nullity::Never | Nullity::Possibly => true,
        Nullity::Always => false,
    }
}

// The numbers of values, added up; none where they leave 64 bits.
fn total_den(shards: &[AverageBound]) -> Option<u64>
    ensures fits { IsSome result ↔ ((added_up (sums_of (map fractions_of shards.now))).den < 2 ^ 64) }
    ensures value { IfSome result (λ n. n ≡ (added_up (sums_of (map fractions_of shards.now))).den) }
{
    let mut total: u64 = 0;
    for shard in shards {
        if has_rows(shard) {
            total = total.checked_add(shard.lo.den)?;
        }
    }
    Some(total)
}

// The sums, added up; none where they leave 128 bits.
fn total_num(shards: &[AverageBound]) -> Option<i128>
    ensures fits { IsSome result ↔ FitsSigned w128 (added_up (sums_of (map fractions_of shards.now))).num }
    ensures value { IfSome result (λ n. n ≡ (added_up (sums_of (map fractions_of shards.now))).num) }
{
    let mut total = Wide { turns: 0, rest: 0 };
    for shard in shards {
        let sum = shard.lo.num;
        if has_rows(shard) {
            total = total.plus(sum);
        }
    }
    total.number()
}

// The sum and the number of all values, where each shard says its own.
fn exactly(shards: &[AverageBound]) -> Option<AverageBound>
    ensures fits { IsSome result ↔ FitsAverage (exactly (added_up (sums_of (map fractions_of shards.now)))) }
    ensures value { IfSome result (λ bound. fractions_of bound ≡ exactly (added_up (sums_of (map fractions_of shards.now)))) }
{
    let den = total_den(shards)?;
    if den == 0 {
        return Some(no_average());
    }
    let num = total_num(shards)?;
    let sum = Fraction { num, den };
    Some(AverageBound {
        null: Nullity::Never,
        lo: sum,
        hi: sum,
    })
}

/// The bound of an average over all shards, from those that the shards report; none where a sum is not an `i128` or a number of values
/// is not a `u64`. It is exact where each shard's is; else it lies round all of them, and does not look exact.
pub fn combine_averages(shards: &[AverageBound]) -> Option<AverageBound>
    ensures fits { IsSome result ↔ FitsAverage (combined_average (map fractions_of shards.now)) }
    ensures value { IfSome result (λ bound. fractions_of bound ≡ combined_average (map fractions_of shards.now)) }
{
    if are_exact(shards) {
        exactly(shards)
    } else {
        apart(hull_of_averages(shards))
    }
}
