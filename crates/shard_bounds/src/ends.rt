//! Sums and extremes of the ends that some shards report.

ghost use Rattle.std.specs.Prelude.{◌≡◌, ◌↔◌, FitsSigned, IsSome, IfSome};
ghost use Rattle.std.specs.Int.{w128};
ghost use Rattle.query_model.specs.declared.query.ItemKind.TheVariants.{Min, Max};
ghost use Rattle.std.specs.List.{list_any};
ghost use Rattle.query_model.specs.Answers.{answer, greatest, least, total};
ghost use Rattle.shard_bounds.specs.Ends.{end_of, ends_of, holds_of};

use crate::wide::Wide;
use query_model::{Bound, Nullity};

// One of the ends that a shard reports, or what it adds to a sum.
#[derive(Clone, Copy)]
pub(crate) enum End {
    // Of every shard.
    RowsLow,
    RowsHigh,
    // Of the shards that may have an answer.
    Low,
    High,
    // Of those that have one for certain.
    CertainLow,
    CertainHigh,
    // What such a shard adds to the least sum and to the greatest.
    LowShare,
    HighShare,
}

// That end of a shard, if the shard has it.
fn end_of(end: End, shard: &Bound) -> Option<i128>
    ensures { result ≡ end_of end shard.now }
{
    match (end, shard.null) {
        (End::RowsLow, _) => Some(shard.lo),
        (End::RowsHigh, _) => Some(shard.hi),
        (_, Nullity::Always) => None,
        (End::Low, _) => Some(shard.lo),
        (End::High, _) => Some(shard.hi),
        (End::CertainLow | End::LowShare, Nullity::Never) => Some(shard.lo),
        (End::CertainHigh | End::HighShare, Nullity::Never) => Some(shard.hi),
        (End::CertainLow | End::CertainHigh, Nullity::Possibly) => None,
        (End::LowShare, Nullity::Possibly) => Some(shard.lo.min(0)),
        (End::HighShare, Nullity::Possibly) => Some(shard.hi.max(0)),
    }
}

// The ends, added up; none where the sum leaves 128 bits.
pub(crate) fn total(end: End, shards: &[Bound]) -> Option<i128>
    ensures fits { IsSome result ↔ FitsSigned w128 (total (ends_of end shards.now)) }
    ensures value { IfSome result (λ n. n ≡ total (ends_of end shards.now)) }
{
    let mut sum = Wide { turns: 0, rest: 0 };
    for shard in shards {
        if let Some(number) = end_of(end, shard) {
            sum = sum.plus(number);
        }
    }
    sum.number()
}

// The least of the ends.
pub(crate) fn least(end: End, shards: &[Bound]) -> Option<i128>
    ensures { result ≡ answer Min (ends_of end shards.now) }
{
    let mut least: Option<i128> = None;
    for shard in shards {
        if let Some(number) = end_of(end, shard) {
            least = match least {
                Some(other) => Some(other.min(number)),
                None => Some(number),
            };
        }
    }
    least
}

// The greatest of the ends.
pub(crate) fn greatest(end: End, shards: &[Bound]) -> Option<i128>
    ensures { result ≡ answer Max (ends_of end shards.now) }
{
    let mut greatest: Option<i128> = None;
    for shard in shards {
        if let Some(number) = end_of(end, shard) {
            greatest = match greatest {
                Some(other) => Some(other.max(number)),
                None => Some(number),
            };
        }
    }
    greatest
}

// The same, and 0 of no ends.
pub(crate) fn least_or_zero(end: End, shards: &[Bound]) -> i128
    ensures { result ≡ least (ends_of end shards.now) }
{
    least(end, shards).unwrap_or(0)
}

pub(crate) fn greatest_or_zero(end: End, shards: &[Bound]) -> i128
    ensures { result ≡ greatest (ends_of end shards.now) }
{
    greatest(end, shards).unwrap_or(0)
}

// What is asked of a shard: that it has an answer for certain, or else one that may lower a sum, or raise it.
#[derive(Clone, Copy)]
pub(crate) enum Test {
    IsCertain,
    KeepsLow,
    KeepsHigh,
}

fn holds(test: Test, shard: &Bound) -> bool
    ensures { result ≡ holds_of test shard.now }
{
    match (shard.null, test) {
        (Nullity::Never, _) => true,
        (Nullity::Possibly, Test::IsCertain) => false,
        (Nullity::Possibly, Test::KeepsLow) => shard.lo <= 0,
        (Nullity::Possibly, Test::KeepsHigh) => 0 <= shard.hi,
        (Nullity::Always, _) => false,
    }
}

// Whether it holds of some shard.
pub(crate) fn some_shard(test: Test, shards: &[Bound]) -> bool
    ensures { result ≡ list_any (holds_of test) shards.now }
{
    for shard in shards {
        if holds(test, shard) {
            return true;
        }
    }
    false
}
