//! The bound over all shards.

ghost use Rattle.std.specs.Prelude.{◌≡◌, ◌↔◌, FitsSigned, IsSome, IfSome};
ghost use Rattle.std.specs.Int.{w128};
ghost use Rattle.query_model.specs.Bounds.{greatest_sum, high_of_least, least_sum, low_of_greatest, nullity_of};
ghost use Rattle.shard_bounds.specs.Combined.{combined, pairs_of_shards, FitsBound};

use crate::ends::{End, Test, greatest_or_zero, least, least_or_zero, some_shard, total};
use query_model::{Bound, ItemKind, Nullity};

// Whether the answer over all shards is NULL.
fn nullity(shards: &[Bound]) -> Nullity
    ensures { result ≡ nullity_of (pairs_of_shards shards.now) }
{
    if some_shard(Test::IsCertain, shards) {
        Nullity::Never
    } else if least(End::Low, shards).is_some() {
        Nullity::Possibly
    } else {
        Nullity::Always
    }
}

// The least sum, or none where it leaves 128 bits.
fn least_sum(shards: &[Bound]) -> Option<i128>
    ensures fits { IsSome result ↔ FitsSigned w128 (least_sum (pairs_of_shards shards.now)) }
    ensures value { IfSome result (λ n. n ≡ least_sum (pairs_of_shards shards.now)) }
{
    if some_shard(Test::KeepsLow, shards) {
        total(End::LowShare, shards)
    } else {
        Some(least_or_zero(End::Low, shards))
    }
}

// The greatest sum, or none where it leaves 128 bits.
fn greatest_sum(shards: &[Bound]) -> Option<i128>
    ensures fits { IsSome result ↔ FitsSigned w128 (greatest_sum (pairs_of_shards shards.now)) }
    ensures value { IfSome result (λ n. n ≡ greatest_sum (pairs_of_shards shards.now)) }
{
    if some_shard(Test::KeepsHigh, shards) {
        total(End::HighShare, shards)
    } else {
        Some(greatest_or_zero(End::High, shards))
    }
}

// The greatest that the least value can be.
fn high_of_least(shards: &[Bound]) -> i128
    ensures { result ≡ high_of_least (pairs_of_shards shards.now) }
{
    if some_shard(Test::IsCertain, shards) {
        least_or_zero(End::CertainHigh, shards)
    } else {
        greatest_or_zero(End::High, shards)
    }
}

// The least that the greatest value can be.
fn low_of_greatest(shards: &[Bound]) -> i128
    ensures { result ≡ low_of_greatest (pairs_of_shards shards.now) }
{
    if some_shard(Test::IsCertain, shards) {
        greatest_or_zero(End::CertainLow, shards)
    } else {
        least_or_zero(End::Low, shards)
    }
}

fn low_end(kind: ItemKind, shards: &[Bound]) -> Option<i128>
    ensures fits { IsSome result ↔ FitsSigned w128 (combined kind shards.now).lo }
    ensures value { IfSome result (λ n. n ≡ (combined kind shards.now).lo) }
{
    match kind {
        ItemKind::Count => total(End::RowsLow, shards),
        ItemKind::Sum | ItemKind::Avg => least_sum(shards),
        ItemKind::Min => Some(least_or_zero(End::Low, shards)),
        ItemKind::Max => Some(low_of_greatest(shards)),
    }
}

fn high_end(kind: ItemKind, shards: &[Bound]) -> Option<i128>
    ensures fits { IsSome result ↔ FitsSigned w128 (combined kind shards.now).hi }
    ensures value { IfSome result (λ n. n ≡ (combined kind shards.now).hi) }
{
    match kind {
        ItemKind::Count => total(End::RowsHigh, shards),
        ItemKind::Sum | ItemKind::Avg => greatest_sum(shards),
        ItemKind::Min => Some(high_of_least(shards)),
        ItemKind::Max => Some(greatest_or_zero(End::High, shards)),
    }
}

fn word(kind: ItemKind, shards: &[Bound]) -> Nullity
    ensures { result ≡ (combined kind shards.now).null }
{
    match kind {
        ItemKind::Count => Nullity::Never,
        ItemKind::Sum | ItemKind::Min | ItemKind::Max | ItemKind::Avg => nullity(shards),
    }
}

/// The bound of an item over all shards, from those that the shards report; none where one of its ends is not an `i128`.
pub fn combine(kind: ItemKind, shards: &[Bound]) -> Option<Bound>
    ensures fits { IsSome result ↔ FitsBound (combined kind shards.now) }
    ensures value { IfSome result (λ bound. bound ≡ combined kind shards.now) }
{
    let lo = low_end(kind, shards)?;
    let hi = high_end(kind, shards)?;
    Some(Bound {
        null: word(kind, shards),
        lo,
        hi,
    })
}
