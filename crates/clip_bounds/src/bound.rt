//! The clipped bound of an item.

ghost use Rattle.std.specs.Prelude.{◌≡◌, ◌<◌, pos, length, slice_get, IfSome, Some};
ghost use Rattle.std.specs.Option.{option_map};
ghost use Rattle.daq_table.specs.Tables.{frame_of};
ghost use Rattle.daq_table.specs.declared.table_head.Head.{Head};
ghost use Rattle.query_model.specs.Validity.{FitsHead};
ghost use Rattle.query_model.specs.declared.bounds.Nullity.TheVariants.{Always};
ghost use Rattle.round_engine.specs.Promises.{IsShownWithin};
ghost use Rattle.clip_bounds.specs.Clips.{clip_of};
ghost use Rattle.clip_bounds.specs.Clipped.{IsCertainClip, clipped_ends, clipped_in};
ghost use Rattle.clip_bounds.specs.Sums.{IsItemWithClip, is_always, is_sum};

use crate::clip::{Clip, clip_of};
use crate::sums::{clipped_sum, column_of};
use query_model::{Bound, ItemKind, Nullity};
use round_engine::EngineView;

// Whether an item is a sum.
fn is_sum(engine: &EngineView<'_>, item: usize) -> bool
    requires { item < length engine.now.query.items }
    ensures { IfSome (slice_get engine.now.query.items item) (λ i. result ≡ is_sum i.kind) }
{
    let query = engine.query();
    let chosen = &query.items.as_slice()[item];
    match chosen.kind {
        ItemKind::Sum => true,
        ItemKind::Count | ItemKind::Min | ItemKind::Max | ItemKind::Avg => false,
    }
}

// Whether no row may give a value.
fn is_always(null: Nullity) -> bool
    ensures { result ≡ is_always null }
{
    match null {
        Nullity::Always => true,
        Nullity::Never | Nullity::Possibly => false,
    }
}

// The part of a bound that lies in the clip.
fn clipped_ends(clip: Clip, bound: Bound) -> Bound
    ensures { result ≡ clipped_ends clip bound }
{
    Bound {
        null: bound.null,
        lo: bound.lo.max(clip.low),
        hi: bound.hi.min(clip.high),
    }
}

// The bound of no value.
fn nothing() -> Bound
    ensures { result ≡ record { null = Always; lo = pos 0; hi = pos 0 } }
{
    Bound {
        null: Nullity::Always,
        lo: 0,
        hi: 0,
    }
}

// The clipped bound of an item with its own bound. In a clip without numbers no row passes. To clip the ends of the bound of an extreme is
// to clip those of its pairs.
fn clipped_bound(engine: &EngineView<'_>, item: usize, clip: Clip, plain: Bound) -> Bound
    requires item { item < length engine.now.query.items }
    requires clipped { IfSome (slice_get engine.now.query.items item) (λ i. IsItemWithClip engine.now i clip plain) }
    ensures { IfSome (slice_get engine.now.query.items item) (λ i. result ≡ clipped_in engine.now i clip) }
{
    if clip.high < clip.low {
        return nothing();
    }
    if is_always(plain.null) {
        return plain;
    }
    if is_sum(engine, item) {
        clipped_sum(engine, item, clip, &plain)
    } else {
        clipped_ends(clip, plain)
    }
}

// The bound of an item that has this clip.
fn bound_with(engine: &EngineView<'_>, item: usize, clip: Clip) -> Bound
    requires item { item < length engine.now.query.items }
    requires clip { IfSome (slice_get engine.now.query.items item) (λ i. clip_of engine.now.query i ≡ Some clip) }
    ensures bound { IfSome (slice_get engine.now.query.items item) (λ i. result ≡ clipped_in engine.now i clip) }
    ensures certain { IfSome (slice_get engine.now.query.items item) (λ i.
        (head : Head) → FitsHead engine.now.query engine.now.frame head → IsCertainClip engine.now i clip (frame_of head)) }
    ensures shown { IfSome (slice_get engine.now.query.items item) (λ i. IsShownWithin engine.now.frame i.face result) }
{
    let _known = column_of(engine, item, clip);
    let plain = engine.plain(item);
    clipped_bound(engine, item, clip, plain)
}

/// The bound of a sum or an extreme over a bare column whose values the condition itself keeps within a range, and what it says
/// of the answer; none where the item has no such range. Where several ranges have no number in common it is that of no value. It lies
/// within the bound that `plain` tells. No memory is taken.
pub fn clip_bound(engine: &EngineView<'_>, item: usize) -> Option<Bound>
    requires { item < length engine.now.query.items }
    ensures bound { IfSome (slice_get engine.now.query.items item) (λ i.
        result ≡ option_map (clipped_in engine.now i) (clip_of engine.now.query i)) }
    ensures certain { IfSome (slice_get engine.now.query.items item) (λ i. IfSome (clip_of engine.now.query i) (λ clip.
        (head : Head) → FitsHead engine.now.query engine.now.frame head → IsCertainClip engine.now i clip (frame_of head))) }
    ensures shown { IfSome (slice_get engine.now.query.items item) (λ i. IfSome result (IsShownWithin engine.now.frame i.face)) }
{
    match clip_of(engine.query(), item) {
        Some(clip) => Some(bound_with(engine, item, clip)),
        None => None,
    }
}
