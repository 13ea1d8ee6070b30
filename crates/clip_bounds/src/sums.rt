//! The clipped bound of a sum: that of the item, moved at the rows whose span the clip cuts. They are those of one prefix at each end.

ghost use Rattle.std.specs.Prelude.{◌≡◌, ◌<◌, ◌≤◌, ◌^◌, ◌≤ℤ◌, ◌+ℤ◌};
ghost use Rattle.std.specs.Prelude.{◌-ℤ◌, ◌*ℤ◌, length, map, negsuc, pos, slice_get, IfSome};
ghost use Rattle.std.specs.declared.option.Option.TheVariants.{Some};
ghost use Rattle.known_column.specs.Columns.{rows_of_column};
ghost use Rattle.known_column.specs.KnownTables.{column_at};
ghost use Rattle.query_model.specs.Answers.{total};
ghost use Rattle.query_model.specs.Bounds.{greatest_sum, least_sum};
ghost use Rattle.query_model.specs.Knowledge.{IsKnowledge};
ghost use Rattle.round_engine.specs.SumEnds.{share_at};
ghost use Rattle.clip_bounds.specs.ClipLaws.{IsOfLongs};
ghost use Rattle.clip_bounds.specs.Clips.{IsLong, clip_of};
ghost use Rattle.clip_bounds.specs.Clipped.{clipped_in, clipped_pairs, pairs_in};
ghost use Rattle.clip_bounds.specs.Ends.{part_of};
ghost use Rattle.clip_bounds.specs.Levels.{count_at};
ghost use Rattle.clip_bounds.specs.Sums.{IsSumWithClip, is_uncertain};

use crate::clip::Clip;
use crate::level::Level;
use aggregates::End;
use known_column::Known;
use plane_kernels::Mask;
use query_model::{Bound, Nullity};
use round_engine::EngineView;

// A difference of numbers so many times.
fn times(count: u64, step: i128) -> i128
    requires count { count ≤ 2 ^ 25 }
    requires low { negsuc 18446744073709551616 ≤ℤ step }
    requires high { step ≤ℤ pos 18446744073709551616 }
    ensures { result ≡ pos count *ℤ step }
{
    i128::from(count) * step
}

// What is known of the column of an item that has this clip.
pub(crate) fn column_of<'a>(engine: &'a EngineView<'_>, item: usize, clip: Clip) -> &'a Known
    requires item { item < length engine.now.query.items }
    requires clip { IfSome (slice_get engine.now.query.items item) (λ i. clip_of engine.now.query i ≡ Some clip) }
    ensures there { clip.column < length engine.now.frame.columns }
    ensures column { result.now ≡ column_at (record { frame = engine.now.frame; known = engine.now.known }) clip.column }
    ensures rows { rows_of_column result.now ≡ engine.now.frame.rows }
    ensures knowledge { IsKnowledge engine.now.frame engine.now.known }
    ensures longs { IsOfLongs engine.now.frame clip.column }
{
    let _query = engine.query();
    let known = engine.columns().column(usize::from(clip.column));
    let _base = known.base();
    let _top = known.top();
    known
}

// The part of a number that widens a sum at this end.
fn part_of(end: End, number: i128) -> i128
    requires { IsLong number }
    ensures part { result ≡ part_of end number }
    ensures long { IsLong result }
{
    match end {
        End::Low => number.min(0),
        End::High => number.max(0),
    }
}

// How far that part moves.
fn end_step(end: End, from: i128, to: i128) -> i128
    requires from { IsLong from }
    requires to { IsLong to }
    ensures step { result ≡ part_of end to -ℤ part_of end from }
    ensures few { (negsuc 18446744073709551616 ≤ℤ result) × (result ≤ℤ pos 18446744073709551616) }
{
    part_of(end, to) - part_of(end, from)
}

// The step at each row of the level that may pass.
fn all_steps(level: Level, known: &Known, may: &Mask, step: i128) -> i128
    requires rows { length may.now ≡ rows_of_column known.now }
    requires prefix { level.prefix < 2 ^ known.now.known.read }
    requires few { (negsuc 18446744073709551616 ≤ℤ step) × (step ≤ℤ pos 18446744073709551616) }
    ensures { result ≡ pos (count_at level.prefix may.now known.now.known.prefixes) *ℤ step }
{
    if step == 0 {
        return 0;
    }
    times(level.count(known, may), step)
}

// How far an end of the sum moves where the clip cuts it: only rows whose prefix is that of the clip's own number move. Rows that surely
// pass have no number beyond it.
fn sum_move(end: End, engine: &EngineView<'_>, item: usize, clip: Clip) -> i128
    requires item { item < length engine.now.query.items }
    requires clip { IfSome (slice_get engine.now.query.items item) (λ i. clip_of engine.now.query i ≡ Some clip) }
    requires full { clip.low ≤ℤ clip.high }
    ensures { IfSome (slice_get engine.now.query.items item) (λ i.
        total (map (share_at end) (clipped_pairs engine.now i clip)) ≡ (total (map (share_at end) (pairs_in engine.now i)) +ℤ result)) }
{
    let known = column_of(engine, item, clip);
    let number = clip.end(end);
    if number < i128::from(known.base()) {
        return 0;
    }
    if i128::from(known.top()) < number {
        return 0;
    }
    let level = Level::of(known, number);
    let step = end_step(end, level.end(end), number);
    all_steps(level, known, engine.filter().may(), step)
}

// Whether no row is certain.
fn is_uncertain(null: Nullity) -> bool
    ensures { result ≡ is_uncertain null }
{
    match null {
        Nullity::Never => false,
        Nullity::Possibly | Nullity::Always => true,
    }
}

// The least sum of the clipped pairs. Where none is certain and each is above 0, it is one low end alone.
fn least_sum(engine: &EngineView<'_>, item: usize, clip: Clip, plain: &Bound) -> i128
    requires item { item < length engine.now.query.items }
    requires sum { IfSome (slice_get engine.now.query.items item) (λ i. IsSumWithClip engine.now i clip plain.now) }
    requires full { clip.low ≤ℤ clip.high }
    ensures { IfSome (slice_get engine.now.query.items item) (λ i. result ≡ least_sum (clipped_pairs engine.now i clip)) }
{
    let low = plain.lo;
    let _high = plain.hi;
    if clip.low > 0 && is_uncertain(plain.null) {
        low.max(clip.low)
    } else {
        low + sum_move(End::Low, engine, item, clip)
    }
}

// The greatest sum, in the same way.
fn greatest_sum(engine: &EngineView<'_>, item: usize, clip: Clip, plain: &Bound) -> i128
    requires item { item < length engine.now.query.items }
    requires sum { IfSome (slice_get engine.now.query.items item) (λ i. IsSumWithClip engine.now i clip plain.now) }
    requires full { clip.low ≤ℤ clip.high }
    ensures { IfSome (slice_get engine.now.query.items item) (λ i. result ≡ greatest_sum (clipped_pairs engine.now i clip)) }
{
    let _low = plain.lo;
    let high = plain.hi;
    if clip.high < 0 && is_uncertain(plain.null) {
        high.min(clip.high)
    } else {
        high + sum_move(End::High, engine, item, clip)
    }
}

// The clipped bound of a sum, by its own, where the clip has numbers.
pub(crate) fn clipped_sum(engine: &EngineView<'_>, item: usize, clip: Clip, plain: &Bound) -> Bound
    requires item { item < length engine.now.query.items }
    requires sum { IfSome (slice_get engine.now.query.items item) (λ i. IsSumWithClip engine.now i clip plain.now) }
    requires full { clip.low ≤ℤ clip.high }
    ensures { IfSome (slice_get engine.now.query.items item) (λ i. result ≡ clipped_in engine.now i clip) }
{
    Bound {
        null: plain.null,
        lo: least_sum(engine, item, clip, plain),
        hi: greatest_sum(engine, item, clip, plain),
    }
}
