//! The laws of clipped bounds. Each stands on a function that does nothing.

ghost use Rattle.clip_bounds.specs.ClipLaws.{ClipsAreCertain, ClipsAreExtremes, ClipsContain, ClipsLieWithin, ClipsNest};

/// A clipped bound admits the answer of each completion.
pub fn clips_contain()
    ensures { ClipsContain }
{}

/// Where no column stands in the condition twice, or where those that do stand there in ranges that meet, a clipped bound is the extremes
/// of the item's answers over all completions.
pub fn clips_are_extremes()
    ensures { ClipsAreExtremes }
{}

/// With one more plane read, a clipped bound lies within the one before.
pub fn clips_nest()
    ensures { ClipsNest }
{}

/// A clipped bound lies within the item's own bound.
pub fn clips_lie_within()
    ensures { ClipsLieWithin }
{}

/// On whole tables: at each stage a clipped bound admits the answer of each table that agrees with what is known, lies within the
/// item's own bound, and is the extremes where no column stands in the condition twice, or where those that do stand there in ranges that
/// meet.
pub fn clips_are_certain()
    ensures { ClipsAreCertain }
{}
