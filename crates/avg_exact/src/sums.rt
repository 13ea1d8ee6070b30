//! The sum of an end over the rows that a measure was taken of.

ghost use Rattle.std.specs.Prelude.{◌≡◌, ◌≤◌, ◌≤ℤ◌, negsuc, pos};
ghost use Rattle.aggregates.specs.Selections.{IsSmallSum};
ghost use Rattle.avg_exact.specs.Measures.{low_sum, sum_at, widened, IsFewMeasure};

use crate::passes::End;
use crate::planes::Measure;
use aggregates::{lows_of_rows, spans_of_rows};
use known_column::Known;

// The low ends, added up.
fn add_lows(known: &Known, measure: Measure) -> i128
    requires few { IsFewMeasure known.now measure }
    ensures sum { result ≡ low_sum known.now measure }
    ensures few { (negsuc 1237940039285380274899124224 ≤ℤ result) × (result ≤ℤ pos 1237940039285380274899124224) }
{
    let unread = known.unread();
    lows_of_rows(known.base(), measure.rows, measure.numbers, unread)
}

// How far the high ends lie above the low ends, added up.
fn add_spans(known: &Known, measure: Measure) -> u128
    requires few { IsFewMeasure known.now measure }
    ensures sum { result ≡ widened known.now measure }
    ensures few { result ≤ 1237940039285380274899124224 }
{
    let unread = known.unread();
    spans_of_rows(
        known.base(),
        known.top(),
        unread,
        measure.rows,
        measure.at_top,
    )
}

/// The sum of an end. From the low end values are negated.
pub(crate) fn sum_at(known: &Known, end: End, measure: Measure) -> i128
    requires few { IsFewMeasure known.now measure }
    ensures sum { result ≡ sum_at end known.now measure }
    ensures few { IsSmallSum result }
{
    let low = add_lows(known, measure);
    match end {
        End::Low => -low,
        End::High => low + add_spans(known, measure) as i128,
    }
}
