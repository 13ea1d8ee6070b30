//! What a line says of an average, read back.

ghost use Rattle.std.specs.Prelude.{◌≡◌, ◌≢◌, ◌≤◌, Bool, Some, IfSome, decimal, length, true};
ghost use Rattle.query_model.specs.declared.bounds.Nullity.TheVariants.{Always};
ghost use Rattle.report_text.specs.Averages.{CanBeDivided, HasRatios, IsAverageIn, IsShownAverage, average_text, is_same_ratio, ratio_text};
ghost use Rattle.report_text.specs.Layouts.{IsLaid};
ghost use Rattle.report_text.specs.declared.averages.Ratio.{Ratio};
ghost use Rattle.report_text.specs.declared.averages.ShownAverage.{ShownAverage};

use crate::counts::{read_count, written_count};
use crate::digits::around_first;
use crate::layouts::{Layout, lay, written_interval};
use crate::numbers::{Number, read_number, written};
use daq_table::TextBuf;
use query_model::Nullity;

/// A sum over a number of rows, not reduced.
#[derive(Clone, Copy, Debug, PartialEq, Eq)]
pub struct Ratio {
    pub sum: Number,
    pub rows: u64,
}

/// Where an average lies: its ends have equally many decimals, and are 0 over 1 where there is no answer.
#[derive(Clone, Copy, Debug, PartialEq, Eq)]
pub struct ShownAverage {
    pub null: Nullity,
    pub low: Ratio,
    pub high: Ratio,
}

// The text of a sum over a number of rows.
fn written_ratio(ratio: Ratio) -> TextBuf
    requires { ratio.sum.decimals ≤ 18 }
    ensures text { result ≡ ratio_text ratio }
    ensures short { length result ≤ 201 }
{
    let mut text = written(ratio.sum);
    text.append(b"/");
    text.append(written_count(ratio.rows).bytes());
    text
}

// The ratio whose text this is.
fn read_ratio(text: &[u8]) -> Option<Ratio>
    ensures read { (ratio : Ratio) → CanBeDivided ratio → ratio_text ratio ≡ text.now → result ≡ Some ratio }
    ensures divided { IfSome result CanBeDivided }
    ensures written { IfSome result (λ ratio. ratio_text ratio ≡ text.now) }
{
    let (front, rest) = around_first(text, b'/');
    let sum = read_number(front)?;
    let rows = read_count(rest)?;
    if rows == 0 {
        return None;
    }
    Some(Ratio { sum, rows })
}

// Whether both are the same sum over the same number of rows, where they have equally many decimals.
fn is_same_ratio(low: Ratio, high: Ratio) -> bool
    ensures { result ≡ is_same_ratio low high }
{
    low.sum.units == high.sum.units && low.rows == high.rows
}

/// The text of an average, as a line shows it.
pub fn written_average(shown: &ShownAverage) -> TextBuf
    requires low { shown.now.low.sum.decimals ≤ 18 }
    requires high { shown.now.high.sum.decimals ≤ 18 }
    ensures text { result ≡ average_text shown.now }
    ensures short { length result ≤ 414 }
{
    written_interval(
        shown.null,
        is_same_ratio(shown.low, shown.high),
        written_ratio(shown.low),
        written_ratio(shown.high),
    )
}

const NO_RATIO: Ratio = Ratio {
    sum: Number {
        decimals: 0,
        units: 0,
    },
    rows: 1,
};

// The average between two ratios, if they have equally many decimals.
fn alike(null: Nullity, low: Ratio, high: Ratio) -> Option<ShownAverage>
    requires null { null ≢ Always }
    requires low { CanBeDivided low }
    requires high { CanBeDivided high }
    ensures shown { IfSome result IsShownAverage }
    ensures is { low.sum.decimals ≡ high.sum.decimals → result ≡ Some (record { null = null; low = low; high = high }) }
    ensures ends { IfSome result (HasRatios null (ratio_text low) (ratio_text high)) }
{
    if low.sum.decimals != high.sum.decimals {
        return None;
    }
    Some(ShownAverage { null, low, high })
}

// The average between two ratios with these texts.
fn between(null: Nullity, low: &[u8], high: &[u8]) -> Option<ShownAverage>
    requires { null ≢ Always }
    ensures shown { IfSome result IsShownAverage }
    ensures read { (shown : ShownAverage) → IsShownAverage shown → shown.null ≡ null
        → ratio_text shown.low ≡ low.now → ratio_text shown.high ≡ high.now → result ≡ Some shown }
    ensures ends { IfSome result (HasRatios null low.now high.now) }
{
    let low = read_ratio(low)?;
    let high = read_ratio(high)?;
    alike(null, low, high)
}

// The average of a layout.
fn average_of(layout: Layout<'_>) -> Option<ShownAverage>
    ensures shown { IfSome result IsShownAverage }
    ensures read { (single : Bool) (shown : ShownAverage) → IsShownAverage shown
        → IsLaid shown.null single (ratio_text shown.low) (ratio_text shown.high) layout.entry → result ≡ Some shown }
    ensures is { IfSome result (IsAverageIn layout.entry) }
{
    match layout.null {
        Nullity::Always => Some(ShownAverage {
            null: Nullity::Always,
            low: NO_RATIO,
            high: NO_RATIO,
        }),
        Nullity::Never | Nullity::Possibly => between(layout.null, layout.low, layout.high),
    }
}

// Whether a single end stands just where both are the same.
fn is_laid_alike(single: bool, shown: &ShownAverage) -> bool
    ensures yes { single ≡ is_same_ratio shown.now.low shown.now.high → result ≡ true }
    ensures only { result ≡ true → single ≡ is_same_ratio shown.now.low shown.now.high }
{
    single == is_same_ratio(shown.low, shown.high)
}

/// What the text says of an average: it is read back as it was written, and what is read is written as it stood.
pub fn read_average(text: &[u8]) -> Option<ShownAverage>
    ensures read { (shown : ShownAverage) → IsShownAverage shown → average_text shown ≡ text.now → result ≡ Some shown }
    ensures written { IfSome result (λ shown. IsShownAverage shown × (average_text shown ≡ text.now)) }
{
    let layout = lay(text)?;
    let shown = average_of(layout)?;
    if is_laid_alike(layout.single, &shown) {
        Some(shown)
    } else {
        None
    }
}
