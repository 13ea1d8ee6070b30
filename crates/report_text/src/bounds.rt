//! What a line says of an answer that is no average, read back.

ghost use Rattle.std.specs.Prelude.{◌≡◌, ◌≢◌, ◌≤◌, ◌≤ℤ◌, Bool, Some, IfSome, length, true};
ghost use Rattle.std.specs.Ordering.{int_eq};
ghost use Rattle.query_model.specs.declared.bounds.Nullity.TheVariants.{Always};
ghost use Rattle.report_text.specs.Bounds.{HasEnds, IsBoundIn, IsShown, high_text, low_text, shown_text};
ghost use Rattle.report_text.specs.Forms.{HasTextsIn, IsIntervalEnd, text_of_end};
ghost use Rattle.report_text.specs.Layouts.{IsLaid};
ghost use Rattle.report_text.specs.declared.bounds.ShownBound.{ShownBound};

use crate::forms::{Form, IntervalEnd, are_same_forms, read_interval_end, written_in};
use crate::layouts::{Layout, lay, written_interval};
use daq_table::TextBuf;
use query_model::{Bound, Nullity};

/// Where an answer lies, and how its ends are written: as numbers without decimals where there is no answer.
#[derive(Clone, Copy, Debug, PartialEq, Eq)]
pub struct ShownBound {
    pub form: Form,
    pub bound: Bound,
}

/// The text of a bound, as a line shows it.
pub fn written_bound(shown: &ShownBound) -> TextBuf
    requires { HasTextsIn shown.now.form shown.now.bound }
    ensures text { result ≡ shown_text shown.now }
    ensures short { length result ≤ 414 }
{
    written_interval(
        shown.bound.null,
        shown.bound.lo == shown.bound.hi,
        written_in(shown.form, shown.bound.lo),
        written_in(shown.form, shown.bound.hi),
    )
}

// The bound between two ends, if they are in order and of one form.
fn ordered(null: Nullity, low: IntervalEnd, high: IntervalEnd) -> Option<ShownBound>
    requires null { null ≢ Always }
    requires low { IsIntervalEnd low }
    requires high { IsIntervalEnd high }
    ensures shown { IfSome result IsShown }
    ensures is { low.form ≡ high.form → low.value ≤ℤ high.value → result ≡ Some (record {
      form = low.form;
      bound = record { null = null; lo = low.value; hi = high.value };
    }) }
    ensures ends { IfSome result (HasEnds null (text_of_end low) (text_of_end high)) }
{
    if !are_same_forms(low.form, high.form) || low.value > high.value {
        return None;
    }
    Some(ShownBound {
        form: low.form,
        bound: Bound {
            null,
            lo: low.value,
            hi: high.value,
        },
    })
}

// The bound between two ends with these texts.
fn between(null: Nullity, low: &[u8], high: &[u8]) -> Option<ShownBound>
    requires { null ≢ Always }
    ensures shown { IfSome result IsShown }
    ensures read { (shown : ShownBound) → IsShown shown → shown.bound.null ≡ null
        → low_text shown ≡ low.now → high_text shown ≡ high.now → result ≡ Some shown }
    ensures ends { IfSome result (HasEnds null low.now high.now) }
{
    let low = read_interval_end(low)?;
    let high = read_interval_end(high)?;
    ordered(null, low, high)
}

// The bound of a layout.
fn bound_of(layout: Layout<'_>) -> Option<ShownBound>
    ensures shown { IfSome result IsShown }
    ensures read { (single : Bool) (shown : ShownBound) → IsShown shown
        → IsLaid shown.bound.null single (low_text shown) (high_text shown) layout.entry → result ≡ Some shown }
    ensures is { IfSome result (IsBoundIn layout.entry) }
{
    match layout.null {
        Nullity::Always => Some(ShownBound {
            form: Form::Decimals(0),
            bound: Bound {
                null: Nullity::Always,
                lo: 0,
                hi: 0,
            },
        }),
        Nullity::Never | Nullity::Possibly => between(layout.null, layout.low, layout.high),
    }
}

// Whether a single end stands just where both are the same.
fn is_laid_alike(single: bool, bound: &Bound) -> bool
    ensures yes { single ≡ int_eq bound.now.lo bound.now.hi → result ≡ true }
    ensures only { result ≡ true → single ≡ int_eq bound.now.lo bound.now.hi }
{
    single == (bound.lo == bound.hi)
}

/// What the text says of an answer: it is read back as it was written, and what is read is written as it stood.
pub fn read_bound(text: &[u8]) -> Option<ShownBound>
    ensures read { (shown : ShownBound) → IsShown shown → shown_text shown ≡ text.now → result ≡ Some shown }
    ensures written { IfSome result (λ shown. IsShown shown × (shown_text shown ≡ text.now)) }
{
    let layout = lay(text)?;
    let shown = bound_of(layout)?;
    if is_laid_alike(layout.single, &shown.bound) {
        Some(shown)
    } else {
        None
    }
}
