//! The keys of a cell, as the line of a group shows them.

ghost use Rattle.std.specs.Prelude.{◌≡◌, IfOk, IfSome, length};
ghost use Rattle.std.specs.List.{All};
ghost use Rattle.std.specs.Ordering.{is_le};
ghost use Rattle.report_text.specs.Keys.{AreShownEnds, IsShownSpan};
ghost use Rattle.part_groups.specs.Shown.{are_written, ends_between, or_dash, shown_ends, shown_from};
ghost use Rattle.part_groups.specs.Shown.{shown_span, span_at, texts_between, values_between};

use crate::forms::EndsForm;
use daq_table::Text;
use query_model::{Bound, Nullity};
use report_text::{Form, ShownEnds, ShownKeys, ShownSpan, TextEnds, ValueEnds, has_texts};
use shard_groups::{Ends, KeyValue, Span};
use std::alloc::{AllocError, Global};
use text_extremes::copied;

// Whether the form writes both, and they are in order.
fn are_written(form: Form, low: i128, high: i128) -> bool
    ensures { result ≡ are_written form low high }
{
    let ends = Bound {
        null: Nullity::Never,
        lo: low,
        hi: high,
    };
    low <= high && has_texts(form, &ends)
}

// The numbers or dates between two.
fn values_between(form: Form, low: i128, high: i128) -> Option<ShownEnds>
    ensures values { result ≡ values_between form low high }
    ensures shown { IfSome result AreShownEnds }
{
    if !are_written(form, low, high) {
        return None;
    }
    Some(ShownEnds::Values(ValueEnds { form, low, high }))
}

// The texts between two.
fn texts_between(alloc: Global, low: &Text, high: &Text) -> Result<Option<ShownEnds>, AllocError>
    ensures texts { IfOk result (λ ends. ends ≡ texts_between low.now high.now) }
    ensures shown { IfOk result (λ ends. IfSome ends AreShownEnds) }
{
    if !low.as_slice().cmp(high.as_slice()).is_le() {
        return Ok(None);
    }
    let low = copied(alloc, low.as_slice())?;
    let high = copied(alloc, high.as_slice())?;
    Ok(Some(ShownEnds::Texts(TextEnds { low, high })))
}

// The values between two, in that form.
fn ends_between(
    alloc: Global,
    form: EndsForm,
    low: &KeyValue,
    high: &KeyValue,
) -> Result<Option<ShownEnds>, AllocError>
    ensures values { IfOk result (λ ends. ends ≡ ends_between form low.now high.now) }
    ensures shown { IfOk result (λ ends. IfSome ends AreShownEnds) }
{
    match (form, low, high) {
        (EndsForm::Values(form), KeyValue::Number(low), KeyValue::Number(high)) => {
            Ok(values_between(form, *low, *high))
        }
        (EndsForm::Values(_), KeyValue::Number(_), KeyValue::Text(_)) => Ok(None),
        (EndsForm::Values(_), KeyValue::Text(_), _) => Ok(None),
        (EndsForm::Texts, KeyValue::Number(_), _) => Ok(None),
        (EndsForm::Texts, KeyValue::Text(_), KeyValue::Number(_)) => Ok(None),
        (EndsForm::Texts, KeyValue::Text(low), KeyValue::Text(high)) => {
            texts_between(alloc, low, high)
        }
    }
}

fn shown_ends(
    alloc: Global,
    form: Option<EndsForm>,
    ends: &Option<Ends>,
) -> Result<Option<ShownEnds>, AllocError>
    ensures values { IfOk result (λ shown. shown ≡ shown_ends form ends.now) }
    ensures shown { IfOk result (λ shown. IfSome shown AreShownEnds) }
{
    match (form, ends) {
        (Some(form), Some(ends)) => ends_between(alloc, form, &ends.low, &ends.high),
        (None, _) => Ok(None),
        (Some(_), None) => Ok(None),
    }
}

// The span of these values. Where neither null nor a value is allowed, a dash says so.
fn with_null(null: bool, ends: Option<ShownEnds>) -> ShownSpan
    requires { IfSome ends AreShownEnds }
    ensures span { result ≡ record { null = null; ends = or_dash null ends } }
    ensures shown { IsShownSpan result }
{
    match ends {
        Some(ends) => ShownSpan {
            null,
            ends: Some(ends),
        },
        None => ShownSpan {
            null,
            ends: if null { None } else { Some(ShownEnds::NoText) },
        },
    }
}

// What is shown of a column.
fn shown_span(alloc: Global, form: Option<EndsForm>, span: &Span) -> Result<ShownSpan, AllocError>
    ensures span { IfOk result (λ shown. shown ≡ shown_span form span.now) }
    ensures shown { IfOk result IsShownSpan }
{
    let ends = shown_ends(alloc, form, &span.ends)?;
    Ok(with_null(span.null, ends))
}

// What is shown of the column with that number.
fn shown_at(
    alloc: Global,
    form: Option<EndsForm>,
    column: usize,
    spans: &[Span],
) -> Result<ShownSpan, AllocError>
    ensures span { IfOk result (λ shown. shown ≡ shown_span form (span_at column spans.now)) }
    ensures shown { IfOk result IsShownSpan }
{
    match spans.get(column) {
        Some(span) => shown_span(alloc, form, span),
        None => Ok(with_null(false, None)),
    }
}

// What is shown of all columns, each in its form.
pub(crate) fn shown_keys(
    alloc: Global,
    forms: &[Option<EndsForm>],
    spans: &[Span],
) -> Result<ShownKeys, AllocError>
    ensures keys { IfOk result (λ keys. keys ≡ shown_from 0 forms.now spans.now) }
    ensures shown { IfOk result (All IsShownSpan) }
    ensures count { IfOk result (λ keys. length keys ≡ length forms.now) }
{
    let mut keys = Vec::with_capacity(alloc, forms.len())?;
    for (column, form) in forms.iter().enumerate() {
        keys.push(shown_at(alloc, *form, column, spans)?)?;
    }
    Ok(ShownKeys::new(keys))
}
