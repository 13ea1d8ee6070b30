//! What the line of a group says of a column of its keys.

ghost use Rattle.std.specs.Prelude.{◌≡◌, ◌≤ℤ◌, ◌++◌, ℕ, Bool, List, Some, IfOk, IfSome, OnOk, codes, false, true};
ghost use Rattle.std.specs.Cmp.Lexicographic.{slice_cmp};
ghost use Rattle.std.specs.Ordering.{is_le, nat_cmp};
ghost use Rattle.daq_table.specs.ValueTexts.{quoted_text};
ghost use Rattle.report_text.specs.Forms.{IsIntervalEnd, text_in};
ghost use Rattle.report_text.specs.Keys.{AreShownEnds, AreTextEnds, AreValueEnds, HaveTexts, IsShownSpan, dotted, span_text, text_of_ends};
ghost use Rattle.report_text.specs.Quotes.{LacksOutside};
ghost use Rattle.report_text.specs.declared.forms.IntervalEnd.{IntervalEnd};
ghost use Rattle.report_text.specs.declared.keys.ShownEnds.{ShownEnds};
ghost use Rattle.report_text.specs.declared.keys.ShownEnds.TheVariants.{Texts, Values};
ghost use Rattle.report_text.specs.declared.keys.ShownSpan.{ShownSpan};
ghost use Rattle.report_text.specs.declared.keys.TextEnds.{TextEnds};
ghost use Rattle.report_text.specs.declared.keys.ValueEnds.{ValueEnds};

use crate::forms::{Form, IntervalEnd, are_same_forms, read_interval_end, written_in};
use crate::layouts::behind;
use crate::quotes::{append_quoted, around_outside, unquoted};
use daq_table::Text;
use std::alloc::{AllocError, Global};

/// The numbers or dates from one to another, both included. Numbers are in units of their last decimal, and dates are day numbers.
#[derive(Clone, Copy, Debug, PartialEq, Eq)]
pub struct ValueEnds {
    pub form: Form,
    pub low: i128,
    pub high: i128,
}

/// The texts from one to another, by their bytes, both included.
#[derive(Drop, Debug)]
pub struct TextEnds {
    pub low: Text,
    pub high: Text,
}

/// The values from one to another.
#[derive(Drop, Debug)]
pub enum ShownEnds {
    Values(ValueEnds),
    Texts(TextEnds),
    /// The one value of a column of texts that has no text. No row has it.
    NoText,
}

/// What a key may have in a group column: null, the values of a range, or both.
#[derive(Drop, Debug)]
pub struct ShownSpan {
    pub null: bool,
    pub ends: Option<ShownEnds>,
}

// The values between two ends, if they are in order and of one form.
fn values_between(low: IntervalEnd, high: IntervalEnd) -> Option<ShownEnds>
    requires low { IsIntervalEnd low }
    requires high { IsIntervalEnd high }
    ensures shown { IfSome result AreShownEnds }
    ensures is { low.form ≡ high.form → low.value ≤ℤ high.value
        → result ≡ Some (Values (record { form = low.form; low = low.value; high = high.value })) }
{
    if !are_same_forms(low.form, high.form) || low.value > high.value {
        return None;
    }
    Some(ShownEnds::Values(ValueEnds {
        form: low.form,
        low: low.value,
        high: high.value,
    }))
}

// The values between two ends with these texts, if they are in order and of one form.
fn read_values(low: &[u8], high: &[u8]) -> Option<ShownEnds>
    ensures shown { IfSome result AreShownEnds }
    ensures read { (ends : ValueEnds) → AreValueEnds ends → text_in ends.form ends.low ≡ low.now → text_in ends.form ends.high ≡ high.now
        → result ≡ Some (Values ends) }
{
    let low = read_interval_end(low)?;
    let high = read_interval_end(high)?;
    values_between(low, high)
}

// The texts between two.
fn ordered(low: Text, high: Text) -> Option<ShownEnds>
    ensures shown { IfSome result AreShownEnds }
    ensures is { is_le (slice_cmp nat_cmp low high) ≡ true → result ≡ Some (Texts (record { low = low; high = high })) }
{
    if low.as_slice().cmp(high.as_slice()).is_le() {
        Some(ShownEnds::Texts(TextEnds { low, high }))
    } else {
        None
    }
}

// The texts between two that stand there in quotes, if they are in order.
fn read_texts(alloc: Global, low: &[u8], high: &[u8]) -> Result<Option<ShownEnds>, AllocError>
    ensures shown { IfOk result (λ read. IfSome read AreShownEnds) }
    ensures read { IfOk result (λ read. (ends : TextEnds) → AreTextEnds ends → quoted_text ends.low ≡ low.now
        → quoted_text ends.high ≡ high.now → read ≡ Some (Texts ends)) }
{
    match (unquoted(alloc, low)?, unquoted(alloc, high)?) {
        (Some(low), Some(high)) => Ok(ordered(low, high)),
        _ => Ok(None),
    }
}

// The texts of the ends of values: both are one where there are no dots.
fn around_dots(text: &[u8]) -> (&[u8], &[u8])
    ensures { (equal : Bool) (low high : List ℕ) → LacksOutside (codes "..") false low → (equal ≡ true → low ≡ high)
        → dotted equal low high ≡ text.now → (result.0.now ≡ low) × (result.1.now ≡ high) }
{
    match around_outside(text, b"..") {
        Some((low, high)) => (low, high),
        None => (text, text),
    }
}

// The values between two ends with these texts.
pub(crate) fn read_between(
    alloc: Global,
    low: &[u8],
    high: &[u8],
) -> Result<Option<ShownEnds>, AllocError>
    ensures shown { IfOk result (λ read. IfSome read AreShownEnds) }
    ensures read { IfOk result (λ read. (ends : ShownEnds) → AreShownEnds ends → HaveTexts low.now high.now ends → read ≡ Some ends) }
{
    match behind(low, b"'") {
        Some(_) => read_texts(alloc, low, high),
        None => Ok(read_values(low, high)),
    }
}

// The values whose text this is.
fn read_ends(alloc: Global, text: &[u8]) -> Result<Option<ShownEnds>, AllocError>
    ensures shown { IfOk result (λ read. IfSome read AreShownEnds) }
    ensures read { IfOk result (λ read. (ends : ShownEnds) → AreShownEnds ends → text_of_ends ends ≡ text.now → read ≡ Some ends) }
{
    if text == b"-".as_slice() {
        return Ok(Some(ShownEnds::NoText));
    }
    let (low, high) = around_dots(text);
    read_between(alloc, low, high)
}

// The span of these values.
pub(crate) fn with_null(null: bool, ends: Option<ShownEnds>) -> Option<ShownSpan>
    requires { IfSome ends AreShownEnds }
    ensures shown { IfSome result IsShownSpan }
    ensures is { (shown : ShownEnds) → ends ≡ Some shown → result ≡ Some (record { null = null; ends = Some shown }) }
{
    match ends {
        Some(ends) => Some(ShownSpan {
            null,
            ends: Some(ends),
        }),
        None => None,
    }
}

// What a key may have in a column, by this text. It may read it where a report would write it in another way.
pub(crate) fn read_span(alloc: Global, text: &[u8]) -> Result<Option<ShownSpan>, AllocError>
    ensures shown { IfOk result (λ read. IfSome read IsShownSpan) }
    ensures read { IfOk result (λ read. (span : ShownSpan) → IsShownSpan span → span_text span ≡ text.now → read ≡ Some span) }
{
    if text == b"null".as_slice() {
        return Ok(Some(ShownSpan {
            null: true,
            ends: None,
        }));
    }
    match around_outside(text, b" or null") {
        Some((ends, _)) => Ok(with_null(true, read_ends(alloc, ends)?)),
        None => Ok(with_null(false, read_ends(alloc, text)?)),
    }
}

// Appends one text where both are equal, else both.
fn append_dotted(equal: bool, low: &[u8], high: &[u8], text: &mut Vec<u8>) -> Result<(), AllocError>
    ensures { OnOk result (text.new.items ≡ text.old.items ++ dotted equal low.now high.now) }
{
    text.extend_from_slice(low)?;
    if !equal {
        text.extend_from_slice(b"..")?;
        text.extend_from_slice(high)?;
    }
    Ok(())
}

// Appends the numbers or dates.
fn append_values(ends: &ValueEnds, text: &mut Vec<u8>) -> Result<(), AllocError>
    requires { AreValueEnds ends.now }
    ensures { OnOk result (text.new.items ≡ text.old.items ++ text_of_ends (Values ends.now)) }
{
    let low = written_in(ends.form, ends.low);
    let high = written_in(ends.form, ends.high);
    append_dotted(ends.low == ends.high, low.bytes(), high.bytes(), text)
}

// Appends the texts.
fn append_texts(ends: &TextEnds, text: &mut Vec<u8>) -> Result<(), AllocError>
    ensures { OnOk result (text.new.items ≡ text.old.items ++ text_of_ends (Texts ends.now)) }
{
    append_quoted(ends.low.as_slice(), text)?;
    if ends.low.as_slice() != ends.high.as_slice() {
        text.extend_from_slice(b"..")?;
        append_quoted(ends.high.as_slice(), text)?;
    }
    Ok(())
}

// Appends the values.
fn append_ends(ends: &ShownEnds, text: &mut Vec<u8>) -> Result<(), AllocError>
    requires { AreShownEnds ends.now }
    ensures { OnOk result (text.new.items ≡ text.old.items ++ text_of_ends ends.now) }
{
    match ends {
        ShownEnds::Values(ends) => append_values(ends, text),
        ShownEnds::Texts(ends) => append_texts(ends, text),
        ShownEnds::NoText => Ok(text.extend_from_slice(b"-")?),
    }
}

// Appends what a key may have in a column.
pub(crate) fn append_span(span: &ShownSpan, text: &mut Vec<u8>) -> Result<(), AllocError>
    requires { IsShownSpan span.now }
    ensures { OnOk result (text.new.items ≡ text.old.items ++ span_text span.now) }
{
    match &span.ends {
        Some(ends) => {
            append_ends(ends, text)?;
            if span.null {
                text.extend_from_slice(b" or null")?;
            }
        }
        None => text.extend_from_slice(b"null")?,
    }
    Ok(())
}
