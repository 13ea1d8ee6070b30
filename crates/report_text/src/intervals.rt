//! Where the key of a row lies, read back.

ghost use Rattle.std.specs.Prelude.{◌≡◌, ◌≢◌, ◌++◌, ℕ, Bool, List, Some, IfOk, IfSome, OnOk, codes, false, true};
ghost use Rattle.report_text.specs.Intervals.{ends_between, key_interval};
ghost use Rattle.report_text.specs.Keys.{AreShownEnds, AreValueEnds, IsShownSpan};
ghost use Rattle.report_text.specs.Parted.{IsParted};
ghost use Rattle.report_text.specs.Quotes.{LacksOutside};
ghost use Rattle.report_text.specs.Words.{ends_text};
ghost use Rattle.report_text.specs.declared.keys.ShownEnds.{ShownEnds};
ghost use Rattle.report_text.specs.declared.keys.ShownEnds.TheVariants.{Texts, Values};
ghost use Rattle.report_text.specs.declared.keys.ShownSpan.{ShownSpan};

use crate::forms::written_in;
use crate::keys::{ShownEnds, ShownSpan, TextEnds, ValueEnds, read_between, with_null};
use crate::layouts::{before, behind};
use crate::quotes::{append_quoted, around_outside};
use std::alloc::{AllocError, Global};

// The texts of two ends, behind the first bracket.
fn around_comma(inner: &[u8]) -> Option<(&[u8], &[u8])>
    ensures { (low high : List ℕ) → LacksOutside (codes ", ") false low → low ++ (codes ", " ++ (high ++ codes "]")) ≡ inner.now
        → IsParted low high result }
{
    let (low, rest) = around_outside(inner, b", ")?;
    let high = before(rest, b"]")?;
    Some((low, high))
}

// The texts of the ends of an interval: both are one where there are no brackets.
fn around_brackets(text: &[u8]) -> Option<(&[u8], &[u8])>
    ensures { (equal : Bool) (low high : List ℕ) → LacksOutside (codes ", ") false low → ((rest : List ℕ) → low ≢ codes "[" ++ rest)
        → (equal ≡ true → low ≡ high) → ends_text equal low high ≡ text.now → IsParted low high result }
{
    match behind(text, b"[") {
        Some(inner) => around_comma(inner),
        None => Some((text, text)),
    }
}

// The values between the ends of an interval.
fn read_values_between(alloc: Global, text: &[u8]) -> Result<Option<ShownEnds>, AllocError>
    ensures shown { IfOk result (λ read. IfSome read AreShownEnds) }
    ensures read { IfOk result (λ read. (ends : ShownEnds) → AreShownEnds ends → ends_between ends ≡ text.now → read ≡ Some ends) }
{
    if text == b"-".as_slice() {
        return Ok(Some(ShownEnds::NoText));
    }
    match around_brackets(text) {
        Some((low, high)) => read_between(alloc, low, high),
        None => Ok(None),
    }
}

// Where a key lies, by this text. It may read it where a report would write it in another way.
pub(crate) fn read_interval(alloc: Global, text: &[u8]) -> Result<Option<ShownSpan>, AllocError>
    ensures shown { IfOk result (λ read. IfSome read IsShownSpan) }
    ensures read { IfOk result (λ read. (span : ShownSpan) → IsShownSpan span → key_interval span ≡ text.now → read ≡ Some span) }
{
    if text == b"null".as_slice() {
        return Ok(Some(ShownSpan {
            null: true,
            ends: None,
        }));
    }
    match before(text, b" or null") {
        Some(ends) => Ok(with_null(true, read_values_between(alloc, ends)?)),
        None => Ok(with_null(false, read_values_between(alloc, text)?)),
    }
}

// Appends one text where both are equal, else both in brackets.
fn append_between(
    equal: bool,
    low: &[u8],
    high: &[u8],
    text: &mut Vec<u8>,
) -> Result<(), AllocError>
    ensures { OnOk result (text.new.items ≡ text.old.items ++ ends_text equal low.now high.now) }
{
    if equal {
        return Ok(text.extend_from_slice(low)?);
    }
    text.extend_from_slice(b"[")?;
    text.extend_from_slice(low)?;
    text.extend_from_slice(b", ")?;
    text.extend_from_slice(high)?;
    text.extend_from_slice(b"]")?;
    Ok(())
}

// Appends the numbers or dates.
fn append_values(ends: &ValueEnds, text: &mut Vec<u8>) -> Result<(), AllocError>
    requires { AreValueEnds ends.now }
    ensures { OnOk result (text.new.items ≡ text.old.items ++ ends_between (Values ends.now)) }
{
    let low = written_in(ends.form, ends.low);
    let high = written_in(ends.form, ends.high);
    append_between(ends.low == ends.high, low.bytes(), high.bytes(), text)
}

// Appends the texts.
pub(crate) fn append_texts(ends: &TextEnds, text: &mut Vec<u8>) -> Result<(), AllocError>
    ensures { OnOk result (text.new.items ≡ text.old.items ++ ends_between (Texts ends.now)) }
{
    if ends.low.as_slice() == ends.high.as_slice() {
        return append_quoted(ends.low.as_slice(), text);
    }
    text.extend_from_slice(b"[")?;
    append_quoted(ends.low.as_slice(), text)?;
    text.extend_from_slice(b", ")?;
    append_quoted(ends.high.as_slice(), text)?;
    text.extend_from_slice(b"]")?;
    Ok(())
}

// Appends the values.
fn append_ends(ends: &ShownEnds, text: &mut Vec<u8>) -> Result<(), AllocError>
    requires { AreShownEnds ends.now }
    ensures { OnOk result (text.new.items ≡ text.old.items ++ ends_between ends.now) }
{
    match ends {
        ShownEnds::Values(ends) => append_values(ends, text),
        ShownEnds::Texts(ends) => append_texts(ends, text),
        ShownEnds::NoText => Ok(text.extend_from_slice(b"-")?),
    }
}

// Appends where a key lies.
pub(crate) fn append_interval(span: &ShownSpan, text: &mut Vec<u8>) -> Result<(), AllocError>
    requires { IsShownSpan span.now }
    ensures { OnOk result (text.new.items ≡ text.old.items ++ key_interval span.now) }
{
    match &span.ends {
        Some(ends) => {
            append_ends(ends, text)?;
            if span.null {
                text.extend_from_slice(b" or null")?;
            }
        }
        None => text.extend_from_slice(b"null")?,
    }
    Ok(())
}
