//! The layout of an interval in a line: one end or two, and whether there may be no answer.

ghost use Rattle.std.specs.Prelude.{◌≡◌, ◌≢◌, ◌≤◌, ◌++◌, [], ℕ, List, Bool, true, false, Some, IfSome, MatchOption};
ghost use Rattle.std.specs.Prelude.{codes, length, position};
ghost use Rattle.std.specs.List.{position_or_len};
ghost use Rattle.report_text.specs.Words.{ends_text, interval_text};
ghost use Rattle.query_model.specs.declared.bounds.Nullity.{Nullity};
ghost use Rattle.query_model.specs.declared.bounds.Nullity.TheVariants.{Always};
ghost use Rattle.report_text.specs.Layouts.{HasLayout, IsEnd, IsTail, behind_front, bracketed_text, is_other, laid_text};
ghost use Rattle.report_text.specs.Layouts.{plain_front, single_text};

use daq_table::TextBuf;
use query_model::Nullity;

// Two ends, or a single one that is both, and whether there may be no answer. Where there is none the single end is empty.
#[derive(Clone, Copy)]
pub(crate) struct Layout<'a> {
    pub(crate) null: Nullity,
    pub(crate) single: bool,
    pub(crate) low: &'a [u8],
    pub(crate) high: &'a [u8],
}

// What stands behind a word that the text begins with.
pub(crate) fn behind<'a>(text: &'a [u8], word: &[u8]) -> Option<&'a [u8]>
    ensures { MatchOption result ((rest : List ℕ) → text.now ≢ word.now ++ rest) (λ rest. text.now ≡ word.now ++ rest.now) }
{
    text.strip_prefix(word)
}

// What stands before a word that the text ends with.
pub(crate) fn before<'a>(text: &'a [u8], word: &[u8]) -> Option<&'a [u8]>
    ensures { MatchOption result ((front : List ℕ) → text.now ≢ front ++ word.now) (λ front. text.now ≡ front.now ++ word.now) }
{
    text.strip_suffix(word)
}

// The place of the first byte that stands in no number.
fn first_other(text: &[u8]) -> Option<usize>
    ensures { result ≡ position is_other text.now }
{
    text.iter().position(|byte| *byte < 45 || *byte > 57)
}

// How many bytes from the front on may stand in a number.
fn front_length(text: &[u8]) -> usize
    ensures place { result ≡ position_or_len is_other text.now }
    ensures within { result ≤ length text.now }
{
    match first_other(text) {
        Some(place) => place,
        None => text.len(),
    }
}

// The front of bytes that may stand in a number, and what stands behind it.
fn around_front(text: &[u8]) -> (&[u8], &[u8])
    ensures front { result.0.now ≡ plain_front text.now }
    ensures rest { result.1.now ≡ behind_front text.now }
    ensures whole { result.0.now ++ result.1.now ≡ text.now }
{
    let place = front_length(text);
    (&text[..place], &text[place..])
}

// Whether there may be no answer, by what stands behind the ends.
fn nullity(tail: &[u8]) -> Option<Nullity>
    ensures never { tail.now ≡ [] → result ≡ Some Nullity.Never }
    ensures possibly { tail.now ≡ codes " or null" → result ≡ Some Nullity.Possibly }
    ensures is { IfSome result (λ null. IsTail null tail.now) }
{
    if tail.is_empty() {
        return Some(Nullity::Never);
    }
    if tail == b" or null".as_slice() {
        return Some(Nullity::Possibly);
    }
    None
}

// Two ends in brackets, behind the first of these.
fn bracketed(inner: &[u8]) -> Option<Layout<'_>>
    ensures read { (null : Nullity) (low high : List ℕ) → IsEnd low → IsEnd high → null ≢ Always
        → bracketed_text null low high ≡ inner.now → HasLayout null false low high result }
    ensures laid { IfSome result (λ layout. laid_text layout ≡ codes "[" ++ inner.now) }
    ensures nothing { IfSome result (λ layout. layout.null ≡ Nullity.Always → layout.single ≡ true) }
{
    let (low, rest) = around_front(inner);
    let second = behind(rest, b", ")?;
    let (high, rest) = around_front(second);
    let tail = behind(rest, b"]")?;
    let null = nullity(tail)?;
    Some(Layout {
        null,
        single: false,
        low,
        high,
    })
}

// One end.
fn single(text: &[u8]) -> Option<Layout<'_>>
    ensures read { (null : Nullity) (end : List ℕ) → IsEnd end → null ≢ Always
        → single_text null end ≡ text.now → HasLayout null true end end result }
    ensures laid { IfSome result (λ layout. laid_text layout ≡ text.now) }
    ensures nothing { IfSome result (λ layout. layout.null ≡ Nullity.Always → layout.single ≡ true) }
{
    let (end, rest) = around_front(text);
    let null = nullity(rest)?;
    Some(Layout {
        null,
        single: true,
        low: end,
        high: end,
    })
}

// The layout of the text of an interval, whose ends are numbers or fractions.
pub(crate) fn lay(text: &[u8]) -> Option<Layout<'_>>
    ensures read { (null : Nullity) (equal : Bool) (low high : List ℕ) → IsEnd low → IsEnd high → (equal ≡ true → low ≡ high)
        → interval_text null (ends_text equal low high) ≡ text.now → HasLayout null equal low high result }
    ensures laid { IfSome result (λ layout. laid_text layout ≡ text.now) }
    ensures nothing { IfSome result (λ layout. layout.null ≡ Nullity.Always → layout.single ≡ true) }
{
    if text == b"null".as_slice() {
        return Some(Layout {
            null: Nullity::Always,
            single: true,
            low: &[],
            high: &[],
        });
    }
    match behind(text, b"[") {
        Some(inner) => bracketed(inner),
        None => single(text),
    }
}

// Two texts in brackets.
fn written_both(low: &[u8], high: &[u8]) -> TextBuf
    requires low { length low.now ≤ 201 }
    requires high { length high.now ≤ 201 }
    ensures text { result ≡ ends_text false low.now high.now }
    ensures short { length result ≤ 406 }
{
    let mut text = TextBuf::new();
    text.append(b"[");
    text.append(low);
    text.append(b", ");
    text.append(high);
    text.append(b"]");
    text
}

// One text where the ends are equal, else both.
fn written_ends(equal: bool, low: TextBuf, high: TextBuf) -> TextBuf
    requires low { length low ≤ 201 }
    requires high { length high ≤ 201 }
    ensures text { result ≡ ends_text equal low high }
    ensures short { length result ≤ 406 }
{
    if equal {
        low
    } else {
        written_both(low.bytes(), high.bytes())
    }
}

// The text of an interval with these ends.
pub(crate) fn written_interval(null: Nullity, equal: bool, low: TextBuf, high: TextBuf) -> TextBuf
    requires low { length low ≤ 201 }
    requires high { length high ≤ 201 }
    ensures text { result ≡ interval_text null (ends_text equal low high) }
    ensures short { length result ≤ 414 }
{
    let mut text = written_ends(equal, low, high);
    match null {
        Nullity::Never => {}
        Nullity::Possibly => text.append(b" or null"),
        Nullity::Always => {
            text.clear();
            text.append(b"null");
        }
    }
    text
}
