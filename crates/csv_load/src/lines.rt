//! Lines of a text, cut at commas.

ghost use Rattle.std.specs.Prelude.{◌≡◌, ◌≢◌, ◌-◌, ◌<◌, ◌≤◌};
ghost use Rattle.std.specs.Prelude.{length, map, take, drop, slice_index_or, All, IfOk, IfSome, IsFalse, IsTrue};
ghost use Rattle.std.specs.Simd.Lanes.{mask_l};
ghost use Rattle.csv_load.specs.Lines.{AddsField, IsBreak, JoinsField, JoinsQuoted, ReadsField, ReadsLine, StopsField, may_stop, record_at};

use crate::fields::RecordFields;
use crate::odd_field::read_odd_field;
use std::alloc::AllocError;
use std::simd::prelude::*;

// A field, and the place where it ends: at a comma, a line break or the end of the text.
#[derive(Clone, Copy)]
struct Field<'t> {
    bytes: &'t [u8],
    end: usize,
}

/// Whether a line ends at the byte.
pub(crate) fn is_break(byte: u8) -> bool
    ensures yes { IsTrue result → IsBreak byte }
    ensures no_feed { IsFalse result → byte ≢ 10 }
    ensures no_return { IsFalse result → byte ≢ 13 }
{
    byte == b'\n' || byte == b'\r'
}

// Whether a byte may end a field, or begin one in quotes.
fn may_stop(byte: u8) -> bool
    ensures { IsFalse result → JoinsField byte }
{
    byte <= b',' && (byte == b',' || byte == b'\n' || byte == b'"' || byte == b'\r')
}

// Which of 16 bytes may stop a field, as bits.
fn stops(bytes: u8x16) -> u64
    ensures { result ≡ mask_l (map may_stop bytes) }
{
    let comma = bytes.simd_eq(u8x16::splat(b','));
    let line_feed = bytes.simd_eq(u8x16::splat(b'\n'));
    let quote = bytes.simd_eq(u8x16::splat(b'"'));
    let carriage_return = bytes.simd_eq(u8x16::splat(b'\r'));
    (comma | line_feed | quote | carriage_return).to_bitmask()
}

// Where the line breaks end that stand at that place.
fn line_start(text: &[u8], from: usize) -> usize
    requires { from ≤ length text.now }
    ensures from { from ≤ result }
    ensures within { result ≤ length text.now }
    ensures passed { record_at text.now from ≡ record_at text.now result }
    ensures no_feed { result < length text.now → slice_index_or text.now result 0 ≢ 10 }
    ensures no_return { result < length text.now → slice_index_or text.now result 0 ≢ 13 }
{
    for at in from..text.len() {
        if !is_break(text[at]) {
            return at;
        }
    }
    text.len()
}

// Where the field ends that begins at that place: at a byte that may not stand in it, or with the text.
fn field_end(text: &[u8], from: usize) -> usize
    requires { from ≤ length text.now }
    ensures from { from ≤ result }
    ensures within { result ≤ length text.now }
    ensures field { All JoinsField (take (result - from) (drop from text.now)) }
{
    let mut at = from;
    while text.len() - at >= 16 {
        let found = stops(u8x16::from_slice(&text[at..]));
        if found != 0 {
            return at + found.trailing_zeros() as usize;
        }
        at += 16;
    }
    for end in at..text.len() {
        if may_stop(text[end]) {
            return end;
        }
    }
    text.len()
}

// Where the first quote stands from that place on, or the end of the text.
fn next_quote(text: &[u8], from: usize) -> usize
    requires { from ≤ length text.now }
    ensures from { from ≤ result }
    ensures within { result ≤ length text.now }
    ensures field { All JoinsQuoted (take (result - from) (drop from text.now)) }
    ensures quote { result < length text.now → slice_index_or text.now result 0 ≡ 34 }
{
    for at in from..text.len() {
        if text[at] == b'"' {
            return at;
        }
    }
    text.len()
}

// Whether a field may end at that place.
fn ends_field(text: &[u8], at: usize) -> bool
    requires { at ≤ length text.now }
    ensures stops { IsTrue result → at < length text.now → StopsField (slice_index_or text.now at 0) }
    ensures goes_on { IsFalse result → at < length text.now }
{
    at == text.len() || text[at] == b',' || is_break(text[at])
}

// The field in quotes whose quote stands at that place, if it has no quote inside.
fn quoted_field(text: &[u8], at: usize) -> Option<Field<'_>>
    requires within { at < length text.now }
    requires quote { slice_index_or text.now at 0 ≡ 34 }
    ensures { IfSome result (λ field. ReadsField text.now at field.bytes.now field.end) }
{
    let close = next_quote(text, at + 1);
    if close < text.len() && ends_field(text, close + 1) {
        Some(Field {
            bytes: &text[at + 1..close],
            end: close + 1,
        })
    } else {
        None
    }
}

// The field that begins at that place, in quotes or not, if it has no quote inside.
fn plain_field(text: &[u8], at: usize) -> Option<Field<'_>>
    requires { at ≤ length text.now }
    ensures { IfSome result (λ field. ReadsField text.now at field.bytes.now field.end) }
{
    let end = field_end(text, at);
    if ends_field(text, end) {
        Some(Field {
            bytes: &text[at..end],
            end,
        })
    } else if end == at && text[at] == b'"' {
        quoted_field(text, at)
    } else {
        None
    }
}

// Adds the field that begins at that place, by a buffer for one with a quote inside, and answers where it ends.
fn add_field<'t>(
    text: &'t [u8],
    at: usize,
    fields: &mut RecordFields<'t>,
    odd: &mut Vec<u8>,
) -> Result<usize, AllocError>
    requires { at ≤ length text.now }
    ensures { IfOk result (AddsField text.now at fields.old fields.new) }
{
    match plain_field(text, at) {
        Some(field) => {
            fields.push(field.bytes)?;
            Ok(field.end)
        }
        None => {
            let end = read_odd_field(text, at, odd)?;
            fields.push_apart(odd)?;
            Ok(end)
        }
    }
}

/// Reads the fields of the next line that is not empty, and answers where the line after it begins. None where there is no
/// such line.
pub(crate) fn read_line<'t>(
    text: &'t [u8],
    from: usize,
    fields: &mut RecordFields<'t>,
    odd: &mut Vec<u8>,
) -> Result<Option<usize>, AllocError>
    requires { from ≤ length text.now }
    ensures { IfOk result (ReadsLine text.now from fields.new) }
{
    fields.clear();
    let mut at = line_start(text, from);
    if at == text.len() {
        return Ok(None);
    }
    'fields: loop {
        let end = add_field(text, at, fields, odd)?;
        if end == text.len() {
            return Ok(Some(end));
        }
        at = end + 1;
        if text[end] != b',' {
            return Ok(Some(at));
        }
    }
}
