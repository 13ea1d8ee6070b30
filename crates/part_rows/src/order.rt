//! The order of rows by an end of their keys.

ghost use Rattle.std.specs.Prelude.{◌≡◌};
ghost use Rattle.std.specs.Option.{option_copied};
ghost use Rattle.part_rows.specs.Marks.{key_at, key_cmp, mark_at, mark_cmp, name_cmp, value_cmp};

use crate::row::{End, PartRow, RowName};
use shard_groups::{KeyValue, Span};
use std::cmp::Ordering;

/// A row where one end of its keys puts it.
#[derive(Clone, Copy)]
pub(crate) struct Placed<'a> {
    pub(crate) row: &'a PartRow,
    pub(crate) end: End,
}

// Numbers come before texts, and texts go by their bytes.
fn compare_values(a: &KeyValue, b: &KeyValue) -> Ordering
    ensures { result ≡ value_cmp a.now b.now }
{
    match (a, b) {
        (KeyValue::Number(x), KeyValue::Number(y)) => x.cmp(y),
        (KeyValue::Number(_), KeyValue::Text(_)) => Ordering::Less,
        (KeyValue::Text(_), KeyValue::Number(_)) => Ordering::Greater,
        (KeyValue::Text(s), KeyValue::Text(t)) => s.as_slice().cmp(t.as_slice()),
    }
}

// Null comes last.
fn compare_keys(down: bool, a: Option<&KeyValue>, b: Option<&KeyValue>) -> Ordering
    ensures { result ≡ key_cmp down (option_copied a.entry) (option_copied b.entry) }
{
    match (a, b) {
        (None, None) => Ordering::Equal,
        (None, Some(_)) => Ordering::Greater,
        (Some(_), None) => Ordering::Less,
        (Some(x), Some(y)) => {
            if down {
                compare_values(y, x)
            } else {
                compare_values(x, y)
            }
        }
    }
}

// By part, then by tag, then by number.
fn compare_names(a: &RowName, b: &RowName) -> Ordering
    ensures { result ≡ name_cmp a.now b.now }
{
    a.part
        .cmp(&b.part)
        .then(a.tag.as_slice().cmp(b.tag.as_slice()))
        .then(a.number.cmp(&b.number))
}

// None is null.
fn key_at(down: bool, end: End, span: &Span) -> Option<&KeyValue>
    ensures { option_copied result ≡ key_at down end span.now }
{
    match (end, &span.ends) {
        (_, None) => None,
        (End::First, Some(ends)) => Some(if down { &ends.high } else { &ends.low }),
        (End::Last, Some(ends)) => {
            if span.null {
                None
            } else {
                Some(if down { &ends.low } else { &ends.high })
            }
        }
    }
}

// By key, and of equal keys by name.
pub(crate) fn compare(down: bool, a: Placed<'_>, b: Placed<'_>) -> Ordering
    ensures { result ≡ mark_cmp down (mark_at down a.entry.end a.entry.row.now) (mark_at down b.entry.end b.entry.row.now) }
{
    let a_key = key_at(down, a.end, &a.row.key);
    let b_key = key_at(down, b.end, &b.row.key);
    compare_keys(down, a_key, b_key).then(compare_names(&a.row.name, &b.row.name))
}
