//! Keys of groups, and sets of keys as lines of a report show them.

ghost use Rattle.std.specs.Prelude.{◌≡◌, IfOk, length};
ghost use Rattle.std.specs.Cmp.Lexicographic.{slice_cmp};
ghost use Rattle.std.specs.Ordering.{is_le, nat_cmp};
ghost use Rattle.shard_groups.specs.Keys.{at_most, greater, hull, lesser, related, related_spans};
ghost use Rattle.shard_groups.specs.Keys.{ends_hull, ends_meet, ends_within, span_hull};
ghost use Rattle.shard_groups.specs.Steps.{same_span};

use daq_table::{Listed, Text};
use std::alloc::{AllocError, Global};

/// A value of a group column. Numbers are in units, and dates are day numbers.
#[derive(Drop, Debug)]
pub enum KeyValue {
    Number(i128),
    Text(Text),
}

/// The values from one to another, both included.
#[derive(Drop, Debug)]
pub struct Ends {
    pub low: KeyValue,
    pub high: KeyValue,
}

/// What a key may have in a group column: null, the values of a range, or both.
#[derive(Drop, Debug)]
pub struct Span {
    pub null: bool,
    pub ends: Option<Ends>,
}

/// The keys that have in each group column, in order, what its span allows.
pub type Keys = Listed<Span>;

/// How two sets of keys may stand to one another.
#[derive(Clone, Copy)]
pub(crate) enum Relation {
    // They have a key in common.
    Meet,
    // The one is a part of the other.
    Within,
}

// Numbers come before texts, and texts go by their bytes.
pub(crate) fn at_most(a: &KeyValue, b: &KeyValue) -> bool
    ensures { result ≡ at_most a.now b.now }
{
    match (a, b) {
        (KeyValue::Number(x), KeyValue::Number(y)) => *x <= *y,
        (KeyValue::Number(_), KeyValue::Text(_)) => true,
        (KeyValue::Text(_), KeyValue::Number(_)) => false,
        (KeyValue::Text(s), KeyValue::Text(t)) => s.as_slice().cmp(t.as_slice()).is_le(),
    }
}

fn ends_meet(a: &Option<Ends>, b: &Option<Ends>) -> bool
    ensures { result ≡ ends_meet a.now b.now }
{
    match (a, b) {
        (Some(a), Some(b)) => at_most(&a.low, &b.high) && at_most(&b.low, &a.high),
        _ => false,
    }
}

fn ends_within(a: &Option<Ends>, b: &Option<Ends>) -> bool
    ensures { result ≡ ends_within a.now b.now }
{
    match (a, b) {
        (None, _) => true,
        (Some(_), None) => false,
        (Some(a), Some(b)) => at_most(&b.low, &a.low) && at_most(&a.high, &b.high),
    }
}

fn related_spans(relation: Relation, a: &Span, b: &Span) -> bool
    ensures { result ≡ related_spans relation a.now b.now }
{
    match relation {
        Relation::Meet => (a.null && b.null) || ends_meet(&a.ends, &b.ends),
        Relation::Within => (!a.null || b.null) && ends_within(&a.ends, &b.ends),
    }
}

// Whether both allow the same.
pub(crate) fn same_span(a: &Span, b: &Span) -> bool
    ensures { result ≡ same_span a.now b.now }
{
    related_spans(Relation::Within, a, b) && related_spans(Relation::Within, b, a)
}

// Whether the keys of `a` and of `b` stand so to one another.
pub(crate) fn related(relation: Relation, a: &[Span], b: &[Span]) -> bool
    ensures { result ≡ related relation a.now b.now }
{
    if a.len() != b.len() {
        return false;
    }
    for (i, span) in a.iter().enumerate() {
        if !related_spans(relation, span, &b[i]) {
            return false;
        }
    }
    true
}

fn copied(alloc: Global, value: &KeyValue) -> Result<KeyValue, AllocError>
    ensures { IfOk result (λ copy. copy ≡ value.now) }
{
    match value {
        KeyValue::Number(number) => Ok(KeyValue::Number(*number)),
        KeyValue::Text(text) => Ok(KeyValue::Text(Text::new(Vec::from_slice(
            alloc,
            text.as_slice(),
        )?))),
    }
}

fn copied_ends(alloc: Global, ends: &Option<Ends>) -> Result<Option<Ends>, AllocError>
    ensures { IfOk result (λ copy. copy ≡ ends.now) }
{
    match ends {
        None => Ok(None),
        Some(ends) => {
            let low = copied(alloc, &ends.low)?;
            let high = copied(alloc, &ends.high)?;
            Ok(Some(Ends { low, high }))
        }
    }
}

// The same keys.
pub(crate) fn copied_keys(alloc: Global, keys: &[Span]) -> Result<Keys, AllocError>
    ensures { IfOk result (λ copy. copy ≡ keys.now) }
{
    let mut spans = Vec::with_capacity(alloc, keys.len())?;
    for span in keys {
        let ends = copied_ends(alloc, &span.ends)?;
        spans.push(Span {
            null: span.null,
            ends,
        })?;
    }
    Ok(Keys::new(spans))
}

fn lesser(alloc: Global, a: &KeyValue, b: &KeyValue) -> Result<KeyValue, AllocError>
    ensures { IfOk result (λ value. value ≡ lesser a.now b.now) }
{
    copied(alloc, if at_most(a, b) { a } else { b })
}

fn greater(alloc: Global, a: &KeyValue, b: &KeyValue) -> Result<KeyValue, AllocError>
    ensures { IfOk result (λ value. value ≡ greater a.now b.now) }
{
    copied(alloc, if at_most(a, b) { b } else { a })
}

fn ends_hull(alloc: Global, a: &Option<Ends>, b: &Option<Ends>) -> Result<Option<Ends>, AllocError>
    ensures { IfOk result (λ ends. ends ≡ ends_hull a.now b.now) }
{
    match (a, b) {
        (None, ends) | (ends, None) => copied_ends(alloc, ends),
        (Some(a), Some(b)) => {
            let low = lesser(alloc, &a.low, &b.low)?;
            let high = greater(alloc, &a.high, &b.high)?;
            Ok(Some(Ends { low, high }))
        }
    }
}

fn span_hull(alloc: Global, a: &Span, b: &Span) -> Result<Span, AllocError>
    ensures { IfOk result (λ span. span ≡ span_hull a.now b.now) }
{
    let ends = ends_hull(alloc, &a.ends, &b.ends)?;
    Ok(Span {
        null: a.null || b.null,
        ends,
    })
}

// The keys of both, and those between them.
pub(crate) fn hull(alloc: Global, a: &[Span], b: &[Span]) -> Result<Keys, AllocError>
    requires { length a.now ≡ length b.now }
    ensures { IfOk result (λ keys. keys ≡ hull a.now b.now) }
{
    let mut spans = Vec::with_capacity(alloc, a.len())?;
    for (i, span) in a.iter().enumerate() {
        spans.push(span_hull(alloc, span, &b[i])?)?;
    }
    Ok(Keys::new(spans))
}
