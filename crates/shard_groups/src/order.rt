//! The order of lines.

ghost use Rattle.std.specs.Prelude.{◌≡◌, ◌≤◌, IfNone, IfOk, IfSome, None, OnOk, Some, length};
ghost use Rattle.std.specs.List.{insert};
ghost use Rattle.shard_groups.specs.Keys.{comes_before, first_part, part_before};
ghost use Rattle.shard_groups.specs.Lines.{in_order, placed};
ghost use Rattle.shard_groups.specs.Steps.{is_before, is_step, last_of, span_before};

use crate::keys::{Ends, KeyValue, Keys, Relation, Span, at_most, copied_keys, related, same_span};
use std::alloc::{AllocError, Global};

// The least value that a span allows, unless it allows null.
fn first_part(span: &Span) -> Option<&KeyValue>
    ensures value { IfSome result (λ value. first_part span.now ≡ Some value.now) }
    ensures none { IfNone result (first_part span.now ≡ None) }
{
    if span.null {
        return None;
    }
    match &span.ends {
        Some(ends) => Some(&ends.low),
        None => None,
    }
}

// Whether the least part of `a` comes before that of `b`: null comes first.
fn starts_before(a: &Span, b: &Span) -> bool
    ensures { result ≡ part_before (first_part a.now) (first_part b.now) }
{
    match (first_part(a), first_part(b)) {
        (None, None) => false,
        (None, Some(_)) => true,
        (Some(_), None) => false,
        (Some(x), Some(y)) => !at_most(y, x),
    }
}

// The greatest value of a range.
fn last_of(ends: &Option<Ends>) -> Option<&KeyValue>
    ensures value { IfSome result (λ value. last_of ends.now ≡ Some value.now) }
    ensures none { IfNone result (last_of ends.now ≡ None) }
{
    match ends {
        Some(ends) => Some(&ends.high),
        None => None,
    }
}

// Whether all that `a` allows comes before all that `b` does.
fn span_before(a: &Span, b: &Span) -> bool
    ensures { result ≡ span_before a.now b.now }
{
    match (last_of(&a.ends), first_part(b)) {
        (None, None) => false,
        (None, Some(_)) => true,
        (Some(_), None) => false,
        (Some(x), Some(y)) => !at_most(y, x),
    }
}

// Whether each key of `a` comes before each of `b`.
fn is_before(a: &[Span], b: &[Span]) -> bool
    ensures { result ≡ is_before a.now b.now }
{
    for (i, span) in a.iter().enumerate() {
        if b.len() <= i {
            return false;
        }
        if span_before(span, &b[i]) {
            return true;
        }
        if !same_span(span, &b[i]) {
            return false;
        }
    }
    false
}

// Whether the next line has a key, and its keys come behind those of the line.
pub(crate) fn is_step(line: &[Span], next: &[Span]) -> bool
    ensures { result ≡ is_step line.now next.now }
{
    related(Relation::Meet, next, next) && is_before(line, next) && !comes_before(next, line)
}

// Whether the least key of `a` comes before that of `b`.
pub(crate) fn comes_before(a: &[Span], b: &[Span]) -> bool
    ensures { result ≡ comes_before a.now b.now }
{
    for (i, span) in a.iter().enumerate() {
        if b.len() <= i {
            return false;
        }
        if starts_before(span, &b[i]) {
            return true;
        }
        if starts_before(&b[i], span) {
            return false;
        }
    }
    false
}

// How many lines come before this one.
fn place_of(lines: &[Keys], line: &[Span]) -> usize
    ensures within { result ≤ length lines.now }
    ensures placed { insert lines.now result line.now ≡ placed line.now lines.now }
{
    for (at, other) in lines.iter().enumerate() {
        if !comes_before(other.as_slice(), line) {
            return at;
        }
    }
    lines.len()
}

// Puts a line at its place.
fn place(alloc: Global, lines: &mut Vec<Keys>, line: &[Span]) -> Result<(), AllocError>
    ensures { OnOk result (lines.new.items ≡ placed line.now lines.old.items) }
{
    let at = place_of(lines, line);
    let keys = copied_keys(alloc, line)?;
    lines.insert(at, keys)?;
    Ok(())
}

// The lines in order.
pub(crate) fn in_order(alloc: Global, lines: &[Keys]) -> Result<Vec<Keys>, AllocError>
    ensures { IfOk result (λ ordered. ordered.items ≡ in_order lines.now) }
{
    let mut ordered = Vec::with_capacity(alloc, lines.len())?;
    let mut i = lines.len();
    while 0 < i {
        i -= 1;
        place(alloc, &mut ordered, lines[i].as_slice())?;
    }
    Ok(ordered)
}
