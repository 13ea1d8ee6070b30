//! What stands behind a block: the next round, the end, or the rows of an exact average.

ghost use Rattle.std.specs.Prelude.{◌≡◌, MatchBool, MatchOption, length};
ghost use Rattle.report_parts.specs.Told.{GoesOn, PassesBehind, Refuses, TakesBehind, Told, at_place};

use crate::closing::{is_extra, last_kind};
use crate::opening::opened_by;
use crate::part::{Part, Place};
use crate::shape::{Shape, is_average};
use query_model::ItemKind;
use report_text::{is_round_line, is_rows_line, read_end};

// What comes behind a line that begins the next round, or ends the report, once so many blocks are told.
pub(crate) fn place_behind(count: usize, shape: &Shape, line: &[u8]) -> Option<Place>
    ensures { MatchOption result
        ((told next : Told) → length told.blocks ≡ count → GoesOn shape.now told line.now next → ⊥)
        (λ place. (told : Told) → length told.blocks ≡ count → GoesOn shape.now told line.now (at_place told place)) }
{
    if is_round_line(count as u64, line) {
        return Some(opened_by(shape));
    }
    if count == 0 {
        return None;
    }
    match read_end(line) {
        Some(end) => Some(Place::Ended(end)),
        None => None,
    }
}

impl Part {
    // Takes the next round, or the end.
    fn take_next(&mut self, shape: &Shape, line: &[u8]) -> bool
        ensures tag { self.new.tag ≡ self.old.tag }
        ensures taken { MatchBool result
            (GoesOn shape.now self.old line.now self.new)
            (Refuses (GoesOn shape.now self.old line.now) self.old self.new) }
    {
        match place_behind(self.count(), shape, line) {
            Some(place) => {
                self.go(place);
                true
            }
            None => false,
        }
    }

    // Whether the line tells the rows of the exact average with which blocks end.
    pub(crate) fn passes_behind(&self, kinds: &[ItemKind], line: &[u8]) -> bool
        ensures { MatchBool result
            (PassesBehind kinds.now self.now line.now self.now)
            ((next : Told) → PassesBehind kinds.now self.now line.now next → ⊥) }
    {
        is_extra(self.closing)
            && is_average(last_kind(kinds))
            && is_rows_line(kinds.len() as u64, line)
    }

    // Takes a line behind a block that is whole.
    pub(crate) fn take_behind(&mut self, shape: &Shape, line: &[u8]) -> bool
        ensures tag { self.new.tag ≡ self.old.tag }
        ensures taken { MatchBool result
            (TakesBehind shape.now self.old line.now self.new)
            (Refuses (TakesBehind shape.now self.old line.now) self.old self.new) }
    {
        if self.take_next(shape, line) {
            return true;
        }
        self.passes_behind(shape.kinds.as_slice(), line)
    }
}
