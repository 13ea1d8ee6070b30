//! The parts of a table, in the order of their tags.

ghost use Rattle.std.specs.Prelude.{◌≡◌, ◌≤◌, ◌<◌, ◌↔◌, [], IfErr, IsTrue, MatchResult, OnErr, OnOk, length, set};
ghost use Rattle.std.specs.List.{insert};
ghost use Rattle.report_parts.specs.Passed.{AllTellFrom};
ghost use Rattle.report_parts.specs.Tags.{AreInOrder, AreKept, BelongsAt, IsKept, IsLineRefused, IsRefused, StandsAt, TakesTagged, part_at};
ghost use Rattle.report_parts.specs.Told.{Takes, Told, nothing_told};

use crate::fault::{InputFault, LineFault};
use crate::part::Part;
use crate::shape::Shape;
use crate::tags::read_tag;
use std::alloc::Global;
use std::marker::Model;

/// What all reports answer: the line of the query, and the shape of their blocks.
#[derive(Drop)]
pub struct Asked {
    pub query: Vec<u8>,
    pub shape: Shape,
}

/// The parts of which lines came, in the order of their tags.
#[derive(Drop)]
pub struct Parts {
    parts: Vec<Part>,
    // Where the part stood that took a line last: the next line is often of the same.
    last: usize,
}

impl Model for Parts {
    ghost use Rattle.std.specs.Prelude.{List};
    ghost use Rattle.report_parts.specs.Tags.{AreInOrder};
    ghost use Rattle.report_parts.specs.Told.{Told};

    ghost Value = { List Told };

    ghost view = { λ p. p.parts.items };

    ghost invariant = { λ p. AreInOrder p.parts.items };
}

// Where the part with that tag stands, or where it belongs.
fn place_of(parts: &[Part], tag: &[u8]) -> Result<usize, usize>
    requires { AreInOrder parts.now }
    ensures { MatchResult result (StandsAt tag.now parts.now) (BelongsAt tag.now parts.now) }
{
    parts.binary_search_by(|part| part.tag().cmp(tag))
}

// Whether it is the part with that tag.
fn has_tag(part: &Part, tag: &[u8]) -> bool
    ensures { IsTrue result ↔ (part.now.tag ≡ tag.now) }
{
    part.tag() == tag
}

// The same, where the part is looked for at one place first.
fn place_near(parts: &[Part], place: usize, tag: &[u8]) -> Result<usize, usize>
    requires { AreInOrder parts.now }
    ensures { MatchResult result (StandsAt tag.now parts.now) (BelongsAt tag.now parts.now) }
{
    if place < parts.len() && has_tag(&parts[place], tag) {
        Ok(place)
    } else {
        place_of(parts, tag)
    }
}

// A part takes a line.
fn take_line(alloc: Global, part: &mut Part, asked: &Asked, line: &[u8]) -> Result<(), LineFault>
    ensures tag { part.new.tag ≡ part.old.tag }
    ensures taken { OnOk result (Takes asked.now.query.items asked.now.shape part.old line.now part.new) }
    ensures refused { IfErr result (λ why. IsLineRefused why asked.now.query.items asked.now.shape part.old line.now) }
{
    part.take(alloc, &asked.query, &asked.shape, line)
}

// The part at that place takes a line.
fn take_at(
    alloc: Global,
    parts: &mut Vec<Part>,
    place: usize,
    asked: &Asked,
    line: &[u8],
) -> Result<(), LineFault>
    requires { place < length parts.old.items }
    ensures tag { (told : Told) × (told.tag ≡ (part_at place parts.old.items).tag) × (parts.new.items ≡ set parts.old.items place told) }
    ensures taken { OnOk result ((told : Told) × (told.tag ≡ (part_at place parts.old.items).tag)
        × Takes asked.now.query.items asked.now.shape (part_at place parts.old.items) line.now told
        × (parts.new.items ≡ set parts.old.items place told)) }
    ensures refused { IfErr result (λ why.
        IsLineRefused why asked.now.query.items asked.now.shape (part_at place parts.old.items) line.now) }
    ensures kept { IfErr result (λ why. IsKept why parts.old.items parts.new.items) }
{
    parts[place].take(alloc, &asked.query, &asked.shape, line)
}

// A part takes its first line, and then stands at that place.
fn take_first(
    alloc: Global,
    parts: &mut Vec<Part>,
    place: usize,
    asked: &Asked,
    tag: &[u8],
    line: &[u8],
) -> Result<(), LineFault>
    requires { place ≤ length parts.old.items }
    ensures taken { OnOk result ((told : Told) × (told.tag ≡ tag.now)
        × Takes asked.now.query.items asked.now.shape (nothing_told tag.now) line.now told
        × (parts.new.items ≡ insert parts.old.items place told)) }
    ensures refused { IfErr result (λ why. IsLineRefused why asked.now.query.items asked.now.shape (nothing_told tag.now) line.now) }
    ensures kept { OnErr result (parts.new.items ≡ parts.old.items) }
{
    let mut part = Part::new(alloc, Vec::from_slice(alloc, tag)?);
    if let Err(why) = take_line(alloc, &mut part, asked, line) {
        return Err(why);
    }
    parts.insert(place, part)?;
    Ok(())
}

// Each part forgets what only the rounds before that one ask for.
fn pass_all(parts: &mut [Part], round: usize)
    ensures { AllTellFrom round parts.old parts.new }
{
    for place in 0..parts.len() {
        parts[place].pass(round);
    }
}

impl Parts {
    /// No part.
    pub fn new(alloc: Global) -> Parts
        ensures { result ≡ [] }
    {
        Parts {
            parts: Vec::new(alloc),
            last: 0,
        }
    }

    /// The parts, in order.
    pub fn as_slice(&self) -> &[Part]
        ensures { result.now ≡ self.now }
    {
        &self.parts
    }

    /// Each part forgets what only the rounds before that one ask for.
    pub fn pass(&mut self, round: usize)
        ensures { AllTellFrom round self.old self.new }
    {
        pass_all(&mut self.parts, round);
    }

    /// Takes a line of the input: the part whose tag stands before its tab takes what stands behind. There may be so many parts at most. A
    /// line that is refused changes nothing.
    pub fn take(
        &mut self,
        alloc: Global,
        asked: &Asked,
        most: usize,
        line: &[u8],
    ) -> Result<(), InputFault>
        ensures taken { OnOk result (TakesTagged asked.now.query.items asked.now.shape self.old line.now self.new) }
        ensures few { OnOk result (length self.old ≤ most → length self.new ≤ most) }
        ensures refused { IfErr result (λ why. IsRefused why asked.now.query.items asked.now.shape most self.old line.now) }
        ensures kept { IfErr result (λ why. AreKept why self.old self.new) }
    {
        let tagged = read_tag(line)?;
        match place_near(&self.parts, self.last, tagged.tag) {
            Ok(place) => {
                self.last = place;
                match take_at(alloc, &mut self.parts, place, asked, tagged.line) {
                    Ok(()) => Ok(()),
                    Err(why) => Err(InputFault::Line(why)),
                }
            }
            Err(place) => {
                if self.parts.len() >= most {
                    return Err(InputFault::OtherPart);
                }
                match take_first(
                    alloc,
                    &mut self.parts,
                    place,
                    asked,
                    tagged.tag,
                    tagged.line,
                ) {
                    Ok(()) => Ok(()),
                    Err(why) => Err(InputFault::Line(why)),
                }
            }
        }
    }
}
