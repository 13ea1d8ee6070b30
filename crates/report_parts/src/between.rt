//! The lines between the sections of a block: the next group's, those behind the last section, and the rows of an exact average.

ghost use Rattle.std.specs.Prelude.{◌≡◌, ◌≢◌, Err, IfOk, MatchBool, MatchOption, OnOk};
ghost use Rattle.report_text.specs.declared.groups.GroupLine.{GroupLine};
ghost use Rattle.report_parts.specs.Told.{BeginsGroup, GoesOn, GroupsGoOn, PassesBehindSection, Refuses, TakesBetween, Told};
ghost use Rattle.report_parts.specs.Told.{block_done, with_group};

use crate::behind::place_behind;
use crate::block::Block;
use crate::fault::LineFault;
use crate::part::{Part, Place};
use crate::shape::Shape;
use daq_table::Listed;
use part_groups::has_key;
use query_model::ItemKind;
use report_text::{GroupLine, read_group};
use std::alloc::{AllocError, Global};
use std::mem;

// The group whose line this is, with a key for each group column.
pub(crate) fn next_group(
    alloc: Global,
    columns: usize,
    line: &[u8],
) -> Result<Option<GroupLine>, AllocError>
    ensures { IfOk result (λ read. MatchOption read
        ((told next : Told) → BeginsGroup columns told line.now next → ⊥)
        (λ group. (told : Told) → BeginsGroup columns told line.now (with_group told group))) }
{
    match read_group(alloc, line)? {
        Some(group) => {
            let spans = group.keys.as_slice();
            if spans.len() == columns && has_key(spans) {
                Ok(Some(group))
            } else {
                Ok(None)
            }
        }
        None => Ok(None),
    }
}

impl Part {
    // Begins the section of a group.
    pub(crate) fn begin_group(&mut self, group: GroupLine)
        ensures { self.new ≡ with_group self.old group }
    {
        self.group = Some(group);
        self.place = Place::Items;
    }

    // Takes the line of the next group.
    fn take_group(&mut self, alloc: Global, columns: usize, line: &[u8]) -> Result<bool, AllocError>
        ensures tag { self.new.tag ≡ self.old.tag }
        ensures taken { IfOk result (λ taken. MatchBool taken
            (BeginsGroup columns self.old line.now self.new)
            (Refuses (BeginsGroup columns self.old line.now) self.old self.new)) }
    {
        match next_group(alloc, columns, line)? {
            Some(group) => {
                self.begin_group(group);
                Ok(true)
            }
            None => Ok(false),
        }
    }

    // The block of the sections is whole.
    pub(crate) fn end_block(&mut self, alloc: Global) -> Result<(), AllocError>
        ensures tag { self.new.tag ≡ self.old.tag }
        ensures done { OnOk result (self.new ≡ block_done self.old) }
    {
        let sections = mem::replace(&mut self.sections, Vec::new(alloc));
        self.blocks.push(Block::Groups(Listed::new(sections)))?;
        self.place = Place::Round;
        Ok(())
    }

    // Takes the next round or the end, behind a block that is whole by it.
    fn end_by_next(&mut self, alloc: Global, shape: &Shape, line: &[u8]) -> Result<bool, AllocError>
        ensures tag { self.new.tag ≡ self.old.tag }
        ensures taken { IfOk result (λ taken. MatchBool taken
            (GoesOn shape.now (block_done self.old) line.now self.new)
            (Refuses (GoesOn shape.now (block_done self.old) line.now) self.old self.new)) }
    {
        let Some(place) = place_behind(self.count() + 1, shape, line) else {
            return Ok(false);
        };
        self.end_block(alloc)?;
        self.go(place);
        Ok(true)
    }

    // Takes the next group, or what stands behind the block.
    fn take_group_or_next(
        &mut self,
        alloc: Global,
        shape: &Shape,
        line: &[u8],
    ) -> Result<bool, AllocError>
        ensures tag { self.new.tag ≡ self.old.tag }
        ensures taken { IfOk result (λ taken. MatchBool taken
            (GroupsGoOn shape.now self.old (block_done self.old) line.now self.new)
            (Refuses (GroupsGoOn shape.now self.old (block_done self.old) line.now) self.old self.new)) }
    {
        if self.take_group(alloc, shape.columns, line)? {
            return Ok(true);
        }
        self.end_by_next(alloc, shape, line)
    }

    // Whether the line tells the rows of the exact average with which the last section ends.
    fn passes_behind_section(&self, kinds: &[ItemKind], line: &[u8]) -> bool
        ensures { MatchBool result
            (PassesBehindSection kinds.now self.now line.now self.now)
            ((next : Told) → PassesBehindSection kinds.now self.now line.now next → ⊥) }
    {
        !self.sections.is_empty() && self.passes_behind(kinds, line)
    }

    // Takes a line between sections.
    fn take_between(
        &mut self,
        alloc: Global,
        shape: &Shape,
        line: &[u8],
    ) -> Result<bool, AllocError>
        ensures tag { self.new.tag ≡ self.old.tag }
        ensures taken { IfOk result (λ taken. MatchBool taken
            (TakesBetween shape.now self.old line.now self.new)
            (Refuses (TakesBetween shape.now self.old line.now) self.old self.new)) }
    {
        if self.take_group_or_next(alloc, shape, line)? {
            return Ok(true);
        }
        Ok(self.passes_behind_section(shape.kinds.as_slice(), line))
    }

    // Takes a line between sections, or tells why it is not taken.
    pub(crate) fn take_line_between(
        &mut self,
        alloc: Global,
        shape: &Shape,
        line: &[u8],
    ) -> Result<(), LineFault>
        ensures tag { self.new.tag ≡ self.old.tag }
        ensures taken { OnOk result (TakesBetween shape.now self.old line.now self.new) }
        ensures other { result ≡ Err LineFault.OtherLine → Refuses (TakesBetween shape.now self.old line.now) self.old self.new }
        ensures query { result ≢ Err LineFault.OtherQuery }
        ensures listed { result ≢ Err LineFault.Unlisted }
    {
        match self.take_between(alloc, shape, line) {
            Ok(true) => Ok(()),
            Ok(false) => Err(LineFault::OtherLine),
            Err(_) => Err(LineFault::NoMemory),
        }
    }
}
