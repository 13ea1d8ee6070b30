//! That what was begun is whole: the entries of totals, or the section of a group, and with it perhaps its block.

ghost use Rattle.std.specs.Prelude.{◌≡◌, IfOk, MatchBool, OnOk};
ghost use Rattle.report_parts.specs.Told.{BeginsGroup, GoesOn, GroupsGoOn, Refuses, closed, completed};

use crate::behind::place_behind;
use crate::between::next_group;
use crate::block::Block;
use crate::closing::closing_of;
use crate::entry::answers_of;
use crate::part::{Part, Place};
use crate::shape::Shape;
use crate::texts::group_texts;
use daq_table::Listed;
use part_groups::Group;
use std::alloc::{AllocError, Global};
use std::mem;

impl Part {
    // The block of totals, or the section of the group, is whole.
    pub(crate) fn close(&mut self, alloc: Global) -> Result<(), AllocError>
        ensures tag { self.new.tag ≡ self.old.tag }
        ensures closed { OnOk result (self.new ≡ closed self.old) }
    {
        self.closing = closing_of(&self.current);
        let entries = Listed::new(mem::replace(&mut self.current, Vec::new(alloc)));
        match mem::replace(&mut self.group, None) {
            None => {
                self.blocks.push(Block::Totals(entries))?;
                self.place = Place::Round;
                Ok(())
            }
            Some(group) => {
                let answers = Listed::new(answers_of(alloc, entries.as_slice())?);
                let texts = Listed::new(group_texts(alloc, entries.as_slice())?);
                self.sections.push(Group {
                    line: group,
                    answers,
                    texts,
                })?;
                self.place = Place::Group;
                Ok(())
            }
        }
    }

    // The block is whole, with what was begun of it.
    fn complete(&mut self, alloc: Global) -> Result<(), AllocError>
        ensures tag { self.new.tag ≡ self.old.tag }
        ensures completed { OnOk result (self.new ≡ completed self.old) }
    {
        match self.group {
            None => self.close(alloc),
            Some(_) => {
                self.close(alloc)?;
                self.end_block(alloc)
            }
        }
    }

    // Takes the line of the next group, behind a section that is whole by it.
    fn close_by_group(
        &mut self,
        alloc: Global,
        columns: usize,
        line: &[u8],
    ) -> Result<bool, AllocError>
        ensures tag { self.new.tag ≡ self.old.tag }
        ensures taken { IfOk result (λ taken. MatchBool taken
            (BeginsGroup columns (closed self.old) line.now self.new)
            (Refuses (BeginsGroup columns (closed self.old) line.now) self.old self.new)) }
    {
        match next_group(alloc, columns, line)? {
            Some(group) => {
                self.close(alloc)?;
                self.begin_group(group);
                Ok(true)
            }
            None => Ok(false),
        }
    }

    // Takes the next round or the end, behind a block that is whole by it.
    fn close_by_next(
        &mut self,
        alloc: Global,
        shape: &Shape,
        line: &[u8],
    ) -> Result<bool, AllocError>
        ensures tag { self.new.tag ≡ self.old.tag }
        ensures taken { IfOk result (λ taken. MatchBool taken
            (GoesOn shape.now (completed self.old) line.now self.new)
            (Refuses (GoesOn shape.now (completed self.old) line.now) self.old self.new)) }
    {
        let Some(place) = place_behind(self.count() + 1, shape, line) else {
            return Ok(false);
        };
        self.complete(alloc)?;
        self.go(place);
        Ok(true)
    }

    // Takes the next group, round or the end, behind what is whole by it.
    pub(crate) fn close_by(
        &mut self,
        alloc: Global,
        shape: &Shape,
        line: &[u8],
    ) -> Result<bool, AllocError>
        ensures tag { self.new.tag ≡ self.old.tag }
        ensures taken { IfOk result (λ taken. MatchBool taken
            (GroupsGoOn shape.now (closed self.old) (completed self.old) line.now self.new)
            (Refuses (GroupsGoOn shape.now (closed self.old) (completed self.old) line.now) self.old self.new)) }
    {
        if self.close_by_group(alloc, shape.columns, line)? {
            return Ok(true);
        }
        self.close_by_next(alloc, shape, line)
    }
}
