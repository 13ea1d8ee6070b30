//! The report of a part, read line by line. Blocks that are no longer asked for are forgotten.

ghost use Rattle.std.specs.Prelude.{◌≡◌, ◌≢◌, ◌+◌, ◌<◌, ◌^◌, Err, MatchOption, OnOk, length};
ghost use Rattle.report_parts.specs.Blocks.{entries_of, groups_of, is_skipped, no_block, rows_of};
ghost use Rattle.report_parts.specs.Passed.{TellsFrom};
ghost use Rattle.report_parts.specs.Rounds.{block_for};
ghost use Rattle.report_parts.specs.Told.{IsUnlisted, Refuses, Takes, TakesInside, at_place, nothing_told};
ghost use Rattle.report_parts.specs.declared.part.Place.TheVariants.{Query};

use crate::block::Block;
use crate::closing::Closing;
use crate::entry::Entry;
use crate::fault::LineFault;
use crate::shape::Shape;
use part_groups::Group;
use report_text::{GroupLine, ReportEnd, RowLine, RowsBlock};
use std::alloc::Global;
use std::marker::Model;

/// What comes next in a report.
#[derive(Clone, Copy, Debug, PartialEq, Eq)]
pub enum Place {
    /// The line of the query.
    Query,
    /// How many parts it is of, or the first round.
    Opened,
    /// The next round, or, behind a block, the end.
    Round,
    /// The next group, or, behind a block, the next round or the end.
    Group,
    /// The answer of the next item.
    Items,
    /// How many first rows there are, or the next of them.
    Row,
    /// Nothing.
    Ended(ReportEnd),
}

/// The report of a part, as far as it was read: the blocks behind so many that were forgotten; which line is the last of an item's; of the
/// block that is not whole yet the whole sections, the group of the one that is not, and its entries, or, of totals, the entries, or the
/// first rows; and what comes next.
#[derive(Drop)]
pub struct Part {
    pub(crate) tag: Vec<u8>,
    pub(crate) passed: usize,
    pub(crate) blocks: Vec<Block>,
    pub(crate) closing: Closing,
    pub(crate) sections: Vec<Group>,
    pub(crate) group: Option<GroupLine>,
    pub(crate) current: Vec<Entry>,
    pub(crate) rows: RowsBlock,
    pub(crate) place: Place,
}

impl Model for Part {
    ghost use Rattle.std.specs.Prelude.{◌<◌, ◌^◌, ◌++◌, replicate};
    ghost use Rattle.report_parts.specs.Blocks.{no_block};
    ghost use Rattle.report_parts.specs.Told.{Told};

    ghost Value = { Told };

    ghost view = { λ p. record {
      tag = p.tag.items;
      blocks = replicate p.passed no_block ++ p.blocks.items;
      closing = p.closing;
      sections = p.sections.items;
      group = p.group;
      current = p.current.items;
      rows = p.rows;
      place = p.place;
    } };

    ghost invariant = { λ p. p.passed < 2 ^ 62 };
}

// More blocks than a report has.
const MOST_PASSED: usize = (1 << 62) - 1;

impl Part {
    /// The part with that tag, of which no line was read.
    pub fn new(alloc: Global, tag: Vec<u8>) -> Part
        ensures { result ≡ nothing_told tag.items }
    {
        Part {
            tag,
            passed: 0,
            blocks: Vec::new(alloc),
            closing: Closing::Unknown,
            sections: Vec::new(alloc),
            group: None,
            current: Vec::new(alloc),
            rows: RowsBlock::new(alloc),
            place: Place::Query,
        }
    }

    /// Its tag.
    pub fn tag(&self) -> &[u8]
        ensures { result.now ≡ self.now.tag }
    {
        &self.tag
    }

    /// How many whole blocks it has told.
    pub fn count(&self) -> usize
        ensures count { result ≡ length self.now.blocks }
        ensures few { result + 1 < 2 ^ 64 }
    {
        self.passed + self.blocks.len()
    }

    // Its block for a round, if it is kept. Where its report has ended before, the block is the last.
    fn block_for(&self, round: usize) -> Option<&Block>
        ensures { MatchOption result (block_for round self.now ≡ no_block) (λ block. block.now ≡ block_for round self.now) }
    {
        let count = self.count();
        if count == 0 {
            return None;
        }
        let place = round.min(count - 1);
        if place < self.passed {
            return None;
        }
        Some(&self.blocks[place - self.passed])
    }

    /// What its block for a round says of the items, where it is of totals. Where its report has ended before, the block is the last. One
    /// that was forgotten says nothing, and so does that of a part that has told none.
    pub fn entries_for(&self, round: usize) -> &[Entry]
        ensures { result.now ≡ entries_of (block_for round self.now) }
    {
        match self.block_for(round) {
            Some(block) => block.entries(),
            None => &[],
        }
    }

    /// What it says of groups, where it is of groups.
    pub fn groups_for(&self, round: usize) -> &[Group]
        ensures { result.now ≡ groups_of (block_for round self.now) }
    {
        match self.block_for(round) {
            Some(block) => block.groups(),
            None => &[],
        }
    }

    /// The rows that it lists, where it is of first rows.
    pub fn rows_for(&self, round: usize) -> &[RowLine]
        ensures { result.now ≡ rows_of (block_for round self.now) }
    {
        match self.block_for(round) {
            Some(block) => block.rows(),
            None => &[],
        }
    }

    /// Whether it judges no row in that round, where it is of first rows.
    pub fn is_skipped(&self, round: usize) -> bool
        ensures { result ≡ is_skipped (block_for round self.now) }
    {
        match self.block_for(round) {
            Some(block) => block.is_skipped(),
            None => false,
        }
    }

    /// What comes next.
    pub fn place(&self) -> Place
        ensures { result ≡ self.now.place }
    {
        self.place
    }

    // Goes on at another place.
    pub(crate) fn go(&mut self, place: Place)
        ensures { self.new ≡ at_place self.old place }
    {
        self.place = place;
    }

    /// Forgets the first block that is kept, if it is before the round and not the last.
    pub fn pass(&mut self, round: usize)
        ensures { TellsFrom round self.old self.new }
    {
        if self.passed < round && self.passed < MOST_PASSED && self.blocks.len() > 1 {
            self.blocks.remove(0);
            self.passed += 1;
        }
    }

    // Takes a line within a block, or tells why it is not taken.
    fn take_line_inside(
        &mut self,
        alloc: Global,
        shape: &Shape,
        line: &[u8],
    ) -> Result<(), LineFault>
        ensures tag { self.new.tag ≡ self.old.tag }
        ensures taken { OnOk result (TakesInside shape.now self.old line.now self.new) }
        ensures other { result ≡ Err LineFault.OtherLine → Refuses (TakesInside shape.now self.old line.now) self.old self.new }
        ensures query { result ≢ Err LineFault.OtherQuery }
        ensures listed { result ≢ Err LineFault.Unlisted }
    {
        match self.take_inside(alloc, shape, line) {
            Ok(true) => Ok(()),
            Ok(false) => Err(LineFault::OtherLine),
            Err(_) => Err(LineFault::NoMemory),
        }
    }

    /// Takes the next line of the report of that query, with blocks of that shape. A line that no such report has at this place
    /// is refused, and changes nothing.
    pub fn take(
        &mut self,
        alloc: Global,
        query: &[u8],
        shape: &Shape,
        line: &[u8],
    ) -> Result<(), LineFault>
        ensures tag { self.new.tag ≡ self.old.tag }
        ensures taken { OnOk result (Takes query.now shape.now self.old line.now self.new) }
        ensures query { result ≡ Err LineFault.OtherQuery
            → (self.old.place ≡ Query) × Refuses (Takes query.now shape.now self.old line.now) self.old self.new }
        ensures unlisted { result ≡ Err LineFault.Unlisted
            → IsUnlisted self.old × Refuses (Takes query.now shape.now self.old line.now) self.old self.new }
        ensures other { result ≡ Err LineFault.OtherLine
            → (self.old.place ≢ Query) × (¬ IsUnlisted self.old) × Refuses (Takes query.now shape.now self.old line.now) self.old self.new }
    {
        let taken = match self.place {
            Place::Query => return self.take_opening(query, line),
            Place::Opened => self.take_opened(shape, line),
            Place::Round => self.take_behind(shape, line),
            Place::Group => return self.take_line_between(alloc, shape, line),
            Place::Items => return self.take_line_inside(alloc, shape, line),
            Place::Row => return self.take_line_of_rows(alloc, shape, line),
            Place::Ended(_) => false,
        };
        if taken {
            Ok(())
        } else {
            Err(LineFault::OtherLine)
        }
    }
}
