//! The lines of a block of first rows: how many there are, and the next of them.

ghost use Rattle.std.specs.Prelude.{◌≡◌, ◌≢◌, Err, IfOk, MatchBool, OnOk, Some};
ghost use Rattle.report_text.specs.RowBlocks.{LacksPossible, RowsTold, TakesRows};
ghost use Rattle.report_parts.specs.Told.{ListsRow, Refuses, RowsGoOn, rows_done, with_rows};

use crate::block::Block;
use crate::fault::LineFault;
use crate::part::{Part, Place};
use crate::shape::Shape;
use report_text::RowsBlock;
use std::alloc::{AllocError, Global};
use std::mem;

impl Part {
    // The block of rows is whole.
    fn end_rows(&mut self, alloc: Global) -> Result<(), AllocError>
        ensures tag { self.new.tag ≡ self.old.tag }
        ensures done { OnOk result (self.new ≡ rows_done self.old) }
    {
        let rows = mem::replace(&mut self.rows, RowsBlock::new(alloc));
        self.blocks.push(Block::Rows(rows))?;
        self.place = Place::Round;
        Ok(())
    }

    // Closes the block of rows, if it is whole.
    fn settle_rows(&mut self, alloc: Global) -> Result<(), AllocError>
        ensures tag { self.new.tag ≡ self.old.tag }
        ensures settled { OnOk result (RowsGoOn self.old self.new) }
    {
        if self.rows.is_whole() {
            self.end_rows(alloc)
        } else {
            Ok(())
        }
    }

    // Puts what the line tells to the rows, of which so many are asked for.
    fn list_row(&mut self, alloc: Global, limit: u64, line: &[u8]) -> Result<bool, AllocError>
        ensures rest { self.new ≡ with_rows self.old self.new.rows }
        ensures listed { IfOk result (λ taken. MatchBool taken
            (TakesRows limit self.old.rows line.now self.new.rows)
            ((self.new.rows ≡ self.old.rows) × ((rows : RowsTold) → TakesRows limit self.old.rows line.now rows → ⊥))) }
    {
        self.rows.take(alloc, limit, line)
    }

    // Takes how many rows there are, or the next of them.
    fn take_row(&mut self, alloc: Global, shape: &Shape, line: &[u8]) -> Result<bool, AllocError>
        ensures tag { self.new.tag ≡ self.old.tag }
        ensures taken { IfOk result (λ taken. MatchBool taken
            (ListsRow shape.now self.old line.now self.new)
            (Refuses (ListsRow shape.now self.old line.now) self.old self.new)) }
    {
        let Some(asked) = shape.rows else {
            return Ok(false);
        };
        if !self.list_row(alloc, asked.limit, line)? {
            return Ok(false);
        }
        self.settle_rows(alloc)?;
        Ok(true)
    }

    // Takes a line of first rows, or tells why it is not taken.
    pub(crate) fn take_line_of_rows(
        &mut self,
        alloc: Global,
        shape: &Shape,
        line: &[u8],
    ) -> Result<(), LineFault>
        ensures tag { self.new.tag ≡ self.old.tag }
        ensures taken { OnOk result (ListsRow shape.now self.old line.now self.new) }
        ensures unlisted { result ≡ Err LineFault.Unlisted
            → LacksPossible self.old.rows × Refuses (ListsRow shape.now self.old line.now) self.old self.new }
        ensures other { result ≡ Err LineFault.OtherLine
            → (¬ LacksPossible self.old.rows) × Refuses (ListsRow shape.now self.old line.now) self.old self.new }
        ensures query { result ≢ Err LineFault.OtherQuery }
    {
        match self.take_row(alloc, shape, line) {
            Ok(true) => Ok(()),
            Ok(false) => {
                if self.rows.lacks_possible() {
                    Err(LineFault::Unlisted)
                } else {
                    Err(LineFault::OtherLine)
                }
            }
            Err(_) => Err(LineFault::NoMemory),
        }
    }
}
