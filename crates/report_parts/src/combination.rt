//! A combination of reports: it takes the lines of the input one by one, and writes what they tell.

ghost use Rattle.std.specs.Prelude.{◌≡◌, ◌==◌, ◌<◌, ◌≤◌, ◌+◌, ◌++◌, ◌&&◌, [], None, Some};
ghost use Rattle.std.specs.Prelude.{IfErr, IfOk, List, OnOk, false, is_none, is_some, length, true, ℕ};
ghost use Rattle.std.specs.List.{list_all};
ghost use Rattle.report_parts.specs.Course.{GoesOnTo, IsAhead, IsCourseFault, Moves, Rests, Stands};
ghost use Rattle.report_parts.specs.Course.{StopsBy, TakesOn, is_last, is_over_before, wanted_of};
ghost use Rattle.report_parts.specs.Ends.{IsEndFault, end_of_all, first_open};
ghost use Rattle.report_parts.specs.Faults.{CanSay, IsBlockFault};
ghost use Rattle.report_parts.specs.Passed.{AllTellFrom};
ghost use Rattle.report_parts.specs.Reports.{block_text};
ghost use Rattle.report_parts.specs.Rounds.{has_block};
ghost use Rattle.report_parts.specs.Tags.{IsRefused, TakesTagged, part_at};
ghost use Rattle.report_parts.specs.Told.{Told};
ghost use Rattle.report_parts.specs.Written.{end_at, end_text};

use crate::blocks::push_line;
use crate::ends::{end_behind, end_of_all, may_end, written_end};
use crate::fault::{BlockFault, CourseFault, EndFault, InputFault, LineFault};
use crate::narrowness::is_narrow_block;
use crate::over::{block_over, written_over};
use crate::parts::{Asked, Parts};
use crate::rounds::{all_have_block, first_behind, have_all_ended, is_behind};
use plane_schedule::Nearness;
use report_text::ReportEnd;
use std::alloc::Global;
use std::marker::Model;

/// Up to which round a combination goes: the first that is narrow, or that with the number.
#[derive(Clone, Copy, Debug, PartialEq, Eq)]
pub struct Until {
    pub near: Nearness,
    pub rounds: Option<u32>,
}

/// The combined report of the lines that were taken, as far as it stands.
#[derive(Drop)]
pub struct Combination {
    asked: Asked,
    count: usize,
    until: Until,
    parts: Parts,
    round: usize,
    end: Option<ReportEnd>,
    // A part that was behind: where it still is, no other is asked.
    waited: usize,
}

impl Model for Combination {
    ghost use Rattle.std.specs.Prelude.{◌<◌, ◌^◌};
    ghost use Rattle.report_parts.specs.Course.{Course};
    ghost use Rattle.report_parts.specs.Keyed.{AreKeyedFrom};
    ghost use Rattle.report_parts.specs.Shown.{AreShownFrom};

    ghost Value = { Course };

    ghost view = { λ c. record {
      task = record {
        query = c.asked.query.items;
        shape = c.asked.shape;
        count = c.count;
        near = c.until.near;
        last = c.until.rounds;
      };
      parts = c.parts;
      round = c.round;
      end = c.end;
    } };

    ghost invariant = { λ c. (c.round < 2 ^ 62) × AreKeyedFrom c.asked.shape.columns c.round c.parts × AreShownFrom c.round c.parts };
}

// More rounds than any report has.
const MOST_ROUNDS: usize = 1 << 62;

// Whether the round with that number is the last.
fn is_last(rounds: Option<u32>, round: usize) -> bool
    ensures { result ≡ is_last rounds round }
{
    match rounds {
        Some(last) => last as usize == round,
        None => false,
    }
}

// What is written next.
#[derive(Drop)]
struct Ahead {
    block: Vec<u8>,
    end: Option<ReportEnd>,
}

impl Combination {
    /// No line was taken. There are to be so many parts.
    pub fn new(alloc: Global, asked: Asked, count: usize, until: Until) -> Combination
        requires { 0 < count }
        ensures query { result.task.query ≡ asked.query.items }
        ensures shape { result.task.shape ≡ asked.shape }
        ensures count { result.task.count ≡ count }
        ensures near { result.task.near ≡ until.near }
        ensures last { result.task.last ≡ until.rounds }
        ensures stands { Stands result [] [] }
        ensures open { result.end ≡ None }
    {
        Combination {
            asked,
            count,
            until,
            parts: Parts::new(alloc),
            round: 0,
            end: None,
            waited: 0,
        }
    }

    /// Whether the report has ended, and no line more is taken.
    pub fn has_ended(&self) -> bool
        ensures ended { result ≡ is_some self.now.end }
        ensures open { result ≡ false → self.now.end ≡ None }
    {
        match self.end {
            Some(_) => true,
            None => false,
        }
    }

    /// Whether the input may end here: there are as many parts as are to be, and the report of each has ended.
    pub fn may_end(&self) -> Result<(), EndFault>
        ensures ended { OnOk result ((first_open self.now.parts ≡ None) × (length self.now.parts ≡ self.now.task.count)) }
        ensures fault { IfErr result (λ why. IsEndFault why self.now.task.count self.now.parts) }
    {
        may_end(self.count, self.parts.as_slice())
    }

    /// The tag of the part at that place, in the order of tags.
    pub fn tag_at(&self, place: usize) -> &[u8]
        requires { place < length self.now.parts }
        ensures { result.now ≡ (part_at place self.now.parts).tag }
    {
        self.parts.as_slice()[place].tag()
    }

    // The parts take a line. Where memory runs out they are forgotten.
    fn take_line(&mut self, alloc: Global, line: &[u8]) -> Result<(), InputFault>
        ensures task { self.new.task ≡ self.old.task }
        ensures round { self.new.round ≡ self.old.round }
        ensures end { self.new.end ≡ self.old.end }
        ensures taken { OnOk result (TakesTagged self.old.task.query self.old.task.shape self.old.parts line.now self.new.parts) }
        ensures few { OnOk result (length self.old.parts ≤ self.old.task.count → length self.new.parts ≤ self.old.task.count) }
        ensures refused { IfErr result (λ why.
            IsRefused why self.old.task.query self.old.task.shape self.old.task.count self.old.parts line.now) }
    {
        match self.parts.take(alloc, &self.asked, self.count, line) {
            Ok(()) => Ok(()),
            Err(InputFault::Line(LineFault::NoMemory)) => {
                self.parts = Parts::new(alloc);
                Err(InputFault::Line(LineFault::NoMemory))
            }
            Err(why) => Err(why),
        }
    }

    // Writes the end.
    fn finish(&mut self, text: &mut Vec<u8>, end: ReportEnd) -> Result<(), BlockFault>
        ensures task { self.new.task ≡ self.old.task }
        ensures ended { OnOk result (self.new.end ≡ Some end) }
        ensures put { OnOk result (text.new.items ≡ text.old.items ++ end_text end) }
        ensures fault { IfErr result (λ why. why ≡ BlockFault.NoMemory) }
    {
        push_line(text, written_end(end))?;
        self.end = Some(end);
        Ok(())
    }

    // Goes on to the next round. What only the rounds before it ask for is forgotten.
    fn go_on(&mut self) -> Result<(), BlockFault>
        ensures task { self.new.task ≡ self.old.task }
        ensures end { self.new.end ≡ self.old.end }
        ensures round { OnOk result (self.new.round ≡ self.old.round + 1) }
        ensures kept { OnOk result (AllTellFrom self.new.round self.old.parts self.new.parts) }
        ensures fault { IfErr result (λ why. why ≡ BlockFault.NoMemory) }
    {
        if self.round + 1 >= MOST_ROUNDS {
            return Err(BlockFault::NoMemory);
        }
        self.round += 1;
        self.parts.pass(self.round);
        Ok(())
    }

    // The block of the round, and how the report ends behind it, if it does.
    fn block(&self, alloc: Global) -> Result<Ahead, BlockFault>
        ensures block { IfOk result (λ ahead. ahead.block.items ≡ block_text self.now.round self.now.task.shape self.now.parts) }
        ensures said { OnOk result (CanSay self.now.round self.now.task.shape self.now.parts) }
        ensures end { IfOk result (λ ahead. ahead.end ≡ end_at (wanted_of self.now.task) self.now.round self.now.parts) }
        ensures fault { IfErr result (λ why. IsBlockFault why self.now.round self.now.task.shape self.now.parts) }
    {
        let parts = self.parts.as_slice();
        let shape = &self.asked.shape;
        let block = block_over(alloc, self.round, shape, parts)?;
        let narrow = is_narrow_block(self.until.near, &block);
        let last = is_last(self.until.rounds, self.round);
        Ok(Ahead {
            block: written_over(alloc, self.round, shape.kinds.as_slice(), &block)?,
            end: end_behind(narrow, last, self.round, parts),
        })
    }

    // Writes the block of the round, and the end behind it if there is one.
    fn write_round(&mut self, alloc: Global, text: &mut Vec<u8>) -> Result<(), BlockFault>
        requires has { list_all (has_block self.old.round) self.old.parts ≡ true }
        requires open { self.old.end ≡ None }
        ensures task { self.new.task ≡ self.old.task }
        ensures written { OnOk result ((wholes : List Told) (before : List ℕ) → IsAhead self.old wholes before
            → is_over_before self.old.round wholes ≡ false → Moves self.new wholes before text.old.items text.new.items) }
        ensures goes { OnOk result (self.new.end ≡ None → GoesOnTo self.old self.new) }
        ensures fault { IfErr result (λ why. (wholes : List Told) (before : List ℕ) → IsAhead self.old wholes before
            → is_over_before self.old.round wholes ≡ false → StopsBy why self.old.task wholes before text.old.items text.new.items) }
    {
        let ahead = self.block(alloc)?;
        text.extend_from_slice(&ahead.block)?;
        match ahead.end {
            Some(end) => self.finish(text, end),
            None => self.go_on(),
        }
    }

    // Whether no part goes on behind the last block that was written.
    fn is_over_before(&self) -> bool
        ensures { result ≡ is_over_before self.now.round self.now.parts }
    {
        self.round > 0 && have_all_ended(self.round - 1, self.parts.as_slice())
    }

    // How the report ends where no part goes on.
    fn last_end(&self) -> ReportEnd
        ensures { result ≡ end_of_all self.now.parts }
    {
        end_of_all(self.parts.as_slice())
    }

    // Whether the block of the round is to be written.
    fn has_block(&self) -> bool
        ensures { result ≡ (is_none self.now.end && list_all (has_block self.now.round) self.now.parts) }
    {
        self.end.is_none()
            && !is_behind(self.round, self.parts.as_slice(), self.waited)
            && all_have_block(self.round, self.parts.as_slice())
    }

    // Writes the blocks that stand, and the end.
    fn write(&mut self, alloc: Global, text: &mut Vec<u8>) -> Result<(), BlockFault>
        requires { self.old.end ≡ None }
        ensures task { self.new.task ≡ self.old.task }
        ensures written { OnOk result ((wholes : List Told) (before : List ℕ) → IsAhead self.old wholes before
            → Rests self.new wholes before text.old.items text.new.items) }
        ensures fault { IfErr result (λ why. (wholes : List Told) (before : List ℕ) → IsAhead self.old wholes before
            → StopsBy why self.old.task wholes before text.old.items text.new.items) }
    {
        if self.is_over_before() {
            let end = self.last_end();
            return self.finish(text, end);
        }
        'rounds: while self.has_block() {
            self.write_round(alloc, text)?;
        }
        Ok(())
    }

    // Whether a line of each part has come.
    fn is_whole(&self) -> bool
        ensures { result ≡ (length self.now.parts == self.now.task.count) }
    {
        self.parts.as_slice().len() == self.count
    }

    // Takes a line, and puts behind the text the blocks that stand.
    fn take_and_write(
        &mut self,
        alloc: Global,
        line: &[u8],
        text: &mut Vec<u8>,
    ) -> Result<(), CourseFault>
        requires { self.old.end ≡ None }
        ensures task { self.new.task ≡ self.old.task }
        ensures taken { OnOk result (TakesOn self.old self.new line.now text.old.items text.new.items) }
        ensures refused { IfErr result (λ why. IsCourseFault why self.old line.now text.old.items text.new.items) }
    {
        self.take_line(alloc, line)?;
        if self.is_whole() {
            self.write(alloc, text)?;
        }
        Ok(())
    }

    // Notes which part is behind, where one is and the one that was is not.
    fn look_on(&mut self)
        ensures { self.new ≡ self.old }
    {
        let parts = self.parts.as_slice();
        if is_behind(self.round, parts, self.waited) {
            return;
        }
        if let Some(place) = first_behind(self.round, parts) {
            self.waited = place;
        }
    }

    /// Takes a line of the input, without its line feed, and puts behind the text the whole blocks that stand now and were not written,
    /// and the end, if it is reached. A line that the parts refuse changes nothing. Where a block is not written, those before it are.
    pub fn take(
        &mut self,
        alloc: Global,
        line: &[u8],
        text: &mut Vec<u8>,
    ) -> Result<(), CourseFault>
        requires { self.old.end ≡ None }
        ensures task { self.new.task ≡ self.old.task }
        ensures taken { OnOk result (TakesOn self.old self.new line.now text.old.items text.new.items) }
        ensures refused { IfErr result (λ why. IsCourseFault why self.old line.now text.old.items text.new.items) }
    {
        let taken = self.take_and_write(alloc, line, text);
        self.look_on();
        taken
    }
}
