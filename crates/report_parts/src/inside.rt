//! The lines within a block: the answers of its items, and what is told of them in another way.

ghost use Rattle.std.specs.Prelude.{◌≡◌, ◌<◌, IfOk, MatchBool, MatchOption, OnOk, length};
ghost use Rattle.query_model.specs.declared.query.ItemKind.{ItemKind};
ghost use Rattle.report_text.specs.declared.answers.Answer.{Answer};
ghost use Rattle.report_text.specs.declared.text_answers.TextAnswer.{TextAnswer};
ghost use Rattle.report_parts.specs.Told.{Answers, ClipsText, Closes, Extends, IsNextAnswer, IsNextClip, IsNextExtra, IsNextText};
ghost use Rattle.report_parts.specs.Told.{PassesInside, Refuses, TakesBehindAnswer, TakesExtra, TakesInside, TakesItem, TakesRest};
ghost use Rattle.report_parts.specs.Told.{TellsText, Told, settled};
ghost use Rattle.report_parts.specs.Told.{with_entry, with_extra};

use crate::closing::{ends_with_extra, is_unknown, is_whole};
use crate::entry::{Entry, NO_ANSWER};
use crate::part::{Part, Place};
use crate::shape::{Shape, is_average, kind_at};
use crate::texts::{is_extreme, read_text_clip};
use query_model::ItemKind;
use report_text::{Answer, TextAnswer, is_rows_line, read_extra, read_item, read_text_item};
use std::alloc::{AllocError, Global};

impl Part {
    // Closes the block, if it is whole.
    fn settle(&mut self, alloc: Global, kinds: &[ItemKind]) -> Result<(), AllocError>
        ensures tag { self.new.tag ≡ self.old.tag }
        ensures settled { OnOk result (self.new ≡ settled kinds.now self.old) }
    {
        if is_whole(kinds, self.closing, &self.current) {
            self.close(alloc)
        } else {
            self.go(Place::Items);
            Ok(())
        }
    }

    // Puts an entry behind the others.
    fn put(&mut self, alloc: Global, kinds: &[ItemKind], entry: Entry) -> Result<(), AllocError>
        ensures tag { self.new.tag ≡ self.old.tag }
        ensures put { OnOk result (self.new ≡ with_entry kinds.now self.old entry) }
    {
        self.current.push(entry)?;
        self.settle(alloc, kinds)
    }

    // Puts what the line behind the last answer tells beside it.
    fn put_extra(
        &mut self,
        alloc: Global,
        kinds: &[ItemKind],
        extra: Answer,
        clip: Option<TextAnswer>,
    ) -> Result<(), AllocError>
        requires { 0 < length self.old.current }
        ensures tag { self.new.tag ≡ self.old.tag }
        ensures put { OnOk result (self.new ≡ with_extra kinds.now self.old extra clip) }
    {
        let last = self.current.len() - 1;
        let entry = &mut self.current[last];
        entry.extra = Some(extra);
        entry.clip = clip;
        self.settle(alloc, kinds)
    }

    // The answer of the next item, by its line.
    fn next_answer(&self, kinds: &[ItemKind], line: &[u8]) -> Option<Answer>
        ensures { MatchOption result
            ((kind : ItemKind) (answer : Answer) → IsNextAnswer kinds.now self.now line.now kind answer → ⊥)
            (λ answer. (kind : ItemKind) × IsNextAnswer kinds.now self.now line.now kind answer) }
    {
        let item = self.current.len();
        let kind = kind_at(kinds, item)?;
        read_item(kind, item as u64 + 1, line)
    }

    // Where the text of the next item lies, by its line.
    fn next_text(
        &self,
        alloc: Global,
        kinds: &[ItemKind],
        line: &[u8],
    ) -> Result<Option<TextAnswer>, AllocError>
        ensures { IfOk result (λ told. MatchOption told
            ((text : TextAnswer) → IsNextText kinds.now self.now line.now text → ⊥)
            (IsNextText kinds.now self.now line.now)) }
    {
        let item = self.current.len();
        if !is_extreme(kind_at(kinds, item)) {
            return Ok(None);
        }
        read_text_item(alloc, item as u64 + 1, line)
    }

    // What the line tells of the item that was answered last, if it is the first behind it.
    fn next_extra(&self, kinds: &[ItemKind], line: &[u8]) -> Option<Answer>
        ensures { MatchOption result
            ((kind : ItemKind) (extra : Answer) → IsNextExtra kinds.now self.now line.now kind extra → ⊥)
            (λ extra. (kind : ItemKind) × IsNextExtra kinds.now self.now line.now kind extra) }
    {
        let count = self.current.len();
        if count == 0 || ends_with_extra(&self.current) {
            return None;
        }
        let kind = kind_at(kinds, count - 1)?;
        read_extra(kind, count as u64, line)
    }

    // Where the clipped text of the item of totals that was told last lies, by the first line behind it.
    fn next_clip(
        &self,
        alloc: Global,
        kinds: &[ItemKind],
        line: &[u8],
    ) -> Result<Option<TextAnswer>, AllocError>
        ensures { IfOk result (λ told. MatchOption told
            ((clip : TextAnswer) → IsNextClip kinds.now self.now line.now clip → ⊥)
            (IsNextClip kinds.now self.now line.now)) }
    {
        let count = self.current.len();
        if count == 0 || ends_with_extra(&self.current) {
            return Ok(None);
        }
        if self.group.is_some() || !is_extreme(kind_at(kinds, count - 1)) {
            return Ok(None);
        }
        read_text_clip(alloc, count as u64, line)
    }

    // Takes the answer of the next item.
    fn take_answer(
        &mut self,
        alloc: Global,
        kinds: &[ItemKind],
        line: &[u8],
    ) -> Result<bool, AllocError>
        ensures tag { self.new.tag ≡ self.old.tag }
        ensures taken { IfOk result (λ taken. MatchBool taken
            (Answers kinds.now self.old line.now self.new)
            (Refuses (Answers kinds.now self.old line.now) self.old self.new)) }
    {
        let Some(answer) = self.next_answer(kinds, line) else {
            return Ok(false);
        };
        let entry = Entry {
            answer,
            extra: None,
            text: None,
            clip: None,
        };
        self.put(alloc, kinds, entry)?;
        Ok(true)
    }

    // Takes where the text of the next item lies.
    fn take_text(
        &mut self,
        alloc: Global,
        kinds: &[ItemKind],
        line: &[u8],
    ) -> Result<bool, AllocError>
        ensures tag { self.new.tag ≡ self.old.tag }
        ensures taken { IfOk result (λ taken. MatchBool taken
            (TellsText kinds.now self.old line.now self.new)
            (Refuses (TellsText kinds.now self.old line.now) self.old self.new)) }
    {
        let Some(text) = self.next_text(alloc, kinds, line)? else {
            return Ok(false);
        };
        let entry = Entry {
            answer: NO_ANSWER,
            extra: None,
            text: Some(text),
            clip: None,
        };
        self.put(alloc, kinds, entry)?;
        Ok(true)
    }

    // Takes what is told of the next item.
    fn take_item(
        &mut self,
        alloc: Global,
        kinds: &[ItemKind],
        line: &[u8],
    ) -> Result<bool, AllocError>
        ensures tag { self.new.tag ≡ self.old.tag }
        ensures taken { IfOk result (λ taken. MatchBool taken
            (TakesItem kinds.now self.old line.now self.new)
            (Refuses (TakesItem kinds.now self.old line.now) self.old self.new)) }
    {
        if self.take_answer(alloc, kinds, line)? {
            return Ok(true);
        }
        self.take_text(alloc, kinds, line)
    }

    // Takes the line behind that of an item, in which its answer is told in another way.
    fn take_answer_behind(
        &mut self,
        alloc: Global,
        kinds: &[ItemKind],
        line: &[u8],
    ) -> Result<bool, AllocError>
        ensures tag { self.new.tag ≡ self.old.tag }
        ensures taken { IfOk result (λ taken. MatchBool taken
            (Extends kinds.now self.old line.now self.new)
            (Refuses (Extends kinds.now self.old line.now) self.old self.new)) }
    {
        let Some(extra) = self.next_extra(kinds, line) else {
            return Ok(false);
        };
        self.put_extra(alloc, kinds, extra, None)?;
        Ok(true)
    }

    // Takes the line behind that of an item, in which it is told where the clipped text lies.
    fn take_clip(
        &mut self,
        alloc: Global,
        kinds: &[ItemKind],
        line: &[u8],
    ) -> Result<bool, AllocError>
        ensures tag { self.new.tag ≡ self.old.tag }
        ensures taken { IfOk result (λ taken. MatchBool taken
            (ClipsText kinds.now self.old line.now self.new)
            (Refuses (ClipsText kinds.now self.old line.now) self.old self.new)) }
    {
        let Some(clip) = self.next_clip(alloc, kinds, line)? else {
            return Ok(false);
        };
        self.put_extra(alloc, kinds, NO_ANSWER, Some(clip))?;
        Ok(true)
    }

    // Takes the line behind that of an item, which tells it in another way.
    fn take_extra(
        &mut self,
        alloc: Global,
        kinds: &[ItemKind],
        line: &[u8],
    ) -> Result<bool, AllocError>
        ensures tag { self.new.tag ≡ self.old.tag }
        ensures taken { IfOk result (λ taken. MatchBool taken
            (TakesExtra kinds.now self.old line.now self.new)
            (Refuses (TakesExtra kinds.now self.old line.now) self.old self.new)) }
    {
        if self.take_answer_behind(alloc, kinds, line)? {
            return Ok(true);
        }
        self.take_clip(alloc, kinds, line)
    }

    // Whether the line tells the rows of the exact average that was told last.
    fn passes_inside(&self, kinds: &[ItemKind], line: &[u8]) -> bool
        ensures { MatchBool result
            (PassesInside kinds.now self.now line.now self.now)
            ((next : Told) → PassesInside kinds.now self.now line.now next → ⊥) }
    {
        let count = self.current.len();
        count > 0
            && is_average(kind_at(kinds, count - 1))
            && ends_with_extra(&self.current)
            && is_rows_line(count as u64, line)
    }

    // Takes the line behind the first block, or the first section.
    fn take_closing(
        &mut self,
        alloc: Global,
        shape: &Shape,
        line: &[u8],
    ) -> Result<bool, AllocError>
        ensures tag { self.new.tag ≡ self.old.tag }
        ensures taken { IfOk result (λ taken. MatchBool taken
            (Closes shape.now self.old line.now self.new)
            (Refuses (Closes shape.now self.old line.now) self.old self.new)) }
    {
        if !is_unknown(self.closing) || self.current.len() != shape.kinds.as_slice().len() {
            return Ok(false);
        }
        self.close_by(alloc, shape, line)
    }

    // Takes a line behind what is told of an item, but for the next answer.
    fn take_rest(&mut self, alloc: Global, shape: &Shape, line: &[u8]) -> Result<bool, AllocError>
        ensures tag { self.new.tag ≡ self.old.tag }
        ensures taken { IfOk result (λ taken. MatchBool taken
            (TakesRest shape.now self.old line.now self.new)
            (Refuses (TakesRest shape.now self.old line.now) self.old self.new)) }
    {
        if self.passes_inside(shape.kinds.as_slice(), line) {
            return Ok(true);
        }
        self.take_closing(alloc, shape, line)
    }

    // Takes a line behind that of an item, but for the next answer.
    fn take_behind_answer(
        &mut self,
        alloc: Global,
        shape: &Shape,
        line: &[u8],
    ) -> Result<bool, AllocError>
        ensures tag { self.new.tag ≡ self.old.tag }
        ensures taken { IfOk result (λ taken. MatchBool taken
            (TakesBehindAnswer shape.now self.old line.now self.new)
            (Refuses (TakesBehindAnswer shape.now self.old line.now) self.old self.new)) }
    {
        if self.take_extra(alloc, shape.kinds.as_slice(), line)? {
            return Ok(true);
        }
        self.take_rest(alloc, shape, line)
    }

    // Takes a line within a block that is not known to be whole.
    pub(crate) fn take_inside(
        &mut self,
        alloc: Global,
        shape: &Shape,
        line: &[u8],
    ) -> Result<bool, AllocError>
        ensures tag { self.new.tag ≡ self.old.tag }
        ensures taken { IfOk result (λ taken. MatchBool taken
            (TakesInside shape.now self.old line.now self.new)
            (Refuses (TakesInside shape.now self.old line.now) self.old self.new)) }
    {
        if self.take_item(alloc, shape.kinds.as_slice(), line)? {
            return Ok(true);
        }
        self.take_behind_answer(alloc, shape, line)
    }
}
