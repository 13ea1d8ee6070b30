//! Where the least or the greatest text lies: of a part, and over all.

ghost use Rattle.std.specs.Prelude.{◌≡◌, ◌≢◌, ◌++◌, ℕ, List, Some, codes, decimal, IfOk, IfSome, MatchOption};
ghost use Rattle.report_text.specs.TextAnswers.{IsTextAnswer};
ghost use Rattle.report_text.specs.declared.text_answers.TextAnswer.{TextAnswer};
ghost use Rattle.report_parts.specs.Narrowness.{is_narrow_text, is_told_text};
ghost use Rattle.report_parts.specs.Texts.{clips_of, group_texts, is_extreme, said_by, tell_text, text_clip_line, text_over, texts_of};

use crate::entry::Entry;
use daq_table::{Text, written_number};
use part_groups::extreme_of;
use query_model::ItemKind;
use report_text::{TextAnswer, TextEnds, read_text_answer, text_of_item, written_text_answer};
use std::alloc::{AllocError, Global};
use text_extremes::{Extreme, combine, copied_answer};

// Whether it may ask for a text.
pub(crate) fn is_extreme(kind: Option<ItemKind>) -> bool
    ensures { result ≡ is_extreme kind }
{
    match kind {
        Some(kind) => extreme_of(kind).is_some(),
        None => false,
    }
}

// What stands behind the number of an item and the word for its clipped bound.
fn behind_clip(line: &[u8], number: u64) -> Option<&[u8]>
    ensures { MatchOption result
        ((rest : List ℕ) → line.now ≢ decimal number ++ (codes " " ++ (codes "clip " ++ rest)))
        (λ rest. line.now ≡ decimal number ++ (codes " " ++ (codes "clip " ++ rest.now))) }
{
    let text = text_of_item(line, number)?;
    text.strip_prefix(b"clip ")
}

// Where the line behind that of the item with that number says that the clipped text lies: it is read back as it was written, and what is
// read is written as it stood.
pub(crate) fn read_text_clip(
    alloc: Global,
    number: u64,
    line: &[u8],
) -> Result<Option<TextAnswer>, AllocError>
    ensures read { IfOk result (λ read. (clip : TextAnswer) → IsTextAnswer clip → text_clip_line number clip ≡ line.now
        → read ≡ Some clip) }
    ensures written { IfOk result (λ read. IfSome read (λ clip. IsTextAnswer clip × (text_clip_line number clip ≡ line.now))) }
{
    match behind_clip(line, number) {
        Some(text) => read_text_answer(alloc, text),
        None => Ok(None),
    }
}

// The line behind that of the item with that number.
pub(crate) fn written_text_clip(
    alloc: Global,
    number: u64,
    clip: &TextAnswer,
) -> Result<Text, AllocError>
    ensures { IfOk result (λ text. text ≡ text_clip_line number clip.now) }
{
    let mut text = Vec::new(alloc);
    text.extend_from_slice(written_number(i128::from(number), 0).bytes())?;
    text.extend_from_slice(b" clip ")?;
    text.extend_from_slice(written_text_answer(alloc, clip)?.as_slice())?;
    Ok(Text::new(text))
}

// Whether some part tells a text.
pub(crate) fn tell_text(entries: &[Entry]) -> bool
    ensures { result ≡ tell_text (texts_of entries.now) }
{
    for entry in entries {
        if entry.text.is_some() {
            return true;
        }
    }
    false
}

// Whether one does in the line behind.
pub(crate) fn tell_clip(entries: &[Entry]) -> bool
    ensures { result ≡ tell_text (clips_of entries.now) }
{
    for entry in entries {
        if entry.clip.is_some() {
            return true;
        }
    }
    false
}

fn texts_of(alloc: Global, entries: &[Entry]) -> Result<Vec<Option<TextAnswer>>, AllocError>
    ensures { IfOk result (λ texts. texts.items ≡ texts_of entries.now) }
{
    let mut texts = Vec::with_capacity(alloc, entries.len())?;
    for entry in entries {
        texts.push(copied_answer(alloc, &entry.text)?)?;
    }
    Ok(texts)
}

fn clips_of(alloc: Global, entries: &[Entry]) -> Result<Vec<Option<TextAnswer>>, AllocError>
    ensures { IfOk result (λ clips. clips.items ≡ clips_of entries.now) }
{
    let mut clips = Vec::with_capacity(alloc, entries.len())?;
    for entry in entries {
        clips.push(copied_answer(alloc, &entry.clip)?)?;
    }
    Ok(clips)
}

fn said_by(
    alloc: Global,
    extreme: Option<Extreme>,
    texts: &[Option<TextAnswer>],
) -> Result<Option<TextAnswer>, AllocError>
    ensures { IfOk result (λ text. text ≡ said_by extreme texts.now) }
{
    match extreme {
        Some(extreme) => combine(alloc, extreme, texts),
        None => Ok(None),
    }
}

// What a section tells of texts.
pub(crate) fn group_texts(
    alloc: Global,
    entries: &[Entry],
) -> Result<Vec<Option<TextAnswer>>, AllocError>
    ensures { IfOk result (λ texts. texts.items ≡ group_texts entries.now) }
{
    if tell_text(entries) {
        texts_of(alloc, entries)
    } else {
        Ok(Vec::new(alloc))
    }
}

// Where the text lies over all parts, if one tells a text.
pub(crate) fn text_over(
    alloc: Global,
    kind: ItemKind,
    entries: &[Entry],
) -> Result<Option<TextAnswer>, AllocError>
    ensures { IfOk result (λ text. text ≡ text_over kind (texts_of entries.now)) }
{
    if tell_text(entries) {
        let texts = texts_of(alloc, entries)?;
        said_by(alloc, extreme_of(kind), &texts)
    } else {
        Ok(None)
    }
}

// So it is of the clipped one.
pub(crate) fn clip_over(
    alloc: Global,
    kind: ItemKind,
    entries: &[Entry],
) -> Result<Option<TextAnswer>, AllocError>
    ensures { IfOk result (λ clip. clip ≡ text_over kind (clips_of entries.now)) }
{
    if tell_clip(entries) {
        let clips = clips_of(alloc, entries)?;
        said_by(alloc, extreme_of(kind), &clips)
    } else {
        Ok(None)
    }
}

// Whether it is known which text there is, or that there is none.
fn is_told_text(null: bool, ends: &Option<TextEnds>) -> bool
    ensures { result ≡ is_told_text null ends.now }
{
    match ends {
        Some(ends) => !null && ends.low.as_slice() == ends.high.as_slice(),
        None => true,
    }
}

// So it is, or no text is told.
pub(crate) fn is_narrow_text(text: &Option<TextAnswer>) -> bool
    ensures { result ≡ is_narrow_text text.now }
{
    match text {
        Some(text) => is_told_text(text.null, &text.ends),
        None => true,
    }
}
