//! What a line says of the least or the greatest text, read back.

ghost use Rattle.std.specs.Prelude.{◌≡◌, ◌++◌, Some, IfOk, IfSome, OnOk};
ghost use Rattle.report_text.specs.Keys.{IsShownSpan};
ghost use Rattle.report_text.specs.TextAnswers.{IsTextAnswer, span_of, text_item_line, text_of};
ghost use Rattle.report_text.specs.declared.text_answers.TextAnswer.{TextAnswer};

use crate::counts::written_count;
use crate::intervals::{append_texts, read_interval};
use crate::keys::{ShownEnds, ShownSpan, TextEnds};
use crate::lines::text_of_item;
use daq_table::Text;
use std::alloc::{AllocError, Global};

/// Where the least or the greatest of some texts lies: between two texts, by their bytes, both included, and whether there may be none.
#[derive(Drop, Debug)]
pub struct TextAnswer {
    pub null: bool,
    /// None in a column that has no text.
    pub ends: Option<TextEnds>,
}

// The answer that a span tells, if it is one of texts.
fn answer_of(span: Option<ShownSpan>) -> Option<TextAnswer>
    requires { IfSome span IsShownSpan }
    ensures shown { IfSome result IsTextAnswer }
    ensures is { (answer : TextAnswer) → span ≡ Some (span_of answer) → result ≡ Some answer }
{
    let span = span?;
    let null = span.null;
    match span.ends? {
        ShownEnds::Texts(ends) => Some(TextAnswer {
            null,
            ends: Some(ends),
        }),
        ShownEnds::NoText => Some(TextAnswer { null, ends: None }),
        ShownEnds::Values(_) => None,
    }
}

// Appends where it lies.
fn append_answer(answer: &TextAnswer, text: &mut Vec<u8>) -> Result<(), AllocError>
    ensures { OnOk result (text.new.items ≡ text.old.items ++ text_of answer.now) }
{
    match &answer.ends {
        Some(ends) => append_texts(ends, text)?,
        None => text.extend_from_slice(b"-")?,
    }
    if answer.null {
        text.extend_from_slice(b" or null")?;
    }
    Ok(())
}

/// The text of such an answer, as a line shows it.
pub fn written_text_answer(alloc: Global, answer: &TextAnswer) -> Result<Text, AllocError>
    ensures { IfOk result (λ text. text ≡ text_of answer.now) }
{
    let mut text = Vec::new(alloc);
    append_answer(answer, &mut text)?;
    Ok(Text::new(text))
}

// What the text says of such an answer. It may read it where a report would write it in another way.
fn read_loosely(alloc: Global, text: &[u8]) -> Result<Option<TextAnswer>, AllocError>
    ensures shown { IfOk result (λ read. IfSome read IsTextAnswer) }
    ensures read { IfOk result (λ read. (answer : TextAnswer) → IsTextAnswer answer → text_of answer ≡ text.now → read ≡ Some answer) }
{
    Ok(answer_of(read_interval(alloc, text)?))
}

/// What the text says of such an answer: it is read back as it was written, and what is read is written as it stood.
pub fn read_text_answer(alloc: Global, text: &[u8]) -> Result<Option<TextAnswer>, AllocError>
    ensures read { IfOk result (λ read. (answer : TextAnswer) → IsTextAnswer answer → text_of answer ≡ text.now → read ≡ Some answer) }
    ensures written { IfOk result (λ read. IfSome read (λ answer. IsTextAnswer answer × (text_of answer ≡ text.now))) }
{
    match read_loosely(alloc, text)? {
        Some(answer) => {
            let written = written_text_answer(alloc, &answer)?;
            if written.as_slice() == text {
                Ok(Some(answer))
            } else {
                Ok(None)
            }
        }
        None => Ok(None),
    }
}

/// What the line of an item with that number says of such an answer: it is read back as it was written, and what is read is written as it
/// stood.
pub fn read_text_item(
    alloc: Global,
    number: u64,
    line: &[u8],
) -> Result<Option<TextAnswer>, AllocError>
    ensures read { IfOk result (λ read. (answer : TextAnswer) → IsTextAnswer answer → text_item_line number answer ≡ line.now
        → read ≡ Some answer) }
    ensures written { IfOk result (λ read. IfSome read (λ answer. IsTextAnswer answer × (text_item_line number answer ≡ line.now))) }
{
    match text_of_item(line, number) {
        Some(text) => read_text_answer(alloc, text),
        None => Ok(None),
    }
}

/// The line of an item with that number.
pub fn written_text_item(
    alloc: Global,
    number: u64,
    answer: &TextAnswer,
) -> Result<Text, AllocError>
    ensures { IfOk result (λ text. text ≡ text_item_line number answer.now) }
{
    let mut text = Vec::new(alloc);
    text.extend_from_slice(written_count(number).bytes())?;
    text.extend_from_slice(b" ")?;
    append_answer(answer, &mut text)?;
    Ok(Text::new(text))
}
