//! The lines that stand behind that of an item, read back: its answer told once more, and the rows that an exact average takes.

ghost use Rattle.std.specs.Prelude.{◌≡◌, ◌≢◌, ◌≤◌, ◌++◌, List, Some, length, true, IfSome, MatchOption, ℕ};
ghost use Rattle.report_text.specs.Answers.{CanBeWritten, answer_text};
ghost use Rattle.report_text.specs.Extras.{IsExtraOf, IsRowsLine, IsRowsText, extra_line, extra_text, extra_word};
ghost use Rattle.report_text.specs.declared.answers.Answer.{Answer};

use crate::answers::{Answer, read_answer, written_answer};
use crate::counts::written_count;
use crate::layouts::behind;
use crate::lines::text_of_item;
use daq_table::TextBuf;
use query_model::ItemKind;

// The word before an answer that is told once more.
fn extra_word(kind: ItemKind) -> &'static [u8]
    ensures word { result.now ≡ extra_word kind }
    ensures short { length result.now ≤ 6 }
{
    match kind {
        ItemKind::Count | ItemKind::Sum | ItemKind::Min | ItemKind::Max => b"clip ",
        ItemKind::Avg => b"exact ",
    }
}

// What stands behind that word.
fn behind_word(kind: ItemKind, text: &[u8]) -> Option<&[u8]>
    ensures { MatchOption result
        ((rest : List ℕ) → text.now ≢ extra_word kind ++ rest)
        (λ rest. text.now ≡ extra_word kind ++ rest.now) }
{
    behind(text, extra_word(kind))
}

// The answer of an item that has such a line: of each but a number of rows.
fn read_told_again(kind: ItemKind, text: &[u8]) -> Option<Answer>
    ensures read { (answer : Answer) → IsExtraOf kind answer → answer_text answer ≡ text.now → result ≡ Some answer }
    ensures written { IfSome result (λ answer. IsExtraOf kind answer × (answer_text answer ≡ text.now)) }
{
    match kind {
        ItemKind::Count => None,
        ItemKind::Sum => read_answer(ItemKind::Sum, text),
        ItemKind::Min => read_answer(ItemKind::Min, text),
        ItemKind::Max => read_answer(ItemKind::Max, text),
        ItemKind::Avg => read_answer(ItemKind::Avg, text),
    }
}

// What stands behind the number of the item.
fn read_extra_text(kind: ItemKind, text: &[u8]) -> Option<Answer>
    ensures read { (answer : Answer) → IsExtraOf kind answer → extra_text kind answer ≡ text.now → result ≡ Some answer }
    ensures written { IfSome result (λ answer. IsExtraOf kind answer × (extra_text kind answer ≡ text.now)) }
{
    let rest = behind_word(kind, text)?;
    read_told_again(kind, rest)
}

/// What the line behind that of the item with that number and of that kind says of its answer: the clipped bound, or the exact ends of an
/// average. It is read back as it was written, and what is read is written as it stood.
pub fn read_extra(kind: ItemKind, number: u64, line: &[u8]) -> Option<Answer>
    ensures read { (answer : Answer) → IsExtraOf kind answer → extra_line kind number answer ≡ line.now → result ≡ Some answer }
    ensures written { IfSome result (λ answer. IsExtraOf kind answer × (extra_line kind number answer ≡ line.now)) }
{
    let text = text_of_item(line, number)?;
    read_extra_text(kind, text)
}

/// The line behind that of the item with that number.
pub fn written_extra(kind: ItemKind, number: u64, answer: &Answer) -> TextBuf
    requires { CanBeWritten answer.now }
    ensures text { result ≡ extra_line kind number answer.now }
    ensures short { length result ≤ 521 }
{
    let mut text = written_count(number);
    text.append(b" ");
    text.append(extra_word(kind));
    text.append(written_answer(answer).bytes());
    text
}

// Whether it tells which rows an end takes.
fn is_rows_text(text: &[u8]) -> bool
    ensures yes { IsRowsText text.now → result ≡ true }
    ensures only { result ≡ true → IsRowsText text.now }
{
    match behind(text, b"low takes ") {
        Some(_) => true,
        None => behind(text, b"high takes ").is_some(),
    }
}

/// Whether the line tells which rows an end of the exact average of the item with that number takes. What it says of them is not looked at.
pub fn is_rows_line(number: u64, line: &[u8]) -> bool
    ensures yes { IsRowsLine number line.now → result ≡ true }
    ensures only { result ≡ true → IsRowsLine number line.now }
{
    match text_of_item(line, number) {
        Some(text) => is_rows_text(text),
        None => false,
    }
}
