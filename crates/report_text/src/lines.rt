//! The lines of a report of totals, read back: what an item's line says, whether a line is that of a round, and what the last line says.

ghost use Rattle.std.specs.Prelude.{◌≡◌, ◌≢◌, ◌<◌, ◌≤◌, ◌^◌, ◌++◌, ℕ, List, Some, codes, decimal, length, true, IfSome, MatchOption};
ghost use Rattle.report_text.specs.Answers.{CanBeWritten, IsAnswerOf};
ghost use Rattle.report_text.specs.Lines.{IsNamed, IsRoundLine, end_line, item_line, parts_line};
ghost use Rattle.report_text.specs.declared.answers.Answer.{Answer};
ghost use Rattle.report_text.specs.declared.lines.ReportEnd.{ReportEnd};

use crate::answers::{Answer, read_answer, written_answer};
use crate::counts::{read_count, written_count};
use crate::layouts::behind;
use daq_table::TextBuf;
use itoa::Buffer;
use query_model::ItemKind;

// What stands behind a space that the text begins with.
fn behind_space(text: &[u8]) -> Option<&[u8]>
    ensures { MatchOption result ((rest : List ℕ) → text.now ≢ codes " " ++ rest) (λ rest. text.now ≡ codes " " ++ rest.now) }
{
    behind(text, b" ")
}

// What stands behind a number that the text begins with.
fn behind_number(text: &[u8], number: u64) -> Option<&[u8]>
    ensures { MatchOption result ((rest : List ℕ) → text.now ≢ decimal number ++ rest) (λ rest. text.now ≡ decimal number ++ rest.now) }
{
    behind(text, Buffer::new().format(number).as_bytes())
}

/// What the line of an item with that number tells.
pub fn text_of_item(line: &[u8], number: u64) -> Option<&[u8]>
    ensures { MatchOption result
        ((text : List ℕ) → line.now ≢ decimal number ++ (codes " " ++ text))
        (λ text. line.now ≡ decimal number ++ (codes " " ++ text.now)) }
{
    let rest = behind_number(line, number)?;
    behind_space(rest)
}

/// What the line of an item with that number and of that kind says of its answer: it is read back as it was written, and what is read is
/// written as it stood.
pub fn read_item(kind: ItemKind, number: u64, line: &[u8]) -> Option<Answer>
    ensures read { (answer : Answer) → IsAnswerOf kind answer → item_line number answer ≡ line.now → result ≡ Some answer }
    ensures written { IfSome result (λ answer. IsAnswerOf kind answer × (item_line number answer ≡ line.now)) }
{
    let text = text_of_item(line, number)?;
    read_answer(kind, text)
}

/// The line of an item with that number.
pub fn written_item(number: u64, answer: &Answer) -> TextBuf
    requires { CanBeWritten answer.now }
    ensures text { result ≡ item_line number answer.now }
    ensures short { length result ≤ 515 }
{
    let mut text = written_count(number);
    text.append(b" ");
    text.append(written_answer(answer).bytes());
    text
}

// What stands behind the number of a round.
fn behind_round(line: &[u8], round: u64) -> Option<&[u8]>
    ensures { MatchOption result
        ((rest : List ℕ) → line.now ≢ codes "round " ++ (decimal round ++ rest))
        (λ rest. line.now ≡ codes "round " ++ (decimal round ++ rest.now)) }
{
    let rest = behind(line, b"round ")?;
    behind_number(rest, round)
}

// Whether it is nothing, or begins with a space.
fn is_named(text: &[u8]) -> bool
    ensures yes { IsNamed text.now → result ≡ true }
    ensures only { result ≡ true → IsNamed text.now }
{
    match text {
        [] => true,
        [first, ..] => *first == b' ',
    }
}

/// Whether the line begins the block of that round. It may name the column that was read.
pub fn is_round_line(round: u64, line: &[u8]) -> bool
    ensures yes { IsRoundLine round line.now → result ≡ true }
    ensures only { result ≡ true → IsRoundLine round line.now }
{
    match behind_round(line, round) {
        Some(rest) => is_named(rest),
        None => false,
    }
}

// What stands behind the word of a number of parts.
fn behind_parts(line: &[u8]) -> Option<&[u8]>
    ensures { MatchOption result ((rest : List ℕ) → line.now ≢ codes "parts " ++ rest) (λ rest. line.now ≡ codes "parts " ++ rest.now) }
{
    behind(line, b"parts ")
}

/// How many parts a combined report is of, by its second line.
pub fn read_parts(line: &[u8]) -> Option<u64>
    ensures read { (parts : ℕ) → parts < 2 ^ 64 → parts_line parts ≡ line.now → result ≡ Some parts }
    ensures written { IfSome result (λ parts. parts_line parts ≡ line.now) }
{
    let number = behind_parts(line)?;
    read_count(number)
}

/// How a report ends.
#[derive(Clone, Copy, Debug, PartialEq, Eq)]
pub enum ReportEnd {
    Narrow,
    Rounds,
    Reads,
}

/// How the report ends whose last line this is.
pub fn read_end(line: &[u8]) -> Option<ReportEnd>
    ensures read { (end : ReportEnd) → end_line end ≡ line.now → result ≡ Some end }
    ensures written { IfSome result (λ end. end_line end ≡ line.now) }
{
    if line == b"end narrow".as_slice() {
        return Some(ReportEnd::Narrow);
    }
    if line == b"end rounds".as_slice() {
        return Some(ReportEnd::Rounds);
    }
    if line == b"end reads".as_slice() {
        return Some(ReportEnd::Reads);
    }
    None
}
