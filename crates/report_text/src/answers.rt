//! What a line says of an answer of any kind, read back.

ghost use Rattle.std.specs.Prelude.{◌≡◌, ◌≤◌, Some, IfSome, length, true};
ghost use Rattle.report_text.specs.Answers.{CanBeWritten, IsAnswerOf, IsRowCount, answer_text};
ghost use Rattle.report_text.specs.Averages.{IsShownAverage, average_text};
ghost use Rattle.report_text.specs.Bounds.{IsShown, shown_text};
ghost use Rattle.report_text.specs.Forms.{IsOfNumbers};
ghost use Rattle.report_text.specs.declared.answers.Answer.{Answer};
ghost use Rattle.report_text.specs.declared.answers.Answer.TheVariants.{Average, Value};
ghost use Rattle.report_text.specs.declared.averages.ShownAverage.{ShownAverage};
ghost use Rattle.report_text.specs.declared.bounds.ShownBound.{ShownBound};
ghost use Rattle.report_text.specs.declared.forms.Form.TheVariants.{Decimals};

use crate::averages::{ShownAverage, read_average, written_average};
use crate::bounds::{ShownBound, read_bound, written_bound};
use crate::forms::{Form, is_of_numbers};
use daq_table::TextBuf;
use query_model::{ItemKind, Nullity};

/// Where an answer lies: of an average by sums over numbers of rows, of any other by numbers.
#[derive(Clone, Copy, Debug, PartialEq, Eq)]
pub enum Answer {
    Value(ShownBound),
    Average(ShownAverage),
}

/// The text of an answer, as a line shows it.
pub fn written_answer(answer: &Answer) -> TextBuf
    requires { CanBeWritten answer.now }
    ensures text { result ≡ answer_text answer.now }
    ensures short { length result ≤ 414 }
{
    match answer {
        Answer::Value(shown) => written_bound(shown),
        Answer::Average(shown) => written_average(shown),
    }
}

// The answer of an extreme.
fn read_value(text: &[u8]) -> Option<Answer>
    ensures read { (shown : ShownBound) → IsShown shown → shown_text shown ≡ text.now → result ≡ Some (Value shown) }
    ensures written { IfSome result (λ answer. IsAnswerOf ItemKind.Min answer × (answer_text answer ≡ text.now)) }
{
    match read_bound(text) {
        Some(shown) => Some(Answer::Value(shown)),
        None => None,
    }
}

// Whether it is that of numbers without decimals.
fn is_whole(form: Form) -> bool
    ensures yes { form ≡ Decimals 0 → result ≡ true }
    ensures only { result ≡ true → form ≡ Decimals 0 }
{
    match form {
        Form::Decimals(decimals) => decimals == 0,
        Form::Date => false,
    }
}

// Whether a bound is one of a number of rows.
fn is_row_count(shown: &ShownBound) -> bool
    ensures yes { IsRowCount shown.now → result ≡ true }
    ensures only { result ≡ true → IsRowCount shown.now }
{
    match shown.bound.null {
        Nullity::Never => is_whole(shown.form),
        Nullity::Possibly | Nullity::Always => false,
    }
}

// The answer of a number of rows.
fn read_row_count(text: &[u8]) -> Option<Answer>
    ensures read { (shown : ShownBound) → IsShown shown → IsRowCount shown → shown_text shown ≡ text.now → result ≡ Some (Value shown) }
    ensures written { IfSome result (λ answer. IsAnswerOf ItemKind.Count answer × (answer_text answer ≡ text.now)) }
{
    let shown = read_bound(text)?;
    if is_row_count(&shown) {
        Some(Answer::Value(shown))
    } else {
        None
    }
}

// The answer of a sum.
fn read_sum(text: &[u8]) -> Option<Answer>
    ensures read { (shown : ShownBound) → IsShown shown → IsOfNumbers shown.form → shown_text shown ≡ text.now
        → result ≡ Some (Value shown) }
    ensures written { IfSome result (λ answer. IsAnswerOf ItemKind.Sum answer × (answer_text answer ≡ text.now)) }
{
    let shown = read_bound(text)?;
    if is_of_numbers(shown.form) {
        Some(Answer::Value(shown))
    } else {
        None
    }
}

// The answer of an average.
fn read_mean(text: &[u8]) -> Option<Answer>
    ensures read { (shown : ShownAverage) → IsShownAverage shown → average_text shown ≡ text.now → result ≡ Some (Average shown) }
    ensures written { IfSome result (λ answer. IsAnswerOf ItemKind.Avg answer × (answer_text answer ≡ text.now)) }
{
    match read_average(text) {
        Some(shown) => Some(Answer::Average(shown)),
        None => None,
    }
}

/// What the text says of an answer of that kind: it is read back as it was written, and what is read is written as it stood.
pub fn read_answer(kind: ItemKind, text: &[u8]) -> Option<Answer>
    ensures read { (answer : Answer) → IsAnswerOf kind answer → answer_text answer ≡ text.now → result ≡ Some answer }
    ensures written { IfSome result (λ answer. IsAnswerOf kind answer × (answer_text answer ≡ text.now)) }
{
    match kind {
        ItemKind::Count => read_row_count(text),
        ItemKind::Sum => read_sum(text),
        ItemKind::Min | ItemKind::Max => read_value(text),
        ItemKind::Avg => read_mean(text),
    }
}
