//! What a block says of an item.

ghost use Rattle.std.specs.Prelude.{◌≡◌, IfOk};
ghost use Rattle.report_parts.specs.Entries.{answers_of, entry_at, extras_of, have_extras, no_entry, or_no_answer};

use query_model::{Bound, Nullity};
use report_text::{Answer, Form, ShownBound, TextAnswer};
use std::alloc::{AllocError, Global};
use text_extremes::copied_answer;

/// The answer of an item, and the one that the line behind it tells, if there is one: the clipped bound, or the exact ends of an average.
/// Where it is the least or the greatest text it tells where that lies, and no other answer; so does the line behind of the clipped one.
#[derive(Drop, Debug)]
pub struct Entry {
    pub answer: Answer,
    pub extra: Option<Answer>,
    pub text: Option<TextAnswer>,
    pub clip: Option<TextAnswer>,
}

pub(crate) const NO_ANSWER: Answer = Answer::Value(ShownBound {
    form: Form::Decimals(0),
    bound: Bound {
        null: Nullity::Always,
        lo: 0,
        hi: 0,
    },
});

// An entry that tells nothing.
pub(crate) fn no_entry() -> Entry
    ensures { result ≡ no_entry }
{
    Entry {
        answer: NO_ANSWER,
        extra: None,
        text: None,
        clip: None,
    }
}

// A copy of an entry.
pub(crate) fn copied_entry(alloc: Global, entry: &Entry) -> Result<Entry, AllocError>
    ensures { IfOk result (λ copy. copy ≡ entry.now) }
{
    Ok(Entry {
        answer: entry.answer,
        extra: entry.extra,
        text: copied_answer(alloc, &entry.text)?,
        clip: copied_answer(alloc, &entry.clip)?,
    })
}

// The answer that a block tells of an item.
pub(crate) fn answer_at(item: usize, block: &[Entry]) -> Answer
    ensures { result ≡ (entry_at item block.now).answer }
{
    if item < block.len() {
        block[item].answer
    } else {
        NO_ANSWER
    }
}

// The answers of entries.
pub(crate) fn answers_of(alloc: Global, entries: &[Entry]) -> Result<Vec<Answer>, AllocError>
    ensures { IfOk result (λ answers. answers.items ≡ answers_of entries.now) }
{
    let mut answers = Vec::with_capacity(alloc, entries.len())?;
    for entry in entries {
        answers.push(entry.answer)?;
    }
    Ok(answers)
}

// Whether each tells its answer in a line behind too.
pub(crate) fn have_extras(entries: &[Entry]) -> bool
    ensures { result ≡ have_extras entries.now }
{
    for entry in entries {
        if entry.extra.is_none() {
            return false;
        }
    }
    true
}

fn or_no_answer(extra: Option<Answer>) -> Answer
    ensures { result ≡ or_no_answer extra }
{
    match extra {
        Some(answer) => answer,
        None => NO_ANSWER,
    }
}

// What these lines tell.
pub(crate) fn extras_of(alloc: Global, entries: &[Entry]) -> Result<Vec<Answer>, AllocError>
    ensures { IfOk result (λ extras. extras.items ≡ extras_of entries.now) }
{
    let mut extras = Vec::with_capacity(alloc, entries.len())?;
    for entry in entries {
        extras.push(or_no_answer(entry.extra))?;
    }
    Ok(extras)
}
