//! Averages beside which the sums and the numbers of their values are asked.

ghost use Rattle.std.specs.Prelude.{◌≡◌, IfOk, None, length, slice_index_or};
ghost use Rattle.std.specs.List.{All};
ghost use Rattle.report_text.specs.Answers.{CanBeWritten};
ghost use Rattle.report_text.specs.declared.answers.Answer.TheVariants.{Average};
ghost use Rattle.report_parts.specs.Beside.{answer_beside, entries_beside, entry_by, narrowed};
ghost use Rattle.report_parts.specs.Combined.{HasEntryTexts, average_of};

use crate::averages::{average_of, shown_average};
use crate::entry::{Entry, answer_at, copied_entry};
use crate::forms::are_alike;
use narrow_averages::average_beside;
use query_kinds::Beside;
use query_model::Bound;
use report_text::{Answer, ShownAverage};
use std::alloc::{AllocError, Global};
use text_extremes::copied_answer;

// The average, narrowed by its sum and its number of values where the sum is written alike.
fn narrowed(alike: bool, sum: &Bound, count: &Bound, shown: &ShownAverage) -> Answer
    requires { CanBeWritten (Average shown.now) }
    ensures answer { result ≡ narrowed alike sum.now count.now shown.now }
    ensures written { CanBeWritten result }
{
    let answer = Answer::Average(*shown);
    if alike {
        let bound = average_beside(sum, count, &average_of(&answer));
        Answer::Average(shown_average(shown.low.sum.decimals, &bound))
    } else {
        answer
    }
}

// The answer of an average beside its sum and its number of values; another answer stays.
pub(crate) fn answer_beside(sum: &Answer, count: &Answer, answer: &Answer) -> Answer
    requires { CanBeWritten answer.now }
    ensures answer { result ≡ answer_beside sum.now count.now answer.now }
    ensures written { CanBeWritten result }
{
    match (sum, count, answer) {
        (Answer::Value(told), Answer::Value(count), Answer::Average(shown)) => narrowed(
            are_alike(&[*answer, *sum]),
            &told.bound,
            &count.bound,
            shown,
        ),
        (Answer::Value(_), Answer::Value(_), Answer::Value(_)) => *answer,
        (Answer::Value(_), Answer::Average(_), _) => *answer,
        (Answer::Average(_), _, _) => *answer,
    }
}

// What is said of an item, where these stand beside it in its block.
fn entry_by(
    alloc: Global,
    block: &[Entry],
    beside: Option<Beside>,
    entry: &Entry,
) -> Result<Entry, AllocError>
    requires { HasEntryTexts entry.now }
    ensures entry { IfOk result (λ by. by ≡ entry_by block.now beside entry.now) }
    ensures written { IfOk result HasEntryTexts }
{
    match beside {
        None => copied_entry(alloc, entry),
        Some(beside) => {
            let sum = answer_at(beside.sum, block);
            let count = answer_at(beside.count, block);
            Ok(Entry {
                answer: answer_beside(&sum, &count, &entry.answer),
                extra: entry.extra,
                text: copied_answer(alloc, &entry.text)?,
                clip: copied_answer(alloc, &entry.clip)?,
            })
        }
    }
}

// What stands beside an item.
pub(crate) fn beside_at(besides: &[Option<Beside>], item: usize) -> Option<Beside>
    ensures { result ≡ slice_index_or besides.now item None }
{
    if item < besides.len() {
        besides[item]
    } else {
        None
    }
}

// The entries of a block, with each average narrowed by what stands beside it.
pub(crate) fn entries_beside(
    alloc: Global,
    besides: &[Option<Beside>],
    block: &[Entry],
) -> Result<Vec<Entry>, AllocError>
    requires { All HasEntryTexts block.now }
    ensures entries { IfOk result (λ entries. entries.items ≡ entries_beside besides.now block.now) }
    ensures texts { IfOk result (λ entries. All HasEntryTexts entries.items) }
    ensures count { IfOk result (λ entries. length block.now ≡ length entries.items) }
{
    let mut entries = Vec::with_capacity(alloc, block.len())?;
    for entry in block {
        let beside = beside_at(besides, entries.len());
        entries.push(entry_by(alloc, block, beside, entry)?)?;
    }
    Ok(entries)
}
