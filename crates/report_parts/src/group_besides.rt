//! Groups whose averages are narrowed by the sums and the numbers of their values that stand beside them.

ghost use Rattle.std.specs.Prelude.{◌≡◌, IfOk, is_some};
ghost use Rattle.std.specs.List.{All, list_any};
ghost use Rattle.part_groups.specs.Combined.{IsShown};
ghost use Rattle.report_text.specs.Answers.{CanBeWritten};
ghost use Rattle.report_parts.specs.Beside.{answer_by, answers_by, group_beside, groups_beside, told_at};

use crate::beside::{answer_beside, beside_at};
use crate::entry::NO_ANSWER;
use daq_table::Listed;
use part_groups::Group;
use query_kinds::Beside;
use report_text::Answer;
use std::alloc::{AllocError, Global};

// What a group says of an item.
fn told_at(item: usize, answers: &[Answer]) -> Answer
    ensures { result ≡ told_at item answers.now }
{
    if item < answers.len() {
        answers[item]
    } else {
        NO_ANSWER
    }
}

// The answer of an item, where these stand beside it in its group.
fn answer_by(answers: &[Answer], beside: Option<Beside>, answer: &Answer) -> Answer
    requires { CanBeWritten answer.now }
    ensures answer { result ≡ answer_by answers.now beside answer.now }
    ensures written { CanBeWritten result }
{
    match beside {
        None => *answer,
        Some(beside) => {
            let sum = told_at(beside.sum, answers);
            let count = told_at(beside.count, answers);
            answer_beside(&sum, &count, answer)
        }
    }
}

// The answers of a group, with each average narrowed.
fn answers_beside(
    alloc: Global,
    besides: &[Option<Beside>],
    answers: &[Answer],
) -> Result<Vec<Answer>, AllocError>
    requires { All CanBeWritten answers.now }
    ensures answers { IfOk result (λ narrowed. narrowed.items ≡ answers_by answers.now besides.now 0 answers.now) }
    ensures written { IfOk result (λ narrowed. All CanBeWritten narrowed.items) }
{
    let mut narrowed = Vec::with_capacity(alloc, answers.len())?;
    for answer in answers {
        let beside = beside_at(besides, narrowed.len());
        narrowed.push(answer_by(answers, beside, answer))?;
    }
    Ok(narrowed)
}

// The group with each average narrowed.
fn group_beside(
    alloc: Global,
    besides: &[Option<Beside>],
    group: Group,
) -> Result<Group, AllocError>
    requires { IsShown group }
    ensures group { IfOk result (λ narrowed. narrowed ≡ group_beside besides.now group) }
    ensures shown { IfOk result IsShown }
{
    let answers = answers_beside(alloc, besides, group.answers.as_slice())?;
    Ok(Group {
        line: group.line,
        answers: Listed::new(answers),
        texts: group.texts,
    })
}

// Whether something stands beside an item.
fn stands_beside(besides: &[Option<Beside>]) -> bool
    ensures { result ≡ list_any is_some besides.now }
{
    for beside in besides {
        if beside.is_some() {
            return true;
        }
    }
    false
}

// Groups with each average narrowed by what stands beside it.
#[tactic(auto, using(crate::proofs::GroupBesides::none_beside))]
pub(crate) fn groups_beside(
    alloc: Global,
    besides: &[Option<Beside>],
    groups: Vec<Group>,
) -> Result<Vec<Group>, AllocError>
    requires { All IsShown groups.items }
    ensures groups { IfOk result (λ narrowed. narrowed.items ≡ groups_beside besides.now groups.items) }
    ensures shown { IfOk result (λ narrowed. All IsShown narrowed.items) }
{
    if !stands_beside(besides) {
        return Ok(groups);
    }
    let mut narrowed = Vec::with_capacity(alloc, groups.len())?;
    for group in groups {
        narrowed.push(group_beside(alloc, besides, group)?)?;
    }
    Ok(narrowed)
}
