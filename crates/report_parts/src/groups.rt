//! What is said over all parts of groups, and its lines.

ghost use Rattle.std.specs.Prelude.{◌≡◌, ◌<◌, ◌++◌, IfErr, IfOk, OnOk, codes};
ghost use Rattle.std.specs.List.{All};
ghost use Rattle.part_groups.specs.Cells.{slices};
ghost use Rattle.part_groups.specs.Combined.{IsShown};
ghost use Rattle.part_groups.specs.Whole.{AreKeyed, CanBeCombined, groups_over};
ghost use Rattle.report_text.specs.Answers.{CanBeWritten};
ghost use Rattle.report_text.specs.Groups.{group_line};
ghost use Rattle.report_parts.specs.Faults.{IsGroupsFault};
ghost use Rattle.report_parts.specs.Reports.{answer_lines, group_lines};
ghost use Rattle.report_parts.specs.Rounds.{all_groups_in};

use crate::blocks::{push_answer, push_line};
use crate::fault::BlockFault;
use crate::part::Part;
use part_groups::{Group, combine, combined_can_be, combined_is_whole, faults_are_whole, text_at};
use query_model::ItemKind;
use report_text::{Answer, TextAnswer, written_group};
use std::alloc::{AllocError, Global};

// What each part says of groups in that round.
fn all_groups_in(alloc: Global, round: usize, parts: &[Part]) -> Result<Vec<&[Group]>, AllocError>
    ensures { IfOk result (λ groups. slices groups.items ≡ all_groups_in round parts.now) }
{
    let mut groups = Vec::with_capacity(alloc, parts.len())?;
    for part in parts {
        groups.push(part.groups_for(round))?;
    }
    Ok(groups)
}

// What is said over all parts in a round, of groups of so many columns.
pub(crate) fn groups_over(
    alloc: Global,
    round: usize,
    columns: usize,
    kinds: &[ItemKind],
    parts: &[Part],
) -> Result<Vec<Group>, BlockFault>
    requires some { 0 < columns }
    requires keyed { AreKeyed columns (all_groups_in round parts.now) }
    ensures groups { IfOk result (λ groups. groups.items ≡ groups_over columns kinds.now (all_groups_in round parts.now)) }
    ensures shown { IfOk result (λ groups. All IsShown groups.items) }
    ensures can { OnOk result (CanBeCombined columns kinds.now (all_groups_in round parts.now)) }
    ensures fault { IfErr result (λ why. IsGroupsFault why columns kinds.now (all_groups_in round parts.now)) }
{
    combined_is_whole();
    combined_can_be();
    faults_are_whole();
    let groups = all_groups_in(alloc, round, parts)?;
    Ok(combine(alloc, columns, kinds, &groups)?)
}

// Puts the lines of the items behind the text.
fn push_answers(
    alloc: Global,
    text: &mut Vec<u8>,
    texts: &[Option<TextAnswer>],
    answers: &[Answer],
) -> Result<(), AllocError>
    requires { All CanBeWritten answers.now }
    ensures { OnOk result (text.new.items ≡ text.old.items ++ answer_lines 0 texts.now answers.now) }
{
    for place in 0..answers.len() {
        let told = text_at(alloc, place, texts)?;
        push_answer(alloc, text, place as u64 + 1, &answers[place], &told)?;
    }
    Ok(())
}

// Puts the line of a group and those of its items behind the text.
fn push_group(alloc: Global, text: &mut Vec<u8>, group: &Group) -> Result<(), AllocError>
    requires { IsShown group.now }
    ensures { OnOk result (text.new.items ≡ text.old.items
        ++ ((group_line group.now.line ++ codes "\n") ++ answer_lines 0 group.now.texts group.now.answers)) }
{
    push_line(text, written_group(alloc, &group.line)?.as_slice())?;
    push_answers(
        alloc,
        text,
        group.texts.as_slice(),
        group.answers.as_slice(),
    )
}

// Puts the lines of groups behind the text.
pub(crate) fn push_groups(
    alloc: Global,
    text: &mut Vec<u8>,
    groups: &[Group],
) -> Result<(), AllocError>
    requires { All IsShown groups.now }
    ensures { OnOk result (text.new.items ≡ text.old.items ++ group_lines groups.now) }
{
    for group in groups {
        push_group(alloc, text, group)?;
    }
    Ok(())
}
