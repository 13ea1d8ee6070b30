//! What a line says of an answer over all parts.

ghost use Rattle.std.specs.Prelude.{◌≡◌, ◌≢◌, ◌≤◌, Err, IfOk, None, OnOk, Some};
ghost use Rattle.report_parts.specs.Combined.{AreAlikeEntries, FitEntries, FitsExtra, FitsOver, HasEntryTexts};
ghost use Rattle.report_parts.specs.Combined.{answer_over, decimals_in, entry_over, extra_over, shared_form};
ghost use Rattle.report_text.specs.Answers.{CanBeWritten};
ghost use Rattle.report_parts.specs.Faults.{CanBeSaid};
ghost use Rattle.report_parts.specs.Rounds.{entries_in};

use crate::averages::{average_over, exact_over};
use crate::entry::{Entry, answers_of, extras_of, have_extras};
use crate::fault::CombineFault;
use crate::forms::{are_alike, are_all_null};
use crate::part::Part;
use crate::rounds::entries_in;
use crate::texts::{clip_over, tell_clip, tell_text, text_over};
use crate::values::combine_values;
use query_model::ItemKind;
use report_text::{Answer, TextAnswer};
use std::alloc::Global;

// The answer over all parts, by its kind.
fn answer_over(alloc: Global, kind: ItemKind, answers: &[Answer]) -> Result<Answer, CombineFault>
    requires { decimals_in (shared_form answers.now) ≤ 18 }
    ensures written { IfOk result CanBeWritten }
    ensures combined { IfOk result (λ answer. answer ≡ answer_over kind answers.now) }
    ensures fit { OnOk result (FitsOver kind answers.now) }
    ensures wide { result ≡ Err CombineFault.TooWide → ¬ FitsOver kind answers.now }
    ensures alike { result ≢ Err CombineFault.OtherForm }
{
    match kind {
        ItemKind::Count => combine_values(alloc, ItemKind::Count, answers),
        ItemKind::Sum => combine_values(alloc, ItemKind::Sum, answers),
        ItemKind::Min => combine_values(alloc, ItemKind::Min, answers),
        ItemKind::Max => combine_values(alloc, ItemKind::Max, answers),
        ItemKind::Avg => average_over(alloc, answers),
    }
}

// What the lines behind tell over all parts, by the kind of the item.
fn extra_over(alloc: Global, kind: ItemKind, answers: &[Answer]) -> Result<Answer, CombineFault>
    requires { decimals_in (shared_form answers.now) ≤ 18 }
    ensures written { IfOk result CanBeWritten }
    ensures combined { IfOk result (λ answer. answer ≡ extra_over kind answers.now) }
    ensures fit { OnOk result (FitsExtra kind answers.now) }
    ensures wide { result ≡ Err CombineFault.TooWide → ¬ FitsExtra kind answers.now }
    ensures alike { result ≢ Err CombineFault.OtherForm }
{
    match kind {
        ItemKind::Count | ItemKind::Sum | ItemKind::Min | ItemKind::Max => {
            combine_values(alloc, kind, answers)
        }
        ItemKind::Avg => Ok(exact_over(alloc, answers)?),
    }
}

// The answer over all parts and what the lines behind tell, where what each part tells is alike.
fn both_over(
    alloc: Global,
    kind: ItemKind,
    answers: &[Answer],
    extras: &[Answer],
    text: Option<TextAnswer>,
    clip: Option<TextAnswer>,
) -> Result<Entry, CombineFault>
    requires answers { decimals_in (shared_form answers.now) ≤ 18 }
    requires extras { decimals_in (shared_form extras.now) ≤ 18 }
    ensures written { IfOk result HasEntryTexts }
    ensures answer { IfOk result (λ entry. entry.answer ≡ answer_over kind answers.now) }
    ensures extra { IfOk result (λ entry. entry.extra ≡ Some (extra_over kind extras.now)) }
    ensures text { IfOk result (λ entry. entry.text ≡ text) }
    ensures clip { IfOk result (λ entry. entry.clip ≡ clip) }
    ensures fit { OnOk result (FitsOver kind answers.now × FitsExtra kind extras.now) }
    ensures wide { result ≡ Err CombineFault.TooWide → ¬ (FitsOver kind answers.now × FitsExtra kind extras.now) }
    ensures alike { result ≢ Err CombineFault.OtherForm }
{
    let answer = answer_over(alloc, kind, answers)?;
    let extra = extra_over(alloc, kind, extras)?;
    Ok(Entry {
        answer,
        extra: Some(extra),
        text,
        clip,
    })
}

// The entry of an answer alone.
fn alone(
    alloc: Global,
    kind: ItemKind,
    answers: &[Answer],
    text: Option<TextAnswer>,
) -> Result<Entry, CombineFault>
    requires { decimals_in (shared_form answers.now) ≤ 18 }
    ensures written { IfOk result HasEntryTexts }
    ensures answer { IfOk result (λ entry. entry
        ≡ record { answer = answer_over kind answers.now; extra = None; text = text; clip = None }) }
    ensures fit { OnOk result (FitsOver kind answers.now) }
    ensures wide { result ≡ Err CombineFault.TooWide → ¬ FitsOver kind answers.now }
    ensures alike { result ≢ Err CombineFault.OtherForm }
{
    Ok(Entry {
        answer: answer_over(alloc, kind, answers)?,
        extra: None,
        text,
        clip: None,
    })
}

// What the entries of all parts say of the item over all.
fn entry_over(alloc: Global, kind: ItemKind, entries: &[Entry]) -> Result<Entry, CombineFault>
    ensures written { IfOk result HasEntryTexts }
    ensures said { OnOk result (CanBeSaid kind entries.now) }
    ensures combined { IfOk result (λ entry. entry ≡ entry_over kind entries.now) }
    ensures other { result ≡ Err CombineFault.OtherForm → ¬ AreAlikeEntries entries.now }
    ensures wide { result ≡ Err CombineFault.TooWide → AreAlikeEntries entries.now × ¬ FitEntries kind entries.now }
{
    let answers = answers_of(alloc, entries)?;
    if !are_alike(&answers) || tell_text(entries) && !are_all_null(&answers) {
        return Err(CombineFault::OtherForm);
    }
    let text = text_over(alloc, kind, entries)?;
    if !have_extras(entries) {
        return alone(alloc, kind, &answers, text);
    }
    let extras = extras_of(alloc, entries)?;
    if !are_alike(&extras) || tell_clip(entries) && !are_all_null(&extras) {
        return Err(CombineFault::OtherForm);
    }
    let clip = clip_over(alloc, kind, entries)?;
    both_over(alloc, kind, &answers, &extras, text, clip)
}

/// What is said of an item over all parts, by what they say in that round: its answer, and what the line behind tells, where each part has
/// such a line.
pub fn combine_item(
    alloc: Global,
    kind: ItemKind,
    round: usize,
    item: usize,
    parts: &[Part],
) -> Result<Entry, CombineFault>
    ensures written { IfOk result HasEntryTexts }
    ensures said { OnOk result (CanBeSaid kind (entries_in round item parts.now)) }
    ensures combined { IfOk result (λ entry. entry ≡ entry_over kind (entries_in round item parts.now)) }
    ensures other { result ≡ Err CombineFault.OtherForm → ¬ AreAlikeEntries (entries_in round item parts.now) }
    ensures wide { result ≡ Err CombineFault.TooWide
        → AreAlikeEntries (entries_in round item parts.now) × ¬ FitEntries kind (entries_in round item parts.now) }
{
    let entries = entries_in(alloc, round, item, parts)?;
    entry_over(alloc, kind, &entries)
}
