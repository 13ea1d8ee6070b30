//! The text of a block.

ghost use Rattle.std.specs.Prelude.{◌≡◌, ◌≤◌, ◌++◌, IfErr, IfOk, OnOk, codes, decimal, length};
ghost use Rattle.std.specs.List.{All};
ghost use Rattle.report_parts.specs.Combined.{HasEntryTexts, HasExtraText, entry_over};
ghost use Rattle.report_parts.specs.Course.{opening_text};
ghost use Rattle.report_parts.specs.Faults.{CanBeSaid, CanSayBefore, IsItemFault, IsTotalsFault};
ghost use Rattle.report_parts.specs.Reports.{answer_line, entries_over, entry_lines, extra_lines, item_lines};
ghost use Rattle.report_parts.specs.Rounds.{entries_in};
ghost use Rattle.report_text.specs.Answers.{CanBeWritten};
ghost use Rattle.report_text.specs.Lines.{parts_line, round_words};

use crate::combined::combine_item;
use crate::entry::Entry;
use crate::fault::{BlockFault, CombineFault};
use crate::part::Part;
use crate::texts::written_text_clip;
use daq_table::{TextBuf, written_number};
use query_model::ItemKind;
use report_text::{Answer, TextAnswer, written_extra, written_item, written_text_item};
use std::alloc::{AllocError, Global};

// What is said over all parts in a round, of the item of that kind.
fn item_over(
    alloc: Global,
    kind: ItemKind,
    round: usize,
    item: usize,
    parts: &[Part],
) -> Result<Entry, BlockFault>
    ensures texts { IfOk result HasEntryTexts }
    ensures entry { IfOk result (λ entry. entry ≡ entry_over kind (entries_in round item parts.now)) }
    ensures said { OnOk result (CanBeSaid kind (entries_in round item parts.now)) }
    ensures fault { IfErr result (λ why. IsItemFault why item kind (entries_in round item parts.now)) }
{
    match combine_item(alloc, kind, round, item, parts) {
        Ok(entry) => Ok(entry),
        Err(CombineFault::OtherForm) => Err(BlockFault::OtherItem(item)),
        Err(CombineFault::TooWide) => Err(BlockFault::TooWide(item)),
        Err(CombineFault::NoMemory) => Err(BlockFault::NoMemory),
    }
}

// What is said over all parts in a round, of each item.
pub(crate) fn entries_over(
    alloc: Global,
    round: usize,
    kinds: &[ItemKind],
    parts: &[Part],
) -> Result<Vec<Entry>, BlockFault>
    ensures entries { IfOk result (λ entries. entries.items ≡ entries_over round 0 kinds.now parts.now) }
    ensures count { IfOk result (λ entries. length kinds.now ≡ length entries.items) }
    ensures texts { IfOk result (λ entries. All HasEntryTexts entries.items) }
    ensures said { OnOk result (CanSayBefore (length kinds.now) round kinds.now parts.now) }
    ensures fault { IfErr result (λ why. IsTotalsFault why round kinds.now parts.now) }
{
    let mut entries = Vec::with_capacity(alloc, kinds.len())?;
    for kind in kinds {
        let entry = item_over(alloc, *kind, round, entries.len(), parts)?;
        entries.push(entry)?;
    }
    Ok(entries)
}

// Puts a line and its line feed behind the text.
pub(crate) fn push_line(text: &mut Vec<u8>, line: &[u8]) -> Result<(), AllocError>
    ensures { OnOk result (text.new.items ≡ text.old.items ++ (line.now ++ codes "\n")) }
{
    text.extend_from_slice(line)?;
    text.extend_from_slice(b"\n")
}

// Puts the line behind that of an item behind the text, if there is one.
fn push_extra(
    alloc: Global,
    text: &mut Vec<u8>,
    kind: ItemKind,
    number: u64,
    entry: &Entry,
) -> Result<(), AllocError>
    requires { HasExtraText entry.now.extra }
    ensures { OnOk result (text.new.items ≡ text.old.items ++ extra_lines kind number entry.now.extra entry.now.clip) }
{
    let Some(answer) = &entry.extra else {
        return Ok(());
    };
    match &entry.clip {
        Some(clip) => push_line(text, written_text_clip(alloc, number, clip)?.as_slice()),
        None => push_line(text, written_extra(kind, number, answer).bytes()),
    }
}

// Puts the line of an item behind the text: where its text lies, or else its answer.
pub(crate) fn push_answer(
    alloc: Global,
    text: &mut Vec<u8>,
    number: u64,
    answer: &Answer,
    told: &Option<TextAnswer>,
) -> Result<(), AllocError>
    requires { CanBeWritten answer.now }
    ensures { OnOk result (text.new.items ≡ text.old.items ++ (answer_line number answer.now told.now ++ codes "\n")) }
{
    match told {
        Some(told) => push_line(text, written_text_item(alloc, number, told)?.as_slice()),
        None => push_line(text, written_item(number, answer).bytes()),
    }
}

// Puts the lines of an item behind the text.
fn push_entry(
    alloc: Global,
    text: &mut Vec<u8>,
    kind: ItemKind,
    number: u64,
    entry: &Entry,
) -> Result<(), AllocError>
    requires { HasEntryTexts entry.now }
    ensures { OnOk result (text.new.items ≡ text.old.items ++ entry_lines kind number entry.now) }
{
    push_answer(alloc, text, number, &entry.answer, &entry.text)?;
    push_extra(alloc, text, kind, number, entry)
}

// Puts the lines of the items behind the text.
pub(crate) fn push_items(
    alloc: Global,
    text: &mut Vec<u8>,
    kinds: &[ItemKind],
    entries: &[Entry],
) -> Result<(), AllocError>
    requires texts { All HasEntryTexts entries.now }
    requires count { length kinds.now ≡ length entries.now }
    ensures { OnOk result (text.new.items ≡ text.old.items ++ item_lines 1 kinds.now entries.now) }
{
    for place in 0..entries.len() {
        push_entry(alloc, text, kinds[place], place as u64 + 1, &entries[place])?;
    }
    Ok(())
}

// The text of a count.
fn written_count(count: u64) -> TextBuf
    ensures text { result ≡ decimal count }
    ensures short { length result ≤ 100 }
{
    written_number(i128::from(count), 0)
}

// A round, before the column that was read in it.
fn written_round(round: u64) -> TextBuf
    ensures { result ≡ round_words round }
{
    let mut text = TextBuf::new();
    text.append(b"round ");
    text.append(written_count(round).bytes());
    text
}

// The line of a round.
pub(crate) fn written_start(alloc: Global, round: usize) -> Result<Vec<u8>, AllocError>
    ensures { IfOk result (λ text. text.items ≡ round_words round ++ codes "\n") }
{
    let mut text = Vec::new(alloc);
    push_line(&mut text, written_round(round as u64).bytes())?;
    Ok(text)
}

// The text of the block of a round that says this of items of these kinds.
fn written_entries(
    alloc: Global,
    round: usize,
    kinds: &[ItemKind],
    entries: &[Entry],
) -> Result<Vec<u8>, AllocError>
    requires texts { All HasEntryTexts entries.now }
    requires count { length kinds.now ≡ length entries.now }
    ensures { IfOk result (λ text. text.items ≡ (round_words round ++ codes "\n") ++ item_lines 1 kinds.now entries.now) }
{
    let mut text = written_start(alloc, round)?;
    push_items(alloc, &mut text, kinds, entries)?;
    Ok(text)
}

/// The text of the block of totals of a round: its line, and the lines of the items that are asked for.
pub fn written_block(
    alloc: Global,
    round: usize,
    kinds: &[ItemKind],
    parts: &[Part],
) -> Result<Vec<u8>, BlockFault>
    ensures text { IfOk result (λ text. text.items
        ≡ (round_words round ++ codes "\n") ++ item_lines 1 kinds.now (entries_over round 0 kinds.now parts.now)) }
    ensures fault { IfErr result (λ why. IsTotalsFault why round kinds.now parts.now) }
{
    let entries = entries_over(alloc, round, kinds, parts)?;
    Ok(written_entries(alloc, round, kinds, &entries)?)
}

// How many parts a combined report is of.
fn written_parts(count: u64) -> TextBuf
    ensures { result ≡ parts_line count }
{
    let mut text = TextBuf::new();
    text.append(b"parts ");
    text.append(written_count(count).bytes());
    text
}

/// The first lines of a combined report of so many parts: the query's, and how many parts there are.
pub fn written_opening(alloc: Global, query: &[u8], count: u64) -> Result<Vec<u8>, AllocError>
    ensures { IfOk result (λ text. text.items ≡ opening_text query.now count) }
{
    let mut text = Vec::new(alloc);
    push_line(&mut text, query)?;
    push_line(&mut text, written_parts(count).bytes())?;
    Ok(text)
}
