//! The lines of first rows, read back: how many there are, and of each its number, its standing, and where its sort key lies.

ghost use Rattle.std.specs.Prelude.{◌≡◌, ◌≤◌, ◌++◌, ℕ, List, Some, IfOk, IfSome, OnOk, codes, false, length};
ghost use Rattle.report_text.specs.Keys.{IsShownSpan};
ghost use Rattle.report_text.specs.Parted.{IsParted};
ghost use Rattle.report_text.specs.Quotes.{LacksOutside};
ghost use Rattle.report_text.specs.Rows.{IsRowName, IsRowTag, IsShownRow, IsTopLine};
ghost use Rattle.report_text.specs.Rows.{counts_text, name_text, row_line, skip_line, standing_word, top_line};
ghost use Rattle.report_text.specs.declared.keys.ShownSpan.{ShownSpan};
ghost use Rattle.report_text.specs.declared.rows.RowLine.{RowLine};
ghost use Rattle.report_text.specs.declared.rows.RowName.{RowName};
ghost use Rattle.report_text.specs.declared.rows.TopLine.{TopLine};

use crate::counts::{read_count, written_count};
use crate::intervals::{append_interval, read_interval};
use crate::keys::ShownSpan;
use crate::layouts::{before, behind};
use crate::quotes::{around_last, around_outside};
use daq_table::{Text, TextBuf};
use std::alloc::{AllocError, Global};

/// The line before the rows: how many are asked for, how many are among the first for certain, and how many others perhaps.
#[derive(Clone, Copy, Debug, PartialEq, Eq)]
pub struct TopLine {
    pub limit: u64,
    pub certain: u64,
    pub possible: u64,
}

/// The number of a row in its table, counted from 1; in a report over several parts behind the tag of its part.
#[derive(Drop, Debug)]
pub struct RowName {
    pub tag: Option<Text>,
    pub number: u64,
}

/// The line of a row: whether it is among the first for certain or perhaps, and where its sort key lies.
#[derive(Drop, Debug)]
pub struct RowLine {
    pub name: RowName,
    pub certain: bool,
    pub key: ShownSpan,
}

/// The line of the numbers of rows.
pub fn written_top(top: TopLine) -> TextBuf
    ensures text { result ≡ top_line top }
    ensures short { length result ≤ 330 }
{
    let mut text = TextBuf::new();
    text.append(b"top ");
    text.append(written_count(top.limit).bytes());
    text.append(b" certain ");
    text.append(written_count(top.certain).bytes());
    text.append(b" possible ");
    text.append(written_count(top.possible).bytes());
    text
}

// The line before no rows: of so many that are asked for none is judged.
pub(crate) fn written_skip(limit: u64) -> TextBuf
    ensures text { result ≡ skip_line limit }
    ensures short { length result ≤ 120 }
{
    let mut text = TextBuf::new();
    text.append(b"top ");
    text.append(written_count(limit).bytes());
    text.append(b" certain 0");
    text
}

// The numbers of rows that stand behind their word.
fn read_counts(text: &[u8]) -> Option<TopLine>
    ensures { (top : TopLine) → IsTopLine top → counts_text top ≡ text.now → result ≡ Some top }
{
    let (limit, rest) = around_outside(text, b" certain ")?;
    let (certain, possible) = around_outside(rest, b" possible ")?;
    Some(TopLine {
        limit: read_count(limit)?,
        certain: read_count(certain)?,
        possible: read_count(possible)?,
    })
}

/// How many rows there are, by the line before them: it is read back as it was written, and what is read is written as it stood.
pub fn read_top(line: &[u8]) -> Option<TopLine>
    ensures read { (top : TopLine) → IsTopLine top → top_line top ≡ line.now → result ≡ Some top }
    ensures written { IfSome result (λ top. IsTopLine top × (top_line top ≡ line.now)) }
{
    let top = read_counts(behind(line, b"top ")?)?;
    if written_top(top).bytes() == line {
        Some(top)
    } else {
        None
    }
}

// The name, if it has a number.
fn named(tag: Option<Text>, number: Option<u64>) -> Option<RowName>
    requires { IsRowTag tag }
    ensures name { IfSome result IsRowName }
    ensures is { (count : ℕ) → number ≡ Some count → result ≡ Some (record { tag = tag; number = count }) }
{
    match number {
        Some(number) => Some(RowName { tag, number }),
        None => None,
    }
}

// The row that this names. It may read it where a report would write it in another way.
fn read_name(alloc: Global, text: &[u8]) -> Result<Option<RowName>, AllocError>
    ensures name { IfOk result (λ read. IfSome read IsRowName) }
    ensures read { IfOk result (λ read. (name : RowName) → IsRowName name → name_text name ≡ text.now → read ≡ Some name) }
{
    match around_last(text, b" ") {
        None => Ok(named(None, read_count(text))),
        Some(([], _)) => Ok(None),
        Some((tag, number)) => {
            let tag = Text::new(Vec::from_slice(alloc, tag)?);
            Ok(named(Some(tag), read_count(number)))
        }
    }
}

// What stands before the last word of that standing, and behind it.
fn around_word(text: &[u8], certain: bool) -> Option<(&[u8], &[u8])>
    ensures { (front key : List ℕ) → LacksOutside (standing_word certain) false key → front ++ (standing_word certain ++ key) ≡ text.now
        → IsParted front key result }
{
    if certain {
        around_last(text, b"certain ")
    } else {
        around_last(text, b"possible ")
    }
}

// What names the row of a line with that standing, and where its key lies.
fn around_standing(line: &[u8], certain: bool) -> Option<(&[u8], &[u8])>
    ensures { (name key : List ℕ) → LacksOutside (standing_word certain) false key
        → codes "row " ++ (name ++ (codes " " ++ (standing_word certain ++ key))) ≡ line.now → IsParted name key result }
{
    let rest = behind(line, b"row ")?;
    let (front, key) = around_word(rest, certain)?;
    let name = before(front, b" ")?;
    Some((name, key))
}

// The row with this name and key.
fn row_of(name: Option<RowName>, certain: bool, key: Option<ShownSpan>) -> Option<RowLine>
    requires name { IfSome name IsRowName }
    requires key { IfSome key IsShownSpan }
    ensures shown { IfSome result IsShownRow }
    ensures is { (named : RowName) (lies : ShownSpan) → name ≡ Some named → key ≡ Some lies
        → result ≡ Some (record { name = named; certain = certain; key = lies }) }
    ensures certain { IfSome result (λ row. row.certain ≡ certain) }
{
    match (name, key) {
        (Some(name), Some(key)) => Some(RowLine { name, certain, key }),
        _ => None,
    }
}

// The row of a line with that standing. It may read it where a report would write it in another way.
fn read_loosely(alloc: Global, line: &[u8], certain: bool) -> Result<Option<RowLine>, AllocError>
    ensures shown { IfOk result (λ read. IfSome read IsShownRow) }
    ensures certain { IfOk result (λ read. IfSome read (λ row. row.certain ≡ certain)) }
    ensures read { IfOk result (λ read. (row : RowLine) → IsShownRow row → row.certain ≡ certain → row_line row ≡ line.now
        → read ≡ Some row) }
{
    match around_standing(line, certain) {
        Some((name, key)) => {
            let name = read_name(alloc, name)?;
            Ok(row_of(name, certain, read_interval(alloc, key)?))
        }
        None => Ok(None),
    }
}

// Appends the name of a row.
fn append_name(name: &RowName, text: &mut Vec<u8>) -> Result<(), AllocError>
    ensures { OnOk result (text.new.items ≡ text.old.items ++ name_text name.now) }
{
    if let Some(tag) = &name.tag {
        text.extend_from_slice(tag.as_slice())?;
        text.extend_from_slice(b" ")?;
    }
    text.extend_from_slice(written_count(name.number).bytes())?;
    Ok(())
}

// The word of a standing.
fn word_of(certain: bool) -> &'static [u8]
    ensures { result.now ≡ standing_word certain }
{
    if certain { b"certain " } else { b"possible " }
}

/// The line of a row.
pub fn written_row(alloc: Global, row: &RowLine) -> Result<Text, AllocError>
    requires { IsShownRow row.now }
    ensures { IfOk result (λ text. text ≡ row_line row.now) }
{
    let mut text = Vec::new(alloc);
    text.extend_from_slice(b"row ")?;
    append_name(&row.name, &mut text)?;
    text.extend_from_slice(b" ")?;
    text.extend_from_slice(word_of(row.certain))?;
    append_interval(&row.key, &mut text)?;
    Ok(Text::new(text))
}

// The row of a line with that standing.
fn read_standing(alloc: Global, line: &[u8], certain: bool) -> Result<Option<RowLine>, AllocError>
    ensures read { IfOk result (λ read. (row : RowLine) → IsShownRow row → row.certain ≡ certain → row_line row ≡ line.now
        → read ≡ Some row) }
    ensures certain { IfOk result (λ read. IfSome read (λ row. row.certain ≡ certain)) }
    ensures written { IfOk result (λ read. IfSome read (λ row. IsShownRow row × (row_line row ≡ line.now))) }
{
    match read_loosely(alloc, line, certain)? {
        Some(row) => {
            let text = written_row(alloc, &row)?;
            if text.as_slice() == line {
                Ok(Some(row))
            } else {
                Ok(None)
            }
        }
        None => Ok(None),
    }
}

/// What the line of a row says: it is read back as it was written, and what is read is written as it stood.
pub fn read_row(alloc: Global, line: &[u8]) -> Result<Option<RowLine>, AllocError>
    ensures read { IfOk result (λ read. (row : RowLine) → IsShownRow row → row_line row ≡ line.now → read ≡ Some row) }
    ensures written { IfOk result (λ read. IfSome read (λ row. IsShownRow row × (row_line row ≡ line.now))) }
{
    match read_standing(alloc, line, true)? {
        Some(row) => Ok(Some(row)),
        None => read_standing(alloc, line, false),
    }
}
