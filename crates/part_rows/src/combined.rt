//! The block of first rows over all parts.

ghost use Rattle.std.specs.Prelude.{◌≡◌, ◌++◌, IfErr, IfOk, OnOk, map};
ghost use Rattle.report_text.specs.RowBlocks.{IsFirstLine};
ghost use Rattle.report_text.specs.Rows.{IsTopLine};
ghost use Rattle.part_rows.specs.Combined.{block_of, combined, is_skipped, joined_tag, line_by, line_if};
ghost use Rattle.part_rows.specs.Combined.{lines_of, listing, part_listings, row_of, skipped_block, told_by, top_of};
ghost use Rattle.part_rows.specs.Faults.{AreAlike, AreClear, IsRowsFault, IsTagFault, is_clear};

use crate::fault::RowsFault;
use crate::forms::are_alike;
use crate::listed::{ListedRow, ListedRows, listed_rows, rows_of, tag_bytes};
use crate::row::PartRow;
use crate::standings::judge;
use daq_table::Text;
use plane_schedule::FEW_ROWS;
use query_kinds::FirstRows;
use query_model::Standing;
use report_text::{RowLine, RowName, RowsBlock, RowsTop, ShownEnds, ShownSpan, TextEnds, TopLine};
use std::alloc::{AllocError, Global};
use text_extremes::copied;

// Whether each of its bytes comes behind the space.
fn is_clear(tag: &[u8]) -> bool
    ensures { result ≡ is_clear tag.now }
{
    for byte in tag {
        if *byte <= b' ' {
            return false;
        }
    }
    true
}

// That the tags of all parts are clear.
fn check_tags(parts: &[ListedRows<'_>]) -> Result<(), RowsFault>
    ensures clear { IfOk result (λ _. AreClear (part_listings parts.now)) }
    ensures fault { IfErr result (λ why. IsTagFault why (part_listings parts.now)) }
{
    for (place, part) in parts.iter().enumerate() {
        if !is_clear(part.tag) {
            return Err(RowsFault::UnclearTag(place));
        }
    }
    Ok(())
}

// Whether some part lists too many rows, or has judged none itself.
fn is_skipped(parts: &[ListedRows<'_>]) -> bool
    ensures { result ≡ is_skipped (part_listings parts.now) }
{
    for part in parts {
        if part.skipped || part.rows.len() > FEW_ROWS {
            return true;
        }
    }
    false
}

// The tag of a part, before the tag that its own report gives a row.
fn joined_tag(alloc: Global, tag: &[u8], inner: &[u8]) -> Result<Text, AllocError>
    ensures { IfOk result (λ joined. joined ≡ joined_tag tag.now inner.now) }
{
    if inner.is_empty() {
        return copied(alloc, tag);
    }
    let mut joined = Vec::from_slice(alloc, tag)?;
    joined.extend_from_slice(b" ")?;
    joined.extend_from_slice(inner)?;
    Ok(Text::new(joined))
}

fn copied_ends(alloc: Global, ends: &ShownEnds) -> Result<ShownEnds, AllocError>
    ensures { IfOk result (λ copy. copy ≡ ends.now) }
{
    match ends {
        ShownEnds::Values(ends) => Ok(ShownEnds::Values(*ends)),
        ShownEnds::Texts(ends) => {
            let low = copied(alloc, ends.low.as_slice())?;
            let high = copied(alloc, ends.high.as_slice())?;
            Ok(ShownEnds::Texts(TextEnds { low, high }))
        }
        ShownEnds::NoText => Ok(ShownEnds::NoText),
    }
}

fn copied_key(alloc: Global, key: &ShownSpan) -> Result<ShownSpan, AllocError>
    ensures { IfOk result (λ copy. copy ≡ key.now) }
{
    let ends = match &key.ends {
        Some(ends) => Some(copied_ends(alloc, ends)?),
        None => None,
    };
    Ok(ShownSpan {
        null: key.null,
        ends,
    })
}

// The line of a row of which that is known.
fn line_of(alloc: Global, row: ListedRow<'_>, certain: bool) -> Result<RowLine, AllocError>
    ensures { IfOk result (λ line. line ≡ line_by certain (listing row.entry)) }
{
    let tag = joined_tag(alloc, row.tag, tag_bytes(&row.line.name.tag))?;
    let key = copied_key(alloc, &row.line.key)?;
    Ok(RowLine {
        name: RowName {
            tag: Some(tag),
            number: row.line.name.number,
        },
        certain,
        key,
    })
}

// Appends the line of a row of which that is known, if it has one.
fn append_line(
    alloc: Global,
    row: ListedRow<'_>,
    known: Standing,
    lines: &mut Vec<RowLine>,
) -> Result<(), AllocError>
    ensures { OnOk result (lines.new.items ≡ lines.old.items ++ line_if known (listing row.entry)) }
{
    match known {
        Standing::Certain => lines.push(line_of(alloc, row, true)?)?,
        Standing::Possible => lines.push(line_of(alloc, row, false)?)?,
        Standing::Excluded => {}
    }
    Ok(())
}

// The lines of those that are not excluded.
fn lines_of(
    alloc: Global,
    asked: FirstRows,
    listed: &[ListedRow<'_>],
    rows: &[PartRow],
) -> Result<Vec<RowLine>, AllocError>
    requires { rows.now ≡ map row_of (map listing listed.now) }
    ensures { IfOk result (λ lines. lines.items ≡ lines_of asked rows.now (map listing listed.now)) }
{
    let known = judge(alloc, asked, rows)?;
    let mut lines = Vec::new(alloc);
    for (place, row) in listed.iter().enumerate() {
        append_line(alloc, *row, known[place], &mut lines)?;
    }
    Ok(lines)
}

// How many rows there are.
fn top_of(limit: u64, lines: &[RowLine]) -> TopLine
    ensures top { result ≡ top_of limit lines.now }
    ensures numbers { IsTopLine result }
{
    let mut certain = 0;
    for line in lines {
        if line.certain {
            certain += 1;
        }
    }
    TopLine {
        limit,
        certain: certain as u64,
        possible: (lines.len() - certain) as u64,
    }
}

// The block of rows that are judged.
fn judged(
    alloc: Global,
    asked: FirstRows,
    listed: &[ListedRow<'_>],
) -> Result<RowsBlock, AllocError>
    ensures block { IfOk result (λ block. block ≡ told_by (block_of asked (map listing listed.now))) }
    ensures top { IfOk result (λ _. IsFirstLine (block_of asked (map listing listed.now)).top) }
{
    let rows = rows_of(alloc, listed)?;
    let lines = lines_of(alloc, asked, listed, &rows)?;
    let top = RowsTop::Counts(top_of(asked.limit, &lines));
    Ok(RowsBlock::from_lines(top, lines))
}

// The block in which no row is judged.
fn skipped(alloc: Global, limit: u64) -> RowsBlock
    ensures { result ≡ told_by (skipped_block limit) }
{
    RowsBlock::from_lines(RowsTop::Skipped(limit), Vec::new(alloc))
}

/// The block of first rows over all parts, which stand in the order of their tags. Each part gives the rows that its block lists. They are
/// judged anew among all, and a row is named by the tag of its part, the tag that its own report gives it, if there is one, and its number.
/// Where a part lists more than 100,000 rows, or has judged none itself, none is judged, and none listed.
pub fn combine_rows(
    alloc: Global,
    asked: FirstRows,
    parts: &[ListedRows<'_>],
) -> Result<RowsBlock, RowsFault>
    ensures block { IfOk result (λ block. block ≡ told_by (combined asked (part_listings parts.now))) }
    ensures top { IfOk result (λ _. IsFirstLine (combined asked (part_listings parts.now)).top) }
    ensures clear { IfOk result (λ _. AreClear (part_listings parts.now)) }
    ensures alike { IfOk result (λ _. AreAlike (part_listings parts.now)) }
    ensures fault { IfErr result (λ why. IsRowsFault why (part_listings parts.now)) }
{
    check_tags(parts)?;
    let listed = listed_rows(alloc, parts)?;
    if !are_alike(alloc, &listed)? {
        return Err(RowsFault::OtherForm);
    }
    if is_skipped(parts) {
        return Ok(skipped(alloc, asked.limit));
    }
    Ok(judged(alloc, asked, &listed)?)
}
