//! What is said over all parts of first rows, and its lines.

ghost use Rattle.std.specs.Prelude.{◌≡◌, ◌++◌, IfErr, IfOk, OnOk, codes};
ghost use Rattle.std.specs.List.{All};
ghost use Rattle.part_rows.specs.Combined.{combined, part_listings, told_by};
ghost use Rattle.part_rows.specs.Faults.{AreAlike, AreClear};
ghost use Rattle.report_text.specs.Rows.{IsShownRow, row_line};
ghost use Rattle.report_parts.specs.Faults.{IsListFault};
ghost use Rattle.report_parts.specs.Reports.{row_lines, rows_lines, top_lines};
ghost use Rattle.report_parts.specs.Rounds.{all_listed_in};
ghost use Rattle.report_parts.specs.Shown.{AreShownFrom};

use crate::blocks::push_line;
use crate::fault::BlockFault;
use crate::part::Part;
use part_rows::{ListedRows, combine_rows, lines_are_shown};
use query_kinds::FirstRows;
use report_text::{RowLine, RowsBlock, RowsTop, written_row};
use std::alloc::{AllocError, Global};

// What each part lists in that round.
fn all_listed_in(
    alloc: Global,
    round: usize,
    parts: &[Part],
) -> Result<Vec<ListedRows<'_>>, AllocError>
    ensures { IfOk result (λ listed. part_listings listed.items ≡ all_listed_in round parts.now) }
{
    let mut listed = Vec::with_capacity(alloc, parts.len())?;
    for part in parts {
        listed.push(ListedRows {
            tag: part.tag(),
            skipped: part.is_skipped(round),
            rows: part.rows_for(round),
        })?;
    }
    Ok(listed)
}

// What is said over all parts in a round, of the first rows that are asked for.
pub(crate) fn rows_over(
    alloc: Global,
    round: usize,
    asked: FirstRows,
    parts: &[Part],
) -> Result<RowsBlock, BlockFault>
    requires { AreShownFrom round parts.now }
    ensures rows { IfOk result (λ rows. rows ≡ told_by (combined asked (all_listed_in round parts.now))) }
    ensures shown { IfOk result (λ rows. All IsShownRow rows.rows) }
    ensures clear { OnOk result (AreClear (all_listed_in round parts.now)) }
    ensures alike { OnOk result (AreAlike (all_listed_in round parts.now)) }
    ensures fault { IfErr result (λ why. IsListFault why (all_listed_in round parts.now)) }
{
    let listed = all_listed_in(alloc, round, parts)?;
    lines_are_shown();
    Ok(combine_rows(alloc, asked, &listed)?)
}

// Puts the line before the rows behind the text.
fn push_top(text: &mut Vec<u8>, top: Option<RowsTop>) -> Result<(), AllocError>
    ensures { OnOk result (text.new.items ≡ text.old.items ++ top_lines top) }
{
    match top {
        Some(top) => push_line(text, top.written().bytes()),
        None => Ok(()),
    }
}

// Puts the line of a row behind the text.
fn push_row(alloc: Global, text: &mut Vec<u8>, row: &RowLine) -> Result<(), AllocError>
    requires { IsShownRow row.now }
    ensures { OnOk result (text.new.items ≡ text.old.items ++ (row_line row.now ++ codes "\n")) }
{
    push_line(text, written_row(alloc, row)?.as_slice())
}

// Puts the lines of rows behind the text.
fn push_row_lines(alloc: Global, text: &mut Vec<u8>, rows: &[RowLine]) -> Result<(), AllocError>
    requires { All IsShownRow rows.now }
    ensures { OnOk result (text.new.items ≡ text.old.items ++ row_lines rows.now) }
{
    for row in rows {
        push_row(alloc, text, row)?;
    }
    Ok(())
}

// Puts the lines of a block of first rows behind the text.
pub(crate) fn push_rows(
    alloc: Global,
    text: &mut Vec<u8>,
    rows: &RowsBlock,
) -> Result<(), AllocError>
    requires { All IsShownRow rows.now.rows }
    ensures { OnOk result (text.new.items ≡ text.old.items ++ rows_lines rows.now) }
{
    push_top(text, rows.top())?;
    push_row_lines(alloc, text, rows.rows())
}
