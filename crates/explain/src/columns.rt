//! The columns of a schema, as it is written.

use crate::parts::{push_parts, push_shown};
use std::alloc::AllocError;

// The most columns that are listed.
const MOST_LISTED: usize = 20;

// A column of a schema: its name and its type, without the mark for null.
#[derive(Clone, Copy)]
pub(crate) struct Column<'a> {
    pub(crate) name: &'a str,
    pub(crate) kind: &'a str,
    pub(crate) is_nullable: bool,
}

// The column that an item of a schema declares.
fn column_of(item: &str) -> Column<'_> {
    let (name, kind) = item.rsplit_once(':').unwrap_or((item, ""));
    match kind.strip_suffix("?") {
        Some(bare) => Column {
            name,
            kind: bare,
            is_nullable: true,
        },
        None => Column {
            name,
            kind,
            is_nullable: false,
        },
    }
}

// The column with this number, counted from 1.
pub(crate) fn column_number(schema: &str, number: usize) -> Option<Column<'_>> {
    let item = schema.split(',').nth(number.saturating_sub(1))?;
    Some(column_of(item))
}

// The column of a table with this name: one that is not skipped.
pub(crate) fn column_named<'a>(schema: &'a str, name: &str) -> Option<Column<'a>> {
    for item in schema.split(',') {
        let column = column_of(item);
        if column.name == name && column.kind != "skip" {
            return Some(column);
        }
    }
    None
}

// Appends the names of the columns, of all or of those that are not skipped.
pub(crate) fn push_names(
    out: &mut String,
    schema: &str,
    only_kept: bool,
) -> Result<(), AllocError> {
    let mut count = 0usize;
    for item in schema.split(',') {
        if only_kept && column_of(item).kind == "skip" {
            continue;
        }
        if count == MOST_LISTED {
            return out.push_str(", ..");
        }
        if count > 0 {
            out.push_str(", ")?;
        }
        push_shown(out, column_of(item).name)?;
        count = count.saturating_add(1);
    }
    Ok(())
}

// Appends what the values of a type are, and how they are written.
pub(crate) fn push_takes(out: &mut String, kind: &str) -> Result<(), AllocError> {
    match kind.strip_prefix("dec") {
        Some("0") => out.push_str("numbers without decimals, as 12"),
        Some(digits) => push_parts(
            out,
            &["numbers with at most ", digits, " decimals, as 12.5"],
        ),
        None => match kind {
            "int" => out.push_str("whole numbers of 64 bits, as -12"),
            "date" => out.push_str("days of the calendar, as 2024-02-29"),
            _ => out.push_str("texts: UTF-8 of at most 255 bytes"),
        },
    }
}

// What a number of the type may have behind the point.
pub(crate) fn push_holds(out: &mut String, kind: &str) -> Result<(), AllocError> {
    match kind.strip_prefix("dec") {
        Some("1") => out.push_str("numbers with 1 decimal"),
        Some(digits) if digits != "0" => push_parts(out, &["numbers with ", digits, " decimals"]),
        _ => out.push_str("whole numbers"),
    }
}
