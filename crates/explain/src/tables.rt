//! What is told of refused schemas and tables.

use crate::caret::push_caret;
use crate::columns::{column_number, push_names, push_takes};
use crate::parts::{number_between, push_parts, push_quoted, text_or_nothing};
use crate::records::record_number;
use crate::scene::Scene;
use std::alloc::{AllocError, Global};

// The schema, as the words have it.
fn schema_of<'a>(scene: &Scene<'a>) -> &'a str {
    match scene.word_or_nothing(1) {
        "ask" => scene.word_or_nothing(3),
        "load" => scene.word_or_nothing(4),
        _ => "",
    }
}

// The sentence on a limit of schemas and tables, or nothing.
fn limit_sentence(why: &str) -> &'static str {
    if why.ends_with(" schema items") {
        "a table has at most 64 columns: skip some"
    } else if why.ends_with(" schema items with those skipped") {
        "a schema has at most 1024 columns, those that are skipped with them"
    } else if why == "all schema items are skipped" {
        "a table has at least one column"
    } else if why.starts_with("longer than ") {
        "a CSV has at most 1073741824 bytes: load it in parts"
    } else if why.starts_with("more than ") {
        "a table has at most 16777216 rows"
    } else if why.ends_with(" cells") {
        "rows times columns come to at most 134217728: skip columns, or load it in parts"
    } else if why == "no header" {
        "the first line of a CSV names its columns"
    } else {
        ""
    }
}

// Appends what a field is refused for.
fn push_cell(
    out: &mut String,
    schema: &str,
    number: usize,
    field: &[u8],
) -> Result<(), AllocError> {
    push_quoted(out, text_or_nothing(field))?;
    let Some(column) = column_number(schema, number) else {
        return Ok(());
    };
    push_parts(out, &[" in the column ", column.name, ", which takes "])?;
    push_takes(out, column.kind)?;
    let is_nothing = means_nothing(field);
    if is_nothing {
        out.push_str("; if that means nothing, leave the field empty")?;
    }
    if (is_nothing || field.is_empty()) && !column.is_nullable {
        push_parts(
            out,
            &["; where it may be empty, the type is ", column.kind, "?"],
        )?;
    }
    Ok(())
}

// Whether a field is one of the texts that often stand for nothing.
fn means_nothing(field: &[u8]) -> bool {
    matches!(
        text_or_nothing(field),
        "NA" | "N/A" | "na" | "n/a" | "NULL" | "null" | "None" | "NaN" | "nan" | "\\N" | "-" | "?"
    )
}

// Appends the line of a record, and the field that is no value.
fn explain_cell(
    alloc: Global,
    out: &mut String,
    scene: &Scene<'_>,
    entry: usize,
    number: usize,
) -> Result<(), AllocError> {
    let Some(found) = record_number(alloc, scene.input, entry)? else {
        return Ok(());
    };
    let line = found.line;
    out.push_str(format!(in alloc; "  line {line}: ")?.as_str())?;
    let field = found.record.get(number.saturating_sub(1)).unwrap_or(&[]);
    push_cell(out, schema_of(scene), number, field)?;
    out.push_str("\n")
}

// Appends the line of a record with too many or too few fields, and its fields.
fn explain_length(
    alloc: Global,
    out: &mut String,
    scene: &Scene<'_>,
    entry: usize,
) -> Result<(), AllocError> {
    let Some(found) = record_number(alloc, scene.input, entry)? else {
        return Ok(());
    };
    let line = found.line;
    out.push_str(format!(in alloc; "  line {line}: ")?.as_str())?;
    let mut is_first = true;
    for field in found.record.iter() {
        out.push_str(if is_first { "" } else { ", " })?;
        push_quoted(out, text_or_nothing(field))?;
        is_first = false;
    }
    out.push_str("; a field with a comma or a line break stands in double quotes\n")
}

// Appends how the header differs at a column.
fn explain_header(
    alloc: Global,
    out: &mut String,
    scene: &Scene<'_>,
    number: usize,
) -> Result<(), AllocError> {
    let header = record_number(alloc, scene.input, 1)?;
    let place = number.saturating_sub(1);
    let named = match &header {
        Some(found) => found.record.get(place),
        None => return Ok(()),
    };
    match (named, column_number(schema_of(scene), number)) {
        (Some(name), Some(column)) => {
            out.push_str("  the header has ")?;
            push_quoted(out, text_or_nothing(name))?;
            out.push_str(" there, the schema ")?;
            push_quoted(out, column.name)?;
            out.push_str("; blanks and capitals count\n")
        }
        (Some(name), None) => {
            out.push_str("  the header goes on with ")?;
            push_quoted(out, text_or_nothing(name))?;
            out.push_str(": a schema names all columns of the CSV\n")
        }
        (None, _) => {
            out.push_str("  the header ends before; the schema has the columns ")?;
            push_names(out, schema_of(scene), false)?;
            out.push_str("\n")
        }
    }
}

// Appends the schema with a caret, and what an item is.
fn explain_item(out: &mut String, schema: &str, at: usize) -> Result<(), AllocError> {
    push_caret(out, schema, at)?;
    out.push_str(
        "  a column is its name, a colon, and int, dec0 to dec9, date or text, with ? behind it where fields may be empty, or skip\n",
    )
}

// Appends the name that two items have, or that of a column with too many texts.
fn explain_columns(out: &mut String, schema: &str, why: &str) -> Result<(), AllocError> {
    if let Some(items) = why.strip_prefix("schema items ") {
        let (first, _) = items.split_once(' ').unwrap_or((items, ""));
        if let Some(column) = column_number(schema, first.parse::<usize>().unwrap_or(1)) {
            out.push_str("  both are ")?;
            push_quoted(out, column.name)?;
            out.push_str(": give one of them another name, in the header too\n")?;
        }
        return Ok(());
    }
    match number_between(why, "column ", " has too many names") {
        Some(number) => {
            let name = column_number(schema, number).map_or("", |column| column.name);
            out.push_str("  ")?;
            push_quoted(out, name)?;
            out.push_str(" has more than 65536 different texts: its type may be skip\n")
        }
        None => Ok(()),
    }
}

// What is told of a refused schema or table.
pub(crate) fn explain_table(
    alloc: Global,
    out: &mut String,
    scene: &Scene<'_>,
    why: &str,
) -> Result<(), AllocError> {
    let told = limit_sentence(why);
    if !told.is_empty() {
        return push_parts(out, &["  ", told, "\n"]);
    }
    if let Some(at) = number_between(why, "schema item at ", "") {
        return explain_item(out, schema_of(scene), at);
    }
    if let Some(number) = number_between(why, "header differs at column ", "") {
        return explain_header(alloc, out, scene, number);
    }
    let Some(record) = why.strip_prefix("record ") else {
        return explain_columns(out, schema_of(scene), why);
    };
    let (entry, rest) = record.split_once(' ').unwrap_or((record, ""));
    let entry = entry.parse::<usize>().unwrap_or(1);
    match number_between(rest, "column ", " is no value of its kind") {
        Some(number) => explain_cell(alloc, out, scene, entry, number),
        None => explain_length(alloc, out, scene, entry),
    }
}
