//! What is told of the reports of parts.

use crate::caret::first_signs;
use crate::parts::{push_parts, push_shown};
use crate::scene::Scene;
use std::alloc::AllocError;

// The most signs of a line that are shown.
const MOST_SHOWN: usize = 80;

// What is told of a line that is refused.
fn line_sentence(why: &str) -> &'static str {
    if why == "no tab" {
        "a line is a tag, a tab and a line of a report: ask the parts with parallel --tag"
    } else if why.starts_with("a tag of ") {
        "a tag has 1 to 255 bytes: give the parts shorter names"
    } else if why.starts_with("more than ") {
        "the tag is that of one part more than combine was told of: count the parts that were asked"
    } else if why == "no query of totals, groups or first rows" {
        "combine takes COUNT, SUM, AVG, MIN and MAX over all rows or by groups, and first rows by ORDER BY and LIMIT"
    } else if why == "no query" {
        "a report begins with the line of its query: hand over all that daq query, ask or demo prints"
    } else if why == "another query" {
        "ask all parts the same query, letter by letter"
    } else if why.starts_with("scales of ") {
        "the parts write the values there in other forms, as with other decimals: load all of them with one schema"
    } else if why == "possible rows are not listed" {
        "for first rows ask all parts with --part"
    } else if why.starts_with("the tag of part ") {
        "where first rows are asked for, a tag has no space and no control character: give the part another name"
    } else if why.starts_with("item ") {
        "over all parts the sum may pass 128 bits: ask fewer parts together"
    } else if why.starts_with("longer than ") {
        "a line has at most 65536 bytes: this is no line of a report"
    } else {
        "the report has no such line there: ask each part once, by a tag of its own; MIN and MAX take no text with a line feed"
    }
}

// Appends a line of the reports, where they can be read once more.
fn push_line(out: &mut String, line: &str) -> Result<(), AllocError> {
    if line.is_empty() {
        return Ok(());
    }
    let shown = first_signs(line, MOST_SHOWN);
    out.push_str("  ")?;
    push_shown(out, shown)?;
    out.push_str(if shown.len() < line.len() {
        "..\n"
    } else {
        "\n"
    })
}

// What is told of reports that are refused.
pub(crate) fn explain_report(
    out: &mut String,
    scene: &Scene<'_>,
    why: &str,
) -> Result<(), AllocError> {
    let told = match why.strip_prefix("line ") {
        Some(refused) => {
            let (number, alone) = refused.split_once(": ").unwrap_or((refused, ""));
            push_line(out, scene.input_line(number.parse::<usize>().unwrap_or(0)))?;
            line_sentence(alone)
        }
        None if why.ends_with(" ends early") => {
            "the process of that part failed or was cut off: look at its own message, and run it again"
        }
        None if why.starts_with("longer than ") => {
            "reports have at most 1073741824 bytes together: combine fewer parts, and then their reports"
        }
        None =>
            "combine was told of another number of parts than came: count the parts that were asked",
    };
    push_parts(out, &["  ", told, "\n"])
}
