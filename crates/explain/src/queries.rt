//! What is told of refused queries, scripts and sessions.

use crate::caret::push_caret;
use crate::columns::{Column, column_named, push_holds, push_names, push_takes};
use crate::compared::compared_name;
use crate::follow::push_syntax;
use crate::parts::{
    MOST_BYTES, number_between, push_parts, push_quoted, text_or_nothing, token_at,
};
use crate::scene::Scene;
use sql_tokens::{Kind, tokens};
use std::alloc::{AllocError, Global};

// A query and a place of it that is refused.
#[derive(Clone, Copy)]
struct Placed<'a> {
    schema: &'a str,
    text: &'a str,
    at: usize,
}

impl<'a> Placed<'a> {
    // The name that stands there, without quotes.
    fn name(&self) -> &'a str {
        token_at(self.text, self.at).trim_matches('"')
    }

    // The column with which the value there is compared.
    fn compared(&self, alloc: Global) -> Result<Option<Column<'a>>, AllocError> {
        if self.text.len() > MOST_BYTES {
            return Ok(None);
        }
        let (tokens, _) = tokens(alloc, self.text.as_bytes())?;
        for (place, token) in tokens.iter().enumerate() {
            if token.at == self.at {
                let name = compared_name(tokens.as_slice(), place).unwrap_or(&[]);
                return Ok(column_named(self.schema, text_or_nothing(name)));
            }
        }
        Ok(None)
    }

    // Whether a number stands there.
    fn is_at_number(&self) -> bool {
        match token_at(self.text, self.at).chars().next() {
            Some(sign) => sign.is_ascii_digit() || sign == '-',
            None => false,
        }
    }
}

// Appends that no column has the name, and which there are.
fn push_unknown(out: &mut String, placed: &Placed<'_>) -> Result<(), AllocError> {
    out.push_str("no column is named ")?;
    push_quoted(out, placed.name())?;
    if token_at(placed.text, placed.at).starts_with('"') {
        out.push_str(" (a text stands in single quotes)")?;
    }
    if placed.schema.is_empty() {
        return Ok(());
    }
    out.push_str("; the columns are ")?;
    push_names(out, placed.schema, true)
}

// Appends what types go together.
fn push_kinds(alloc: Global, out: &mut String, placed: &Placed<'_>) -> Result<(), AllocError> {
    if let Some(column) = placed.compared(alloc)? {
        push_quoted(out, column.name)?;
        out.push_str(" holds ")?;
        push_takes(out, column.kind)?;
        return out.push_str(if column.kind == "date" || column.kind == "text" {
            "; in a query in single quotes"
        } else {
            ""
        });
    }
    match column_named(placed.schema, placed.name()) {
        Some(column) => {
            push_quoted(out, column.name)?;
            out.push_str(" holds ")?;
            push_takes(out, column.kind)?;
            out.push_str(
                "; SUM, AVG and + - * take numbers, and columns compare that are both dates or have equally many decimals",
            )
        }
        None => out.push_str("what stands there is not of the type that is asked for"),
    }
}

// Appends what is too fine.
fn push_scale(alloc: Global, out: &mut String, placed: &Placed<'_>) -> Result<(), AllocError> {
    if !placed.is_at_number() {
        return out.push_str("with this operator the expression has more than 18 decimals");
    }
    match placed.compared(alloc)? {
        Some(column) => {
            push_parts(
                out,
                &[
                    token_at(placed.text, placed.at),
                    " is finer than the column ",
                    column.name,
                    ", which holds ",
                ],
            )?;
            push_holds(out, column.kind)
        }
        None => push_parts(
            out,
            &[
                token_at(placed.text, placed.at),
                " has more decimals than the column",
            ],
        ),
    }
}

// Appends that the column there is not grouped.
fn push_ungrouped(out: &mut String, placed: &Placed<'_>) -> Result<(), AllocError> {
    push_quoted(out, placed.name())?;
    out.push_str(" stands alone and not in GROUP BY: name it there, or put it into an aggregate")
}

// Appends a sentence on what is refused at a place.
fn push_sentence(
    alloc: Global,
    out: &mut String,
    why: &str,
    placed: &Placed<'_>,
) -> Result<(), AllocError> {
    match why {
        "syntax" => push_syntax(alloc, out, placed.schema, placed.text, placed.at),
        "unknown table" => out.push_str("the table is always t: FROM t"),
        "unknown column" => push_unknown(out, placed),
        "kinds differ" => push_kinds(alloc, out, placed),
        "scale too fine" => push_scale(alloc, out, placed),
        "not grouped" => push_ungrouped(out, placed),
        "too many values" => out.push_str("an IN lists at most 64 values"),
        "limit out of range" => out.push_str("LIMIT is a whole number from 1 to 1000"),
        "nested too deep" => out.push_str("at most 32 parentheses and NOTs are open at a time"),
        "number too large" => {
            out.push_str("a number without its point is at most 9223372036854775807")
        }
        _ => Ok(()),
    }
}

// The sentence on a limit of queries, scripts and sessions, or nothing.
fn limit_sentence(why: &str) -> &'static str {
    if why.starts_with("longer than ") {
        "a query has at most 4096 bytes: ask in two"
    } else if why.starts_with("more than 16 ") {
        "a query has at most 16 columns and 16 aggregates: ask in two"
    } else if why.starts_with("group of ") {
        "the columns of GROUP BY have at most 16 planes together; daq info tells the width of each"
    } else if why.ends_with(" too wide") {
        "by what is declared of its columns the aggregate may pass 128 bits: multiply fewer columns"
    } else if why.starts_with("script longer than ") {
        "a script has at most 131072 bytes"
    } else if why.starts_with("script is no text at ") {
        "a script is UTF-8"
    } else if why.ends_with(" queries") {
        "a session has at most 16 queries: cut the script in two"
    } else if why.ends_with(" columns in the session") {
        "the queries of a session name at most 16 columns together: cut the script in two"
    } else if why.ends_with(" cells in the session") {
        "the rows times the columns of each query come to at most 134217728 cells: cut the script in two"
    } else if why == "no query in the script" {
        "a script has a query in each line that is not blank"
    } else {
        ""
    }
}

// The list behind --reads.
fn reads_of<'a>(scene: &Scene<'a>) -> &'a str {
    let mut is_next = false;
    for word in scene.words {
        if is_next {
            return word;
        }
        is_next = *word == "--reads";
    }
    ""
}

// Appends what is wrong with a name of --reads.
fn push_reads(out: &mut String, scene: &Scene<'_>, why: &str) -> Result<(), AllocError> {
    let (number, told) = why.split_once(' ').unwrap_or((why, ""));
    let place = number.parse::<usize>().unwrap_or(1).saturating_sub(1);
    let name = reads_of(scene).split(',').nth(place).unwrap_or("");
    out.push_str("  ")?;
    push_quoted(out, name)?;
    out.push_str(if told.starts_with("names no column") {
        " is no column of the query; names stand without quotes, parted by commas\n"
    } else {
        " stands there more often than the column has planes\n"
    })
}

// The text of the query, as the words have it.
fn query_of<'a>(scene: &Scene<'a>) -> &'a str {
    match scene.word_or_nothing(1) {
        "query" => scene.word_or_nothing(3),
        "ask" | "demo" => scene.word_or_nothing(4),
        _ => "",
    }
}

// What is told of a refused query.
pub(crate) fn explain_query(
    alloc: Global,
    out: &mut String,
    scene: &Scene<'_>,
    why: &str,
) -> Result<(), AllocError> {
    if let Some(read) = why.strip_prefix("read ") {
        return push_reads(out, scene, read);
    }
    let (text, why) = match why.strip_prefix("line ") {
        Some(line) => {
            let (number, alone) = line.split_once(": ").unwrap_or(("", line));
            let number = number.parse::<usize>().unwrap_or(1);
            (scene.input_line(number), alone)
        }
        None => (query_of(scene), why),
    };
    let told = limit_sentence(why);
    if !told.is_empty() {
        return push_parts(out, &["  ", told, "\n"]);
    }
    let (cause, place) = why.rsplit_once(" at ").unwrap_or((why, ""));
    let Some(at) = number_between(place, "", "") else {
        return Ok(());
    };
    let placed = Placed {
        schema: scene.schema,
        text,
        at,
    };
    push_caret(out, text, at)?;
    out.push_str("  ")?;
    push_sentence(alloc, out, cause, &placed)?;
    out.push_str("\n")
}
