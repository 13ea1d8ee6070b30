//! What may stand at the place of a syntax error. A query is refused at the first token that does not go on with the tokens before it: so a
//! token may stand there where a text that ends with it is not refused before its end.

use crate::columns::column_named;
use crate::parts::{MOST_BYTES, push_parts, push_quoted, token_at};
use sql_text::{SqlFault, parse};
use sql_tokens::{KEYWORDS, tokens};
use std::alloc::{AllocError, Global};

// Tokens that may stand somewhere, and how they are told.
const TOKENS: [(&str, &str); 27] = [
    ("SELECT", "SELECT"),
    ("FROM", "FROM"),
    ("x", "a column"),
    ("1", "a number"),
    ("'a'", "a text as 'Oslo'"),
    ("DATE", "DATE"),
    ("SUM", "COUNT, SUM, AVG, MIN or MAX"),
    ("(", "("),
    ("*", "*"),
    ("+", "+"),
    ("-", "-"),
    (",", "a comma"),
    (")", ")"),
    ("=", "a comparison"),
    ("BETWEEN", "BETWEEN"),
    ("IN", "IN"),
    ("IS", "IS"),
    ("NOT", "NOT"),
    ("NULL", "NULL"),
    ("AND", "AND"),
    ("OR", "OR"),
    ("WHERE", "WHERE"),
    ("GROUP", "GROUP BY"),
    ("ORDER", "ORDER BY"),
    ("BY", "BY"),
    ("DESC", "ASC or DESC"),
    ("LIMIT", "LIMIT"),
];

// What queries of other programs have and these have not.
const MISSING: [&str; 16] = [
    "AS", "DISTINCT", "LIKE", "HAVING", "JOIN", "ON", "CASE", "UNION", "OFFSET", "OVER", "WITH",
    "USING", "CAST", "EXISTS", "TRUE", "FALSE",
];

// Whether a query goes on with a token behind this text.
fn goes_on(alloc: Global, front: &str, token: &str) -> Result<bool, AllocError> {
    let text = format!(in alloc; "{front} {token}")?;
    match parse(alloc, text.as_str()) {
        Ok(_) => Ok(true),
        Err(SqlFault::Syntax { at }) => Ok(at >= text.len()),
        Err(SqlFault::NoMemory) => Err(AllocError),
        Err(_) => Ok(false),
    }
}

// Whether the text is a query.
fn is_query(alloc: Global, text: &str) -> Result<bool, AllocError> {
    match parse(alloc, text) {
        Ok(_) => Ok(true),
        Err(SqlFault::NoMemory) => Err(AllocError),
        Err(_) => Ok(false),
    }
}

// Whether the word is a keyword.
fn is_keyword(word: &str) -> bool {
    for keyword in KEYWORDS {
        if word.as_bytes().eq_ignore_ascii_case(keyword.spelling()) {
            return true;
        }
    }
    false
}

// Whether the word is one that these queries have not.
fn is_missing(word: &str) -> bool {
    for other in MISSING {
        if word.eq_ignore_ascii_case(other) {
            return true;
        }
    }
    word == "/" || word == "%" || word == "|"
}

// The token with which a text ends, or nothing.
fn last_token(alloc: Global, text: &str) -> Result<&str, AllocError> {
    if text.len() > MOST_BYTES {
        return Ok("");
    }
    let (tokens, _) = tokens(alloc, text.as_bytes())?;
    match tokens.as_slice().last() {
        Some(token) => Ok(token_at(text, token.at)),
        None => Ok(""),
    }
}

// Whether the word is a name that is neither a keyword nor a column's.
fn is_other_name(schema: &str, word: &str) -> bool {
    match word.chars().next() {
        Some(sign) if sign.is_ascii_alphabetic() => {
            !is_keyword(word) && column_named(schema, word).is_none()
        }
        _ => false,
    }
}

// Appends what is wrong with the word before the place, if it is one of other programs: says whether it is.
fn push_before(
    out: &mut String,
    schema: &str,
    token: &str,
    before: &str,
) -> Result<bool, AllocError> {
    if !is_other_name(schema, before) {
        return Ok(false);
    }
    let told = if is_missing(before) {
        " is not in these queries"
    } else if token == "(" {
        " is no aggregate: these are COUNT, SUM, AVG, MIN and MAX"
    } else {
        return Ok(false);
    };
    push_quoted(out, before)?;
    out.push_str(told)?;
    Ok(true)
}

// Appends what may stand behind the text.
fn push_tokens(alloc: Global, out: &mut String, front: &str) -> Result<(), AllocError> {
    let mut is_first = true;
    for (token, told) in TOKENS {
        if goes_on(alloc, front, token)? {
            push_parts(out, &[if is_first { "" } else { ", " }, told])?;
            is_first = false;
        }
    }
    if is_query(alloc, front)? {
        out.push_str(if is_first { "the end" } else { ", or the end" })?;
    }
    Ok(())
}

// Appends a sentence on a syntax error.
pub(crate) fn push_syntax(
    alloc: Global,
    out: &mut String,
    schema: &str,
    text: &str,
    at: usize,
) -> Result<(), AllocError> {
    let token = token_at(text, at);
    let front = text.get(..at).unwrap_or("");
    if is_keyword(token) && column_named(schema, token).is_some() && goes_on(alloc, front, "x")? {
        push_quoted(out, token)?;
        return out.push_str(" is a keyword: the column of that name stands in double quotes");
    }
    let before = last_token(alloc, front)?;
    if push_before(out, schema, token, before)? {
        return Ok(());
    }
    if is_missing(token) {
        push_quoted(out, token)?;
        out.push_str(" is not in these queries; here may stand: ")?;
    } else if token.is_empty() {
        out.push_str("the text ends there; here may stand: ")?;
    } else {
        push_quoted(out, token)?;
        out.push_str(" may not stand there; here may stand: ")?;
    }
    push_tokens(alloc, out, front)
}
