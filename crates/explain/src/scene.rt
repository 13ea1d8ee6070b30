//! What is known of a refusal, and what is told of it.

use crate::faults::{explain_file, explain_trouble};
use crate::parts::text_or_nothing;
use crate::queries::explain_query;
use crate::reports::explain_report;
use crate::tables::explain_table;
use crate::usage::explain_usage;
use std::alloc::{AllocError, Global};

/// A call of the system that failed: what was done, at which path, and what the system said.
#[derive(Clone, Copy)]
pub struct Trouble<'a> {
    pub verb: &'a str,
    pub path: &'a str,
    pub reason: &'a str,
}

/// What is known of a refusal. What is not known is empty.
#[derive(Clone, Copy)]
pub struct Scene<'a> {
    /// The words of the command line.
    pub words: &'a [&'a str],
    /// The line of the refusal.
    pub line: &'a str,
    pub trouble: Option<Trouble<'a>>,
    /// The columns of the table, as a schema.
    pub schema: &'a str,
    /// The bytes of the CSV, of the script, or of the reports.
    pub input: &'a [u8],
}

impl<'a> Scene<'a> {
    // The word with this number, counted from 1.
    pub(crate) fn word(&self, number: usize) -> Option<&'a str> {
        let at = number.checked_sub(1)?;
        self.words.get(at).copied()
    }

    // The word with this number, or nothing.
    pub(crate) fn word_or_nothing(&self, number: usize) -> &'a str {
        self.word(number).unwrap_or("")
    }

    // The line of the input with this number, counted from 1, or nothing.
    pub(crate) fn input_line(&self, number: usize) -> &'a str {
        text_or_nothing(self.input)
            .split('\n')
            .nth(number.saturating_sub(1))
            .unwrap_or("")
    }
}

/// Which of the things that are known of a refusal are worth finding out.
#[derive(Clone, Copy, Debug, PartialEq, Eq)]
pub struct Wants {
    pub schema: bool,
    pub input: bool,
}

/// What is worth finding out for this line.
pub fn wanted_for(line: &str) -> Wants {
    let is_of_script = line.starts_with("daq: query refused: line ");
    let is_of_record = line.starts_with("daq: table refused: record ")
        || line.starts_with("daq: table refused: header differs");
    let is_of_report = line.starts_with("daq: report refused: line ");
    Wants {
        schema: line.starts_with("daq: query refused: "),
        input: is_of_script || is_of_record || is_of_report,
    }
}

/// The lines that stand below the line of a refusal: none, where there is nothing to add.
pub fn explain(alloc: Global, scene: &Scene<'_>) -> Result<String, AllocError> {
    let mut out = String::new(alloc);
    let Some(cause) = scene.line.trim_end().strip_prefix("daq: ") else {
        return Ok(out);
    };
    match cause.split_once(": ") {
        Some(("usage", place)) => explain_usage(&mut out, scene, place)?,
        Some(("query refused", why)) => explain_query(alloc, &mut out, scene, why)?,
        Some(("table refused", why)) => explain_table(alloc, &mut out, scene, why)?,
        Some(("file refused", why)) => explain_file(&mut out, why)?,
        Some(("report refused", why)) => explain_report(&mut out, scene, why)?,
        _ => explain_trouble(&mut out, scene, cause)?,
    }
    Ok(out)
}
