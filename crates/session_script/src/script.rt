//! The queries of a script.

ghost use Rattle.std.specs.Prelude.{◌≡◌, ◌++◌, [], ◌∷◌, IfErr, IfOk, OnOk, map};
ghost use Rattle.session_script.specs.Answers.{IsScript, Refuses};
ghost use Rattle.session_script.specs.Lines.{is_blank, line_of, lines_from, queries_of};

use crate::fault::ScriptFault;
use std::alloc::{AllocError, Global};
use std::str::from_utf8;

/// The most bytes of a script.
pub const MOST_BYTES: usize = 131_072;

/// The most queries of a script.
pub const MOST_QUERIES: usize = 16;

/// A query of a script. Its text is that of its line, without the end.
#[derive(Clone, Copy, Debug, PartialEq, Eq)]
pub struct ScriptQuery<'a> {
    /// The number of the line, counted from 1.
    pub line: usize,
    pub text: &'a str,
}

// Whether a line has no byte but spaces, tabs and CR.
fn is_blank(text: &str) -> bool
    ensures { result ≡ is_blank text.now }
{
    text.as_bytes()
        .iter()
        .all(|byte| *byte == b' ' || *byte == b'\t' || *byte == b'\r')
}

// Takes a line to the others, if it is not blank.
fn take_line<'a>(
    queries: &mut Vec<ScriptQuery<'a>>,
    line: usize,
    text: &'a str,
) -> Result<(), AllocError>
    ensures { OnOk result (map line_of queries.new.items ≡ map line_of queries.old.items ++ lines_from line (text.now ∷ [])) }
{
    if !is_blank(text) {
        queries.push(ScriptQuery { line, text })?;
    }
    Ok(())
}

// The lines of a text that are not blank.
fn lines(alloc: Global, script: &str) -> Result<Vec<ScriptQuery<'_>>, AllocError>
    ensures { IfOk result (λ queries. map line_of queries.items ≡ queries_of script.now) }
{
    let mut queries = Vec::new(alloc);
    let mut line = 0;
    'lines: for text in script.split('\n') {
        line += 1;
        take_line(&mut queries, line, text)?;
    }
    Ok(queries)
}

/// The queries of a script, in order: its lines but for the blank ones. A line ends before a byte 0A, the last also with the script.
pub fn queries(alloc: Global, script: &[u8]) -> Result<Vec<ScriptQuery<'_>>, ScriptFault>
    ensures ok { IfOk result (λ queries. IsScript script.now (map line_of queries.items)) }
    ensures err { IfErr result (Refuses script.now) }
{
    if script.len() > MOST_BYTES {
        return Err(ScriptFault::TooLong { limit: MOST_BYTES });
    }
    let text = match from_utf8(script) {
        Ok(text) => text,
        Err(fault) => {
            return Err(ScriptFault::NoText {
                at: fault.valid_up_to(),
            });
        }
    };
    let queries = lines(alloc, text)?;
    if queries.is_empty() {
        return Err(ScriptFault::NoQuery);
    }
    if queries.len() > MOST_QUERIES {
        return Err(ScriptFault::TooMany {
            count: queries.len(),
        });
    }
    Ok(queries)
}
