//! Strings.

ghost use Rattle.std.specs.Prelude.{false, IfOk};
ghost use Rattle.sql_tokens.specs.Reads.{string_from, GivesString};

use std::alloc::{AllocError, Global};

/// The rest of a string behind its first apostrophe.
pub fn string<'a>(alloc: Global, text: &'a [u8]) -> Result<Option<(Vec<u8>, &'a [u8])>, AllocError>
    ensures { IfOk result (λ o. GivesString o (string_from false text.now)) }
{
    let mut out = Vec::new(alloc);
    let mut ended = false;
    // where the string ends if no later end comes: how much of `out`, and how far in the text
    let mut last = None;
    for (i, b) in text.iter().enumerate() {
        if ended {
            if *b != b'\'' {
                return Ok(Some((out, &text[i..])));
            }
            last = Some((out.len(), i));
            out.push(b'\'')?;
            ended = false;
            continue;
        }
        if *b == b'\'' {
            ended = true;
            continue;
        }
        out.push(*b)?;
    }
    if ended {
        return Ok(Some((out, &text[text.len()..])));
    }
    match last {
        None => Ok(None),
        Some((len, i)) => {
            out.truncate(len);
            Ok(Some((out, &text[i..])))
        }
    }
}
