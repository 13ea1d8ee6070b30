//! Texts put together, and numbers found in them.

use std::alloc::AllocError;
use std::str::from_utf8;

// The most bytes of a text that is cut into tokens.
pub(crate) const MOST_BYTES: usize = 65535;

// Appends these texts.
pub(crate) fn push_parts(out: &mut String, parts: &[&str]) -> Result<(), AllocError> {
    for part in parts {
        out.push_str(part)?;
    }
    Ok(())
}

// Appends a text of somebody else's, with a space for each sign that would move the cursor.
pub(crate) fn push_shown(out: &mut String, text: &str) -> Result<(), AllocError> {
    for sign in text.chars() {
        out.push(if sign.is_control() { ' ' } else { sign })?;
    }
    Ok(())
}

// Appends a text in double quotes.
pub(crate) fn push_quoted(out: &mut String, text: &str) -> Result<(), AllocError> {
    out.push_str("\"")?;
    push_shown(out, text)?;
    out.push_str("\"")
}

// The number between these two texts, if the whole text is that.
pub(crate) fn number_between(text: &str, front: &str, back: &str) -> Option<usize> {
    let digits = text.strip_prefix(front)?.strip_suffix(back)?;
    digits.parse::<usize>().ok()
}

// The text of the bytes, or nothing where they are none.
pub(crate) fn text_or_nothing(bytes: &[u8]) -> &str {
    match from_utf8(bytes) {
        Ok(text) => text,
        Err(_) => "",
    }
}

// The text behind a place, up to the end of its first token.
pub(crate) fn token_at(text: &str, at: usize) -> &str {
    let rest = text.get(at..).unwrap_or("");
    let mut quote = None;
    for (place, sign) in rest.char_indices() {
        let next = rest.get(..place).unwrap_or("");
        if place == 0 {
            if sign == '"' || sign == '\'' {
                quote = Some(sign);
            } else if !is_part_of_word(sign) {
                return rest.get(..sign.len_utf8()).unwrap_or("");
            }
        } else if quote == Some(sign) {
            return rest.get(..place.saturating_add(1)).unwrap_or(next);
        } else if quote.is_none() && !is_part_of_word(sign) {
            return next;
        }
    }
    rest
}

// Whether a sign belongs to a name, a keyword or a number.
fn is_part_of_word(sign: char) -> bool {
    sign.is_ascii_alphanumeric() || sign == '_' || sign == '.'
}
