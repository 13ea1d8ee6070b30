//! A text with a caret under a place.

use crate::parts::push_shown;
use std::alloc::AllocError;

// How many signs are shown before the place, and from it on.
const MOST_BEFORE: usize = 60;

const MOST_BEHIND: usize = 50;

// The last so many signs of a text.
fn last_signs(text: &str, most: usize) -> &str {
    let passed = text.chars().count().saturating_sub(most);
    match text.char_indices().nth(passed) {
        Some((place, _)) => text.get(place..).unwrap_or(""),
        None => "",
    }
}

// The first so many signs of a text.
pub(crate) fn first_signs(text: &str, most: usize) -> &str {
    match text.char_indices().nth(most) {
        Some((place, _)) => text.get(..place).unwrap_or(text),
        None => text,
    }
}

// Appends the line of the text that has the place, or what of it stands near, and a line with a caret under the place.
pub(crate) fn push_caret(out: &mut String, text: &str, at: usize) -> Result<(), AllocError> {
    let front = text.get(..at).unwrap_or(text);
    let rest = text.get(at..).unwrap_or("");
    let line_front = front.rsplit_once('\n').map_or(front, |(_, last)| last);
    let line_rest = rest.split_once('\n').map_or(rest, |(first, _)| first);
    let before = last_signs(line_front, MOST_BEFORE);
    let cut = if before.len() < line_front.len() {
        ".."
    } else {
        ""
    };
    out.push_str("  ")?;
    out.push_str(cut)?;
    push_shown(out, before)?;
    let behind = first_signs(line_rest, MOST_BEHIND);
    push_shown(out, behind)?;
    out.push_str(if behind.len() < line_rest.len() {
        "..\n  "
    } else {
        "\n  "
    })?;
    for _ in cut.chars() {
        out.push(' ')?;
    }
    for _ in before.chars() {
        out.push(' ')?;
    }
    out.push_str("^\n")
}
