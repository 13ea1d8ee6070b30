//! What is told of words that are no command.

use crate::parts::push_quoted;
use crate::scene::Scene;
use std::alloc::AllocError;

// The line of each command's words.
const USAGES: [(&str, &str); 8] = [
    ("load", "daq load CSV FILE SCHEMA"),
    ("query", "daq query FILE SQL [OPTION ..]"),
    ("session", "daq session FILE SCRIPT [OPTION ..]"),
    ("info", "daq info FILE"),
    ("upgrade", "daq upgrade OLD NEW"),
    ("ask", "daq ask CSV SCHEMA SQL [OPTION ..]"),
    ("demo", "daq demo SEED ROWS SQL [OPTION ..]"),
    (
        "combine",
        "daq combine PARTS REPORTS [--width NUMBER] [--rounds NUMBER] [--keys]",
    ),
];

// The options, and what stands behind each.
const OPTIONS: [(&str, &str); 9] = [
    (
        "--width",
        "a whole number of at most 9223372036854775807, in units of the last digit shown",
    ),
    ("--rounds", "a whole number of at most 4294967295"),
    ("--policy", "widest, order, filter or balanced"),
    ("--reads", "names of columns, parted by commas"),
    ("--list", ""),
    ("--part", ""),
    ("--clip", ""),
    ("--exact-avg", ""),
    ("--keys", ""),
];

// What stands beside a word in such a list.
fn beside(list: &[(&'static str, &'static str)], word: &str) -> Option<&'static str> {
    for (name, told) in list {
        if *name == word {
            return Some(*told);
        }
    }
    None
}

// Appends an option and what stands behind it, with a text between.
fn push_wanted(
    out: &mut String,
    option: &str,
    between: &str,
    wanted: &str,
) -> Result<(), AllocError> {
    out.push_str(option)?;
    out.push_str(between)?;
    out.push_str(wanted)
}

// Appends why the word may not come: what the word before it asks for, or what it is itself.
fn push_reason(out: &mut String, scene: &Scene<'_>, number: usize) -> Result<(), AllocError> {
    let before = scene.word_or_nothing(number.saturating_sub(1));
    let wanted = beside(&OPTIONS, before).unwrap_or("");
    match scene.word(number) {
        Some(word) if wanted.is_empty() => {
            push_quoted(out, word)?;
            out.push_str(told_of(scene, number, word))
        }
        Some(word) => {
            push_quoted(out, word)?;
            out.push_str(" may not stand behind ")?;
            push_wanted(out, before, ": ", wanted)
        }
        None if wanted.is_empty() => {
            out.push_str("something is missing behind ")?;
            push_quoted(out, before)
        }
        None => {
            out.push_str("behind ")?;
            push_wanted(out, before, " stands ", wanted)
        }
    }
}

// What is wrong with a word behind which no option asks for something.
fn told_of(scene: &Scene<'_>, number: usize, word: &str) -> &'static str {
    let command = scene.word_or_nothing(1);
    if number == 2 && command == "combine" {
        return " is no number of parts, from 1 to 65536";
    }
    let usage = beside(&USAGES, command).unwrap_or("");
    match beside(&OPTIONS, word) {
        Some(_) if !usage.ends_with("[OPTION ..]") => " may not stand here, or stands twice",
        Some(_) if word == "--reads" && command == "session" => { " may not stand in a session" }
        Some(_) if word == "--reads" || word == "--policy" => {
            " may not stand here: --policy and --reads say the same, once"
        }
        Some(_) if word == "--list" || word == "--part" => {
            " may not stand here: --list and --part say which rows are listed, once"
        }
        Some(_) => " may not stand here, or stands twice",
        None if word.starts_with("--") => " is no option",
        None => " may not stand here",
    }
}

// What is told of words that go wrong at a place.
pub(crate) fn explain_usage(
    out: &mut String,
    scene: &Scene<'_>,
    place: &str,
) -> Result<(), AllocError> {
    let number = place.strip_prefix("word ").unwrap_or("");
    let number = number.parse::<usize>().unwrap_or(1);
    if number < 2 {
        if let Some(word) = scene.word(1) {
            out.push_str("  ")?;
            push_quoted(out, word)?;
            out.push_str(" is no command\n")?;
        }
        return out.push_str("  daq help lists the commands\n");
    }
    if scene.word_or_nothing(2) == "--help" {
        out.push_str("  daq help tells the commands and their options\n")?;
    } else {
        out.push_str("  ")?;
        push_reason(out, scene, number)?;
        out.push_str("\n")?;
    }
    match beside(&USAGES, scene.word_or_nothing(1)) {
        Some(usage) => push_wanted(out, "  ", usage, "\n"),
        None => out.push_str("  daq help lists the commands\n"),
    }
}
