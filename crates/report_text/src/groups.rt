//! The lines of groups, read back: which keys they show, and whether these are in the result for certain.

ghost use Rattle.std.specs.Prelude.{◌≡◌, ◌++◌, ℕ, List, Bool, codes, Some, IfOk, IfSome, OnOk, true, false};
ghost use Rattle.std.specs.List.{All};
ghost use Rattle.report_text.specs.Groups.{AreShownKeys, HasPresence, IsShownGroup, group_line, presence_text};
ghost use Rattle.report_text.specs.Keys.{IsShownSpan, keys_text};
ghost use Rattle.report_text.specs.Reading.{others_text};
ghost use Rattle.report_text.specs.declared.groups.GroupLine.{GroupLine};
ghost use Rattle.report_text.specs.declared.keys.ShownSpan.{ShownSpan};

use crate::keys::{ShownSpan, append_span, read_span};
use crate::layouts::{before, behind};
use crate::quotes::around_outside;
use daq_table::{Listed, Text};
use std::alloc::{AllocError, Global};

/// What a key may have in each group column, in order.
pub type ShownKeys = Listed<ShownSpan>;

/// The line of a group: its keys, and whether they are in the result for certain.
#[derive(Drop, Debug)]
pub struct GroupLine {
    pub keys: ShownKeys,
    pub present: bool,
}

// The keys whose text this is. It may read it where a report would write it in another way.
fn read_keys(alloc: Global, text: &[u8]) -> Result<Option<ShownKeys>, AllocError>
    ensures shown { IfOk result (λ read. IfSome read AreShownKeys) }
    ensures read { IfOk result (λ read. (keys : List ShownSpan) → AreShownKeys keys → keys_text keys ≡ text.now → read ≡ Some keys) }
{
    let mut spans = Vec::new(alloc);
    let mut rest = text;
    while let Some((part, next)) = around_outside(rest, b", ") {
        match read_span(alloc, part)? {
            Some(span) => spans.push(span)?,
            None => return Ok(None),
        }
        rest = next;
    }
    match read_span(alloc, rest)? {
        Some(span) => {
            spans.push(span)?;
            Ok(Some(ShownKeys::new(spans)))
        }
        None => Ok(None),
    }
}

// What stands before the word on whether keys are in the result for certain, and what it says.
fn around_presence(text: &[u8]) -> Option<(&[u8], bool)>
    ensures { (keys : List ℕ) (present : Bool) → keys ++ presence_text present ≡ text.now → HasPresence keys present result }
{
    match before(text, b" present") {
        Some(keys) => Some((keys, true)),
        None => Some((before(text, b" possible")?, false)),
    }
}

// What stands behind the word of a group, parted.
fn parts_of_line(line: &[u8]) -> Option<(&[u8], bool)>
    ensures { (keys : List ℕ) (present : Bool) → codes "group " ++ (keys ++ presence_text present) ≡ line.now
        → HasPresence keys present result }
{
    let rest = behind(line, b"group ")?;
    around_presence(rest)
}

// The group of these keys.
fn with_presence(keys: Option<ShownKeys>, present: bool) -> Option<GroupLine>
    requires { IfSome keys AreShownKeys }
    ensures shown { IfSome result IsShownGroup }
    ensures is { (shown : List ShownSpan) → keys ≡ Some shown → result ≡ Some (record { keys = shown; present = present }) }
{
    match keys {
        Some(keys) => Some(GroupLine { keys, present }),
        None => None,
    }
}

// The group whose line this is. It may read it where a report would write it in another way.
fn read_loosely(alloc: Global, line: &[u8]) -> Result<Option<GroupLine>, AllocError>
    ensures shown { IfOk result (λ read. IfSome read IsShownGroup) }
    ensures read { IfOk result (λ read. (group : GroupLine) → IsShownGroup group → group_line group ≡ line.now → read ≡ Some group) }
{
    match parts_of_line(line) {
        Some((keys, present)) => Ok(with_presence(read_keys(alloc, keys)?, present)),
        None => Ok(None),
    }
}

// Appends the keys of the columns behind the first.
fn append_others(keys: &[ShownSpan], text: &mut Vec<u8>) -> Result<(), AllocError>
    requires { All IsShownSpan keys.now }
    ensures { OnOk result (text.new.items ≡ text.old.items ++ others_text keys.now) }
{
    for span in keys {
        text.extend_from_slice(b", ")?;
        append_span(span, text)?;
    }
    Ok(())
}

// Appends the keys.
fn append_keys(keys: &[ShownSpan], text: &mut Vec<u8>) -> Result<(), AllocError>
    requires { AreShownKeys keys.now }
    ensures { OnOk result (text.new.items ≡ text.old.items ++ keys_text keys.now) }
{
    match keys {
        [] => Ok(()),
        [first, others @ ..] => {
            append_span(first, text)?;
            append_others(others, text)
        }
    }
}

// The word on whether keys are in the result for certain.
fn presence_word(present: bool) -> &'static [u8]
    ensures { result.now ≡ presence_text present }
{
    if present { b" present" } else { b" possible" }
}

/// The line of a group.
pub fn written_group(alloc: Global, group: &GroupLine) -> Result<Text, AllocError>
    requires { IsShownGroup group.now }
    ensures { IfOk result (λ text. text ≡ group_line group.now) }
{
    let mut text = Vec::new(alloc);
    text.extend_from_slice(b"group ")?;
    append_keys(group.keys.as_slice(), &mut text)?;
    text.extend_from_slice(presence_word(group.present))?;
    Ok(Text::new(text))
}

/// What the line of a group says: it is read back as it was written, and what is read is written as it stood.
pub fn read_group(alloc: Global, line: &[u8]) -> Result<Option<GroupLine>, AllocError>
    ensures read { IfOk result (λ read. (group : GroupLine) → IsShownGroup group → group_line group ≡ line.now → read ≡ Some group) }
    ensures written { IfOk result (λ read. IfSome read (λ group. IsShownGroup group × (group_line group ≡ line.now))) }
{
    match read_loosely(alloc, line)? {
        Some(group) => {
            let text = written_group(alloc, &group)?;
            if text.as_slice() == line {
                Ok(Some(group))
            } else {
                Ok(None)
            }
        }
        None => Ok(None),
    }
}
