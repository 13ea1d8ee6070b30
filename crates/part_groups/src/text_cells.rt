//! What the groups of parts tell of the least and the greatest texts.

ghost use Rattle.std.specs.Prelude.{◌≡◌, IfOk, is_some, map};
ghost use Rattle.std.specs.List.{list_any};
ghost use Rattle.part_groups.specs.Cells.{slices};
ghost use Rattle.part_groups.specs.Texts.{tell_texts, text_at, text_cell, text_cells, told_cells};

use crate::cells::keys_of;
use crate::group::Group;
use daq_table::Listed;
use report_text::TextAnswer;
use shard_groups::Keys;
use std::alloc::{AllocError, Global};
use text_extremes::copied_answer;

// The keys of a group, and where the text of each item lies of which it tells one.
#[derive(Drop)]
pub(crate) struct TextCell {
    pub keys: Keys,
    pub texts: Listed<Option<TextAnswer>>,
}

fn copied_texts(
    alloc: Global,
    texts: &[Option<TextAnswer>],
) -> Result<Vec<Option<TextAnswer>>, AllocError>
    ensures { IfOk result (λ copy. copy.items ≡ texts.now) }
{
    let mut copy = Vec::with_capacity(alloc, texts.len())?;
    for text in texts {
        copy.push(copied_answer(alloc, text)?)?;
    }
    Ok(copy)
}

// Whether the text of an item is told.
pub(crate) fn has_text(item: usize, texts: &[Option<TextAnswer>]) -> bool
    ensures { result ≡ is_some (text_at item texts.now) }
{
    match texts.get(item) {
        Some(Some(_)) => true,
        Some(None) | None => false,
    }
}

/// Where the text of an item lies, if it is told.
pub fn text_at(
    alloc: Global,
    item: usize,
    texts: &[Option<TextAnswer>],
) -> Result<Option<TextAnswer>, AllocError>
    ensures { IfOk result (λ text. text ≡ text_at item texts.now) }
{
    match texts.get(item) {
        Some(text) => copied_answer(alloc, text),
        None => Ok(None),
    }
}

fn are_told(texts: &[Option<TextAnswer>]) -> bool
    ensures { result ≡ list_any is_some texts.now }
{
    for text in texts {
        if text.is_some() {
            return true;
        }
    }
    false
}

fn some_tells(groups: &[Group]) -> bool
    ensures { result ≡ list_any (λ group. list_any is_some group.texts) groups.now }
{
    for group in groups {
        if are_told(group.texts.as_slice()) {
            return true;
        }
    }
    false
}

// Whether some group of some part tells a text.
fn tell_texts(parts: &[&[Group]]) -> bool
    ensures { result ≡ tell_texts (slices parts.now) }
{
    for groups in parts {
        if some_tells(groups) {
            return true;
        }
    }
    false
}

fn text_cell(alloc: Global, group: &Group) -> Result<TextCell, AllocError>
    ensures { IfOk result (λ cell. cell ≡ text_cell group.now) }
{
    let keys = keys_of(alloc, group.line.keys.as_slice())?;
    let texts = copied_texts(alloc, group.texts.as_slice())?;
    Ok(TextCell {
        keys,
        texts: Listed::new(texts),
    })
}

// Those of a part.
fn cells_by(alloc: Global, groups: &[Group]) -> Result<Listed<TextCell>, AllocError>
    ensures { IfOk result (λ cells. cells ≡ map text_cell groups.now) }
{
    let mut cells = Vec::with_capacity(alloc, groups.len())?;
    for group in groups {
        cells.push(text_cell(alloc, group)?)?;
    }
    Ok(Listed::new(cells))
}

fn text_cells(alloc: Global, parts: &[&[Group]]) -> Result<Listed<Listed<TextCell>>, AllocError>
    ensures { IfOk result (λ cells. cells ≡ text_cells (slices parts.now)) }
{
    let mut cells = Vec::with_capacity(alloc, parts.len())?;
    for groups in parts {
        cells.push(cells_by(alloc, groups)?)?;
    }
    Ok(Listed::new(cells))
}

// Those of all parts, if one tells a text.
pub(crate) fn told_cells(
    alloc: Global,
    parts: &[&[Group]],
) -> Result<Option<Listed<Listed<TextCell>>>, AllocError>
    ensures { IfOk result (λ cells. cells ≡ told_cells (slices parts.now)) }
{
    if tell_texts(parts) {
        Ok(Some(text_cells(alloc, parts)?))
    } else {
        Ok(None)
    }
}
