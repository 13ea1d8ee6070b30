//! Where the least or the greatest texts of groups lie over all parts.

ghost use Rattle.std.specs.Prelude.{◌≡◌, ◌++◌, IfOk, OnOk};
ghost use Rattle.part_groups.specs.Texts.{all_texts, extreme_of, told_by, text_by, texts_from, texts_with, texts_within};

use crate::text_cells::{TextCell, text_at};
use daq_table::Listed;
use query_model::ItemKind;
use report_text::TextAnswer;
use shard_groups::{Span, is_within};
use std::alloc::{AllocError, Global};
use text_extremes::{Extreme, combine};

/// Which text an item of that kind may ask for.
pub fn extreme_of(kind: ItemKind) -> Option<Extreme>
    ensures { result ≡ extreme_of kind }
{
    match kind {
        ItemKind::Count | ItemKind::Sum | ItemKind::Avg => None,
        ItemKind::Min => Some(Extreme::Least),
        ItemKind::Max => Some(Extreme::Greatest),
    }
}

// What a cell that has all keys of the line tells of each, or one that has not.
fn told_by(has_all: bool, text: Option<TextAnswer>) -> Option<TextAnswer>
    ensures { result ≡ told_by has_all text }
{
    match text {
        Some(text) => Some(TextAnswer {
            null: !has_all || text.null,
            ends: text.ends,
        }),
        None => None,
    }
}

// Puts what the cells of a part tell of each key of the line behind the texts.
fn push_within(
    alloc: Global,
    item: usize,
    line: &[Span],
    cells: &[TextCell],
    texts: &mut Vec<Option<TextAnswer>>,
) -> Result<(), AllocError>
    ensures { OnOk result (texts.new.items ≡ texts.old.items ++ texts_within item line.now cells.now) }
{
    for cell in cells {
        let keys = cell.keys.as_slice();
        if is_within(keys, line) {
            let text = text_at(alloc, item, cell.texts.as_slice())?;
            texts.push(told_by(is_within(line, keys), text))?;
        }
    }
    Ok(())
}

// What those of all parts tell.
fn all_texts(
    alloc: Global,
    item: usize,
    line: &[Span],
    parts: &[Listed<TextCell>],
) -> Result<Vec<Option<TextAnswer>>, AllocError>
    ensures { IfOk result (λ texts. texts.items ≡ all_texts item line.now parts.now) }
{
    let mut texts = Vec::new(alloc);
    for cells in parts {
        push_within(alloc, item, line, cells.as_slice(), &mut texts)?;
    }
    Ok(texts)
}

fn text_by(
    alloc: Global,
    extreme: Option<Extreme>,
    item: usize,
    line: &[Span],
    parts: &[Listed<TextCell>],
) -> Result<Option<TextAnswer>, AllocError>
    ensures { IfOk result (λ text. text ≡ text_by extreme item line.now parts.now) }
{
    match extreme {
        Some(extreme) => {
            let texts = all_texts(alloc, item, line, parts)?;
            combine(alloc, extreme, &texts)
        }
        None => Ok(None),
    }
}

// Where the texts of all items lie for the keys of the line.
fn texts_for(
    alloc: Global,
    kinds: &[ItemKind],
    line: &[Span],
    parts: &[Listed<TextCell>],
) -> Result<Vec<Option<TextAnswer>>, AllocError>
    ensures { IfOk result (λ texts. texts.items ≡ texts_from 0 kinds.now line.now parts.now) }
{
    let mut texts = Vec::with_capacity(alloc, kinds.len())?;
    for (item, kind) in kinds.iter().enumerate() {
        texts.push(text_by(alloc, extreme_of(*kind), item, line, parts)?)?;
    }
    Ok(texts)
}

// So it is if the parts tell texts.
pub(crate) fn texts_with(
    alloc: Global,
    kinds: &[ItemKind],
    cells: &Option<Listed<Listed<TextCell>>>,
    line: &[Span],
) -> Result<Vec<Option<TextAnswer>>, AllocError>
    ensures { IfOk result (λ texts. texts.items ≡ texts_with kinds.now cells.now line.now) }
{
    match cells {
        Some(cells) => texts_for(alloc, kinds, line, cells.as_slice()),
        None => Ok(Vec::new(alloc)),
    }
}
