//! Lines of cells that stand in order, found by one pass over the cells of each shard.

ghost use Rattle.std.specs.Prelude.{◌≡◌, IfNone, IfOk, IfSome, IsTrue, OnOk, [], ◌∷◌, ◌++◌, true};
ghost use Rattle.shard_groups.specs.Groups.{all_keys, keys_in};
ghost use Rattle.shard_groups.specs.Keys.{meets};
ghost use Rattle.shard_groups.specs.Lines.{AreCovered, IsCovered};
ghost use Rattle.shard_groups.specs.Steps.{AreNarrow, in_steps};

use crate::cells::{Cell, Cells};
use crate::keys::{Keys, Relation, Span, copied_keys, hull, related};
use crate::order::{comes_before, is_step};
use std::alloc::{AllocError, Global};

// Takes the last line away if it has a key of `line`.
fn take_if_meets(lines: &mut Vec<Keys>, line: &[Span]) -> Option<Keys>
    ensures taken { IfSome result (λ last. IsTrue (meets line.now last) × (lines.old.items ≡ lines.new.items ++ last ∷ [])) }
    ensures kept { IfNone result (lines.new.items ≡ lines.old.items) }
{
    let count = lines.len();
    if count == 0 || !related(Relation::Meet, line, lines[count - 1].as_slice()) {
        return None;
    }
    lines.pop()
}

// Puts the keys of a cell behind some lines, as one line with those at the end that they meet.
fn join(alloc: Global, lines: &mut Vec<Keys>, cell: &[Span]) -> Result<(), AllocError>
    ensures { OnOk result (AreNarrow (cell.now ∷ lines.old.items) lines.new.items) }
{
    let mut line = copied_keys(alloc, cell)?;
    while let Some(last) = take_if_meets(lines, line.as_slice()) {
        line = hull(alloc, line.as_slice(), last.as_slice())?;
    }
    lines.push(line)?;
    Ok(())
}

// The lines of some lines and of the cells of a shard, taken by their order.
fn merged(alloc: Global, lines: &[Keys], cells: &[Cell]) -> Result<Vec<Keys>, AllocError>
    ensures { IfOk result (λ merged. AreNarrow (keys_in cells.now ++ lines.now) merged.items) }
{
    let mut merged = Vec::with_capacity(alloc, lines.len())?;
    let mut done = 0;
    let mut at = 0;
    while done < cells.len() || at < lines.len() {
        if at < lines.len()
            && (done == cells.len()
                || comes_before(lines[at].as_slice(), cells[done].keys.as_slice()))
        {
            join(alloc, &mut merged, lines[at].as_slice())?;
            at += 1;
        } else {
            join(alloc, &mut merged, cells[done].keys.as_slice())?;
            done += 1;
        }
    }
    Ok(merged)
}

// The place of the first line from there on that has all keys of a cell.
fn covering(lines: &[Keys], from: usize, cell: &[Span]) -> Option<usize>
    ensures { IfSome result (λ at. IsCovered cell.now lines.now) }
{
    for at in from..lines.len() {
        if related(Relation::Within, cell, lines[at].as_slice()) {
            return Some(at);
        }
    }
    None
}

// Whether each cell lies within a line, as it is seen where both stand in order.
fn are_covered(lines: &[Keys], cells: &[Cell]) -> bool
    ensures { result ≡ true → AreCovered (keys_in cells.now) lines.now }
{
    let mut from = 0;
    for cell in cells {
        match covering(lines, from, cell.keys.as_slice()) {
            Some(at) => from = at,
            None => return false,
        }
    }
    true
}

// The lines of some lines and of the cells of a shard. They stay where they have all keys of the cells.
#[tactic(auto, using(crate::proofs::Narrow::narrow_kept))]
fn with_cells(alloc: Global, lines: Vec<Keys>, cells: &[Cell]) -> Result<Vec<Keys>, AllocError>
    ensures { IfOk result (λ next. AreNarrow (keys_in cells.now ++ lines.items) next.items) }
{
    if are_covered(&lines, cells) {
        return Ok(lines);
    }
    merged(alloc, &lines, cells)
}

// The lines of the cells of all shards, if cells and lines stand in order; else some of them may meet.
pub(crate) fn lines_in_order(alloc: Global, shards: &[Cells]) -> Result<Vec<Keys>, AllocError>
    ensures { IfOk result (λ lines. AreNarrow (all_keys shards.now) lines.items) }
{
    let mut lines = Vec::new(alloc);
    let mut i = shards.len();
    while 0 < i {
        i -= 1;
        lines = with_cells(alloc, lines, shards[i].as_slice())?;
    }
    Ok(lines)
}

// Whether the lines stand in order and do not meet.
pub(crate) fn in_steps(lines: &[Keys]) -> bool
    ensures { result ≡ in_steps lines.now }
{
    let mut next = 1;
    while next < lines.len() {
        if !is_step(lines[next - 1].as_slice(), lines[next].as_slice()) {
            return false;
        }
        next += 1;
    }
    true
}
