//! Which keys each line of a combined report has.

ghost use Rattle.std.specs.Prelude.{◌<◌, IfOk, IfNone, IfSome, IsTrue, List, OnOk, [], ◌∷◌, ◌++◌, length, slice_index_or};
ghost use Rattle.shard_groups.specs.Groups.{all_keys, keys_in};
ghost use Rattle.shard_groups.specs.Keys.{meets};
ghost use Rattle.shard_groups.specs.Lines.{AreLines, IsApart, IsAscending};
ghost use Rattle.shard_groups.specs.declared.keys.Span.{Span};

use crate::cells::{Cell, Cells};
use crate::keys::{Keys, Relation, Span, copied_keys, hull, related};
use crate::merged::{in_steps, lines_in_order};
use crate::order::in_order;
use std::alloc::{AllocError, Global};

// The first line that has a key of `line`.
fn first_that_meets(lines: &[Keys], line: &[Span]) -> Option<usize>
    ensures found { IfSome result (λ at. (at < length lines.now) × IsTrue (meets line.now (slice_index_or lines.now at []))) }
    ensures none { IfNone result (IsApart line.now lines.now) }
{
    for (at, other) in lines.iter().enumerate() {
        if related(Relation::Meet, line, other.as_slice()) {
            return Some(at);
        }
    }
    None
}

// Makes lines of some cells to those of one cell more.
pub(crate) fn add(alloc: Global, lines: &mut Vec<Keys>, cell: &[Span]) -> Result<(), AllocError>
    ensures { OnOk result ((cells : List (List Span)) → AreLines cells lines.old.items →
        AreLines (cell.now ∷ cells) lines.new.items) }
{
    let mut line = copied_keys(alloc, cell)?;
    while let Some(at) = first_that_meets(lines, line.as_slice()) {
        let other = lines.remove(at);
        line = hull(alloc, line.as_slice(), other.as_slice())?;
    }
    lines.insert(0, line)?;
    Ok(())
}

// Makes lines of some cells to those of more.
fn add_all(alloc: Global, lines: &mut Vec<Keys>, cells: &[Cell]) -> Result<(), AllocError>
    ensures { OnOk result ((others : List (List Span)) → AreLines others lines.old.items →
        AreLines (keys_in cells.now ++ others) lines.new.items) }
{
    let mut i = cells.len();
    while 0 < i {
        i -= 1;
        add(alloc, lines, cells[i].keys.as_slice())?;
    }
    Ok(())
}

// The lines of the cells of all shards, in any order.
fn lines_in_any_order(alloc: Global, shards: &[Cells]) -> Result<Vec<Keys>, AllocError>
    ensures { IfOk result (λ lines. AreLines (all_keys shards.now) lines.items) }
{
    let mut lines = Vec::new(alloc);
    let mut i = shards.len();
    while 0 < i {
        i -= 1;
        add_all(alloc, &mut lines, shards[i].as_slice())?;
    }
    Ok(lines)
}

// The lines of the cells of all shards.
pub(crate) fn lines(alloc: Global, shards: &[Cells]) -> Result<Vec<Keys>, AllocError>
    ensures lines { IfOk result (λ lines. AreLines (all_keys shards.now) lines.items) }
    ensures ascending { IfOk result (λ lines. IsAscending lines.items) }
{
    let lines = lines_in_order(alloc, shards)?;
    if in_steps(&lines) {
        return Ok(lines);
    }
    let lines = lines_in_any_order(alloc, shards)?;
    let ordered = in_order(alloc, &lines)?;
    Ok(ordered)
}
