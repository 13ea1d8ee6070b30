//! Where in the report of each shard the cells within a line stand. Lines in order cut the cells of a shard into runs: then each cell is
//! looked at for one line, and not for all.

ghost use Rattle.std.specs.Prelude.{◌≡◌, ◌<◌, ◌≤◌, [], ◌∷◌, IfOk, List, drop, length, slice_index_or};
ghost use Rattle.shard_groups.specs.Cuts.{AreNear, AreOn, ArePartsOf, IsNear, IsOn, IsPartOf, behind, cells_of, is_cut, is_of};
ghost use Rattle.shard_groups.specs.Groups.{cells_within};
ghost use Rattle.shard_groups.specs.Lines.{AreApart};
ghost use Rattle.shard_groups.specs.declared.keys.Span.{Span};

use crate::cells::{Cell, Cells};
use crate::keys::{Keys, Relation, Span, related};
use std::alloc::{AllocError, Global};

// The cells of a shard that may lie within a line.
#[derive(Clone, Copy)]
pub(crate) enum Run {
    All,
    // From a place up to another.
    Part { from: usize, to: usize },
}

fn is_of(line: &[Span], cell: &Cell) -> bool
    ensures { result ≡ is_of line.now cell.now }
{
    let keys = cell.keys.as_slice();
    related(Relation::Meet, keys, keys) && related(Relation::Within, keys, line)
}

// How many cells in front are of the line.
fn run_length(line: &[Span], cells: &[Cell]) -> usize
    ensures within { result ≤ length cells.now }
    ensures behind { drop result cells.now ≡ behind line.now cells.now }
{
    for (at, cell) in cells.iter().enumerate() {
        if !is_of(line, cell) {
            return at;
        }
    }
    cells.len()
}

// Whether the lines cut the cells into runs.
fn is_cut(lines: &[Keys], cells: &[Cell]) -> bool
    ensures { result ≡ is_cut lines.now cells.now }
{
    let mut at = 0;
    for line in lines {
        at += run_length(line.as_slice(), &cells[at..]);
    }
    at == cells.len()
}

// The run in front of the first line.
fn first_run(lines: &[Keys], cells: &[Cell]) -> Run
    ensures { IsOn lines.now cells.now result }
{
    if is_cut(lines, cells) {
        Run::Part { from: 0, to: 0 }
    } else {
        Run::All
    }
}

// The same of each shard.
pub(crate) fn first_runs(
    alloc: Global,
    lines: &[Keys],
    shards: &[Cells],
) -> Result<Vec<Run>, AllocError>
    ensures { IfOk result (λ runs. AreOn lines.now shards.now runs.items) }
{
    let mut runs = Vec::with_capacity(alloc, shards.len())?;
    for cells in shards {
        runs.push(first_run(lines, cells.as_slice()))?;
    }
    Ok(runs)
}

// The run of the next line.
fn next_run(line: &[Span], cells: &[Cell], run: Run) -> Run
    requires { IsPartOf run cells.now }
    ensures { (lines : List (List Span)) → AreApart (line.now ∷ lines) → IsOn (line.now ∷ lines) cells.now run →
        IsNear line.now cells.now result × IsOn lines cells.now result }
{
    match run {
        Run::All => Run::All,
        Run::Part { to, .. } => Run::Part {
            from: to,
            to: to + run_length(line, &cells[to..]),
        },
    }
}

// The same of each shard.
pub(crate) fn next_runs(
    alloc: Global,
    line: &[Span],
    shards: &[Cells],
    runs: &[Run],
) -> Result<Vec<Run>, AllocError>
    requires { ArePartsOf shards.now runs.now }
    ensures { IfOk result (λ next. (lines : List (List Span)) → AreApart (line.now ∷ lines) → AreOn (line.now ∷ lines) shards.now runs.now →
        AreNear line.now shards.now next.items × AreOn lines shards.now next.items) }
{
    let mut next = Vec::with_capacity(alloc, shards.len())?;
    for (shard, cells) in shards.iter().enumerate() {
        next.push(next_run(line, cells.as_slice(), runs[shard]))?;
    }
    Ok(next)
}

fn cells_of<'a>(run: Run, cells: &'a [Cell]) -> &'a [Cell]
    requires { IsPartOf run cells.now }
    ensures { result.now ≡ cells_of run cells.now }
{
    match run {
        Run::All => cells,
        Run::Part { from, to } => &cells[from..to],
    }
}

// The cells of a shard that may lie within the line.
pub(crate) fn near<'a>(line: &[Span], shards: &'a [Cells], runs: &[Run], shard: usize) -> &'a [Cell]
    requires near { AreNear line.now shards.now runs.now }
    requires shard { shard < length shards.now }
    ensures { cells_within line.now result.now ≡ cells_within line.now (slice_index_or shards.now shard []) }
{
    cells_of(runs[shard], shards[shard].as_slice())
}
