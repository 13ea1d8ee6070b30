//! The combined report of the reports of all shards.

ghost use Rattle.std.specs.Prelude.{◌≡◌, IfErr, IfOk, OnOk, map};
ghost use Rattle.std.specs.List.{All};
ghost use Rattle.shard_groups.specs.Cuts.{AreNear};
ghost use Rattle.shard_groups.specs.Groups.{AllFit, FitsSaid, IsCombined, IsGroupFault, IsItemFault, IsLineFault, IsLineOver, Value};
ghost use Rattle.shard_groups.specs.Groups.{bound_over, said_from, said_of, said_over, shares};

use crate::averages::average_over;
use crate::cells::{Cell, Cells, ItemBound};
use crate::fault::GroupFault;
use crate::keys::{Keys, Span, copied_keys};
use crate::lines::lines;
use crate::runs::{Run, first_runs, near, next_runs};
use crate::shares::{is_present, share};
use daq_table::Listed;
use query_model::{Bound, ItemKind};
use shard_bounds::combine;
use std::alloc::{AllocError, Global};

// The bounds of the shards for each key of the line.
fn shares(
    alloc: Global,
    kind: ItemKind,
    item: usize,
    line: &[Span],
    shards: &[Cells],
    runs: &[Run],
) -> Result<Vec<Bound>, AllocError>
    requires { AreNear line.now shards.now runs.now }
    ensures { IfOk result (λ bounds. bounds.items ≡ shares kind item line.now shards.now) }
{
    let mut bounds = Vec::with_capacity(alloc, shards.len())?;
    for shard in 0..shards.len() {
        bounds.push(share(kind, item, line, near(line, shards, runs, shard)))?;
    }
    Ok(bounds)
}

// The bound over all shards for each key of the line.
fn bound_over(
    alloc: Global,
    kind: ItemKind,
    item: usize,
    line: &[Span],
    shards: &[Cells],
    runs: &[Run],
) -> Result<Bound, GroupFault>
    requires { AreNear line.now shards.now runs.now }
    ensures bound { IfOk result (λ bound. bound ≡ bound_over kind item line.now shards.now) }
    ensures fit { OnOk result (FitsSaid (Value (bound_over kind item line.now shards.now))) }
    ensures fault { IfErr result (λ why. IsItemFault why item (Value (bound_over kind item line.now shards.now))) }
{
    let bounds = shares(alloc, kind, item, line, shards, runs)?;
    match combine(kind, &bounds) {
        Some(bound) => Ok(bound),
        None => Err(GroupFault::TooWide(item)),
    }
}

// What is said of an item.
fn said_over(
    alloc: Global,
    kind: ItemKind,
    item: usize,
    line: &[Span],
    shards: &[Cells],
    runs: &[Run],
) -> Result<ItemBound, GroupFault>
    requires { AreNear line.now shards.now runs.now }
    ensures said { IfOk result (λ bound. said_of bound ≡ said_over kind item line.now shards.now) }
    ensures fit { OnOk result (FitsSaid (said_over kind item line.now shards.now)) }
    ensures fault { IfErr result (λ why. IsItemFault why item (said_over kind item line.now shards.now)) }
{
    match kind {
        ItemKind::Avg => {
            let average = average_over(alloc, item, line, shards, runs)?;
            Ok(ItemBound::Average(average))
        }
        ItemKind::Count | ItemKind::Sum | ItemKind::Min | ItemKind::Max => {
            let bound = bound_over(alloc, kind, item, line, shards, runs)?;
            Ok(ItemBound::Value(bound))
        }
    }
}

// What is said of all items.
fn all_said(
    alloc: Global,
    kinds: &[ItemKind],
    line: &[Span],
    shards: &[Cells],
    runs: &[Run],
) -> Result<Vec<ItemBound>, GroupFault>
    requires { AreNear line.now shards.now runs.now }
    ensures said { IfOk result (λ bounds. map said_of bounds.items ≡ said_from 0 kinds.now line.now shards.now) }
    ensures fit { OnOk result (All FitsSaid (said_from 0 kinds.now line.now shards.now)) }
    ensures fault { IfErr result (λ why. IsLineFault why kinds.now line.now shards.now) }
{
    let mut bounds = Vec::with_capacity(alloc, kinds.len())?;
    for (item, kind) in kinds.iter().enumerate() {
        let bound = said_over(alloc, *kind, item, line, shards, runs)?;
        bounds.push(bound)?;
    }
    Ok(bounds)
}

// What is said of the keys of the line.
fn line_over(
    alloc: Global,
    kinds: &[ItemKind],
    line: &[Span],
    shards: &[Cells],
    runs: &[Run],
) -> Result<Cell, GroupFault>
    requires { AreNear line.now shards.now runs.now }
    ensures keys { IfOk result (λ cell. cell.keys ≡ line.now) }
    ensures line { IfOk result (IsLineOver kinds.now shards.now) }
    ensures fit { OnOk result (All FitsSaid (said_from 0 kinds.now line.now shards.now)) }
    ensures fault { IfErr result (λ why. IsLineFault why kinds.now line.now shards.now) }
{
    let items = all_said(alloc, kinds, line, shards, runs)?;
    let keys = copied_keys(alloc, line)?;
    Ok(Cell {
        keys,
        present: is_present(line, shards, runs),
        items: Listed::new(items),
    })
}

/// The combined report of a query with items of these kinds. Where the cells of each shard and the lines stand in order, as those of one
/// group column and those of one key each do, its time grows with the cells and with lines times shards; else with cells times lines.
/// Where bounds are too wide, the fault tells the first such item of the first line that has one.
pub fn combine_groups(
    alloc: Global,
    kinds: &[ItemKind],
    shards: &[Cells],
) -> Result<Vec<Cell>, GroupFault>
    ensures cells { IfOk result (λ cells. IsCombined kinds.now shards.now cells.items) }
    ensures fit { OnOk result (AllFit kinds.now shards.now) }
    ensures fault { IfErr result (λ why. IsGroupFault why kinds.now shards.now) }
{
    let lines = lines(alloc, shards)?;
    let mut runs = first_runs(alloc, &lines, shards)?;
    let mut cells = Vec::with_capacity(alloc, lines.len())?;
    for line in &lines {
        runs = next_runs(alloc, line.as_slice(), shards, &runs)?;
        let cell = line_over(alloc, kinds, line.as_slice(), shards, &runs)?;
        cells.push(cell)?;
    }
    Ok(cells)
}
