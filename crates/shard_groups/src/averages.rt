//! Averages of the keys of a line.

ghost use Rattle.std.specs.Prelude.{◌≡◌, IfErr, IfOk, OnOk, map};
ghost use Rattle.query_model.specs.Bounds.{fractions_of};
ghost use Rattle.shard_bounds.specs.Averages.{no_average};
ghost use Rattle.shard_groups.specs.Cuts.{AreNear};
ghost use Rattle.shard_groups.specs.Groups.{Average, FitsSaid, IsItemFault, average_at, average_over, average_share};
ghost use Rattle.shard_groups.specs.Groups.{cells_within, loosened};

use crate::cells::{Cell, Cells, ItemBound};
use crate::fault::GroupFault;
use crate::keys::Span;
use crate::runs::{Run, near};
use crate::shares::{is_within, only};
use interval_calc::Fraction;
use query_model::{AverageBound, Nullity};
use shard_bounds::{combine_averages, hull_of_averages};
use std::alloc::{AllocError, Global};

// No row gives a value.
fn no_average() -> AverageBound
    ensures { fractions_of result ≡ no_average }
{
    let none = Fraction { num: 0, den: 1 };
    AverageBound {
        null: Nullity::Always,
        lo: none,
        hi: none,
    }
}

// What a cell says of an average, counted from 0.
fn average_at(item: usize, cell: &Cell) -> AverageBound
    ensures { fractions_of result ≡ average_at item cell.now }
{
    match cell.items.as_slice().get(item) {
        Some(ItemBound::Average(bound)) => *bound,
        Some(ItemBound::Value(_)) | None => no_average(),
    }
}

// The same average, or none.
fn loosened(bound: AverageBound) -> AverageBound
    ensures { fractions_of result ≡ loosened (fractions_of bound) }
{
    let null = match bound.null {
        Nullity::Never | Nullity::Possibly => Nullity::Possibly,
        Nullity::Always => Nullity::Always,
    };
    AverageBound {
        null,
        lo: bound.lo,
        hi: bound.hi,
    }
}

// What the cells within the line say, each made uncertain.
fn loosened_within(
    alloc: Global,
    item: usize,
    line: &[Span],
    cells: &[Cell],
) -> Result<Vec<AverageBound>, AllocError>
    ensures { IfOk result (λ bounds.
        map fractions_of bounds.items ≡ map loosened (map (average_at item) (cells_within line.now cells.now))) }
{
    let mut bounds = Vec::new(alloc);
    for cell in cells {
        if is_within(cell.keys.as_slice(), line) {
            bounds.push(loosened(average_at(item, cell)))?;
        }
    }
    Ok(bounds)
}

// The bound of a shard for each key of the line.
fn average_share(
    alloc: Global,
    item: usize,
    line: &[Span],
    cells: &[Cell],
) -> Result<AverageBound, AllocError>
    ensures { IfOk result (λ bound. fractions_of bound ≡ average_share item line.now cells.now) }
{
    if let Some(cell) = only(line, cells) {
        return Ok(average_at(item, cell));
    }
    let bounds = loosened_within(alloc, item, line, cells)?;
    Ok(hull_of_averages(&bounds))
}

// The bounds of all shards for each key of the line.
fn average_shares(
    alloc: Global,
    item: usize,
    line: &[Span],
    shards: &[Cells],
    runs: &[Run],
) -> Result<Vec<AverageBound>, AllocError>
    requires { AreNear line.now shards.now runs.now }
    ensures { IfOk result (λ bounds. map fractions_of bounds.items ≡ map (average_share item line.now) shards.now) }
{
    let mut bounds = Vec::with_capacity(alloc, shards.len())?;
    for shard in 0..shards.len() {
        let bound = average_share(alloc, item, line, near(line, shards, runs, shard))?;
        bounds.push(bound)?;
    }
    Ok(bounds)
}

// The bound of the average over all shards.
pub(crate) fn average_over(
    alloc: Global,
    item: usize,
    line: &[Span],
    shards: &[Cells],
    runs: &[Run],
) -> Result<AverageBound, GroupFault>
    requires { AreNear line.now shards.now runs.now }
    ensures bound { IfOk result (λ bound. fractions_of bound ≡ average_over item line.now shards.now) }
    ensures fit { OnOk result (FitsSaid (Average (average_over item line.now shards.now))) }
    ensures fault { IfErr result (λ why. IsItemFault why item (Average (average_over item line.now shards.now))) }
{
    let bounds = average_shares(alloc, item, line, shards, runs)?;
    match combine_averages(&bounds) {
        Some(bound) => Ok(bound),
        None => Err(GroupFault::TooWide(item)),
    }
}
