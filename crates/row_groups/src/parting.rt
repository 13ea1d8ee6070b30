//! The masks of cells, at the start and parted by a plane.

ghost use Rattle.std.specs.Prelude.{◌≡◌, ◌≤◌, ◌<◌, ◌+◌, ◌*◌, ◌^◌, ◌==◌, List, ℕ, [], length, get_or, replicate, set, IfOk};
ghost use Rattle.std.specs.Simd.Lanes.{zip2};
ghost use Rattle.plane_kernels.specs.Rows.{kept_rows};
ghost use Rattle.row_groups.specs.Keeping.{AreFirst, HaveCells, HaveRows, digit_in, inserted, without_digit};

use crate::parts::numbers_of;
use plane_kernels::{Mask, Plane};
use std::alloc::{AllocError, Global};

/// So many cells are few: they keep masks of their rows.
pub const FEW_CELLS: u32 = 16;

// The rows of a cell where all rows are in the first one.
fn first_mask(alloc: Global, rows: usize, cell: usize) -> Result<Mask, AllocError>
    ensures { IfOk result (λ mask. mask ≡ replicate rows (cell == 0)) }
{
    if cell == 0 {
        Mask::all(alloc, rows)
    } else {
        Mask::none(alloc, rows)
    }
}

// Those of the first cells.
pub(crate) fn first_masks(alloc: Global, rows: usize) -> Result<Vec<Mask>, AllocError>
    ensures count { IfOk result (λ masks. length masks.items ≡ 16) }
    ensures masks { IfOk result (λ masks. AreFirst rows masks.items) }
{
    let mut masks = Vec::with_capacity(alloc, FEW_CELLS as usize)?;
    for cell in 0..FEW_CELLS as usize {
        masks.push(first_mask(alloc, rows, cell)?)?;
    }
    Ok(masks)
}

// A cell without the digit that was put in front of its lowest ones.
fn without_digit(cell: u32, shift: u8) -> u32
    requires few { shift ≤ 15 }
    ensures { result ≡ without_digit shift cell }
{
    let unit = numbers_of(shift);
    cell / unit / 2 * unit + cell % unit
}

// That digit.
fn digit_in(cell: u32, shift: u8) -> bool
    requires few { shift ≤ 15 }
    ensures { result ≡ digit_in shift cell }
{
    let unit = numbers_of(shift);
    cell / unit % 2 == 1
}

// Makes a mask that of a place before it, or leaves it where it is that one itself.
fn copy_mask(masks: &mut [Mask], from: usize, to: usize)
    requires order { from ≤ to }
    requires within { to < length masks.old }
    requires long { length (get_or masks.old from []) ≡ length (get_or masks.old to []) }
    ensures { masks.new ≡ set masks.old to (get_or masks.old from []) }
{
    if from == to {
        return;
    }
    let (before, rest) = masks.split_at_mut(to);
    rest[0].copy_from(&before[from]);
}

// Makes a mask the rows of one at or before its place that have this bit in the plane.
fn keep_from(masks: &mut [Mask], from: usize, to: usize, plane: &Plane, bit: bool)
    requires order { from ≤ to }
    requires within { to < length masks.old }
    requires long { HaveRows (length plane.now) masks.old }
    ensures { masks.new ≡ set masks.old to (kept_rows bit (get_or masks.old from []) plane.now) }
{
    copy_mask(masks, from, to);
    masks[to].keep(plane, bit);
}

// Parts the cells of so many digits by the bits of a plane, which are put in front of their lowest digits: the first masks, which had the
// rows of the cells, have those of twice as many, where there are masks for so many. The last cell comes first, since what it was stands
// before it.
pub(crate) fn part_first(masks: &mut [Mask], plane: &Plane, shift: u8, digits: u8)
    requires within { shift ≤ digits }
    requires few { digits ≤ 15 }
    requires long { HaveRows (length plane.now) masks.old }
    ensures count { length masks.new ≡ length masks.old }
    ensures long { HaveRows (length plane.now) masks.new }
    ensures masks { (cells : List ℕ) → length cells ≡ length plane.now → 2 ^ (digits + 1) ≤ length masks.old
        → HaveCells (2 ^ digits) cells masks.old → HaveCells (2 ^ (digits + 1)) (zip2 (inserted shift) cells plane.now) masks.new }
{
    let cells = numbers_of(digits + 1);
    if cells as usize > masks.len() {
        return;
    }
    for done in 0..cells {
        let cell = cells - 1 - done;
        let from = without_digit(cell, shift);
        let bit = digit_in(cell, shift);
        keep_from(masks, from as usize, cell as usize, plane, bit);
    }
}
