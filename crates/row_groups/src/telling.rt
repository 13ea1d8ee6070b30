//! The cell of each row, from the masks of the cells.

ghost use Rattle.std.specs.Prelude.{◌≡◌, ◌≤◌, ◌<◌, ◌+◌, ◌^◌, [], length, replicate, vec_capacity};
ghost use Rattle.std.specs.List.{All};
ghost use Rattle.std.specs.Simd.Lanes.{zip2};
ghost use Rattle.plane_kernels.specs.Rows.{bits_of};
ghost use Rattle.row_groups.specs.Keeping.{HaveRows, cells_told, first_with, told_cells, written};

use crate::parting::FEW_CELLS;
use crate::parts::numbers_of;
use plane_kernels::Mask;

// The cell of a row: the first whose mask has it.
pub(crate) fn cell_in(masks: &[Mask], row: usize) -> u32
    requires few { length masks.now ≤ 16 }
    requires long { All (λ mask. row < length mask) masks.now }
    ensures { result ≡ first_with row masks.now }
{
    for (cell, mask) in masks.iter().enumerate() {
        if mask.get(row) {
            return cell as u32;
        }
    }
    masks.len() as u32
}

// Writes a number at those of at most 64 places whose bit in the word is 1.
fn write_word(cells: &mut [u16], word: u64, number: u16)
    requires { length cells.old ≤ 64 }
    ensures { cells.new ≡ zip2 (written number) cells.old (bits_of (length cells.old) word) }
{
    let mut at = 0;
    let mut rest = word;
    while rest != 0 {
        let skipped = rest.trailing_zeros();
        let place = at + skipped as usize;
        if place >= cells.len() {
            return;
        }
        cells[place] = number;
        rest = rest >> skipped >> 1;
        at = place + 1;
    }
}

// Writes a number at the rows of a mask.
fn write_mask(cells: &mut [u16], mask: &Mask, number: u16)
    requires { length mask.now ≡ length cells.old }
    ensures { cells.new ≡ zip2 (written number) cells.old mask.now }
{
    let rows = cells.len();
    for block in 0..rows.div_ceil(64) {
        let end = rows.min(64 * block + 64);
        write_word(&mut cells[64 * block..end], mask.word(block), number);
    }
}

// Writes the cell of each row where that no mask has is written. The first cell comes last, so that its rows are its own.
fn write_masks(cells: &mut [u16], masks: &[Mask])
    requires few { length masks.now ≤ 16 }
    requires long { HaveRows (length cells.old) masks.now }
    requires none { cells.old ≡ replicate (length cells.old) (length masks.now) }
    ensures { cells.new ≡ cells_told (length cells.old) masks.now }
{
    for done in 0..masks.len() {
        let cell = masks.len() - 1 - done;
        write_mask(cells, &masks[cell], cell as u16);
    }
}

// Writes the cell of each row into the room for it, unless it is written.
pub(crate) fn write_cells(cells: &mut Vec<u16>, masks: &[Mask], rows: usize)
    requires few { length masks.now ≤ 16 }
    requires long { HaveRows rows masks.now }
    requires room { cells.old.items ≡ [] → rows ≤ vec_capacity cells.old }
    ensures { cells.new.items ≡ told_cells rows masks.now cells.old.items }
{
    if !cells.is_empty() {
        return;
    }
    match cells.resize(rows, masks.len() as u16) {
        Ok(()) => {}
        Err(_) => unreachable!(),
    }
    write_masks(cells, masks);
}

// The same where one digit more gives more cells than few.
pub(crate) fn write_many(cells: &mut Vec<u16>, masks: &[Mask], rows: usize, digits: u8)
    requires digits { digits ≤ 15 }
    requires few { length masks.now ≤ 16 }
    requires long { HaveRows rows masks.now }
    requires room { cells.old.items ≡ [] → rows ≤ vec_capacity cells.old }
    requires rows { length (told_cells rows masks.now cells.old.items) ≡ rows }
    ensures same { told_cells rows masks.now cells.new.items ≡ told_cells rows masks.now cells.old.items }
    ensures many { 16 < 2 ^ (digits + 1) → cells.new.items ≡ told_cells rows masks.now cells.old.items }
    ensures room { cells.new.items ≡ [] → rows ≤ vec_capacity cells.new }
{
    if numbers_of(digits + 1) > FEW_CELLS {
        write_cells(cells, masks, rows);
    }
}
