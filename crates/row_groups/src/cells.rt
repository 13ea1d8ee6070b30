//! The cells of rows.

ghost use Rattle.std.specs.Prelude.{◌≡◌, ◌≤◌, ◌<◌, ◌*◌, ◌^◌, ◌==◌};
ghost use Rattle.std.specs.Prelude.{All, IsTrue, length, sum, map, slice_get};
ghost use Rattle.std.specs.Prelude.{IfOk, IfSome, IsSome, Some, ◌↔◌};
ghost use Rattle.daq_table.specs.Tables.{planes};
ghost use Rattle.row_groups.specs.Partition.{AreCellsFrom, digits_of, has_unread, is_legal_cell, planes_of_parts};
ghost use Rattle.row_groups.specs.Partition.{ranges_in, ranges_of_cell, refined, unread_cells, unread_part};

use crate::bits::insert_written;
use crate::cell_keys::CellKeys;
use crate::keys::read_keys;
use crate::part::GroupPart;
use crate::parting::{first_masks, part_first};
use crate::parts::{count_digits, numbers_of, raise, unread_parts};
use crate::telling::{cell_in, write_cells, write_many};
use daq_table::Ends;
use plane_kernels::{Mask, Plane};
use std::alloc::{AllocError, Global};
use std::marker::Model;

/// For each row of a table its cell: the digits that were read of the group columns, in their order, as one number.
pub struct Cells {
    parts: Vec<GroupPart>,
    rows: usize,
    // The rows of each cell, while there are few.
    masks: Vec<Mask>,
    // The cell of each row, or room for it. It is written before there are more cells than few.
    cells: Vec<u16>,
}

// A call of its own: a derived drop is proved anew wherever one is let go.
impl Drop for Cells {
    fn drop(self) {
        let Cells {
            parts: _,
            rows: _,
            masks: _,
            cells: _,
        } = self;
    }
}

impl Model for Cells {
    ghost use Rattle.std.specs.Prelude.{vec_capacity};
    ghost use Rattle.row_groups.specs.Keeping.{AreHeld, told_cells};
    ghost use Rattle.row_groups.specs.Partition.{RowCells};

    ghost Value = { RowCells };

    ghost view = { λ c. record { parts = c.parts.items; cells = told_cells c.rows c.masks.items c.cells.items } };

    ghost invariant = { λ c. AreHeld c.parts.items c.rows c.masks.items c.cells.items (vec_capacity c.cells) };
}

impl Cells {
    /// The rows by these group columns, of which nothing is read: all are in one cell. For each column of the query its ends
    /// are handed in. All room is taken here.
    pub fn open(
        alloc: Global,
        columns: &[u8],
        ends: &[Ends],
        rows: usize,
    ) -> Result<Cells, AllocError>
        requires columns { All (λ c. c < length ends.now) columns.now }
        requires few { length columns.now ≤ 16 }
        requires planes { sum (planes_of_parts (map (unread_part ends.now) columns.now)) ≤ 16 }
        ensures { IfOk result (λ cells. cells ≡ unread_cells columns.now ends.now rows) }
    {
        let parts = unread_parts(alloc, columns, ends)?;
        let masks = first_masks(alloc, rows)?;
        let cells = Vec::with_capacity(alloc, rows)?;
        Ok(Cells {
            parts,
            rows,
            masks,
            cells,
        })
    }

    /// The number of rows.
    pub fn rows(&self) -> usize
        ensures { result ≡ length self.now.cells }
    {
        self.rows
    }

    /// Writes the cell of each row, unless it is written: from then on it is read where it stands. No cell changes.
    pub fn tell_rows(&mut self)
        ensures { self.new ≡ self.old }
    {
        write_cells(&mut self.cells, &self.masks, self.rows);
    }

    /// Parts each cell by the next plane of a group column.
    pub fn refine(&mut self, column: u8, plane: &Plane)
        requires unread { IsTrue (has_unread self.old.parts column) }
        requires rows { length plane.now ≡ length self.old.cells }
        ensures { self.new ≡ refined self.old column plane.now }
    {
        let digits = count_digits(&self.parts);
        write_many(&mut self.cells, &self.masks, self.rows, digits);
        let shift = raise(&mut self.parts, column);
        insert_written(&mut self.cells, plane, shift, digits);
        part_first(&mut self.masks, plane, shift, digits);
    }

    /// The cell that a row is in.
    pub fn cell_of(&self, row: usize) -> u32
        requires { row < length self.now.cells }
        ensures cell { slice_get self.now.cells row ≡ Some result }
        ensures counted { result < 2 ^ digits_of self.now.parts }
    {
        if row < self.cells.len() {
            u32::from(self.cells[row])
        } else {
            cell_in(&self.masks, row)
        }
    }

    // The cells of at most 64 rows from one on, where they are read one by one.
    #[cold]
    #[inline(never)]
    fn read_rows(&self, first: usize, block: &mut [u16; 64])
        requires { first < length self.now.cells }
        ensures { AreCellsFrom first self.now.cells block.new }
    {
        for row in 0..64.min(self.rows - first) {
            block[row] = self.cell_of(first + row) as u16;
        }
    }

    /// Reads the cells of the rows of a block of 64, or of as many as are left. What stands behind the last row is of no meaning.
    pub fn read_block(&self, number: usize, block: &mut [u16; 64])
        requires { 64 * number < length self.now.cells }
        ensures { AreCellsFrom (64 * number) self.now.cells block.new }
    {
        let left = self.rows - 64 * number;
        if left < 64 || self.cells.is_empty() {
            self.read_rows(64 * number, block);
        } else {
            block.copy_from_slice(&self.cells[64 * number..64 * number + 64]);
        }
    }

    /// The rows of a cell, where there are few.
    pub fn rows_of(&self, cell: u32) -> &Mask
        requires few { 2 ^ digits_of self.now.parts ≤ 16 }
        requires cell { cell < 2 ^ digits_of self.now.parts }
        ensures { result.now ≡ map (λ c. c == cell) self.now.cells }
    {
        &self.masks[cell as usize]
    }

    /// How many cells there are.
    pub fn count(&self) -> u32
        ensures { result ≡ 2 ^ digits_of self.now.parts }
    {
        numbers_of(count_digits(&self.parts))
    }

    /// What the keys of a cell may be, or none where one of its parts is the prefix of no cell: such a cell has no rows.
    pub fn keys_of(&self, cell: u32) -> Option<CellKeys>
        ensures legal { IsSome result ↔ IsTrue (is_legal_cell self.now.parts cell) }
        ensures keys { IfSome result (λ keys. ranges_in keys ≡ ranges_of_cell self.now.parts cell) }
    {
        read_keys(&self.parts, count_digits(&self.parts), cell)
    }
}
