//! A column that is known in part.

ghost use Rattle.std.specs.Prelude.{◌≡◌, ◌≤◌, ◌<◌, ◌+◌, ◌*◌, ◌≤ℤ◌, ℕ, pos};
ghost use Rattle.std.specs.Prelude.{negsuc, length, map, take, slice_index, All, IfOk, OnOk, IfErr, OnErr};
ghost use Rattle.interval_calc.specs.Intervals.{interval_of};
ghost use Rattle.daq_table.specs.Tables.{ends_of, planes, width};
ghost use Rattle.known_column.specs.Columns.{count_in_block, digit_of, is_above_zero, is_at_top, is_below_zero, is_level_zero};
ghost use Rattle.known_column.specs.Columns.{is_possible, is_sure, missing_at, numbers_at, numbers_of_block, read_further};
ghost use Rattle.known_column.specs.Columns.{rows_of_column, rows_where, unread_column, HasZero, IsFirstOver, StaysLegal};
ghost use Rattle.known_column.specs.Marks.{prefix_in, TellSigns};
ghost use Rattle.known_column.specs.RowBlocks.{IsKnownColumn};

use crate::blocks::block_digits;
use crate::codes::{code_digit, is_null_plane, plane_count, range_of};
use crate::marks::{Marks, Signs, first_marks};
use daq_table::{ColumnHead, Ends, ends, width};
use interval_calc::Interval;
use plane_kernels::{Mask, Plane};
use query_model::Nullity;
use std::alloc::{AllocError, Global};
use std::marker::Model;

/// A plane would give this row, the first such, the code of no cell: a number above the column's top, or a digit of 1 behind null.
#[derive(Clone, Copy, Debug, PartialEq, Eq)]
pub struct OverTop {
    pub row: usize,
}

/// For each row of a column the digits that were read, as one number, its prefix. They are kept as the planes that they came in.
pub struct Known {
    ends: Ends,
    width: u8,
    read: u8,
    planes: Vec<Plane>,
    marks: Marks,
}

// A call of its own: a derived drop is proved anew wherever one is let go.
impl Drop for Known {
    fn drop(self) {
        let Known {
            ends: _,
            width: _,
            read: _,
            planes: _,
            marks: _,
        } = self;
    }
}

impl Model for Known {
    ghost use Rattle.std.specs.Prelude.{◌≡◌, ◌≤◌, ℕ, length, take};
    ghost use Rattle.known_column.specs.Columns.{KnownColumn};
    ghost use Rattle.known_column.specs.Marks.{known_by, IsKept};

    ghost Value = { KnownColumn };

    ghost view = { λ k. known_by k.ends k.read k.planes.items k.marks };

    ghost invariant = { λ k. IsKept k.ends k.width k.read k.planes.items k.marks };
}

// So many planes without a bit of 1.
fn blank_planes(alloc: Global, count: u8, rows: usize) -> Result<Vec<Plane>, AllocError>
    ensures count { IfOk result (λ planes. length planes.items ≡ count) }
    ensures rows { IfOk result (λ planes. All (λ plane. length plane ≡ rows) planes.items) }
{
    let mut planes = Vec::with_capacity(alloc, usize::from(count))?;
    for _ in 0..count {
        planes.push(Plane::blank(alloc, rows)?)?;
    }
    Ok(planes)
}

// The digits of a row in the first planes, as one number.
fn row_prefix(planes: &[Plane], read: usize, row: usize) -> u128
    requires read { read ≤ length planes.now }
    requires few { read ≤ 65 }
    requires row { All (λ plane. row < length plane) planes.now }
    ensures { result ≡ prefix_in row (take read planes.now) }
{
    let mut prefix = 0;
    for j in 0..read {
        prefix = 2 * prefix + u128::from(planes[j].get(row));
    }
    prefix
}

impl Known {
    /// The column of that head with so many rows, of which nothing is read.
    pub fn open(alloc: Global, head: &ColumnHead, rows: usize) -> Result<Known, AllocError>
        requires { rows ≤ 16777216 }
        ensures { IfOk result (λ known. known ≡ unread_column (ends_of head.now) rows) }
    {
        let ends = ends(head);
        let width = width(head);
        let planes = blank_planes(alloc, plane_count(ends, width), rows)?;
        let marks = first_marks(alloc, ends, rows)?;
        Ok(Known {
            ends,
            width,
            read: 0,
            planes,
            marks,
        })
    }

    /// Reads the next plane: each row's prefix is followed by its bit. Refused, with nothing changed, where a prefix
    /// would then be that of no cell of the column.
    pub fn take(&mut self, plane: &Plane) -> Result<(), OverTop>
        requires unread { self.old.known.read < planes self.old.ends }
        requires rows { length plane.now ≡ rows_of_column self.old }
        ensures taken { OnOk result (self.new ≡ read_further self.old plane.now) }
        ensures legal { OnOk result ((row : ℕ) → row < rows_of_column self.old → StaysLegal self.old plane.now row) }
        ensures unchanged { OnErr result (self.new ≡ self.old) }
        ensures over { IfErr result (λ e. IsFirstOver self.old plane.now e.row) }
    {
        let greatest = self.ends.top.abs_diff(self.ends.base);
        let top = code_digit(self.ends, self.width, greatest, self.read);
        if let Some(row) = self.marks.first_over(plane, top) {
            return Err(OverTop { row });
        }
        let zero = code_digit(
            self.ends,
            self.width,
            self.ends.base.unsigned_abs(),
            self.read,
        );
        let first = is_null_plane(self.ends, self.read);
        self.marks.follow(plane, first, top, zero);
        self.planes[usize::from(self.read)].copy_from(plane);
        self.read += 1;
        Ok(())
    }

    /// The number of planes that were not read.
    pub fn unread(&self) -> u8
        ensures { result + self.now.known.read ≡ planes self.now.ends }
    {
        plane_count(self.ends, self.width) - self.read
    }

    /// The number of rows.
    pub fn rows(&self) -> usize
        ensures rows { result ≡ rows_of_column self.now }
        ensures few { result ≤ 16777216 }
        ensures known { IsKnownColumn self.now }
    {
        self.marks.at_top.mask().rows()
    }

    /// The least number that the column may have.
    pub fn base(&self) -> i64
        ensures { result ≡ self.now.ends.base }
    {
        self.ends.base
    }

    /// The greatest number that the column may have.
    pub fn top(&self) -> i64
        ensures { result ≡ self.now.ends.top }
    {
        self.ends.top
    }

    /// Whether the column may have null.
    pub fn nullable(&self) -> bool
        ensures { result ≡ self.now.ends.nullable }
    {
        self.ends.nullable
    }

    /// The number of binary digits of its numbers.
    pub fn width(&self) -> u8
        ensures digits { result ≡ width self.now.ends }
        ensures few { result ≤ 64 }
    {
        self.width
    }

    /// What is declared of the column.
    pub fn declared(&self) -> Ends
        ensures ends { result ≡ self.now.ends }
        ensures known { IsKnownColumn self.now }
    {
        self.ends
    }

    // The prefix of a row.
    fn prefix(&self, row: usize) -> u128
        requires { row < rows_of_column self.now }
        ensures { result ≡ slice_index self.now.known.prefixes row }
    {
        row_prefix(&self.planes, usize::from(self.read), row)
    }

    /// Where a row's number lies, if it is not null.
    pub fn range(&self, row: usize) -> Interval
        requires { row < rows_of_column self.now }
        ensures range { interval_of result ≡ numbers_at self.now row }
        ensures within { (self.now.ends.base ≤ℤ result.lo) × (result.hi ≤ℤ self.now.ends.top) }
        ensures small { (negsuc 9223372036854775807 ≤ℤ result.lo) × (result.hi ≤ℤ pos 9223372036854775807) }
    {
        range_of(self.ends, self.width, self.read, self.prefix(row))
    }

    /// For each row of a block of 64, or as many as are left, the digits of its number that were read, as one number. In a
    /// nullable column the digit that tells null is none of them, and the number of a null row is 0. What stands behind
    /// the last row is of no meaning.
    pub fn numbers(&self, block: usize, numbers: &mut [u64; 64])
        requires { 64 * block < rows_of_column self.now }
        ensures { take (count_in_block block (rows_of_column self.now)) numbers.new ≡ numbers_of_block self.now block }
    {
        let to = usize::from(self.read);
        let from = usize::from(self.ends.nullable).min(to);
        block_digits(&self.planes[from..to], block, numbers);
    }

    /// Whether a row is null.
    pub fn missing(&self, row: usize) -> Nullity
        requires { row < rows_of_column self.now }
        ensures { result ≡ missing_at self.now row }
    {
        if self.sure().get(row) {
            Nullity::Never
        } else if self.possible().get(row) {
            Nullity::Possibly
        } else {
            Nullity::Always
        }
    }

    /// The rows that cannot be null.
    pub fn sure(&self) -> &Mask
        ensures { result.now ≡ rows_where is_sure self.now }
    {
        &self.marks.sure
    }

    /// The rows that may have a value.
    pub fn possible(&self) -> &Mask
        ensures { result.now ≡ rows_where is_possible self.now }
    {
        &self.marks.possible
    }

    /// A plane that was read, as it was taken.
    pub fn plane(&self, j: u8) -> &Plane
        requires { j < self.now.known.read }
        ensures { result.now ≡ map (digit_of self.now.known.read j) self.now.known.prefixes }
    {
        &self.planes[usize::from(j)]
    }

    /// The rows whose prefix is that of top.
    pub fn at_top(&self) -> &Mask
        ensures { result.now ≡ rows_where is_at_top self.now }
    {
        self.marks.at_top.mask()
    }

    // The rows about 0.
    fn signs(&self) -> &Signs
        requires { HasZero self.now.ends }
        ensures { TellSigns self.now result.now }
    {
        match &self.marks.signs {
            Some(signs) => signs,
            None => unreachable!(),
        }
    }

    /// The rows that may have a value and whose prefix is less than that of 0.
    pub fn below(&self) -> &Mask
        requires { HasZero self.now.ends }
        ensures { result.now ≡ rows_where is_below_zero self.now }
    {
        &self.signs().below
    }

    /// The rows that may have a value and whose prefix is that of 0.
    pub fn level(&self) -> &Mask
        requires { HasZero self.now.ends }
        ensures { result.now ≡ rows_where is_level_zero self.now }
    {
        self.signs().level.mask()
    }

    /// The rows that may have a value and whose prefix is greater than that of 0.
    pub fn above(&self) -> &Mask
        requires { HasZero self.now.ends }
        ensures { result.now ≡ rows_where is_above_zero self.now }
    {
        &self.signs().above
    }
}
