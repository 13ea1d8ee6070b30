//! What is known of a block of 64 rows of a column, or of as many as are left.

ghost use Rattle.std.specs.Prelude.{◌≡◌, ◌≤◌, ◌≤ℤ◌, ◌<◌, ◌+◌, ◌*◌, ◌^◌, ◌==◌, cond, slice_index};
ghost use Rattle.std.specs.Int.{bit_at};
ghost use Rattle.interval_calc.specs.Intervals.{interval_of};
ghost use Rattle.known_column.specs.Columns.{missing_at, numbers_at, rows_of_column, unread_column};
ghost use Rattle.known_column.specs.RowBlocks.{block_of_column};

use crate::codes::{least_prefix, plane_count, range_of};
use crate::known::Known;
use daq_table::Ends;
use interval_calc::Interval;
use query_model::Nullity;
use std::marker::Model;

// For each row of a block the digits of its number that were read, and the rows that may have a number: bit i of the word is that of row i.
// What stands behind the last row is of no meaning.
#[derive(Drop)]
pub(crate) struct ColumnBlock {
    ends: Ends,
    width: u8,
    read: u8,
    rows: usize,
    least: u128,
    possible: u64,
    numbers: [u64; 64],
}

impl Model for ColumnBlock {
    ghost use Rattle.known_column.specs.Columns.{KnownColumn};
    ghost use Rattle.known_column.specs.RowBlocks.{joined_column, joined_prefixes, IsKeptBlock};

    ghost Value = { KnownColumn };

    ghost view = { λ b. joined_column b.ends b.read b.rows (joined_prefixes b.least b.numbers b.possible) };

    ghost invariant = { λ b. IsKeptBlock b.ends b.width b.read b.rows b.least (joined_prefixes b.least b.numbers b.possible) };
}

// The prefix of row i of a block, out of the digits of its number and the prefix of the least number: 0 where the row has no number.
fn joined_prefix(least: u128, possible: u64, number: u64, i: usize) -> u128
    requires i { i < 64 }
    requires least { least ≤ 2 ^ 64 }
    ensures { result ≡ cond (bit_at possible i == 1) (least + number) 0 }
{
    if possible >> i & 1 == 1 {
        least + u128::from(number)
    } else {
        0
    }
}

// The number of a column's planes that were read.
fn planes_read(known: &Known) -> u8
    ensures { result ≡ known.now.known.read }
{
    plane_count(known.declared(), known.width()) - known.unread()
}

impl ColumnBlock {
    // Room for a block of this column.
    pub(crate) fn open(known: &Known) -> ColumnBlock
        ensures { result ≡ unread_column known.now.ends 0 }
    {
        ColumnBlock {
            ends: known.declared(),
            width: known.width(),
            read: 0,
            rows: 0,
            least: 0,
            possible: 0,
            numbers: [0; 64],
        }
    }

    // Reads a block of a column.
    pub(crate) fn read(&mut self, known: &Known, block: usize)
        requires { 64 * block < rows_of_column known.now }
        ensures { self.new ≡ block_of_column known.now block }
    {
        self.ends = known.declared();
        self.width = known.width();
        self.read = planes_read(known);
        self.rows = (known.rows() - 64 * block).min(64);
        self.least = least_prefix(known.declared(), known.width(), planes_read(known));
        self.possible = known.possible().word(block);
        known.numbers(block, &mut self.numbers);
    }

    // The digits of a row that were read, as one number.
    fn prefix(&self, row: usize) -> u128
        requires { row < rows_of_column self.now }
        ensures { result ≡ slice_index self.now.known.prefixes row }
    {
        joined_prefix(self.least, self.possible, self.numbers[row], row)
    }

    // Where a row's number lies, if it is not null.
    pub(crate) fn range(&self, row: usize) -> Interval
        requires { row < rows_of_column self.now }
        ensures range { interval_of result ≡ numbers_at self.now row }
        ensures within { (self.now.ends.base ≤ℤ result.lo) × (result.hi ≤ℤ self.now.ends.top) }
    {
        range_of(self.ends, self.width, self.read, self.prefix(row))
    }

    // Whether a row is null.
    pub(crate) fn missing(&self, row: usize) -> Nullity
        requires { row < rows_of_column self.now }
        ensures { result ≡ missing_at self.now row }
    {
        if !self.ends.nullable || self.prefix(row) != 0 {
            Nullity::Never
        } else if self.read == 0 {
            Nullity::Possibly
        } else {
            Nullity::Always
        }
    }
}
