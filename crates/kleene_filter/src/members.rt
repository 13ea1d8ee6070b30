//! Numbers of a column that may be those of a list, by the prefixes of the listed numbers.

ghost use Rattle.std.specs.Prelude.{◌≡◌, ◌<◌, ◌*◌, ◌+◌, ◌&&◌, ℕ, ℤ, length, IfOk};
ghost use Rattle.query_model.specs.Meaning.{among, between};
ghost use Rattle.known_column.specs.Columns.{rows_where};
ghost use Rattle.known_column.specs.KnownTables.{column_at, IsKnownTable};
ghost use Rattle.known_column.specs.RowBlocks.{IsKnownColumn};
ghost use Rattle.kleene_filter.specs.Masks.{IsMembership, Was};
ghost use Rattle.kleene_filter.specs.Members.{AreBlockMembers, HasLevels, HaveRow, IsLevel, IsBlockMember};
ghost use Rattle.kleene_filter.specs.Parted.{is_level, IsBetweenEnds, IsTruthAt, Had};
ghost use Rattle.kleene_filter.specs.Blocks.{AreTruthsInTable};

use crate::block_truths::BlockTruths;
use crate::lanes::{chosen, either, read_block, unset};
use crate::nulls::number_truths;
use crate::parted::{code_of, next_digit};
use crate::ranges::is_one_of;
use known_column::{Known, LentColumns};
use plane_kernels::{Plane, Remaining};
use query_model::{Truth, Values};
use std::alloc::{AllocError, Global};

// The rows with the prefix of a listed number, and what is known there of whether a row's number is listed: they share one
// range.
#[derive(Drop)]
pub(crate) struct Level {
    number: i128,
    rows: Remaining,
    truth: Truth,
}

// A list of numbers to which those of a column may belong, and the levels of the numbers that the column may have.
#[derive(Drop)]
pub(crate) struct Membership {
    column: usize,
    values: Values,
    levels: Vec<Level>,
}

// The rows of a block at which a number may be listed, and those at which it surely is.
#[derive(Clone, Copy)]
struct BlockMembers {
    may: [u64; 8],
    must: [u64; 8],
}

// What is known of whether a number is listed, at the rows with the prefix of one number.
fn truth_at_level(values: &[i128], rows: &Remaining, column: &Known) -> Truth
    requires { (number : ℤ) × (rows.now ≡ rows_where (is_level number) column.now) }
    ensures { IsTruthAt column.now (among values.now) rows.now result }
{
    match rows.first_one() {
        Some(row) => is_one_of(column.range(row), values),
        None => Truth::Unknown,
    }
}

// Whether the column may have the number.
fn lies_within(column: &Known, number: i128) -> bool
    ensures { result ≡ between column.now.ends.base column.now.ends.top number }
{
    i128::from(column.base()) <= number && number <= i128::from(column.top())
}

impl Level {
    // Nothing is read of the column: all rows have the number's prefix.
    fn open(
        alloc: Global,
        number: i128,
        values: &[i128],
        column: &Known,
    ) -> Result<Level, AllocError>
        requires between { IsBetweenEnds column.now.ends number }
        requires unread { column.now.known.read ≡ 0 }
        requires known { IsKnownColumn column.now }
        ensures level { IfOk result (IsLevel column.now values.now) }
        ensures number { IfOk result (λ level. level.number ≡ number) }
    {
        let rows = Remaining::all(alloc, column.rows())?;
        let truth = truth_at_level(values, &rows, column);
        Ok(Level {
            number,
            rows,
            truth,
        })
    }

    // Follows the column after one plane more.
    fn follow(&mut self, values: &[i128], column: &Known, plane: &Plane)
        requires { Had (λ before. IsLevel before values.now self.old) column.now plane.now }
        ensures level { IsLevel column.now values.now self.new }
        ensures number { self.new.number ≡ self.old.number }
    {
        let bit = next_digit(code_of(column, self.number), column);
        self.rows.keep(plane, bit);
        self.truth = truth_at_level(values, &self.rows, column);
    }

    // The rows of a block that have the number's prefix, where the truth lets them be listed.
    fn in_block(&self, block: usize) -> BlockMembers
        requires { 512 * block < length self.now.rows }
        ensures { (row : ℕ) → row < 512 → 512 * block + row < length self.now.rows → IsBlockMember self.now block row result }
    {
        let rows = read_block(self.rows.mask(), block);
        BlockMembers {
            may: chosen(self.truth != Truth::False, &rows),
            must: chosen(self.truth == Truth::True, &rows),
        }
    }
}

// The levels of the listed numbers that a column may have, of which nothing is read.
fn open_levels(alloc: Global, values: &[i128], column: &Known) -> Result<Vec<Level>, AllocError>
    requires unread { column.now.known.read ≡ 0 }
    requires known { IsKnownColumn column.now }
    ensures { IfOk result (λ levels. HasLevels column.now values.now levels.items) }
{
    let mut levels = Vec::new(alloc);
    for number in values.iter() {
        if lies_within(column, *number) {
            levels.push(Level::open(alloc, *number, values, column)?)?;
        }
    }
    Ok(levels)
}

// Has each level follow the column after one plane more.
fn follow_levels(levels: &mut Vec<Level>, values: &[i128], column: &Known, plane: &Plane)
    requires { Had (λ before. HasLevels before values.now levels.old.items) column.now plane.now }
    ensures { HasLevels column.now values.now levels.new.items }
{
    for level in levels.iter_mut() {
        level.follow(values, column, plane);
    }
}

// The rows of a block at which a number may be listed or is, by all levels.
fn block_members(levels: &[Level], block: usize) -> BlockMembers
    requires { HaveRow (512 * block) levels.now }
    ensures { (row : ℕ) → row < 512 → HaveRow (512 * block + row) levels.now → AreBlockMembers levels.now block row result }
{
    let mut may = [0; 8];
    let mut must = [0; 8];
    for level in levels.iter() {
        let rows = level.in_block(block);
        may = either(&may, &rows.may);
        must = either(&must, &rows.must);
    }
    BlockMembers { may, must }
}

impl Membership {
    // The list, for a column of which nothing is read.
    pub(crate) fn open(
        alloc: Global,
        column: usize,
        values: &[i128],
        columns: &LentColumns<'_>,
    ) -> Result<Membership, AllocError>
        requires column { column < length columns.now.frame.columns }
        requires unread { (column_at columns.now column).known.read ≡ 0 }
        requires known { IsKnownTable columns.now }
        ensures test { IfOk result (λ membership. (membership.column ≡ column) × (membership.values ≡ values.now)) }
        ensures levels { IfOk result (λ membership. IsMembership membership columns.now) }
    {
        let levels = open_levels(alloc, values, columns.column(column))?;
        Ok(Membership {
            column,
            values: Values::new(values.to_vec(alloc)?),
            levels,
        })
    }

    // How many numbers are listed.
    pub(crate) fn count(&self) -> usize
        ensures { result ≡ length self.now.values }
    {
        self.values.as_slice().len()
    }

    // Follows the columns after a plane of one of them.
    pub(crate) fn follow(&mut self, columns: &LentColumns<'_>, column: usize, plane: &Plane)
        requires within { self.old.column < length columns.now.frame.columns }
        requires levels { Was (IsMembership self.old) columns.now column plane.now }
        ensures column { self.new.column ≡ self.old.column }
        ensures values { self.new.values ≡ self.old.values }
        ensures levels { IsMembership self.new columns.now }
    {
        if self.column != column {
            return;
        }
        let known = columns.column(column);
        follow_levels(&mut self.levels, self.values.as_slice(), known, plane);
    }

    // The truths of whether the column's number is listed, at the rows of a block.
    pub(crate) fn truths(&self, columns: &LentColumns<'_>, block: usize) -> BlockTruths
        requires within { self.now.column < length columns.now.frame.columns }
        requires levels { IsMembership self.now columns.now }
        requires known { IsKnownTable columns.now }
        requires block { 512 * block < columns.now.frame.rows }
        ensures { AreTruthsInTable columns.now self.now.column block (among self.now.values) result }
    {
        let column = columns.column(self.column);
        let rows = block_members(&self.levels, block);
        number_truths(column, block, &rows.may, &unset(&rows.must))
    }
}
