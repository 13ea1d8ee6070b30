//! Comparisons of a column with one number or with two, which follow the column plane by plane.

ghost use Rattle.std.specs.Prelude.{◌≡◌, ◌<◌, ◌*◌, ◌+◌, length, IfOk, IfSome, IsTrue};
ghost use Rattle.plane_kernels.specs.Rows.{block_rows};
ghost use Rattle.query_model.specs.Meaning.{between, compares};
ghost use Rattle.query_model.specs.Truths.{truths_over};
ghost use Rattle.known_column.specs.Columns.{range_at};
ghost use Rattle.known_column.specs.KnownTables.{column_at, IsKnownTable};
ghost use Rattle.kleene_filter.specs.Blocks.{AreTruthsInTable, HoldsAtBest};
ghost use Rattle.kleene_filter.specs.Masks.{IsCompared, IsRanged, KeepsTest, Was};
ghost use Rattle.kleene_filter.specs.Unions.{AddsRows, MayFail};

use crate::block_truths::{BlockTruths, and};
use crate::lanes::chosen;
use crate::parted::Sides;
use known_column::LentColumns;
use plane_kernels::{Mask, Plane};
use query_model::Comparison;
use std::alloc::{AllocError, Global};

// A comparison of a column with a number, and where its rows stand from it.
#[derive(Drop)]
pub(crate) struct Compared {
    column: usize,
    op: Comparison,
    value: i128,
    sides: Sides,
}

// A column between two numbers: its comparisons with the low one and with the high one.
#[derive(Drop)]
pub(crate) struct Ranged {
    from: Compared,
    to: Compared,
}

impl Compared {
    // The comparison with a column of which nothing is read.
    pub(crate) fn open(
        alloc: Global,
        column: usize,
        op: Comparison,
        value: i128,
        columns: &LentColumns<'_>,
    ) -> Result<Compared, AllocError>
        requires column { column < length columns.now.frame.columns }
        requires unread { (column_at columns.now column).known.read ≡ 0 }
        requires known { IsKnownTable columns.now }
        ensures test { IfOk result (λ compared. (compared.column ≡ column) × (compared.op ≡ op) × (compared.value ≡ value)) }
        ensures compared { IfOk result (λ compared. IsCompared compared columns.now) }
    {
        let sides = Sides::open(alloc, op, value, columns.column(column))?;
        Ok(Compared {
            column,
            op,
            value,
            sides,
        })
    }

    // Follows the columns after a plane of one of them.
    pub(crate) fn follow(&mut self, columns: &LentColumns<'_>, column: usize, plane: &Plane)
        requires within { self.old.column < length columns.now.frame.columns }
        requires compared { Was (IsCompared self.old) columns.now column plane.now }
        ensures test { KeepsTest self.old self.new }
        ensures compared { IsCompared self.new columns.now }
    {
        if self.column != column {
            return;
        }
        let known = columns.column(column);
        self.sides.follow(self.op, self.value, known, plane);
    }

    // The truths of the comparison at the rows of a block.
    pub(crate) fn truths(&self, columns: &LentColumns<'_>, block: usize) -> BlockTruths
        requires within { self.now.column < length columns.now.frame.columns }
        requires compared { IsCompared self.now columns.now }
        requires known { IsKnownTable columns.now }
        requires block { 512 * block < columns.now.frame.rows }
        ensures { AreTruthsInTable columns.now self.now.column block (λ x. compares self.now.op x self.now.value) result }
    {
        let column = columns.column(self.column);
        self.sides.truths(self.op, self.value, column, block)
    }

    // Whether it only adds rows beside OR.
    pub(crate) fn only_adds(&self, columns: &LentColumns<'_>) -> bool
        requires { self.now.column < length columns.now.frame.columns }
        ensures { IsTrue result → MayFail (column_at columns.now self.now.column) self.now.op self.now.sides }
    {
        let column = columns.column(self.column);
        self.sides.only_adds(self.op, column)
    }

    // Adds the rows at which the comparison may hold.
    pub(crate) fn add_rows(&self, columns: &LentColumns<'_>, rows: &mut Mask)
        requires within { self.now.column < length columns.now.frame.columns }
        requires adds { MayFail (column_at columns.now self.now.column) self.now.op self.now.sides }
        requires compared { IsCompared self.now columns.now }
        requires known { IsKnownTable columns.now }
        requires rows { length rows.old ≡ columns.now.frame.rows }
        ensures { AddsRows columns.now.frame.rows (λ row. truths_over (range_at (column_at columns.now self.now.column) row)
            (λ x. compares self.now.op x self.now.value)) rows.old rows.new }
    {
        let column = columns.column(self.column);
        self.sides.add_rows(self.op, self.value, column, rows);
    }

    // The rows of a block at which the comparison may hold, where it may fail in any case and is nowhere null.
    pub(crate) fn at_best(&self, columns: &LentColumns<'_>, block: usize) -> Option<[u64; 8]>
        requires within { self.now.column < length columns.now.frame.columns }
        requires compared { IsCompared self.now columns.now }
        requires known { IsKnownTable columns.now }
        requires block { 512 * block < columns.now.frame.rows }
        ensures { IfSome result (HoldsAtBest (block_rows columns.now.frame.rows block)
            (λ r. truths_over (range_at (column_at columns.now self.now.column) (512 * block + r))
            (λ x. compares self.now.op x self.now.value))) }
    {
        let column = columns.column(self.column);
        self.sides.at_best(self.op, self.value, column, block)
    }
}

impl Ranged {
    // The range from one number to another, of a column of which nothing is read.
    pub(crate) fn open(
        alloc: Global,
        column: usize,
        low: i128,
        high: i128,
        columns: &LentColumns<'_>,
    ) -> Result<Ranged, AllocError>
        requires column { column < length columns.now.frame.columns }
        requires unread { (column_at columns.now column).known.read ≡ 0 }
        requires known { IsKnownTable columns.now }
        ensures test { IfOk result (λ ranged. (ranged.from.column ≡ column) × (ranged.from.value ≡ low) × (ranged.to.value ≡ high)) }
        ensures ranged { IfOk result (λ ranged. IsRanged ranged columns.now) }
    {
        Ok(Ranged {
            from: Compared::open(alloc, column, Comparison::Ge, low, columns)?,
            to: Compared::open(alloc, column, Comparison::Le, high, columns)?,
        })
    }

    // Follows the columns after a plane of one of them.
    pub(crate) fn follow(&mut self, columns: &LentColumns<'_>, column: usize, plane: &Plane)
        requires within { self.old.from.column < length columns.now.frame.columns }
        requires ranged { Was (IsRanged self.old) columns.now column plane.now }
        ensures from { KeepsTest self.old.from self.new.from }
        ensures to { KeepsTest self.old.to self.new.to }
        ensures ranged { IsRanged self.new columns.now }
    {
        self.from.follow(columns, column, plane);
        self.to.follow(columns, column, plane);
    }

    // The truths of whether the column lies between the numbers, at the rows of a block.
    pub(crate) fn truths(&self, columns: &LentColumns<'_>, block: usize) -> BlockTruths
        requires within { self.now.from.column < length columns.now.frame.columns }
        requires ranged { IsRanged self.now columns.now }
        requires known { IsKnownTable columns.now }
        requires block { 512 * block < columns.now.frame.rows }
        ensures { AreTruthsInTable columns.now self.now.from.column block
            (between self.now.from.value self.now.to.value) result }
    {
        let from = self.from.truths(columns, block);
        let to = self.to.truths(columns, block);
        let both = and(&from, &to);
        BlockTruths {
            may_hold: chosen(self.from.value <= self.to.value, &both.may_hold),
            may_fail: both.may_fail,
            may_be_null: both.may_be_null,
        }
    }
}
