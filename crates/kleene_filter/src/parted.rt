//! Rows of a column parted by how their prefixes compare with the prefix of a number.

ghost use Rattle.std.specs.Prelude.{◌≡◌, ◌<◌, ◌*◌, ◌+◌, ◌-◌, ℕ, length, IfOk, IfSome, IsTrue};
ghost use Rattle.daq_table.specs.Tables.{code, planes};
ghost use Rattle.plane_kernels.specs.Rows.{block_rows, digit_at, kept_rows};
ghost use Rattle.query_model.specs.declared.bounds.Truth.TheVariants.{Unknown};
ghost use Rattle.query_model.specs.Meaning.{compares};
ghost use Rattle.query_model.specs.Truths.{truths_over};
ghost use Rattle.known_column.specs.Columns.{range_at, rows_of_column, rows_where};
ghost use Rattle.known_column.specs.RowBlocks.{IsKnownColumn};
ghost use Rattle.kleene_filter.specs.Parted.{cell_with, fails_at, greater_holds, holds_at, is_level, less_holds, others_hold, passed_rows};
ghost use Rattle.kleene_filter.specs.Parted.{AreBlockSides, Had, HasRow, HasSides, IsAtEqual, IsBetweenEnds, IsParted, IsTruthAt};
ghost use Rattle.kleene_filter.specs.Unions.{AddsRows, MayFail};
ghost use Rattle.kleene_filter.specs.Blocks.{bit_in, AreTruthsInColumn, HoldsAtBest};

use crate::block_truths::BlockTruths;
use crate::lanes::{both, chosen, either, read_block, unset};
use crate::nulls::number_truths;
use crate::ranges::compared_with;
use known_column::Known;
use plane_kernels::{Mask, Plane, Remaining};
use query_model::{Comparison, Truth};
use std::alloc::{AllocError, Global};

// The rows that passed a comparison with a number, since their prefix is less than the number's or greater, those whose prefix is the
// same, the number's code, and what is known of the comparison at the rows with the number's own prefix: they share one range. The
// other rows failed.
#[derive(Drop)]
pub(crate) struct Parted {
    code: u128,
    passed: Mask,
    equal: Remaining,
    at_equal: Truth,
}

// Where the numbers of a column's rows stand from a number: all on one side, where it lies past the column's ends.
#[derive(Drop)]
pub(crate) enum Sides {
    AllLess,
    Parted(Parted),
    AllGreater,
}

// The rows of a block that passed, and those with the number's own prefix.
#[derive(Clone, Copy)]
struct BlockSides {
    passed: [u64; 8],
    equal: [u64; 8],
    at_equal: Truth,
}

// What is known of the comparison at the rows with the number's own prefix.
fn truth_at_equal(op: Comparison, value: i128, equal: &Remaining, column: &Known) -> Truth
    requires { equal.now ≡ rows_where (is_level value) column.now }
    ensures { IsTruthAt column.now (λ x. compares op x value) equal.now result }
{
    match equal.first_one() {
        Some(row) => compared_with(op, column.range(row), value),
        None => Truth::Unknown,
    }
}

// The code of a number of the column.
pub(crate) fn code_of(column: &Known, value: i128) -> u128
    requires { IsBetweenEnds column.now.ends value }
    ensures { result ≡ code column.now.ends (cell_with value column.now.ends) }
{
    let distance = value.abs_diff(i128::from(column.base()));
    if column.nullable() {
        (1 << column.width()) + distance
    } else {
        distance
    }
}

// The digit of a code in the plane that was read last.
pub(crate) fn next_digit(code: u128, column: &Known) -> bool
    requires { 0 < column.now.known.read }
    ensures { result ≡ digit_at (planes column.now.ends - column.now.known.read) code }
{
    let _width = column.width();
    (code >> column.unread()) & 1 == 1
}

// Whether a lesser number compares so.
fn less_compares(op: Comparison) -> bool
    ensures { result ≡ less_holds op }
{
    match op {
        Comparison::Eq | Comparison::Gt | Comparison::Ge => false,
        Comparison::Ne | Comparison::Lt | Comparison::Le => true,
    }
}

// Whether a greater number compares so.
fn greater_compares(op: Comparison) -> bool
    ensures { result ≡ greater_holds op }
{
    match op {
        Comparison::Eq | Comparison::Lt | Comparison::Le => false,
        Comparison::Ne | Comparison::Gt | Comparison::Ge => true,
    }
}

// Whether the rows compare so whose digit is not the number's.
fn others_compare(op: Comparison, digit: bool) -> bool
    ensures { result ≡ others_hold op digit }
{
    if digit {
        less_compares(op)
    } else {
        greater_compares(op)
    }
}

// Keeps the rows that have this bit in the plane. The others pass, if they do.
fn keep_level(passed: &mut Mask, equal: &mut Remaining, plane: &Plane, bit: bool, pass: bool)
    requires passed { length passed.old ≡ length equal.old }
    requires plane { length plane.now ≡ length equal.old }
    ensures passed { passed.new ≡ passed_rows pass bit passed.old equal.old plane.now }
    ensures equal { equal.new ≡ kept_rows bit equal.old plane.now }
{
    if pass {
        equal.move_others(passed, plane, bit);
    } else {
        equal.keep(plane, bit);
    }
}

impl Parted {
    // Nothing is read of the column: all rows have the number's prefix.
    fn open(
        alloc: Global,
        op: Comparison,
        value: i128,
        column: &Known,
    ) -> Result<Parted, AllocError>
        requires between { IsBetweenEnds column.now.ends value }
        requires unread { column.now.known.read ≡ 0 }
        requires known { IsKnownColumn column.now }
        ensures { IfOk result (IsParted column.now op value) }
    {
        let equal = Remaining::all(alloc, column.rows())?;
        let at_equal = truth_at_equal(op, value, &equal, column);
        Ok(Parted {
            code: code_of(column, value),
            passed: Mask::none(alloc, column.rows())?,
            equal,
            at_equal,
        })
    }

    // Follows the column after one plane more.
    fn follow(&mut self, op: Comparison, value: i128, column: &Known, plane: &Plane)
        requires { Had (λ before. IsParted before op value self.old) column.now plane.now }
        ensures { IsParted column.now op value self.new }
    {
        let bit = next_digit(self.code, column);
        let pass = others_compare(op, bit);
        keep_level(&mut self.passed, &mut self.equal, plane, bit, pass);
        self.at_equal = truth_at_equal(op, value, &self.equal, column);
    }
}

impl Sides {
    // The sides of the number, of a column of which nothing is read.
    pub(crate) fn open(
        alloc: Global,
        op: Comparison,
        value: i128,
        column: &Known,
    ) -> Result<Sides, AllocError>
        requires unread { column.now.known.read ≡ 0 }
        requires known { IsKnownColumn column.now }
        ensures { IfOk result (HasSides column.now op value) }
    {
        if i128::from(column.top()) < value {
            Ok(Sides::AllLess)
        } else if value < i128::from(column.base()) {
            Ok(Sides::AllGreater)
        } else {
            Ok(Sides::Parted(Parted::open(alloc, op, value, column)?))
        }
    }

    // Follows the column after one plane more.
    pub(crate) fn follow(&mut self, op: Comparison, value: i128, column: &Known, plane: &Plane)
        requires { Had (λ before. HasSides before op value self.old) column.now plane.now }
        ensures { HasSides column.now op value self.new }
    {
        match self {
            Sides::AllLess | Sides::AllGreater => {}
            Sides::Parted(parted) => parted.follow(op, value, column, plane),
        }
    }

    // The sides of a block's rows.
    #[inline(always)]
    fn in_block(&self, op: Comparison, block: usize) -> BlockSides
        requires { HasRow (512 * block) self.now }
        ensures { AreBlockSides op self.now block result }
    {
        match self {
            Sides::AllLess => BlockSides {
                passed: chosen(less_compares(op), &[u64::MAX; 8]),
                equal: [0; 8],
                at_equal: Truth::Unknown,
            },
            Sides::Parted(parted) => BlockSides {
                passed: read_block(&parted.passed, block),
                equal: read_block(parted.equal.mask(), block),
                at_equal: parted.at_equal,
            },
            Sides::AllGreater => BlockSides {
                passed: chosen(greater_compares(op), &[u64::MAX; 8]),
                equal: [0; 8],
                at_equal: Truth::Unknown,
            },
        }
    }

    // The truths of the comparison at a block's rows.
    #[inline(always)]
    pub(crate) fn truths(
        &self,
        op: Comparison,
        value: i128,
        column: &Known,
        block: usize,
    ) -> BlockTruths
        requires sides { HasSides column.now op value self.now }
        requires known { IsKnownColumn column.now }
        requires block { 512 * block < rows_of_column column.now }
        ensures { AreTruthsInColumn column.now block (λ x. compares op x value) result }
    {
        let sides = self.in_block(op, block);
        number_truths(column, block, &sides.may_hold(), &sides.may_fail())
    }

    // Whether nothing is known of the comparison at the rows with the number's own prefix.
    fn is_open(&self) -> bool
        ensures { IsTrue result → IsAtEqual self.now Unknown }
    {
        match self {
            Sides::Parted(parted) => parted.at_equal == Truth::Unknown,
            Sides::AllLess | Sides::AllGreater => true,
        }
    }

    // Whether the comparison may fail at every row, and holds at best at those with the number's own prefix.
    pub(crate) fn only_adds(&self, op: Comparison, column: &Known) -> bool
        ensures { IsTrue result → MayFail column.now op self.now }
    {
        if column.nullable() || less_compares(op) || greater_compares(op) {
            return false;
        }
        self.is_open()
    }

    // Adds the rows at which such a comparison may hold.
    pub(crate) fn add_rows(&self, op: Comparison, value: i128, column: &Known, rows: &mut Mask)
        requires adds { MayFail column.now op self.now }
        requires sides { HasSides column.now op value self.now }
        requires known { IsKnownColumn column.now }
        requires rows { length rows.old ≡ rows_of_column column.now }
        ensures { AddsRows (rows_of_column column.now)
            (λ row. truths_over (range_at column.now row) (λ x. compares op x value)) rows.old rows.new }
    {
        match self {
            Sides::Parted(parted) => rows.or_into(parted.equal.mask()),
            Sides::AllLess | Sides::AllGreater => {}
        }
    }

    // The rows of a block at which the comparison may hold, where it may fail in any case and is nowhere null: those with the number's own
    // prefix, where no other numbers compare so.
    pub(crate) fn at_best(
        &self,
        op: Comparison,
        value: i128,
        column: &Known,
        block: usize,
    ) -> Option<[u64; 8]>
        requires sides { HasSides column.now op value self.now }
        requires known { IsKnownColumn column.now }
        requires block { 512 * block < rows_of_column column.now }
        ensures { IfSome result (HoldsAtBest (block_rows (rows_of_column column.now) block)
            (λ r. truths_over (range_at column.now (512 * block + r)) (λ x. compares op x value))) }
    {
        if !self.only_adds(op, column) {
            return None;
        }
        match self {
            Sides::Parted(parted) => Some(read_block(parted.equal.mask(), block)),
            Sides::AllLess | Sides::AllGreater => Some([0; 8]),
        }
    }
}

impl BlockSides {
    // The rows at which the comparison may hold.
    #[inline(always)]
    fn may_hold(&self) -> [u64; 8]
        ensures { (row : ℕ) → row < 512 → bit_in row result
            ≡ holds_at self.now.at_equal (bit_in row self.now.passed) (bit_in row self.now.equal) }
    {
        either(
            &self.passed,
            &chosen(self.at_equal != Truth::False, &self.equal),
        )
    }

    // The rows at which it may fail.
    #[inline(always)]
    fn may_fail(&self) -> [u64; 8]
        ensures { (row : ℕ) → row < 512 → bit_in row result
            ≡ fails_at self.now.at_equal (bit_in row self.now.passed) (bit_in row self.now.equal) }
    {
        let neither = both(&unset(&self.passed), &unset(&self.equal));
        either(&neither, &chosen(self.at_equal != Truth::True, &self.equal))
    }
}
