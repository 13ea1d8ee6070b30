//! A sum that is kept from one plane to the next, and follows the rows that come and leave and the planes that are read.

ghost use Rattle.std.specs.Prelude.{◌≡◌, ◌+◌, ◌*◌, ◌<◌, length, take, count_by, IfOk, IsTrue};
ghost use Rattle.query_model.specs.Answers.{total};
ghost use Rattle.known_column.specs.Columns.{KnownColumn, rows_of_column};
ghost use Rattle.aggregates.specs.KeptSums.{CanFollow, HasFollowed, IsKept, MovesAnywhere, MovesInBlocks};
ghost use Rattle.aggregates.specs.Selections.{has_row, highs_in, lows_in, IsSmallSum, IsSumOfDigits, MayHaveValues};

use crate::block_words::{and_not_words, are_same};
use crate::digits::number_planes;
use crate::row_sums::ends_of_mask;
use crate::sums::{SumSpan, sum_further, sum_numbers, sum_rows};
use known_column::Known;
use plane_kernels::{Mask, count_ones};
use std::alloc::{AllocError, Global};

/// Rows of a column, the blocks of 512 in which rows may come or leave next, how many rows there are, and what the first planes of the
/// column gave of their numbers, added up.
#[derive(Drop)]
pub struct KeptSum {
    mask: Mask,
    blocks: Mask,
    count: u64,
    read: u8,
    number: u128,
}

impl KeptSum {
    /// Room for the rows of a column of so many. So far it has none of them, and each may come.
    pub fn open(alloc: Global, rows: usize) -> Result<KeptSum, AllocError>
        ensures kept { IfOk result (λ kept. (column : KnownColumn) → rows_of_column column ≡ rows → IsKept column kept) }
        ensures moves { IfOk result (MovesAnywhere rows) }
    {
        Ok(KeptSum {
            mask: Mask::none(alloc, rows)?,
            blocks: Mask::all(alloc, rows.div_ceil(512))?,
            count: 0,
            read: 0,
            number: 0,
        })
    }

    // Makes its rows of a block those of the mask: what the rows gave that came is added, and what those gave that left is taken off.
    fn move_block(&mut self, known: &Known, mask: &Mask, block: usize)
        requires rows { length mask.now ≡ rows_of_column known.now }
        requires block { 512 * block < rows_of_column known.now }
        requires kept { IsKept known.now self.old }
        requires moves { MovesInBlocks mask.now self.old }
        requires here { IsTrue (has_row self.old.blocks block) }
        requires moved { take (512 * block) self.old.mask ≡ take (512 * block) mask.now }
        ensures kept { IsKept known.now self.new }
        ensures moves { MovesInBlocks mask.now self.new }
        ensures blocks { self.new.blocks ≡ self.old.blocks }
        ensures moved { take (512 * (block + 1)) self.new.mask ≡ take (512 * (block + 1)) mask.now }
    {
        let _planes = number_planes(known);
        let _rows = known.rows();
        let old = self.mask.block(block);
        let new = mask.block(block);
        if !are_same(&old, &new) {
            let came = sum_rows(known, block, &and_not_words(&new, &old), self.read);
            let left = sum_rows(known, block, &and_not_words(&old, &new), self.read);
            self.count = self.count + count_ones(&new) - count_ones(&old);
            self.number = self.number + came - left;
            self.mask.set_block(block, new);
        }
    }

    // The same, where rows move in the block.
    fn follow_block(&mut self, known: &Known, mask: &Mask, block: usize)
        requires rows { length mask.now ≡ rows_of_column known.now }
        requires block { 512 * block < rows_of_column known.now }
        requires kept { IsKept known.now self.old }
        requires moves { MovesInBlocks mask.now self.old }
        requires moved { take (512 * block) self.old.mask ≡ take (512 * block) mask.now }
        ensures kept { IsKept known.now self.new }
        ensures moves { MovesInBlocks mask.now self.new }
        ensures blocks { self.new.blocks ≡ self.old.blocks }
        ensures moved { take (512 * (block + 1)) self.new.mask ≡ take (512 * (block + 1)) mask.now }
    {
        if self.blocks.get(block) {
            self.move_block(known, mask, block);
        }
    }

    // Whether both have all rows.
    fn is_full(&self, mask: &Mask) -> bool
        requires rows { length mask.now ≡ length self.now.mask }
        requires count { self.now.count ≡ count_by (λ b. b) self.now.mask }
        ensures { IsTrue result → self.now.mask ≡ mask.now }
    {
        let rows = mask.rows() as u64;
        self.count == rows && mask.count() == rows
    }

    // Makes its rows those of the mask, where it has some.
    fn move_rows(&mut self, known: &Known, mask: &Mask)
        requires rows { length mask.now ≡ rows_of_column known.now }
        requires kept { IsKept known.now self.old }
        requires moves { MovesInBlocks mask.now self.old }
        ensures kept { IsKept known.now self.new }
        ensures blocks { self.new.blocks ≡ self.old.blocks }
        ensures moved { self.new.mask ≡ mask.now }
    {
        if self.is_full(mask) {
            return;
        }
        for block in 0..mask.rows().div_ceil(512) {
            self.follow_block(known, mask, block);
        }
    }

    // The digits that were read of the numbers at the mask's rows, added up as numbers. The first rows are taken over, and added up anew.
    fn follow(&mut self, known: &Known, mask: &Mask) -> u128
        requires rows { length mask.now ≡ rows_of_column known.now }
        requires kept { IsKept known.now self.old }
        requires moves { MovesInBlocks mask.now self.old }
        ensures kept { IsKept known.now self.new }
        ensures rows { self.new.mask ≡ mask.now }
        ensures blocks { self.new.blocks ≡ self.old.blocks }
        ensures sum { IsSumOfDigits known.now mask.now result }
    {
        if self.count == 0 {
            self.mask.copy_from(mask);
            self.count = mask.count();
            self.number = sum_numbers(known, mask);
        } else {
            self.move_rows(known, mask);
            self.number = sum_further(known, mask, self.number, self.read);
        }
        self.read = number_planes(known).1;
        self.number
    }

    /// Both ends at the mask's rows, added up. The rows that came or left since the last call stand in the blocks that it was given;
    /// they are told apart, and what they gave is added or taken off. Of the others only the planes that were read since are counted.
    /// Until the next call rows move in these blocks of 512 alone, of which there is a bit for each.
    pub fn ends(&mut self, known: &Known, mask: &Mask, blocks: &Mask) -> SumSpan
        requires kept { IsKept known.now self.old }
        requires moves { CanFollow mask.now blocks.now self.old }
        requires rows { length mask.now ≡ rows_of_column known.now }
        requires values { MayHaveValues known.now mask.now }
        ensures kept { IsKept known.now self.new }
        ensures followed { HasFollowed mask.now blocks.now self.new }
        ensures low { result.low ≡ total (lows_in known.now mask.now) }
        ensures high { result.high ≡ total (highs_in known.now mask.now) }
        ensures few { IsSmallSum result.low × IsSmallSum result.high }
    {
        let numbers = self.follow(known, mask);
        self.blocks.copy_from(blocks);
        ends_of_mask(known, mask, self.count, numbers)
    }
}
