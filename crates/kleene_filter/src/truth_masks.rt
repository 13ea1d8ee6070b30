//! The rows at which a condition holds for certain, and those at which it may, with the blocks of 512 that are not decided.

ghost use Rattle.std.specs.Prelude.{◌≡◌, ◌≤◌, ◌<◌, ◌+◌, ◌*◌, length, replicate, count_by, sum_by, IfOk, IsTrue};
ghost use Rattle.std.specs.Int.Count.{ones};
ghost use Rattle.kleene_filter.specs.Blocks.{AreRowsIn};
ghost use Rattle.kleene_filter.specs.Filters.{AreKept, AreSettled};

use crate::lanes::are_same;
use plane_kernels::{Mask, count_ones};
use std::alloc::{AllocError, Global};

// The rows at which a condition holds for certain, and those at which it may hold.
#[derive(Drop)]
pub(crate) struct TruthMasks {
    pub(crate) must: Mask,
    pub(crate) may: Mask,
}

// The same, with the blocks of 512 rows that may have one at which it is not known, and how many rows each mask has.
#[derive(Drop)]
pub(crate) struct KeptTruths {
    pub(crate) masks: TruthMasks,
    pub(crate) undecided: Mask,
    pub(crate) certain: u64,
    pub(crate) possible: u64,
}

// The rows of a block that are certain, and those that are possible.
#[derive(Clone, Copy)]
pub(crate) struct BlockRows {
    pub(crate) certain: [u64; 8],
    pub(crate) possible: [u64; 8],
}

// The rows of a block before and after it was judged.
#[derive(Clone, Copy)]
pub(crate) struct MovedRows {
    pub(crate) before: BlockRows,
    pub(crate) after: BlockRows,
}

// The mask with each row or with none.
pub(crate) fn even_mask(alloc: Global, rows: usize, bit: bool) -> Result<Mask, AllocError>
    ensures { IfOk result (λ mask. mask ≡ replicate rows bit) }
{
    if bit {
        Mask::all(alloc, rows)
    } else {
        Mask::none(alloc, rows)
    }
}

// How many rows a mask has of which so many were counted, after those of a block changed. A plane moves rows of one mask alone where one
// comparison reads its column.
#[inline(always)]
pub(crate) fn recounted(count: u64, old: &[u64; 8], new: &[u64; 8]) -> u64
    requires counted { sum_by ones old.now ≤ count }
    requires few { count ≤ 16777216 }
    requires some { sum_by ones new.now ≤ 16777216 }
    ensures { result + sum_by ones old.now ≡ count + sum_by ones new.now }
{
    if are_same(old, new) {
        return count;
    }
    count + count_ones(new) - count_ones(old)
}

// Marks a block as decided where both masks have the same rows of it.
#[inline(always)]
fn settle_block(masks: &TruthMasks, undecided: &mut Mask, block: usize)
    requires rows { length masks.now.may ≡ length masks.now.must }
    requires settled { AreSettled masks.now.must masks.now.may undecided.old }
    requires block { block < length undecided.old }
    ensures settled { AreSettled masks.now.must masks.now.may undecided.new }
    ensures count { length undecided.new ≡ length undecided.old }
{
    if undecided.get(block) && masks.rows_in(block).are_decided() {
        undecided.set(block, false);
    }
}

// The same for each block.
fn settle_blocks(masks: &TruthMasks, undecided: &mut Mask)
    requires rows { length masks.now.may ≡ length masks.now.must }
    requires settled { AreSettled masks.now.must masks.now.may undecided.old }
    ensures { AreSettled masks.now.must masks.now.may undecided.new }
{
    for block in 0..undecided.rows() {
        settle_block(masks, undecided, block);
    }
}

impl TruthMasks {
    // The rows of a block of 512 that each mask has.
    #[inline(always)]
    pub(crate) fn rows_in(&self, block: usize) -> BlockRows
        requires must { 512 * block < length self.now.must }
        requires may { 512 * block < length self.now.may }
        ensures certain { AreRowsIn self.now.must block result.certain }
        ensures possible { AreRowsIn self.now.may block result.possible }
    {
        BlockRows {
            certain: self.must.block(block),
            possible: self.may.block(block),
        }
    }
}

impl BlockRows {
    // Whether the rows that are possible are those that are certain.
    #[inline(always)]
    pub(crate) fn are_decided(&self) -> bool
        ensures { IsTrue result → self.now.certain ≡ self.now.possible }
    {
        are_same(&self.certain, &self.possible)
    }
}

impl KeptTruths {
    // What is kept of masks, which may be known to be decided at each row.
    pub(crate) fn of(
        alloc: Global,
        masks: TruthMasks,
        is_decided: bool,
    ) -> Result<KeptTruths, AllocError>
        requires rows { length masks.may ≡ length masks.must }
        requires decided { IsTrue is_decided → masks.must ≡ masks.may }
        ensures masks { IfOk result (λ truths. truths.masks ≡ masks) }
        ensures kept { IfOk result AreKept }
    {
        let undecided = even_mask(alloc, masks.must.rows().div_ceil(512), !is_decided)?;
        let certain = masks.must.count();
        let possible = masks.may.count();
        Ok(KeptTruths {
            masks,
            undecided,
            certain,
            possible,
        })
    }
    // Counts the rows that are possible and marks the blocks that are decided, after the rows that are possible were made others.
    pub(crate) fn renew_possible(&mut self)
        requires rows { length self.old.masks.may ≡ length self.old.masks.must }
        requires settled { AreSettled self.old.masks.must self.old.masks.may self.old.undecided }
        requires certain { self.old.certain ≡ count_by (λ b. b) self.old.masks.must }
        ensures masks { self.new.masks ≡ self.old.masks }
        ensures kept { AreKept self.new }
    {
        self.possible = self.masks.may.count();
        settle_blocks(&self.masks, &mut self.undecided);
    }
}
