//! The truths of tests at the rows of a block of one column, whose values may be null.

ghost use Rattle.std.specs.Prelude.{◌<◌, ◌*◌, ◌+◌, ℤ, Bool};
ghost use Rattle.plane_kernels.specs.Rows.{block_rows};
ghost use Rattle.query_model.specs.Truths.{truths_of_null};
ghost use Rattle.known_column.specs.Columns.{range_at, rows_of_column};
ghost use Rattle.known_column.specs.RowBlocks.{IsKnownColumn};
ghost use Rattle.kleene_filter.specs.Blocks.{AreOnNumbers, AreTruthsFrom, AreTruthsInColumn};

use crate::block_truths::BlockTruths;
use crate::lanes::{both, read_block, unset};
use known_column::Known;

// The truths of whether a value is null.
pub(crate) fn null_truths(column: &Known, block: usize) -> BlockTruths
    requires known { IsKnownColumn column.now }
    requires block { 512 * block < rows_of_column column.now }
    ensures { AreTruthsFrom 0 (block_rows (rows_of_column column.now) block)
        (λ r. truths_of_null (range_at column.now (512 * block + r))) result }
{
    BlockTruths {
        may_hold: unset(&read_block(column.sure(), block)),
        may_fail: read_block(column.possible(), block),
        may_be_null: [0; 8],
    }
}

// The truths of a test of the values, out of the rows at which a number may pass it and those at which one may fail it.
#[inline(always)]
pub(crate) fn number_truths(
    column: &Known,
    block: usize,
    pass: &[u64; 8],
    fail: &[u64; 8],
) -> BlockTruths
    requires known { IsKnownColumn column.now }
    requires block { 512 * block < rows_of_column column.now }
    ensures { (test : ℤ → Bool) → AreOnNumbers column.now block test pass.now fail.now
        → AreTruthsInColumn column.now block test result }
{
    if !column.nullable() {
        return BlockTruths {
            may_hold: *pass,
            may_fail: *fail,
            may_be_null: [0; 8],
        };
    }
    let possible = read_block(column.possible(), block);
    BlockTruths {
        may_hold: both(&possible, pass),
        may_fail: both(&possible, fail),
        may_be_null: unset(&read_block(column.sure(), block)),
    }
}
