//! The number that lies furthest at some rows.

ghost use Rattle.std.specs.Prelude.{◌≡◌, ◌≤◌, ◌<◌, ◌*◌, ◌⊎◌, length};
ghost use Rattle.std.specs.List.{count_by};
ghost use Rattle.plane_kernels.specs.Rows.{kept_rows};
ghost use Rattle.aggregates.specs.Selections.{block_of};
ghost use Rattle.avg_exact.specs.Blocks.{block_column, column_of, part_rows, IsOverColumn, IsShortPart, MarkUncertain};
ghost use Rattle.avg_exact.specs.Furthest.{further_of, wanted, IsFurthest};

use crate::passes::End;
use crate::planes::{Part, is_passed_over, keep, part_block};
use aggregates::number_planes;
use plane_kernels::Block;
use round_engine::EngineView;

// Those of `level` that have this digit, or all of them where none has it, and the digit that they have.
fn narrowed(level: &Block, digits: &Block, wanted: bool) -> (Block, bool)
    requires { length digits.now ≡ length level.now }
    ensures kept { result.0 ≡ kept_rows result.1 level.now digits.now }
    ensures some { 1 ≤ count_by (λ b. b) level.now → 1 ≤ count_by (λ b. b) result.0 }
    ensures first { (result.1 ≡ wanted) ⊎ (count_by (λ b. b) (kept_rows wanted level.now digits.now) ≡ 0) }
{
    let some = keep(level, digits, wanted);
    if some.count() > 0 {
        (some, wanted)
    } else {
        (keep(level, digits, !wanted), !wanted)
    }
}

// The digit that lies further toward an end.
fn wanted(toward: End) -> bool
    ensures { result ≡ wanted toward }
{
    match toward {
        End::Low => false,
        End::High => true,
    }
}

// The furthest number of a block's rows, digit by digit.
fn furthest_in_block(
    engine: &EngineView<'_>,
    item: usize,
    column: usize,
    part: Part,
    blocks: &[bool; 32768],
    toward: End,
    block: usize,
) -> Option<u64>
    requires over { IsOverColumn engine.now item column }
    requires blocks { MarkUncertain engine.now item blocks.now }
    requires short { IsShortPart (column_of engine.now column) part }
    requires block { 512 * block < engine.now.frame.rows }
    ensures { IsFurthest toward (block_column (column_of engine.now column) block)
        (block_of block (part_rows engine.now item column part)) result }
{
    if is_passed_over(part, blocks, block) {
        return None;
    }
    let mut level = part_block(engine, item, column, part, block);
    if level.count() == 0 {
        return None;
    }
    let known = engine.columns().column(column);
    let (from, to) = number_planes(known);
    let mut number = 0;
    for j in from..to {
        let digits = Block::of_plane(known.plane(j), block);
        let (next, digit) = narrowed(&level, &digits, wanted(toward));
        number = 2 * number + u64::from(digit);
        level = next;
    }
    Some(number)
}

// The further of two numbers that may be there.
fn further(toward: End, a: Option<u64>, b: Option<u64>) -> Option<u64>
    ensures { result ≡ further_of toward a b }
{
    match (a, b) {
        (None, b) => b,
        (a, None) => a,
        (Some(a), Some(b)) => Some(match toward {
            End::Low => a.min(b),
            End::High => a.max(b),
        }),
    }
}

/// The least number of some rows, or their greatest, toward an end.
pub(crate) fn furthest(
    engine: &EngineView<'_>,
    item: usize,
    column: usize,
    part: Part,
    blocks: &[bool; 32768],
    toward: End,
) -> Option<u64>
    requires over { IsOverColumn engine.now item column }
    requires blocks { MarkUncertain engine.now item blocks.now }
    requires short { IsShortPart (column_of engine.now column) part }
    ensures { IsFurthest toward (column_of engine.now column) (part_rows engine.now item column part) result }
{
    let mut found = None;
    for block in 0..engine.rows().div_ceil(512) {
        found = further(
            toward,
            found,
            furthest_in_block(engine, item, column, part, blocks, toward, block),
        );
    }
    found
}
