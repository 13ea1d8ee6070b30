//! Stopping at the last wanted row, by blocks of 512 rows.

ghost use Rattle.std.specs.Prelude.{◌≡◌, ◌≤◌, ◌<◌, ◌+◌, ◌*◌, min, length, sum_by};
ghost use Rattle.std.specs.Int.Count.{ones};
ghost use Rattle.std.specs.Simd.Lanes.{chunk};
ghost use Rattle.topk_bounds.specs.Standings.{count_rows, is_in};
ghost use Rattle.topk_bounds.specs.Stopping.{Clears, Stops, StopsAt};

use plane_kernels::Mask;
use std::simd::prelude::*;

// The ones of eight words.
fn count_ones(words: &[u64]) -> u64
    requires { length words.now ≡ 8 }
    ensures { result ≡ sum_by ones (chunk 0 8 words.now) }
{
    u64x8::from_slice(words).count_ones().reduce_sum()
}

// How many rows are counted up to the end of a block.
fn seen_after(counted: &Mask, seen: u64, block: usize, to: usize) -> u64
    requires block { 512 * block < length counted.now }
    requires to { to ≡ min (length counted.now) (512 * block + 512) }
    requires seen { seen ≡ count_rows (512 * block) (is_in counted.now) }
    ensures seen { result ≡ count_rows to (is_in counted.now) }
    ensures few { result ≤ to }
{
    seen + count_ones(&counted.block(block))
}

// Takes away the rows of a block.
fn clear_block(level: &mut Mask, block: usize)
    requires { 512 * block < length level.old }
    ensures rows { length level.new ≡ length level.old }
    ensures clears { Clears (512 * block) (512 * block + 512) level.old level.new }
{
    level.set_block(block, [0; 8]);
}

// Goes row by row.
fn stop_in_rows(level: &mut Mask, counted: &Mask, wanted: u64, seen: u64, from: usize, to: usize)
    requires rows { length counted.now ≡ length level.old }
    requires order { from ≤ to }
    requires within { to ≤ length level.old }
    requires seen { seen ≡ count_rows from (is_in counted.now) }
    ensures rows { length level.new ≡ length level.old }
    ensures stops { Stops wanted counted.now from to level.old level.new }
{
    let mut seen = seen;
    for row in from..to {
        let wants = seen < wanted;
        level.set(row, level.get(row) & wants);
        seen += u64::from(counted.get(row));
    }
}

// Goes through a block: only where the last wanted row is in it, row by row.
fn stop_in_block(
    level: &mut Mask,
    counted: &Mask,
    wanted: u64,
    seen: u64,
    block: usize,
    to: usize,
) -> u64
    requires rows { length counted.now ≡ length level.old }
    requires block { 512 * block < length level.old }
    requires to { to ≡ min (length level.old) (512 * block + 512) }
    requires seen { seen ≡ count_rows (512 * block) (is_in counted.now) }
    ensures rows { length level.new ≡ length level.old }
    ensures seen { result ≡ count_rows to (is_in counted.now) }
    ensures stops { Stops wanted counted.now (512 * block) to level.old level.new }
{
    let next = seen_after(counted, seen, block, to);
    if wanted <= seen {
        clear_block(level, block);
        return next;
    }
    if wanted <= next {
        stop_in_rows(level, counted, wanted, seen, 512 * block, to);
    }
    next
}

// Takes away the rows behind so many that are counted.
pub(crate) fn drop_past(level: &mut Mask, counted: &Mask, wanted: u64)
    requires rows { length counted.now ≡ length level.old }
    requires few { length level.old ≤ 16777216 }
    ensures rows { length level.new ≡ length level.old }
    ensures stops { StopsAt wanted counted.now level.old level.new }
{
    let mut seen = 0;
    for block in 0..counted.rows().div_ceil(512) {
        let to = counted.rows().min(512 * block + 512);
        seen = stop_in_block(level, counted, wanted, seen, block, to);
    }
}
