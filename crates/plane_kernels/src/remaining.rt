//! The rows that remain of all, with the blocks of 512 that may still have one.

ghost use Rattle.std.specs.Prelude.{◌≡◌, ◌≤◌, ◌<◌, ◌+◌, ◌-◌, ◌*◌, ◌&&◌, ◌||◌};
ghost use Rattle.std.specs.Prelude.{ℕ, min, not, false, true, length, replicate, take, drop, position, slice_index_or, IfOk};
ghost use Rattle.std.specs.Simd.Lanes.{zip2};
ghost use Rattle.plane_kernels.specs.Remaining.{AreBlocksOf, HasNone, TakesBlock};
ghost use Rattle.plane_kernels.specs.Rows.{bits_of, greater_rows, kept_rows, less_rows};

use crate::block::Block;
use crate::mask::Mask;
use crate::plane::Plane;
use std::alloc::{AllocError, Global};
use std::marker::Model;

// The planes by which rows are kept in passes over all: while they are read, most blocks have rows left. It affects speed alone.
const WHOLE_PLANES: u8 = 8;

/// A mask that only loses rows. Behind its first planes a block of 512 that has none left is passed over.
pub struct Remaining {
    rows: Mask,
    blocks: Mask,
    planes: u8,
}

// A call of its own: a derived drop is proved anew wherever one is let go.
impl Drop for Remaining {
    fn drop(self) {
        let Remaining {
            rows: _,
            blocks: _,
            planes: _,
        } = self;
    }
}

impl Model for Remaining {
    ghost use Rattle.std.specs.Prelude.{List, Bool};
    ghost use Rattle.plane_kernels.specs.Remaining.{AreBlocksOf};

    ghost Value = { List Bool };

    ghost view = { λ r. r.rows };

    ghost invariant = { λ r. AreBlocksOf r.rows r.blocks };
}

// The rows of a block that have this bit in the plane.
#[inline(always)]
fn with_bit(rows: &Block, plane: &Block, bit: bool) -> Block
    requires { length plane.now ≡ length rows.now }
    ensures { result ≡ kept_rows bit rows.now plane.now }
{
    if bit {
        rows.and(plane)
    } else {
        rows.and_not(plane)
    }
}

// Keeps the rows of a block that have this bit in the plane, and tells whether one is left.
#[inline(always)]
fn keep_block(rows: &mut Mask, plane: &Plane, bit: bool, block: usize) -> bool
    requires plane { length plane.now ≡ length rows.old }
    requires block { 512 * block < length rows.old }
    ensures rows { TakesBlock block (kept_rows bit rows.old plane.now) rows.old rows.new }
    ensures left { result ≡ false → HasNone block rows.new }
{
    let kept = with_bit(
        &Block::of_mask(rows, block),
        &Block::of_plane(plane, block),
        bit,
    );
    rows.put(block, &kept);
    !kept.is_empty()
}

// The same, where the rows that are not kept are added to another mask.
#[inline(always)]
fn part_block(rows: &mut Mask, others: &mut Mask, plane: &Plane, bit: bool, block: usize) -> bool
    requires others { length others.old ≡ length rows.old }
    requires plane { length plane.now ≡ length rows.old }
    requires block { 512 * block < length rows.old }
    ensures others { TakesBlock block (zip2 (λ a b. a || b) others.old (kept_rows (not bit) rows.old plane.now)) others.old others.new }
    ensures rows { TakesBlock block (kept_rows bit rows.old plane.now) rows.old rows.new }
    ensures left { result ≡ false → HasNone block rows.new }
{
    let all = Block::of_mask(rows, block);
    let ones = Block::of_plane(plane, block);
    let kept = with_bit(&all, &ones, bit);
    let moved = with_bit(&all, &ones, !bit);
    others.put(block, &Block::of_mask(others, block).or(&moved));
    rows.put(block, &kept);
    !kept.is_empty()
}

// Keeps the rows of a block that have this bit in the plane, if it may have one.
#[inline(always)]
fn keep_in(rows: &mut Mask, blocks: &mut Mask, plane: &Plane, bit: bool, block: usize)
    requires blocks { AreBlocksOf rows.old blocks.old }
    requires plane { length plane.now ≡ length rows.old }
    requires block { block < length blocks.old }
    ensures rows { TakesBlock block (kept_rows bit rows.old plane.now) rows.old rows.new }
    ensures blocks { AreBlocksOf rows.new blocks.new }
    ensures count { length blocks.new ≡ length blocks.old }
{
    if !blocks.get(block) {
        return;
    }
    let left = keep_block(rows, plane, bit, block);
    blocks.set(block, left);
}

// The same in all blocks.
fn keep_rows(rows: &mut Mask, blocks: &mut Mask, plane: &Plane, bit: bool)
    requires blocks { AreBlocksOf rows.old blocks.old }
    requires plane { length plane.now ≡ length rows.old }
    ensures rows { rows.new ≡ kept_rows bit rows.old plane.now }
    ensures blocks { AreBlocksOf rows.new blocks.new }
{
    for block in 0..blocks.rows() {
        keep_in(rows, blocks, plane, bit, block);
    }
}

// Keeps the rows of a block that have this bit in the plane, if it may have one, and adds the others to another mask.
#[inline(always)]
fn part_in(
    rows: &mut Mask,
    blocks: &mut Mask,
    others: &mut Mask,
    plane: &Plane,
    bit: bool,
    block: usize,
)
    requires blocks { AreBlocksOf rows.old blocks.old }
    requires others { length others.old ≡ length rows.old }
    requires plane { length plane.now ≡ length rows.old }
    requires block { block < length blocks.old }
    ensures others { TakesBlock block (zip2 (λ a b. a || b) others.old (kept_rows (not bit) rows.old plane.now)) others.old others.new }
    ensures rows { TakesBlock block (kept_rows bit rows.old plane.now) rows.old rows.new }
    ensures blocks { AreBlocksOf rows.new blocks.new }
    ensures count { length blocks.new ≡ length blocks.old }
{
    if !blocks.get(block) {
        return;
    }
    let left = part_block(rows, others, plane, bit, block);
    blocks.set(block, left);
}

// The same in all blocks.
fn part_rows(rows: &mut Mask, blocks: &mut Mask, others: &mut Mask, plane: &Plane, bit: bool)
    requires blocks { AreBlocksOf rows.old blocks.old }
    requires others { length others.old ≡ length rows.old }
    requires plane { length plane.now ≡ length rows.old }
    ensures rows { rows.new ≡ kept_rows bit rows.old plane.now }
    ensures blocks { AreBlocksOf rows.new blocks.new }
    ensures others { others.new ≡ zip2 (λ a b. a || b) others.old (kept_rows (not bit) rows.old plane.now) }
{
    for block in 0..blocks.rows() {
        part_in(rows, blocks, others, plane, bit, block);
    }
}

// Keeps the rows that have this bit in the plane, in one pass over all. A block that is left without rows keeps its bit.
fn keep_whole(rows: &mut Mask, blocks: &Mask, plane: &Plane, bit: bool)
    requires blocks { AreBlocksOf rows.old blocks.now }
    requires plane { length plane.now ≡ length rows.old }
    ensures rows { rows.new ≡ kept_rows bit rows.old plane.now }
    ensures blocks { AreBlocksOf rows.new blocks.now }
{
    rows.keep(plane, bit);
}

// The same, where the rows that are not kept are added to another mask.
fn part_whole(rows: &mut Mask, blocks: &Mask, others: &mut Mask, plane: &Plane, bit: bool)
    requires blocks { AreBlocksOf rows.old blocks.now }
    requires others { length others.old ≡ length rows.old }
    requires plane { length plane.now ≡ length rows.old }
    ensures rows { rows.new ≡ kept_rows bit rows.old plane.now }
    ensures blocks { AreBlocksOf rows.new blocks.now }
    ensures others { others.new ≡ zip2 (λ a b. a || b) others.old (kept_rows (not bit) rows.old plane.now) }
{
    if bit {
        others.bits.or_rest(&rows.bits, &plane.bits);
    } else {
        others.bits.or_shared(&rows.bits, &plane.bits);
    }
    keep_whole(rows, blocks, plane, bit);
}

// Whether a block has a row.
#[inline(always)]
fn has_row_in(rows: &Mask, blocks: &Mask, block: usize) -> bool
    requires blocks { AreBlocksOf rows.now blocks.now }
    requires block { block < length blocks.now }
    ensures { result ≡ false → HasNone block rows.now }
{
    if !blocks.get(block) {
        return false;
    }
    !Block::of_mask(rows, block).is_empty()
}

// Whether a row of a block has a bit of 1 in the plane.
#[inline(always)]
fn has_one_in(rows: &Mask, blocks: &Mask, plane: &Plane, block: usize) -> bool
    requires blocks { AreBlocksOf rows.now blocks.now }
    requires plane { length plane.now ≡ length rows.now }
    requires block { block < length blocks.now }
    ensures { result ≡ false → HasNone block (kept_rows true rows.now plane.now) }
{
    if !blocks.get(block) {
        return false;
    }
    let kept = with_bit(
        &Block::of_mask(rows, block),
        &Block::of_plane(plane, block),
        true,
    );
    !kept.is_empty()
}

// The first row of a mask that has none before this place.
fn first_from(rows: &Mask, start: usize) -> Option<usize>
    requires { (row : ℕ) → row < start → slice_index_or rows.now row false ≡ false }
    ensures { result ≡ position (λ b. b) rows.now }
{
    for row in start..rows.rows() {
        if rows.get(row) {
            return Some(row);
        }
    }
    None
}

impl Remaining {
    /// Every row.
    pub fn all(alloc: Global, rows: usize) -> Result<Remaining, AllocError>
        ensures { IfOk result (λ r. r ≡ replicate rows true) }
    {
        Ok(Remaining {
            rows: Mask::all(alloc, rows)?,
            blocks: Mask::all(alloc, rows.div_ceil(512))?,
            planes: 0,
        })
    }

    /// The rows.
    #[inline(always)]
    pub fn mask(&self) -> &Mask
        ensures { result.now ≡ self.now }
    {
        &self.rows
    }

    /// The bits of a block of 64 rows, the first row's lowest.
    #[inline(always)]
    pub fn word(&self, block: usize) -> u64
        requires { 64 * block < length self.now }
        ensures { bits_of (min 64 (length self.now - 64 * block)) result ≡ take 64 (drop (64 * block) self.now) }
    {
        self.rows.word(block)
    }

    /// Keeps the rows that have this bit in the plane.
    pub fn keep(&mut self, plane: &Plane, bit: bool)
        requires { length plane.now ≡ length self.old }
        ensures { self.new ≡ kept_rows bit self.old plane.now }
    {
        if self.planes < WHOLE_PLANES {
            self.planes += 1;
            keep_whole(&mut self.rows, &self.blocks, plane, bit);
        } else {
            keep_rows(&mut self.rows, &mut self.blocks, plane, bit);
        }
    }

    /// Keeps the rows that have this bit in the plane, and adds the others to another mask.
    pub fn move_others(&mut self, others: &mut Mask, plane: &Plane, bit: bool)
        requires others { length others.old ≡ length self.old }
        requires plane { length plane.now ≡ length self.old }
        ensures others { others.new ≡ zip2 (λ a b. a || b) others.old (kept_rows (not bit) self.old plane.now) }
        ensures kept { self.new ≡ kept_rows bit self.old plane.now }
    {
        if self.planes < WHOLE_PLANES {
            self.planes += 1;
            part_whole(&mut self.rows, &self.blocks, others, plane, bit);
        } else {
            part_rows(&mut self.rows, &mut self.blocks, others, plane, bit);
        }
    }

    /// Moves the rows whose bit in the plane is less than this bit to `lt`, and those whose bit is greater to `gt`.
    pub fn part(&mut self, lt: &mut Mask, gt: &mut Mask, plane: &Plane, bit: bool)
        requires lt { length lt.old ≡ length self.old }
        requires gt { length gt.old ≡ length self.old }
        requires plane { length plane.now ≡ length self.old }
        ensures lt { lt.new ≡ less_rows bit lt.old self.old plane.now }
        ensures gt { gt.new ≡ greater_rows bit gt.old self.old plane.now }
        ensures kept { self.new ≡ kept_rows bit self.old plane.now }
    {
        if bit {
            self.move_others(lt, plane, true);
        } else {
            self.move_others(gt, plane, false);
        }
    }

    /// The first row, or none where none is left.
    pub fn first_one(&self) -> Option<usize>
        ensures { result ≡ position (λ b. b) self.now }
    {
        let _rows = self.rows.rows();
        for block in 0..self.blocks.rows() {
            if has_row_in(&self.rows, &self.blocks, block) {
                return first_from(&self.rows, 512 * block);
            }
        }
        None
    }

    /// Whether one of the rows has a bit of 1 in the plane.
    pub fn has_one(&self, plane: &Plane) -> bool
        requires { length plane.now ≡ length self.now }
        ensures { result ≡ false → (row : ℕ) → slice_index_or self.now row false ≡ true → slice_index_or plane.now row false ≡ false }
    {
        for block in 0..self.blocks.rows() {
            if has_one_in(&self.rows, &self.blocks, plane, block) {
                return true;
            }
        }
        false
    }
}
