//! A bit for each row of a block of 512, as eight words side by side.

ghost use Rattle.std.specs.Prelude.{◌≡◌, ◌≢◌, ◌<◌, ◌+◌, ◌*◌, ◌/◌, ◌%◌, ◌&&◌, ◌||◌, ℕ, not, false, length, slice_index_or, IsTrue};
ghost use Rattle.plane_kernels.specs.Rows.{digit_at};
ghost use Rattle.kleene_filter.specs.Blocks.{bit_in, AreRowsIn, IsPut};

use plane_kernels::Mask;
use std::simd::prelude::*;

// The rows of both.
#[inline(always)]
pub(crate) fn both(rows: &[u64; 8], others: &[u64; 8]) -> [u64; 8]
    ensures { (row : ℕ) → row < 512 → bit_in row result ≡ (bit_in row rows.now && bit_in row others.now) }
{
    (u64x8::from_array(*rows) & u64x8::from_array(*others)).to_array()
}

// The rows of either.
#[inline(always)]
pub(crate) fn either(rows: &[u64; 8], others: &[u64; 8]) -> [u64; 8]
    ensures { (row : ℕ) → row < 512 → bit_in row result ≡ (bit_in row rows.now || bit_in row others.now) }
{
    (u64x8::from_array(*rows) | u64x8::from_array(*others)).to_array()
}

// The rows that are not among these.
#[inline(always)]
pub(crate) fn unset(rows: &[u64; 8]) -> [u64; 8]
    ensures { (row : ℕ) → row < 512 → bit_in row result ≡ not (bit_in row rows.now) }
{
    (u64x8::from_array(*rows) ^ u64x8::splat(u64::MAX)).to_array()
}

// The rows, or none.
#[inline(always)]
pub(crate) fn chosen(is_chosen: bool, rows: &[u64; 8]) -> [u64; 8]
    ensures { (row : ℕ) → bit_in row result ≡ (is_chosen && bit_in row rows.now) }
{
    if is_chosen { *rows } else { [0; 8] }
}

// The rows, where those of one of the eight words are the bits of this one.
#[inline(always)]
pub(crate) fn with_word(rows: &[u64; 8], at: usize, word: u64) -> [u64; 8]
    requires { at < 8 }
    ensures here { (row : ℕ) → row / 64 ≡ at → bit_in row result ≡ digit_at (row % 64) word }
    ensures others { (row : ℕ) → row / 64 ≢ at → bit_in row result ≡ bit_in row rows.now }
{
    let mut words = *rows;
    words[at] = word;
    words
}

// The rows of a block that are in the mask.
#[inline(always)]
pub(crate) fn read_block(mask: &Mask, block: usize) -> [u64; 8]
    requires { 512 * block < length mask.now }
    ensures { (row : ℕ) → row < 512 → 512 * block + row < length mask.now
        → bit_in row result ≡ slice_index_or mask.now (512 * block + row) false }
{
    mask.block(block)
}

// Makes the mask's rows of a block these, and leaves the others.
#[inline(always)]
pub(crate) fn write_block(mask: &mut Mask, block: usize, rows: &[u64; 8])
    requires { 512 * block < length mask.old }
    ensures { IsPut block rows.now mask.old mask.new }
{
    mask.set_block(block, *rows);
}

// Whether both words have the same rows.
#[inline(always)]
pub(crate) fn are_same(words: &[u64; 8], others: &[u64; 8]) -> bool
    ensures { IsTrue result → words.now ≡ others.now }
{
    words == others
}

// Makes the mask's rows of a block these, where it has others, and gives them as they stand there then: none behind the last row.
#[inline(always)]
pub(crate) fn renew_block(
    mask: &mut Mask,
    block: usize,
    old: &[u64; 8],
    rows: &[u64; 8],
) -> [u64; 8]
    requires block { 512 * block < length mask.old }
    requires old { AreRowsIn mask.old block old.now }
    ensures put { IsPut block rows.now mask.old mask.new }
    ensures rows { AreRowsIn mask.new block result }
{
    if are_same(old, rows) {
        return *old;
    }
    write_block(mask, block, rows);
    mask.block(block)
}
