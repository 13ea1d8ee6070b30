//! Some rows of a block of 512, as the bits of eight words.

ghost use Rattle.std.specs.Prelude.{◌≡◌, ◌<◌, ◌*◌, ◌&&◌, ◌||◌};
ghost use Rattle.std.specs.Prelude.{not, true, false, length, replicate, take, drop, count_by, sum_by};
ghost use Rattle.std.specs.Int.Bits.{bit_and, bit_or};
ghost use Rattle.std.specs.Int.Count.{ones};
ghost use Rattle.std.specs.Simd.Lanes.{put_chunk, zip2};
ghost use Rattle.plane_kernels.specs.Rows.{block_rows};
ghost use Rattle.plane_kernels.specs.Words.{and_not};

use crate::lanes::count_eight;
use crate::mask::Mask;
use crate::plane::Plane;
use crate::row_bits::RowBits;
use std::marker::Model;
use std::simd::prelude::*;

#[inline(always)]
fn and_words(words: &[u64; 8], others: &[u64; 8]) -> [u64; 8]
    ensures { result ≡ zip2 bit_and words.now others.now }
{
    (u64x8::from_array(*words) & u64x8::from_array(*others)).to_array()
}

#[inline(always)]
fn and_not_words(words: &[u64; 8], others: &[u64; 8]) -> [u64; 8]
    ensures { result ≡ zip2 and_not words.now others.now }
{
    (u64x8::from_array(*words) & !u64x8::from_array(*others)).to_array()
}

#[inline(always)]
fn or_words(words: &[u64; 8], others: &[u64; 8]) -> [u64; 8]
    ensures { result ≡ zip2 bit_or words.now others.now }
{
    (u64x8::from_array(*words) | u64x8::from_array(*others)).to_array()
}

/// How many bits of the words are 1.
#[inline(always)]
pub fn count_ones(words: &[u64; 8]) -> u64
    ensures { result ≡ sum_by ones words.now }
{
    count_eight(words, 0)
}

/// How many bits are 1 in the words and in others.
#[inline(always)]
pub fn count_both(words: &[u64; 8], others: &[u64; 8]) -> u64
    ensures { result ≡ sum_by ones (zip2 bit_and words.now others.now) }
{
    count_ones(&and_words(words, others))
}

/// A truth value for each row of a block, kept as the bits of eight words, the first row's lowest.
#[derive(Drop)]
pub struct Block {
    rows: usize,
    words: [u64; 8],
}

impl Model for Block {
    ghost use Rattle.std.specs.Prelude.{Bool, List};
    ghost use Rattle.plane_kernels.specs.Blocks.{IsBlock};
    ghost use Rattle.plane_kernels.specs.Rows.{rows_of};

    ghost Value = { List Bool };

    ghost view = { λ b. rows_of b.rows b.words };

    ghost invariant = { λ b. IsBlock b.rows b.words };
}

impl Block {
    /// The rows of a mask.
    #[inline(always)]
    pub fn of_mask(mask: &Mask, block: usize) -> Block
        requires { 512 * block < length mask.now }
        ensures { result ≡ take 512 (drop (512 * block) mask.now) }
    {
        Block {
            rows: (mask.rows() - 512 * block).min(512),
            words: mask.block(block),
        }
    }

    /// The rows with a bit of 1 in a plane.
    #[inline(always)]
    pub fn of_plane(plane: &Plane, block: usize) -> Block
        requires { 512 * block < length plane.now }
        ensures { result ≡ take 512 (drop (512 * block) plane.now) }
    {
        Block {
            rows: (plane.rows() - 512 * block).min(512),
            words: plane.block(block),
        }
    }

    /// The rows of both.
    #[inline(always)]
    pub fn and(&self, other: &Block) -> Block
        requires { length other.now ≡ length self.now }
        ensures { result ≡ zip2 (λ a b. a && b) self.now other.now }
    {
        Block {
            rows: self.rows,
            words: and_words(&self.words, &other.words),
        }
    }

    /// The rows that the other has not.
    #[inline(always)]
    pub fn and_not(&self, other: &Block) -> Block
        requires { length other.now ≡ length self.now }
        ensures { result ≡ zip2 (λ a b. a && not b) self.now other.now }
    {
        Block {
            rows: self.rows,
            words: and_not_words(&self.words, &other.words),
        }
    }

    /// The rows of either.
    #[inline(always)]
    pub fn or(&self, other: &Block) -> Block
        requires { length other.now ≡ length self.now }
        ensures { result ≡ zip2 (λ a b. a || b) self.now other.now }
    {
        Block {
            rows: self.rows,
            words: or_words(&self.words, &other.words),
        }
    }

    // Makes the rows of a block of 512 these, and leaves the others.
    #[inline(always)]
    pub(crate) fn put_into(&self, bits: &mut RowBits, block: usize)
        requires block { 512 * block < length bits.old }
        requires rows { length self.now ≡ block_rows (length bits.old) block }
        ensures { bits.new ≡ put_chunk (512 * block) bits.old self.now }
    {
        bits.set_block(block, &self.words);
    }

    /// Whether there is none.
    #[inline(always)]
    pub fn is_empty(&self) -> bool
        ensures { result ≡ true → self.now ≡ replicate (length self.now) false }
    {
        u64x8::from_array(self.words).reduce_or() == 0
    }

    /// How many rows there are.
    #[inline(always)]
    pub fn count(&self) -> u64
        ensures { result ≡ count_by (λ b. b) self.now }
    {
        count_ones(&self.words)
    }
}
