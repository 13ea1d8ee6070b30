//! Some rows of a block of 512, as the bits of eight words, and how many of them have the bits of other words.

ghost use Rattle.std.specs.Prelude.{◌≡◌, ◌<◌, ◌*◌, ◌&&◌, not, length, take, drop, count_by};
ghost use Rattle.std.specs.Int.Bits.{bit_and};
ghost use Rattle.std.specs.Simd.Lanes.{zip2};
ghost use Rattle.plane_kernels.specs.Rows.{rows_of, IsPadded};
ghost use Rattle.plane_kernels.specs.Words.{and_not};

use plane_kernels::{Mask, Plane, count_both, count_ones};
use std::marker::Model;
use std::simd::prelude::*;

#[inline(always)]
fn and_not_words(words: &[u64; 8], others: &[u64; 8]) -> [u64; 8]
    ensures { result ≡ zip2 and_not words.now others.now }
{
    (u64x8::from_array(*words) & !u64x8::from_array(*others)).to_array()
}

#[inline(always)]
fn and_words(words: &[u64; 8], others: &[u64; 8]) -> [u64; 8]
    ensures { result ≡ zip2 bit_and words.now others.now }
{
    (u64x8::from_array(*words) & u64x8::from_array(*others)).to_array()
}

// A truth value for each row of a block, kept as the bits of eight words, the first row's lowest.
#[derive(Drop)]
pub(crate) struct Rows {
    rows: usize,
    words: [u64; 8],
}

impl Model for Rows {
    ghost use Rattle.std.specs.Prelude.{Bool, List};
    ghost use Rattle.plane_kernels.specs.Blocks.{IsBlock};
    ghost use Rattle.plane_kernels.specs.Rows.{rows_of};

    ghost Value = { List Bool };

    ghost view = { λ b. rows_of b.rows b.words };

    ghost invariant = { λ b. IsBlock b.rows b.words };
}

impl Rows {
    // The rows of a mask.
    #[inline(always)]
    pub(crate) fn of_mask(mask: &Mask, block: usize) -> Rows
        requires { 512 * block < length mask.now }
        ensures { result ≡ take 512 (drop (512 * block) mask.now) }
    {
        Rows {
            rows: (mask.rows() - 512 * block).min(512),
            words: mask.block(block),
        }
    }

    // The rows with a bit of 1 in a plane.
    #[inline(always)]
    pub(crate) fn of_plane(plane: &Plane, block: usize) -> Rows
        requires { 512 * block < length plane.now }
        ensures { result ≡ take 512 (drop (512 * block) plane.now) }
    {
        Rows {
            rows: (plane.rows() - 512 * block).min(512),
            words: plane.block(block),
        }
    }

    // The rows of both.
    #[inline(always)]
    pub(crate) fn and(&self, other: &Rows) -> Rows
        requires { length other.now ≡ length self.now }
        ensures { result ≡ zip2 (λ a b. a && b) self.now other.now }
    {
        Rows {
            rows: self.rows,
            words: and_words(&self.words, &other.words),
        }
    }

    // The rows that the other has not.
    #[inline(always)]
    pub(crate) fn and_not(&self, other: &Rows) -> Rows
        requires { length other.now ≡ length self.now }
        ensures { result ≡ zip2 (λ a b. a && not b) self.now other.now }
    {
        Rows {
            rows: self.rows,
            words: and_not_words(&self.words, &other.words),
        }
    }

    // How many rows there are.
    #[inline(always)]
    pub(crate) fn count(&self) -> u64
        ensures { result ≡ count_by (λ b. b) self.now }
    {
        count_ones(&self.words)
    }

    // How many of them have a bit of 1 in other words of the block.
    #[inline(always)]
    pub(crate) fn count_words(&self, others: &[u64; 8]) -> u64
        requires { IsPadded (length self.now) others.now }
        ensures { result ≡ count_by (λ b. b) (zip2 (λ a b. a && b) self.now (rows_of (length self.now) others.now)) }
    {
        count_both(&self.words, others)
    }
}
