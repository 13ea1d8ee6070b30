//! Rows of a block of 512, as the bits of eight words.

ghost use Rattle.std.specs.Prelude.{◌≡◌, ◌<◌, ◌↔◌, IsTrue};
ghost use Rattle.std.specs.Int.Bits.{bit_and, bit_or};
ghost use Rattle.std.specs.Simd.Lanes.{zip2};
ghost use Rattle.plane_kernels.specs.Words.{and_not};
ghost use Rattle.aggregates.specs.ExtremeRows.{has_place, AreZero};

use std::simd::prelude::*;

/// Whether the words have no row.
#[inline(always)]
pub fn is_empty(words: &[u64; 8]) -> bool
    ensures { IsTrue result ↔ AreZero words.now }
{
    u64x8::from_array(*words).reduce_or() == 0
}

// Whether both words have the same rows.
#[inline(always)]
pub(crate) fn are_same(words: &[u64; 8], others: &[u64; 8]) -> bool
    ensures { IsTrue result → words.now ≡ others.now }
{
    words == others
}

// The rows that both words have.
#[inline(always)]
pub(crate) fn and_words(words: &[u64; 8], others: &[u64; 8]) -> [u64; 8]
    ensures { result ≡ zip2 bit_and words.now others.now }
{
    (u64x8::from_array(*words) & u64x8::from_array(*others)).to_array()
}

// The rows that one of both has.
#[inline(always)]
pub(crate) fn or_words(words: &[u64; 8], others: &[u64; 8]) -> [u64; 8]
    ensures { result ≡ zip2 bit_or words.now others.now }
{
    (u64x8::from_array(*words) | u64x8::from_array(*others)).to_array()
}

// The rows that the other words have not.
#[inline(always)]
pub(crate) fn and_not_words(words: &[u64; 8], others: &[u64; 8]) -> [u64; 8]
    ensures { result ≡ zip2 and_not words.now others.now }
{
    (u64x8::from_array(*words) & !u64x8::from_array(*others)).to_array()
}

/// The place of a row that the words have.
pub fn first_place(words: &[u64; 8]) -> usize
    requires { ¬ AreZero words.now }
    ensures within { result < 512 }
    ensures set { IsTrue (has_place words.now result) }
{
    let mut k = 0;
    while k < 7 && words[k] == 0 {
        k += 1;
    }
    64 * k + words[k].trailing_zeros() as usize
}
