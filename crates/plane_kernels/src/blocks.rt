//! Blocks of eight words, which have 512 rows.

ghost use Rattle.std.specs.Prelude.{◌≡◌, ◌≤◌, ◌<◌, ◌+◌, ◌-◌, ◌*◌, ◌^◌};
ghost use Rattle.std.specs.Prelude.{◌++◌, [], ◌∷◌, length, take, drop, replicate};
ghost use Rattle.std.specs.Int.Bits.{bit_and};
ghost use Rattle.std.specs.Simd.Lanes.{put_chunk, zip2};
ghost use Rattle.plane_kernels.specs.Rows.{IsPadded, rows_of};
ghost use Rattle.plane_kernels.specs.Words.{trimmed};

use crate::words::{flip_words, low_ones};
use std::simd::prelude::*;

// At most eight words, and 0 in the place of the others.
#[cold]
fn filled_block(words: &[u64]) -> [u64; 8]
    requires { length words.now ≤ 8 }
    ensures { result ≡ take 8 (words.now ++ replicate 8 0) }
{
    let mut eight = [0; 8];
    eight[..words.len()].copy_from_slice(words);
    eight
}

// The words of a block, 0 where there are none.
#[inline(always)]
pub fn block_of(words: &[u64], block: usize) -> [u64; 8]
    requires { 8 * block ≤ length words.now }
    ensures { result ≡ take 8 (drop (8 * block) words.now ++ replicate 8 0) }
{
    let rest = &words[8 * block..];
    if rest.len() < 8 {
        return filled_block(rest);
    }
    u64x8::from_slice(rest).to_array()
}

// Writes eight words, all of whose bits stand for rows. The ones beside them take nothing away: they tell the proof that each is a word.
#[inline(always)]
fn set_eight(words: &mut [u64], first: usize, eight: &[u64; 8])
    requires { first + 8 ≤ length words.old }
    ensures { words.new ≡ put_chunk first words.old (zip2 bit_and eight.now (replicate 8 (2 ^ 64 - 1))) }
{
    let all = u64x8::from_array(*eight) & u64x8::splat(u64::MAX);
    all.copy_to_slice(&mut words[first..]);
}

// Writes the words of the last block, as many as there are, without bits past the last of so many rows.
#[cold]
fn set_last_block(words: &mut [u64], rows: usize, block: usize, eight: &[u64; 8])
    requires tight { 64 * length words.old < rows + 64 }
    requires within { 8 * block ≤ length words.old }
    ensures { words.new ≡ put_chunk (8 * block) words.old (trimmed (rows - 512 * block) eight.now) }
{
    let first = 8 * block;
    let count = (words.len() - first).min(8);
    for i in 0..count {
        words[first + i] = eight[i] & low_ones(rows - 64 * (first + i));
    }
}

// Writes the words of a block, as many as there are, without bits past the last of so many rows.
#[inline(always)]
pub fn set_block(words: &mut [u64], rows: usize, block: usize, eight: &[u64; 8])
    requires tight { 64 * length words.old < rows + 64 }
    requires within { 8 * block ≤ length words.old }
    ensures { words.new ≡ put_chunk (8 * block) words.old (trimmed (rows - 512 * block) eight.now) }
{
    if words.len() - 8 * block >= 8 && rows - 512 * block >= 512 {
        set_eight(words, 8 * block, eight);
    } else {
        set_last_block(words, rows, block, eight);
    }
}

// Writes one word, without bits past the last of so many rows.
pub fn set_word(words: &mut [u64], rows: usize, block: usize, word: u64)
    requires within { block < length words.old }
    requires row { 64 * block < rows }
    ensures { words.new ≡ put_chunk block words.old (trimmed (rows - 64 * block) (word ∷ [])) }
{
    words[block] = word & low_ones(rows - 64 * block);
}

// The words of so many rows which all have this bit.
pub fn even_block(rows: usize, bit: bool) -> [u64; 8]
    requires { rows ≤ 512 }
    ensures rows { rows_of rows result ≡ replicate rows bit }
    ensures padded { IsPadded rows result }
{
    let mut words = [0; 8];
    if bit {
        flip_words(&mut words[..rows.div_ceil(64)], rows);
    }
    words
}
