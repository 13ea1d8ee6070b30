//! The binary digits of cells, eight at once: those of one byte of each cell, as eight words for 64 cells.

ghost use Rattle.std.specs.Prelude.{◌≡◌, ◌<◌, ◌≤◌, ◌*◌, length, map, take, drop};
ghost use Rattle.std.specs.Simd.Lanes.{mask_l};
ghost use Rattle.plane_kernels.specs.Bytes.{bytes_of_words, word_count};
ghost use Rattle.plane_kernels.specs.Rows.{digit_at};
ghost use Rattle.plane_file.specs.ByteDigits.{byte_digits, byte_of, digit_blocks, words_at};

use std::simd::prelude::*;

// A byte of each of the first 64 cells, counted from the lowest.
fn bytes_of(cells: &[u64], byte: u8) -> u8x64
    requires some { 64 ≤ length cells.now }
    requires byte { byte < 8 }
    ensures { result ≡ map (byte_of byte) (take 64 cells.now) }
{
    let shifted = u64x64::from_slice(cells) >> u64x64::splat(8 * byte as u64);
    (shifted & u64x64::splat(255)).cast::<u8>()
}

// A digit of each of 64 bytes, as the bits of a word.
fn digit(bytes: u8x64, place: u8) -> u64
    requires lanes { length bytes ≡ 64 }
    requires place { place < 8 }
    ensures { result ≡ mask_l (map (digit_at place) bytes) }
{
    (bytes & u8x64::splat(1 << place))
        .simd_ne(u8x64::splat(0))
        .to_bitmask()
}

// The digits of that byte of the first 64 cells.
fn eight_digits(cells: &[u64], byte: u8) -> [u64; 8]
    requires some { 64 ≤ length cells.now }
    requires byte { byte < 8 }
    ensures { result ≡ byte_digits byte (take 64 cells.now) }
{
    let bytes = bytes_of(cells, byte);
    [
        digit(bytes, 0),
        digit(bytes, 1),
        digit(bytes, 2),
        digit(bytes, 3),
        digit(bytes, 4),
        digit(bytes, 5),
        digit(bytes, 6),
        digit(bytes, 7),
    ]
}

// The same of a block of 64 cells, of which the last may have fewer.
fn block_digits(cells: &[u64], block: usize, byte: u8) -> [u64; 8]
    requires block { 64 * block < length cells.now }
    requires byte { byte < 8 }
    ensures { result ≡ byte_digits byte (take 64 (drop (64 * block) cells.now)) }
{
    let rest = &cells[64 * block..];
    if rest.len() >= 64 {
        return eight_digits(rest, byte);
    }
    let mut padded = [0; 64];
    padded[..rest.len()].copy_from_slice(rest);
    eight_digits(&padded, byte)
}

// The digits of that byte of all cells, block by block.
pub(crate) fn cut_byte(cells: &[u64], byte: u8, blocks: &mut [[u64; 8]])
    requires byte { byte < 8 }
    requires size { length blocks.old ≡ word_count (length cells.now) }
    ensures { blocks.new ≡ digit_blocks (length blocks.old) byte cells.now }
{
    for (block, digits) in blocks.iter_mut().enumerate() {
        *digits = block_digits(cells, block, byte);
    }
}

// Writes the words of one of the eight digits, block by block.
pub(crate) fn store_digit(blocks: &[[u64; 8]], place: u8, out: &mut [u8])
    requires place { place < 8 }
    requires size { length out.old ≡ 8 * length blocks.now }
    ensures { out.new ≡ bytes_of_words (words_at place blocks.now) }
{
    for (i, digits) in blocks.iter().enumerate() {
        out[8 * i..8 * i + 8].copy_from_slice(&digits[place as usize].to_le_bytes());
    }
}
