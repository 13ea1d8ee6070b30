//! A plane: one binary digit of each row of a column.

ghost use Rattle.std.specs.Prelude.{◌≡◌, ◌≤◌, ◌<◌, ◌+◌, ◌-◌, ◌*◌, ◌/◌};
ghost use Rattle.std.specs.Prelude.{◌%◌, ◌^◌, ◌==◌, ◌&&◌, min, not, false, length, map, replicate};
ghost use Rattle.std.specs.Prelude.{take, drop, position, slice_get, Some, IfOk, IfErr, OnErr, OnOk};
ghost use Rattle.std.specs.Simd.Lanes.{put_chunk, zip2};
ghost use Rattle.plane_kernels.specs.Bytes.{HasNoPadBits, HasPadBits, bytes_of_rows, word_count};
ghost use Rattle.plane_kernels.specs.Rows.{IsPadded, bits_of, block_rows, rows_of};

use crate::mask::Mask;
use crate::pad_bits::PadBits;
use crate::row_bits::RowBits;
use std::alloc::{AllocError, Global};
use std::marker::Model;

/// A bit for each row.
pub struct Plane {
    pub(crate) bits: RowBits,
}

// A call of its own: a derived drop is proved anew wherever one is let go.
impl Drop for Plane {
    fn drop(self) {
        let Plane { bits: _ } = self;
    }
}

impl Model for Plane {
    ghost use Rattle.std.specs.Prelude.{List, Bool};

    ghost Value = { List Bool };

    ghost view = { λ p. p.bits };
}

impl Plane {
    /// The plane whose bits are all 0.
    pub fn blank(alloc: Global, rows: usize) -> Result<Plane, AllocError>
        ensures { IfOk result (λ p. p ≡ replicate rows false) }
    {
        Ok(Plane {
            bits: RowBits::even(alloc, rows, false)?,
        })
    }

    /// The number of rows.
    #[inline(always)]
    pub fn rows(&self) -> usize
        ensures { result ≡ length self.now }
    {
        self.bits.rows()
    }

    /// One row's bit.
    #[inline(always)]
    pub fn get(&self, row: usize) -> bool
        requires { row < length self.now }
        ensures { slice_get self.now row ≡ Some result }
    {
        self.bits.get(row)
    }

    /// Makes the bits those of another plane of as many rows.
    pub fn copy_from(&mut self, other: &Plane)
        requires { length other.now ≡ length self.old }
        ensures { self.new ≡ other.now }
    {
        self.bits.copy_from(&other.bits);
    }

    /// The first row with a bit of 1 that the mask has not.
    pub fn first_outside(&self, mask: &Mask) -> Option<usize>
        requires { length mask.now ≡ length self.now }
        ensures { result ≡ position (λ b. b) (zip2 (λ a b. a && not b) self.now mask.now) }
    {
        self.bits.first_rest(&mask.bits)
    }

    /// The first row with a bit of 1 that is not in `within`, or is in `without`.
    pub fn first_past(&self, within: &Mask, without: &Mask) -> Option<usize>
        requires within { length within.now ≡ length self.now }
        requires without { length without.now ≡ length self.now }
        ensures { result ≡ position (λ b. b) (zip2 (λ a b. a && not b) self.now (zip2 (λ a b. a && not b) within.now without.now)) }
    {
        self.bits.first_past(&within.bits, &without.bits)
    }

    /// The bits of a block of 64 rows, the first row's lowest.
    #[inline(always)]
    pub fn word(&self, block: usize) -> u64
        requires { 64 * block < length self.now }
        ensures { bits_of (min 64 (length self.now - 64 * block)) result ≡ take 64 (drop (64 * block) self.now) }
    {
        self.bits.word(block)
    }

    /// The words with the bits of a block of 512 rows, the first row's lowest; bits past the last row are 0.
    #[inline(always)]
    pub fn block(&self, block: usize) -> [u64; 8]
        requires { 512 * block < length self.now }
        ensures rows { rows_of (block_rows (length self.now) block) result ≡ take 512 (drop (512 * block) self.now) }
        ensures padded { IsPadded (block_rows (length self.now) block) result }
    {
        self.bits.block(block)
    }

    /// Writes the words, each as 8 bytes, the lowest byte first.
    pub fn store(&self, out: &mut [u8])
        requires { length out.old ≡ 8 * word_count (length self.now) }
        ensures { out.new ≡ bytes_of_rows self.now }
    {
        self.bits.store(out);
    }

    /// Reads all words from bytes as `store` writes them.
    ///
    /// # Errors
    /// Where a bit past the last row is 1.
    pub fn load(&mut self, bytes: &[u8]) -> Result<(), PadBits>
        requires { length bytes.now ≡ 8 * word_count (length self.old) }
        ensures ok { OnOk result (bytes_of_rows self.new ≡ bytes.now) }
        ensures rows { length self.new ≡ length self.old }
        ensures clean { OnOk result (HasNoPadBits (length self.old) 0 bytes.now) }
        ensures pad { IfErr result (λ pad. HasPadBits (length self.old) 0 bytes.now pad.word) }
        ensures unchanged { OnErr result (self.new ≡ self.old) }
    {
        self.bits.load_words(0, bytes)
    }

    /// Reads as many words as the bytes are from `first` on, and leaves the others.
    ///
    /// # Errors
    /// Where a bit past the last row is 1.
    pub fn load_words(&mut self, first: usize, bytes: &[u8]) -> Result<(), PadBits>
        requires whole { length bytes.now % 8 ≡ 0 }
        requires within { 8 * first + length bytes.now ≤ 8 * word_count (length self.old) }
        ensures ok { OnOk result (bytes_of_rows self.new ≡ put_chunk (8 * first) (bytes_of_rows self.old) bytes.now) }
        ensures rows { length self.new ≡ length self.old }
        ensures clean { OnOk result (HasNoPadBits (length self.old) first bytes.now) }
        ensures pad { IfErr result (λ pad. HasPadBits (length self.old) first bytes.now pad.word) }
        ensures unchanged { OnErr result (self.new ≡ self.old) }
    {
        self.bits.load_words(first, bytes)
    }
}

/// Gives each row the digit `j`, counted from the highest, of its cell of `width` binary digits.
pub fn transpose(cells: &[u64], width: u8, j: u8, out: &mut Plane)
    requires digit { j < width }
    requires width { width ≤ 64 }
    requires rows { length cells.now ≡ length out.old }
    ensures { out.new ≡ map (λ cell. (cell / 2 ^ (width - (j + 1))) % 2 == 1) cells.now }
{
    out.bits.gather(cells, u32::from(width - (j + 1)));
}

/// Gives each row the bit 1 where its cell is not null: the plane that tells null.
pub fn validity(nulls: &[bool], out: &mut Plane)
    requires { length nulls.now ≡ length out.old }
    ensures { out.new ≡ map not nulls.now }
{
    out.bits.gather_unset(nulls);
}
