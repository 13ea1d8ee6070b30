//! A truth value for each row, as words of 64 bits: row r is bit r % 64 of word r / 64, and the bits past the last row are 0.

ghost use Rattle.std.specs.Prelude.{◌≡◌, ◌≤◌, ◌<◌, ◌+◌, ◌-◌, ◌*◌, ◌%◌, ◌&&◌};
ghost use Rattle.std.specs.Prelude.{◌||◌, ◌↔◌, min, not, false, length, map, replicate, take, drop, count_by};
ghost use Rattle.std.specs.Prelude.{position, slice_get, slice_set, Some, IsNone, IfErr, OnErr, OnOk, [], vec_capacity};
ghost use Rattle.std.specs.Simd.Lanes.{put_chunk, zip2};
ghost use Rattle.plane_kernels.specs.Bytes.{HasNoPadBits, HasPadBits, bytes_of_rows, word_count};
ghost use Rattle.plane_kernels.specs.Rows.{IsPadded, bits_of, block_rows, digit_at, rows_of};

use crate::blocks::{block_of, set_block, set_word};
use crate::bytes::{load_words, refuse_pad_bits, store_words};
use crate::lanes::{and_not_words, and_words, count_both_words, count_words, or_words};
use crate::pad_bits::PadBits;
use crate::triples::{first_both, first_past, first_rest, or_rest_words, or_shared_words};
use crate::words::{first_one, flip_words, gather_unset_words, gather_words, with_bit};
use std::marker::Model;
use std::mem::replace;

// Rows whose words are written.
#[derive(Drop)]
pub struct Bits {
    rows: usize,
    words: Vec<u64>,
}

impl Model for Bits {
    ghost use Rattle.std.specs.Prelude.{List, Bool};
    ghost use Rattle.plane_kernels.specs.Rows.{rows_of, HoldsRows};

    ghost Value = { List Bool };

    ghost view = { λ b. rows_of b.rows b.words.items };

    ghost invariant = { λ b. HoldsRows b.rows b.words.items };
}

impl Bits {
    // So many rows with this bit, in room for their words.
    pub fn filled(rows: usize, bit: bool, room: Vec<u64>) -> Bits
        requires empty { room.items ≡ [] }
        requires room { rows ≤ 64 * vec_capacity room }
        ensures { result ≡ replicate rows bit }
    {
        let mut words = room;
        match words.resize(rows.div_ceil(64), 0) {
            Ok(()) => {}
            Err(_) => unreachable!(),
        }
        let mut bits = Bits { rows, words };
        if bit {
            bits.not_into();
        }
        bits
    }

    // The bits of others, in room for their words.
    pub fn copied(other: &Bits, room: Vec<u64>) -> Bits
        requires empty { room.items ≡ [] }
        requires room { length other.now ≤ 64 * vec_capacity room }
        ensures { result ≡ other.now }
    {
        let mut words = room;
        match words.extend_from_slice(&other.words) {
            Ok(()) => {}
            Err(_) => unreachable!(),
        }
        Bits {
            rows: other.rows,
            words,
        }
    }

    // Takes the room of its words, and leaves no row.
    pub fn take_room(&mut self) -> Vec<u64>
        ensures empty { result.items ≡ [] }
        ensures room { length self.old ≤ 64 * vec_capacity result }
    {
        self.rows = 0;
        let none = Vec::new(*self.words.allocator());
        let mut room = replace(&mut self.words, none);
        room.clear();
        room
    }

    #[inline(always)]
    pub fn rows(&self) -> usize
        ensures { result ≡ length self.now }
    {
        self.rows
    }

    #[inline(always)]
    pub fn get(&self, row: usize) -> bool
        requires { row < length self.now }
        ensures { slice_get self.now row ≡ Some result }
    {
        self.words[row / 64] >> (row % 64) & 1 == 1
    }

    #[inline(always)]
    pub fn set(&mut self, row: usize, bit: bool)
        requires { row < length self.old }
        ensures { self.new ≡ slice_set self.old row bit }
    {
        let word = with_bit(self.words[row / 64], row % 64, bit);
        self.words[row / 64] = word;
    }

    pub fn copy_from(&mut self, other: &Bits)
        requires { length other.now ≡ length self.old }
        ensures { self.new ≡ other.now }
    {
        self.words.copy_from_slice(&other.words);
    }

    pub fn and_into(&mut self, other: &Bits)
        requires { length other.now ≡ length self.old }
        ensures { self.new ≡ zip2 (λ a b. a && b) self.old other.now }
    {
        and_words(&mut self.words, &other.words);
    }

    pub fn or_into(&mut self, other: &Bits)
        requires { length other.now ≡ length self.old }
        ensures { self.new ≡ zip2 (λ a b. a || b) self.old other.now }
    {
        or_words(&mut self.words, &other.words);
    }

    pub fn and_not_into(&mut self, other: &Bits)
        requires { length other.now ≡ length self.old }
        ensures { self.new ≡ zip2 (λ a b. a && not b) self.old other.now }
    {
        and_not_words(&mut self.words, &other.words);
    }

    pub fn not_into(&mut self)
        ensures { self.new ≡ map not self.old }
    {
        flip_words(&mut self.words, self.rows);
    }

    pub fn count(&self) -> u64
        ensures { result ≡ count_by (λ b. b) self.now }
    {
        // The count is at most the rows, whose number is read here.
        let _rows = self.rows;
        count_words(&self.words)
    }

    pub fn count_both(&self, other: &Bits) -> u64
        requires { length other.now ≡ length self.now }
        ensures { result ≡ count_by (λ b. b) (zip2 (λ a b. a && b) self.now other.now) }
    {
        let _rows = self.rows;
        count_both_words(&self.words, &other.words)
    }

    pub fn first_one(&self) -> Option<usize>
        ensures first { result ≡ position (λ b. b) self.now }
        ensures none { IsNone result ↔ (count_by (λ b. b) self.now ≡ 0) }
    {
        let _rows = self.rows;
        first_one(&self.words)
    }

    // Adds the rows that two others share.
    pub fn or_shared(&mut self, left: &Bits, right: &Bits)
        requires left { length left.now ≡ length self.old }
        requires right { length right.now ≡ length self.old }
        ensures { self.new ≡ zip2 (λ a b. a || b) self.old (zip2 (λ a b. a && b) left.now right.now) }
    {
        or_shared_words(&mut self.words, &left.words, &right.words);
    }

    // Adds the rows that one has and another has not.
    pub fn or_rest(&mut self, left: &Bits, right: &Bits)
        requires left { length left.now ≡ length self.old }
        requires right { length right.now ≡ length self.old }
        ensures { self.new ≡ zip2 (λ a b. a || b) self.old (zip2 (λ a b. a && not b) left.now right.now) }
    {
        or_rest_words(&mut self.words, &left.words, &right.words);
    }

    // The first row that `other` has not.
    pub fn first_rest(&self, other: &Bits) -> Option<usize>
        requires { length other.now ≡ length self.now }
        ensures { result ≡ position (λ b. b) (zip2 (λ a b. a && not b) self.now other.now) }
    {
        let _rows = self.rows;
        first_rest(&self.words, &other.words)
    }

    // The first row that `other` has too.
    pub fn first_both(&self, other: &Bits) -> Option<usize>
        requires { length other.now ≡ length self.now }
        ensures { result ≡ position (λ b. b) (zip2 (λ a b. a && b) self.now other.now) }
    {
        let _rows = self.rows;
        first_both(&self.words, &other.words)
    }

    // The first row that is not in `within`, or is in `without`.
    pub fn first_past(&self, within: &Bits, without: &Bits) -> Option<usize>
        requires within { length within.now ≡ length self.now }
        requires without { length without.now ≡ length self.now }
        ensures { result ≡ position (λ b. b) (zip2 (λ a b. a && not b) self.now (zip2 (λ a b. a && not b) within.now without.now)) }
    {
        let _rows = self.rows;
        first_past(&self.words, &within.words, &without.words)
    }

    // The word with the bits of a block of 64 rows.
    #[inline(always)]
    pub fn word(&self, block: usize) -> u64
        requires { 64 * block < length self.now }
        ensures { bits_of (min 64 (length self.now - 64 * block)) result ≡ take 64 (drop (64 * block) self.now) }
    {
        self.words[block]
    }

    // Makes the rows of a block of 64 these bits, and leaves the others.
    #[inline(always)]
    pub fn set_word(&mut self, block: usize, word: u64)
        requires { 64 * block < length self.old }
        ensures { self.new ≡ put_chunk (64 * block) self.old (bits_of (min 64 (length self.old - 64 * block)) word) }
    {
        set_word(&mut self.words, self.rows, block, word);
    }

    // The words with the bits of a block of 512 rows.
    #[inline(always)]
    pub fn block(&self, block: usize) -> [u64; 8]
        requires { 512 * block < length self.now }
        ensures rows { rows_of (block_rows (length self.now) block) result ≡ take 512 (drop (512 * block) self.now) }
        ensures padded { IsPadded (block_rows (length self.now) block) result }
    {
        block_of(&self.words, block)
    }

    // Makes the rows of a block these bits, and leaves the others.
    #[inline(always)]
    pub fn set_block(&mut self, block: usize, words: &[u64; 8])
        requires { 512 * block < length self.old }
        ensures { self.new ≡ put_chunk (512 * block) self.old (rows_of (block_rows (length self.old) block) words.now) }
    {
        set_block(&mut self.words, self.rows, block, words);
    }

    // The bit of each row is a digit of its cell.
    pub fn gather(&mut self, cells: &[u64], shift: u32)
        requires shift { shift < 64 }
        requires rows { length cells.now ≡ length self.old }
        ensures { self.new ≡ map (digit_at shift) cells.now }
    {
        gather_words(cells, shift, &mut self.words);
    }

    // The bit of each row is 1 where its mark is false.
    pub fn gather_unset(&mut self, marks: &[bool])
        requires { length marks.now ≡ length self.old }
        ensures { self.new ≡ map not marks.now }
    {
        gather_unset_words(marks, &mut self.words);
    }

    // Writes the bytes of the words.
    pub fn store(&self, out: &mut [u8])
        requires { length out.old ≡ 8 * word_count (length self.now) }
        ensures { out.new ≡ bytes_of_rows self.now }
    {
        store_words(&self.words, out);
    }

    // Reads the words from `first` on, or refuses their bytes.
    pub fn load_words(&mut self, first: usize, bytes: &[u8]) -> Result<(), PadBits>
        requires whole { length bytes.now % 8 ≡ 0 }
        requires within { 8 * first + length bytes.now ≤ 8 * word_count (length self.old) }
        ensures ok { OnOk result (bytes_of_rows self.new ≡ put_chunk (8 * first) (bytes_of_rows self.old) bytes.now) }
        ensures rows { length self.new ≡ length self.old }
        ensures clean { OnOk result (HasNoPadBits (length self.old) first bytes.now) }
        ensures pad { IfErr result (λ pad. HasPadBits (length self.old) first bytes.now pad.word) }
        ensures unchanged { OnErr result (self.new ≡ self.old) }
    {
        refuse_pad_bits(self.rows, first, bytes)?;
        load_words(&mut self.words, first, bytes);
        Ok(())
    }
}
