//! Bits of rows which may all be the same: then no word is written yet, and their room is not touched.

ghost use Rattle.std.specs.Prelude.{◌≡◌, ◌≤◌, ◌<◌, ◌+◌, ◌-◌, ◌*◌, ◌%◌, ◌&&◌};
ghost use Rattle.std.specs.Prelude.{◌||◌, ◌↔◌, min, not, length, map, replicate, take, drop, count_by};
ghost use Rattle.std.specs.Prelude.{position, slice_get, slice_set, Some, IfOk, IsNone, IfErr, OnErr, OnOk};
ghost use Rattle.std.specs.Simd.Lanes.{put_chunk, zip2};
ghost use Rattle.plane_kernels.specs.Bytes.{HasNoPadBits, HasPadBits, bytes_of_rows, word_count};
ghost use Rattle.plane_kernels.specs.RowBits.{HasRoom, IsWritten, rows_held};
ghost use Rattle.plane_kernels.specs.Rows.{IsPadded, bits_of, block_rows, digit_at, rows_of};

use crate::bits::Bits;
use crate::blocks::even_block;
use crate::bytes::store_even;
use crate::pad_bits::PadBits;
use std::alloc::{AllocError, Global};
use std::marker::Model;
use std::mem::replace;

// So many rows with one bit, and room for their words, or rows that are written.
#[derive(Drop)]
pub(crate) enum State {
    Even {
        rows: usize,
        bit: bool,
        room: Vec<u64>,
    },
    Written(Bits),
}

// What masks and planes are made of.
pub struct RowBits {
    state: State,
}

// A call of its own: a derived drop is proved anew wherever one is let go.
impl Drop for RowBits {
    fn drop(self) {
        let RowBits { state: _ } = self;
    }
}

impl Model for RowBits {
    ghost use Rattle.std.specs.Prelude.{List, Bool};
    ghost use Rattle.plane_kernels.specs.RowBits.{HasRoom, rows_held};

    ghost Value = { List Bool };

    ghost view = { λ b. rows_held b.state };

    ghost invariant = { λ b. HasRoom b.state };
}

// Takes the room, and leaves none.
fn taken(room: &mut Vec<u64>) -> Vec<u64>
    ensures { result ≡ room.old }
{
    let none = Vec::new(*room.allocator());
    replace(room, none)
}

impl State {
    // Writes the words.
    fn write(&mut self)
        requires { HasRoom self.old }
        ensures { IsWritten (rows_held self.old) self.new }
    {
        if let State::Even { rows, bit, room } = self {
            *self = State::Written(Bits::filled(*rows, *bit, taken(room)));
        }
    }

    // Makes the rows those of others.
    fn copy_from(&mut self, other: &Bits)
        requires room { HasRoom self.old }
        requires rows { length other.now ≡ length (rows_held self.old) }
        ensures { IsWritten other.now self.new }
    {
        match self {
            State::Even { room, .. } => *self = State::Written(Bits::copied(other, taken(room))),
            State::Written(bits) => bits.copy_from(other),
        }
    }

    // Makes all rows this bit, and leaves room for their words.
    fn fill(&mut self, all: bool)
        requires { HasRoom self.old }
        ensures room { HasRoom self.new }
        ensures rows { rows_held self.new ≡ replicate (length (rows_held self.old)) all }
    {
        match self {
            State::Even { bit, .. } => *bit = all,
            State::Written(bits) => {
                let rows = bits.rows();
                let room = bits.take_room();
                *self = State::Even {
                    rows,
                    bit: all,
                    room,
                };
            }
        }
    }
}

impl RowBits {
    // So many rows with this bit.
    pub fn even(alloc: Global, rows: usize, bit: bool) -> Result<RowBits, AllocError>
        ensures { IfOk result (λ b. b ≡ replicate rows bit) }
    {
        let room = Vec::with_capacity(alloc, rows.div_ceil(64))?;
        Ok(RowBits {
            state: State::Even { rows, bit, room },
        })
    }

    #[inline(always)]
    pub fn rows(&self) -> usize
        ensures { result ≡ length self.now }
    {
        match &self.state {
            State::Even { rows, .. } => *rows,
            State::Written(bits) => bits.rows(),
        }
    }

    #[inline(always)]
    pub fn get(&self, row: usize) -> bool
        requires { row < length self.now }
        ensures { slice_get self.now row ≡ Some result }
    {
        match &self.state {
            State::Even { bit, .. } => *bit,
            State::Written(bits) => bits.get(row),
        }
    }

    #[inline(always)]
    pub fn set(&mut self, row: usize, bit: bool)
        requires { row < length self.old }
        ensures { self.new ≡ slice_set self.old row bit }
    {
        match &mut self.state {
            State::Written(bits) => bits.set(row, bit),
            State::Even { .. } => self.set_unwritten(row, bit),
        }
    }

    // The same, where no word is written yet.
    #[cold]
    fn set_unwritten(&mut self, row: usize, bit: bool)
        requires { row < length self.old }
        ensures { self.new ≡ slice_set self.old row bit }
    {
        self.state.write();
        match &mut self.state {
            State::Written(bits) => bits.set(row, bit),
            State::Even { .. } => unreachable!(),
        }
    }

    pub fn copy_from(&mut self, other: &RowBits)
        requires { length other.now ≡ length self.old }
        ensures { self.new ≡ other.now }
    {
        match &other.state {
            State::Even { bit, .. } => self.state.fill(*bit),
            State::Written(bits) => self.state.copy_from(bits),
        }
    }

    // Keeps the rows that written ones have too.
    fn and_written(&mut self, other: &Bits)
        requires { length other.now ≡ length self.old }
        ensures { self.new ≡ zip2 (λ a b. a && b) self.old other.now }
    {
        match &mut self.state {
            State::Even { bit, .. } => {
                if *bit {
                    self.state.copy_from(other);
                }
            }
            State::Written(bits) => bits.and_into(other),
        }
    }

    pub fn and_into(&mut self, other: &RowBits)
        requires { length other.now ≡ length self.old }
        ensures { self.new ≡ zip2 (λ a b. a && b) self.old other.now }
    {
        match &other.state {
            State::Even { bit, .. } => {
                if !*bit {
                    self.state.fill(false);
                }
            }
            State::Written(bits) => self.and_written(bits),
        }
    }

    // Adds written rows.
    fn or_written(&mut self, other: &Bits)
        requires { length other.now ≡ length self.old }
        ensures { self.new ≡ zip2 (λ a b. a || b) self.old other.now }
    {
        match &mut self.state {
            State::Even { bit, .. } => {
                if !*bit {
                    self.state.copy_from(other);
                }
            }
            State::Written(bits) => bits.or_into(other),
        }
    }

    pub fn or_into(&mut self, other: &RowBits)
        requires { length other.now ≡ length self.old }
        ensures { self.new ≡ zip2 (λ a b. a || b) self.old other.now }
    {
        match &other.state {
            State::Even { bit, .. } => {
                if *bit {
                    self.state.fill(true);
                }
            }
            State::Written(bits) => self.or_written(bits),
        }
    }

    // Takes away written rows.
    fn and_not_written(&mut self, other: &Bits)
        requires { length other.now ≡ length self.old }
        ensures { self.new ≡ zip2 (λ a b. a && not b) self.old other.now }
    {
        match &mut self.state {
            State::Even { bit, .. } => {
                if *bit {
                    self.state.copy_from(other);
                    self.not_into();
                }
            }
            State::Written(bits) => bits.and_not_into(other),
        }
    }

    pub fn and_not_into(&mut self, other: &RowBits)
        requires { length other.now ≡ length self.old }
        ensures { self.new ≡ zip2 (λ a b. a && not b) self.old other.now }
    {
        match &other.state {
            State::Even { bit, .. } => {
                if *bit {
                    self.state.fill(false);
                }
            }
            State::Written(bits) => self.and_not_written(bits),
        }
    }

    pub fn not_into(&mut self)
        ensures { self.new ≡ map not self.old }
    {
        match &mut self.state {
            State::Even { bit, .. } => *bit = !*bit,
            State::Written(bits) => bits.not_into(),
        }
    }

    pub fn count(&self) -> u64
        ensures { result ≡ count_by (λ b. b) self.now }
    {
        match &self.state {
            State::Even { rows, bit, .. } => { if *bit { *rows as u64 } else { 0 } }
            State::Written(bits) => bits.count(),
        }
    }

    // How many rows it has that written ones have too.
    fn count_written(&self, other: &Bits) -> u64
        requires { length other.now ≡ length self.now }
        ensures { result ≡ count_by (λ b. b) (zip2 (λ a b. a && b) self.now other.now) }
    {
        match &self.state {
            State::Even { bit, .. } => { if *bit { other.count() } else { 0 } }
            State::Written(bits) => bits.count_both(other),
        }
    }

    pub fn count_both(&self, other: &RowBits) -> u64
        requires { length other.now ≡ length self.now }
        ensures { result ≡ count_by (λ b. b) (zip2 (λ a b. a && b) self.now other.now) }
    {
        match &other.state {
            State::Even { bit, .. } => { if *bit { self.count() } else { 0 } }
            State::Written(bits) => self.count_written(bits),
        }
    }

    pub fn first_one(&self) -> Option<usize>
        ensures first { result ≡ position (λ b. b) self.now }
        ensures none { IsNone result ↔ (count_by (λ b. b) self.now ≡ 0) }
    {
        match &self.state {
            State::Even { rows, bit, .. } => { if *bit && *rows > 0 { Some(0) } else { None } }
            State::Written(bits) => bits.first_one(),
        }
    }

    // Adds the rows that two others share.
    pub fn or_shared(&mut self, left: &RowBits, right: &RowBits)
        requires left { length left.now ≡ length self.old }
        requires right { length right.now ≡ length self.old }
        ensures { self.new ≡ zip2 (λ a b. a || b) self.old (zip2 (λ a b. a && b) left.now right.now) }
    {
        match (&left.state, &right.state) {
            (State::Written(first), State::Written(second)) => {
                self.state.write();
                match &mut self.state {
                    State::Written(bits) => bits.or_shared(first, second),
                    State::Even { .. } => unreachable!(),
                }
            }
            (State::Even { bit, .. }, _) => {
                if *bit {
                    self.or_into(right);
                }
            }
            (State::Written(_), State::Even { bit, .. }) => {
                if *bit {
                    self.or_into(left);
                }
            }
        }
    }

    // Adds the rows that another has not.
    fn or_not_into(&mut self, other: &RowBits)
        requires { length other.now ≡ length self.old }
        ensures { self.new ≡ zip2 (λ a b. a || not b) self.old other.now }
    {
        self.not_into();
        self.and_into(other);
        self.not_into();
    }

    // Adds the rows that one has and another has not.
    pub fn or_rest(&mut self, left: &RowBits, right: &RowBits)
        requires left { length left.now ≡ length self.old }
        requires right { length right.now ≡ length self.old }
        ensures { self.new ≡ zip2 (λ a b. a || b) self.old (zip2 (λ a b. a && not b) left.now right.now) }
    {
        match (&left.state, &right.state) {
            (State::Written(first), State::Written(second)) => {
                self.state.write();
                match &mut self.state {
                    State::Written(bits) => bits.or_rest(first, second),
                    State::Even { .. } => unreachable!(),
                }
            }
            (State::Even { bit, .. }, _) => {
                if *bit {
                    self.or_not_into(right);
                }
            }
            (State::Written(_), State::Even { bit, .. }) => {
                if !*bit {
                    self.or_into(left);
                }
            }
        }
    }

    // The first row that `other` has not.
    pub fn first_rest(&self, other: &RowBits) -> Option<usize>
        requires { length other.now ≡ length self.now }
        ensures { result ≡ position (λ b. b) (zip2 (λ a b. a && not b) self.now other.now) }
    {
        match &other.state {
            State::Even { bit, .. } => { if *bit { None } else { self.first_one() } }
            State::Written(others) => match &self.state {
                State::Written(bits) => bits.first_rest(others),
                State::Even { .. } => self.first_rest_by_rows(other),
            },
        }
    }

    // The same, row by row.
    fn first_rest_by_rows(&self, other: &RowBits) -> Option<usize>
        requires { length other.now ≡ length self.now }
        ensures { result ≡ position (λ b. b) (zip2 (λ a b. a && not b) self.now other.now) }
    {
        for row in 0..self.rows() {
            if self.get(row) & !other.get(row) {
                return Some(row);
            }
        }
        None
    }

    // The first row that is not in `within`, or is in `without`.
    pub fn first_past(&self, within: &RowBits, without: &RowBits) -> Option<usize>
        requires within { length within.now ≡ length self.now }
        requires without { length without.now ≡ length self.now }
        ensures { result ≡ position (λ b. b) (zip2 (λ a b. a && not b) self.now (zip2 (λ a b. a && not b) within.now without.now)) }
    {
        match (&within.state, &without.state) {
            (State::Written(inner), State::Written(outer)) => match &self.state {
                State::Written(bits) => bits.first_past(inner, outer),
                State::Even { .. } => self.first_past_by_rows(within, without),
            },
            (State::Even { bit, .. }, _) => {
                if *bit {
                    self.first_shared(without)
                } else {
                    self.first_one()
                }
            }
            (State::Written(_), State::Even { bit, .. }) => {
                if *bit {
                    self.first_one()
                } else {
                    self.first_rest(within)
                }
            }
        }
    }

    // The same, row by row.
    fn first_past_by_rows(&self, within: &RowBits, without: &RowBits) -> Option<usize>
        requires within { length within.now ≡ length self.now }
        requires without { length without.now ≡ length self.now }
        ensures { result ≡ position (λ b. b) (zip2 (λ a b. a && not b) self.now (zip2 (λ a b. a && not b) within.now without.now)) }
    {
        for row in 0..self.rows() {
            let allowed = within.get(row) & !without.get(row);
            if self.get(row) & !allowed {
                return Some(row);
            }
        }
        None
    }

    // The first row that `other` has too.
    fn first_shared(&self, other: &RowBits) -> Option<usize>
        requires { length other.now ≡ length self.now }
        ensures { result ≡ position (λ b. b) (zip2 (λ a b. a && b) self.now other.now) }
    {
        match (&self.state, &other.state) {
            (State::Written(bits), State::Written(others)) => bits.first_both(others),
            (State::Even { bit, .. }, _) => { if *bit { other.first_one() } else { None } }
            (State::Written(_), State::Even { bit, .. }) => {
                if *bit { self.first_one() } else { None }
            }
        }
    }

    // The word with the bits of a block of 64 rows.
    #[inline(always)]
    pub fn word(&self, block: usize) -> u64
        requires { 64 * block < length self.now }
        ensures { bits_of (min 64 (length self.now - 64 * block)) result ≡ take 64 (drop (64 * block) self.now) }
    {
        match &self.state {
            State::Even { bit, .. } => { if *bit { u64::MAX } else { 0 } }
            State::Written(bits) => bits.word(block),
        }
    }

    // Makes the rows of a block of 64 these bits, and leaves the others.
    #[inline(always)]
    pub fn set_word(&mut self, block: usize, word: u64)
        requires { 64 * block < length self.old }
        ensures { self.new ≡ put_chunk (64 * block) self.old (bits_of (min 64 (length self.old - 64 * block)) word) }
    {
        match &mut self.state {
            State::Written(bits) => bits.set_word(block, word),
            State::Even { .. } => self.set_unwritten_word(block, word),
        }
    }

    // The same, where no word is written yet.
    #[cold]
    fn set_unwritten_word(&mut self, block: usize, word: u64)
        requires { 64 * block < length self.old }
        ensures { self.new ≡ put_chunk (64 * block) self.old (bits_of (min 64 (length self.old - 64 * block)) word) }
    {
        self.state.write();
        match &mut self.state {
            State::Written(bits) => bits.set_word(block, word),
            State::Even { .. } => unreachable!(),
        }
    }

    // The words with the bits of a block of 512 rows.
    #[inline(always)]
    pub fn block(&self, block: usize) -> [u64; 8]
        requires { 512 * block < length self.now }
        ensures rows { rows_of (block_rows (length self.now) block) result ≡ take 512 (drop (512 * block) self.now) }
        ensures padded { IsPadded (block_rows (length self.now) block) result }
    {
        match &self.state {
            State::Even { rows, bit, .. } => even_block((*rows - 512 * block).min(512), *bit),
            State::Written(bits) => bits.block(block),
        }
    }

    // Makes the rows of a block these bits, and leaves the others.
    #[inline(always)]
    pub fn set_block(&mut self, block: usize, words: &[u64; 8])
        requires { 512 * block < length self.old }
        ensures { self.new ≡ put_chunk (512 * block) self.old (rows_of (block_rows (length self.old) block) words.now) }
    {
        match &mut self.state {
            State::Written(bits) => bits.set_block(block, words),
            State::Even { .. } => self.set_unwritten_block(block, words),
        }
    }

    // The same, where no word is written yet.
    #[cold]
    fn set_unwritten_block(&mut self, block: usize, words: &[u64; 8])
        requires { 512 * block < length self.old }
        ensures { self.new ≡ put_chunk (512 * block) self.old (rows_of (block_rows (length self.old) block) words.now) }
    {
        self.state.write();
        match &mut self.state {
            State::Written(bits) => bits.set_block(block, words),
            State::Even { .. } => unreachable!(),
        }
    }

    // The bit of each row is a digit of its cell.
    pub fn gather(&mut self, cells: &[u64], shift: u32)
        requires shift { shift < 64 }
        requires rows { length cells.now ≡ length self.old }
        ensures { self.new ≡ map (digit_at shift) cells.now }
    {
        self.state.write();
        match &mut self.state {
            State::Written(bits) => bits.gather(cells, shift),
            State::Even { .. } => unreachable!(),
        }
    }

    // The bit of each row is 1 where its mark is false.
    pub fn gather_unset(&mut self, marks: &[bool])
        requires { length marks.now ≡ length self.old }
        ensures { self.new ≡ map not marks.now }
    {
        self.state.write();
        match &mut self.state {
            State::Written(bits) => bits.gather_unset(marks),
            State::Even { .. } => unreachable!(),
        }
    }

    // Writes the bytes of the words.
    pub fn store(&self, out: &mut [u8])
        requires { length out.old ≡ 8 * word_count (length self.now) }
        ensures { out.new ≡ bytes_of_rows self.now }
    {
        match &self.state {
            State::Even { rows, bit, .. } => store_even(*rows, *bit, out),
            State::Written(bits) => bits.store(out),
        }
    }

    // Reads the words from `first` on, or refuses their bytes.
    pub fn load_words(&mut self, first: usize, bytes: &[u8]) -> Result<(), PadBits>
        requires whole { length bytes.now % 8 ≡ 0 }
        requires within { 8 * first + length bytes.now ≤ 8 * word_count (length self.old) }
        ensures ok { OnOk result (bytes_of_rows self.new ≡ put_chunk (8 * first) (bytes_of_rows self.old) bytes.now) }
        ensures rows { length self.new ≡ length self.old }
        ensures clean { OnOk result (HasNoPadBits (length self.old) first bytes.now) }
        ensures pad { IfErr result (λ pad. HasPadBits (length self.old) first bytes.now pad.word) }
        ensures unchanged { OnErr result (self.new ≡ self.old) }
    {
        self.state.write();
        match &mut self.state {
            State::Written(bits) => bits.load_words(first, bytes),
            State::Even { .. } => unreachable!(),
        }
    }
}
