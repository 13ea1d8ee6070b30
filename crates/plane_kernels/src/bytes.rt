//! Words as bytes: 8 for each word, the lowest first.

ghost use Rattle.std.specs.Prelude.{◌≡◌, ◌≤◌, ◌<◌, ◌+◌, ◌-◌, ◌*◌, ◌/◌};
ghost use Rattle.std.specs.Prelude.{◌^◌, min, length, replicate, IfErr, OnOk, if◌then◌else◌};
ghost use Rattle.std.specs.Simd.Lanes.{put_chunk};
ghost use Rattle.plane_kernels.specs.Bytes.{HasNoPadBits, HasPadBits, bytes_of_rows, bytes_of_words, word_count, word_in};
ghost use Rattle.plane_kernels.specs.Words.{unpacked};

use crate::pad_bits::PadBits;
use crate::words::low_ones;

// Writes all words.
pub fn store_words(words: &[u64], out: &mut [u8])
    requires { length out.old ≡ 8 * length words.now }
    ensures { out.new ≡ bytes_of_words words.now }
{
    for (i, word) in words.iter().enumerate() {
        out[8 * i..8 * i + 8].copy_from_slice(&word.to_le_bytes());
    }
}

// The word at a place, of so many rows which all have this bit.
fn even_word(rows: usize, bit: bool, at: usize) -> u64
    requires { 64 * at < rows }
    ensures { result ≡ (if bit then 2 ^ min (rows - 64 * at) 64 - 1 else 0) }
{
    if bit { low_ones(rows - 64 * at) } else { 0 }
}

// Writes the words of so many rows which all have this bit.
pub fn store_even(rows: usize, bit: bool, out: &mut [u8])
    requires { length out.old ≡ 8 * word_count rows }
    ensures { out.new ≡ bytes_of_rows (replicate rows bit) }
{
    for at in 0..out.len() / 8 {
        out[8 * at..8 * at + 8].copy_from_slice(&even_word(rows, bit, at).to_le_bytes());
    }
}

// The word at a place, counted in words.
fn word_at(bytes: &[u8], at: usize) -> u64
    requires { 8 * at + 8 ≤ length bytes.now }
    ensures { result ≡ word_in bytes.now at }
{
    let mut word = [0; 8];
    word.copy_from_slice(&bytes[8 * at..8 * at + 8]);
    u64::from_le_bytes(word)
}

// Refuses bytes of the words from `first` on in which a bit past the last of so many rows is 1.
pub fn refuse_pad_bits(rows: usize, first: usize, bytes: &[u8]) -> Result<(), PadBits>
    requires { 8 * first + length bytes.now ≤ 8 * word_count rows }
    ensures clean { OnOk result (HasNoPadBits rows first bytes.now) }
    ensures pad { IfErr result (λ pad. HasPadBits rows first bytes.now pad.word) }
{
    for i in 0..bytes.len() / 8 {
        let word = first + i;
        if word_at(bytes, i) > low_ones(rows - 64 * word) {
            return Err(PadBits { word });
        }
    }
    Ok(())
}

// Reads the words from `first` on.
pub fn load_words(words: &mut [u64], first: usize, bytes: &[u8])
    requires { 8 * first + length bytes.now ≤ 8 * length words.old }
    ensures { words.new ≡ put_chunk first words.old (unpacked (length bytes.now / 8) bytes.now) }
{
    for i in 0..bytes.len() / 8 {
        words[first + i] = word_at(bytes, i);
    }
}
