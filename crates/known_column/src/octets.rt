//! The digits of 64 rows in at most eight words, a byte for each row.

ghost use Rattle.std.specs.Prelude.{◌≡◌, ◌≤◌, cond, length, map, replicate};
ghost use Rattle.plane_kernels.specs.Rows.{bits_of};
ghost use Rattle.known_column.specs.BlockDigits.{digits_after};

use std::simd::prelude::*;

// For each of 64 rows the byte of a word in which its bit stands, the lowest first.
const BYTES: [u8; 64] = [
    0, 0, 0, 0, 0, 0, 0, 0, 1, 1, 1, 1, 1, 1, 1, 1, 2, 2, 2, 2, 2, 2, 2, 2, 3, 3, 3, 3, 3, 3, 3, 3,
    4, 4, 4, 4, 4, 4, 4, 4, 5, 5, 5, 5, 5, 5, 5, 5, 6, 6, 6, 6, 6, 6, 6, 6, 7, 7, 7, 7, 7, 7, 7, 7,
];

// And the bit's value there.
const BITS: [u8; 64] = [
    1, 2, 4, 8, 16, 32, 64, 128, 1, 2, 4, 8, 16, 32, 64, 128, 1, 2, 4, 8, 16, 32, 64, 128, 1, 2, 4,
    8, 16, 32, 64, 128, 1, 2, 4, 8, 16, 32, 64, 128, 1, 2, 4, 8, 16, 32, 64, 128, 1, 2, 4, 8, 16,
    32, 64, 128, 1, 2, 4, 8, 16, 32, 64, 128,
];

// For each of 64 rows its bit in a word, as 0 or 1.
fn bit_bytes(word: u64) -> u8x64
    ensures { result ≡ map (λ bit. cond bit 1 0) (bits_of 64 word) }
{
    let bytes = u64x8::splat(word).to_le_bytes();
    let own = bytes.swizzle_dyn_within::<16>(u8x64::from_array(BYTES));
    let bits = u8x64::from_array(BITS);
    (own & bits)
        .simd_eq(bits)
        .select(u8x64::splat(1), u8x64::splat(0))
}

// For each of 64 rows its digits in at most eight words.
pub(crate) fn byte_digits(words: &[u64], digits: &mut [u8])
    requires few { length words.now ≤ 8 }
    requires count { length digits.old ≡ 64 }
    ensures { digits.new ≡ digits_after words.now (replicate 64 0) }
{
    let mut sum = u8x64::splat(0);
    for word in words {
        sum = sum + sum + bit_bytes(*word);
    }
    sum.copy_to_slice(digits);
}
