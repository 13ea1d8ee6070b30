//! Blocks of 64 rows: their digits in several planes, as numbers.

ghost use Rattle.std.specs.Prelude.{◌≡◌, ◌≤◌, ◌<◌, ◌+◌, ◌-◌, ◌*◌, ◌^◌, length, replicate, All};
ghost use Rattle.std.specs.Simd.Lanes.{zip2};
ghost use Rattle.known_column.specs.BlockDigits.{digits_after, AreWords};
ghost use Rattle.known_column.specs.Marks.{AreBlockDigits};

use crate::octets::byte_digits;
use plane_kernels::Plane;

// A number followed by so many digits.
fn followed(number: u64, digits: u8, count: usize) -> u64
    requires count { count ≤ 8 }
    requires number { number < 2 ^ (64 - count) }
    requires digits { digits < 2 ^ count }
    ensures { result ≡ number * 2 ^ count + digits }
{
    (number << count) + u64::from(digits)
}

// Follows each of 64 numbers by so many digits.
fn append_digits(numbers: &mut [u64], digits: &[u8], count: usize)
    requires rows { length numbers.old ≡ 64 }
    requires digits { length digits.now ≡ 64 }
    requires few { count ≤ 8 }
    requires small { All (λ number. number < 2 ^ (64 - count)) numbers.old }
    requires fit { All (λ digit. digit < 2 ^ count) digits.now }
    ensures { numbers.new ≡ zip2 (λ number digit. number * 2 ^ count + digit) numbers.old digits.now }
{
    for (i, number) in numbers.iter_mut().enumerate() {
        *number = followed(*number, digits[i], count);
    }
}

// Makes 64 numbers the digits of the rows in at most eight words.
fn put_words(numbers: &mut [u64], words: &[u64])
    requires rows { length numbers.old ≡ 64 }
    requires few { length words.now ≤ 8 }
    ensures { numbers.new ≡ digits_after words.now (replicate 64 0) }
{
    let mut digits = [0; 64];
    byte_digits(words, &mut digits);
    for (i, number) in numbers.iter_mut().enumerate() {
        *number = u64::from(digits[i]);
    }
}

// Follows each of 64 numbers by its bits in at most eight words.
fn append_words(numbers: &mut [u64], words: &[u64])
    requires rows { length numbers.old ≡ 64 }
    requires few { length words.now ≤ 8 }
    requires small { All (λ number. number < 2 ^ (64 - length words.now)) numbers.old }
    ensures { numbers.new ≡ digits_after words.now numbers.old }
{
    let mut digits = [0; 64];
    byte_digits(words, &mut digits);
    append_digits(numbers, &digits, words.len());
}

// The digits of 64 rows in these words, as numbers.
fn word_digits(words: &[u64], numbers: &mut [u64])
    requires rows { length numbers.old ≡ 64 }
    requires few { length words.now ≤ 64 }
    ensures { numbers.new ≡ digits_after words.now (replicate 64 0) }
{
    let mut read = words.len().min(8);
    put_words(numbers, &words[..read]);
    while read < words.len() {
        let next = (read + 8).min(words.len());
        append_words(numbers, &words[read..next]);
        read = next;
    }
}

// The words of a block in these planes.
fn read_words(planes: &[Plane], block: usize, words: &mut [u64])
    requires room { length planes.now ≤ length words.old }
    requires rows { All (λ plane. 64 * block < length plane) planes.now }
    ensures { AreWords block planes.now words.new }
{
    for j in 0..planes.len() {
        words[j] = planes[j].word(block);
    }
}

// The digits of a block's rows in these planes, as numbers.
pub(crate) fn block_digits(planes: &[Plane], block: usize, numbers: &mut [u64])
    requires count { length numbers.old ≡ 64 }
    requires few { length planes.now ≤ 64 }
    requires rows { All (λ plane. 64 * block < length plane) planes.now }
    ensures { AreBlockDigits block planes.now numbers.new }
{
    let mut words = [0; 64];
    read_words(planes, block, &mut words);
    word_digits(&words[..planes.len()], numbers);
}
