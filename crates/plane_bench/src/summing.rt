//! The numbers of all rows of a column, read block by block and so often that it can be timed, and their sum.

ghost use Rattle.std.specs.Prelude.{◌≡◌, ◌*◌, ◌%◌, ◌^◌, sum, sum_by};
ghost use Rattle.known_column.specs.Columns.{number_of};

use known_column::Known;

// How often the numbers of all rows are read.
const READINGS: u64 = 16;

// The sum of numbers, of which 64 bits are kept.
fn wrapping_sum(numbers: &[u64]) -> u64
    ensures { result ≡ sum numbers.now % 2 ^ 64 }
{
    let mut total: u64 = 0;
    for number in numbers.iter() {
        total = total.wrapping_add(*number);
    }
    total
}

// The sum of the numbers that were read so far, one of each row, of which 64 bits are kept.
fn sum_numbers(column: &Known) -> u64
    ensures { result ≡ sum_by (number_of column.now.ends column.now.known.read) column.now.known.prefixes % 2 ^ 64 }
{
    let rows = column.rows();
    let mut numbers = [0; 64];
    let mut total: u64 = 0;
    for block in 0..rows.div_ceil(64) {
        column.numbers(block, &mut numbers);
        let count = (rows - 64 * block).min(64);
        total = total.wrapping_add(wrapping_sum(&numbers[..count]));
    }
    total
}

// The same over all readings.
pub(crate) fn sum_readings(column: &Known) -> u64
    ensures { result ≡ READINGS * sum_by (number_of column.now.ends column.now.known.read) column.now.known.prefixes % 2 ^ 64 }
{
    let mut total: u64 = 0;
    for _ in 0..READINGS {
        total = total.wrapping_add(sum_numbers(column));
    }
    total
}
