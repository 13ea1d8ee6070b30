//! The rows of a column whose range holds a number: those with the number's prefix.

ghost use Rattle.std.specs.Prelude.{◌≡◌, ◌≤◌, ◌<◌, ◌+◌, ◌-◌, ◌*◌, ◌^◌, ◌≤ℤ◌};
ghost use Rattle.std.specs.Prelude.{◌-ℤ◌, nat_abs, length, map, sum_by, if◌then◌else◌};
ghost use Rattle.std.specs.Int.{bit_not, w64};
ghost use Rattle.std.specs.Int.Bits.{bit_and};
ghost use Rattle.std.specs.Int.Count.{ones};
ghost use Rattle.std.specs.Simd.Lanes.{zip2};
ghost use Rattle.std.specs.declared.option.Option.TheVariants.{Some};
ghost use Rattle.aggregates.specs.Selections.{block_of};
ghost use Rattle.daq_table.specs.Tables.{first_code, planes, spread};
ghost use Rattle.known_column.specs.Columns.{digit_of, rows_of_column};
ghost use Rattle.known_column.specs.RowBlocks.{IsKnownColumn};
ghost use Rattle.query_model.specs.Knowledge.{prefix_of};
ghost use Rattle.clip_bounds.specs.Clips.{IsLong};
ghost use Rattle.clip_bounds.specs.Ends.{level_end};
ghost use Rattle.clip_bounds.specs.Levels.{IsLevelOf, count_at};

use aggregates::End;
use known_column::{Known, numbers_of_prefix};
use plane_kernels::Mask;
use std::simd::prelude::*;

// A prefix, and the numbers of its rows.
#[derive(Clone, Copy)]
pub(crate) struct Level {
    pub(crate) prefix: u128,
    pub(crate) low: i128,
    pub(crate) high: i128,
}

// How many planes were read.
fn planes_read(known: &Known) -> u8
    ensures read { result ≡ known.now.known.read }
    ensures few { result ≤ 65 }
    ensures known { IsKnownColumn known.now }
{
    let _rows = known.rows();
    known.width() + u8::from(known.nullable()) - known.unread()
}

// How many were not.
fn planes_unread(known: &Known) -> u8
    ensures unread { result ≡ planes known.now.ends - known.now.known.read }
    ensures few { result ≤ 65 }
{
    let _digits = known.width();
    let _nullable = known.nullable();
    known.unread()
}

// The code of the least number.
fn least_code(known: &Known) -> u128
    ensures code { result ≡ first_code known.now.ends }
    ensures few { result ≤ 2 ^ 64 }
{
    if known.nullable() {
        1 << known.width()
    } else {
        0
    }
}

// How far a number that the column may have lies above the least.
fn distance(known: &Known, number: i128) -> u128
    requires base { known.now.ends.base ≤ℤ number }
    requires top { number ≤ℤ known.now.ends.top }
    ensures distance { result ≡ nat_abs (number -ℤ known.now.ends.base) }
    ensures few { result ≤ spread known.now.ends }
    ensures small { result < 2 ^ 64 }
{
    let _top = known.top();
    (number - i128::from(known.base())) as u128
}

// The prefix of a number that the column may have.
fn prefix_of(known: &Known, number: i128) -> u128
    requires base { known.now.ends.base ≤ℤ number }
    requires top { number ≤ℤ known.now.ends.top }
    ensures prefix { result ≡ prefix_of known.now.ends known.now.known.read (Some (nat_abs (number -ℤ known.now.ends.base))) }
    ensures few { result < 2 ^ known.now.known.read }
    ensures legal { result * 2 ^ (planes known.now.ends - known.now.known.read) ≤ first_code known.now.ends + spread known.now.ends }
{
    let _rows = known.rows();
    (least_code(known) + distance(known, number)) >> planes_unread(known)
}

// The rows of a block that have this bit in a plane.
fn kept(rows: &[u64; 8], plane: &[u64; 8], bit: bool) -> [u64; 8]
    ensures { result ≡ zip2 bit_and rows.now (if bit then plane.now else map (bit_not w64) plane.now) }
{
    let plane = u64x8::from_array(*plane);
    let with_bit = if bit { plane } else { !plane };
    (u64x8::from_array(*rows) & with_bit).to_array()
}

// How many rows a block has.
fn count_rows(rows: &[u64; 8]) -> u64
    ensures { result ≡ sum_by ones rows.now }
{
    let mut count = 0;
    for k in 0..8 {
        count += u64::from(rows[k].count_ones());
    }
    count
}

impl Level {
    // The level of a number that the column may have.
    pub(crate) fn of(known: &Known, number: i128) -> Level
        requires base { known.now.ends.base ≤ℤ number }
        requires top { number ≤ℤ known.now.ends.top }
        ensures level { IsLevelOf known.now number result }
        ensures low { IsLong result.low }
        ensures high { IsLong result.high }
    {
        let prefix = prefix_of(known, number);
        let greatest = known.top().abs_diff(known.base());
        let unread = planes_unread(known);
        let (first, last) = numbers_of_prefix(greatest, least_code(known), unread, prefix);
        let base = i128::from(known.base());
        Level {
            prefix,
            low: base + i128::from(first),
            high: base + i128::from(last),
        }
    }

    // The end of its numbers.
    pub(crate) fn end(&self, end: End) -> i128
        ensures { result ≡ level_end end self.now }
    {
        match end {
            End::Low => self.low,
            End::High => self.high,
        }
    }

    // A digit of the prefix, which has so many, counted from the highest.
    fn digit(&self, read: u8, at: u8) -> bool
        requires at { at < read }
        requires few { read ≤ 65 }
        ensures { result ≡ digit_of read at self.now.prefix }
    {
        self.prefix >> (read - at - 1) & 1 == 1
    }

    // How many rows of a mask's block of 512 are at this level.
    fn count_in_block(&self, known: &Known, mask: &Mask, block: usize) -> u64
        requires rows { length mask.now ≡ rows_of_column known.now }
        requires block { 512 * block < rows_of_column known.now }
        requires prefix { self.now.prefix < 2 ^ known.now.known.read }
        ensures count { result ≡ count_at self.now.prefix (block_of block mask.now) (block_of block known.now.known.prefixes) }
        ensures few { result ≤ 512 }
    {
        let mut rows = mask.block(block);
        let read = planes_read(known);
        for j in 0..read {
            rows = kept(&rows, &known.plane(j).block(block), self.digit(read, j));
        }
        count_rows(&rows)
    }

    // How many rows of a mask are at this level.
    pub(crate) fn count(&self, known: &Known, mask: &Mask) -> u64
        requires rows { length mask.now ≡ rows_of_column known.now }
        requires prefix { self.now.prefix < 2 ^ known.now.known.read }
        ensures count { result ≡ count_at self.now.prefix mask.now known.now.known.prefixes }
        ensures few { result ≤ 2 ^ 25 }
    {
        let _rows = known.rows();
        let mut count = 0;
        for block in 0..mask.rows().div_ceil(512) {
            count += self.count_in_block(known, mask, block);
        }
        count
    }
}
