//! What is kept of the rows of a cell by their digits.

ghost use Rattle.std.specs.Prelude.{◌≡◌, ◌<◌, ◌≤◌, [], cond, min, max, pos, IsTrue};
ghost use Rattle.query_model.specs.declared.query.ItemKind.TheVariants.{Sum};
ghost use Rattle.aggregates.specs.SumsOfCells.{end_if};
ghost use Rattle.aggregates.specs.Tallies.{tally_of};
ghost use Rattle.digit_sums.specs.declared.ends.DigitEnds.{DigitEnds};
ghost use Rattle.digit_sums.specs.Digits.{IsKept, IsKeptBy, RowDigits, certain_rows, noted, tally_by, with_row};

use crate::ends::{DigitEnds, OuterDigits};
use aggregates::Tally;
use std::marker::Model;

// The rows of a cell, which all count for certain or may all count: how many they are, how many of them have the digits of top, and of
// their digits, as numbers, the least, the greatest and the sum.
#[derive(Drop)]
pub(crate) struct CellDigits {
    certain: bool,
    rows: u32,
    at_top: u32,
    least: u32,
    greatest: u32,
    sum: u64,
}

impl Model for CellDigits {
    ghost use Rattle.digit_sums.specs.Digits.{IsKept, RowDigits};

    ghost Value = { RowDigits };

    ghost view = { λ c. record {
      certain = c.certain;
      rows = c.rows;
      at_top = c.at_top;
      least = c.least;
      greatest = c.greatest;
      sum = c.sum;
    } };

    ghost invariant = { λ c. IsKept (record {
      certain = c.certain;
      rows = c.rows;
      at_top = c.at_top;
      least = c.least;
      greatest = c.greatest;
      sum = c.sum;
    }) };
}

// The end of a cell of so many rows, if it is kept.
fn end_of(certain: u32, rows: u32, end: i128) -> Option<i128>
    ensures { result ≡ end_if certain rows end }
{
    if certain == 0 && rows > 0 {
        Some(end)
    } else {
        None
    }
}

// A sum of the rows that count for certain, which is 0 where none does.
fn sum_if(certain: bool, sum: i128) -> i128
    ensures { result ≡ cond certain sum (pos 0) }
{
    if certain { sum } else { 0 }
}

// Writes digits in place of others. Few rows do, so it is kept out of their way.
#[cold]
#[inline(never)]
fn replace(old: &mut u32, digits: u32)
    ensures { old.new ≡ digits }
{
    *old = digits;
}

// Makes the least digits no greater than these.
fn lower(least: &mut u32, digits: u32)
    ensures { least.new ≡ min least.old digits }
{
    if digits < *least {
        replace(least, digits);
    }
}

// Makes the greatest no less.
fn raise(greatest: &mut u32, digits: u32)
    ensures { greatest.new ≡ max greatest.old digits }
{
    if digits > *greatest {
        replace(greatest, digits);
    }
}

impl CellDigits {
    // That of no row.
    pub(crate) fn none(certain: bool) -> CellDigits
        ensures certain { result.certain ≡ certain }
        ensures sound { IsKept result }
        ensures none { (ends : DigitEnds) → tally_by ends result ≡ tally_of Sum [] }
    {
        CellDigits {
            certain,
            rows: 0,
            at_top: 0,
            least: u32::MAX,
            greatest: 0,
            sum: 0,
        }
    }

    // Notes a row with outer digits; those of the greatest number are handed in.
    fn note(&mut self, digits: u32, top: u32)
        requires few { self.old.at_top < self.old.rows }
        ensures { self.new ≡ noted self.old top digits }
    {
        self.at_top += u32::from(digits == top);
        lower(&mut self.least, digits);
        raise(&mut self.greatest, digits);
    }

    // Adds a row by its digits.
    pub(crate) fn add(&mut self, digits: u32, outer: OuterDigits, top: u32)
        requires few { self.old.rows < 16777216 }
        requires top { outer.high ≤ top }
        ensures certain { self.new.certain ≡ self.old.certain }
        ensures added { (cell : RowDigits) → IsKeptBy outer self.old cell
            → IsKeptBy outer self.new (with_row cell top digits) }
    {
        self.rows += 1;
        self.sum += u64::from(digits);
        if digits <= outer.low || digits >= outer.high {
            self.note(digits, top);
        }
    }

    // Whether its least and greatest digits are known, or not asked for.
    pub(crate) fn is_settled(&self, outer: OuterDigits) -> bool
        ensures { IsTrue result → (cell : RowDigits) (ends : DigitEnds) → IsKeptBy outer self.now cell
            → tally_by ends self.now ≡ tally_by ends cell }
    {
        self.certain || self.rows == 0 || (self.least <= outer.low && self.greatest >= outer.high)
    }

    // How many rows count for certain.
    fn certain_rows(&self) -> u32
        ensures { result ≡ certain_rows self.now }
    {
        if self.certain { self.rows } else { 0 }
    }

    // The tally of a sum of the rows.
    pub(crate) fn tally(&self, ends: DigitEnds) -> Tally
        ensures { result ≡ tally_by ends self.now }
    {
        let certain = self.certain_rows();
        let low = ends.lows(self.rows, self.sum);
        let spans = ends.spans(self.rows, self.at_top);
        Tally {
            certain: u64::from(certain),
            all: u64::from(self.rows),
            least_low: end_of(certain, self.rows, ends.low(self.least)),
            greatest_high: end_of(certain, self.rows, ends.high(self.greatest)),
            least_certain_high: None,
            greatest_certain_low: None,
            low_sum: sum_if(self.certain, low),
            high_sum: low + i128::from(spans),
        }
    }
}
