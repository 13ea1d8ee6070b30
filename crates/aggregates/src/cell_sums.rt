//! The sums of many cells, to which rows are added one by one, by numbers of 64 bits.

ghost use Rattle.std.specs.Prelude.{◌≡◌, ◌<◌, ◌≤◌, List, ◌∷◌, [], ◌++◌, ℤ, pos, true, false, length, slice_get, Some, None};
ghost use Rattle.std.specs.Prelude.{if◌then◌else◌, IfOk, IsTrue};
ghost use Rattle.std.specs.Int.{int_max, int_min};
ghost use Rattle.query_model.specs.declared.query.ItemKind.TheVariants.{Max, Min, Sum};
ghost use Rattle.query_model.specs.Answers.{answer};
ghost use Rattle.query_model.specs.Bounds.{Pair};
ghost use Rattle.query_model.specs.Validity.{IsSumKind};
ghost use Rattle.aggregates.specs.SumsOfCells.{end_if, FitsCell};
ghost use Rattle.aggregates.specs.Runnings.{IsAdded, IsBlank, MayCount};
ghost use Rattle.aggregates.specs.Tallies.{tally_of};

use crate::tally::Tally;
use query_model::ItemKind;
use std::alloc::{AllocError, Global};
use std::marker::Model;

// What a sum keeps of the rows of a cell, in few bits; its model is the tally of a sum. The outermost ends are of meaning while there are
// rows, and none of them counts for certain.
#[derive(Drop)]
pub(crate) struct CellSum {
    certain: u32,
    all: u32,
    low: i64,
    high: i64,
    least: i64,
    greatest: i64,
}

impl Model for CellSum {
    ghost use Rattle.std.specs.Prelude.{◌≤◌};
    ghost use Rattle.std.specs.declared.option.Option.TheVariants.{None};
    ghost use Rattle.aggregates.specs.SumsOfCells.{end_if, IsOfRows};
    ghost use Rattle.aggregates.specs.declared.tally.Tally.{Tally};

    ghost Value = { Tally };

    ghost view = { λ c. record {
      certain = c.certain;
      all = c.all;
      least_low = end_if c.certain c.all c.least;
      greatest_high = end_if c.certain c.all c.greatest;
      least_certain_high = None;
      greatest_certain_low = None;
      low_sum = c.low;
      high_sum = c.high;
    } };

    ghost invariant = { λ c. (c.all ≤ 16777216) × IsOfRows c.all c.low × IsOfRows c.all c.high };
}

// The number if it is kept, else 0.
fn kept(keeps: bool, number: i64) -> i64
    ensures { result ≡ (if keeps then number else pos 0) }
{
    number * i64::from(keeps)
}

// What a row adds to the least sum, if it may count.
fn low_share(may: bool, certain: bool, low: i64) -> i64
    ensures { result ≡ (if may then (if certain then low else int_min low (pos 0)) else pos 0) }
{
    kept(may & (certain | (low < 0)), low)
}

// What it adds to the greatest sum.
fn high_share(may: bool, certain: bool, high: i64) -> i64
    ensures { result ≡ (if may then (if certain then high else int_max high (pos 0)) else pos 0) }
{
    kept(may & (certain | (high > 0)), high)
}

// The least of some numbers and one more, if it is kept; else what stands there. `none` tells that there are no numbers.
fn lesser_if(kept: bool, none: bool, earlier: i64, number: i64) -> i64
    ensures kept { kept ≡ true → (xs : List ℤ) → (if none then None else Some earlier) ≡ answer Min xs
        → Some result ≡ answer Min (xs ++ number ∷ []) }
    ensures still { kept ≡ false → result ≡ earlier }
{
    if !kept {
        earlier
    } else if none {
        number
    } else {
        earlier.min(number)
    }
}

// The greatest of them.
fn greater_if(kept: bool, none: bool, earlier: i64, number: i64) -> i64
    ensures kept { kept ≡ true → (xs : List ℤ) → (if none then None else Some earlier) ≡ answer Max xs
        → Some result ≡ answer Max (xs ++ number ∷ []) }
    ensures still { kept ≡ false → result ≡ earlier }
{
    if !kept {
        earlier
    } else if none {
        number
    } else {
        earlier.max(number)
    }
}

// The end of a cell, if it is kept.
fn end_of(certain: u32, all: u32, end: i64) -> Option<i128>
    ensures { result ≡ end_if certain all end }
{
    if certain == 0 && all > 0 {
        Some(i128::from(end))
    } else {
        None
    }
}

impl CellSum {
    // That of no row.
    fn none() -> CellSum
        ensures { result ≡ tally_of Sum [] }
    {
        CellSum {
            certain: 0,
            all: 0,
            low: 0,
            high: 0,
            least: 0,
            greatest: 0,
        }
    }

    // Adds a row if it may count, with the ends of its value.
    fn add(&mut self, may: bool, certain: bool, low: i64, high: i64)
        requires few { IsTrue may → self.old.all < 16777216 }
        requires few_certain { IsTrue may → self.old.certain < 16777216 }
        requires fits { FitsCell low high }
        ensures added { IsTrue may → (ps : List Pair) → self.old ≡ tally_of Sum ps
            → self.new ≡ tally_of Sum (ps ++ (record { certain = certain; low = low; high = high }) ∷ []) }
        ensures passed { may ≡ false → self.new ≡ self.old }
    {
        let ended = may & (self.certain == 0);
        let none = self.all == 0;
        self.least = lesser_if(ended, none, self.least, low);
        self.greatest = greater_if(ended, none, self.greatest, high);
        self.all += u32::from(may);
        self.certain += u32::from(may & certain);
        self.low += low_share(may, certain, low);
        self.high += high_share(may, certain, high);
    }

    // The tally.
    fn tally(&self) -> Tally
        ensures { result ≡ self.now }
    {
        Tally {
            certain: u64::from(self.certain),
            all: u64::from(self.all),
            least_low: end_of(self.certain, self.all, self.least),
            greatest_high: end_of(self.certain, self.all, self.greatest),
            least_certain_high: None,
            greatest_certain_low: None,
            low_sum: i128::from(self.low),
            high_sum: i128::from(self.high),
        }
    }
}

/// For each cell what a sum keeps of its rows. A cell stands for the list of the rows that were added to it, as a [`Running`] of the
/// kind Sum or Avg does, and takes 40 bytes.
#[derive(Drop)]
pub struct CellSums {
    kind: ItemKind,
    cells: usize,
    sums: Vec<CellSum>,
}

impl Model for CellSums {
    ghost use Rattle.std.specs.Prelude.{◌≤◌, length, take};
    ghost use Rattle.aggregates.specs.Runnings.{Tallies};
    ghost use Rattle.query_model.specs.Validity.{IsSumKind};

    ghost Value = { Tallies };

    ghost view = { λ s. record { kind = s.kind; room = length s.sums.items; cells = take s.cells s.sums.items } };

    ghost invariant = { λ s. (s.cells ≤ length s.sums.items) × IsSumKind s.kind };
}

impl CellSums {
    /// Room for so many cells, of which there is none yet. All of it is taken here.
    pub fn open(alloc: Global, room: usize) -> Result<CellSums, AllocError>
        ensures { IfOk result (λ sums. IsBlank sums Sum room 0) }
    {
        let mut sums = Vec::with_capacity(alloc, room)?;
        for _ in 0..room {
            sums.push(CellSum::none())?;
        }
        Ok(CellSums {
            kind: ItemKind::Sum,
            cells: 0,
            sums,
        })
    }

    /// So many cells without a row, for a sum or an average.
    pub fn begin(&mut self, kind: ItemKind, cells: usize)
        requires kind { IsSumKind kind }
        requires cells { cells ≤ self.old.room }
        ensures { IsBlank self.new kind self.old.room cells }
    {
        for cell in 0..cells {
            self.sums[cell] = CellSum::none();
        }
        self.kind = kind;
        self.cells = cells;
    }

    /// Adds a row to a cell, if it may count, with the ends of its value.
    pub fn add(&mut self, cell: u32, may: bool, certain: bool, low: i64, high: i64)
        requires cell { cell < length self.old.cells }
        requires room { IsTrue may → MayCount self.old cell }
        requires fits { FitsCell low high }
        ensures added { IsTrue may → IsAdded self.old self.new cell (record { certain = certain; low = low; high = high }) }
        ensures passed { may ≡ false → self.new ≡ self.old }
    {
        self.sums[cell as usize].add(may, certain, low, high);
    }

    /// For how many cells there is room.
    pub fn room(&self) -> usize
        ensures { result ≡ self.now.room }
    {
        self.sums.len()
    }

    /// How many cells there are.
    pub(crate) fn cells(&self) -> usize
        ensures { result ≡ length self.now.cells }
    {
        self.cells
    }

    /// What is kept of a cell.
    pub(crate) fn tally(&self, cell: usize) -> Tally
        requires { cell < length self.now.cells }
        ensures { slice_get self.now.cells cell ≡ Some result }
    {
        self.sums[cell].tally()
    }
}
