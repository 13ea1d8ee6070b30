//! The counts of many cells, to which rows are added one by one.

ghost use Rattle.std.specs.Prelude.{◌≡◌, ◌<◌, ◌≤◌, List, ◌∷◌, [], ◌++◌, false, length, slice_get, Some, IfOk, IsTrue};
ghost use Rattle.interval_calc.specs.declared.Interval.{Interval};
ghost use Rattle.query_model.specs.declared.query.ItemKind.TheVariants.{Count};
ghost use Rattle.query_model.specs.Bounds.{Pair};
ghost use Rattle.aggregates.specs.Runnings.{IsAdded, IsBlank, MayCount};
ghost use Rattle.aggregates.specs.Tallies.{pair_with, tally_of};

use crate::tally::Tally;
use std::alloc::{AllocError, Global};
use std::marker::Model;

// How many rows of a cell count for certain, and how many may count, in few bits; its model is the tally of a count.
#[derive(Drop)]
pub(crate) struct CellCount {
    certain: u32,
    all: u32,
}

impl Model for CellCount {
    ghost use Rattle.std.specs.Prelude.{pos};
    ghost use Rattle.std.specs.declared.option.Option.TheVariants.{None};
    ghost use Rattle.aggregates.specs.declared.tally.Tally.{Tally};

    ghost Value = { Tally };

    ghost view = { λ c. record {
      certain = c.certain;
      all = c.all;
      least_low = None;
      greatest_high = None;
      least_certain_high = None;
      greatest_certain_low = None;
      low_sum = pos 0;
      high_sum = pos 0;
    } };
}

impl CellCount {
    // That of no row.
    fn none() -> CellCount
        ensures { result ≡ tally_of Count [] }
    {
        CellCount { certain: 0, all: 0 }
    }

    // Adds a row if it may count.
    fn add(&mut self, may: bool, certain: bool)
        requires few { IsTrue may → self.old.all < 16777216 }
        requires few_certain { IsTrue may → self.old.certain < 16777216 }
        ensures added { IsTrue may → (ps : List Pair) (span : Interval) → self.old ≡ tally_of Count ps
            → self.new ≡ tally_of Count (ps ++ pair_with certain span ∷ []) }
        ensures passed { may ≡ false → self.new ≡ self.old }
    {
        self.all += u32::from(may);
        self.certain += u32::from(may & certain);
    }

    // The tally.
    fn tally(&self) -> Tally
        ensures { result ≡ self.now }
    {
        Tally {
            certain: u64::from(self.certain),
            all: u64::from(self.all),
            least_low: None,
            greatest_high: None,
            least_certain_high: None,
            greatest_certain_low: None,
            low_sum: 0,
            high_sum: 0,
        }
    }
}

/// For each cell how many rows count in it. A cell stands for the list of the rows that were added to it, as a [`Running`] of the
/// kind Count does, and takes eight bytes.
#[derive(Drop)]
pub struct CellCounts {
    cells: usize,
    counts: Vec<CellCount>,
}

impl Model for CellCounts {
    ghost use Rattle.std.specs.Prelude.{◌≤◌, length, take};
    ghost use Rattle.query_model.specs.declared.query.ItemKind.TheVariants.{Count};
    ghost use Rattle.aggregates.specs.Runnings.{Tallies};

    ghost Value = { Tallies };

    ghost view = { λ c. record { kind = Count; room = length c.counts.items; cells = take c.cells c.counts.items } };

    ghost invariant = { λ c. c.cells ≤ length c.counts.items };
}

impl CellCounts {
    /// Room for so many cells, of which there is none yet. All of it is taken here.
    pub fn open(alloc: Global, room: usize) -> Result<CellCounts, AllocError>
        ensures { IfOk result (λ counts. IsBlank counts Count room 0) }
    {
        let mut counts = Vec::with_capacity(alloc, room)?;
        for _ in 0..room {
            counts.push(CellCount::none())?;
        }
        Ok(CellCounts { cells: 0, counts })
    }

    /// So many cells without a row.
    pub fn begin(&mut self, cells: usize)
        requires { cells ≤ self.old.room }
        ensures { IsBlank self.new Count self.old.room cells }
    {
        for cell in 0..cells {
            self.counts[cell] = CellCount::none();
        }
        self.cells = cells;
    }

    /// Adds a row to a cell, if it may count.
    pub fn add(&mut self, cell: u32, may: bool, certain: bool)
        requires cell { cell < length self.old.cells }
        requires room { IsTrue may → MayCount self.old cell }
        ensures added { IsTrue may → (span : Interval) → IsAdded self.old self.new cell (pair_with certain span) }
        ensures passed { may ≡ false → self.new ≡ self.old }
    {
        self.counts[cell as usize].add(may, certain);
    }

    /// For how many cells there is room.
    pub fn room(&self) -> usize
        ensures { result ≡ self.now.room }
    {
        self.counts.len()
    }

    /// How many cells there are.
    pub(crate) fn cells(&self) -> usize
        ensures { result ≡ length self.now.cells }
    {
        self.cells
    }

    /// What is kept of a cell.
    pub(crate) fn tally(&self, cell: usize) -> Tally
        requires { cell < length self.now.cells }
        ensures { slice_get self.now.cells cell ≡ Some result }
    {
        self.counts[cell].tally()
    }
}
