//! The sums of many cells by the digits of their rows.

ghost use Rattle.std.specs.Prelude.{◌≡◌, ◌<◌, ◌≤◌, List, length, take, slice_get, Some, IfOk, IsTrue};
ghost use Rattle.query_model.specs.declared.query.ItemKind.TheVariants.{Count, Sum};
ghost use Rattle.query_model.specs.Bounds.{Pair};
ghost use Rattle.query_model.specs.Validity.{IsSumKind};
ghost use Rattle.aggregates.specs.Runnings.{IsBlank, IsCopied, StandsFor, Tallies};
ghost use Rattle.aggregates.specs.Tallies.{tally_of};
ghost use Rattle.digit_sums.specs.Digits.{AreDigits, AreOf, GrowBy, HaveRoom, pair_by};

use crate::cell::CellDigits;
use crate::ends::{DigitEnds, OuterDigits};
use aggregates::{Running, Tally};
use query_model::ItemKind;
use std::alloc::{AllocError, Global};
use std::marker::Model;

/// For each cell what a sum keeps of its rows by their digits. A cell stands for the list of the rows that were added to it, as a
/// [`Running`] of the kind Sum or Avg does, and takes 32 bytes.
#[derive(Drop)]
pub struct DigitSums {
    kind: ItemKind,
    ends: DigitEnds,
    top: u32,
    outer: OuterDigits,
    whole: bool,
    cells: u32,
    sums: Vec<CellDigits>,
}

impl Model for DigitSums {
    ghost use Rattle.std.specs.Prelude.{◌≡◌, ◌≤◌, length, map, take};
    ghost use Rattle.query_model.specs.Validity.{IsSumKind};
    ghost use Rattle.digit_sums.specs.Digits.{DigitTallies, RowDigits, tally_by, top_digits};

    ghost Value = { DigitTallies };

    ghost view = { λ s. record {
      tallies = record { kind = s.kind; room = length s.sums.items; cells = take s.cells (map (tally_by s.ends) s.sums.items) };
      ends = s.ends;
      certain = take s.cells (map (λ (c : RowDigits). c.certain) s.sums.items);
      count = s.cells;
      kept = s.sums.items;
      outer = s.outer;
    } };

    ghost invariant = { λ s. (s.cells ≤ length s.sums.items) × IsSumKind s.kind × (s.top ≡ top_digits s.ends) × (s.outer.high ≤ s.top) };
}

// The digits that are to be outer where a cell has so many rows: some 16 to 32 of them are to have such on either side. All are where
// numbers have few digits. It affects speed alone which are.
fn outer_digits(top: u32, rows: usize) -> OuterDigits
    ensures { result.high ≤ top }
{
    let inner = if top < 32 {
        0
    } else {
        (rows / 16).max(1).ilog2().min(31)
    };
    let low = top >> inner;
    OuterDigits {
        low,
        high: top - low,
    }
}

// How many rows a cell is taken to have: as many as the others. None where all rows are to be looked at, and more than any has where no end
// is asked for.
fn rows_of_cell(are_whole: bool, are_certain: bool, cells: u32, rows: usize) -> usize {
    if are_whole {
        0
    } else if are_certain {
        usize::MAX
    } else {
        rows / (cells as usize + 1)
    }
}

impl DigitSums {
    /// Room for so many cells, of which there is none yet. All of it is taken here.
    pub fn open(alloc: Global, room: usize) -> Result<DigitSums, AllocError>
        ensures { IfOk result (λ sums. IsBlank sums.tallies Sum room 0) }
    {
        let mut sums = Vec::with_capacity(alloc, room)?;
        for _ in 0..room {
            sums.push(CellDigits::none(false))?;
        }
        let ends = DigitEnds::none();
        Ok(DigitSums {
            kind: ItemKind::Sum,
            ends,
            top: ends.top_digits(),
            outer: OuterDigits { low: 0, high: 0 },
            whole: false,
            cells: 0,
            sums,
        })
    }

    /// So many cells without a row, for a sum or an average of a column with these ends: of each it is told whether its rows count for
    /// certain. Of so many rows that are to come few are looked at for the ends of their cells, unless that did not do before.
    pub fn begin(
        &mut self,
        kind: ItemKind,
        ends: DigitEnds,
        cells: u32,
        certain: &[bool],
        rows: usize,
    )
        requires kind { IsSumKind kind }
        requires cells { cells ≤ self.old.tallies.room }
        requires certain { cells ≤ length certain.now }
        ensures blank { IsBlank self.new.tallies kind self.old.tallies.room cells }
        ensures ends { self.new.ends ≡ ends }
        ensures certain { self.new.certain ≡ take cells certain.now }
        ensures of { AreOf self.new self.new.tallies }
    {
        let mut are_certain = true;
        for cell in 0..cells {
            are_certain &= certain[cell as usize];
            self.sums[cell as usize] = CellDigits::none(certain[cell as usize]);
        }
        self.kind = kind;
        self.ends = ends;
        self.top = ends.top_digits();
        let rows = rows_of_cell(self.whole, are_certain, cells, rows);
        self.outer = outer_digits(self.top, rows);
        self.cells = cells;
    }

    /// Adds a row with these digits to a cell.
    pub fn add(&mut self, cell: u32, digits: u32)
        requires cell { cell < self.old.count }
        requires room { HaveRoom self.old cell }
        requires digits { AreDigits self.old.ends digits }
        ensures ends { self.new.ends ≡ self.old.ends }
        ensures certain { self.new.certain ≡ self.old.certain }
        ensures added { (sure : _) → slice_get self.old.certain cell ≡ Some sure → (tallies : Tallies) → AreOf self.old tallies
            → GrowBy self.new tallies cell (pair_by self.old.ends sure digits) }
    {
        self.sums[cell as usize].add(digits, self.outer, self.top);
    }

    // Whether what is kept are the tallies of the cells: rows with outer digits tell the least and the greatest where they are asked for.
    fn are_settled(&self) -> bool
        ensures { IsTrue result → (tallies : Tallies) → AreOf self.now tallies → self.now.tallies ≡ tallies }
    {
        for cell in 0..self.cells {
            if !self.sums[cell as usize].is_settled(self.outer) {
                return false;
            }
        }
        true
    }

    /// Whether what is kept are the tallies of the cells. Where it is not, all rows are looked at from the next beginning on.
    pub fn settle(&mut self) -> bool
        ensures same { self.new ≡ self.old }
        ensures settled { IsTrue result → (tallies : Tallies) → AreOf self.old tallies → self.old.tallies ≡ tallies }
    {
        let are_settled = self.are_settled();
        self.whole |= !are_settled;
        are_settled
    }

    /// For how many cells there is room.
    pub fn room(&self) -> usize
        ensures { result ≡ self.now.tallies.room }
    {
        self.sums.len()
    }

    // What is kept of a cell.
    fn tally(&self, cell: u32) -> Tally
        requires { cell < length self.now.tallies.cells }
        ensures { slice_get self.now.tallies.cells cell ≡ Some result }
    {
        self.sums[cell as usize].tally(self.ends)
    }

    /// What a count of the rows of a cell keeps of them.
    pub fn count(&self, cell: u32) -> Tally
        requires { cell < length self.now.tallies.cells }
        ensures { (ps : List Pair) → StandsFor self.now.tallies cell ps → result ≡ tally_of Count ps }
    {
        let tally = self.tally(cell);
        Tally {
            certain: tally.certain,
            all: tally.all,
            ..Tally::none()
        }
    }

    /// Makes the cells of a sum or an average stand for what these stand for.
    pub fn copy_to(&self, running: &mut Running)
        requires { length self.now.tallies.cells ≤ running.old.room }
        ensures { IsCopied running.old running.new self.now.tallies }
    {
        running.begin(self.cells as usize);
        for cell in 0..self.cells {
            running.set(cell, self.tally(cell));
        }
    }
}
