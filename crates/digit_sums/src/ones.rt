//! The sure rows of cells that have the bit of 1 in a plane, those whose digits then are those of top, and where the other rows end.

ghost use Rattle.std.specs.Prelude.{◌≡◌, ◌≢◌, ◌<◌, ◌≤◌, ◌+◌, ◌^◌, ℕ, List, length, slice_get, Some, IfOk, IfSome};
ghost use Rattle.query_model.specs.declared.query.ItemKind.{ItemKind};
ghost use Rattle.query_model.specs.Bounds.{Pair};
ghost use Rattle.query_model.specs.Validity.{IsSumKind};
ghost use Rattle.aggregates.specs.Tallies.{tally_of};
ghost use Rattle.digit_sums.specs.declared.ones.RowBits.{RowBits};
ghost use Rattle.digit_sums.specs.Ones.{AreRead, with_row};

use crate::ends::DigitEnds;
use aggregates::Tally;
use std::alloc::{AllocError, Global};
use std::marker::Model;

/// How many rows have the bit of 1, and how many the digits of top.
#[derive(Clone, Copy)]
pub struct RowBits {
    pub(crate) ones: u32,
    pub(crate) at_top: u32,
}

/// For each cell how many of its sure rows have the bit of 1 in a plane, and how many then have the digits of top; and the sum of the high
/// ends of its other rows. A cell takes 16 bytes.
#[derive(Drop)]
pub struct CellOnes {
    cells: u32,
    bits: Vec<RowBits>,
    highs: Vec<u64>,
}

impl Model for CellOnes {
    ghost use Rattle.std.specs.Prelude.{◌≡◌, ◌≤◌, length, take};
    ghost use Rattle.digit_sums.specs.Ones.{CountedBits};

    ghost Value = { CountedBits };

    ghost view = { λ c. record {
      room = length c.bits.items;
      cells = take c.cells c.bits.items;
      highs = take c.cells c.highs.items;
    } };

    ghost invariant = { λ c. (c.cells ≤ length c.bits.items) × (length c.highs.items ≡ length c.bits.items) };
}

// The most rows that a table has.
const MOST_ROWS: u64 = 16777216;

// No sum of the numbers of a column is as great.
const GREAT_SUM: i128 = 1267650600228229401496703205376;

impl RowBits {
    // Those of no row.
    fn none() -> RowBits
        ensures { result ≡ record { ones = 0; at_top = 0 } }
    {
        RowBits { ones: 0, at_top: 0 }
    }

    // Counts a row. Many more than there are would begin anew at 0.
    fn count(&mut self, one: bool, at_top: bool)
        ensures { self.old.ones < 16777216 → self.old.at_top < 16777216 → self.new ≡ with_row self.old one at_top }
    {
        self.ones = self.ones.wrapping_add(u32::from(one));
        self.at_top = self.at_top.wrapping_add(u32::from(at_top));
    }

    // What a sum keeps of the cell's rows behind the plane, by what it kept of them before it, where the cell holds one key, and one of its
    // rows surely counts if there are any.
    fn tally(self, highs: u64, alone: bool, ends: DigitEnds, old: &Tally) -> Option<Tally>
        ensures { IfSome result (λ tally. (kind : ItemKind) → IsSumKind kind → (before now : List Pair)
            → old.now ≡ tally_of kind before → AreRead ends alone before now self highs → tally ≡ tally_of kind now) }
    {
        if old.all == 0 {
            return Some(*old);
        }
        if !alone
            || old.certain == 0
            || old.all > MOST_ROWS
            || u64::from(self.at_top) > old.certain
        {
            return None;
        }
        if old.low_sum < 0 || old.low_sum > GREAT_SUM || old.certain > old.all {
            return None;
        }
        let sure = old.certain as u32;
        let low_sum = old.low_sum + i128::from(ends.weight(self.ones));
        let high_sum = low_sum + i128::from(ends.spans(sure, self.at_top)) + i128::from(highs);
        Some(Tally {
            certain: old.certain,
            all: old.all,
            least_low: None,
            greatest_high: None,
            least_certain_high: None,
            greatest_certain_low: None,
            low_sum,
            high_sum,
        })
    }
}

impl CellOnes {
    /// Room for so many cells, of which there is none yet. All of it is taken here.
    pub fn open(alloc: Global, room: usize) -> Result<CellOnes, AllocError>
        ensures { IfOk result (λ ones. ones.room ≡ room) }
    {
        let bits = vec![in alloc; RowBits::none(); room]?;
        let highs = vec![in alloc; 0; room]?;
        Ok(CellOnes {
            cells: 0,
            bits,
            highs,
        })
    }

    /// For how many cells there is room.
    pub fn room(&self) -> usize
        ensures { result ≡ self.now.room }
    {
        self.bits.len()
    }

    /// So many cells without a row.
    pub fn begin(&mut self, cells: u32)
        requires { cells ≤ self.old.room }
        ensures room { self.new.room ≡ self.old.room }
        ensures count { length self.new.cells ≡ cells }
        ensures highs { length self.new.highs ≡ cells }
        ensures blank { (cell : ℕ) → cell < cells → slice_get self.new.cells cell ≡ Some (record { ones = 0; at_top = 0 }) }
        ensures none { (cell : ℕ) → cell < cells → slice_get self.new.highs cell ≡ Some 0 }
    {
        for cell in 0..cells {
            self.bits[cell as usize] = RowBits::none();
            self.highs[cell as usize] = 0;
        }
        self.cells = cells;
    }

    /// Adds a row that surely counts to a cell: whether it has the bit of 1, and whether its digits are those of top.
    pub fn add(&mut self, cell: u32, one: bool, at_top: bool)
        requires { cell < length self.old.cells }
        ensures room { self.new.room ≡ self.old.room }
        ensures count { length self.new.cells ≡ length self.old.cells }
        ensures highs { self.new.highs ≡ self.old.highs }
        ensures others { (other : ℕ) → other ≢ cell → slice_get self.new.cells other ≡ slice_get self.old.cells other }
        ensures added { (bits : RowBits) → bits.ones < 16777216 → bits.at_top < 16777216 → slice_get self.old.cells cell ≡ Some bits
            → slice_get self.new.cells cell ≡ Some (with_row bits one at_top) }
    {
        let bits = &mut self.bits[cell as usize];
        bits.count(one, at_top);
    }

    /// Adds a row to a cell that may count and need not: where its value ends, a number that is not negative.
    pub fn add_high(&mut self, cell: u32, high: u64)
        requires { cell < length self.old.highs }
        ensures room { self.new.room ≡ self.old.room }
        ensures cells { self.new.cells ≡ self.old.cells }
        ensures count { length self.new.highs ≡ length self.old.highs }
        ensures others { (other : ℕ) → other ≢ cell → slice_get self.new.highs other ≡ slice_get self.old.highs other }
        ensures added { (sum : ℕ) → sum + high < 2 ^ 64 → slice_get self.old.highs cell ≡ Some sum
            → slice_get self.new.highs cell ≡ Some (sum + high) }
    {
        let sum = &mut self.highs[cell as usize];
        *sum = sum.wrapping_add(high);
    }

    /// What a sum or an average keeps of the rows of a cell behind the plane, by what it kept of them before it and whether the cell holds
    /// one key: told where one of its rows surely counts, or there is none.
    pub fn tally(&self, cell: u32, alone: bool, ends: DigitEnds, old: &Tally) -> Option<Tally>
        requires cell { cell < length self.now.cells }
        requires highs { cell < length self.now.highs }
        ensures { IfSome result (λ tally. (bits : RowBits) (highs : ℕ) → slice_get self.now.cells cell ≡ Some bits
            → slice_get self.now.highs cell ≡ Some highs → (kind : ItemKind) → IsSumKind kind → (before now : List Pair)
            → old.now ≡ tally_of kind before → AreRead ends alone before now bits highs → tally ≡ tally_of kind now) }
    {
        self.bits[cell as usize].tally(self.highs[cell as usize], alone, ends, old)
    }
}
