//! The rows of cells that counted perhaps and now surely count, or do not, and what that changes in counts and sums.

ghost use Rattle.std.specs.Prelude.{◌≡◌, ◌≢◌, ◌<◌, ◌≤◌, ℕ, ◌+◌, ◌-◌, pos, negsuc, ◌≤ℤ◌, false};
ghost use Rattle.std.specs.Prelude.{List, length, slice_get, Some, IfOk, IfSome, IsTrue};
ghost use Rattle.query_model.specs.declared.query.ItemKind.TheVariants.{Count, Sum};
ghost use Rattle.query_model.specs.Bounds.{Pair};
ghost use Rattle.aggregates.specs.SumsOfCells.{FitsCell};
ghost use Rattle.aggregates.specs.Tallies.{tally_of};
ghost use Rattle.digit_sums.specs.declared.moves.RowMoves.{RowMoves};
ghost use Rattle.digit_sums.specs.Moves.{above, AreFewMoves, AreMoved, AreMovedFor, AreRowsMoved, below};
ghost use Rattle.digit_sums.specs.Moves.{no_moves, with_came, with_left, without_ends};

use aggregates::Tally;
use query_model::ItemKind;
use std::alloc::{AllocError, Global};
use std::marker::Model;

/// How many rows of a cell now surely count, how many do not count now, and by how much both raise the least sum and lower the greatest.
#[derive(Clone, Copy)]
pub struct RowMoves {
    pub(crate) came: u32,
    pub(crate) left: u32,
    pub(crate) raised: u64,
    pub(crate) lowered: u64,
}

/// Of each cell what is counted of its rows that moved. A cell takes 24 bytes.
#[derive(Drop)]
pub struct CellMoves {
    cells: u32,
    moves: Vec<RowMoves>,
}

impl Model for CellMoves {
    ghost use Rattle.std.specs.Prelude.{◌≤◌, length, take};
    ghost use Rattle.digit_sums.specs.Moves.{CountedMoves};

    ghost Value = { CountedMoves };

    ghost view = { λ c. record { room = length c.moves.items; cells = take c.cells c.moves.items } };

    ghost invariant = { λ c. c.cells ≤ length c.moves.items };
}

// The most rows that a table has.
const MOST_ROWS: u64 = 16777216;

// No sum of the numbers of a column is as great.
const GREAT_SUM: i128 = 1267650600228229401496703205376;

// How far a number lies above 0.
fn above(number: i64) -> u64
    ensures { result ≡ above number }
{
    if number > 0 { number as u64 } else { 0 }
}

// How far it lies below 0.
fn below(number: i64) -> u64
    ensures { result ≡ below number }
{
    if number < 0 { number.unsigned_abs() } else { 0 }
}

// Whether its sums are far from the ends of numbers.
fn is_small(tally: &Tally) -> bool
    ensures low { IsTrue result → tally.now.low_sum ≤ℤ pos 1267650600228229401496703205376 }
    ensures high { IsTrue result → negsuc 1267650600228229401496703205376 ≤ℤ tally.now.high_sum }
{
    tally.low_sum <= GREAT_SUM && tally.high_sum >= -GREAT_SUM
}

// Whether a sum keeps ends of so many rows.
fn keeps_ends(certain: u64, all: u64) -> bool
    ensures { result ≡ false → certain ≡ 0 → all ≡ 0 }
{
    certain == 0 && all > 0
}

// What is kept of rows of which no ends are.
fn without_ends(certain: u64, all: u64, low_sum: i128, high_sum: i128) -> Tally
    ensures { result ≡ without_ends certain all low_sum high_sum }
{
    Tally {
        certain,
        all,
        least_low: None,
        greatest_high: None,
        least_certain_high: None,
        greatest_certain_low: None,
        low_sum,
        high_sum,
    }
}

impl RowMoves {
    // Those of no row.
    fn none() -> RowMoves
        ensures { result ≡ no_moves }
    {
        RowMoves {
            came: 0,
            left: 0,
            raised: 0,
            lowered: 0,
        }
    }

    // Counts a row that now surely counts, with the ends of its value. Many more than there are would begin anew at 0.
    fn come(&mut self, low: i64, high: i64)
        requires { FitsCell low high }
        ensures { AreFewMoves self.old → self.new ≡ with_came self.old low high }
    {
        self.came = self.came.wrapping_add(1);
        self.raised = self.raised.wrapping_add(above(low));
        self.lowered = self.lowered.wrapping_add(below(high));
    }

    // Counts a row that does not count now.
    fn leave(&mut self, low: i64, high: i64)
        requires { FitsCell low high }
        ensures { AreFewMoves self.old → self.new ≡ with_left self.old low high }
    {
        self.left = self.left.wrapping_add(1);
        self.raised = self.raised.wrapping_add(below(low));
        self.lowered = self.lowered.wrapping_add(above(high));
    }

    // How many rows of the cell surely count and how many may, by how many did.
    fn counts(self, old: &Tally) -> Option<(u64, u64)>
        ensures certain { IfSome result (λ counts. counts.0 ≡ old.now.certain + self.came) }
        ensures all { IfSome result (λ counts. counts.1 ≡ old.now.all - self.left) }
    {
        let left = u64::from(self.left);
        if old.certain > MOST_ROWS || left > old.all {
            return None;
        }
        Some((old.certain + u64::from(self.came), old.all - left))
    }

    // What a count keeps of the cell's rows, by what it kept of them before they moved.
    fn count_tally(self, old: &Tally) -> Option<Tally>
        ensures { IfSome result (λ tally. (before now : List Pair)
            → old.now ≡ tally_of Count before → AreRowsMoved before now self → tally ≡ tally_of Count now) }
    {
        let (certain, all) = self.counts(old)?;
        Some(without_ends(certain, all, 0, 0))
    }

    // The same of a sum. While rows may count and none surely does, it keeps ends, which are not told.
    fn sum_tally(self, old: &Tally) -> Option<Tally>
        ensures { IfSome result (λ tally. (before now : List Pair)
            → old.now ≡ tally_of Sum before → AreMoved before now self → tally ≡ tally_of Sum now) }
    {
        if self.came == 0 && self.left == 0 {
            return Some(*old);
        }
        let (certain, all) = self.counts(old)?;
        if !is_small(old) || keeps_ends(certain, all) {
            return None;
        }
        let low_sum = old.low_sum + i128::from(self.raised);
        let high_sum = old.high_sum - i128::from(self.lowered);
        Some(without_ends(certain, all, low_sum, high_sum))
    }

    // The same of an item of this kind, if it is a count, a sum or an average.
    fn tally(self, kind: ItemKind, old: &Tally) -> Option<Tally>
        ensures { IfSome result (λ tally. (before now : List Pair)
            → old.now ≡ tally_of kind before → AreMovedFor kind before now self → tally ≡ tally_of kind now) }
    {
        match kind {
            ItemKind::Count => self.count_tally(old),
            ItemKind::Sum | ItemKind::Avg => self.sum_tally(old),
            ItemKind::Min | ItemKind::Max => None,
        }
    }
}

impl CellMoves {
    /// Room for so many cells, of which there is none yet. All of it is taken here.
    pub fn open(alloc: Global, room: usize) -> Result<CellMoves, AllocError>
        ensures { IfOk result (λ moves. moves.room ≡ room) }
    {
        let moves = vec![in alloc; RowMoves::none(); room]?;
        Ok(CellMoves { cells: 0, moves })
    }

    /// For how many cells there is room.
    pub fn room(&self) -> usize
        ensures { result ≡ self.now.room }
    {
        self.moves.len()
    }

    /// So many cells of which no row moved.
    pub fn begin(&mut self, cells: u32)
        requires { cells ≤ self.old.room }
        ensures room { self.new.room ≡ self.old.room }
        ensures count { length self.new.cells ≡ cells }
        ensures blank { (cell : ℕ) → cell < cells → slice_get self.new.cells cell ≡ Some no_moves }
    {
        for cell in 0..cells {
            self.moves[cell as usize] = RowMoves::none();
        }
        self.cells = cells;
    }

    /// Adds a row to a cell that now surely counts, with the ends of its value; for a count any will do.
    pub fn come(&mut self, cell: u32, low: i64, high: i64)
        requires cell { cell < length self.old.cells }
        requires fits { FitsCell low high }
        ensures room { self.new.room ≡ self.old.room }
        ensures count { length self.new.cells ≡ length self.old.cells }
        ensures others { (other : ℕ) → other ≢ cell → slice_get self.new.cells other ≡ slice_get self.old.cells other }
        ensures added { (moves : RowMoves) → AreFewMoves moves → slice_get self.old.cells cell ≡ Some moves
            → slice_get self.new.cells cell ≡ Some (with_came moves low high) }
    {
        let moves = &mut self.moves[cell as usize];
        moves.come(low, high);
    }

    /// Adds a row to a cell that does not count now, in the same way.
    pub fn leave(&mut self, cell: u32, low: i64, high: i64)
        requires cell { cell < length self.old.cells }
        requires fits { FitsCell low high }
        ensures room { self.new.room ≡ self.old.room }
        ensures count { length self.new.cells ≡ length self.old.cells }
        ensures others { (other : ℕ) → other ≢ cell → slice_get self.new.cells other ≡ slice_get self.old.cells other }
        ensures added { (moves : RowMoves) → AreFewMoves moves → slice_get self.old.cells cell ≡ Some moves
            → slice_get self.new.cells cell ≡ Some (with_left moves low high) }
    {
        let moves = &mut self.moves[cell as usize];
        moves.leave(low, high);
    }

    /// What an item of this kind keeps of the rows of a cell, by what it kept of them before they moved: told of counts, and of sums and
    /// averages where a row surely counts, none moved or none is left.
    pub fn tally(&self, cell: u32, kind: ItemKind, old: &Tally) -> Option<Tally>
        requires { cell < length self.now.cells }
        ensures { IfSome result (λ tally. (moves : RowMoves) → slice_get self.now.cells cell ≡ Some moves → (before now : List Pair)
            → old.now ≡ tally_of kind before → AreMovedFor kind before now moves → tally ≡ tally_of kind now) }
    {
        self.moves[cell as usize].tally(kind, old)
    }
}
