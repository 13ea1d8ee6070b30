//! Bounds of cells, to which rows are added one by one.

ghost use Rattle.std.specs.Prelude.{◌≡◌, ◌≢◌, ◌≤◌, ◌<◌, List, length, slice_get, Some, IfOk};
ghost use Rattle.query_model.specs.declared.query.ItemKind.TheVariants.{Avg};
ghost use Rattle.query_model.specs.Bounds.{average_bound_of, bound_of, fractions_of, Pair};
ghost use Rattle.aggregates.specs.BlockPairs.{pairs_in, AreAllAdded, MayAddAll};
ghost use Rattle.aggregates.specs.Tallies.{pair_with};
ghost use Rattle.aggregates.specs.Runnings.{IsAdded, IsBlank, IsCopied, IsSet, MayAdd, StandsFor};

use crate::cell_counts::CellCounts;
use crate::cell_sums::CellSums;
use crate::tally::Tally;
use interval_calc::Interval;
use query_model::{AverageBound, Bound, ItemKind};
use std::alloc::{AllocError, Global};
use std::marker::Model;

/// For each cell what an item's bound is computed from. A cell stands for the list of the rows that were added to it, each
/// with whether it counts for certain, and its span; the list itself is not kept.
#[derive(Drop)]
pub struct Running {
    kind: ItemKind,
    cells: usize,
    tallies: Vec<Tally>,
}

impl Model for Running {
    ghost use Rattle.std.specs.Prelude.{◌≤◌, length, take};
    ghost use Rattle.aggregates.specs.Runnings.{Tallies};

    ghost Value = { Tallies };

    ghost view = { λ r. record { kind = r.kind; room = length r.tallies.items; cells = take r.cells r.tallies.items } };

    ghost invariant = { λ r. r.cells ≤ length r.tallies.items };
}

impl Running {
    /// So many cells without a row, for an item of this kind. All room is taken here.
    pub fn open(alloc: Global, kind: ItemKind, cells: usize) -> Result<Running, AllocError>
        ensures { IfOk result (λ running. IsBlank running kind cells cells) }
    {
        let tallies = vec![in alloc; Tally::none(); cells]?;
        Ok(Running {
            kind,
            cells,
            tallies,
        })
    }

    /// The kind of the item.
    pub fn kind(&self) -> ItemKind
        ensures { result ≡ self.now.kind }
    {
        self.kind
    }

    /// So many cells without a row.
    pub fn begin(&mut self, cells: usize)
        requires { cells ≤ self.old.room }
        ensures { IsBlank self.new self.old.kind self.old.room cells }
    {
        for cell in 0..cells {
            self.tallies[cell] = Tally::none();
        }
        self.cells = cells;
    }

    /// What is kept of a cell.
    pub fn tally(&self, cell: u32) -> Tally
        requires { cell < length self.now.cells }
        ensures { slice_get self.now.cells cell ≡ Some result }
    {
        self.tallies[cell as usize]
    }

    /// Makes a cell stand for each list of which this tally is.
    pub fn set(&mut self, cell: u32, tally: Tally)
        requires { cell < length self.old.cells }
        ensures { IsSet self.old self.new cell tally }
    {
        self.tallies[cell as usize] = tally;
    }

    /// Makes the cells stand for what those of some counts stand for.
    pub fn copy_counts(&mut self, counts: &CellCounts)
        requires { length counts.now.cells ≤ self.old.room }
        ensures { IsCopied self.old self.new counts.now }
    {
        let cells = counts.cells();
        for cell in 0..cells {
            self.tallies[cell] = counts.tally(cell);
        }
        self.cells = cells;
    }

    /// Makes the cells stand for what those of some sums stand for.
    pub fn copy_sums(&mut self, sums: &CellSums)
        requires { length sums.now.cells ≤ self.old.room }
        ensures { IsCopied self.old self.new sums.now }
    {
        let cells = sums.cells();
        for cell in 0..cells {
            self.tallies[cell] = sums.tally(cell);
        }
        self.cells = cells;
    }

    /// Adds a row to a cell.
    pub fn add(&mut self, cell: u32, certain: bool, span: Interval)
        requires { MayAdd self.old cell (pair_with certain span) }
        ensures { IsAdded self.old self.new cell (pair_with certain span) }
    {
        let cell = cell as usize;
        self.tallies[cell].add(self.kind, certain, span);
    }

    /// Adds the rows of a block to a cell, at most 64. Bit r of a word is that of row r, whose span stands in place r: the row may
    /// count where its bit in the first word is 1, and counts for certain where besides its bit in the second is.
    pub fn add_block(&mut self, cell: u32, may: u64, must: u64, spans: &[Interval])
        requires few { length spans.now ≤ 64 }
        requires room { MayAddAll self.old cell (pairs_in may must spans.now) }
        ensures { AreAllAdded self.old self.new cell (pairs_in may must spans.now) }
    {
        let cell = cell as usize;
        self.tallies[cell].add_block(self.kind, may, must, spans);
    }

    /// The bound of an item that is no average.
    pub fn bound(&self, cell: u32) -> Bound
        requires cell { cell < length self.now.cells }
        requires kind { self.now.kind ≢ Avg }
        ensures { (ps : List Pair) → StandsFor self.now cell ps → result ≡ bound_of self.now.kind ps }
    {
        self.tallies[cell as usize].bound(self.kind)
    }

    /// The bound of an average.
    pub fn average(&self, cell: u32) -> AverageBound
        requires cell { cell < length self.now.cells }
        requires kind { self.now.kind ≡ Avg }
        ensures { (ps : List Pair) → StandsFor self.now cell ps → fractions_of result ≡ average_bound_of ps }
    {
        self.tallies[cell as usize].average()
    }
}
