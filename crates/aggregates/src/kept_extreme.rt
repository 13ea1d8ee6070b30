//! An extreme that is kept from one plane to the next, with the blocks of 512 rows in which it may still stand.

ghost use Rattle.std.specs.Prelude.{◌≡◌, ◌<◌, ◌*◌, ◌⊎◌, length, IfOk, IfSome, IsTrue};
ghost use Rattle.query_model.specs.declared.query.ItemKind.TheVariants.{Max, Min};
ghost use Rattle.query_model.specs.Answers.{answer};
ghost use Rattle.known_column.specs.Columns.{rows_of_column};
ghost use Rattle.aggregates.specs.declared.extreme_rows.Extreme.TheVariants.{Greatest, Least};
ghost use Rattle.aggregates.specs.ExtremeRows.{IsExtremeRow};
ghost use Rattle.aggregates.specs.KeptExtremes.{row_so_far, HasLeft, HoldAll, HoldCandidates, IsSearched};
ghost use Rattle.aggregates.specs.Selections.{has_row, highs_in, lows_in, IsPartOf, MayHaveValues};

use crate::ends::{ExtremeSpan, greatest_ends_at, least_ends_at};
use crate::extreme_rows::{
    Candidate, Extreme, ExtremeRows, better, extreme_in_block, extreme_so_far, settled_row,
};
use known_column::Known;
use plane_kernels::Mask;
use std::alloc::{AllocError, Global};

/// The blocks of 512 rows in which a column's least or greatest number may still stand, and the row at which it was found last. A block is
/// left for good once all its rows that may count lie behind a row that surely counts: rows come to those that surely count, leave those
/// that may, and numbers that differ in the digits that were read stay in their order.
#[derive(Drop)]
pub struct KeptExtreme {
    blocks: Mask,
    row: Option<usize>,
}

// The row of the best so far.
fn row_of(best: Option<Candidate>) -> Option<usize>
    ensures { result ≡ row_so_far best }
{
    match best {
        Some(candidate) => Some(candidate.row),
        None => None,
    }
}

// Whether a row is one of those that surely count, if there is a row.
fn is_certain(must: &Mask, row: Option<usize>) -> bool
    requires { IfSome row (λ r. r < length must.now) }
    ensures { IsTrue result → IfSome row (λ r. IsTrue (has_row must.now r)) }
{
    match row {
        Some(row) => must.get(row),
        None => true,
    }
}

impl KeptExtreme {
    /// Room for a column of so many rows. So far the extreme may stand in each block.
    pub fn open(alloc: Global, rows: usize) -> Result<KeptExtreme, AllocError>
        ensures { IfOk result (HoldAll rows) }
    {
        Ok(KeptExtreme {
            blocks: Mask::all(alloc, rows.div_ceil(512))?,
            row: None,
        })
    }

    // Begins a search of a mask's rows with the block of the row that is kept.
    fn start(&self, extreme: Extreme, known: &Known, mask: &Mask) -> Option<Candidate>
        requires rows { length mask.now ≡ rows_of_column known.now }
        requires values { MayHaveValues known.now mask.now }
        requires row { IfSome self.now.row (λ row. IsTrue (has_row mask.now row)) }
        ensures { IsSearched extreme known.now mask.now 0 self.now result }
    {
        match self.row {
            Some(row) => extreme_in_block(extreme, known, mask, row / 512, None),
            None => None,
        }
    }

    // Leaves a block, if the best so far, behind which its rows lie, surely counts.
    fn leave(&mut self, must: &Mask, best: Option<Candidate>, block: usize)
        requires block { block < length self.old.blocks }
        requires row { IfSome (row_so_far best) (λ row. row < length must.now) }
        ensures { (self.new ≡ self.old) ⊎ HasLeft must.now best block self.old self.new }
    {
        let row = row_of(best);
        if is_certain(must, row) {
            self.blocks.set(block, false);
            self.row = row;
        }
    }

    // The extreme row of those that may count. The blocks are left in which none can be extreme any more.
    fn search(&mut self, extreme: Extreme, known: &Known, may: &Mask, must: &Mask) -> Option<usize>
        requires rows { length may.now ≡ rows_of_column known.now }
        requires values { MayHaveValues known.now may.now }
        requires some { IsPartOf must.now may.now }
        requires kept { HoldCandidates extreme known.now may.now must.now self.old }
        ensures kept { HoldCandidates extreme known.now may.now must.now self.new }
        ensures row { IsExtremeRow extreme known.now may.now result }
    {
        let mut best = self.start(extreme, known, may);
        for block in 0..self.blocks.rows() {
            if self.blocks.get(block) {
                if let Some(row) = settled_row(extreme, known, may, best) {
                    return Some(row);
                }
                match extreme_in_block(extreme, known, may, block, best) {
                    Some(found) => best = Some(better(extreme, best, found)),
                    None => self.leave(must, best, block),
                }
            }
        }
        row_of(best)
    }

    // The extreme row of a mask.
    fn search_some(&self, extreme: Extreme, known: &Known, mask: &Mask) -> Option<usize>
        requires rows { length mask.now ≡ rows_of_column known.now }
        requires values { MayHaveValues known.now mask.now }
        requires kept { HoldCandidates extreme known.now mask.now mask.now self.now }
        ensures row { IsExtremeRow extreme known.now mask.now result }
    {
        let mut best = self.start(extreme, known, mask);
        for block in 0..self.blocks.rows() {
            if self.blocks.get(block) {
                if let Some(row) = settled_row(extreme, known, mask, best) {
                    return Some(row);
                }
                best = extreme_so_far(extreme, known, mask, block, best);
            }
        }
        row_of(best)
    }

    // The extreme row of those that may count, and that of those that surely do, which is kept.
    fn rows(&mut self, extreme: Extreme, known: &Known, may: &Mask, must: &Mask) -> ExtremeRows
        requires rows { length may.now ≡ rows_of_column known.now }
        requires values { MayHaveValues known.now may.now }
        requires some { IsPartOf must.now may.now }
        requires kept { HoldCandidates extreme known.now may.now must.now self.old }
        ensures kept { HoldCandidates extreme known.now may.now must.now self.new }
        ensures all { IsExtremeRow extreme known.now may.now result.all }
        ensures some { IsExtremeRow extreme known.now must.now result.some }
    {
        let all = self.search(extreme, known, may, must);
        let some = match all {
            Some(row) if must.get(row) => all,
            Some(_) => self.search_some(extreme, known, must),
            None => None,
        };
        self.row = some;
        ExtremeRows { all, some }
    }

    /// The least low end at the rows that may count, and the least high end at those that surely do. Only the blocks are searched in which
    /// the least number may still stand.
    pub fn least_ends(&mut self, known: &Known, may: &Mask, must: &Mask) -> ExtremeSpan
        requires rows { length may.now ≡ rows_of_column known.now }
        requires values { MayHaveValues known.now may.now }
        requires some { IsPartOf must.now may.now }
        requires kept { HoldCandidates Least known.now may.now must.now self.old }
        ensures kept { HoldCandidates Least known.now may.now must.now self.new }
        ensures low { result.low ≡ answer Min (lows_in known.now may.now) }
        ensures high { result.high ≡ answer Min (highs_in known.now must.now) }
    {
        let rows = self.rows(Extreme::Least, known, may, must);
        least_ends_at(rows, known, may, must)
    }

    /// The greatest low end at the rows that surely count, and the greatest high end at those that may. Only the blocks are searched in
    /// which the greatest number may still stand.
    pub fn greatest_ends(&mut self, known: &Known, may: &Mask, must: &Mask) -> ExtremeSpan
        requires rows { length may.now ≡ rows_of_column known.now }
        requires values { MayHaveValues known.now may.now }
        requires some { IsPartOf must.now may.now }
        requires kept { HoldCandidates Greatest known.now may.now must.now self.old }
        ensures kept { HoldCandidates Greatest known.now may.now must.now self.new }
        ensures low { result.low ≡ answer Max (lows_in known.now must.now) }
        ensures high { result.high ≡ answer Max (highs_in known.now may.now) }
    {
        let rows = self.rows(Extreme::Greatest, known, may, must);
        greatest_ends_at(rows, known, may, must)
    }
}
