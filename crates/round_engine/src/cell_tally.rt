//! What an item of a cell keeps of a column's rows, told by masks and planes.

ghost use Rattle.std.specs.Prelude.{◌≡◌, ◌≤ℤ◌, pos, length, map, IfSome};
ghost use Rattle.aggregates.specs.Selections.{ends_in, IsSmallSum};
ghost use Rattle.aggregates.specs.Tallies.{tally_of};
ghost use Rattle.known_column.specs.Columns.{KnownColumn, rows_of_column};
ghost use Rattle.query_model.specs.Answers.{total};
ghost use Rattle.query_model.specs.declared.query.ItemKind.TheVariants.{Count, Max, Min, Sum};
ghost use Rattle.round_engine.specs.KeptCells.{AreCellSums};
ghost use Rattle.round_engine.specs.Selected.{IsSelection, pairs_in};
ghost use Rattle.round_engine.specs.SumEnds.{share_at};

use crate::kept_cells::{KeptCells, ends_of_cell};
use crate::selection::Selected;
use aggregates::{End, Tally, greatest_ends, least_ends, sum_highs};
use known_column::Known;
use plane_kernels::Mask;
use query_model::ItemKind;

impl Selected<'_> {
    // Of a count.
    fn count_tally(&self) -> Tally
        ensures { (column : KnownColumn) → IsSelection column self.now → result ≡ tally_of Count (pairs_in column self.now) }
    {
        Tally {
            certain: self.must.count(),
            all: self.may.count(),
            ..Tally::none()
        }
    }

    // What the rows add to this end of the sum, in a column without a number below 0: there each number that may count widens the high end
    // by itself, and none the low end.
    fn share_above(&self, end: End, known: &Known, certain: i128) -> i128
        requires selection { IsSelection known.now self.now }
        requires above { pos 0 ≤ℤ known.now.ends.base }
        requires certain { certain ≡ total (ends_in end known.now self.now.must) }
        requires small { IsSmallSum certain }
        ensures { result ≡ total (map (share_at end) (pairs_in known.now self.now)) }
    {
        match end {
            End::Low => certain,
            End::High => sum_highs(known, self.may),
        }
    }

    // What the rows add to this end of the sum, where those that surely count come to this and they are so many. Where these are all rows,
    // no other is looked for.
    fn share(&self, end: End, known: &Known, certain: i128, counts: Tally, added: &mut Mask) -> i128
        requires selection { IsSelection known.now self.now }
        requires counts { counts ≡ tally_of Count (pairs_in known.now self.now) }
        requires certain { certain ≡ total (ends_in end known.now self.now.must) }
        requires small { IsSmallSum certain }
        requires room { length added.old ≡ rows_of_column known.now }
        ensures room { length added.new ≡ rows_of_column known.now }
        ensures sum { result ≡ total (map (share_at end) (pairs_in known.now self.now)) }
    {
        if counts.certain == counts.all {
            certain
        } else if counts.certain == 0 && known.base() >= 0 {
            self.share_above(end, known, certain)
        } else {
            self.shares(end, known, certain, added)
        }
    }

    // Of a sum in this cell.
    fn sum_tally(
        &self,
        known: &Known,
        cell: u32,
        kept: &mut Option<KeptCells>,
        added: &mut Mask,
    ) -> Tally
        requires selection { IsSelection known.now self.now }
        requires room { length added.old ≡ rows_of_column known.now }
        requires kept { IfSome kept.old (AreCellSums known.now) }
        ensures kept { IfSome kept.new (AreCellSums known.now) }
        ensures room { length added.new ≡ rows_of_column known.now }
        ensures tally { result ≡ tally_of Sum (pairs_in known.now self.now) }
    {
        let counts = self.count_tally();
        let sums = ends_of_cell(kept, cell, known, self.must);
        Tally {
            least_low: self.end_if_none(End::Low, known, counts.certain),
            greatest_high: self.end_if_none(End::High, known, counts.certain),
            low_sum: self.share(End::Low, known, sums.low, counts, added),
            high_sum: self.share(End::High, known, sums.high, counts, added),
            ..counts
        }
    }

    // Of a least or greatest value.
    fn end_tally(&self, known: &Known) -> Tally
        requires { IsSelection known.now self.now }
        ensures { result ≡ tally_of Min (pairs_in known.now self.now) }
    {
        let least = least_ends(known, self.may, self.must);
        let greatest = greatest_ends(known, self.may, self.must);
        Tally {
            least_low: least.low,
            greatest_high: greatest.high,
            least_certain_high: least.high,
            greatest_certain_low: greatest.low,
            ..self.count_tally()
        }
    }

    // Of an item of this kind in this cell.
    pub(crate) fn tally(
        &self,
        kind: ItemKind,
        known: &Known,
        cell: u32,
        kept: &mut Option<KeptCells>,
        added: &mut Mask,
    ) -> Tally
        requires selection { IsSelection known.now self.now }
        requires room { length added.old ≡ rows_of_column known.now }
        requires kept { IfSome kept.old (AreCellSums known.now) }
        ensures kept { IfSome kept.new (AreCellSums known.now) }
        ensures room { length added.new ≡ rows_of_column known.now }
        ensures tally { result ≡ tally_of kind (pairs_in known.now self.now) }
    {
        match kind {
            ItemKind::Count => self.count_tally(),
            ItemKind::Sum | ItemKind::Avg => self.sum_tally(known, cell, kept, added),
            ItemKind::Min | ItemKind::Max => self.end_tally(known),
        }
    }
}
