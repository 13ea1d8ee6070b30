//! Bounds of a bare column's items, from the rows that give a value, by masks and planes.

ghost use Rattle.std.specs.Prelude.{◌≡◌, ◌<◌, ◌⊎◌, count_by, IfSome, IsFalse, IsTrue};
ghost use Rattle.aggregates.specs.declared.extreme_rows.Extreme.TheVariants.{Greatest, Least};
ghost use Rattle.aggregates.specs.KeptExtremes.{HoldCandidates};
ghost use Rattle.aggregates.specs.KeptSums.{CanFollow, HasFollowed, IsKept};
ghost use Rattle.aggregates.specs.Widening.{CoverOthers};
ghost use Rattle.known_column.specs.Columns.{KnownColumn};
ghost use Rattle.query_model.specs.declared.query.ItemKind.TheVariants.{Count, Max, Min, Sum};
ghost use Rattle.query_model.specs.Bounds.{average_bound_of, bound_of, fractions_of, nullity_of};
ghost use Rattle.round_engine.specs.KeptItems.{extreme_of};
ghost use Rattle.round_engine.specs.Selected.{AreCounts, IsSelection, pairs_in};
ghost use Rattle.round_engine.specs.Totals.{IsBoundOf};

use crate::item_bound::ItemBound;
use crate::kept_extremes::{greatest_by_kept, least_by_kept};
use crate::kept_items::KeptItem;
use crate::kept_sums::ends_by_kept;
use crate::selection::{RowCounts, Selected};
use aggregates::{End, KeptExtreme, KeptSum, quotient};
use known_column::Known;
use plane_kernels::Mask;
use query_model::{AverageBound, Bound, ItemKind, Nullity};

// Whether a mask has rows.
pub(crate) fn has_rows(mask: &Mask) -> bool
    ensures some { IsTrue result → 0 < count_by (λ b. b) mask.now }
    ensures none { IsFalse result → count_by (λ b. b) mask.now ≡ 0 }
{
    mask.first_one().is_some()
}

impl Selected<'_> {
    // Whether no row counts.
    fn nullity(&self) -> Nullity
        ensures { (column : KnownColumn) → IsSelection column self.now → result ≡ nullity_of (pairs_in column self.now) }
    {
        if has_rows(self.must) {
            Nullity::Never
        } else if has_rows(self.may) {
            Nullity::Possibly
        } else {
            Nullity::Always
        }
    }

    // How many rows each mask has, where that is not told.
    fn counts(&self, told: Option<RowCounts>) -> RowCounts
        requires { IfSome told (AreCounts self.now) }
        ensures { AreCounts self.now result }
    {
        match told {
            Some(counts) => counts,
            None => RowCounts {
                most: self.may.count(),
                fewest: self.must.count(),
            },
        }
    }

    // How many rows count.
    fn count(&self, told: Option<RowCounts>) -> Bound
        requires { IfSome told (AreCounts self.now) }
        ensures { (column : KnownColumn) → IsSelection column self.now → result ≡ bound_of Count (pairs_in column self.now) }
    {
        let counts = self.counts(told);
        Bound {
            null: Nullity::Never,
            lo: i128::from(counts.fewest),
            hi: i128::from(counts.most),
        }
    }

    // The bound of the least value.
    fn least(&self, known: &Known, kept: &mut Option<KeptExtreme>) -> Bound
        requires selection { IsSelection known.now self.now }
        requires kept { IfSome kept.old (HoldCandidates Least known.now self.now.may self.now.must) }
        ensures kept { IfSome kept.new (HoldCandidates Least known.now self.now.may self.now.must) }
        ensures bound { result ≡ bound_of Min (pairs_in known.now self.now) }
    {
        let ends = least_by_kept(kept, known, self.may, self.must);
        Bound {
            null: self.nullity(),
            lo: ends.low.unwrap_or(0),
            hi: self.inner_end(End::High, known, ends.high),
        }
    }

    // The bound of the greatest value.
    fn greatest(&self, known: &Known, kept: &mut Option<KeptExtreme>) -> Bound
        requires selection { IsSelection known.now self.now }
        requires kept { IfSome kept.old (HoldCandidates Greatest known.now self.now.may self.now.must) }
        ensures kept { IfSome kept.new (HoldCandidates Greatest known.now self.now.may self.now.must) }
        ensures bound { result ≡ bound_of Max (pairs_in known.now self.now) }
    {
        let ends = greatest_by_kept(kept, known, self.may, self.must);
        Bound {
            null: self.nullity(),
            lo: self.inner_end(End::Low, known, ends.low),
            hi: ends.high.unwrap_or(0),
        }
    }

    // The bound of the sum.
    fn sum(&self, known: &Known, blocks: &Mask, kept: &mut Option<KeptSum>) -> Bound
        requires selection { IsSelection known.now self.now }
        requires blocks { CoverOthers self.now.may self.now.must blocks.now }
        requires kept { IfSome kept.old (IsKept known.now) }
        requires moves { IfSome kept.old (CanFollow self.now.must blocks.now) }
        ensures kept { IfSome kept.new (IsKept known.now) }
        ensures followed { IfSome kept.new (HasFollowed self.now.must blocks.now) }
        ensures bound { result ≡ bound_of Sum (pairs_in known.now self.now) }
    {
        let certain = ends_by_kept(kept, known, self.must, blocks);
        Bound {
            null: self.nullity(),
            lo: self.sum_end(End::Low, known, certain.low, blocks),
            hi: self.sum_end(End::High, known, certain.high, blocks),
        }
    }

    // The bound of the average: a sum that is not negative is divided by as many rows as may count for the low end, and by as few
    // as surely count for the high end.
    fn average(
        &self,
        known: &Known,
        blocks: &Mask,
        kept: &mut Option<KeptSum>,
        told: Option<RowCounts>,
    ) -> AverageBound
        requires selection { IsSelection known.now self.now }
        requires told { IfSome told (AreCounts self.now) }
        requires blocks { CoverOthers self.now.may self.now.must blocks.now }
        requires kept { IfSome kept.old (IsKept known.now) }
        requires moves { IfSome kept.old (CanFollow self.now.must blocks.now) }
        ensures kept { IfSome kept.new (IsKept known.now) }
        ensures followed { IfSome kept.new (HasFollowed self.now.must blocks.now) }
        ensures bound { fractions_of result ≡ average_bound_of (pairs_in known.now self.now) }
    {
        let counts = self.counts(told);
        let most = counts.most.max(1);
        let fewest = counts.fewest.max(1);
        let certain = ends_by_kept(kept, known, self.must, blocks);
        let low = self.sum_end(End::Low, known, certain.low, blocks);
        let high = self.sum_end(End::High, known, certain.high, blocks);
        AverageBound {
            null: self.nullity(),
            lo: quotient(low, most, fewest),
            hi: quotient(high, fewest, most),
        }
    }

    // The bound of an item of this kind. How many rows each mask has may be told.
    pub(crate) fn bound(
        &self,
        kind: ItemKind,
        known: &Known,
        blocks: &Mask,
        kept: &mut KeptItem,
        told: Option<RowCounts>,
    ) -> ItemBound
        requires selection { IsSelection known.now self.now }
        requires told { IfSome told (AreCounts self.now) }
        requires blocks { CoverOthers self.now.may self.now.must blocks.now }
        requires kept { IfSome kept.old.sum (IsKept known.now) }
        requires moves { IfSome kept.old.sum (CanFollow self.now.must blocks.now) }
        requires extreme { IfSome kept.old.extreme (HoldCandidates (extreme_of kind) known.now self.now.may self.now.must) }
        ensures kept { IfSome kept.new.sum (IsKept known.now) }
        ensures followed { (kept.new.sum ≡ kept.old.sum) ⊎ IfSome kept.new.sum (HasFollowed self.now.must blocks.now) }
        ensures extreme { IfSome kept.new.extreme (HoldCandidates (extreme_of kind) known.now self.now.may self.now.must) }
        ensures bound { IsBoundOf kind (pairs_in known.now self.now) result }
    {
        match kind {
            ItemKind::Count => ItemBound::Numbers(self.count(told)),
            ItemKind::Sum => ItemBound::Numbers(self.sum(known, blocks, &mut kept.sum)),
            ItemKind::Min => ItemBound::Numbers(self.least(known, &mut kept.extreme)),
            ItemKind::Max => ItemBound::Numbers(self.greatest(known, &mut kept.extreme)),
            ItemKind::Avg => ItemBound::Fractions(self.average(known, blocks, &mut kept.sum, told)),
        }
    }
}
