//! The ends of a sum over the rows of a selection, and the ends of its numbers, by masks and planes.

ghost use Rattle.std.specs.Prelude.{◌≡◌, ◌==◌, if◌then◌else◌, length, map, None};
ghost use Rattle.aggregates.specs.Selections.{end_at, ends_in, those_of, IsSmallSum, MayHaveValues};
ghost use Rattle.known_column.specs.Columns.{rows_of_column};
ghost use Rattle.aggregates.specs.Widening.{CoverOthers, widens};
ghost use Rattle.query_model.specs.Answers.{total};
ghost use Rattle.round_engine.specs.Selected.{IsSelection, pairs_in};
ghost use Rattle.round_engine.specs.SumEnds.{ends_of, inner_end, innermost, outermost, share_at, sum_at, widening_rows};

use crate::column_bounds::has_rows;
use crate::selection::Selected;
use aggregates::{
    End, greatest_high, least_low, negative_lows, positive_highs, sum_highs, sum_lows, sum_others,
};
use known_column::Known;
use plane_kernels::Mask;

// Selects the rows of a mask whose number at this end widens a sum.
fn select_widening(end: End, known: &Known, within: &Mask, out: &mut Mask)
    requires within { length within.now ≡ rows_of_column known.now }
    requires values { MayHaveValues known.now within.now }
    requires out { length out.old ≡ rows_of_column known.now }
    ensures { out.new ≡ those_of within.now (λ row. widens end (end_at end known.now row)) }
{
    match end {
        End::Low => negative_lows(known, within, out),
        End::High => positive_highs(known, within, out),
    }
}

// The numbers of a mask's rows at this end, added up.
fn sum_of_ends(end: End, known: &Known, mask: &Mask) -> i128
    requires rows { length mask.now ≡ rows_of_column known.now }
    requires values { MayHaveValues known.now mask.now }
    ensures sum { result ≡ total (ends_in end known.now mask.now) }
    ensures few { IsSmallSum result }
{
    match end {
        End::Low => sum_lows(known, mask),
        End::High => sum_highs(known, mask),
    }
}

// The number of a mask's rows that lies furthest out at this end.
fn outermost(end: End, known: &Known, mask: &Mask) -> Option<i128>
    requires rows { length mask.now ≡ rows_of_column known.now }
    requires values { MayHaveValues known.now mask.now }
    ensures { result ≡ outermost end (ends_in end known.now mask.now) }
{
    match end {
        End::Low => least_low(known, mask),
        End::High => greatest_high(known, mask),
    }
}

impl Selected<'_> {
    // What the rows add to this end of the sum: those that surely count, whose numbers come to this, and of the others those that
    // widen it.
    pub(crate) fn shares(&self, end: End, known: &Known, certain: i128, others: &mut Mask) -> i128
        requires selection { IsSelection known.now self.now }
        requires certain { certain ≡ total (ends_in end known.now self.now.must) }
        requires small { IsSmallSum certain }
        requires room { length others.old ≡ rows_of_column known.now }
        ensures room { length others.new ≡ rows_of_column known.now }
        ensures others { others.new ≡ widening_rows end known.now self.now }
        ensures sum { result ≡ total (map (share_at end) (pairs_in known.now self.now)) }
    {
        select_widening(end, known, self.may, others);
        others.and_not_into(self.must);
        if has_rows(others) {
            certain + sum_of_ends(end, known, others)
        } else {
            certain
        }
    }

    // This end of the sum. The rows that may count and need not stand in these blocks alone. Where no row surely counts and none widens
    // it, the outermost number stands alone.
    pub(crate) fn sum_end(&self, end: End, known: &Known, certain: i128, blocks: &Mask) -> i128
        requires selection { IsSelection known.now self.now }
        requires certain { certain ≡ total (ends_in end known.now self.now.must) }
        requires small { IsSmallSum certain }
        requires blocks { CoverOthers self.now.may self.now.must blocks.now }
        ensures sum { result ≡ sum_at end (pairs_in known.now self.now) }
    {
        let others = sum_others(end, known, self.may, self.must, blocks);
        let stands = has_rows(self.must) | (others.rows > 0);
        if stands {
            certain + others.sum
        } else {
            outermost(end, known, self.may).unwrap_or(0)
        }
    }

    // The end of an extreme that lies inward, where this is the innermost number at the rows that surely count.
    pub(crate) fn inner_end(&self, end: End, known: &Known, certain: Option<i128>) -> i128
        requires selection { IsSelection known.now self.now }
        requires certain { certain ≡ innermost end (ends_in end known.now self.now.must) }
        ensures { result ≡ inner_end end (pairs_in known.now self.now) }
    {
        match certain {
            Some(number) => number,
            None => outermost(end, known, self.may).unwrap_or(0),
        }
    }

    // The outermost number, which a sum keeps where no row surely counts.
    pub(crate) fn end_if_none(&self, end: End, known: &Known, certain: u64) -> Option<i128>
        requires { IsSelection known.now self.now }
        ensures { result ≡ (if certain == 0 then outermost end (ends_of end (pairs_in known.now self.now)) else None) }
    {
        if certain == 0 {
            outermost(end, known, self.may)
        } else {
            None
        }
    }
}
