//! Sums over bare columns that are kept from one plane to the next.

ghost use Rattle.std.specs.Prelude.{◌≡◌, length, IfSome};
ghost use Rattle.aggregates.specs.KeptSums.{CanFollow, HasFollowed, IsKept};
ghost use Rattle.aggregates.specs.Selections.{highs_in, lows_in, IsSmallSum, MayHaveValues};
ghost use Rattle.known_column.specs.Columns.{rows_of_column};
ghost use Rattle.query_model.specs.Answers.{total};

use aggregates::{KeptSum, SumSpan, sum_ends};
use known_column::Known;
use plane_kernels::Mask;

// Both ends at a mask's rows, added up, from what is kept of them where it is. From then on rows move in these blocks alone.
pub(crate) fn ends_by_kept(
    kept: &mut Option<KeptSum>,
    known: &Known,
    mask: &Mask,
    blocks: &Mask,
) -> SumSpan
    requires kept { IfSome kept.old (IsKept known.now) }
    requires moves { IfSome kept.old (CanFollow mask.now blocks.now) }
    requires rows { length mask.now ≡ rows_of_column known.now }
    requires values { MayHaveValues known.now mask.now }
    ensures kept { IfSome kept.new (IsKept known.now) }
    ensures followed { IfSome kept.new (HasFollowed mask.now blocks.now) }
    ensures low { result.low ≡ total (lows_in known.now mask.now) }
    ensures high { result.high ≡ total (highs_in known.now mask.now) }
    ensures few { IsSmallSum result.low × IsSmallSum result.high }
{
    match kept {
        Some(sum) => sum.ends(known, mask, blocks),
        None => sum_ends(known, mask),
    }
}
