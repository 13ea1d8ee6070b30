//! Extremes of bare columns that are kept from one plane to the next.

ghost use Rattle.std.specs.Prelude.{◌≡◌, length, IfSome};
ghost use Rattle.aggregates.specs.declared.extreme_rows.Extreme.TheVariants.{Greatest, Least};
ghost use Rattle.aggregates.specs.KeptExtremes.{HoldCandidates};
ghost use Rattle.aggregates.specs.Selections.{highs_in, lows_in, IsPartOf, MayHaveValues};
ghost use Rattle.known_column.specs.Columns.{rows_of_column};
ghost use Rattle.query_model.specs.declared.query.ItemKind.TheVariants.{Max, Min};
ghost use Rattle.query_model.specs.Answers.{answer};

use aggregates::{ExtremeSpan, KeptExtreme, greatest_ends, least_ends};
use known_column::Known;
use plane_kernels::Mask;

// The least low end at the rows that may count, and the least high end at those that surely do, by what is kept of them where it is.
pub(crate) fn least_by_kept(
    kept: &mut Option<KeptExtreme>,
    known: &Known,
    may: &Mask,
    must: &Mask,
) -> ExtremeSpan
    requires rows { length may.now ≡ rows_of_column known.now }
    requires values { MayHaveValues known.now may.now }
    requires some { IsPartOf must.now may.now }
    requires kept { IfSome kept.old (HoldCandidates Least known.now may.now must.now) }
    ensures kept { IfSome kept.new (HoldCandidates Least known.now may.now must.now) }
    ensures low { result.low ≡ answer Min (lows_in known.now may.now) }
    ensures high { result.high ≡ answer Min (highs_in known.now must.now) }
{
    match kept {
        Some(extreme) => extreme.least_ends(known, may, must),
        None => least_ends(known, may, must),
    }
}

// The greatest low end at the rows that surely count, and the greatest high end at those that may.
pub(crate) fn greatest_by_kept(
    kept: &mut Option<KeptExtreme>,
    known: &Known,
    may: &Mask,
    must: &Mask,
) -> ExtremeSpan
    requires rows { length may.now ≡ rows_of_column known.now }
    requires values { MayHaveValues known.now may.now }
    requires some { IsPartOf must.now may.now }
    requires kept { IfSome kept.old (HoldCandidates Greatest known.now may.now must.now) }
    ensures kept { IfSome kept.new (HoldCandidates Greatest known.now may.now must.now) }
    ensures low { result.low ≡ answer Max (lows_in known.now must.now) }
    ensures high { result.high ≡ answer Max (highs_in known.now may.now) }
{
    match kept {
        Some(extreme) => extreme.greatest_ends(known, may, must),
        None => greatest_ends(known, may, must),
    }
}
