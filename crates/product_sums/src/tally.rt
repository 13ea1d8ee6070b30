//! What a sum of an expression keeps of its rows, by counts.

ghost use Rattle.std.specs.Prelude.{◌≡◌, ◌==◌, if◌then◌else◌, None, true, length, map, IfSome};
ghost use Rattle.aggregates.specs.declared.ends.End.TheVariants.{Low, High};
ghost use Rattle.aggregates.specs.Selections.{rows_in, IsPartOf};
ghost use Rattle.aggregates.specs.Tallies.{tally_of};
ghost use Rattle.query_model.specs.declared.query.ItemKind.TheVariants.{Max, Min};
ghost use Rattle.query_model.specs.Answers.{answer, total};
ghost use Rattle.query_model.specs.Bounds.{high_share, low_share};
ghost use Rattle.query_model.specs.Meaning.{ReadsBelow};
ghost use Rattle.query_model.specs.Queries.{term_of};
ghost use Rattle.query_model.specs.Truths.{span_of};
ghost use Rattle.query_model.specs.Validity.{declared_ranges, FitsSum, FitsWide, IsSumKind};
ghost use Rattle.product_sums.specs.KeptProducts.{IsKeptProduct};
ghost use Rattle.product_sums.specs.Products.{keeps_sign, pairs_of, term_end, HasValues, IsProductSum};

use crate::extremes::outer_ends;
use crate::kept_product::KeptProduct;
use crate::moves::is_soon_followed;
use crate::signs::is_never_negative;
use crate::sums::sum_ends;
use aggregates::{End, ExtremeSpan, SumSpan, Tally};
use known_column::LentColumns;
use plane_kernels::Mask;
use query_model::{Expr, ItemKind};

/// The rows that may count, and those of them that surely do.
#[derive(Clone, Copy)]
pub struct CountedRows<'a> {
    pub may: &'a Mask,
    pub must: &'a Mask,
}

/// The number of a cell, and how many cells there are.
#[derive(Clone, Copy)]
pub struct CellOf {
    pub cell: u32,
    pub cells: u32,
}

// The ends of no row.
fn no_ends() -> ExtremeSpan
    ensures low { result.low ≡ None }
    ensures high { result.high ≡ None }
{
    ExtremeSpan {
        low: None,
        high: None,
    }
}

// The outermost ends, which a sum keeps while no row surely counts, if there is no row or they are quickly found.
fn ends_if_none(
    certain: u64,
    arg: &Expr,
    columns: &LentColumns<'_>,
    mask: &Mask,
) -> Option<ExtremeSpan>
    requires columns { ReadsBelow (length columns.now.frame.columns) (term_of arg.now) }
    requires wide { FitsWide (term_of arg.now) (declared_ranges columns.now.frame) }
    requires rows { length mask.now ≡ columns.now.frame.rows }
    requires values { HasValues columns.now (term_of arg.now) mask.now }
    ensures low { IfSome result (λ ends. ends.low
        ≡ (if certain == 0 then answer Min (map (term_end columns.now Low (term_of arg.now)) (rows_in mask.now)) else None)) }
    ensures high { IfSome result (λ ends. ends.high
        ≡ (if certain == 0 then answer Max (map (term_end columns.now High (term_of arg.now)) (rows_in mask.now)) else None)) }
{
    if certain > 0 {
        return Some(no_ends());
    }
    if mask.count() == 0 {
        return Some(no_ends());
    }
    let ends = outer_ends(arg, columns, mask)?;
    Some(ExtremeSpan {
        low: Some(ends.lo),
        high: Some(ends.hi),
    })
}

// The ends at the mask's rows of a cell, added up, from what is kept of them where it is.
fn sum_kept(
    end: End,
    arg: &Expr,
    columns: &LentColumns<'_>,
    mask: &Mask,
    kept: &mut Option<KeptProduct>,
    cell: usize,
) -> i128
    requires sums { IsProductSum columns.now.frame (term_of arg.now) }
    requires fits { FitsSum columns.now.frame.rows (span_of (term_of arg.now) (declared_ranges columns.now.frame)) }
    requires rows { length mask.now ≡ columns.now.frame.rows }
    requires values { HasValues columns.now (term_of arg.now) mask.now }
    requires kept { IfSome kept.old (IsKeptProduct columns.now (term_of arg.now)) }
    ensures kept { IfSome kept.new (IsKeptProduct columns.now (term_of arg.now)) }
    ensures sum { result ≡ total (map (term_end columns.now end (term_of arg.now)) (rows_in mask.now)) }
{
    match kept {
        Some(product) => product.sum(end, arg, columns, mask, cell),
        None => sum_ends(end, arg, columns, mask),
    }
}

// The least and the greatest sum of an expression that keeps its sign. What is never below 0 is least where no other row counts, and
// greatest where all do; what is never above 0 the other way round.
fn outer_sums<'a>(
    arg: &Expr,
    columns: &LentColumns<'_>,
    rows: CountedRows<'a>,
    kept: &mut Option<KeptProduct>,
    cell: usize,
) -> SumSpan
    requires sums { IsProductSum columns.now.frame (term_of arg.now) }
    requires sign { keeps_sign columns.now.frame (term_of arg.now) ≡ true }
    requires fits { FitsSum columns.now.frame.rows (span_of (term_of arg.now) (declared_ranges columns.now.frame)) }
    requires rows { length rows.may.now ≡ columns.now.frame.rows }
    requires must { IsPartOf rows.must.now rows.may.now }
    requires values { HasValues columns.now (term_of arg.now) rows.may.now }
    requires kept { IfSome kept.old (IsKeptProduct columns.now (term_of arg.now)) }
    ensures kept { IfSome kept.new (IsKeptProduct columns.now (term_of arg.now)) }
    ensures low { result.low ≡ total (map low_share (pairs_of columns.now (term_of arg.now) rows.entry.may.now rows.entry.must.now)) }
    ensures high { result.high ≡ total (map high_share (pairs_of columns.now (term_of arg.now) rows.entry.may.now rows.entry.must.now)) }
{
    let _rows = columns.rows();
    if is_never_negative(arg, columns) {
        SumSpan {
            low: sum_kept(End::Low, arg, columns, rows.must, kept, cell),
            high: sum_kept(End::High, arg, columns, rows.may, kept, cell),
        }
    } else {
        SumSpan {
            low: sum_kept(End::Low, arg, columns, rows.may, kept, cell),
            high: sum_kept(End::High, arg, columns, rows.must, kept, cell),
        }
    }
}

/// What a sum or an average of an expression that keeps its sign keeps of such rows. There is none where no row surely counts and the
/// outermost ends are not quickly found. Where sums of the expression are kept for the cell, they are followed to these rows: planes that
/// were read already are not counted again for rows that stay. There is none either where so many rows moved that all are faster added one
/// by one; then what is kept stays as it was.
pub fn kept_tally<'a>(
    kind: ItemKind,
    arg: &Expr,
    columns: &LentColumns<'_>,
    rows: CountedRows<'a>,
    kept: &mut Option<KeptProduct>,
    place: CellOf,
) -> Option<Tally>
    requires kind { IsSumKind kind }
    requires sums { IsProductSum columns.now.frame (term_of arg.now) }
    requires sign { keeps_sign columns.now.frame (term_of arg.now) ≡ true }
    requires fits { FitsSum columns.now.frame.rows (span_of (term_of arg.now) (declared_ranges columns.now.frame)) }
    requires rows { length rows.may.now ≡ columns.now.frame.rows }
    requires must { IsPartOf rows.must.now rows.may.now }
    requires values { HasValues columns.now (term_of arg.now) rows.may.now }
    requires kept { IfSome kept.old (IsKeptProduct columns.now (term_of arg.now)) }
    ensures kept { IfSome kept.new (IsKeptProduct columns.now (term_of arg.now)) }
    ensures tally { IfSome result (λ tally.
        tally ≡ tally_of kind (pairs_of columns.now (term_of arg.now) rows.entry.may.now rows.entry.must.now)) }
{
    let _rows = columns.rows();
    if !is_soon_followed(arg, columns, rows, kept, place) {
        return None;
    }
    let certain = rows.must.count();
    let ends = ends_if_none(certain, arg, columns, rows.may)?;
    let sums = outer_sums(arg, columns, rows, kept, place.cell as usize);
    Some(Tally {
        certain,
        all: rows.may.count(),
        least_low: ends.low,
        greatest_high: ends.high,
        least_certain_high: None,
        greatest_certain_low: None,
        low_sum: sums.low,
        high_sum: sums.high,
    })
}
