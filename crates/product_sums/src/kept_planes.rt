//! Ends of a product of two columns, or of such a product and a part that is linear in a third, added up over a mask's rows and followed
//! from one plane to the next. Of the third column the sums over the rows of each of its planes are kept.

ghost use Rattle.std.specs.Prelude.{◌≡◌, ◌<◌, ◌&&◌, ◌*ℤ◌, None, length, replicate, IfOk, IfSome, IsTrue};
ghost use Rattle.std.specs.Int.{int_wrap, w128};
ghost use Rattle.std.specs.Simd.Lanes.{zip2};
ghost use Rattle.aggregates.specs.declared.ends.End.TheVariants.{High};
ghost use Rattle.daq_table.specs.Tables.{ends_at, planes};
ghost use Rattle.known_column.specs.Columns.{is_at_top, rows_where};
ghost use Rattle.known_column.specs.KnownTables.{column_at};
ghost use Rattle.product_sums.specs.ColumnEnds.{weight_of_top};
ghost use Rattle.product_sums.specs.KeptProducts.{factor_end, inner_end, no_sums, whole_number, AreOuter, ArePlaneSums};
ghost use Rattle.product_sums.specs.KeptProducts.{CanFollowPair, IsKept, IsKeptPair, IsPair};
ghost use Rattle.product_sums.specs.Products.{sum_over};

use crate::column_ends::weight_of_top;
use crate::even_masks::has_all_rows;
use crate::factors::{Factor, PartEnds};
use crate::kept_column::{KeptColumns, Third};
use crate::kept_pair::{KeptPair, follow_sums};
use crate::linear_sums::{ColumnSums, is_clipped, sum_linear};
use crate::pair_ends::PairRows;
use crate::pair_sums::{Pair, PairSums, doubled};
use crate::some_rows::PartRows;
use crate::tally::CountedRows;
use crate::wrapping::times;
use aggregates::{End, number_planes};
use known_column::LentColumns;
use plane_kernels::Mask;
use std::alloc::{AllocError, Global};

// Two columns, and ends of both parts of their product.
#[derive(Clone, Copy)]
pub(crate) struct PairEnds<'a> {
    pub(crate) pair: Pair,
    pub(crate) parts: PartEnds<'a>,
}

// The end of a third part, where there is one, besides.
#[derive(Clone, Copy)]
pub(crate) struct ProductEnds<'a> {
    pub(crate) parts: PartEnds<'a>,
    pub(crate) outer: Option<Factor<'a>>,
}

// The rows of a mask, what all of them give, and whether it is wanted what those at a top give less.
#[derive(Clone, Copy)]
struct WholeRows<'a> {
    mask: &'a Mask,
    sum: i128,
    is_clipped: bool,
}

// How many planes the third column has, if there is one.
fn planes_to_keep(columns: &LentColumns<'_>, third: Option<Third>) -> usize
    requires { IfSome third (λ third. third.column < length columns.now.frame.columns) }
    ensures { IfSome third (λ third. result ≡ planes (ends_at columns.now.frame third.column)) }
{
    match third {
        None => 0,
        Some(third) => {
            let known = columns.column(usize::from(third.column));
            usize::from(known.width()) + usize::from(known.nullable())
        }
    }
}

// So many times what no plane gives.
fn unread_planes(alloc: Global, planes: usize) -> Result<Vec<PairSums>, AllocError>
    ensures { IfOk result (λ sums. sums.items ≡ replicate planes no_sums) }
{
    vec![in alloc; PairSums::none(); planes]
}

// Rows, and what planes of two columns gave over them; and over those with the bit of each plane of a third column; and over some at the
// prefix of its top.
#[derive(Drop)]
pub(crate) struct Kept {
    whole: KeptPair,
    planes: Vec<PairSums>,
    top: KeptPair,
}

impl Kept {
    // Room for the rows of the columns. So far there is none.
    pub(crate) fn open(
        alloc: Global,
        columns: &LentColumns<'_>,
        chosen: KeptColumns,
    ) -> Result<Kept, AllocError>
        requires pair { IsPair columns.now chosen.pair }
        requires third { IfSome chosen.third (λ third. third.column < length columns.now.frame.columns) }
        ensures { IfOk result (IsKept columns.now chosen) }
    {
        let rows = columns.rows();
        Ok(Kept {
            whole: KeptPair::open(alloc, rows)?,
            planes: unread_planes(alloc, planes_to_keep(columns, chosen.third))?,
            top: KeptPair::open(alloc, rows)?,
        })
    }

    // Whether its rows are those of the mask.
    pub(crate) fn is_of(&self, mask: &Mask) -> bool
        requires { length mask.now ≡ length self.now.whole.mask }
    {
        self.whole.is_of(mask)
    }

    // In how many blocks of 512 its rows differ from those of the nearer of two masks. It affects speed alone.
    pub(crate) fn moved_blocks(&self, rows: CountedRows<'_>) -> usize {
        self.whole
            .moved_blocks(rows.must)
            .min(self.whole.moved_blocks(rows.may))
    }

    // The ends of the product of two columns at the mask's rows, each times the number that the third column's digits make, added up. What
    // is kept of its planes follows, and the rows of the whole do not yet.
    fn sum_numbered<'a>(
        &mut self,
        columns: &LentColumns<'_>,
        inner: PairEnds<'a>,
        third: u8,
        mask: &Mask,
        stay: bool,
    ) -> i128
        requires pair { IsPair columns.now inner.pair }
        requires whole { length self.old.whole.mask ≡ columns.now.frame.rows }
        requires planes { ArePlaneSums columns.now self.old.whole.mask inner.pair third self.old.planes.items }
        requires follow { CanFollowPair columns.now mask.now inner.pair inner.parts }
        requires stay { IsTrue stay → self.old.whole.mask ≡ mask.now }
        ensures whole { self.new.whole ≡ self.old.whole }
        ensures top { self.new.top ≡ self.old.top }
        ensures planes { ArePlaneSums columns.now mask.now inner.entry.pair third self.new.planes.items }
        ensures sum { result ≡ int_wrap w128 (sum_over mask.now
            (λ r. whole_number columns.now third r *ℤ inner_end columns.now inner.entry.pair.first inner.entry.parts r)) }
    {
        let _rows = columns.rows();
        let known = columns.column(usize::from(third));
        let (from, to) = number_planes(known);
        let mut sum: i128 = 0;
        for j in from..to {
            let plane = known.plane(j);
            let at = usize::from(j);
            let kept = PartRows::with(&self.whole.mask, plane);
            let rows = PartRows::with(mask, plane);
            let sums = follow_sums(columns, inner.pair, self.planes[at], &kept, &rows, stay);
            self.planes[at] = sums;
            let here = PairRows {
                rows: &rows,
                pair: inner.pair,
                sums,
            };
            sum = doubled(sum, here.sum(columns, inner.parts));
        }
        sum
    }

    // What the rows at the prefix of the third column's top give less at its high end. `whole` is what all rows give: while the whole
    // table is at that prefix, none is counted.
    fn sum_top<'a>(
        &mut self,
        columns: &LentColumns<'_>,
        inner: PairEnds<'a>,
        third: u8,
        rows: WholeRows<'_>,
        room: &mut Mask,
    ) -> i128
        requires pair { IsPair columns.now inner.pair }
        requires third { third < length columns.now.frame.columns }
        requires top { IsKeptPair columns.now inner.pair self.old.top }
        requires follow { CanFollowPair columns.now rows.mask.now inner.pair inner.parts }
        requires whole { rows.sum ≡ int_wrap w128 (sum_over rows.mask.now (inner_end columns.now inner.pair.first inner.parts)) }
        requires room { length room.old ≡ columns.now.frame.rows }
        ensures whole { self.new.whole ≡ self.old.whole }
        ensures planes { self.new.planes ≡ self.old.planes }
        ensures top { IsKeptPair columns.now inner.entry.pair self.new.top }
        ensures room { length room.new ≡ columns.now.frame.rows }
        ensures sum { IsTrue rows.entry.is_clipped → result ≡ int_wrap w128 (weight_of_top High (column_at columns.now third)
            *ℤ sum_over (zip2 (λ a b. a && b) rows.entry.mask.now (rows_where is_at_top (column_at columns.now third)))
            (inner_end columns.now inner.entry.pair.first inner.entry.parts)) }
    {
        if !rows.is_clipped {
            return 0;
        }
        let known = columns.column(usize::from(third));
        let weight = weight_of_top(End::High, known);
        if weight == 0 {
            return 0;
        }
        if has_all_rows(known.at_top()) {
            return times(weight, rows.sum);
        }
        room.copy_from(rows.mask);
        room.and_into(known.at_top());
        let stay = self.top.is_of(room);
        let sum = self.top.sum(columns, inner.pair, inner.parts, room, stay);
        times(weight, sum)
    }

    // The end of the whole product at the mask's rows, added up.
    pub(crate) fn sum<'a>(
        &mut self,
        columns: &LentColumns<'_>,
        chosen: KeptColumns,
        ends: ProductEnds<'a>,
        mask: &Mask,
        room: &mut Mask,
    ) -> i128
        requires pair { IsPair columns.now chosen.pair }
        requires kept { IsKept columns.now chosen self.old }
        requires follow { CanFollowPair columns.now mask.now chosen.pair ends.parts }
        requires outer { AreOuter columns.now mask.now chosen.third ends.outer }
        requires room { length room.old ≡ columns.now.frame.rows }
        ensures kept { IsKept columns.now chosen self.new }
        ensures room { length room.new ≡ columns.now.frame.rows }
        ensures inner { chosen.third ≡ None → result
            ≡ int_wrap w128 (sum_over mask.now (inner_end columns.now chosen.pair.first ends.entry.parts)) }
        ensures product { IfSome ends.entry.outer (λ outer. result ≡ int_wrap w128 (sum_over mask.now
            (λ r. factor_end columns.now outer r *ℤ inner_end columns.now chosen.pair.first ends.entry.parts r))) }
    {
        let _rows = columns.rows();
        let stay = self.whole.is_of(mask);
        let inner = PairEnds {
            pair: chosen.pair,
            parts: ends.parts,
        };
        let Some(third) = chosen.third else {
            return self.whole.sum(columns, chosen.pair, ends.parts, mask, stay);
        };
        let Some(outer) = ends.outer else {
            return 0;
        };
        let numbers = self.sum_numbered(columns, inner, third.column, mask, stay);
        let all = self.whole.sum(columns, chosen.pair, ends.parts, mask, stay);
        let whole = WholeRows {
            mask,
            sum: all,
            is_clipped: is_clipped(outer.term, outer.end),
        };
        let clipped = self.sum_top(columns, inner, third.column, whole, room);
        let sums = ColumnSums {
            all,
            numbers,
            clipped,
        };
        sum_linear(columns, third.column, &sums, outer.term, outer.end)
    }
}
