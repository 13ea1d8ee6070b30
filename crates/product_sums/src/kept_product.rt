//! Sums of an expression that are kept from one plane to the next.

ghost use Rattle.std.specs.Prelude.{◌≡◌, ◌<◌, ◌*ℤ◌, None, length, map, IfOk, IfSome};
ghost use Rattle.std.specs.Int.{int_wrap, w128};
ghost use Rattle.std.specs.List.{All};
ghost use Rattle.aggregates.specs.declared.ends.End.TheVariants.{High, Low};
ghost use Rattle.aggregates.specs.Selections.{rows_in};
ghost use Rattle.query_model.specs.Answers.{total};
ghost use Rattle.query_model.specs.Queries.{term_of};
ghost use Rattle.query_model.specs.Truths.{span_of};
ghost use Rattle.query_model.specs.Validity.{declared_ranges, FitsSum};
ghost use Rattle.product_sums.specs.KeptProducts.{factor_end, inner_end, AreKeptEnds, AreOuter};
ghost use Rattle.product_sums.specs.KeptProducts.{CanFollowPair, IsKeptProduct, IsPair};
ghost use Rattle.product_sums.specs.Products.{sum_over, term_end, HasValues, IsProductSum};

use crate::kept_column::{KeptColumns, columns_to_keep, inner_part, outer_ends, part_ends};
use crate::kept_planes::{Kept, ProductEnds};
use crate::moves::count_moved_blocks;
use crate::sums::sum_ends;
use crate::tally::CountedRows;
use aggregates::End;
use known_column::LentColumns;
use plane_kernels::Mask;
use query_model::Expr;
use std::alloc::{AllocError, Global};

// What planes gave over the rows of the low ends, and over those of the high ends while these are others.
#[derive(Drop)]
pub(crate) struct KeptEnds {
    low: Kept,
    high: Kept,
}

impl KeptEnds {
    // Room for the rows of the columns. So far there is none.
    fn open(
        alloc: Global,
        columns: &LentColumns<'_>,
        chosen: KeptColumns,
    ) -> Result<KeptEnds, AllocError>
        requires pair { IsPair columns.now chosen.pair }
        requires third { IfSome chosen.third (λ third. third.column < length columns.now.frame.columns) }
        ensures { IfOk result (AreKeptEnds columns.now chosen) }
    {
        Ok(KeptEnds {
            low: Kept::open(alloc, columns, chosen)?,
            high: Kept::open(alloc, columns, chosen)?,
        })
    }

    // The ends of a product at the mask's rows, added up. Where the rows of the low ends are the mask's, what is kept of them serves the
    // high ends too.
    fn sum<'a>(
        &mut self,
        columns: &LentColumns<'_>,
        chosen: KeptColumns,
        ends: ProductEnds<'a>,
        mask: &Mask,
        room: &mut Mask,
    ) -> i128
        requires pair { IsPair columns.now chosen.pair }
        requires kept { AreKeptEnds columns.now chosen self.old }
        requires follow { CanFollowPair columns.now mask.now chosen.pair ends.parts }
        requires outer { AreOuter columns.now mask.now chosen.third ends.outer }
        requires room { length room.old ≡ columns.now.frame.rows }
        ensures kept { AreKeptEnds columns.now chosen self.new }
        ensures room { length room.new ≡ columns.now.frame.rows }
        ensures inner { chosen.third ≡ None → result
            ≡ int_wrap w128 (sum_over mask.now (inner_end columns.now chosen.pair.first ends.entry.parts)) }
        ensures product { IfSome ends.entry.outer (λ outer. result ≡ int_wrap w128 (sum_over mask.now
            (λ r. factor_end columns.now outer r *ℤ inner_end columns.now chosen.pair.first ends.entry.parts r))) }
    {
        match ends.parts.column {
            End::Low => self.low.sum(columns, chosen, ends, mask, room),
            End::High => {
                if self.low.is_of(mask) {
                    self.low.sum(columns, chosen, ends, mask, room)
                } else {
                    self.high.sum(columns, chosen, ends, mask, room)
                }
            }
        }
    }
}

impl KeptEnds {
    // In how many blocks of 512 these rows differ from those that are kept: of either end from the nearer of both masks. Where both masks
    // are the same, one of the two serves both.
    fn moved_blocks(&self, rows: CountedRows<'_>) -> usize {
        let low = self.low.moved_blocks(rows);
        if count_moved_blocks(rows.must, rows.may) == 0 {
            low
        } else {
            low.saturating_add(self.high.moved_blocks(rows))
        }
    }
}

// Room for so many cells.
fn open_cells(
    alloc: Global,
    columns: &LentColumns<'_>,
    chosen: KeptColumns,
    cells: usize,
) -> Result<Vec<KeptEnds>, AllocError>
    requires pair { IsPair columns.now chosen.pair }
    requires third { IfSome chosen.third (λ third. third.column < length columns.now.frame.columns) }
    ensures { IfOk result (λ kept. All (AreKeptEnds columns.now chosen) kept.items) }
{
    let mut kept = Vec::with_capacity(alloc, cells)?;
    for _cell in 0..cells {
        kept.push(KeptEnds::open(alloc, columns, chosen)?)?;
    }
    Ok(kept)
}

/// A product of a column and a part that adds and takes off numbers and one column alone, or of such a product and a third part like that:
/// what planes gave of it in each of some cells, and room for rows.
#[derive(Drop)]
pub struct KeptProduct {
    columns: KeptColumns,
    cells: Vec<KeptEnds>,
    room: Mask,
}

impl KeptProduct {
    /// Room for the ends of the expression in so many cells, where it is a product of a column and a part that adds and takes off numbers
    /// and one column alone, or one of such a product and a third part like that. So far they have no row.
    pub fn open(
        alloc: Global,
        expr: &Expr,
        columns: &LentColumns<'_>,
        cells: usize,
    ) -> Result<Option<KeptProduct>, AllocError>
        ensures { IfOk result (λ kept. IfSome kept (IsKeptProduct columns.now (term_of expr.now))) }
    {
        match columns_to_keep(expr, columns) {
            None => Ok(None),
            Some(chosen) => Ok(Some(KeptProduct {
                columns: chosen,
                cells: open_cells(alloc, columns, chosen, cells)?,
                room: Mask::none(alloc, columns.rows())?,
            })),
        }
    }

    // In how many blocks of 512 the rows of a cell differ from those that are kept of it. It affects speed alone.
    pub(crate) fn moved_blocks(&self, rows: CountedRows<'_>, cell: usize) -> usize {
        match self.cells.get(cell) {
            Some(kept) => kept.moved_blocks(rows),
            None => rows.may.rows().div_ceil(512),
        }
    }

    // The ends at the mask's rows of a cell, added up.
    pub(crate) fn sum(
        &mut self,
        end: End,
        expr: &Expr,
        columns: &LentColumns<'_>,
        mask: &Mask,
        cell: usize,
    ) -> i128
        requires kept { IsKeptProduct columns.now (term_of expr.now) self.old }
        requires sums { IsProductSum columns.now.frame (term_of expr.now) }
        requires rows { length mask.now ≡ columns.now.frame.rows }
        requires values { HasValues columns.now (term_of expr.now) mask.now }
        requires fits { FitsSum columns.now.frame.rows (span_of (term_of expr.now) (declared_ranges columns.now.frame)) }
        ensures kept { IsKeptProduct columns.now (term_of expr.now) self.new }
        ensures sum { result ≡ total (map (term_end columns.now end (term_of expr.now)) (rows_in mask.now)) }
    {
        let _rows = columns.rows();
        if cell >= self.cells.len() {
            return sum_ends(end, expr, columns, mask);
        }
        let chosen = self.columns;
        match chosen.third {
            None => {
                let parts = part_ends(expr, chosen.pair.first, end, columns);
                let ends = ProductEnds { parts, outer: None };
                self.cells[cell].sum(columns, chosen, ends, mask, &mut self.room)
            }
            Some(third) => {
                let (at_inner, outer) = outer_ends(expr, third, end, columns);
                let inner = inner_part(expr, chosen.third);
                let parts = part_ends(inner, chosen.pair.first, at_inner, columns);
                let ends = ProductEnds {
                    parts,
                    outer: Some(outer),
                };
                self.cells[cell].sum(columns, chosen, ends, mask, &mut self.room)
            }
        }
    }
}
