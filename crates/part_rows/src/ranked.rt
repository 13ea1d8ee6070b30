//! Listed rows in the order of the ends of their keys, and how many of them come before a row.

ghost use Rattle.std.specs.Prelude.{◌≡◌, IfOk};
ghost use Rattle.std.specs.List.{filter};
ghost use Rattle.std.specs.List.Sorted.{IsPermutation};
ghost use Rattle.part_rows.specs.Marks.{mark_at};
ghost use Rattle.part_rows.specs.Ranked.{AreRanked, AreRankedBy, rows_ahead, rows_behind};
ghost use Rattle.part_rows.specs.Standings.{leaders, rivals};

use crate::order::{Placed, compare};
use crate::row::{End, PartRow};
use std::alloc::{AllocError, Global};

/// Rows, all of them in the order of their first keys, and the certain ones in the order of their last.
#[derive(Drop)]
pub(crate) struct RankedRows<'a> {
    rows: &'a [PartRow],
    by_first: Vec<&'a PartRow>,
    certain: Vec<&'a PartRow>,
}

fn all_rows(alloc: Global, rows: &[PartRow]) -> Result<Vec<&PartRow>, AllocError>
    ensures { IfOk result (λ all. rows_behind all.items ≡ rows.now) }
{
    let mut all = Vec::with_capacity(alloc, rows.len())?;
    for row in rows {
        all.push(row)?;
    }
    Ok(all)
}

fn certain_rows(alloc: Global, rows: &[PartRow]) -> Result<Vec<&PartRow>, AllocError>
    ensures { IfOk result (λ some. rows_behind some.items ≡ filter (λ row. row.certain) rows.now) }
{
    let mut some = Vec::new(alloc);
    for row in rows {
        if row.certain {
            some.push(row)?;
        }
    }
    Ok(some)
}

// Puts rows in the order of one end of their keys.
fn ranked<'a>(
    down: bool,
    end: End,
    mut rows: Vec<&'a PartRow>,
) -> Result<Vec<&'a PartRow>, AllocError>
    ensures same { IfOk result (λ ranked. IsPermutation rows.entry.items ranked.items) }
    ensures ordered { IfOk result (λ ranked. AreRankedBy down end ranked.items) }
{
    rows.sort_by(|a, b| compare(down, Placed { row: *a, end }, Placed { row: *b, end }))?;
    Ok(rows)
}

// How many rows come before a mark, by that end of their keys.
fn count_before(down: bool, end: End, ranked: &[&PartRow], mark: Placed<'_>) -> usize
    requires { AreRankedBy down end ranked.now }
    ensures { result ≡ rows_ahead down end (mark_at down mark.entry.end mark.entry.row.now) (rows_behind ranked.now) }
{
    ranked.partition_point(|other| compare(down, Placed { row: *other, end }, mark).is_lt())
}

impl<'a> RankedRows<'a> {
    /// The rows, ranked.
    pub(crate) fn new(
        alloc: Global,
        down: bool,
        rows: &'a [PartRow],
    ) -> Result<RankedRows<'a>, AllocError>
        ensures ranked { IfOk result (λ all. AreRanked down all) }
        ensures rows { IfOk result (λ all. all.rows.now ≡ rows.now) }
    {
        Ok(RankedRows {
            rows,
            by_first: ranked(down, End::First, all_rows(alloc, rows)?)?,
            certain: ranked(down, End::Last, certain_rows(alloc, rows)?)?,
        })
    }

    /// How many rows must come before this one.
    pub(crate) fn leaders(&self, down: bool, row: &PartRow) -> usize
        requires { AreRanked down self.now }
        ensures { result ≡ leaders down self.now.rows.now row.now }
    {
        let first = Placed {
            row,
            end: End::First,
        };
        count_before(down, End::Last, &self.certain, first)
    }

    /// How many other rows may come before this one, which is among the rows.
    pub(crate) fn rivals(&self, down: bool, row: &PartRow) -> usize
        requires { AreRanked down self.now }
        ensures { result ≡ rivals down self.now.rows.now row.now }
    {
        let last = Placed {
            row,
            end: End::Last,
        };
        let before = count_before(down, End::First, &self.by_first, last);
        let first = Placed {
            row,
            end: End::First,
        };
        if compare(down, first, last).is_lt() {
            before.saturating_sub(1)
        } else {
            before
        }
    }
}
