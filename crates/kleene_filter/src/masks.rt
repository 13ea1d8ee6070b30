//! What is kept of a condition on one column or on two, to follow its columns plane by plane.

ghost use Rattle.std.specs.Prelude.{◌≡◌, ◌≤◌, ◌<◌, ◌==◌, length, IfOk};
ghost use Rattle.query_model.specs.declared.query.Atom.{Atom};
ghost use Rattle.query_model.specs.declared.query.Atom.TheVariants.{Between, Compare, OneOf};
ghost use Rattle.query_model.specs.Meaning.{AtomReadsBelow};
ghost use Rattle.known_column.specs.KnownTables.{IsKnownTable};
ghost use Rattle.kleene_filter.specs.Kept.{kept_by};
ghost use Rattle.kleene_filter.specs.Masks.{Follows, WasFollowed};

use crate::comparisons::{Compared, Ranged};
use crate::members::Membership;
use known_column::{Known, LentColumns};
use plane_kernels::Plane;
use query_model::{Atom, Comparison};
use std::alloc::{AllocError, Global};

// How an atom is judged: row by row, by what is known of null, by the sides of one comparison or of two, or by the levels of
// listed numbers.
#[derive(Drop)]
pub(crate) enum AtomMasks {
    ByRows,
    Null { column: usize },
    Compared(Compared),
    Ranged(Ranged),
    Member(Membership),
}

// Whether nothing is read of the column.
pub(crate) fn is_untouched(column: &Known) -> bool
    ensures { result ≡ (column.now.known.read == 0) }
{
    column.unread() == column.width() + u8::from(column.nullable())
}

impl AtomMasks {
    // A comparison keeps masks where nothing is read of its column.
    fn compared(
        alloc: Global,
        column: usize,
        op: Comparison,
        value: i128,
        columns: &LentColumns<'_>,
    ) -> Result<AtomMasks, AllocError>
        requires column { column < length columns.now.frame.columns }
        requires known { IsKnownTable columns.now }
        ensures follows { IfOk result (λ masks. Follows masks (Compare column op value) columns.now) }
        ensures few { IfOk result (λ masks. kept_by masks ≤ 1) }
    {
        if !is_untouched(columns.column(column)) {
            return Ok(AtomMasks::ByRows);
        }
        let compared = Compared::open(alloc, column, op, value, columns)?;
        Ok(AtomMasks::Compared(compared))
    }

    // So do those with both ends of a range.
    fn ranged(
        alloc: Global,
        column: usize,
        low: i128,
        high: i128,
        columns: &LentColumns<'_>,
    ) -> Result<AtomMasks, AllocError>
        requires column { column < length columns.now.frame.columns }
        requires known { IsKnownTable columns.now }
        ensures follows { IfOk result (λ masks. Follows masks (Between column low high) columns.now) }
        ensures few { IfOk result (λ masks. kept_by masks ≤ 2) }
    {
        if !is_untouched(columns.column(column)) {
            return Ok(AtomMasks::ByRows);
        }
        let ranged = Ranged::open(alloc, column, low, high, columns)?;
        Ok(AtomMasks::Ranged(ranged))
    }

    // So does a list of numbers.
    fn member(
        alloc: Global,
        column: usize,
        values: &[i128],
        columns: &LentColumns<'_>,
    ) -> Result<AtomMasks, AllocError>
        requires column { column < length columns.now.frame.columns }
        requires known { IsKnownTable columns.now }
        ensures follows { IfOk result (λ masks. Follows masks (OneOf column values.now) columns.now) }
        ensures few { IfOk result (λ masks. kept_by masks ≤ length values.now) }
    {
        if !is_untouched(columns.column(column)) {
            return Ok(AtomMasks::ByRows);
        }
        let membership = Membership::open(alloc, column, values, columns)?;
        Ok(AtomMasks::Member(membership))
    }

    // What is kept of an atom: no masks where there is no room for those of all its numbers.
    pub(crate) fn open(
        alloc: Global,
        atom: &Atom,
        columns: &LentColumns<'_>,
        room: usize,
    ) -> Result<AtomMasks, AllocError>
        requires columns { AtomReadsBelow (length columns.now.frame.columns) atom.now }
        requires known { IsKnownTable columns.now }
        ensures follows { IfOk result (λ masks. Follows masks atom.now columns.now) }
        ensures few { IfOk result (λ masks. kept_by masks ≤ room) }
    {
        match atom {
            Atom::Compare { column, op, value } if room >= 1 => {
                AtomMasks::compared(alloc, *column as usize, *op, *value, columns)
            }
            Atom::Between { column, low, high } if room >= 2 => {
                AtomMasks::ranged(alloc, *column as usize, *low, *high, columns)
            }
            Atom::OneOf { column, values } if room >= values.as_slice().len() => {
                AtomMasks::member(alloc, *column as usize, values.as_slice(), columns)
            }
            Atom::IsNull { column } => Ok(AtomMasks::Null {
                column: *column as usize,
            }),
            _ => Ok(AtomMasks::ByRows),
        }
    }

    // Whether the atom is judged row by row.
    pub(crate) fn is_by_rows(&self) -> bool {
        match self {
            AtomMasks::ByRows => true,
            AtomMasks::Null { .. }
            | AtomMasks::Compared(_)
            | AtomMasks::Ranged(_)
            | AtomMasks::Member(_) => false,
        }
    }

    // How many comparisons and listed numbers keep masks.
    pub(crate) fn count(&self) -> usize
        ensures { result ≡ kept_by self.now }
    {
        match self {
            AtomMasks::ByRows | AtomMasks::Null { .. } => 0,
            AtomMasks::Compared(_) => 1,
            AtomMasks::Ranged(_) => 2,
            AtomMasks::Member(membership) => membership.count(),
        }
    }

    // Follows the columns after a plane of one of them.
    pub(crate) fn follow(&mut self, columns: &LentColumns<'_>, column: usize, plane: &Plane)
        requires { (atom : Atom) × WasFollowed self.old atom columns.now column plane.now }
        ensures { (atom : Atom) → WasFollowed self.old atom columns.now column plane.now → Follows self.new atom columns.now }
    {
        match self {
            AtomMasks::ByRows | AtomMasks::Null { .. } => {}
            AtomMasks::Compared(compared) => compared.follow(columns, column, plane),
            AtomMasks::Ranged(ranged) => ranged.follow(columns, column, plane),
            AtomMasks::Member(membership) => membership.follow(columns, column, plane),
        }
    }
}
