//! Conditions of atoms under OR alone, each of which may fail at every row: their rows are added mask by mask, in whole passes.

ghost use Rattle.std.specs.Prelude.{◌≡◌, ◌<◌, ◌+◌, length, IfSome, IsTrue};
ghost use Rattle.query_model.specs.Knowledge.{ranges_of};
ghost use Rattle.query_model.specs.Meaning.{AtomReadsBelow, PredReadsBelow};
ghost use Rattle.query_model.specs.Queries.{condition_of};
ghost use Rattle.query_model.specs.Truths.{truths_of_atom};
ghost use Rattle.known_column.specs.KnownTables.{IsKnownTable};
ghost use Rattle.kleene_filter.specs.Filters.{truths_at};
ghost use Rattle.kleene_filter.specs.Masks.{atoms_of, AreMasksOf, Follows};
ghost use Rattle.kleene_filter.specs.Unions.{AddsRows, IsUnion, OnlyAdds};

use crate::masks::AtomMasks;
use known_column::LentColumns;
use plane_kernels::Mask;
use query_model::{Atom, Pred};

// Whether an atom only adds rows beside OR.
fn atom_only_adds(atom: &Atom, masks: &AtomMasks, columns: &LentColumns<'_>) -> bool
    requires columns { AtomReadsBelow (length columns.now.frame.columns) atom.now }
    requires follows { Follows masks.now atom.now columns.now }
    ensures { IsTrue result → OnlyAdds masks.now columns.now }
{
    match masks {
        AtomMasks::Compared(compared) => compared.only_adds(columns),
        AtomMasks::ByRows | AtomMasks::Null { .. } | AtomMasks::Ranged(_) | AtomMasks::Member(_) =>
            false,
    }
}

// The place behind the masks of a condition's atoms, where these stand under OR alone and only add rows.
pub(crate) fn union_end(
    pred: &Pred,
    masks: &[AtomMasks],
    at: usize,
    columns: &LentColumns<'_>,
) -> Option<usize>
    requires columns { PredReadsBelow (length columns.now.frame.columns) (condition_of pred.now) }
    requires masks { AreMasksOf masks.now at (atoms_of (condition_of pred.now)) columns.now }
    ensures next { IfSome result (λ next. next ≡ at + length (atoms_of (condition_of pred.now))) }
    ensures union { IfSome result (λ next. IsUnion (condition_of pred.now) masks.now at columns.now) }
{
    match pred {
        Pred::Atom(atom) => {
            if atom_only_adds(atom, &masks[at], columns) {
                Some(at + 1)
            } else {
                None
            }
        }
        Pred::Or(a, b) => {
            let next = union_end(a, masks, at, columns)?;
            union_end(b, masks, next, columns)
        }
        Pred::All | Pred::And(_, _) | Pred::Not(_) => None,
    }
}

// Adds the rows at which an atom may hold.
fn add_atom(atom: &Atom, masks: &AtomMasks, columns: &LentColumns<'_>, rows: &mut Mask)
    requires columns { AtomReadsBelow (length columns.now.frame.columns) atom.now }
    requires follows { Follows masks.now atom.now columns.now }
    requires adds { OnlyAdds masks.now columns.now }
    requires known { IsKnownTable columns.now }
    requires rows { length rows.old ≡ columns.now.frame.rows }
    ensures { AddsRows columns.now.frame.rows
        (λ row. truths_of_atom atom.now (ranges_of columns.now.frame columns.now.known row)) rows.old rows.new }
{
    match masks {
        AtomMasks::Compared(compared) => compared.add_rows(columns, rows),
        AtomMasks::ByRows | AtomMasks::Null { .. } | AtomMasks::Ranged(_) | AtomMasks::Member(_) =>
            unreachable!(),
    }
}

// Adds the rows at which a condition may hold, and gives the place behind the masks of its atoms.
pub(crate) fn add_rows(
    pred: &Pred,
    masks: &[AtomMasks],
    at: usize,
    columns: &LentColumns<'_>,
    rows: &mut Mask,
) -> usize
    requires columns { PredReadsBelow (length columns.now.frame.columns) (condition_of pred.now) }
    requires masks { AreMasksOf masks.now at (atoms_of (condition_of pred.now)) columns.now }
    requires union { IsUnion (condition_of pred.now) masks.now at columns.now }
    requires known { IsKnownTable columns.now }
    requires rows { length rows.old ≡ columns.now.frame.rows }
    ensures next { result ≡ at + length (atoms_of (condition_of pred.now)) }
    ensures rows { AddsRows columns.now.frame.rows (truths_at (condition_of pred.now) columns.now) rows.old rows.new }
{
    match pred {
        Pred::Atom(atom) => {
            add_atom(atom, &masks[at], columns, rows);
            at + 1
        }
        Pred::Or(a, b) => {
            let next = add_rows(a, masks, at, columns, rows);
            add_rows(b, masks, next, columns, rows)
        }
        Pred::All | Pred::And(_, _) | Pred::Not(_) => unreachable!(),
    }
}
