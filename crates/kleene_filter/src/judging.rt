//! What is known of a condition at rows of a block of 512.

ghost use Rattle.std.specs.Prelude.{◌≡◌, ◌<◌, ◌≤◌, ◌*◌, ◌+◌, ◌-◌, length, IfSome};
ghost use Rattle.plane_kernels.specs.Rows.{block_rows};
ghost use Rattle.query_model.specs.Knowledge.{ranges_of};
ghost use Rattle.query_model.specs.Meaning.{AtomReadsBelow, PredReadsBelow};
ghost use Rattle.query_model.specs.Queries.{condition_of};
ghost use Rattle.query_model.specs.Truths.{truths_of_atom};
ghost use Rattle.known_column.specs.KnownTables.{IsKnownTable};
ghost use Rattle.kleene_filter.specs.Blocks.{AreTruthsFrom, HoldsAtBest};
ghost use Rattle.kleene_filter.specs.Filters.{truths_at};
ghost use Rattle.kleene_filter.specs.Masks.{atoms_of, AreMasksOf, AreRowsOf, Follows};
ghost use Rattle.kleene_filter.specs.Words.{AreTruthsAt};

use crate::atoms::atom_at;
use crate::block_truths::{self, BlockTruths, all, and, not, or, or_at_best};
use crate::masks::AtomMasks;
use crate::nulls::null_truths;
use crate::words::{self, TruthWords};
use known_column::{KnownRows, LentColumns};
use query_model::{Atom, Pred};

// Some rows of a block of 512: those from the first of a word up to one that is not among them. What is read row by row has them from
// `first` on.
#[derive(Clone, Copy)]
pub(crate) struct Place {
    pub(crate) block: usize,
    pub(crate) word: usize,
    pub(crate) to: usize,
    pub(crate) first: usize,
}

// The truths of an atom at so many rows from the first on, row by row.
fn word_by_rows<R: KnownRows>(atom: &Atom, rows: &R, first: usize, count: usize) -> TruthWords
    requires columns { AtomReadsBelow (length (R.table rows.now).frame.columns) atom.now }
    requires within { first + count ≤ (R.table rows.now).frame.rows }
    requires first { first ≤ 16777216 + 512 }
    requires few { count ≤ 64 }
    ensures { AreTruthsAt count
        (λ r. truths_of_atom atom.now (ranges_of (R.table rows.now).frame (R.table rows.now).known (first + r))) result }
{
    let mut words = words::none();
    for row in 0..count {
        words = words.with(row, atom_at(atom, first + row, rows));
    }
    words
}

// The same at the rows of a place, word by word.
fn truths_by_rows<R: KnownRows>(atom: &Atom, rows: &R, place: Place) -> BlockTruths
    requires columns { AtomReadsBelow (length (R.table rows.now).frame.columns) atom.now }
    requires within { place.first + place.to ≤ (R.table rows.now).frame.rows + 64 * place.word }
    requires first { place.first ≤ 16777216 }
    requires few { place.to ≤ 512 }
    ensures { AreTruthsFrom (64 * place.word) place.to
        (λ row. truths_of_atom atom.now
        (ranges_of (R.table rows.now).frame (R.table rows.now).known (place.first + (row - 64 * place.word)))) result }
{
    let mut truths = block_truths::none();
    for word in place.word..place.to.div_ceil(64) {
        let first = place.first + 64 * (word - place.word);
        let count = (place.to - 64 * word).min(64);
        truths = truths.with_words(word, word_by_rows(atom, rows, first, count));
    }
    truths
}

// The truths of an atom at the rows of a place, by its masks or row by row.
fn atom_truths<R: KnownRows>(
    atom: &Atom,
    masks: &AtomMasks,
    columns: &LentColumns<'_>,
    rows: &R,
    place: Place,
) -> BlockTruths
    requires columns { AtomReadsBelow (length columns.now.frame.columns) atom.now }
    requires follows { Follows masks.now atom.now columns.now }
    requires known { IsKnownTable columns.now }
    requires block { 512 * place.block < columns.now.frame.rows }
    requires rows { AreRowsOf columns.now place (R.table rows.now) }
    ensures { AreTruthsFrom (64 * place.word) place.to
        (λ row. truths_of_atom atom.now (ranges_of columns.now.frame columns.now.known (512 * place.block + row))) result }
{
    match masks {
        AtomMasks::ByRows => truths_by_rows(atom, rows, place),
        AtomMasks::Null { column } => null_truths(columns.column(*column), place.block),
        AtomMasks::Compared(compared) => compared.truths(columns, place.block),
        AtomMasks::Ranged(ranged) => ranged.truths(columns, place.block),
        AtomMasks::Member(membership) => membership.truths(columns, place.block),
    }
}

// The rows of a block at which an atom may hold, where it may fail in any case and is nowhere null.
fn atom_at_best(
    atom: &Atom,
    masks: &AtomMasks,
    columns: &LentColumns<'_>,
    block: usize,
) -> Option<[u64; 8]>
    requires columns { AtomReadsBelow (length columns.now.frame.columns) atom.now }
    requires follows { Follows masks.now atom.now columns.now }
    requires known { IsKnownTable columns.now }
    requires block { 512 * block < columns.now.frame.rows }
    ensures { IfSome result (HoldsAtBest (block_rows columns.now.frame.rows block)
        (λ row. truths_of_atom atom.now (ranges_of columns.now.frame columns.now.known (512 * block + row)))) }
{
    match masks {
        AtomMasks::Compared(compared) => compared.at_best(columns, block),
        AtomMasks::ByRows | AtomMasks::Null { .. } | AtomMasks::Ranged(_) | AtomMasks::Member(_) =>
            None,
    }
}

// The same for a condition that is an atom, whose masks stand at a place.
fn pred_at_best(
    pred: &Pred,
    masks: &[AtomMasks],
    at: usize,
    columns: &LentColumns<'_>,
    block: usize,
) -> Option<[u64; 8]>
    requires columns { PredReadsBelow (length columns.now.frame.columns) (condition_of pred.now) }
    requires masks { AreMasksOf masks.now at (atoms_of (condition_of pred.now)) columns.now }
    requires known { IsKnownTable columns.now }
    requires block { 512 * block < columns.now.frame.rows }
    ensures one { IfSome result (λ rows. length (atoms_of (condition_of pred.now)) ≡ 1) }
    ensures rows { IfSome result (HoldsAtBest (block_rows columns.now.frame.rows block)
        (λ row. truths_at (condition_of pred.now) columns.now (512 * block + row))) }
{
    match pred {
        Pred::Atom(atom) => atom_at_best(atom, &masks[at], columns, block),
        Pred::All | Pred::And(_, _) | Pred::Or(_, _) | Pred::Not(_) => None,
    }
}

// The truths of a condition at rows of a block, and the place behind the masks of its atoms.
#[derive(Clone, Copy)]
pub(crate) struct Judged {
    pub(crate) truths: BlockTruths,
    pub(crate) next: usize,
}

// The truths of the condition at the rows of a place. The masks of its atoms stand from a number on in their order.
pub(crate) fn pred_truths<R: KnownRows>(
    pred: &Pred,
    masks: &[AtomMasks],
    at: usize,
    columns: &LentColumns<'_>,
    rows: &R,
    place: Place,
) -> Judged
    requires columns { PredReadsBelow (length columns.now.frame.columns) (condition_of pred.now) }
    requires masks { AreMasksOf masks.now at (atoms_of (condition_of pred.now)) columns.now }
    requires known { IsKnownTable columns.now }
    requires block { 512 * place.block < columns.now.frame.rows }
    requires rows { AreRowsOf columns.now place (R.table rows.now) }
    ensures truths { AreTruthsFrom (64 * place.word) place.to
        (λ row. truths_at (condition_of pred.now) columns.now (512 * place.block + row)) result.truths }
    ensures next { result.next ≡ at + length (atoms_of (condition_of pred.now)) }
{
    match pred {
        Pred::All => Judged {
            truths: all(),
            next: at,
        },
        Pred::Atom(atom) => Judged {
            truths: atom_truths(atom, &masks[at], columns, rows, place),
            next: at + 1,
        },
        Pred::And(a, b) => {
            let left = pred_truths(a, masks, at, columns, rows, place);
            let right = pred_truths(b, masks, left.next, columns, rows, place);
            Judged {
                truths: and(&left.truths, &right.truths),
                next: right.next,
            }
        }
        Pred::Or(a, b) => {
            let left = pred_truths(a, masks, at, columns, rows, place);
            if let Some(added) = pred_at_best(b, masks, left.next, columns, place.block) {
                return Judged {
                    truths: or_at_best(&left.truths, &added),
                    next: left.next + 1,
                };
            }
            let right = pred_truths(b, masks, left.next, columns, rows, place);
            Judged {
                truths: or(&left.truths, &right.truths),
                next: right.next,
            }
        }
        Pred::Not(a) => {
            let inner = pred_truths(a, masks, at, columns, rows, place);
            Judged {
                truths: not(&inner.truths),
                next: inner.next,
            }
        }
    }
}
