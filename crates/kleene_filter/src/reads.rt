//! Which columns a condition reads.

ghost use Rattle.std.specs.Prelude.{◌≡◌};
ghost use Rattle.query_model.specs.Meaning.{columns_of_atom, columns_of_pred};
ghost use Rattle.query_model.specs.Queries.{condition_of};
ghost use Rattle.kleene_filter.specs.Filters.{stands_in};

use query_model::{Atom, Pred};

// Whether an atom reads the column.
fn atom_reads(atom: &Atom, wanted: usize) -> bool
    ensures { result ≡ stands_in (columns_of_atom atom.now) wanted }
{
    match atom {
        Atom::Compare { column, .. } => *column as usize == wanted,
        Atom::CompareColumns { left, right, .. } => {
            *left as usize == wanted || *right as usize == wanted
        }
        Atom::Between { column, .. } => *column as usize == wanted,
        Atom::OneOf { column, .. } => *column as usize == wanted,
        Atom::IsNull { column } => *column as usize == wanted,
    }
}

/// Whether a condition reads the column.
pub fn pred_reads(pred: &Pred, wanted: usize) -> bool
    ensures { result ≡ stands_in (columns_of_pred (condition_of pred.now)) wanted }
{
    match pred {
        Pred::All => false,
        Pred::Atom(atom) => atom_reads(atom, wanted),
        Pred::And(a, b) => pred_reads(a, wanted) || pred_reads(b, wanted),
        Pred::Or(a, b) => pred_reads(a, wanted) || pred_reads(b, wanted),
        Pred::Not(a) => pred_reads(a, wanted),
    }
}
