//! What is known of a condition on one column or on two, at a row.

ghost use Rattle.std.specs.Prelude.{◌≡◌, ◌<◌, length};
ghost use Rattle.query_model.specs.Knowledge.{ranges_of};
ghost use Rattle.query_model.specs.Meaning.{AtomReadsBelow};
ghost use Rattle.query_model.specs.Truths.{truths_of_atom};

use crate::ranges::{compared, compared_with, is_one_of, lies_between};
use crate::truths::{test_of_null, test_of_one, test_of_two};
use known_column::KnownRows;
use query_model::{Atom, Truths};

// The truths of a condition on one column or on two.
pub(crate) fn atom_at<R: KnownRows>(atom: &Atom, row: usize, rows: &R) -> Truths
    requires columns { AtomReadsBelow (length (R.table rows.now).frame.columns) atom.now }
    requires row { row < (R.table rows.now).frame.rows }
    ensures { result ≡ truths_of_atom atom.now (ranges_of (R.table rows.now).frame (R.table rows.now).known row) }
{
    match atom {
        Atom::Compare { column, op, value } => {
            let range = rows.range(*column as usize, row);
            let on_numbers = compared_with(*op, range, *value);
            test_of_one(rows.missing(*column as usize, row), on_numbers)
        }
        Atom::CompareColumns { left, op, right } => {
            let first = rows.range(*left as usize, row);
            let second = rows.range(*right as usize, row);
            test_of_two(
                rows.missing(*left as usize, row),
                rows.missing(*right as usize, row),
                compared(*op, first, second),
            )
        }
        Atom::Between { column, low, high } => {
            let range = rows.range(*column as usize, row);
            let on_numbers = lies_between(range, *low, *high);
            test_of_one(rows.missing(*column as usize, row), on_numbers)
        }
        Atom::OneOf { column, values } => {
            let range = rows.range(*column as usize, row);
            let on_numbers = is_one_of(range, values.as_slice());
            test_of_one(rows.missing(*column as usize, row), on_numbers)
        }
        Atom::IsNull { column } => test_of_null(rows.missing(*column as usize, row)),
    }
}
