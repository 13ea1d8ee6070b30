//! Columns of a query by their names.

ghost use Rattle.std.specs.Prelude.{◌≡◌, ◌==◌, ℕ, count_by, IfSome, IfNone};
ghost use Rattle.query_model.specs.Validity.{IsValid};
ghost use Rattle.plane_reads.specs.Reads.{IsNamed};

use daq_table::Head;
use query_model::TypedQuery;

// The query's column of that name.
pub(crate) fn column_named(name: &[u8], query: &TypedQuery, head: &Head) -> Option<u8>
    requires { IsValid head.now query.now }
    ensures some { IfSome result (λ c. IsNamed query.now head.now c name.now) }
    ensures none { IfNone result ((c : ℕ) → ¬ IsNamed query.now head.now c name.now) }
{
    for column in 0..query.columns.as_slice().len() {
        let place = query.columns.as_slice()[column];
        if head.columns.as_slice()[place].name.as_slice() == name {
            return Some(column as u8);
        }
    }
    None
}

// How often a column stands in a list.
pub(crate) fn count_of(column: u8, columns: &[u8]) -> usize
    ensures { result ≡ count_by (λ d. d == column) columns.now }
{
    columns.iter().filter(|other| **other == column).count()
}
