//! What holds of the lines of queries. Each law stands on a function that does nothing.

ghost use Rattle.query_kinds.specs.Beside.{BesidesAreOne};
ghost use Rattle.query_kinds.specs.Kinds.{KindsAreOne};
ghost use Rattle.query_kinds.specs.Rows.{RowsAreOne};

use sql_text::one_answer;

/// A line asks for items of one shape at most, and then has no fault but want of memory.
pub fn kinds_are_one()
    ensures { KindsAreOne }
{
    one_answer();
}

/// What stands beside the aggregates of a query is one list, with a place for each of them.
pub fn besides_are_one()
    ensures { BesidesAreOne }
{
    one_answer();
}

/// A line asks for first rows in one way at most, and then for no totals and no groups.
pub fn rows_are_one()
    ensures { RowsAreOne }
{
    one_answer();
}
