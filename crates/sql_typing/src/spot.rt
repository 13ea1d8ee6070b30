//! Where a value stands among the numbers of a column.

ghost use Rattle.std.specs.Prelude.{◌≡◌};
ghost use Rattle.sql_typing.specs.Typing.{compared, high_end, low_end, member, op_of};

use query_model::{Atom, Comparison};
use sql_text::Comparison as Written;

/// A value is a number of the column, or a text that is no name: so many names come before it.
#[derive(Clone, Copy, Debug, PartialEq, Eq)]
pub(crate) enum Spot {
    At(i128),
    Before(u64),
}

/// No rank of a name.
const NO_RANK: i128 = -1;

/// The operator of a typed condition.
pub(crate) fn op_of(op: Written) -> Comparison
    ensures { result ≡ op_of op }
{
    match op {
        Written::Eq => Comparison::Eq,
        Written::Ne => Comparison::Ne,
        Written::Lt => Comparison::Lt,
        Written::Le => Comparison::Le,
        Written::Gt => Comparison::Gt,
        Written::Ge => Comparison::Ge,
    }
}

impl Spot {
    /// The low end of a BETWEEN.
    pub(crate) fn low_end(self) -> i128
        ensures { result ≡ low_end self }
    {
        match self {
            Spot::At(value) => value,
            Spot::Before(rank) => rank as i128,
        }
    }

    /// The high end of a BETWEEN.
    pub(crate) fn high_end(self) -> i128
        ensures { result ≡ high_end self }
    {
        match self {
            Spot::At(value) => value,
            Spot::Before(rank) => rank as i128 - 1,
        }
    }

    /// A value of an IN.
    pub(crate) fn member(self) -> i128
        ensures { result ≡ member self }
    {
        match self {
            Spot::At(value) => value,
            Spot::Before(_) => NO_RANK,
        }
    }

    /// The comparison with a column's number.
    pub(crate) fn compared(self, column: u8, op: Written) -> Atom
        ensures { result ≡ compared column op self }
    {
        let (op, value) = match self {
            Spot::At(value) => (op_of(op), value),
            Spot::Before(rank) => match op {
                Written::Eq => (Comparison::Eq, NO_RANK),
                Written::Ne => (Comparison::Ne, NO_RANK),
                Written::Lt | Written::Le => (Comparison::Lt, rank as i128),
                Written::Gt | Written::Ge => (Comparison::Ge, rank as i128),
            },
        };
        Atom::Compare { column, op, value }
    }
}

/// The condition that a column's number lies between two values.
pub(crate) fn between(column: u8, low: Spot, high: Spot) -> Atom
    ensures { result ≡ Atom.Between column (low_end low) (high_end high) }
{
    Atom::Between {
        column,
        low: low.low_end(),
        high: high.high_end(),
    }
}
