//! Why a query is refused.

ghost use Rattle.std.specs.Prelude.{◌≡◌};
ghost use Rattle.sql_typing.specs.declared.fault.TypeFault.TheVariants.{NoMemory};

use std::alloc::{AllocError, AllocFailed};
use thiserror::Error;

/// Why a query cannot be answered on a table, or that memory ran out. Places are bytes of the text. Where a query has
/// several faults, the answer is the one that stands first in this list; but of the faults of kinds, scales, groups,
/// values and the limit it is the one at the least place.
#[derive(Debug, PartialEq, Eq, Drop, Error)]
pub enum TypeFault {
    /// The table is not named `t`.
    #[error("unknown table at {at}")]
    UnknownTable { at: usize },
    /// The first name that no column has.
    #[error("unknown column at {at}")]
    UnknownColumn { at: usize },
    /// More than 16 columns are named.
    #[error("more than 16 columns")]
    TooManyColumns,
    /// More than 16 aggregates are asked for.
    #[error("more than 16 aggregates")]
    TooManyItems,
    /// A column or a value of a kind that does not suit there.
    #[error("kinds differ at {at}")]
    KindsDiffer { at: usize },
    /// More decimals than the column's, or than 18 in an expression.
    #[error("scale too fine at {at}")]
    ScaleTooFine { at: usize },
    /// A selected name that is not in GROUP BY.
    #[error("not grouped at {at}")]
    NotGrouped { at: usize },
    /// The 65th value of an IN.
    #[error("too many values at {at}")]
    TooManyValues { at: usize },
    /// A LIMIT that is no whole number from 1 to 1,000.
    #[error("limit out of range at {at}")]
    LimitOutOfRange { at: usize },
    /// The cells of the group columns have more than 16 binary digits together.
    #[error("group of {bits} bits")]
    GroupTooWide { bits: u32 },
    /// A value or a sum of that aggregate may leave 128 bits.
    #[error("item {item}, counted from 0, too wide")]
    TooWide { item: usize },
    /// Memory ran out.
    #[error("no memory")]
    NoMemory,
}

impl From<AllocError> for TypeFault {
    ghost from_gives = { λ _ e. e ≡ NoMemory };

    fn from(_: AllocError) -> Self {
        TypeFault::NoMemory
    }
}

impl<T: Drop> From<AllocFailed<T>> for TypeFault {
    ghost from_gives = { λ _ e. e ≡ NoMemory };

    fn from(_: AllocFailed<T>) -> Self {
        TypeFault::NoMemory
    }
}
