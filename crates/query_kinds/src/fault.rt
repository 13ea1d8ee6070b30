//! Why a line is none of a query of totals or groups.

ghost use Rattle.std.specs.Prelude.{◌≡◌};
ghost use Rattle.query_kinds.specs.declared.fault.KindsFault.TheVariants.{NoMemory};

use std::alloc::{AllocError, AllocFailed};
use thiserror::Error;

/// Why a line is none of a query of totals or groups, or that memory ran out.
#[derive(Debug, PartialEq, Eq, Drop, Error)]
pub enum KindsFault {
    /// The line is none of a query.
    #[error("no query")]
    NoQuery,
    /// The query asks for rows, for columns without groups, or for groups without an aggregate.
    #[error("no query of totals or groups")]
    NoTotals,
    /// Memory ran out.
    #[error("no memory")]
    NoMemory,
}

impl From<AllocError> for KindsFault {
    ghost from_gives = { λ _ e. e ≡ NoMemory };

    fn from(_: AllocError) -> Self {
        KindsFault::NoMemory
    }
}

impl<T: Drop> From<AllocFailed<T>> for KindsFault {
    ghost from_gives = { λ _ e. e ≡ NoMemory };

    fn from(_: AllocFailed<T>) -> Self {
        KindsFault::NoMemory
    }
}
