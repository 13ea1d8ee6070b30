//! Why the text of a schema is refused.

ghost use Rattle.std.specs.Prelude.{◌≡◌};
ghost use Rattle.daq_table.specs.declared.schema_fault.SchemaFault.TheVariants.{NoMemory};

use std::alloc::{AllocError, AllocFailed};
use thiserror::Error;

/// Why a text is no schema, or that memory ran out. Where more than one holds, the first named here is answered.
#[derive(Debug, PartialEq, Eq, Drop, Error)]
pub enum SchemaFault {
    /// The item at that byte is the first that has not the form of one.
    #[error("schema item at {at}")]
    BadItem { at: usize },
    /// There are more than 64 items that are not skipped.
    #[error("{count} schema items")]
    TooMany { count: usize },
    /// There are more than 1,024 items with those that are skipped.
    #[error("{count} schema items with those skipped")]
    TooManyItems { count: usize },
    /// All items are skipped.
    #[error("all schema items are skipped")]
    NoColumn,
    /// Two items have one name. The second is the first that repeats an earlier one.
    #[error("schema items {first} and {second}, counted from 0, have one name")]
    RepeatedName { first: usize, second: usize },
    /// Memory ran out.
    #[error("no memory")]
    NoMemory,
}

impl From<AllocError> for SchemaFault {
    ghost from_gives = { λ _ e. e ≡ NoMemory };

    fn from(_: AllocError) -> Self {
        SchemaFault::NoMemory
    }
}

impl<T: Drop> From<AllocFailed<T>> for SchemaFault {
    ghost from_gives = { λ _ e. e ≡ NoMemory };

    fn from(_: AllocFailed<T>) -> Self {
        SchemaFault::NoMemory
    }
}
