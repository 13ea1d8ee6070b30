//! Why no table is made.

ghost use Rattle.std.specs.Prelude.{◌≡◌};
ghost use Rattle.table_gen.specs.declared.fault.GenFault.TheVariants.{NoMemory};

use std::alloc::{AllocError, AllocFailed};
use thiserror::Error;

/// Why no table is made.
#[derive(Debug, PartialEq, Eq, Drop, Error)]
pub enum GenFault {
    /// There would be more rows than a table may have.
    #[error("too many rows")]
    TooMany,
    /// Memory ran out.
    #[error("no memory")]
    NoMemory,
}

impl From<AllocError> for GenFault {
    ghost from_gives = { λ _ e. e ≡ NoMemory };

    fn from(_: AllocError) -> Self {
        GenFault::NoMemory
    }
}

impl<T: Drop> From<AllocFailed<T>> for GenFault {
    ghost from_gives = { λ _ e. e ≡ NoMemory };

    fn from(_: AllocFailed<T>) -> Self {
        GenFault::NoMemory
    }
}
