//! Why a word is no list of reads.

ghost use Rattle.std.specs.Prelude.{◌≡◌};
ghost use Rattle.plane_reads.specs.declared.fault.ReadsFault.TheVariants.{NoMemory};

use std::alloc::{AllocError, AllocFailed};
use thiserror::Error;

/// Why a word is no list of reads, or that memory ran out. The place is that of the first name at fault, counted from 0.
#[derive(Debug, PartialEq, Eq, Drop, Error)]
pub enum ReadsFault {
    /// The name is no column of the query.
    #[error("name {place} is no column of the query")]
    UnknownName { place: usize },
    /// The column has no plane left at that place.
    #[error("the column of name {place} has no plane left")]
    PastEnd { place: usize },
    /// Memory ran out.
    #[error("no memory")]
    NoMemory,
}

impl From<AllocError> for ReadsFault {
    ghost from_gives = { λ _ e. e ≡ NoMemory };

    fn from(_: AllocError) -> Self {
        ReadsFault::NoMemory
    }
}

impl<T: Drop> From<AllocFailed<T>> for ReadsFault {
    ghost from_gives = { λ _ e. e ≡ NoMemory };

    fn from(_: AllocFailed<T>) -> Self {
        ReadsFault::NoMemory
    }
}
