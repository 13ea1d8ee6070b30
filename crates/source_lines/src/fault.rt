//! Why no further line is read.

ghost use Rattle.std.specs.Prelude.{◌≡◌};
ghost use Rattle.source_lines.specs.declared.fault.LineFault.TheVariants.{Fault, NoMemory};

use outer_world::Failed;
use std::alloc::{AllocError, AllocFailed};
use thiserror::Error;

/// Why no further line is read.
#[derive(Debug, PartialEq, Eq, Drop, Error)]
pub enum LineFault {
    /// The source failed.
    #[error("the source failed")]
    Fault,
    /// The line has more bytes than a line may have.
    #[error("the line is too long")]
    LineTooLong,
    /// More bytes came than may come in all.
    #[error("the input is too long")]
    TooLong,
    /// Memory ran out.
    #[error("no memory")]
    NoMemory,
}

impl From<Failed> for LineFault {
    ghost from_gives = { λ _ e. e ≡ Fault };

    fn from(_: Failed) -> Self {
        LineFault::Fault
    }
}

impl From<AllocError> for LineFault {
    ghost from_gives = { λ _ e. e ≡ NoMemory };

    fn from(_: AllocError) -> Self {
        LineFault::NoMemory
    }
}

impl<T: Drop> From<AllocFailed<T>> for LineFault {
    ghost from_gives = { λ _ e. e ≡ NoMemory };

    fn from(_: AllocFailed<T>) -> Self {
        LineFault::NoMemory
    }
}
