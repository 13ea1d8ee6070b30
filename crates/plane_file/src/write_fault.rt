//! Why a file is not written.

ghost use Rattle.std.specs.Prelude.{◌≡◌};
ghost use Rattle.plane_file.specs.declared.write_fault.FileWriteFault.TheVariants.{NoMemory};

use std::alloc::{AllocError, AllocFailed};
use thiserror::Error;

/// Why a file is not written.
#[derive(Clone, Copy, Debug, PartialEq, Eq, Error)]
pub enum FileWriteFault {
    /// The sink failed.
    #[error("write fault")]
    Fault,
    /// Memory ran out, before the first byte.
    #[error("no memory")]
    NoMemory,
}

impl From<AllocError> for FileWriteFault {
    ghost from_gives = { λ _ e. e ≡ NoMemory };

    fn from(_: AllocError) -> Self {
        FileWriteFault::NoMemory
    }
}

impl<T: Drop> From<AllocFailed<T>> for FileWriteFault {
    ghost from_gives = { λ _ e. e ≡ NoMemory };

    fn from(_: AllocFailed<T>) -> Self {
        FileWriteFault::NoMemory
    }
}
