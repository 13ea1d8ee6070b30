//! Why a file is refused.

ghost use Rattle.std.specs.Prelude.{◌≡◌};
ghost use Rattle.plane_file.specs.declared.file_fault.FileFault.TheVariants.{NoMemory};

use std::alloc::{AllocError, AllocFailed};
use thiserror::Error;

/// Why the bytes of a store are no file of a table, or why they could not be read. Of several faults of the bytes the one
/// that a reader from front to back meets first is answered. Places are counted from 0, from the file's first byte.
#[derive(Clone, Copy, Debug, PartialEq, Eq, Error)]
pub enum FileFault {
    /// The first eight bytes are not those of a plane file.
    #[error("not a plane file")]
    BadMagic,
    /// The version is neither 1 nor 2.
    #[error("version {found}")]
    UnknownVersion { found: u32 },
    /// The field at that place has a value that it cannot have, or does not end within the heads.
    #[error("bad head at {at}")]
    BadHead { at: u64 },
    /// The number at that place passes its limit.
    #[error("limit passed at {at}")]
    LimitPassed { at: u64 },
    /// The store has so many bytes, and not as many as wanted.
    #[error("size {found}, not {wanted}")]
    WrongSize { found: u64, wanted: u64 },
    /// The store had no byte at a place before its size.
    #[error("the store ended early")]
    WentShort,
    /// The store failed.
    #[error("read fault")]
    Fault,
    /// Memory ran out.
    #[error("no memory")]
    NoMemory,
}

impl From<AllocError> for FileFault {
    ghost from_gives = { λ _ e. e ≡ NoMemory };

    fn from(_: AllocError) -> Self {
        FileFault::NoMemory
    }
}

impl<T: Drop> From<AllocFailed<T>> for FileFault {
    ghost from_gives = { λ _ e. e ≡ NoMemory };

    fn from(_: AllocFailed<T>) -> Self {
        FileFault::NoMemory
    }
}
