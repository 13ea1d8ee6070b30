//! Why bytes are no script.

ghost use Rattle.std.specs.Prelude.{◌≡◌};
ghost use Rattle.session_script.specs.declared.fault.ScriptFault.TheVariants.{NoMemory};

use std::alloc::{AllocError, AllocFailed};
use thiserror::Error;

/// Why bytes are no script, or that memory ran out. Of several faults the one that stands first here is told.
#[derive(Debug, PartialEq, Eq, Drop, Error)]
pub enum ScriptFault {
    /// It has more bytes than so many.
    #[error("longer than {limit} bytes")]
    TooLong { limit: usize },
    /// The byte at that place, counted from 0, is the first that belongs to no character of UTF-8.
    #[error("no text at {at}")]
    NoText { at: usize },
    /// All lines are blank.
    #[error("no query")]
    NoQuery,
    /// It has so many queries, which is past their limit.
    #[error("{count} queries")]
    TooMany { count: usize },
    /// Memory ran out.
    #[error("no memory")]
    NoMemory,
}

impl From<AllocError> for ScriptFault {
    ghost from_gives = { λ _ e. e ≡ NoMemory };

    fn from(_: AllocError) -> Self {
        ScriptFault::NoMemory
    }
}

impl<T: Drop> From<AllocFailed<T>> for ScriptFault {
    ghost from_gives = { λ _ e. e ≡ NoMemory };

    fn from(_: AllocFailed<T>) -> Self {
        ScriptFault::NoMemory
    }
}
