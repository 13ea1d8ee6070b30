//! Why the rows of parts are not combined.

ghost use Rattle.std.specs.Prelude.{◌≡◌};
ghost use Rattle.part_rows.specs.declared.fault.RowsFault.TheVariants.{NoMemory as NoRoom};

use std::alloc::{AllocError, AllocFailed};
use thiserror::Error;

/// Why the rows that some parts list are not combined.
#[derive(Clone, Copy, Debug, PartialEq, Eq, Drop, Error)]
pub enum RowsFault {
    /// The tag of this part, counted from 0, has a space or a control character: joined by spaces, tags might not be told apart.
    #[error("part {0}: a space or a control character in its tag")]
    UnclearTag(usize),
    /// Two rows write their keys in other forms.
    #[error("another form")]
    OtherForm,
    /// Memory ran out.
    #[error("no memory")]
    NoMemory,
}

impl From<AllocError> for RowsFault {
    ghost from_gives = { λ _ e. e ≡ NoRoom };

    fn from(_: AllocError) -> Self {
        RowsFault::NoMemory
    }
}

impl<T: Drop> From<AllocFailed<T>> for RowsFault {
    ghost from_gives = { λ _ e. e ≡ NoRoom };

    fn from(_: AllocFailed<T>) -> Self {
        RowsFault::NoMemory
    }
}
