//! Why there is no combined report.

ghost use Rattle.std.specs.Prelude.{◌≡◌};
ghost use Rattle.shard_groups.specs.declared.fault.GroupFault.TheVariants.{NoMemory as NoRoom};

use std::alloc::{AllocError, AllocFailed};
use thiserror::Error;

/// Why the reports of some shards have no combined report.
#[derive(Clone, Copy, Debug, PartialEq, Eq, Drop, Error)]
pub enum GroupFault {
    /// An end of this item, counted from 0, is not an `i128`.
    #[error("item {0} is too wide")]
    TooWide(usize),
    #[error("no memory")]
    NoMemory,
}

impl From<AllocError> for GroupFault {
    ghost from_gives = { λ _ e. e ≡ NoRoom };

    fn from(_: AllocError) -> Self {
        GroupFault::NoMemory
    }
}

impl<T: Drop> From<AllocFailed<T>> for GroupFault {
    ghost from_gives = { λ _ e. e ≡ NoRoom };

    fn from(_: AllocFailed<T>) -> Self {
        GroupFault::NoMemory
    }
}
