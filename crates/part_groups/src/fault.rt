//! Why the reports of parts are not combined.

ghost use Rattle.std.specs.Prelude.{◌≡◌};
ghost use Rattle.shard_groups.specs.declared.fault.GroupFault.{GroupFault};
ghost use Rattle.part_groups.specs.Faults.{fault_of};
ghost use Rattle.part_groups.specs.declared.fault.CombineFault.TheVariants.{NoMemory as NoRoom};

use shard_groups::GroupFault;
use std::alloc::{AllocError, AllocFailed};
use thiserror::Error;

/// Why the reports by groups of some parts are not combined.
#[derive(Clone, Copy, Debug, PartialEq, Eq, Drop, Error)]
pub enum CombineFault {
    /// Two lines write the values of this column, counted from 0, in other forms.
    #[error("column {0}: another form")]
    OtherColumn(usize),
    /// Two lines write the answers of this item, counted from 0, in other forms.
    #[error("item {0}: another form")]
    OtherItem(usize),
    /// An end of this item has more than 128 bits, a number of rows more than 64, or a date no text.
    #[error("item {0}: too wide")]
    TooWide(usize),
    /// Memory ran out.
    #[error("no memory")]
    NoMemory,
}

impl From<GroupFault> for CombineFault {
    ghost from_gives = { λ why e. e ≡ fault_of why };

    fn from(why: GroupFault) -> Self {
        match why {
            GroupFault::TooWide(item) => CombineFault::TooWide(item),
            GroupFault::NoMemory => CombineFault::NoMemory,
        }
    }
}

impl From<AllocError> for CombineFault {
    ghost from_gives = { λ _ e. e ≡ NoRoom };

    fn from(_: AllocError) -> Self {
        CombineFault::NoMemory
    }
}

impl<T: Drop> From<AllocFailed<T>> for CombineFault {
    ghost from_gives = { λ _ e. e ≡ NoRoom };

    fn from(_: AllocFailed<T>) -> Self {
        CombineFault::NoMemory
    }
}
