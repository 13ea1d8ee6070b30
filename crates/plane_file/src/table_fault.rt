//! Why no table is read from a file.

ghost use Rattle.std.specs.Prelude.{◌≡◌};
ghost use Rattle.plane_file.specs.TableReading.{refusal_of};
ghost use Rattle.plane_file.specs.declared.table_fault.TableReadFault.TheVariants.{NoMemory, Plane};

use crate::file_fault::FileFault;
use crate::plane_fault::PlaneFault;
use std::alloc::{AllocError, AllocFailed};
use thiserror::Error;

/// Why the bytes of a store are the file of no table, or why they could not be read. Of several faults of the bytes the one
/// that a reader from front to back meets first is answered. Columns, planes and rows count from 0.
#[derive(Clone, Copy, Debug, PartialEq, Eq, Error)]
pub enum TableReadFault {
    /// The file is not opened, for another reason than want of memory.
    #[error("{0}")]
    File(FileFault),
    /// A plane is not read.
    #[error("{0}")]
    Plane(PlaneFault),
    /// With this plane a row, the first such, has the code of no cell: a number past its column's top, or a digit of 1 behind null.
    #[error("column {column} plane {plane} row {row} passes its top")]
    OverTop {
        column: usize,
        plane: u8,
        row: usize,
    },
    /// Memory ran out.
    #[error("no memory")]
    NoMemory,
}

impl From<FileFault> for TableReadFault {
    ghost from_gives = { λ fault e. e ≡ refusal_of fault };

    fn from(fault: FileFault) -> Self {
        match fault {
            FileFault::NoMemory => TableReadFault::NoMemory,
            FileFault::BadMagic
            | FileFault::UnknownVersion { .. }
            | FileFault::BadHead { .. }
            | FileFault::LimitPassed { .. }
            | FileFault::WrongSize { .. }
            | FileFault::WentShort
            | FileFault::Fault => TableReadFault::File(fault),
        }
    }
}

impl From<PlaneFault> for TableReadFault {
    ghost from_gives = { λ fault e. e ≡ Plane fault };

    fn from(fault: PlaneFault) -> Self {
        TableReadFault::Plane(fault)
    }
}

impl From<AllocError> for TableReadFault {
    ghost from_gives = { λ _ e. e ≡ NoMemory };

    fn from(_: AllocError) -> Self {
        TableReadFault::NoMemory
    }
}

impl<T: Drop> From<AllocFailed<T>> for TableReadFault {
    ghost from_gives = { λ _ e. e ≡ NoMemory };

    fn from(_: AllocFailed<T>) -> Self {
        TableReadFault::NoMemory
    }
}
