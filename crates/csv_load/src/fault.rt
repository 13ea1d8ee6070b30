//! Why a CSV is refused.

ghost use Rattle.std.specs.Prelude.{◌≡◌};
ghost use Rattle.csv_load.specs.declared.fault.TableFault.TheVariants.{NoMemory};

use std::alloc::{AllocError, AllocFailed};
use thiserror::Error;

/// Why a CSV stands for no table, or that memory ran out. The header is record 0, and columns count from 0, those that are
/// skipped with them. Of several faults that of the first record is answered; within a record the one that stands first here, cell by
/// cell.
#[derive(Debug, PartialEq, Eq, Drop, Error)]
pub enum TableFault {
    /// There is no record.
    #[error("no header")]
    NoHeader,
    /// The header and the names of the schema's items differ first at that column.
    #[error("header differs at column {column}, counted from 0")]
    HeaderDiffers {
        column: usize,
    },
    /// There is a row past the limit of rows.
    #[error("more than {limit} rows")]
    TooManyRows {
        limit: u64,
    },
    /// The rows up to the record have so many cells, which is past the limit of cells. A skipped field makes none.
    #[error("{count} cells")]
    TooManyCells {
        count: u64,
    },
    /// The record has `got` fields, and the schema `want` items.
    #[error("record {entry}, counted from 0, has {got} fields, not {want}")]
    UnequalLength {
        entry: usize,
        got: usize,
        want: usize,
    },
    /// The cell is no value of its column's kind, and not null.
    #[error("record {entry} column {column}, counted from 0, is no value of its kind")]
    BadCell {
        entry: usize,
        column: usize,
    },
    /// A cell brings the column a name past the limit of names.
    #[error("column {column}, counted from 0, has too many names")]
    TooManyNames {
        column: usize,
    },
    /// Memory ran out.
    #[error("no memory")]
    NoMemory,
}

impl From<AllocError> for TableFault {
    ghost from_gives = { λ _ e. e ≡ NoMemory };

    fn from(_: AllocError) -> Self {
        TableFault::NoMemory
    }
}

impl<T: Drop> From<AllocFailed<T>> for TableFault {
    ghost from_gives = { λ _ e. e ≡ NoMemory };

    fn from(_: AllocFailed<T>) -> Self {
        TableFault::NoMemory
    }
}
