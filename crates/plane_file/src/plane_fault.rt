//! Why a plane is not read.

use thiserror::Error;

/// Why a plane is not read. Columns are those of the table; both numbers count from 0.
#[derive(Clone, Copy, Debug, PartialEq, Eq, Error)]
pub enum PlaneFault {
    /// The store failed.
    #[error("read fault")]
    Fault,
    /// A bit past the last row is 1.
    #[error("column {column} plane {plane} has pad bits")]
    PadBits { column: usize, plane: u8 },
    /// The store had no byte at a place of the plane.
    #[error("the store ended early")]
    WentShort,
}
