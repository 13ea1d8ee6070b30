//! How large a table may be.

/// The greatest numbers of rows, of cells, and of names in one column's dictionary.
#[derive(Clone, Copy, Debug, PartialEq, Eq)]
pub struct Limits {
    pub rows: u64,
    pub cells: u64,
    pub names: u64,
}

impl Limits {
    /// The limits that no others may pass: 2^24 rows, 2^27 cells and 2^16 names.
    pub const PROFILE: Limits = Limits {
        rows: 16_777_216,
        cells: 134_217_728,
        names: 65_536,
    };
}
