//! Where a cell stands.

/// The place of a cell: its record, of which the header is the first, and its column.
#[derive(Clone, Copy)]
pub(crate) struct Place {
    pub entry: usize,
    pub column: usize,
}
