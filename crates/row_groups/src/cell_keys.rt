//! What the keys of a cell may be.

ghost use Rattle.std.specs.Prelude.{◌≤◌};

use crate::prefix::PartRange;

/// What each part of the keys of a cell may be.
#[derive(Clone, Copy)]
pub struct CellKeys {
    pub(crate) columns: u8,
    pub(crate) parts: [PartRange; 16],
    pub(crate) ghost few: { columns ≤ 16 },
}
