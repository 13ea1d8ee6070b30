//! The keys of a cell.

ghost use Rattle.std.specs.Prelude.{◌≡◌, ◌≤◌, ◌<◌, ◌+◌, ◌++◌, [], ◌∷◌, length, map, sum};
ghost use Rattle.std.specs.Prelude.{IsSome, IsTrue, IfSome, ◌↔◌};
ghost use Rattle.row_groups.specs.Keeping.{AreParts};
ghost use Rattle.row_groups.specs.Partition.{digits_of, is_legal_cell, planes_of_parts};
ghost use Rattle.row_groups.specs.Partition.{range_for, ranges_in, ranges_of_cell};

use crate::cell_keys::CellKeys;
use crate::part::GroupPart;
use crate::prefix::{PartRange, has_legal, range_with};
use query_model::Nullity;

impl CellKeys {
    /// For each group column, in order, what that part of a key may be.
    pub fn parts(&self) -> &[PartRange]
        ensures { map range_for result.now ≡ ranges_in self.now }
    {
        &self.parts[..usize::from(self.columns)]
    }
}

// The keys of no column.
fn no_columns() -> CellKeys
    ensures { result.columns ≡ 0 }
{
    CellKeys {
        columns: 0,
        parts: [PartRange {
            low: 0,
            high: 0,
            null: Nullity::Never,
        }; 16],
    }
}

// The keys with one more part.
fn with_part(keys: CellKeys, range: PartRange) -> CellKeys
    requires { keys.columns < 16 }
    ensures columns { result.columns ≡ keys.columns + 1 }
    ensures ranges { ranges_in result ≡ ranges_in keys ++ range_for range ∷ [] }
{
    let mut parts = keys.parts;
    parts[usize::from(keys.columns)] = range;
    CellKeys {
        columns: keys.columns + 1,
        parts,
    }
}

// The keys of a cell with so many digits, or none where one of its parts is no legal prefix.
pub(crate) fn read_keys(parts: &[GroupPart], digits: u8, cell: u32) -> Option<CellKeys>
    requires few { length parts.now ≤ 16 }
    requires parts { AreParts parts.now }
    requires planes { sum (planes_of_parts parts.now) ≤ 16 }
    requires digits { digits ≡ digits_of parts.now }
    ensures legal { IsSome result ↔ IsTrue (is_legal_cell parts.now cell) }
    ensures keys { IfSome result (λ keys. ranges_in keys ≡ ranges_of_cell parts.now cell) }
{
    let mut keys = no_columns();
    let mut left = digits;
    let mut rest = cell;
    for part in parts {
        left -= part.read;
        let unit = 1u32 << left;
        let prefix = rest / unit;
        rest %= unit;
        if !has_legal(*part, prefix) {
            return None;
        }
        keys = with_part(keys, range_with(*part, prefix));
    }
    Some(keys)
}
