//! Group columns one after the other.

ghost use Rattle.std.specs.Prelude.{◌≡◌, ◌≤◌, ◌<◌, ◌+◌, ◌^◌, ◌==◌, All, IsTrue, IfOk};
ghost use Rattle.std.specs.Prelude.{length, map, sum};
ghost use Rattle.row_groups.specs.Keeping.{digits_behind};
ghost use Rattle.row_groups.specs.Partition.{digits_of, has_unread, raised, unread_part};

use crate::part::GroupPart;
use daq_table::Ends;
use std::alloc::{AllocError, Global};

// The group columns of which nothing is read.
pub(crate) fn unread_parts(
    alloc: Global,
    columns: &[u8],
    ends: &[Ends],
) -> Result<Vec<GroupPart>, AllocError>
    requires { All (λ c. c < length ends.now) columns.now }
    ensures { IfOk result (λ parts. parts.items ≡ map (unread_part ends.now) columns.now) }
{
    let mut parts = Vec::with_capacity(alloc, columns.len())?;
    for column in columns {
        parts.push(GroupPart {
            column: *column,
            ends: ends[usize::from(*column)],
            read: 0,
        })?;
    }
    Ok(parts)
}

// The planes read of these columns together.
pub(crate) fn count_digits(parts: &[GroupPart]) -> u8
    requires { digits_of parts.now ≤ 255 }
    ensures { result ≡ digits_of parts.now }
{
    parts.iter().map(|part| part.read).sum()
}

// Reads one more plane of the column, and says how many digits of a cell stand behind those of the column.
pub(crate) fn raise(parts: &mut [GroupPart], column: u8) -> u8
    requires unread { IsTrue (has_unread parts.old column) }
    requires few { digits_of parts.old ≤ 15 }
    ensures raised { parts.new ≡ raised parts.old column }
    ensures behind { result ≡ digits_behind parts.old column }
{
    for at in 0..parts.len() {
        if parts[at].column == column {
            parts[at].read += 1;
            return count_digits(&parts[at + 1..]);
        }
    }
    0
}

// How many numbers have so many digits.
pub(crate) fn numbers_of(digits: u8) -> u32
    requires { digits ≤ 16 }
    ensures { result ≡ 2 ^ digits }
{
    1 << digits
}
